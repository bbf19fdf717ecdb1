// Words in order.
ghost use Rattle.std.specs.Prelude.{◌≡◌, ℕ, ◌↔◌, map, Contains, IfOk, IsTrue};
ghost use Rattle.std.specs.List.Sorted.{IsStrictlyIncreasing};
ghost use Rattle.logic_terms.specs.Names.{names_rise};
ghost use Rattle.absorb.specs.Numbered.{numbered, number_of};

use std::alloc::Global;
use wiki_base::{Memory, WordId};

// The same words in order of their numbers, each once.
pub(crate) fn in_order(alloc: Global, words: &[WordId]) -> Result<Vec<WordId>, Memory>
    ensures rising { IfOk result (λ made. IsTrue (names_rise made.items)) }
    ensures same { IfOk result (λ made. (word : WordId) → Contains made.items word ↔ Contains words.now word) }
{
    let mut numbers = numbers_of(alloc, words)?;
    put_in_order(&mut numbers);
    let made = words_of(alloc, numbers.as_slice())?;
    Ok(made)
}

fn words_of(alloc: Global, numbers: &[u32]) -> Result<Vec<WordId>, Memory>
    ensures { IfOk result (λ made. made.items ≡ map numbered numbers.now) }
{
    let made = numbers.iter().map(|number| WordId(*number)).collect(alloc)?;
    Ok(made)
}

fn numbers_of(alloc: Global, words: &[WordId]) -> Result<Vec<u32>, Memory>
    ensures { IfOk result (λ made. made.items ≡ map number_of words.now) }
{
    let made = words.iter().map(|word| word.0).collect(alloc)?;
    Ok(made)
}

fn put_in_order(numbers: &mut Vec<u32>)
    ensures rises { IsStrictlyIncreasing numbers.new.items }
    ensures keeps { (n : ℕ) → Contains numbers.old.items n → Contains numbers.new.items n }
    ensures adds_none { (n : ℕ) → Contains numbers.new.items n → Contains numbers.old.items n }
{
    numbers.sort_unstable();
    numbers.dedup();
}
