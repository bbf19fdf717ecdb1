// What is known of attempts: how many of them are refused.
ghost use Rattle.std.specs.Prelude.{◌≡◌, ◌∷◌, IfOk, string_bytes};
ghost use Rattle.owl_words.specs.Known.{kind_mark, key, IsNoted, Notes};

use crate::bases::spelled;
use lexicon::Kind;
use std::alloc::{AllocError, Global};
use std::collections::HashMap;

/// From the keys of bases to how many attempts for them are refused.
pub(crate) type Counts = HashMap<String, u32>;

/// The key of a base, as a word of the kind.
pub(crate) fn key(alloc: Global, kind: Kind, base: &[char]) -> Result<String, AllocError>
    ensures { IfOk result (λ made. string_bytes made ≡ key kind base.now) }
{
    let mut cs = Vec::new(alloc);
    cs.push(kind_mark(kind))?;
    cs.extend_from_slice(base)?;
    spelled(alloc, &cs)
}

fn kind_mark(kind: Kind) -> char
    ensures { result ≡ kind_mark kind }
{
    match kind {
        Kind::Name => '1',
        Kind::Noun => '2',
        Kind::Of => '3',
        Kind::Verb => '4',
        Kind::Adjective => '5',
    }
}

/// The number that was noted at a key, or 0.
pub(crate) fn noted(counts: &Counts, key: &str) -> u32
    ensures { IsNoted counts.now key.now result }
{
    match counts.get(key) {
        Some(count) => *count,
        None => 0,
    }
}

/// Notes a number at a key, if there is memory for it.
pub(crate) fn note(counts: &mut Counts, key: String, count: u32)
    ensures { Notes counts.old (string_bytes key) count counts.new }
{
    let _noted = counts.insert(key, count);
}
