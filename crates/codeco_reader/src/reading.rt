// The grammar that a text makes.
ghost use Rattle.std.specs.Prelude.{◌≡◌, ◌≤◌, List, ℕ, length, not, IsTrue, IfOk, IfErr, Err};
ghost use Rattle.codeco_terms.specs.GrammarParts.{GrammarParts};
ghost use Rattle.codeco_text.specs.declared.written.WrittenItem.{WrittenItem};
ghost use Rattle.codeco_text.specs.Notation.{lexemes, IsSpelling};
ghost use Rattle.codeco_checked.specs.declared.fault.GrammarFault.TheVariants as fault;
ghost use Rattle.codeco_checked.specs.Sound.{IsSound};
ghost use Rattle.codeco_numbering.specs.Numbered.{numbered_of};
ghost use Rattle.codeco_printer.specs.Printing.{printed};
ghost use Rattle.codeco_printer.specs.Unnumbered.{written_of};
ghost use Rattle.codeco_reader.specs.Texts.{is_in_size, Makes, IsFaultless, SaysOf, Gives};

use codeco_checked::{CheckedGrammar, GrammarFault};
use codeco_early_faults::first_early_fault;
use codeco_late_faults::first_fault;
use codeco_numbering::number_items;
use codeco_text::{SyntaxFault, WrittenItems, read_items};
use std::alloc::Global;

const SIZE_LIMIT: usize = 1_048_576;

// The declarations and rules that a text in size spells.
fn spelled(alloc: Global, text: &[u8]) -> Result<WrittenItems, GrammarFault>
    requires { IsTrue (is_in_size text.now) }
    ensures spelled { IfOk result (λ items. IsSpelling text.now items) }
    ensures only { (items : List WrittenItem) → IsSpelling text.now items → Gives items result }
    ensures fault { IfErr result (SaysOf text.now) }
{
    match read_items(alloc, text) {
        Ok(items) => Ok(items),
        Err(SyntaxFault::At(place)) => Err(GrammarFault::Syntax(place as u32)),
        Err(SyntaxFault::Memory) => Err(GrammarFault::Memory),
    }
}

// The grammar that the declarations and rules of some text make, if no fault holds of it.
fn checked(alloc: Global, items: &WrittenItems) -> Result<CheckedGrammar, GrammarFault>
    requires { (text : List ℕ) × IsSpelling text items.now }
    ensures grammar { IfOk result (λ grammar. grammar ≡ numbered_of items.now) }
    ensures faultless { IfOk result (λ grammar. IsFaultless grammar) }
    ensures fault { (text : List ℕ) → IsSpelling text items.now → IfErr result (SaysOf text) }
{
    if let Some(fault) = first_early_fault(alloc, items)? {
        return Err(fault);
    }
    let grammar = number_items(alloc, items)?;
    match first_fault(alloc, &grammar)? {
        Some(fault) => Err(fault),
        None => Ok(CheckedGrammar::admit(grammar)),
    }
}

/// The grammar that a text of the notation makes: its declarations and rules, with numbers in place of names. A text
/// over 1,048,576 bytes is refused as `TooLarge(0)`. Any other text is refused exactly where a fault holds, with the
/// fault of least number at its first place.
pub fn read_grammar(alloc: Global, text: &str) -> Result<CheckedGrammar, GrammarFault>
    ensures grammar { IfOk result (Makes text.now) }
    ensures faultless { IfOk result (λ grammar. IsFaultless grammar) }
    ensures size { IsTrue (not (is_in_size text.now)) → result ≡ Err (fault.TooLarge 0) }
    ensures fault { IsTrue (is_in_size text.now) → IfErr result (SaysOf text.now) }
    ensures accepts { (grammar : GrammarParts) → IsTrue (is_in_size text.now) → Makes text.now grammar → IsFaultless grammar → Gives grammar result }

    // The printed text of a grammar is read back as an equal one, where it is in size.
    ensures printed { (grammar : GrammarParts) → IsSound grammar → text.now ≡ printed (lexemes (written_of grammar)) → IsTrue (is_in_size text.now)
        → Gives grammar result }
{
    if text.len() > SIZE_LIMIT {
        return Err(GrammarFault::TooLarge(0));
    }
    let items = spelled(alloc, text.as_bytes())?;
    checked(alloc, &items)
}
