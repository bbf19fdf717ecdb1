// What a wiki knows, a line for each axiom.
ghost use Rattle.std.specs.Prelude.{◌≡◌, ◌++◌, ◌∷◌, [], IfOk, IsTrue, OnOk};
ghost use Rattle.codeco_checked.specs.Sound.{is_labelled};
ghost use Rattle.logic_terms.specs.Shown.{claim_of, claims_of};
ghost use Rattle.retelling.specs.Saying.{bare_text, IsTextOf, AreLinesOf, SaysAll};

use codeco_checked::CheckedGrammar;
use derivation_trees::show;
use lexicon::Lexicon;
use logic_terms::{Axiom, Axioms};
use owl_text::print_axiom;
use std::alloc::Global;
use verbalise::{Spoken, say};
use wiki_base::{Memory, Text8};
use wiki_core::Wiki;

/// The lines of all that the wiki knows: of each axiom its sentence, or its text behind a hyphen where no sentence says
/// exactly that axiom.
pub fn say_all(alloc: Global, wiki: &Wiki) -> Result<Text8, Memory>
    ensures { IfOk result (SaysAll wiki.now.state.stored) }
{
    lines_of(alloc, wiki.grammar(), wiki.lexicon(), wiki.asserted())
}

// The lines of axioms.
fn lines_of(
    alloc: Global,
    grammar: &CheckedGrammar,
    words: &Lexicon,
    axioms: &Axioms,
) -> Result<Text8, Memory>
    requires { IsTrue (is_labelled grammar.now) }
    ensures { IfOk result (AreLinesOf grammar.now words.now (claims_of axioms.now)) }
{
    let mut lines = Text8::new(alloc);
    for place in 0..axioms.len() {
        let text = text_of(alloc, grammar, words, axioms.get(place))?;
        push_line(&mut lines, &text)?;
    }
    Ok(lines)
}

// Adds a text as a line.
fn push_line(lines: &mut Text8, text: &Text8) -> Result<(), Memory>
    ensures { OnOk result (lines.new ≡ lines.old ++ (text.now ++ 10 ∷ [])) }
{
    lines.push_str(text.as_str())?;
    lines.push_str("\n")
}

// The text of an axiom.
fn text_of(
    alloc: Global,
    grammar: &CheckedGrammar,
    words: &Lexicon,
    axiom: &Axiom,
) -> Result<Text8, Memory>
    requires { IsTrue (is_labelled grammar.now) }
    ensures { IfOk result (IsTextOf grammar.now words.now (claim_of «axiom».now)) }
{
    match say(grammar, words, axiom)? {
        Spoken::Sentence(tokens) => show(alloc, grammar.grammar(), &tokens),
        Spoken::NoPattern => bare_text(alloc, words, axiom),
        Spoken::TooLong(_) => bare_text(alloc, words, axiom),
        Spoken::ReadOtherwise(_, _) => bare_text(alloc, words, axiom),
    }
}

// The text of an axiom that has no sentence.
fn bare_text(alloc: Global, words: &Lexicon, axiom: &Axiom) -> Result<Text8, Memory>
    ensures { IfOk result (λ text. text ≡ bare_text words.now (claim_of «axiom».now)) }
{
    let printed = print_axiom(alloc, axiom, words)?;
    let mut text = Text8::from_str(alloc, "- ")?;
    text.push_str(printed.as_str())?;
    Ok(text)
}
