// Axioms of each row of the table, said and read again: by the built-in grammar none of them is read otherwise.
ghost use Rattle.std.specs.Prelude.{IsTrue};
ghost use Rattle.codeco_checked.specs.Sound.{is_labelled};

use crate::generated::{Draws, OF_EVERYTHING, OF_NAMES, OF_NOUNS, OF_RELATIONS, Row, axiom_of};
use crate::saying::{stated, words};
use ace_grammar::built_in;
use codeco_checked::CheckedGrammar;
use derivation_trees::show;
use lexicon::Lexicon;
use logic_terms::Axiom;
use owl_text::print_axiom;
use std::alloc::Global;
use std::process::Abort;
use std::test::Fail;
use verbalise::{Spoken, say};
use wiki_base::Tokens;

// How many axioms of each row are made.
const OF_EACH_ROW: u32 = 2_000;

// The sentence, written and read again, states just the axiom.
fn states_just(
    rt: &impl Abort,
    alloc: Global,
    grammar: &CheckedGrammar,
    lexicon: &Lexicon,
    tokens: &Tokens,
    axiom: &Axiom,
) -> Result<(), Fail>
    requires { IsTrue (is_labelled grammar.now) }
{
    let text = show(alloc, grammar.grammar(), tokens)?;
    let axioms = stated(alloc, grammar, lexicon, text.as_str())?;
    assert_eq!(rt; axioms.len(), 1, "{}", text.as_str());
    for stated in axioms.as_slice() {
        let printed = print_axiom(alloc, axiom, lexicon)?;
        assert_eq!(rt;
            print_axiom(alloc, stated, lexicon)?.as_str(),
            printed.as_str()
        );
    }
    Ok(())
}

// The axiom goes round, or is too long for a sentence.
fn goes_round(
    rt: &impl Abort,
    alloc: Global,
    grammar: &CheckedGrammar,
    lexicon: &Lexicon,
    axiom: &Axiom,
) -> Result<(), Fail>
    requires { IsTrue (is_labelled grammar.now) }
{
    match say(grammar, lexicon, axiom)? {
        Spoken::Sentence(tokens) => states_just(rt, alloc, grammar, lexicon, &tokens, axiom),
        Spoken::TooLong(_) => Ok(()),
        Spoken::NoPattern => Err(Fail::new("an axiom with a pattern")),
        Spoken::ReadOtherwise(_, _) => Err(Fail::new("a sentence that is read as its axiom")),
    }
}

// So many axioms of each of the rows go round, none of them read otherwise.
fn rows_go_round(rt: &impl Abort, alloc: Global, rows: &[Row]) -> Result<(), Fail> {
    let grammar = built_in(alloc)?;
    let lexicon = words(alloc, &grammar)?;
    let mut draws = Draws { state: 7 };
    for row in rows {
        for _ in 0..OF_EACH_ROW {
            let axiom = axiom_of(alloc, &mut draws, *row)?;
            goes_round(rt, alloc, &grammar, &lexicon, &axiom)?;
        }
    }
    Ok(())
}

#[test]
fn what_is_said_of_names_is_read_again(rt: HostRuntime) -> Result<(), Fail> {
    rows_go_round(&rt, rt.alloc(), OF_NAMES.as_slice())
}

#[test]
fn what_is_said_of_nouns_is_read_again(rt: HostRuntime) -> Result<(), Fail> {
    rows_go_round(&rt, rt.alloc(), OF_NOUNS.as_slice())
}

#[test]
fn what_is_said_of_everything_is_read_again(rt: HostRuntime) -> Result<(), Fail> {
    rows_go_round(&rt, rt.alloc(), OF_EVERYTHING.as_slice())
}

#[test]
fn what_is_said_of_relations_is_read_again(rt: HostRuntime) -> Result<(), Fail> {
    rows_go_round(&rt, rt.alloc(), OF_RELATIONS.as_slice())
}
