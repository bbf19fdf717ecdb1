// What other grammars make of a sentence of the table.
ghost use Rattle.std.specs.Prelude.{IsTrue};
ghost use Rattle.codeco_checked.specs.Sound.{is_labelled};

use crate::saying::{DOG, MAN, told, words};
use codeco_checked::CheckedGrammar;
use codeco_reader::read_grammar;
use logic_terms::{Axiom, Class};
use std::alloc::Global;
use std::process::Abort;
use std::test::Fail;

// What is told by another grammar of the axiom that each man is a dog.
fn is_told_by(
    rt: &impl Abort,
    alloc: Global,
    grammar: &CheckedGrammar,
    expected: &str,
) -> Result<(), Fail>
    requires { IsTrue (is_labelled grammar.now) }
{
    let lexicon = words(alloc, grammar)?;
    let axiom = Axiom::SubClass(Class::Named(MAN), Class::Named(DOG));
    assert_eq!(rt; told(alloc, grammar, &lexicon, &axiom)?.as_str(), expected);
    Ok(())
}

// The same by a grammar in the notation.
fn is_told_by_text(rt: &impl Abort, alloc: Global, text: &str, expected: &str) -> Result<(), Fail> {
    let grammar = read_grammar(alloc, text)?;
    if !grammar.is_labelled() {
        return Err(Fail::new("a grammar with labels"));
    }
    is_told_by(rt, alloc, &grammar, expected)
}

#[test]
fn a_grammar_may_read_otherwise(rt: HostRuntime) -> Result<(), Fail> {
    let alloc = rt.alloc();
    is_told_by_text(
        &rt,
        alloc,
        "feature w: word. feature id: position. {statement} text --> s [.]. {say} s --> np vp. \
         {name} np --> $name(w: W) #P >> r(w: W, id: P). {class} vp --> [is] [a] $noun.",
        "every man is a dog. is read as no sentence",
    )?;
    is_told_by_text(
        &rt,
        alloc,
        "feature w: word. feature id: position. {ask} text --> q [.]. {which} q --> [every] b vp. \
         {noun} b --> $noun(w: W) #P > r(w: W, id: P). {class} vp --> [is] [a] $noun.",
        "Every man is a dog. is read as a question",
    )?;
    is_told_by_text(
        &rt,
        alloc,
        "feature w: word. feature id: position. {statement} text --> s [.]. {say} s --> np vp. {some} np --> [every] b. \
         {noun} b --> $noun(w: W) #P > r(w: W, id: P). {class} vp --> [is] [a] $noun.",
        "Every man is a dog. is read as outside",
    )
}
