use crate::interpretations::{all_interpretations, interpretation};
use crate::meanings::{agree, built, words};
use crate::sentences::{
    CONDITIONALS, OF_EVERYTHING, OF_NAMES, OF_SOMETHING, QUESTIONS, Row, STRUCTURES,
};
use crate::structures::shown;
use ace_grammar::built_in;
use drs_build::Built;
use owl_eval::drs_true;
use std::alloc::Global;
use std::process::Abort;
use std::test::Fail;

fn have_structures(rt: &impl Abort, alloc: Global, rows: &[Row]) -> Result<(), Fail> {
    let grammar = built_in(alloc)?;
    let lexicon = words(alloc, &grammar)?;
    for (text, expected) in rows {
        let meant = built(alloc, &grammar, &lexicon, text)?;
        assert!(rt;
            shown(alloc, &lexicon, &meant)?.as_str() == *expected,
            "{text}"
        );
    }
    Ok(())
}

// The structures and the axioms of the sentences are true in the same interpretations.
fn say_the_same(rt: &impl Abort, alloc: Global, texts: &[&str]) -> Result<(), Fail> {
    let grammar = built_in(alloc)?;
    let lexicon = words(alloc, &grammar)?;
    let interps = all_interpretations(alloc)?;
    for text in texts {
        let meant = built(alloc, &grammar, &lexicon, text)?;
        assert!(rt; agree(alloc, interps.as_slice(), &meant)?, "{text}");
    }
    Ok(())
}

#[test]
fn each_label_gives_its_structure(rt: HostRuntime) -> Result<(), Fail> {
    have_structures(&rt, rt.alloc(), STRUCTURES.as_slice())
}

#[test]
fn mary_owns_a_dog_where_she_is_a_dog_that_owns_itself(rt: HostRuntime) -> Result<(), Fail> {
    let alloc = rt.alloc();
    let grammar = built_in(alloc)?;
    let lexicon = words(alloc, &grammar)?;
    let Built::Statement(drs) = built(alloc, &grammar, &lexicon, "Mary owns a dog.")? else {
        return Err(Fail::new("a statement"));
    };
    for (code, truth) in [(0, false), (2, false), (4, false), (6, true)] {
        let interp = interpretation(alloc, 1, code)?;
        assert!(rt; drs_true(alloc, &interp, &drs)? == truth, "{code}");
    }
    Ok(())
}

#[test]
fn statements_on_names_keep_their_truth(rt: HostRuntime) -> Result<(), Fail> {
    say_the_same(&rt, rt.alloc(), OF_NAMES.as_slice())
}

#[test]
fn statements_on_something_keep_their_truth(rt: HostRuntime) -> Result<(), Fail> {
    say_the_same(&rt, rt.alloc(), OF_SOMETHING.as_slice())
}

#[test]
fn statements_on_everything_keep_their_truth(rt: HostRuntime) -> Result<(), Fail> {
    say_the_same(&rt, rt.alloc(), OF_EVERYTHING.as_slice())
}

#[test]
fn conditionals_keep_their_truth(rt: HostRuntime) -> Result<(), Fail> {
    say_the_same(&rt, rt.alloc(), CONDITIONALS.as_slice())
}

#[test]
fn questions_keep_their_truth(rt: HostRuntime) -> Result<(), Fail> {
    say_the_same(&rt, rt.alloc(), QUESTIONS.as_slice())
}
