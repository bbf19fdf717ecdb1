// Sentences of the built-in grammar, with all lists of their first tokens.
use ace_grammar::built_in;
use chart_examples::{difference, words};
use codeco_checked::CheckedGrammar;
use lexicon::{Kind, Lexicon};
use std::alloc::Global;
use std::process::Abort;
use std::test::Fail;

const PEOPLE: [(Kind, &[&str]); 6] = [
    (Kind::Name, &["Mary"]),
    (Kind::Name, &["Bill"]),
    (Kind::Noun, &["cat"]),
    (Kind::Noun, &["sheep", "sheep"]),
    (Kind::Verb, &["sees", "see", "seen"]),
    (Kind::Verb, &["owns", "own", "owned"]),
];

fn agrees(
    rt: &impl Abort,
    alloc: Global,
    grammar: &CheckedGrammar,
    lexicon: &Lexicon,
    text: &str,
) -> Result<(), Fail> {
    let other = difference(alloc, grammar, lexicon, text)?;
    assert!(rt; other.is_none(), "what is told of {text}");
    Ok(())
}

// The chart agrees with the listing on the tokens of the text, and on those before each of its spaces.
fn agrees_on_fronts(
    rt: &impl Abort,
    alloc: Global,
    grammar: &CheckedGrammar,
    lexicon: &Lexicon,
    text: &str,
) -> Result<(), Fail> {
    for (place, byte) in text.bytes().enumerate() {
        if byte == b' ' && text.is_char_boundary(place) {
            agrees(rt, alloc, grammar, lexicon, &text[..place])?;
        }
    }
    agrees(rt, alloc, grammar, lexicon, text)
}

fn agree_on_fronts(rt: &impl Abort, alloc: Global, texts: &[&str]) -> Result<(), Fail> {
    let grammar = built_in(alloc)?;
    agree_with_people(rt, alloc, &grammar, texts)
}

fn agree_with_people(
    rt: &impl Abort,
    alloc: Global,
    grammar: &CheckedGrammar,
    texts: &[&str],
) -> Result<(), Fail> {
    let lexicon = words(alloc, grammar, &PEOPLE)?;
    agree_on_all(rt, alloc, grammar, &lexicon, texts)
}

fn agree_on_all(
    rt: &impl Abort,
    alloc: Global,
    grammar: &CheckedGrammar,
    lexicon: &Lexicon,
    texts: &[&str],
) -> Result<(), Fail> {
    for text in texts {
        agrees_on_fronts(rt, alloc, grammar, lexicon, *text)?;
    }
    Ok(())
}

#[test]
fn sentences_without_references_agree(rt: HostRuntime) -> Result<(), Fail> {
    agree_on_fronts(
        &rt,
        rt.alloc(),
        &[
            "Mary sees a cat.",
            "Which sheep does Mary see?",
            "Nothing is something.",
            "Every cat that sees Mary owns only sheep.",
            "Mary sees an cat.",
        ],
    )
}

#[test]
fn sentences_with_references_agree(rt: HostRuntime) -> Result<(), Fail> {
    agree_on_fronts(
        &rt,
        rt.alloc(),
        &[
            "Mary sees a cat and sees it.",
            "If X sees Y then Y sees X.",
            "Every cat sees itself.",
            "Mary sees the cat.",
        ],
    )
}

#[test]
fn what_a_closed_scope_has_left_agrees(rt: HostRuntime) -> Result<(), Fail> {
    let text = "Mary sees no cat and sees it.";
    agree_on_fronts(&rt, rt.alloc(), &[text])
}
