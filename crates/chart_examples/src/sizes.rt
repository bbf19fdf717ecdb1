// How large the table is.
ghost use Rattle.std.specs.Prelude.{◌≤◌, length};

use crate::cases::{grammar_of, tokens_of, words};
use ace_grammar::built_in;
use chart_table::{Ask, Size, table_size};
use codeco_checked::CheckedGrammar;
use derivation_trees::{Setting, readings_of};
use lexicon::{Kind, Lexicon};
use std::alloc::Global;
use std::process::Abort;
use std::test::Fail;
use wiki_base::Tokens;

fn size_of_read(
    alloc: Global,
    grammar: &CheckedGrammar,
    lexicon: &Lexicon,
    tokens: &Tokens,
) -> Result<Size, Fail>
    requires { length tokens.now ≤ 40 }
{
    let readings = readings_of(alloc, lexicon, tokens.as_slice())?;
    let setting = Setting {
        grammar: grammar.grammar(),
        tokens: tokens.as_slice(),
        readings: readings.as_slice(),
    };
    Ok(table_size(alloc, &setting, tokens.len(), &[Ask::Any])?)
}

// The size of the table of the text's tokens.
fn size_of(
    alloc: Global,
    grammar: &CheckedGrammar,
    lexicon: &Lexicon,
    text: &str,
) -> Result<Size, Fail> {
    let tokens = tokens_of(alloc, grammar, text)?;
    size_of_read(alloc, grammar, lexicon, &tokens)
}

const WORDS: [(Kind, &[&str]); 3] = [
    (Kind::Name, &["Mary"]),
    (Kind::Verb, &["sees", "see", "seen"]),
    (Kind::Of, &["part"]),
];

// Ten tokens, and forty, of long sentences.
const RELATIVES: [&str; 2] = [
    "Mary sees something that sees something that sees something .",
    "Mary sees something that sees something that sees something that sees something that sees something that sees \
     something that sees something that sees something that sees something that sees something that sees something \
     that sees something that sees something .",
];

const COORDINATION: [&str; 2] = [
    "Mary sees something and sees something and sees something .",
    "Mary sees something and sees something and sees something and sees something and sees something and sees \
     something and sees something and sees something and sees something and sees something and sees something \
     and sees something and sees something .",
];

const PARTS: [&str; 2] = [
    "Mary sees a part of a part of Mary .",
    "Mary sees a part of a part of a part of a part of a part of a part of a part of a part of a part of a part of \
     a part of a part of Mary .",
];

// The table of forty tokens has few states, and at most five times the rows of that of ten.
fn stays_small(
    rt: &impl Abort,
    alloc: Global,
    grammar: &CheckedGrammar,
    lexicon: &Lexicon,
    texts: &[&str; 2],
) -> Result<(), Fail> {
    let few = size_of(alloc, grammar, lexicon, texts[0])?;
    let many = size_of(alloc, grammar, lexicon, texts[1])?;
    assert!(rt;
        10 <= few.rows && few.rows < many.rows && many.rows / 5 <= few.rows,
        "{} rows for 10 tokens, {} for 40",
        few.rows,
        many.rows
    );
    assert!(rt;
        few.states < many.states && many.states < 3_000,
        "{} states for 10 tokens, {} for 40",
        few.states,
        many.states
    );
    Ok(())
}

fn each_stays_small(rt: &impl Abort, alloc: Global, grammar: &CheckedGrammar) -> Result<(), Fail> {
    let lexicon = words(alloc, grammar, &WORDS)?;
    stays_small(rt, alloc, grammar, &lexicon, &RELATIVES)?;
    stays_small(rt, alloc, grammar, &lexicon, &COORDINATION)?;
    stays_small(rt, alloc, grammar, &lexicon, &PARTS)
}

#[test]
fn a_table_of_forty_tokens_has_under_three_thousand_states(rt: HostRuntime) -> Result<(), Fail> {
    let grammar = built_in(rt.alloc())?;
    each_stays_small(&rt, rt.alloc(), &grammar)
}

// Forty times `x`.
const FORTY: &str =
    "x x x x x x x x x x x x x x x x x x x x x x x x x x x x x x x x x x x x x x x x";

// Grammars with eight and with twelve of one category in a row, and with six of them within another one: forty tokens can be
// shared out among these in 15 million, in 1,676 million and in half a million ways.
const IN_A_ROW: [&str; 3] = [
    "text --> a a a a a a a a [e]. a --> [x]. a --> [x] a.",
    "text --> a a a a a a a a a a a a [e]. a --> [x]. a --> [x] a.",
    "text --> s [e]. s --> a a a a a a. a --> [x]. a --> [x] a.",
];

fn size_without_words(alloc: Global, grammar: &CheckedGrammar) -> Result<Size, Fail> {
    let lexicon = words(alloc, grammar, &[])?;
    size_of(alloc, grammar, &lexicon, FORTY)
}

// The table has far fewer states than there are ways to share out the tokens.
fn stays_small_in_a_row(rt: &impl Abort, alloc: Global, grammar: &str) -> Result<(), Fail> {
    let checked = grammar_of(alloc, grammar)?;
    let size = size_without_words(alloc, &checked)?;
    assert!(rt;
        40 <= size.rows && size.rows < 200,
        "{} rows for {grammar}",
        size.rows
    );
    assert!(rt;
        40 <= size.states && size.states < 10_000,
        "{} states for {grammar}",
        size.states
    );
    Ok(())
}

#[test]
fn states_are_not_as_many_as_ways_to_share_out_tokens(rt: HostRuntime) -> Result<(), Fail> {
    for grammar in IN_A_ROW {
        stays_small_in_a_row(&rt, rt.alloc(), grammar)?;
    }
    Ok(())
}
