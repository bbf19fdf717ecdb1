// Charts of which tokens were taken back and others taken tell what new charts of their tokens tell.
ghost use Rattle.std.specs.Prelude.{◌≡◌, OnOk};
ghost use Rattle.derivation_trees.specs.Sentences.{setting_of};

use crate::agreement::{grow, same_entries};
use crate::cases::{dropped, grammar_of, started, taken, tokens_of, words};
use crate::odd::{
    AGREEING, LEFT_OUT, MANY_IN_A_ROW, MARKED_TWICE, NEGATIVE, NOUNS, OPEN_TEST, OTHER_WORD,
    Oddity, PLACE_TO_COME, PLACES, WORD_TO_COME, text_with,
};
use chart::Chart;
use codeco_checked::CheckedGrammar;
use lexicon::Lexicon;
use std::alloc::Global;
use std::test::Fail;
use wiki_base::Token;

// Whether the charts tell the same of their tokens.
fn tell_the_same(
    one: &Chart,
    other: &Chart,
    grammar: &CheckedGrammar,
    lexicon: &Lexicon,
) -> Result<bool, Fail>
    requires one { one.now ≡ setting_of grammar.now lexicon.now one.now.tokens }
    requires other { other.now ≡ setting_of grammar.now lexicon.now other.now.tokens }
{
    let menu = one.menu(grammar, lexicon)?;
    let other_menu = other.menu(grammar, lexicon)?;
    Ok(one.complete() == other.complete() && same_entries(&menu, &other_menu))
}

// Takes the tokens into the new chart. Whether it tells the same as the other one.
fn tells_the_same(
    new: &mut Chart,
    chart: &Chart,
    grammar: &CheckedGrammar,
    lexicon: &Lexicon,
) -> Result<bool, Fail>
    requires new { new.old ≡ setting_of grammar.now lexicon.now new.old.tokens }
    requires kept { chart.now ≡ setting_of grammar.now lexicon.now chart.now.tokens }
{
    let _ = grow(new, grammar, lexicon, chart.tokens().as_slice())?;
    tell_the_same(new, chart, grammar, lexicon)
}

// Whether the chart tells what a new chart of its tokens tells.
fn tells_as_new(
    alloc: Global,
    chart: &Chart,
    grammar: &CheckedGrammar,
    lexicon: &Lexicon,
) -> Result<bool, Fail>
    requires { chart.now ≡ setting_of grammar.now lexicon.now chart.now.tokens }
{
    let mut new = started(alloc, grammar, lexicon)?;
    tells_the_same(&mut new, chart, grammar, lexicon)
}

// Takes the last two tokens away. Whether the chart then tells what a new one tells, each time.
fn two_dropped(
    alloc: Global,
    chart: &mut Chart,
    grammar: &CheckedGrammar,
    lexicon: &Lexicon,
) -> Result<bool, Fail>
    requires { chart.old ≡ setting_of grammar.now lexicon.now chart.old.tokens }
    ensures { OnOk result (chart.new ≡ setting_of grammar.now lexicon.now chart.new.tokens) }
{
    let _ = dropped(chart, grammar, lexicon);
    let first = tells_as_new(alloc, chart, grammar, lexicon)?;
    let _ = dropped(chart, grammar, lexicon);
    let second = tells_as_new(alloc, chart, grammar, lexicon)?;
    Ok(first && second)
}

// Takes the two tokens. Whether the chart then tells what a new one tells, each time.
fn two_taken(
    alloc: Global,
    chart: &mut Chart,
    grammar: &CheckedGrammar,
    lexicon: &Lexicon,
    token: &Token,
    other: &Token,
) -> Result<bool, Fail>
    requires { chart.old ≡ setting_of grammar.now lexicon.now chart.old.tokens }
    ensures { OnOk result (chart.new ≡ setting_of grammar.now lexicon.now chart.new.tokens) }
{
    let _ = taken(chart, grammar, lexicon, token)?;
    let first = tells_as_new(alloc, chart, grammar, lexicon)?;
    let _ = taken(chart, grammar, lexicon, other)?;
    let second = tells_as_new(alloc, chart, grammar, lexicon)?;
    Ok(first && second)
}

// Takes the tokens, takes the last two of them away, and takes them in the other order. Whether the chart then tells what a new one
// tells, each time.
fn tells_as_new_after(
    alloc: Global,
    chart: &mut Chart,
    grammar: &CheckedGrammar,
    lexicon: &Lexicon,
    tokens: &[Token],
) -> Result<bool, Fail>
    requires { chart.old ≡ setting_of grammar.now lexicon.now chart.old.tokens }
{
    let _ = grow(chart, grammar, lexicon, tokens)?;
    let [_, second, third] = tokens else {
        return Err(Fail::new("three tokens"));
    };
    let dropped = two_dropped(alloc, chart, grammar, lexicon)?;
    let taken = two_taken(alloc, chart, grammar, lexicon, third, second)?;
    Ok(dropped && taken)
}

fn tells_as_new_from_the_start(
    alloc: Global,
    grammar: &CheckedGrammar,
    lexicon: &Lexicon,
    text: &str,
) -> Result<bool, Fail> {
    let tokens = tokens_of(alloc, grammar, text)?;
    let mut chart = started(alloc, grammar, lexicon)?;
    tells_as_new_after(alloc, &mut chart, grammar, lexicon, tokens.as_slice())
}

// The first list of three of the tokens on which a chart tells something otherwise than new ones.
fn difference_on_texts(
    alloc: Global,
    grammar: &CheckedGrammar,
    lexicon: &Lexicon,
    tokens: &[&str],
) -> Result<Option<String>, Fail> {
    let count = tokens
        .len()
        .saturating_mul(tokens.len())
        .saturating_mul(tokens.len());
    for number in 0..count {
        let text = text_with(alloc, tokens, number, 3)?;
        if !tells_as_new_from_the_start(alloc, grammar, lexicon, text.as_str())? {
            return Ok(Some(text));
        }
    }
    Ok(None)
}

fn difference_with_nouns(
    alloc: Global,
    grammar: &CheckedGrammar,
    tokens: &[&str],
) -> Result<Option<String>, Fail> {
    let lexicon = words(alloc, grammar, &NOUNS)?;
    difference_on_texts(alloc, grammar, &lexicon, tokens)
}

fn difference_on(alloc: Global, odd: &Oddity) -> Result<Option<String>, Fail> {
    let grammar = grammar_of(alloc, odd.grammar)?;
    difference_with_nouns(alloc, &grammar, odd.tokens)
}

// With variables over positions, words and atoms, and with states that are merged.
const KEPT: [&Oddity; 10] = [
    &OPEN_TEST,
    &MARKED_TWICE,
    &NEGATIVE,
    &LEFT_OUT,
    &PLACES,
    &WORD_TO_COME,
    &PLACE_TO_COME,
    &AGREEING,
    &OTHER_WORD,
    &MANY_IN_A_ROW,
];

#[test]
fn a_chart_tells_what_a_new_one_tells_after_tokens_were_taken_back(
    rt: HostRuntime,
) -> Result<(), Fail> {
    for odd in &KEPT {
        let other = difference_on(rt.alloc(), *odd)?;
        assert!(&rt; other.is_none(), "a new chart differs by {}", odd.grammar);
    }
    Ok(())
}
