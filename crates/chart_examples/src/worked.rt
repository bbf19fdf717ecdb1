// Worked cases of long lists, and of charts that grow and shrink.
ghost use Rattle.std.specs.Prelude.{◌≡◌, OnOk};
ghost use Rattle.derivation_trees.specs.Sentences.{setting_of};

use crate::cases::{dropped, grammar_of, started, taken, tokens_of, words};
use chart::Chart;
use chart_trees::least;
use codeco_checked::CheckedGrammar;
use derivation_trees::{Group, Menu};
use lexicon::Lexicon;
use lists::List;
use std::alloc::Global;
use std::process::Abort;
use std::test::Fail;

// The code of the chart's least skeleton; no parts where there is none.
fn least_code(
    alloc: Global,
    chart: &Chart,
    grammar: &CheckedGrammar,
    lexicon: &Lexicon,
) -> Result<List<u16>, Fail>
    requires { chart.now ≡ setting_of grammar.now lexicon.now chart.now.tokens }
{
    match least(chart, grammar, lexicon)? {
        None => Ok(List::new(alloc)),
        Some(skeleton) => Ok(skeleton.code(alloc)?),
    }
}

// Takes the text's tokens into the chart, and tells whether each list of first ones has a partial derivation.
fn all_taken(
    alloc: Global,
    chart: &mut Chart,
    grammar: &CheckedGrammar,
    lexicon: &Lexicon,
    text: &str,
) -> Result<bool, Fail>
    requires { chart.old ≡ setting_of grammar.now lexicon.now chart.old.tokens }
    ensures { OnOk result (chart.new ≡ setting_of grammar.now lexicon.now chart.new.tokens) }
{
    let tokens = tokens_of(alloc, grammar, text)?;
    let mut all = true;
    for token in tokens.as_slice() {
        let begins = taken(chart, grammar, lexicon, token)?;
        all = all && begins;
    }
    Ok(all)
}

// Takes the text's tokens, or with no text the last token away; tells what the chart answers.
fn step(
    alloc: Global,
    chart: &mut Chart,
    grammar: &CheckedGrammar,
    lexicon: &Lexicon,
    text: &str,
) -> Result<bool, Fail>
    requires { chart.old ≡ setting_of grammar.now lexicon.now chart.old.tokens }
    ensures { OnOk result (chart.new ≡ setting_of grammar.now lexicon.now chart.new.tokens) }
{
    if text.is_empty() {
        let some = dropped(chart, grammar, lexicon);
        return Ok(some);
    }
    let all = all_taken(alloc, chart, grammar, lexicon, text)?;
    Ok(all)
}

// The chart is complete exactly where there is a code, and has this least code.
fn has_code(
    rt: &impl Abort,
    alloc: Global,
    chart: &Chart,
    grammar: &CheckedGrammar,
    lexicon: &Lexicon,
    code: &[u16],
) -> Result<(), Fail>
    requires { chart.now ≡ setting_of grammar.now lexicon.now chart.now.tokens }
{
    assert_eq!(rt; chart.complete(), !code.is_empty());
    let found = least_code(alloc, chart, grammar, lexicon)?;
    assert!(rt; found.as_slice() == code);
    Ok(())
}

// A list of first tokens to take, or with no text the last token to take away; what is told then, and the least code.
type Step<'a> = (&'a str, bool, &'a [u16]);

fn steps_go(
    rt: &impl Abort,
    alloc: Global,
    chart: &mut Chart,
    grammar: &CheckedGrammar,
    lexicon: &Lexicon,
    steps: &[Step<'_>],
) -> Result<(), Fail>
    requires { chart.old ≡ setting_of grammar.now lexicon.now chart.old.tokens }
{
    for (text, told, code) in steps {
        let answer = step(alloc, chart, grammar, lexicon, *text)?;
        assert_eq!(rt; answer, *told, "what is told of {text}");
        has_code(rt, alloc, chart, grammar, lexicon, *code)?;
    }
    Ok(())
}

fn go(rt: &impl Abort, alloc: Global, grammar: &str, steps: &[Step<'_>]) -> Result<(), Fail> {
    let grammar = grammar_of(alloc, grammar)?;
    go_without_words(rt, alloc, &grammar, steps)
}

fn go_without_words(
    rt: &impl Abort,
    alloc: Global,
    grammar: &CheckedGrammar,
    steps: &[Step<'_>],
) -> Result<(), Fail> {
    let lexicon = words(alloc, grammar, &[])?;
    all_go(rt, alloc, grammar, &lexicon, steps)
}

// The steps go from a chart of no tokens.
fn all_go(
    rt: &impl Abort,
    alloc: Global,
    grammar: &CheckedGrammar,
    lexicon: &Lexicon,
    steps: &[Step<'_>],
) -> Result<(), Fail> {
    let mut chart = started(alloc, grammar, lexicon)?;
    steps_go(rt, alloc, &mut chart, grammar, lexicon, steps)
}

const REFERENTS: &str =
    "feature k: p, q. feature id: position. text --> m n r [e]. m --> [m] #P > x(k: p, id: P). \
     n --> [n] #P > x(k: q, id: P). r --> < +x(k: K, id: ?I) [r].";

#[test]
fn two_tokens_away_and_back_change_nothing(rt: HostRuntime) -> Result<(), Fail> {
    go(
        &rt,
        rt.alloc(),
        REFERENTS,
        &[
            ("m n r e", true, &[1, 2, 3, 4, 1]),
            ("", true, &[]),
            ("", true, &[]),
            ("r", true, &[]),
            ("e", true, &[1, 2, 3, 4, 1]),
        ],
    )
}

#[test]
fn a_chart_goes_on_after_a_token_that_does_not_fit(rt: HostRuntime) -> Result<(), Fail> {
    go(
        &rt,
        rt.alloc(),
        "text --> [a]. text --> [a] [b].",
        &[
            ("a", true, &[1]),
            ("a b", false, &[]),
            ("", true, &[]),
            ("", true, &[1]),
            ("b", true, &[2]),
            ("", true, &[1]),
            ("", true, &[]),
            ("", false, &[]),
        ],
    )
}

const AMBIGUOUS: &str = "text --> s [e]. s --> a. s --> a s. s --> b s. a --> [x]. b --> [x].";

// 39 times `x`: with `e` behind them they have 2^38 derivations.
const MANY: &str = "x x x x x x x x x x x x x x x x x x x x x x x x x x x x x x x x x x x x x x x";

// 1, then 38 times 3, 5, then 2, 5.
const LEAST_OF_MANY: [u16; 79] = [
    1, 3, 5, 3, 5, 3, 5, 3, 5, 3, 5, 3, 5, 3, 5, 3, 5, 3, 5, 3, 5, 3, 5, 3, 5, 3, 5, 3, 5, 3, 5, 3,
    5, 3, 5, 3, 5, 3, 5, 3, 5, 3, 5, 3, 5, 3, 5, 3, 5, 3, 5, 3, 5, 3, 5, 3, 5, 3, 5, 3, 5, 3, 5, 3,
    5, 3, 5, 3, 5, 3, 5, 3, 5, 3, 5, 3, 5, 2, 5,
];

#[test]
fn very_many_trees_take_no_time(rt: HostRuntime) -> Result<(), Fail> {
    go(
        &rt,
        rt.alloc(),
        AMBIGUOUS,
        &[
            (MANY, true, &[]),
            ("e", true, &LEAST_OF_MANY),
            ("", true, &[]),
        ],
    )
}

fn offers_two(menu: &Menu<'_>, first: &str, second: &str) -> bool {
    if menu.len() != 2 {
        return false;
    }
    let (group, text) = menu.get(0);
    let (other_group, other_text) = menu.get(1);
    group == Group::Function
        && text == first
        && other_group == Group::Function
        && other_text == second
}

fn menu_has_two(
    chart: &Chart,
    grammar: &CheckedGrammar,
    lexicon: &Lexicon,
    first: &str,
    second: &str,
) -> Result<bool, Fail>
    requires { chart.now ≡ setting_of grammar.now lexicon.now chart.now.tokens }
{
    let menu = chart.menu(grammar, lexicon)?;
    Ok(offers_two(&menu, first, second))
}

// After many times `x` the menu has two tokens.
fn many_have_two(
    rt: &impl Abort,
    alloc: Global,
    chart: &mut Chart,
    grammar: &CheckedGrammar,
    lexicon: &Lexicon,
) -> Result<(), Fail>
    requires { chart.old ≡ setting_of grammar.now lexicon.now chart.old.tokens }
{
    let _ = all_taken(alloc, chart, grammar, lexicon, MANY)?;
    let two = menu_has_two(chart, grammar, lexicon, "e", "x")?;
    assert!(rt; two);
    Ok(())
}

fn menu_of_many(
    rt: &impl Abort,
    alloc: Global,
    grammar: &CheckedGrammar,
    lexicon: &Lexicon,
) -> Result<(), Fail> {
    let mut chart = started(alloc, grammar, lexicon)?;
    many_have_two(rt, alloc, &mut chart, grammar, lexicon)
}

fn menu_of_many_without_words(
    rt: &impl Abort,
    alloc: Global,
    grammar: &CheckedGrammar,
) -> Result<(), Fail> {
    let lexicon = words(alloc, grammar, &[])?;
    menu_of_many(rt, alloc, grammar, &lexicon)
}

#[test]
fn a_menu_after_very_many_trees_takes_no_time(rt: HostRuntime) -> Result<(), Fail> {
    let grammar = grammar_of(rt.alloc(), AMBIGUOUS)?;
    menu_of_many_without_words(&rt, rt.alloc(), &grammar)
}
