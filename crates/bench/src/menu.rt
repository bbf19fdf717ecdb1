// Makes the menu after tokens like `Mary sees something that sees something that`, 10 and 40, with 5,000 words in the lexicon, and
// after 40 tokens that have millions of derivations by grammars of a few rules. With the word `time` it also tells how much processor time the last token and the menu took, and how much memory at most there was.

ghost use Rattle.std.specs.Prelude.{◌≡◌, ◌<◌, length, IfOk, OnOk};
ghost use Rattle.wiki_base.specs.declared.tokens.TheConstants.{MOST_TOKENS};
ghost use Rattle.derivation_trees.specs.Sentences.{setting_of};

use crate::fault::Fault;
use crate::words::{add, tokens_of};
use ace_grammar::built_in;
use chart::Chart;
use codeco_checked::CheckedGrammar;
use codeco_reader::read_grammar;
use lexicon::{Kind, Lexicon};
use std::alloc::Global;
use std::fs;
use std::time::{CpuClock, Duration};
use wiki_base::{MOST_TOKENS, Token};

/// How many words there are beside those of the tokens.
const WORDS: u32 = 4_997;

// A text of its own for each number below 26 to the fourth.
fn text_with(alloc: Global, number: u32) -> Result<String, Fault> {
    let mut text = String::from_str(alloc, "w")?;
    let mut left = number;
    for _ in 0..4u8 {
        let letter = (left % 26) as u8;
        text.push(char::from(b'a' + letter))?;
        left /= 26;
    }
    Ok(text)
}

fn kind_with(number: u32) -> Kind {
    match number % 4 {
        0 => Kind::Noun,
        1 => Kind::Verb,
        2 => Kind::Adjective,
        _ => Kind::Name,
    }
}

fn words(alloc: Global, grammar: &CheckedGrammar) -> Result<Lexicon, Fault> {
    let mut lexicon = Lexicon::new(alloc, grammar.grammar())?;
    add_all(alloc, &mut lexicon)?;
    Ok(lexicon)
}

fn add_all(alloc: Global, lexicon: &mut Lexicon) -> Result<(), Fault> {
    add(alloc, lexicon, Kind::Name, "Mary")?;
    add(alloc, lexicon, Kind::Verb, "see")?;
    add(alloc, lexicon, Kind::Of, "part")?;
    for number in 0..WORDS {
        let text = text_with(alloc, number)?;
        add(alloc, lexicon, kind_with(number), text.as_str())?;
    }
    Ok(())
}

// The chart of no tokens.
fn started(alloc: Global, grammar: &CheckedGrammar, lexicon: &Lexicon) -> Result<Chart, Fault>
    ensures { IfOk result (λ chart. chart ≡ setting_of grammar.now lexicon.now chart.tokens) }
{
    let _ = lexicon;
    let chart = Chart::new(alloc, grammar)?;
    Ok(chart)
}

// Takes the token into the chart.
fn taken(
    chart: &mut Chart,
    grammar: &CheckedGrammar,
    lexicon: &Lexicon,
    token: &Token,
) -> Result<(), Fault>
    requires { chart.old ≡ setting_of grammar.now lexicon.now chart.old.tokens }
    ensures { OnOk result (chart.new ≡ setting_of grammar.now lexicon.now chart.new.tokens) }
{
    if chart.tokens().len() >= MOST_TOKENS {
        return Err(Fault::Words);
    }
    chart.advance(grammar, lexicon, token)?;
    Ok(())
}

fn text_of(
    alloc: Global,
    first: &str,
    again: &str,
    last: &str,
    times: u32,
) -> Result<String, Fault> {
    let mut text = String::from_str(alloc, first)?;
    for _ in 0..times {
        text.push_str(again)?;
    }
    text.push_str(last)?;
    Ok(text)
}

// Says how much memory the program has had at most.
fn print_peak(rt: &HostRuntime) -> Result<(), Fault> {
    let status = fs::read_to_string(rt, "/proc/self/status")?;
    for line in status.as_str().lines() {
        if line.starts_with("VmHWM") {
            println!(rt; "{line}")?;
        }
    }
    Ok(())
}

// Takes the tokens into the chart. Tells how much processor time there was before the last.
fn grow(
    rt: &HostRuntime,
    chart: &mut Chart,
    grammar: &CheckedGrammar,
    lexicon: &Lexicon,
    tokens: &[Token],
) -> Result<Duration, Fault>
    requires { chart.old ≡ setting_of grammar.now lexicon.now chart.old.tokens }
    ensures { OnOk result (chart.new ≡ setting_of grammar.now lexicon.now chart.new.tokens) }
{
    let mut start = rt.thread_cpu_time()?;
    for token in tokens {
        start = rt.thread_cpu_time()?;
        taken(chart, grammar, lexicon, token)?;
    }
    Ok(start)
}

// How many entries the menu has.
fn entry_count(chart: &Chart, grammar: &CheckedGrammar, lexicon: &Lexicon) -> Result<usize, Fault>
    requires { chart.now ≡ setting_of grammar.now lexicon.now chart.now.tokens }
{
    let menu = chart.menu(grammar, lexicon)?;
    Ok(menu.len())
}

// Takes the tokens, and makes the menu. Tells how many entries it has, and what the last token and the menu have taken.
fn timed_menu(
    rt: &HostRuntime,
    chart: &mut Chart,
    grammar: &CheckedGrammar,
    lexicon: &Lexicon,
    tokens: &[Token],
) -> Result<(usize, Duration), Fault>
    requires { chart.old ≡ setting_of grammar.now lexicon.now chart.old.tokens }
{
    let start = grow(rt, chart, grammar, lexicon, tokens)?;
    let entries = entry_count(chart, grammar, lexicon)?;
    Ok((entries, rt.thread_cpu_time()?.saturating_sub(start)))
}

fn measured(
    rt: &HostRuntime,
    grammar: &CheckedGrammar,
    lexicon: &Lexicon,
    tokens: &[Token],
) -> Result<(usize, Duration), Fault> {
    let mut chart = started(rt.alloc(), grammar, lexicon)?;
    timed_menu(rt, &mut chart, grammar, lexicon, tokens)
}

fn print_measured(
    rt: &HostRuntime,
    count: usize,
    entries: usize,
    took: Duration,
    timed: bool,
) -> Result<(), Fault> {
    let some = entries > 0;
    println!(rt; "{count} tokens: {some}")?;
    if timed {
        let micros = took.as_micros();
        println!(rt; "{entries} entries, {micros} microseconds for a token and its menu")?;
        print_peak(rt)?;
    }
    Ok(())
}

// How a long sentence begins, what comes again and again in it, and how it ends.
struct Shape {
    name: &'static str,
    first: &'static str,
    again: &'static str,
    last: &'static str,
}

fn run(
    rt: &HostRuntime,
    grammar: &CheckedGrammar,
    lexicon: &Lexicon,
    shape: &Shape,
    times: u32,
    timed: bool,
) -> Result<(), Fault> {
    let text = text_of(rt.alloc(), shape.first, shape.again, shape.last, times)?;
    run_text(rt, grammar, lexicon, text.as_str(), timed)
}

fn run_text(
    rt: &HostRuntime,
    grammar: &CheckedGrammar,
    lexicon: &Lexicon,
    text: &str,
    timed: bool,
) -> Result<(), Fault> {
    let tokens = tokens_of(rt.alloc(), grammar, text)?;
    run_tokens(rt, grammar, lexicon, tokens.as_slice(), timed)
}

fn run_tokens(
    rt: &HostRuntime,
    grammar: &CheckedGrammar,
    lexicon: &Lexicon,
    tokens: &[Token],
    timed: bool,
) -> Result<(), Fault> {
    let (entries, took) = measured(rt, grammar, lexicon, tokens)?;
    print_measured(rt, tokens.len(), entries, took, timed)
}

fn run_shape(
    rt: &HostRuntime,
    grammar: &CheckedGrammar,
    lexicon: &Lexicon,
    shape: &Shape,
    timed: bool,
) -> Result<(), Fault> {
    let name = shape.name;
    println!(rt; "{name}")?;
    run(rt, grammar, lexicon, shape, 2, timed)?;
    run(rt, grammar, lexicon, shape, 12, timed)
}

const RELATIVES: Shape = Shape {
    name: "relative clauses",
    first: "Mary sees something",
    again: " that sees something",
    last: " that",
};

const COORDINATION: Shape = Shape {
    name: "verb phrases with and",
    first: "Mary sees something",
    again: " and sees something",
    last: " and",
};

const PARTS: Shape = Shape {
    name: "a part of a part",
    first: "Mary sees",
    again: " a part of",
    last: " a part",
};

fn run_all(
    rt: &HostRuntime,
    grammar: &CheckedGrammar,
    lexicon: &Lexicon,
    timed: bool,
) -> Result<(), Fault> {
    if timed {
        print_peak(rt)?;
    }
    run_shape(rt, grammar, lexicon, &RELATIVES, timed)?;
    run_shape(rt, grammar, lexicon, &COORDINATION, timed)?;
    run_shape(rt, grammar, lexicon, &PARTS, timed)
}

// A grammar by which forty `x` have many derivations, millions and more.
struct Manifold {
    name: &'static str,
    text: &'static str,
}

const MANIFOLDS: [Manifold; 3] = [
    Manifold {
        name: "eight in a row",
        text: "text --> a a a a a a a a [e]. a --> [x]. a --> [x] a.",
    },
    Manifold {
        name: "twelve in a row",
        text: "text --> a a a a a a a a a a a a [e]. a --> [x]. a --> [x] a.",
    },
    Manifold {
        name: "two ways for each token",
        text: "text --> s [e]. s --> b. s --> b s. b --> c. b --> d. c --> [x]. d --> [x].",
    },
];

fn run_manifold(rt: &HostRuntime, manifold: &Manifold, timed: bool) -> Result<(), Fault> {
    let name = manifold.name;
    println!(rt; "{name}")?;
    let grammar = read_grammar(rt.alloc(), manifold.text)?;
    let lexicon = words(rt.alloc(), &grammar)?;
    let text = text_of(rt.alloc(), "x", " x", "", 39)?;
    run_text(rt, &grammar, &lexicon, text.as_str(), timed)
}

pub(crate) fn measure(rt: &HostRuntime, timed: bool) -> Result<(), Fault> {
    let grammar = built_in(rt.alloc())?;
    run_with_words(rt, &grammar, timed)?;
    for manifold in &MANIFOLDS {
        run_manifold(rt, manifold, timed)?;
    }
    Ok(())
}

fn run_with_words(rt: &HostRuntime, grammar: &CheckedGrammar, timed: bool) -> Result<(), Fault> {
    let lexicon = words(rt.alloc(), grammar)?;
    run_all(rt, grammar, &lexicon, timed)
}
