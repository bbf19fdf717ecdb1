// Builds, maps and prints what two sentences of forty tokens mean, one of `and` and one of nested relative clauses. With
// the word `time` it also tells how much processor time each of the three calls took.

ghost use Rattle.std.specs.Prelude.{IsTrue, IfOk};
ghost use Rattle.codeco_checked.specs.Sound.{is_labelled};
ghost use Rattle.drs_build.specs.Built.{IsDerived};

use crate::fault::Fault;
use crate::words::{lexicon_of, tokens_of};
use ace_grammar::built_in;
use ace_to_owl::{Mapped, map_statement};
use chart_trees::least_of;
use codeco_checked::CheckedGrammar;
use derivations::Skeleton;
use drs_build::{Built, build};
use lexicon::{Kind, Lexicon};
use lists::List;
use logic_terms::{Axioms, Drs};
use owl_text::print_axiom;
use std::alloc::Global;
use std::time::CpuClock;
use wiki_base::Text8;

const WORDS: [(Kind, &str); 7] = [
    (Kind::Name, "Mary"),
    (Kind::Name, "Bill"),
    (Kind::Noun, "cat"),
    (Kind::Noun, "dog"),
    (Kind::Noun, "fish"),
    (Kind::Verb, "see"),
    (Kind::Verb, "own"),
];

const JOINED: &str =
    "Mary sees a cat and owns a dog and sees a fish and owns a cat and sees a dog and owns a fish and sees a cat and owns a dog and sees a fish and sees Bill.";

const NESTED: &str =
    "Every cat that owns a dog that sees a fish that owns a cat that sees a dog that owns a fish that sees something that owns something that sees a cat that owns a dog is a fish.";

const RUNS: u64 = 10_000;

fn skeleton_of(
    alloc: Global,
    grammar: &CheckedGrammar,
    lexicon: &Lexicon,
    text: &str,
) -> Result<Skeleton, Fault>
    ensures { IfOk result (IsDerived grammar.now) }
{
    let tokens = tokens_of(alloc, grammar, text)?;
    match least_of(alloc, grammar, lexicon, &tokens)? {
        Some(skeleton) => Ok(skeleton),
        None => Err(Fault::Words),
    }
}

fn structure_of(alloc: Global, grammar: &CheckedGrammar, skeleton: &Skeleton) -> Result<Drs, Fault>
    requires labelled { IsTrue (is_labelled grammar.now) }
    requires derived { IsDerived grammar.now skeleton.now }
{
    match build(alloc, grammar, skeleton)? {
        Built::Statement(drs) => Ok(drs),
        _ => Err(Fault::Words),
    }
}

fn axioms_of(alloc: Global, drs: &Drs) -> Result<Axioms, Fault> {
    match map_statement(alloc, drs)? {
        Mapped::Axioms(axioms) => Ok(axioms),
        Mapped::Outside(_) => Err(Fault::Words),
    }
}

fn texts_of(alloc: Global, lexicon: &Lexicon, axioms: &Axioms) -> Result<List<Text8>, Fault> {
    let mut texts = List::new(alloc);
    for axiom in axioms.as_slice() {
        texts.push(print_axiom(alloc, axiom, lexicon)?)?;
    }
    Ok(texts)
}

// How many microseconds so many builds of a structure took.
fn time_to_build(
    rt: &HostRuntime,
    grammar: &CheckedGrammar,
    skeleton: &Skeleton,
) -> Result<u128, Fault>
    requires labelled { IsTrue (is_labelled grammar.now) }
    requires derived { IsDerived grammar.now skeleton.now }
{
    let start = rt.thread_cpu_time()?;
    for _ in 0..RUNS {
        structure_of(rt.alloc(), grammar, skeleton)?;
    }
    Ok(rt.thread_cpu_time()?.saturating_sub(start).as_micros())
}

fn time_to_map(rt: &HostRuntime, drs: &Drs) -> Result<u128, Fault> {
    let start = rt.thread_cpu_time()?;
    for _ in 0..RUNS {
        axioms_of(rt.alloc(), drs)?;
    }
    Ok(rt.thread_cpu_time()?.saturating_sub(start).as_micros())
}

fn time_to_print(rt: &HostRuntime, lexicon: &Lexicon, axioms: &Axioms) -> Result<u128, Fault> {
    let start = rt.thread_cpu_time()?;
    for _ in 0..RUNS {
        texts_of(rt.alloc(), lexicon, axioms)?;
    }
    Ok(rt.thread_cpu_time()?.saturating_sub(start).as_micros())
}

fn run(
    rt: &HostRuntime,
    grammar: &CheckedGrammar,
    lexicon: &Lexicon,
    text: &str,
    timed: bool,
) -> Result<(), Fault>
    requires labelled { IsTrue (is_labelled grammar.now) }
{
    let alloc = rt.alloc();
    let skeleton = skeleton_of(alloc, grammar, lexicon, text)?;
    let drs = structure_of(alloc, grammar, &skeleton)?;
    let axioms = axioms_of(alloc, &drs)?;
    for line in texts_of(alloc, lexicon, &axioms)?.as_slice() {
        let line = line.as_str();
        println!(rt; "{line}")?;
    }
    if timed {
        let building = time_to_build(rt, grammar, &skeleton)?;
        let mapping = time_to_map(rt, &drs)?;
        let printing = time_to_print(rt, lexicon, &axioms)?;
        println!(rt;
            "{RUNS} times: {building} microseconds to build, {mapping} to map, {printing} to print"
        )?;
    }
    Ok(())
}

pub(crate) fn measure(rt: &HostRuntime, timed: bool) -> Result<(), Fault> {
    let grammar = built_in(rt.alloc())?;
    let lexicon = lexicon_of(rt.alloc(), &grammar, &WORDS)?;
    run(rt, &grammar, &lexicon, JOINED, timed)?;
    run(rt, &grammar, &lexicon, NESTED, timed)
}
