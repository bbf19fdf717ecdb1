// Generated requests are stepped, and their replies counted.
ghost use Rattle.std.specs.Prelude.{◌≡◌, ◌<◌, ◌∷◌, [], IfOk};
ghost use Rattle.wiki_io.specs.Faults.{Rose};
ghost use Rattle.generator.specs.Requests as generated;
ghost use Rattle.generator.specs.Summary as summing;
ghost use Rattle.making.specs.Making.{AddsUp, IsSummaryOf, Makes};

use generator::{Summary, next_draw, read_request, sentence_of_kind, word_request};
use serving::Machine;
use std::alloc::Global;
use wiki_base::{Memory, Text8};
use wiki_io::{Sink, put};
use wiki_talk::Request;

/// How many words a generated wiki has.
const WORDS: u32 = 50;

/// How making ended.
#[derive(Clone, Copy, Debug, PartialEq, Eq)]
pub enum Made {
    /// The summary was written.
    Done,
    /// A write failed.
    WriteFault,
    /// There was no memory.
    Memory,
}

/// Steps through the requests of a generated wiki of `count` sentences, reads each article, and writes the summary of the
/// replies.
pub fn make<W: Machine, K: Sink>(
    alloc: Global,
    machine: &mut W,
    count: u32,
    seed: u64,
    output: &mut K,
) -> Made
    ensures makes { Makes W.Steps machine.old count seed (K.taken output.old) result (K.taken output.new) }
    ensures write_fault { result ≡ Made.WriteFault → Rose (K.faults output.old) (K.faults output.new) }
{
    match summary_of(alloc, machine, count, seed) {
        Ok(text) => {
            if put(output, text.as_bytes()) {
                Made::Done
            } else {
                Made::WriteFault
            }
        }
        Err(Memory) => Made::Memory,
    }
}

fn summary_of<W: Machine>(
    alloc: Global,
    machine: &mut W,
    count: u32,
    seed: u64,
) -> Result<Text8, Memory>
    ensures { IfOk result (IsSummaryOf W.Steps machine.old count seed) }
{
    let summary = run_all(alloc, machine, count, seed)?;
    summary.text(alloc)
}

fn run_all<W: Machine>(
    alloc: Global,
    machine: &mut W,
    count: u32,
    seed: u64,
) -> Result<Summary, Memory>
    ensures { IfOk result (AddsUp W.Steps machine.old (generated.made_requests count seed) summing.nothing machine.new) }
{
    let none = Summary::new();
    let words = ask_words(alloc, machine, none)?;
    let sentences = add_sentences(alloc, machine, count, (seed % 65_537) as u32, words)?;
    let all = read_articles(alloc, machine, sentences)?;
    Ok(all)
}

// Steps through one request.
fn ask<W: Machine>(machine: &mut W, request: &Request, summary: Summary) -> Result<Summary, Memory>
    ensures { IfOk result (AddsUp W.Steps machine.old (request.now ∷ []) summary machine.new) }
{
    let reply = machine.step(request)?;
    let after = summary.with_reply(&reply);
    drop(reply);
    let counted = after?;
    Ok(counted)
}

fn ask_once<W: Machine>(
    machine: &mut W,
    request: Request,
    summary: Summary,
) -> Result<Summary, Memory>
    ensures { IfOk result (AddsUp W.Steps machine.old (request ∷ []) summary machine.new) }
{
    let after = ask(machine, &request, summary);
    drop(request);
    let counted = after?;
    Ok(counted)
}

fn ask_words<W: Machine>(alloc: Global, machine: &mut W, before: Summary) -> Result<Summary, Memory>
    ensures { IfOk result (AddsUp W.Steps machine.old generated.word_requests before machine.new) }
{
    let mut summary = before;
    for number in 0..WORDS {
        let request = word_request(alloc, number)?;
        summary = ask_once(machine, request, summary)?;
    }
    Ok(summary)
}

fn add_sentences<W: Machine>(
    alloc: Global,
    machine: &mut W,
    count: u32,
    first: u32,
    before: Summary,
) -> Result<Summary, Memory>
    requires { first < 65537 }
    ensures { IfOk result (AddsUp W.Steps machine.old (generated.sentences_from 0 count first) before machine.new) }
{
    let mut summary = before;
    let mut draw = first;
    for number in 0..count {
        let one = next_draw(draw);
        let two = next_draw(one);
        draw = next_draw(two);
        let request = sentence_of_kind(alloc, number % 5, one, two, draw)?;
        summary = ask_once(machine, request, summary)?;
    }
    Ok(summary)
}

fn read_articles<W: Machine>(
    alloc: Global,
    machine: &mut W,
    before: Summary,
) -> Result<Summary, Memory>
    ensures { IfOk result (AddsUp W.Steps machine.old generated.read_requests before machine.new) }
{
    let mut summary = before;
    for number in 0..WORDS {
        let request = read_request(alloc, number)?;
        summary = ask_once(machine, request, summary)?;
    }
    Ok(summary)
}
