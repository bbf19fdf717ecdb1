// The command `serve`: the lines of the input, and then connections.
ghost use Rattle.std.specs.Prelude.{◌≡◌, []};
ghost use Rattle.wiki_io.specs.Faults.{Rose};
ghost use Rattle.wiki_io.specs.Reading.{unread};
ghost use Rattle.commands.specs.Steps.{StepsInput, ServesLink, outcome_of};
ghost use Rattle.commands.specs.Theorem.{stream, network, Serves};
ghost use Rattle.commands.specs.Wiki.{new_wiki};

use crate::lines::step_line;
use crate::recalling::RecallingWiki;
use crate::wiki::AceWiki;
use command_line::Outcome;
use serving::Served;
use std::alloc::Global;
use wiki_base::Memory;
use wiki_io::{Line, LineReader, Link, Listen, Sink, Source};

/// Steps through the lines of the input, then listens at the address and handles the events of the link, at most so many.
/// The accepted changes that came over connections are written to the output.
pub fn serve<S: Source, K: Sink, L: Link>(
    alloc: Global,
    address: &str,
    budget: u64,
    events: u64,
    input: &mut S,
    output: &mut K,
    link: &mut L,
) -> Outcome
    requires { L.connections link.old ≡ [] }
    ensures serves { Serves (new_wiki budget) address.now events result
        (record {
          input = stream S.left S.faults input.old;
          output = stream K.taken K.faults output.old;
          link = network L.listens_at L.handed L.left L.sent L.faults L.send_faults link.old;
        })
        (record {
          input = stream S.left S.faults input.new;
          output = stream K.taken K.faults output.new;
          link = network L.listens_at L.handed L.left L.sent L.faults L.send_faults link.new;
        }) }
    ensures read_fault { result ≡ Outcome.ReadFault → Rose (S.faults input.old) (S.faults input.new) }
    ensures write_fault { result ≡ Outcome.WriteFault → Rose (K.faults output.old) (K.faults output.new) }
    ensures link_fault { result ≡ Outcome.LinkFault → Rose (L.faults link.old) (L.faults link.new) }
{
    match RecallingWiki::new(alloc, budget) {
        Ok(wiki) => serve_wiki(alloc, wiki, address, events, input, output, link),
        Err(Memory) => Outcome::Memory,
    }
}

// Steps the wiki through the lines of the input, and then serves it, without its history.
fn serve_wiki<S: Source, K: Sink, L: Link>(
    alloc: Global,
    mut wiki: RecallingWiki,
    address: &str,
    events: u64,
    input: &mut S,
    output: &mut K,
    link: &mut L,
) -> Outcome
    requires { L.connections link.old ≡ [] }
    ensures serves { Serves wiki address.now events result
        (record {
          input = stream S.left S.faults input.old;
          output = stream K.taken K.faults output.old;
          link = network L.listens_at L.handed L.left L.sent L.faults L.send_faults link.old;
        })
        (record {
          input = stream S.left S.faults input.new;
          output = stream K.taken K.faults output.new;
          link = network L.listens_at L.handed L.left L.sent L.faults L.send_faults link.new;
        }) }
    ensures read_fault { result ≡ Outcome.ReadFault → Rose (S.faults input.old) (S.faults input.new) }
    ensures write_fault { result ≡ Outcome.WriteFault → Rose (K.faults output.old) (K.faults output.new) }
    ensures link_fault { result ≡ Outcome.LinkFault → Rose (L.faults link.old) (L.faults link.new) }
{
    match step_input(alloc, &mut wiki, input) {
        Outcome::Done => {
            let mut wiki = wiki.into_wiki();
            serve_link(alloc, &mut wiki, address, events, output, link)
        }
        outcome => outcome,
    }
}

// Listens, and serves the wiki.
fn serve_link<K: Sink, L: Link>(
    alloc: Global,
    wiki: &mut AceWiki,
    address: &str,
    events: u64,
    output: &mut K,
    link: &mut L,
) -> Outcome
    requires { L.connections link.old ≡ [] }
    ensures serves { ServesLink wiki.old events
        (record { journal = K.taken output.old; sent = L.sent link.old; send_faults = L.send_faults link.old }) (L.handed link.old)
        result (L.listens_at link.new address.now)
        (record { journal = K.taken output.new; sent = L.sent link.new; send_faults = L.send_faults link.new }) (L.handed link.new) (L.left link.new) }
    ensures write_fault { result ≡ Outcome.WriteFault → Rose (K.faults output.old) (K.faults output.new) }
    ensures link_fault { result ≡ Outcome.LinkFault → Rose (L.faults link.old) (L.faults link.new) }
    ensures read_fault { result ≡ Outcome.ReadFault → ⊥ }
{
    match link.listen(address) {
        Listen::Ready => {
            let served = serving::serve(alloc, wiki, events, output, link);
            ended(served)
        }
        Listen::Failed => Outcome::LinkFault,
    }
}

// How the program ends where serving ended so.
fn ended(served: Served) -> Outcome
    ensures { result ≡ outcome_of served }
{
    match served {
        Served::Done => Outcome::Done,
        Served::LinkFault => Outcome::LinkFault,
        Served::JournalFault => Outcome::WriteFault,
        Served::Memory => Outcome::Memory,
    }
}

/// Steps the wiki through the lines of the input, and writes nothing.
pub fn step_input<S: Source>(alloc: Global, wiki: &mut RecallingWiki, input: &mut S) -> Outcome
    ensures steps { StepsInput wiki.old (S.left input.old) result (S.left input.new) wiki.new }
    ensures read_fault { result ≡ Outcome.ReadFault → Rose (S.faults input.old) (S.faults input.new) }
    ensures write_fault { result ≡ Outcome.WriteFault → ⊥ }
{
    match LineReader::new(alloc) {
        Ok(mut reader) => step_lines(alloc, &mut reader, wiki, input),
        Err(Memory) => Outcome::Memory,
    }
}

// Steps through each line that a fresh reader gives.
fn step_lines<S: Source>(
    alloc: Global,
    reader: &mut LineReader,
    wiki: &mut RecallingWiki,
    input: &mut S,
) -> Outcome
    requires { reader.old ≡ unread }
    ensures steps { StepsInput wiki.old (S.left input.old) result (S.left input.new) wiki.new }
    ensures read_fault { result ≡ Outcome.ReadFault → Rose (S.faults input.old) (S.faults input.new) }
    ensures write_fault { result ≡ Outcome.WriteFault → ⊥ }
{
    'lines: loop {
        let line = match reader.next_line(input) {
            Line::Text => Some(reader.line()),
            Line::TooLong => None,
            Line::End => return Outcome::Done,
            Line::ReadFault => return Outcome::ReadFault,
            Line::TooMuch => return Outcome::TooMuch,
        };
        match step_line(alloc, wiki, line) {
            Ok(()) => {}
            Err(Memory) => return Outcome::Memory,
        }
    }
}
