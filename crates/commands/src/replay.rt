// The command `replay`: one reply line for each line of the input.
ghost use Rattle.std.specs.Prelude.{◌≡◌};
ghost use Rattle.wiki_io.specs.Faults.{Rose};
ghost use Rattle.wiki_io.specs.Reading.{unread};
ghost use Rattle.commands.specs.Theorem.{Replays};
ghost use Rattle.commands.specs.Wiki.{new_wiki};

use crate::lines::answer_line;
use crate::recalling::RecallingWiki;
use command_line::Outcome;
use std::alloc::Global;
use wiki_base::Memory;
use wiki_io::{Line, LineReader, Sink, Source};

/// Answers each line of the input by one line on the output, before it reads the next.
pub fn replay<S: Source, K: Sink>(
    alloc: Global,
    budget: u64,
    input: &mut S,
    output: &mut K,
) -> Outcome
    ensures replays { Replays (new_wiki budget) (S.left input.old) (K.taken output.old) result (S.left input.new) (K.taken output.new) }
    ensures read_fault { result ≡ Outcome.ReadFault → Rose (S.faults input.old) (S.faults input.new) }
    ensures write_fault { result ≡ Outcome.WriteFault → Rose (K.faults output.old) (K.faults output.new) }
{
    match RecallingWiki::new(alloc, budget) {
        Ok(mut wiki) => answer_input(alloc, &mut wiki, input, output),
        Err(Memory) => Outcome::Memory,
    }
}

// Answers each line of the input.
fn answer_input<S: Source, K: Sink>(
    alloc: Global,
    wiki: &mut RecallingWiki,
    input: &mut S,
    output: &mut K,
) -> Outcome
    ensures replays { Replays wiki.old (S.left input.old) (K.taken output.old) result (S.left input.new) (K.taken output.new) }
    ensures read_fault { result ≡ Outcome.ReadFault → Rose (S.faults input.old) (S.faults input.new) }
    ensures write_fault { result ≡ Outcome.WriteFault → Rose (K.faults output.old) (K.faults output.new) }
{
    match LineReader::new(alloc) {
        Ok(mut reader) => answer_lines(alloc, &mut reader, wiki, input, output),
        Err(Memory) => Outcome::Memory,
    }
}

// Answers each line that a fresh reader gives.
fn answer_lines<S: Source, K: Sink>(
    alloc: Global,
    reader: &mut LineReader,
    wiki: &mut RecallingWiki,
    input: &mut S,
    output: &mut K,
) -> Outcome
    requires { reader.old ≡ unread }
    ensures replays { Replays wiki.old (S.left input.old) (K.taken output.old) result (S.left input.new) (K.taken output.new) }
    ensures read_fault { result ≡ Outcome.ReadFault → Rose (S.faults input.old) (S.faults input.new) }
    ensures write_fault { result ≡ Outcome.WriteFault → Rose (K.faults output.old) (K.faults output.new) }
{
    'lines: loop {
        let line = match reader.next_line(input) {
            Line::Text => Some(reader.line()),
            Line::TooLong => None,
            Line::End => return Outcome::Done,
            Line::ReadFault => return Outcome::ReadFault,
            Line::TooMuch => return Outcome::TooMuch,
        };
        if let Err(outcome) = answer_line(alloc, wiki, line, output) {
            return outcome;
        }
    }
}
