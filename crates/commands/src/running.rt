// The top call: the words, the streams, the link, and the status of the process.
ghost use Rattle.std.specs.Prelude.{◌≡◌, []};
ghost use Rattle.command_line.specs.Command.{status_of};
ghost use Rattle.commands.specs.Theorem.{stream, network, Performs, told_at_end, Tells, Runs, RunsLine};

use crate::check::check;
use crate::help::help;
use crate::import::{Performed, import};
use crate::make::make;
use crate::replay::replay;
use crate::retell::{export, say, why};
use crate::serve::serve;
use command_line::{Command, CommandLine, Outcome, words};
use std::alloc::Global;
use wiki_base::{Arg, Memory};
use wiki_io::{Link, Sink, Source, put};

/// Runs the command that the words are, and tells the status of the process: 0 where it was done, 2 where the words are
/// no command, 3 where the input could not be read, 4 where the output could not be written, 5 where the link could not
/// listen or failed, 6 where the input has more than 4,294,967,296 bytes (for `check` and `import` 16,777,216), 9 where there was no memory. Where the status
/// is not 0, a line on `errors` says why; where it is, `import` may have remarks there.
pub fn run<S: Source, K: Sink, E: Sink, L: Link>(
    alloc: Global,
    words: &[Arg],
    input: &mut S,
    output: &mut K,
    errors: &mut E,
    link: &mut L,
) -> u8
    requires { L.connections link.old ≡ [] }
    ensures theorem { Runs words.now result
        (record {
          input = stream S.left S.faults input.old;
          output = stream K.taken K.faults output.old;
          link = network L.listens_at L.handed L.left L.sent L.faults L.send_faults link.old;
        })
        (stream E.taken E.faults errors.old)
        (record {
          input = stream S.left S.faults input.new;
          output = stream K.taken K.faults output.new;
          link = network L.listens_at L.handed L.left L.sent L.faults L.send_faults link.new;
        })
        (stream E.taken E.faults errors.new) }
{
    let performed = perform(alloc, words, input, output, link);
    end(performed.outcome, performed.remarks.as_slice(), errors)
}

// Runs the command that the words are, and tells how it ended, with its remarks.
fn perform<S: Source, K: Sink, L: Link>(
    alloc: Global,
    words: &[Arg],
    input: &mut S,
    output: &mut K,
    link: &mut L,
) -> Performed
    requires { L.connections link.old ≡ [] }
    ensures performs { Performs words.now result.outcome result.remarks
        (record {
          input = stream S.left S.faults input.old;
          output = stream K.taken K.faults output.old;
          link = network L.listens_at L.handed L.left L.sent L.faults L.send_faults link.old;
        })
        (record {
          input = stream S.left S.faults input.new;
          output = stream K.taken K.faults output.new;
          link = network L.listens_at L.handed L.left L.sent L.faults L.send_faults link.new;
        }) }
{
    match Command::from_words(words) {
        Some(Command::Replay { budget }) => {
            Performed::quiet(alloc, replay(alloc, budget, input, output))
        }
        Some(
            Command::Serve {
                address,
                budget,
                events,
            },
        ) => Performed::quiet(
            alloc,
            serve(alloc, address, budget, events, input, output, link),
        ),
        Some(
            Command::Make {
                count,
                seed,
                budget,
            },
        ) => Performed::quiet(alloc, make(alloc, count, seed, budget, output)),
        Some(Command::Help) => Performed::quiet(alloc, help(output)),
        Some(Command::Say { budget }) => Performed::quiet(alloc, say(alloc, budget, input, output)),
        Some(Command::Export { budget }) => {
            Performed::quiet(alloc, export(alloc, budget, input, output))
        }
        Some(Command::Check { budget }) => {
            Performed::quiet(alloc, check(alloc, budget, input, output))
        }
        Some(Command::Import) => import(alloc, input, output),
        Some(
            Command::Why {
                article,
                at,
                name,
                budget,
            },
        ) => Performed::quiet(alloc, why(alloc, budget, article, at, name, input, output)),
        None => Performed::quiet(alloc, Outcome::Usage),
    }
}

/// Runs the command that the words of the command line are, as `run` does. Where there was no memory for the words, the
/// status is 9.
pub fn program<C: CommandLine, S: Source, K: Sink, E: Sink, L: Link>(
    alloc: Global,
    line: &C,
    input: &mut S,
    output: &mut K,
    errors: &mut E,
    link: &mut L,
) -> u8
    requires { L.connections link.old ≡ [] }
    ensures theorem { RunsLine (C.words line.now) result
        (record {
          input = stream S.left S.faults input.old;
          output = stream K.taken K.faults output.old;
          link = network L.listens_at L.handed L.left L.sent L.faults L.send_faults link.old;
        })
        (stream E.taken E.faults errors.old)
        (record {
          input = stream S.left S.faults input.new;
          output = stream K.taken K.faults output.new;
          link = network L.listens_at L.handed L.left L.sent L.faults L.send_faults link.new;
        })
        (stream E.taken E.faults errors.new) }
{
    match words(alloc, line) {
        Ok(words) => run(alloc, &words, input, output, errors, link),
        Err(Memory) => end(Outcome::Memory, &[], errors),
    }
}

/// Tells on `errors` the remarks where all was done, and else the words of the outcome; and tells its status. A write that fails changes no
/// status.
pub fn end<E: Sink>(outcome: Outcome, remarks: &[u8], errors: &mut E) -> u8
    ensures status { result ≡ status_of outcome }
    ensures words { Tells (told_at_end outcome remarks.now) (stream E.taken E.faults errors.old) (stream E.taken E.faults errors.new) }
{
    let told = told_at_end(outcome, remarks);
    let _written = put(errors, told);
    outcome.status()
}

// What standard error is told.
fn told_at_end<'a>(outcome: Outcome, remarks: &'a [u8]) -> &'a [u8]
    ensures { result.now ≡ told_at_end outcome remarks.now }
{
    match outcome {
        Outcome::Done => remarks,
        outcome => outcome.words().as_bytes(),
    }
}
