// The command `import`: the input as an ontology, and the requests that make a wiki of it.
ghost use Rattle.std.specs.Prelude.{◌≡◌, ◌≤◌, [], IfOk, length};
ghost use Rattle.wiki_io.specs.Faults.{Rose};
ghost use Rattle.command_line.specs.declared.command.Outcome.TheVariants.{Done};
ghost use Rattle.commands.specs.Theorem.{EndsRetelling, TellsImport, TellsOfFile};

use crate::check::cut_outcome;
use crate::retell::write;
use command_line::Outcome;
use owl_intake::{MOST_BYTES, fault_line, read_input};
use std::alloc::Global;
use wiki_base::{Bytes, Memory, Text8};
use wiki_io::{Sink, Source};

/// How a command ended, and what it remarks on standard error where all was done.
#[derive(Drop)]
pub struct Performed {
    pub outcome: Outcome,
    pub remarks: Bytes,
}

impl Performed {
    /// An end without remarks.
    pub fn quiet(alloc: Global, outcome: Outcome) -> Performed
        ensures outcome { result.outcome ≡ outcome }
        ensures remarks { result.remarks ≡ [] }
    {
        Performed {
            outcome,
            remarks: Bytes::new(alloc),
        }
    }
}

/// Reads the input as an ontology, and writes the requests that make a wiki of it. The remarks tell the axioms that are left out,
/// or of an input that is no such file the first fault; then nothing is written.
pub fn import<S: Source, K: Sink>(alloc: Global, input: &mut S, output: &mut K) -> Performed
    ensures tells { TellsOfFile (TellsImport result.remarks) (S.left input.old) (K.taken output.old) result.outcome
        (S.left input.new) (K.taken output.new) }
    ensures read_fault { result.outcome ≡ Outcome.ReadFault → Rose (S.faults input.old) (S.faults input.new) }
    ensures write_fault { result.outcome ≡ Outcome.WriteFault → Rose (K.faults output.old) (K.faults output.new) }
    ensures link_fault { result.outcome ≡ Outcome.LinkFault → ⊥ }
{
    match read_input(alloc, input) {
        Ok(file) => import_file(alloc, file.as_slice(), output),
        Err(cut) => Performed::quiet(alloc, cut_outcome(cut)),
    }
}

// Writes the requests that make a wiki of a file.
fn import_file<K: Sink>(alloc: Global, file: &[u8], output: &mut K) -> Performed
    requires { length file.now ≤ MOST_BYTES }
    ensures ends { EndsRetelling (TellsImport result.remarks file.now) Done result.outcome (K.taken output.old) (K.taken output.new) }
    ensures write_fault { result.outcome ≡ Outcome.WriteFault → Rose (K.faults output.old) (K.faults output.new) }
{
    match told_of(alloc, file) {
        Ok(told) => {
            let outcome = write(Ok(told.requests), output);
            Performed {
                outcome,
                remarks: told.remarks,
            }
        }
        Err(Memory) => Performed::quiet(alloc, Outcome::Memory),
    }
}

// What is told of a file.
#[derive(Drop)]
struct Told {
    requests: Text8,
    remarks: Bytes,
}

fn told_of(alloc: Global, file: &[u8]) -> Result<Told, Memory>
    requires { length file.now ≤ MOST_BYTES }
    ensures { IfOk result (λ told. TellsImport told.remarks file.now told.requests) }
{
    match owl_import::import(alloc, file) {
        Ok(made) => Ok(Told {
            requests: made.requests,
            remarks: made.left_out,
        }),
        Err(fault) => {
            let line = fault_line(alloc, fault)?;
            Ok(Told {
                requests: Text8::new(alloc),
                remarks: Bytes::from_slice(alloc, line.as_bytes())?,
            })
        }
    }
}
