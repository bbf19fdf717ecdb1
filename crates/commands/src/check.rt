// The command `check`: the input as an ontology, and whether what it says has a finite model.
ghost use Rattle.std.specs.Prelude.{◌≡◌};
ghost use Rattle.wiki_io.specs.Faults.{Rose};
ghost use Rattle.commands.specs.Steps.{cut_outcome};
ghost use Rattle.commands.specs.Theorem.{TellsOfFile};
ghost use Rattle.owl_intake.specs.Checked.{TellsCheck};

use crate::retell::write;
use command_line::Outcome;
use owl_intake::{CutShort, read_input};
use std::alloc::Global;
use wiki_io::{Sink, Source};

/// Reads the input as an ontology, and writes whether what it says has a finite model, or the first fault.
pub fn check<S: Source, K: Sink>(
    alloc: Global,
    budget: u64,
    input: &mut S,
    output: &mut K,
) -> Outcome
    ensures tells { TellsOfFile (TellsCheck budget) (S.left input.old) (K.taken output.old) result (S.left input.new) (K.taken output.new) }
    ensures read_fault { result ≡ Outcome.ReadFault → Rose (S.faults input.old) (S.faults input.new) }
    ensures write_fault { result ≡ Outcome.WriteFault → Rose (K.faults output.old) (K.faults output.new) }
    ensures link_fault { result ≡ Outcome.LinkFault → ⊥ }
{
    match read_input(alloc, input) {
        Ok(file) => {
            let text = owl_intake::check(alloc, file.as_slice(), budget);
            write(text, output)
        }
        Err(cut) => cut_outcome(cut),
    }
}

/// How the program ends where the input was not read to its end.
pub fn cut_outcome(cut: CutShort) -> Outcome
    ensures { result ≡ cut_outcome cut }
{
    match cut {
        CutShort::ReadFault => Outcome::ReadFault,
        CutShort::TooMuch => Outcome::TooMuch,
        CutShort::Memory => Outcome::Memory,
    }
}
