// The command `help`: a line for each command.
ghost use Rattle.std.specs.Prelude.{◌≡◌, ◌≤◌, ℕ, length, take};
ghost use Rattle.std.specs.Bool.{OnTrue, OnFalse};
ghost use Rattle.std.specs.Io.KnownBytes.{Appends};
ghost use Rattle.wiki_io.specs.Faults.{Rose};
ghost use Rattle.command_line.specs.Command.{help_text};
ghost use Rattle.commands.specs.Theorem.{WritesHelp};

use command_line::{Outcome, help_text};
use wiki_io::{Sink, put};

/// Writes a line for each command.
pub fn help<K: Sink>(output: &mut K) -> Outcome
    ensures helps { WritesHelp result (K.taken output.old) (K.taken output.new) }
    ensures write_fault { result ≡ Outcome.WriteFault → Rose (K.faults output.old) (K.faults output.new) }
{
    if write_help(output) {
        Outcome::Done
    } else {
        Outcome::WriteFault
    }
}

// Writes the lines, and tells whether all of them were written.
fn write_help<K: Sink>(output: &mut K) -> bool
    ensures all { OnTrue result (Appends (K.taken output.old) (K.taken output.new) help_text) }
    ensures front { (n : ℕ) × (n ≤ length help_text) × Appends (K.taken output.old) (K.taken output.new) (take n help_text) }
    ensures failed { OnFalse result (Rose (K.faults output.old) (K.faults output.new)) }
{
    put(output, help_text().as_bytes())
}
