// The command `make`: a generated wiki, and its summary.
ghost use Rattle.std.specs.Prelude.{◌≡◌};
ghost use Rattle.wiki_io.specs.Faults.{Rose};
ghost use Rattle.commands.specs.Steps.{made_outcome};
ghost use Rattle.commands.specs.Theorem.{MakesSummary};
ghost use Rattle.commands.specs.Wiki.{ace_wiki};

use crate::wiki::AceWiki;
use command_line::Outcome;
use making::Made;
use std::alloc::Global;
use wiki_base::Memory;
use wiki_io::Sink;

/// Makes a wiki of so many generated sentences, and writes the summary of its replies.
pub fn make<K: Sink>(alloc: Global, count: u32, seed: u64, budget: u64, output: &mut K) -> Outcome
    ensures makes { MakesSummary (ace_wiki budget) count seed (K.taken output.old) result (K.taken output.new) }
    ensures write_fault { result ≡ Outcome.WriteFault → Rose (K.faults output.old) (K.faults output.new) }
{
    match AceWiki::new(alloc, budget) {
        Ok(mut wiki) => make_at(alloc, &mut wiki, count, seed, output),
        Err(Memory) => Outcome::Memory,
    }
}

fn make_at<K: Sink>(
    alloc: Global,
    wiki: &mut AceWiki,
    count: u32,
    seed: u64,
    output: &mut K,
) -> Outcome
    ensures makes { MakesSummary wiki.old count seed (K.taken output.old) result (K.taken output.new) }
    ensures write_fault { result ≡ Outcome.WriteFault → Rose (K.faults output.old) (K.faults output.new) }
{
    let made = making::make(alloc, wiki, count, seed, output);
    outcome(made)
}

// How the program ends where making ended so.
fn outcome(made: Made) -> Outcome
    ensures { result ≡ made_outcome made }
{
    match made {
        Made::Done => Outcome::Done,
        Made::WriteFault => Outcome::WriteFault,
        Made::Memory => Outcome::Memory,
    }
}
