// Reads a grammar from standard input, prints it, and reads what was printed. With the word `time` it also tells how
// much processor time the first reading took.

use crate::fault::Fault;
use ace_grammar::built_in;
use codeco_reader::{CheckedGrammar, print_grammar, read_grammar};
use std::alloc::Global;
use std::time::CpuClock;
use std::{io, str};
use wiki_base::Bytes;

// Whether the printed text makes a grammar that is printed in the same way.
fn is_read_back(alloc: Global, printed: &Bytes) -> Result<bool, Fault> {
    let again = read_grammar(alloc, str::from_utf8(printed.as_slice())?)?;
    Ok(print_grammar(alloc, &again)?.as_slice() == printed.as_slice())
}

fn is_built_in(alloc: Global, printed: &Bytes) -> Result<bool, Fault> {
    let built_in = built_in(alloc)?;
    Ok(print_grammar(alloc, &built_in)?.as_slice() == printed.as_slice())
}

fn report(rt: &HostRuntime, grammar: &CheckedGrammar) -> Result<(), Fault> {
    let alloc = rt.alloc();
    let printed = print_grammar(alloc, grammar)?;
    let rules = grammar.grammar().rules().len();
    println!(rt; "{rules} rules")?;
    let read_back = is_read_back(alloc, &printed)?;
    println!(rt; "read back as an equal grammar: {read_back}")?;
    let same = is_built_in(alloc, &printed)?;
    println!(rt; "the built-in grammar: {same}")?;
    Ok(())
}

pub(crate) fn measure(rt: &HostRuntime, timed: bool) -> Result<(), Fault> {
    let alloc = rt.alloc();
    let text = io::read_to_string(alloc, rt.stdin())?;
    let start = rt.thread_cpu_time()?;
    let read = read_grammar(alloc, &text);
    let took = rt.thread_cpu_time()?.saturating_sub(start);
    match read {
        Ok(grammar) => report(rt, &grammar)?,
        Err(fault) => println!(rt; "{fault:?}")?,
    }
    if timed {
        let micros = took.as_micros();
        println!(rt; "{micros} microseconds")?;
    }
    Ok(())
}
