//! AceWiki: a controlled-English wiki. `acewiki replay` answers one reply line to each request line of its input, and
//! `acewiki serve ADDRESS` serves it to browsers; `acewiki make COUNT SEED` makes a
//! generated one, and `acewiki help` tells the commands. `acewiki say` says all that a wiki knows, `acewiki export` writes it as an
//! ontology, `acewiki check` tells whether an ontology has a finite model, `acewiki import` makes a wiki of one, and `acewiki why ARTICLE AT` tells
//! why a sentence is not asserted.
#![tactic(auto)]

use command_line::{Outcome, ProcessLine};
use commands::{end, program_over};
use socket_link::SocketLink;
use std::process::ExitCode;
use std::time::Duration;
use wiki_io::{ReadSource, WriteSink};

// How long a connection may take until an empty line has come, and until its whole request has.
const HEAD_SECONDS: u64 = 20;

const REQUEST_SECONDS: u64 = 60;

// How long the link may take to write what was sent, when all else is done.
const FINISH_SECONDS: u64 = 2;

fn main(rt: HostRuntime) -> ExitCode {
    let mut input = ReadSource::new(rt.stdin());
    let mut output = WriteSink::new(rt.stdout());
    let mut errors = WriteSink::new(rt.stderr());
    let line = ProcessLine::new(&rt);
    let head = Duration::from_secs(HEAD_SECONDS);
    let request = Duration::from_secs(REQUEST_SECONDS);
    let Ok(mut link) = SocketLink::new(rt.alloc(), &rt, head, request) else {
        return ExitCode::from(end(Outcome::Memory, &[], &mut errors));
    };
    let status = program_over(
        rt.alloc(),
        &line,
        &mut input,
        &mut output,
        &mut errors,
        &mut link,
    );
    link.finish(Duration::from_secs(FINISH_SECONDS));
    ExitCode::from(status)
}
