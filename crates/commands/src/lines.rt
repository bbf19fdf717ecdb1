// One line of the input.
ghost use Rattle.std.specs.Prelude.{◌≡◌, ◌⊎◌, ◌≤◌, IfOk, IfErr, OnOk, OnErr, IsErrOf};
ghost use Rattle.wiki_io.specs.Faults.{Rose};
ghost use Rattle.commands.specs.Lines.{line_handed, StepsLine, RepliesTo, WasStepped, AnswersLine, CutsLine};
ghost use Rattle.wiki_talk.specs.declared.requests.LineRequest.{LineRequest};
ghost use Rattle.wiki_talk.specs.Turns.{Exchange};
ghost use Rattle.wiki_talk.specs.declared.replies.Reply.{Reply};
ghost use Rattle.commands.specs.Wiki.{KeptTurn};
ghost use Rattle.wire_json.specs.Replies.{reply_line};

use crate::recalling::RecallingWiki;
use command_line::Outcome;
use std::alloc::Global;
use wiki_base::{Memory, Text8};
use wiki_io::{Sink, put};
use wiki_talk::LineRequest;
use wire_json::{bad_request_line, read_line_request, reply_line};

/// Steps through one line, where none is one that is too long, and writes its reply line. It answers Ok only when the
/// whole reply line is written, so whoever reads the next line after that has answered this one.
pub fn answer_line<K: Sink>(
    alloc: Global,
    wiki: &mut RecallingWiki,
    line: Option<&[u8]>,
    output: &mut K,
) -> Result<(), Outcome>
    ensures answered { OnOk result (AnswersLine wiki.old (line_handed line.entry) (K.taken output.old) wiki.new (K.taken output.new)) }
    ensures cut { IfErr result (λ outcome. CutsLine outcome wiki.old (line_handed line.entry) (K.taken output.old) wiki.new (K.taken output.new)) }
    ensures write_fault { IsErrOf result Outcome.WriteFault → Rose (K.faults output.old) (K.faults output.new) }
    ensures faults { K.faults output.old ≤ K.faults output.new }
{
    let reply = answer(alloc, wiki, line)?;
    if put(output, reply.as_bytes()) {
        Ok(())
    } else {
        Err(Outcome::WriteFault)
    }
}

/// Steps through one line, where none is one that is too long, and writes nothing.
pub fn step_line(alloc: Global, wiki: &mut RecallingWiki, line: Option<&[u8]>) -> Result<(), Memory>
    ensures { OnOk result ((exchange : Exchange LineRequest Reply) × StepsLine wiki.old (line_handed line.entry) exchange wiki.new) }
{
    let request = match line {
        Some(line) => read_line_request(alloc, line)?,
        None => None,
    };
    match request {
        Some(request) => {
            let done = turn(wiki, &request);
            drop(request);
            done
        }
        None => Ok(()),
    }
}

// Takes the turn of a request.
fn turn(wiki: &mut RecallingWiki, request: &LineRequest) -> Result<(), Memory>
    ensures { OnOk result ((reply : Reply) × KeptTurn wiki.old request.now reply wiki.new) }
{
    let told = wiki.turn(request)?;
    drop(told);
    Ok(())
}

// The reply line to a line.
fn answer(alloc: Global, wiki: &mut RecallingWiki, line: Option<&[u8]>) -> Result<Text8, Memory>
    ensures reply { IfOk result (RepliesTo wiki.old (line_handed line.entry) wiki.new) }
    ensures memory { OnErr result (WasStepped wiki.old (line_handed line.entry) wiki.new) }
{
    let request = match line {
        Some(line) => read_line_request(alloc, line)?,
        None => None,
    };
    match request {
        Some(request) => {
            let line = reply_to(alloc, wiki, &request);
            drop(request);
            line
        }
        None => bad_request_line(alloc),
    }
}

// The reply line to a request.
fn reply_to(alloc: Global, wiki: &mut RecallingWiki, request: &LineRequest) -> Result<Text8, Memory>
    ensures reply { IfOk result (λ line. (reply : Reply) × KeptTurn wiki.old request.now reply wiki.new × (line ≡ reply_line reply)) }
    ensures memory { OnErr result ((wiki.new ≡ wiki.old) ⊎ ((reply : Reply) × KeptTurn wiki.old request.now reply wiki.new)) }
{
    let reply = wiki.turn(request)?;
    let line = reply_line(alloc, &reply);
    drop(reply);
    line
}
