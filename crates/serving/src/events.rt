// One event on a connection.
ghost use Rattle.std.specs.Prelude.{◌≡◌, ◌≤◌, ◌⊎◌, ◌∷◌, [], ℕ, IsTrue, IfOk, OnErr, length, take};
ghost use Rattle.std.specs.Io.KnownBytes.{Appends};
ghost use Rattle.wiki_io.specs.Faults.{Rose};
ghost use Rattle.wiki_io.specs.Link.{is_among, without, can_come, connections_after};
ghost use Rattle.wiki_talk.specs.declared.replies.Reply.{Reply};
ghost use Rattle.server.specs.Kept.{numbers};
ghost use Rattle.server.specs.Responses.{response_of};
ghost use Rattle.serving.specs.Journal.{journal_line};
ghost use Rattle.serving.specs.Delivering.{Delivers};
ghost use Rattle.serving.specs.Events.{RunsEvents, WasHandled, CutsJournal};

use crate::journal::journal_line;
use crate::machine::Machine;
use crate::sending::answer;
use http_front::Then;
use server::{Server, Turn, response};
use std::alloc::Global;
use wiki_base::{Memory, Text8};
use wiki_io::{Event, Link, Sink, put};
use wiki_talk::{Reply, Request};

/// What became of an event.
#[derive(Clone, Copy, Debug, PartialEq, Eq)]
pub enum Handled {
    /// It was handled.
    Done,
    /// A write to the journal failed.
    JournalFault,
    /// There was no memory.
    Memory,
}

/// Handles one event: the server takes note of it, the machine is asked what it asks, an accepted change is written to the
/// journal, and then the response is sent, as far as the link takes it, and the connection closed.
pub fn event<W: Machine, K: Sink, L: Link>(
    alloc: Global,
    machine: &mut W,
    server: &mut Server,
    event: &Event,
    journal: &mut K,
    link: &mut L,
) -> Handled
    requires comes { IsTrue (can_come (numbers server.old) event.now) }
    requires connections { L.connections link.old ≡ connections_after (numbers server.old) event.now }

    // It was handled whole: a run of this one event.
    ensures done { result ≡ Handled.Done → RunsEvents W.Steps machine.old server.old
        (record { journal = K.taken journal.old; sent = L.sent link.old; send_faults = L.send_faults link.old }) (event.now ∷ [])
        machine.new server.new (record { journal = K.taken journal.new; sent = L.sent link.new; send_faults = L.send_faults link.new }) }
    ensures connections { result ≡ Handled.Done → L.connections link.new ≡ numbers server.new }

    // A write to the journal failed, and nothing was sent.
    ensures journal_fault { result ≡ Handled.JournalFault → Rose (K.faults journal.old) (K.faults journal.new) }
    ensures journal { result ≡ Handled.JournalFault
        → CutsJournal W.Steps machine.old server.old event.now (K.taken journal.old) machine.new server.new (K.taken journal.new) }

    // There was no memory, and nothing was written or sent.
    ensures memory { result ≡ Handled.Memory → WasHandled W.Steps machine.old server.old event.now machine.new }
    ensures unwritten { result ≡ Handled.Memory → journal.new ≡ journal.old }
    ensures unsent { (result ≡ Handled.Done → ⊥) → link.new ≡ link.old }

    ensures faults { K.faults journal.old ≤ K.faults journal.new }
    ensures handed { L.handed link.new ≡ L.handed link.old }
    ensures listening { L.listens_at link.new ≡ L.listens_at link.old }
    ensures link_faults { L.faults link.new ≡ L.faults link.old }
{
    let Ok(turn) = server.take(event) else {
        return Handled::Memory;
    };
    match turn {
        Turn::Wait => Handled::Done,
        Turn::Own(connection, response) => {
            answer(link, connection, response.as_bytes());
            Handled::Done
        }
        Turn::Ask(connection, request, then) => {
            let handled = ask(alloc, machine, connection, &request, &then, journal, link);
            drop(request);
            drop(then);
            handled
        }
    }
}

// What a reply leaves to be written and to be sent.
#[derive(Drop)]
struct Answer {
    line: Text8,
    response: Text8,
}

// Asks the machine, writes an accepted change to the journal, and sends the response.
fn ask<W: Machine, K: Sink, L: Link>(
    alloc: Global,
    machine: &mut W,
    connection: u32,
    request: &Request,
    then: &Then,
    journal: &mut K,
    link: &mut L,
) -> Handled
    requires { IsTrue (is_among (L.connections link.old) connection) }
    ensures done { result ≡ Handled.Done → (reply : Reply) × W.Steps machine.old request.now reply machine.new
        × Appends (K.taken journal.old) (K.taken journal.new) (journal_line request.now reply)
        × Delivers ((connection, response_of then.now reply) ∷ []) (L.sent link.old) (L.send_faults link.old) (L.sent link.new) (L.send_faults link.new) }
    ensures closed { result ≡ Handled.Done → L.connections link.new ≡ without connection (L.connections link.old) }
    ensures journal_fault { result ≡ Handled.JournalFault → Rose (K.faults journal.old) (K.faults journal.new) }
    ensures journal { result ≡ Handled.JournalFault → (reply : Reply) × W.Steps machine.old request.now reply machine.new
        × ((count : ℕ) × (count ≤ length (journal_line request.now reply))
        × Appends (K.taken journal.old) (K.taken journal.new) (take count (journal_line request.now reply))) }
    ensures memory { result ≡ Handled.Memory → (machine.new ≡ machine.old) ⊎ ((reply : Reply) × W.Steps machine.old request.now reply machine.new) }
    ensures unwritten { result ≡ Handled.Memory → journal.new ≡ journal.old }
    ensures unsent { (result ≡ Handled.Done → ⊥) → link.new ≡ link.old }
    ensures faults { K.faults journal.old ≤ K.faults journal.new }
    ensures handed { L.handed link.new ≡ L.handed link.old }
    ensures listening { L.listens_at link.new ≡ L.listens_at link.old }
    ensures link_faults { L.faults link.new ≡ L.faults link.old }
{
    let Ok(told) = reply_to(alloc, machine, request, then) else {
        return Handled::Memory;
    };
    let line = told.line.as_bytes();
    let response = told.response.as_bytes();
    if put(journal, line) {
        answer(link, connection, response);
        return Handled::Done;
    }
    Handled::JournalFault
}

// Asks the machine, and tells what its reply leaves to be written and to be sent.
fn reply_to<W: Machine>(
    alloc: Global,
    machine: &mut W,
    request: &Request,
    then: &Then,
) -> Result<Answer, Memory>
    ensures answer { IfOk result (λ answer. (reply : Reply) × W.Steps machine.old request.now reply machine.new
        × (answer.line ≡ journal_line request.now reply) × (answer.response ≡ response_of then.now reply)) }
    ensures memory { OnErr result ((machine.new ≡ machine.old) ⊎ ((reply : Reply) × W.Steps machine.old request.now reply machine.new)) }
{
    let reply = machine.step(request)?;
    let answer = answer_to(alloc, request, then, &reply);
    drop(reply);
    answer
}

// What a reply leaves to be written and to be sent.
fn answer_to(alloc: Global, request: &Request, then: &Then, reply: &Reply) -> Result<Answer, Memory>
    ensures { IfOk result (λ answer. (answer.line ≡ journal_line request.now reply.now) × (answer.response ≡ response_of then.now reply.now)) }
{
    let line = journal_line(alloc, request, reply)?;
    let response = response(alloc, then, reply)?;
    Ok(Answer { line, response })
}
