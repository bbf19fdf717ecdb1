// All events of a link.
ghost use Rattle.std.specs.Prelude.{◌≡◌, ◌<◌, ◌≤◌, List, [], length, IsTrue};
ghost use Rattle.wiki_io.specs.Faults.{Rose};
ghost use Rattle.wiki_io.specs.Link.{with_more, can_come, connections_after, IsOver};
ghost use Rattle.wiki_io.specs.declared.links.Event.{Event};
ghost use Rattle.serving.specs.Events.{Ended};
ghost use Rattle.serving.specs.Coming.{AreCome, IsPieceCome};

use crate::events::{Handled, event};
use crate::machine::Machine;
use server::Server;
use std::alloc::Global;
use wiki_base::{Bytes, Memory};
use wiki_io::{Event, Link, Next, Sink};

/// The greatest number of bytes that are handed in at once.
const BUFFER: usize = 65_536;

/// How serving ended.
#[derive(Clone, Copy, Debug, PartialEq, Eq)]
pub enum Served {
    /// The link is over, or as many events were handled as there were to be.
    Done,
    /// The link failed.
    LinkFault,
    /// A write to the journal failed.
    JournalFault,
    /// There was no memory.
    Memory,
}

/// Handles the events of a link on which no connection is open, at most so many.
pub fn serve<W: Machine, K: Sink, L: Link>(
    alloc: Global,
    machine: &mut W,
    most: u64,
    journal: &mut K,
    link: &mut L,
) -> Served
    requires { L.connections link.old ≡ [] }
    ensures serves { Ended W.Steps machine.old (record { journal = K.taken journal.old; sent = L.sent link.old; send_faults = L.send_faults link.old })
        (L.handed link.old)
        most (L.handed link.new) result (L.left link.new)
        (record { journal = K.taken journal.new; sent = L.sent link.new; send_faults = L.send_faults link.new }) }
    ensures listening { L.listens_at link.new ≡ L.listens_at link.old }
    ensures link_fault { result ≡ Served.LinkFault → Rose (L.faults link.old) (L.faults link.new) }
    ensures journal_fault { result ≡ Served.JournalFault → Rose (K.faults journal.old) (K.faults journal.new) }
{
    match Server::new(alloc) {
        Ok(mut server) => serve_with(alloc, machine, &mut server, most, journal, link),
        Err(Memory) => Served::Memory,
    }
}

fn serve_with<W: Machine, K: Sink, L: Link>(
    alloc: Global,
    machine: &mut W,
    server: &mut Server,
    most: u64,
    journal: &mut K,
    link: &mut L,
) -> Served
    requires none { server.old ≡ [] }
    requires connections { L.connections link.old ≡ [] }
    ensures serves { Ended W.Steps machine.old (record { journal = K.taken journal.old; sent = L.sent link.old; send_faults = L.send_faults link.old })
        (L.handed link.old)
        most (L.handed link.new) result (L.left link.new)
        (record { journal = K.taken journal.new; sent = L.sent link.new; send_faults = L.send_faults link.new }) }
    ensures listening { L.listens_at link.new ≡ L.listens_at link.old }
    ensures link_fault { result ≡ Served.LinkFault → Rose (L.faults link.old) (L.faults link.new) }
    ensures journal_fault { result ≡ Served.JournalFault → Rose (K.faults journal.old) (K.faults journal.new) }
{
    match vec![in alloc; 0u8; BUFFER] {
        Ok(mut buffer) => serve_events(
            alloc,
            machine,
            server,
            buffer.as_mut_slice(),
            most,
            journal,
            link,
        ),
        Err(_) => Served::Memory,
    }
}

// Handles event after event; what comes is put into the buffer.
fn serve_events<W: Machine, K: Sink, L: Link>(
    alloc: Global,
    machine: &mut W,
    server: &mut Server,
    buffer: &mut [u8],
    most: u64,
    journal: &mut K,
    link: &mut L,
) -> Served
    requires none { server.old ≡ [] }
    requires connections { L.connections link.old ≡ [] }
    requires room { 0 < length buffer.old }
    ensures serves { Ended W.Steps machine.old (record { journal = K.taken journal.old; sent = L.sent link.old; send_faults = L.send_faults link.old })
        (L.handed link.old)
        most (L.handed link.new) result (L.left link.new)
        (record { journal = K.taken journal.new; sent = L.sent link.new; send_faults = L.send_faults link.new }) }
    ensures listening { L.listens_at link.new ≡ L.listens_at link.old }
    ensures link_fault { result ≡ Served.LinkFault → Rose (L.faults link.old) (L.faults link.new) }
    ensures journal_fault { result ≡ Served.JournalFault → Rose (K.faults journal.old) (K.faults journal.new) }
{
    'events: for _handled in 0..most {
        let come = match next_event(alloc, link, buffer) {
            Come::Event(come) => come,
            Come::Over => return Served::Done,
            Come::Failed => return Served::LinkFault,
            Come::Unread => return Served::Memory,
        };
        match event(alloc, machine, server, &come, journal, link) {
            Handled::Done => {}
            Handled::JournalFault => return Served::JournalFault,
            Handled::Memory => return Served::Memory,
        }
    }
    Served::Done
}

// What a link hands in: an event, or why there is none.
#[derive(Drop)]
enum Come {
    Event(Event),
    Over,
    Failed,
    // an event came, and there was no memory for it
    Unread,
}

// The next event of a link.
fn next_event<L: Link>(alloc: Global, link: &mut L, buffer: &mut [u8]) -> Come
    requires { 0 < length buffer.old }
    ensures handed { (events : List Event) × (L.handed link.new ≡ with_more (L.handed link.old) events) × AreCome result events }
    ensures comes { (come : Event) → result ≡ Come.Event come → IsTrue (can_come (L.connections link.old) come) }
    ensures connections { (come : Event) → result ≡ Come.Event come → L.connections link.new ≡ connections_after (L.connections link.old) come }
    ensures listening { L.listens_at link.new ≡ L.listens_at link.old }
    ensures sent { L.sent link.new ≡ L.sent link.old }
    ensures over { result ≡ Come.Over → IsOver (L.left link.new) }
    ensures failed { result ≡ Come.Failed → Rose (L.faults link.old) (L.faults link.new) }
    ensures faults { L.faults link.old ≤ L.faults link.new }
    ensures send_faults { L.send_faults link.new ≡ L.send_faults link.old }
{
    match link.next(buffer) {
        Next::Opened(connection) => Come::Event(Event::Opened(connection)),
        Next::Bytes(connection, size) => piece_come(alloc, connection, &buffer[..size]),
        Next::Ended(connection) => Come::Event(Event::Ended(connection)),
        Next::Over => Come::Over,
        Next::Failed => Come::Failed,
    }
}

// A piece that came on a connection, where there is memory for it.
fn piece_come(alloc: Global, connection: u32, piece: &[u8]) -> Come
    ensures { IsPieceCome connection piece.now result }
{
    match Bytes::from_slice(alloc, piece) {
        Ok(piece) => Come::Event(Event::Piece(connection, piece)),
        Err(Memory) => Come::Unread,
    }
}
