// A link in memory, whose calls fail where that is asked for.
ghost use Rattle.std.specs.Prelude.{◌≡◌, ◌<◌, ◌≤◌, ◌++◌, ◌∷◌, [], ◌-◌, ◌^◌, Some, IsTrue, IfOk, OnOk, OnErr, ◌⊎◌, if◌then◌else◌, take, length, min, true, false};
ghost use Rattle.std.specs.List.{list_all};
ghost use Rattle.wiki_io.specs.Faults.{Rose};
ghost use Rattle.wiki_io.specs.Link.{listens_anywhere, is_among, without, can_come, can_all_come, connections_after_all, event_in, NextFits, with_more, piece_taken, IsOver};
ghost use Rattle.wiki_io.specs.Memory.{one_more};
ghost use Rattle.wiki_io.specs.MemoryLink.{HeldLink, HandsIn, is_whole, coming, begins_well, fails_next, next_of, with_rest, after_next};
ghost use Rattle.wiki_io.specs.Sink.{TookFits, IfTook};

use crate::links::{Event, Link, Listen, Next};
use crate::sinks::Took;
use std::alloc::Global;
use std::collections::VecDeque;
use std::marker::Model;
use wiki_base::{Bytes, Memory};

/// A link in memory, which listens at whatever address it is asked to. Its events are those of a script, without those that
/// can't come when it is their turn: an opening of a connection that is open, a piece or an end of one that isn't.
#[derive(Drop)]
pub struct MemoryLink {
    alloc: Global,
    is_listening: bool,
    script: VecDeque<Event>,
    handed: Vec<Event>,
    connections: Vec<u32>,
    sent: Vec<(u32, Bytes)>,
    largest: usize,
    fails: Fails,
    listens: u64,
    nexts: u64,
    sends: u64,
    faults: u64,
    send_faults: u64,
}

/// The numbers of the calls that are to fail, from 1, of each method by itself.
#[derive(Drop)]
pub struct Fails {
    pub listen: Vec<u64>,
    pub next: Vec<u64>,
    pub send: Vec<u64>,
}

impl Fails {
    /// No call is to fail.
    pub fn none(alloc: Global) -> Fails
        ensures { (result.listen.items ≡ []) × (result.next.items ≡ []) × (result.send.items ≡ []) }
    {
        Fails {
            listen: Vec::new(alloc),
            next: Vec::new(alloc),
            send: Vec::new(alloc),
        }
    }
}

impl Model for MemoryLink {
    ghost use Rattle.std.specs.Prelude.{◌<◌, IsTrue};
    ghost use Rattle.std.specs.List.{list_all};
    ghost use Rattle.wiki_io.specs.MemoryLink.{HeldLink, is_whole};

    ghost Value = { HeldLink };

    ghost view = { λ l. record {
      is_listening = l.is_listening;
      script = l.script.items;
      handed = l.handed.items;
      connections = l.connections.items;
      sent = l.sent.items;
      largest = l.largest;
      listen_fails = l.fails.listen.items;
      next_fails = l.fails.next.items;
      send_fails = l.fails.send.items;
      listens = l.listens;
      nexts = l.nexts;
      sends = l.sends;
      faults = l.faults;
      send_faults = l.send_faults;
    } };

    ghost invariant = { λ l. (0 < l.largest) × IsTrue (list_all is_whole l.script.items) };
}

impl MemoryLink {
    /// A link with these events, whose calls of these numbers fail.
    pub fn new(alloc: Global, script: VecDeque<Event>, fails: Fails) -> Self
        requires { IsTrue (list_all is_whole script.items) }
        ensures { result ≡ record {
          is_listening = false;
          script = script.items;
          handed = [];
          connections = [];
          sent = [];
          largest = 2 ^ 64 - 1;
          listen_fails = fails.listen.items;
          next_fails = fails.next.items;
          send_fails = fails.send.items;
          listens = 0;
          nexts = 0;
          sends = 0;
          faults = 0;
          send_faults = 0;
        } }
    {
        MemoryLink::in_pieces(alloc, script, fails, usize::MAX)
    }

    /// The same, where no `send` takes more than `largest` bytes.
    pub fn in_pieces(alloc: Global, script: VecDeque<Event>, fails: Fails, largest: usize) -> Self
        requires largest { 0 < largest }
        requires whole { IsTrue (list_all is_whole script.items) }
        ensures { result ≡ record {
          is_listening = false;
          script = script.items;
          handed = [];
          connections = [];
          sent = [];
          largest = largest;
          listen_fails = fails.listen.items;
          next_fails = fails.next.items;
          send_fails = fails.send.items;
          listens = 0;
          nexts = 0;
          sends = 0;
          faults = 0;
          send_faults = 0;
        } }
    {
        MemoryLink {
            alloc,
            is_listening: false,
            script,
            handed: Vec::new(alloc),
            connections: Vec::new(alloc),
            sent: Vec::new(alloc),
            largest,
            fails,
            listens: 0,
            nexts: 0,
            sends: 0,
            faults: 0,
            send_faults: 0,
        }
    }

    /// What was taken to be sent: pieces, each with its connection, in order.
    pub fn sent(&self) -> &[(u32, Bytes)]
        ensures { result.now ≡ self.now.sent }
    {
        &self.sent
    }

    fn fault(&mut self)
        ensures { self.new ≡ record self.old { faults = one_more self.old.faults } }
    {
        self.faults = self.faults.saturating_add(1);
    }

    // Hands in the first event of the script, of a piece what the buffer has room for.
    fn hand_in(&mut self, buf: &mut [u8]) -> Result<Next, Memory>
        requires room { 0 < length buf.old }
        requires comes { IsTrue (begins_well self.old.connections self.old.script) }
        ensures answer { IfOk result (λ next. next ≡ next_of self.old.script (length buf.old)) }
        ensures fits { IfOk result (λ next. NextFits next (length buf.old)) }
        ensures comes { IfOk result (λ next. IsTrue (can_all_come self.old.connections (event_in next buf.new))) }
        ensures handed { IfOk result (λ next. HandsIn self.old (event_in next buf.new) self.new) }
        ensures script { OnOk result (self.new.script ≡ after_next self.old.script (length buf.old)) }
        ensures err { OnErr result (HandsIn self.old [] self.new) }
    {
        match self.script.pop_front() {
            None => Ok(Next::Over),
            Some(Event::Opened(connection)) => self.hand_opened(connection),
            Some(Event::Piece(connection, bytes)) => self.hand_piece(connection, bytes, buf),
            Some(Event::Ended(connection)) => {
                self.handed.push(Event::Ended(connection))?;
                shut(&mut self.connections, connection);
                Ok(Next::Ended(connection))
            }
        }
    }

    fn hand_opened(&mut self, connection: u32) -> Result<Next, Memory>
        ensures answer { IfOk result (λ next. next ≡ Next.Opened connection) }
        ensures ok { OnOk result (HandsIn self.old (Event.Opened connection ∷ []) self.new) }
        ensures err { OnErr result (HandsIn self.old [] self.new) }
        ensures script { self.new.script ≡ self.old.script }
    {
        self.connections.push(connection)?;
        if self.handed.push(Event::Opened(connection)).is_err() {
            self.connections.pop();
            return Err(Memory);
        }
        Ok(Next::Opened(connection))
    }

    fn hand_piece(&mut self, connection: u32, bytes: Bytes, buf: &mut [u8]) -> Result<Next, Memory>
        requires room { 0 < length buf.old }
        requires whole { 0 < length bytes }
        ensures answer { IfOk result (λ next. next ≡ Next.Bytes connection (min (length bytes) (length buf.old))) }
        ensures ok { OnOk result (HandsIn self.old (Event.Piece connection (take (min (length bytes) (length buf.old)) buf.new) ∷ []) self.new) }
        ensures script { OnOk result (self.new.script ≡ after_next (Event.Piece connection bytes ∷ self.old.script) (length buf.old)) }
        ensures err { OnErr result (HandsIn self.old [] self.new) }
    {
        let size = bytes.as_slice().len().min(buf.len());
        let (front, rest) = bytes.as_slice().split_at(size);
        self.put_back(connection, rest)?;
        self.note(connection, front)?;
        buf[..size].copy_from_slice(front);
        Ok(Next::Bytes(connection, size))
    }

    // What is left of a piece comes next.
    fn put_back(&mut self, connection: u32, rest: &[u8]) -> Result<(), Memory>
        ensures ok { OnOk result (self.new ≡ record self.old { script = with_rest connection rest.now self.old.script }) }
        ensures err { OnErr result (self.new ≡ self.old) }
    {
        if rest.is_empty() {
            return Ok(());
        }
        let rest = Bytes::from_slice(self.alloc, rest)?;
        self.script.push_front(Event::Piece(connection, rest))?;
        Ok(())
    }

    // The piece is among what was handed in.
    fn note(&mut self, connection: u32, piece: &[u8]) -> Result<(), Memory>
        ensures ok { OnOk result (self.new ≡ record self.old { handed = self.old.handed ++ Event.Piece connection piece.now ∷ [] }) }
        ensures err { OnErr result (self.new ≡ self.old) }
    {
        let piece = Bytes::from_slice(self.alloc, piece)?;
        self.handed.push(Event::Piece(connection, piece))?;
        Ok(())
    }

    fn take(&mut self, connection: u32, bytes: &[u8]) -> Result<(), Memory>
        ensures ok { OnOk result (self.new ≡ record self.old { sent = self.old.sent ++ (connection, bytes.now) ∷ [] }) }
        ensures err { OnErr result (self.new ≡ self.old) }
    {
        let bytes = Bytes::from_slice(self.alloc, bytes)?;
        self.sent.push((connection, bytes))?;
        Ok(())
    }
}

// Drops the events that can't come, up to the first that can.
fn skip(script: &mut VecDeque<Event>, connections: &[u32])
    requires { IsTrue (list_all is_whole script.old.items) }
    ensures coming { script.new.items ≡ coming connections.now script.old.items }
    ensures whole { IsTrue (list_all is_whole script.new.items) }
    ensures begins { IsTrue (begins_well connections.now script.new.items) }
{
    while let Some(event) = script.front() {
        if can_come(connections, event) {
            break;
        }
        script.pop_front();
    }
}

// The connection isn't one of these any more.
fn shut(connections: &mut Vec<u32>, connection: u32)
    ensures { connections.new.items ≡ without connection connections.old.items }
{
    connections.retain(|open| *open != connection);
}

fn can_come(connections: &[u32], event: &Event) -> bool
    ensures { result ≡ can_come connections.now event.now }
{
    match event {
        Event::Opened(connection) => !connections.contains(connection),
        Event::Piece(connection, _) | Event::Ended(connection) => connections.contains(connection),
    }
}

impl Link for MemoryLink {
    ghost listens_at = { λ l. listens_anywhere l.is_listening };

    ghost handed = { λ l. Some l.handed };

    ghost left = { λ l. Some l.script };

    ghost sent = { λ l. Some l.sent };

    ghost connections = { λ l. l.connections };

    ghost faults = { λ l. l.faults };

    ghost send_faults = { λ l. l.send_faults };

    fn listen(&mut self, address: &str) -> Listen
        ensures ready { result ≡ Listen.Ready → IsTrue (listens_anywhere self.new.is_listening address.now) }
        ensures unready { result ≡ Listen.Failed → listens_anywhere self.new.is_listening ≡ listens_anywhere self.old.is_listening }
        ensures failed { result ≡ Listen.Failed → Rose self.old.faults self.new.faults }
        ensures faults { self.old.faults ≤ self.new.faults }
        ensures handed { Some self.new.handed ≡ Some self.old.handed }
        ensures sent { Some self.new.sent ≡ Some self.old.sent }
        ensures connections { self.new.connections ≡ self.old.connections }
        ensures send_faults { self.new.send_faults ≡ self.old.send_faults }

        ensures answer { result ≡ (if fails_next self.old.listens self.old.listen_fails then Listen.Failed else Listen.Ready) }
        ensures calls { self.new.listens ≡ one_more self.old.listens }
        ensures same { self.new ≡ record self.old { is_listening = self.new.is_listening; listens = self.new.listens; faults = self.new.faults } }
    {
        self.listens = self.listens.saturating_add(1);
        if self.fails.listen.contains(&self.listens) {
            self.fault();
            return Listen::Failed;
        }
        self.is_listening = true;
        Listen::Ready
    }

    fn next(&mut self, buf: &mut [u8]) -> Next
        requires { 0 < length buf.old }
        ensures fits { NextFits result (length buf.old) }
        ensures handed { Some self.new.handed ≡ with_more (Some self.old.handed) (event_in result buf.new) }
        ensures comes { IsTrue (can_all_come self.old.connections (event_in result buf.new)) }
        ensures connections { self.new.connections ≡ connections_after_all self.old.connections (event_in result buf.new) }
        ensures listening { listens_anywhere self.new.is_listening ≡ listens_anywhere self.old.is_listening }
        ensures sent { Some self.new.sent ≡ Some self.old.sent }
        ensures over { result ≡ Next.Over → IsOver (Some self.new.script) }
        ensures failed { result ≡ Next.Failed → Rose self.old.faults self.new.faults }
        ensures faults { self.old.faults ≤ self.new.faults }
        ensures send_faults { self.new.send_faults ≡ self.old.send_faults }

        // It fails where it is to fail, and for want of memory.
        ensures to_fail { fails_next self.old.nexts self.old.next_fails ≡ true → result ≡ Next.Failed }
        ensures answer { (result ≡ Next.Failed) ⊎ (result ≡ next_of (coming self.old.connections self.old.script) (length buf.old)) }
        ensures calls { self.new.nexts ≡ one_more self.old.nexts }
    {
        self.nexts = self.nexts.saturating_add(1);
        if self.fails.next.contains(&self.nexts) {
            self.fault();
            return Next::Failed;
        }
        skip(&mut self.script, &self.connections);
        match self.hand_in(buf) {
            Ok(next) => next,
            Err(Memory) => {
                self.fault();
                Next::Failed
            }
        }
    }

    fn send(&mut self, connection: u32, bytes: &[u8]) -> Took
        requires bytes { 0 < length bytes.now }
        requires is_open { IsTrue (is_among self.old.connections connection) }
        ensures fits { TookFits result (length bytes.now) }
        ensures sent { Some self.new.sent ≡ with_more (Some self.old.sent) (piece_taken connection result bytes.now) }
        ensures handed { Some self.new.handed ≡ Some self.old.handed }
        ensures connections { self.new.connections ≡ self.old.connections }
        ensures listening { listens_anywhere self.new.is_listening ≡ listens_anywhere self.old.is_listening }
        ensures failed { result ≡ Took.Failed → Rose self.old.send_faults self.new.send_faults }
        ensures send_faults { self.old.send_faults ≤ self.new.send_faults }
        ensures faults { self.new.faults ≡ self.old.faults }

        // It fails where it is to fail, and for want of memory.
        ensures to_fail { fails_next self.old.sends self.old.send_fails ≡ true → result ≡ Took.Failed }
        ensures size { IfTook result (λ size. size ≡ min (length bytes.now) self.old.largest) }
        ensures calls { self.new.sends ≡ one_more self.old.sends }
    {
        self.sends = self.sends.saturating_add(1);
        let size = bytes.len().min(self.largest);
        if self.fails.send.contains(&self.sends) || self.take(connection, &bytes[..size]).is_err() {
            self.send_faults = self.send_faults.saturating_add(1);
            return Took::Failed;
        }
        Took::Bytes(size)
    }

    fn close(&mut self, connection: u32)
        ensures connections { self.new.connections ≡ without connection self.old.connections }
        ensures listening { listens_anywhere self.new.is_listening ≡ listens_anywhere self.old.is_listening }
        ensures handed { Some self.new.handed ≡ Some self.old.handed }
        ensures sent { Some self.new.sent ≡ Some self.old.sent }
        ensures faults { self.new.faults ≡ self.old.faults }
        ensures send_faults { self.new.send_faults ≡ self.old.send_faults }
    {
        shut(&mut self.connections, connection);
    }
}
