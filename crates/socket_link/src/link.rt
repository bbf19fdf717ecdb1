// Many connections at once, their pieces handed in as they come.
ghost use Rattle.std.specs.Prelude.{ℕ, List, ◌≡◌, ◌<◌, ◌≤◌, [], IsTrue, IfOk, IfSome, length, false};
ghost use Rattle.std.specs.Prelude.{None};
ghost use Rattle.wiki_io.specs.Faults.{Rose};
ghost use Rattle.wiki_io.specs.Link.{is_among, without, can_all_come, connections_after_all, event_in, NextFits, with_more, piece_taken, IsOver};
ghost use Rattle.wiki_io.specs.Sink.{TookFits, IfTook};
ghost use Rattle.socket_link.specs.Deeds.{sent_in, AreToldRight};
ghost use Rattle.socket_link.specs.Kept.{IsFree};
ghost use Rattle.socket_link.specs.Round.{HandsIn};

use crate::place::Times;
use crate::places::{Places, Turn};
use crate::socket::{Accepted, Moved, Sockets};
use crate::tcp::TcpSockets;
use std::alloc::Global;
use std::net::{Net, SocketAddr};
use std::time::{Clock, Duration};
use wiki_base::Memory;
use wiki_io::{Link, Listen, MOST_OPEN, Next, Took};

/// A link over sockets. It hands in each connection that it accepts, and pieces of whichever connection has some, in turn.
/// A connection on which nothing comes isn't looked at until its time is up.
/// Where 64 connections are open and another one waits, one of them ends first. A connection ends where the other side ends
/// it, where its socket fails, where its time is over, and where it has to make room; what waits on it is handed in before.
/// What was taken to be sent is still written after the connection is closed, for 60 seconds at most.
#[derive(Drop)]
pub struct SocketLink<S: Sockets> {
    places: Places<S>,
    connections: Vec<u32>,
    faults: u64,
    send_faults: u64,
}

impl<'a, R: Net + Clock> SocketLink<TcpSockets<'a, R>> {
    /// A link over TCP without connections that listens nowhere yet, on the host's network and clock. A connection has these
    /// times from its opening on until an empty line has come, and until its whole request has.
    pub fn new(
        alloc: Global,
        host: &'a R,
        head: Duration,
        request: Duration,
    ) -> Result<Self, Memory>
        ensures connections { IfOk result (λ link. link.connections.items ≡ []) }
        ensures faults { IfOk result (λ link. (link.faults ≡ 0) × (link.send_faults ≡ 0)) }
    {
        SocketLink::over(
            alloc,
            TcpSockets::new(alloc, host)?,
            Times { head, request },
        )
    }

    /// The address at which the link listens, once it does.
    pub fn address(&self) -> Option<SocketAddr> {
        self.places.sockets().address()
    }
}

impl<S: Sockets> SocketLink<S> {
    /// A link without connections that listens nowhere yet, over sockets that have done nothing yet.
    pub fn over(alloc: Global, sockets: S, times: Times) -> Result<Self, Memory>
        requires { IfSome (S.deeds sockets) (λ deeds. deeds ≡ []) }
        ensures events { IfOk result (λ link. S.events link.places.board.sockets ≡ S.events sockets) }
        ensures sent { IfOk result (λ link. sent_in (S.deeds link.places.board.sockets) ≡ sent_in (S.deeds sockets)) }
        ensures listening { IfOk result (λ link. S.listens_at link.places.board.sockets ≡ S.listens_at sockets) }
        ensures connections { IfOk result (λ link. link.connections.items ≡ []) }
        ensures faults { IfOk result (λ link. (link.faults ≡ 0) × (link.send_faults ≡ 0)) }
    {
        Ok(SocketLink {
            places: Places::new(alloc, sockets, times)?,
            connections: Vec::with_capacity(alloc, MOST_OPEN)?,
            faults: 0,
            send_faults: 0,
        })
    }

    /// Waits until what was taken to be sent on closed connections is written, at most for about the time.
    pub fn finish(&mut self, time: Duration)
        ensures events { S.events self.new.places.board.sockets ≡ S.events self.old.places.board.sockets }
        ensures sent { sent_in (S.deeds self.new.places.board.sockets) ≡ sent_in (S.deeds self.old.places.board.sockets) }
        ensures listening { S.listens_at self.new.places.board.sockets ≡ S.listens_at self.old.places.board.sockets }
        ensures right { ∥ AreToldRight (S.deeds self.new.places.board.sockets) ∥₁ }
    {
        self.places.finish(time)
    }

    // Hands in what there is at the next turn of the round, or begins another round. Here `Over` says that nothing was there.
    #[tactic(auto, using(crate::proofs::ToldLemmas::with_nothing))]
    fn hand_in(&mut self, buf: &mut [u8]) -> Next
        requires { 0 < length buf.old }
        ensures handed { HandsIn self.old.connections.items result buf.new self.new.connections.items }
        ensures told { S.events self.new.places.board.sockets ≡ with_more (S.events self.old.places.board.sockets) (event_in result buf.new) }
        ensures sent { sent_in (S.deeds self.new.places.board.sockets) ≡ sent_in (S.deeds self.old.places.board.sockets) }
        ensures listening { S.listens_at self.new.places.board.sockets ≡ S.listens_at self.old.places.board.sockets }
        ensures room { length buf.new ≡ length buf.old }
        ensures faults { self.new.faults ≡ self.old.faults }
        ensures send_faults { self.new.send_faults ≡ self.old.send_faults }
    {
        match self.places.next_turn() {
            Turn::Connection(number) => self.hear(number, buf),
            Turn::Listener => self.let_in(),
            Turn::Nobody => {
                if self.places.next_round() {
                    Next::Over
                } else {
                    Next::Failed
                }
            }
        }
    }

    #[tactic(auto, using(crate::proofs::ToldLemmas::with_nothing))]
    fn hear(&mut self, number: u32, buf: &mut [u8]) -> Next
        requires { 0 < length buf.old }
        ensures handed { HandsIn self.old.connections.items result buf.new self.new.connections.items }
        ensures told { S.events self.new.places.board.sockets ≡ with_more (S.events self.old.places.board.sockets) (event_in result buf.new) }
        ensures sent { sent_in (S.deeds self.new.places.board.sockets) ≡ sent_in (S.deeds self.old.places.board.sockets) }
        ensures listening { S.listens_at self.new.places.board.sockets ≡ S.listens_at self.old.places.board.sockets }
        ensures room { length buf.new ≡ length buf.old }
        ensures faults { self.new.faults ≡ self.old.faults }
        ensures send_faults { self.new.send_faults ≡ self.old.send_faults }
    {
        if !self.connections.contains(&number) {
            self.places.pass_by(number);
            return Next::Over;
        }
        match self.places.hear(number, buf) {
            Moved::Nothing => Next::Over,
            Moved::Bytes(size) => Next::Bytes(number, size),
            Moved::End => {
                self.places.end(number);
                shut(&mut self.connections, number);
                Next::Ended(number)
            }
        }
    }

    // Lets in one who waits, if one does. Where too many are open, one of them is to end first.
    #[tactic(auto, using(crate::proofs::ToldLemmas::with_nothing))]
    fn let_in(&mut self) -> Next
        ensures handed { (buffer : List ℕ) → HandsIn self.old.connections.items result buffer self.new.connections.items }
        ensures told { (buffer : List ℕ)
            → S.events self.new.places.board.sockets ≡ with_more (S.events self.old.places.board.sockets) (event_in result buffer) }
        ensures sent { sent_in (S.deeds self.new.places.board.sockets) ≡ sent_in (S.deeds self.old.places.board.sockets) }
        ensures listening { S.listens_at self.new.places.board.sockets ≡ S.listens_at self.old.places.board.sockets }
        ensures faults { self.new.faults ≡ self.old.faults }
        ensures send_faults { self.new.send_faults ≡ self.old.send_faults }
    {
        match self.places.accept() {
            Accepted::Guest => {}
            Accepted::Nobody | Accepted::Gone | Accepted::Full => return Next::Over,
            Accepted::Failed => return Next::Failed,
        }
        if self.connections.len() >= MOST_OPEN {
            self.places.make_room();
            return Next::Over;
        }
        match self.places.free_number() {
            Some(number) => self.open(number),
            None => Next::Over,
        }
    }

    // Opens a connection, where no other has its number.
    #[tactic(auto, using(crate::proofs::ToldLemmas::with_nothing))]
    fn open(&mut self, number: u32) -> Next
        requires { IsFree self.old.places.board.places.items number }
        ensures handed { (buffer : List ℕ) → HandsIn self.old.connections.items result buffer self.new.connections.items }
        ensures told { (buffer : List ℕ)
            → S.events self.new.places.board.sockets ≡ with_more (S.events self.old.places.board.sockets) (event_in result buffer) }
        ensures sent { sent_in (S.deeds self.new.places.board.sockets) ≡ sent_in (S.deeds self.old.places.board.sockets) }
        ensures listening { S.listens_at self.new.places.board.sockets ≡ S.listens_at self.old.places.board.sockets }
        ensures faults { self.new.faults ≡ self.old.faults }
        ensures send_faults { self.new.send_faults ≡ self.old.send_faults }
    {
        if self.connections.contains(&number) || self.connections.push(number).is_err() {
            return Next::Over;
        }
        if !self.places.settle(number) {
            self.connections.pop();
            return Next::Over;
        }
        Next::Opened(number)
    }
}

// The connection isn't one of these any more.
fn shut(connections: &mut Vec<u32>, connection: u32)
    ensures { connections.new.items ≡ without connection connections.old.items }
{
    connections.retain(|other| *other != connection);
}

impl<S: Sockets> Link for SocketLink<S> {
    ghost use Rattle.std.specs.Prelude.{None};

    ghost listens_at = { λ l. S.listens_at l.places.board.sockets };

    ghost handed = { λ l. S.events l.places.board.sockets };

    ghost left = { λ _. None };

    ghost sent = { λ l. sent_in (S.deeds l.places.board.sockets) };

    ghost connections = { λ l. l.connections.items };

    ghost faults = { λ l. l.faults };

    ghost send_faults = { λ l. l.send_faults };

    fn listen(&mut self, address: &str) -> Listen {
        if !self.places.listen(address) {
            self.faults = self.faults.saturating_add(1);
            return Listen::Failed;
        }
        Listen::Ready
    }

    #[tactic(auto, using(crate::proofs::ToldLemmas::with_nothing))]
    fn next(&mut self, buf: &mut [u8]) -> Next
        requires { 0 < length buf.old }
        ensures fits { NextFits result (length buf.old) }
        ensures handed { S.events self.new.places.board.sockets ≡ with_more (S.events self.old.places.board.sockets) (event_in result buf.new) }
        ensures comes { IsTrue (can_all_come self.old.connections.items (event_in result buf.new)) }
        ensures connections { self.new.connections.items ≡ connections_after_all self.old.connections.items (event_in result buf.new) }
        ensures listening { S.listens_at self.new.places.board.sockets ≡ S.listens_at self.old.places.board.sockets }
        ensures sent { sent_in (S.deeds self.new.places.board.sockets) ≡ sent_in (S.deeds self.old.places.board.sockets) }
        ensures over { result ≡ Next.Over → IsOver None }
        ensures failed { result ≡ Next.Failed → Rose self.old.faults self.new.faults }
        ensures faults { self.old.faults ≤ self.new.faults }
        ensures send_faults { self.new.send_faults ≡ self.old.send_faults }

        // Whatever its sockets did, each deed is right behind the earlier ones.
        ensures right { ∥ AreToldRight (S.deeds self.new.places.board.sockets) ∥₁ }
    {
        for _ in 0..u64::MAX {
            match self.hand_in(buf) {
                Next::Over => {}
                Next::Failed => break,
                next => return next,
            }
        }
        self.faults = self.faults.saturating_add(1);
        Next::Failed
    }

    fn send(&mut self, connection: u32, bytes: &[u8]) -> Took
        requires bytes { 0 < length bytes.now }
        requires is_open { IsTrue (is_among self.old.connections.items connection) }
        ensures fits { TookFits result (length bytes.now) }
        ensures sent { sent_in (S.deeds self.new.places.board.sockets)
            ≡ with_more (sent_in (S.deeds self.old.places.board.sockets)) (piece_taken connection result bytes.now) }
        ensures handed { S.events self.new.places.board.sockets ≡ S.events self.old.places.board.sockets }
        ensures connections { self.new.connections.items ≡ self.old.connections.items }
        ensures listening { S.listens_at self.new.places.board.sockets ≡ S.listens_at self.old.places.board.sockets }
        ensures failed { result ≡ Took.Failed → Rose self.old.send_faults self.new.send_faults }
        ensures send_faults { self.old.send_faults ≤ self.new.send_faults }
        ensures faults { self.new.faults ≡ self.old.faults }

        // Where it took bytes, it took all of them.
        ensures whole { IfTook result (λ size. size ≡ length bytes.now) }
        ensures right { ∥ AreToldRight (S.deeds self.new.places.board.sockets) ∥₁ }
    {
        if !self.places.send(connection, bytes) {
            self.send_faults = self.send_faults.saturating_add(1);
            return Took::Failed;
        }
        Took::Bytes(bytes.len())
    }

    fn close(&mut self, connection: u32)
        ensures connections { self.new.connections.items ≡ without connection self.old.connections.items }
        ensures listening { S.listens_at self.new.places.board.sockets ≡ S.listens_at self.old.places.board.sockets }
        ensures handed { S.events self.new.places.board.sockets ≡ S.events self.old.places.board.sockets }
        ensures sent { sent_in (S.deeds self.new.places.board.sockets) ≡ sent_in (S.deeds self.old.places.board.sockets) }
        ensures faults { self.new.faults ≡ self.old.faults }
        ensures send_faults { self.new.send_faults ≡ self.old.send_faults }
        ensures right { ∥ AreToldRight (S.deeds self.new.places.board.sockets) ∥₁ }
    {
        shut(&mut self.connections, connection);
        self.places.close(connection);
    }
}
