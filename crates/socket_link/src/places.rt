// Whose turn it is: on which connections something may have come, and when the next one's time is over. The work goes round: each
// round looks at what has become ready, and then each connection with something to be read has one turn, and the listener one.
// Nothing here goes over all places but where a time is over or one has to go.
ghost use Rattle.std.specs.Prelude.{◌≡◌, ◌<◌, ◌≤◌, ◌∷◌, [], IfOk, IfSome, IsTrue, false, length};
ghost use Rattle.wiki_io.specs.declared.links.Event.{Event};
ghost use Rattle.wiki_io.specs.Link.{with_more};
ghost use Rattle.socket_link.specs.Deeds.{sent_in};
ghost use Rattle.socket_link.specs.Kept.{IsFree, IsOpenAt};
ghost use Rattle.socket_link.specs.Moved.{MovedFits};
ghost use Rattle.socket_link.specs.Told.{opening_of, piece_of, taken_if};

use crate::numbers::Numbers;
use crate::place::Times;
use crate::socket::{Accepted, Moved, PLACES, Ready, Sockets};
use crate::switchboard::Switchboard;
use std::alloc::Global;
use std::time::Duration;
use wiki_base::Memory;

// For how many seconds nothing is accepted after there were no descriptors, unless a connection is closed.
const RETRY: u64 = 1;

/// Whose turn it is.
#[derive(Clone, Copy, Debug, PartialEq, Eq)]
pub(crate) enum Turn {
    /// A connection's, on which something may have come.
    Connection(u32),
    /// The listener's, at which one may wait.
    Listener,
    /// Nobody's: the round is over.
    Nobody,
}

#[derive(Drop)]
pub(crate) struct Places<S: Sockets> {
    board: Switchboard<S>,
    times: Times,
    // the open connections on which something may have come, or whose time is over
    ready: Numbers,
    // no connection's time is over before this
    due: Option<Duration>,
    // from which number on the connections have had no turn in this round; the listener's turn is that behind theirs
    turn: u32,
    // whether one may wait at the listener, one has a socket and no number, and there were no descriptors
    waits: bool,
    has_guest: bool,
    is_full: bool,
}

impl<S: Sockets> Places<S> {
    pub(crate) fn new(alloc: Global, sockets: S, times: Times) -> Result<Self, Memory>
        requires { IfSome (S.deeds sockets) (λ deeds. deeds ≡ []) }
        ensures events { IfOk result (λ places. S.events places.board.sockets ≡ S.events sockets) }
        ensures sent { IfOk result (λ places. sent_in (S.deeds places.board.sockets) ≡ sent_in (S.deeds sockets)) }
        ensures listening { IfOk result (λ places. S.listens_at places.board.sockets ≡ S.listens_at sockets) }
    {
        Ok(Places {
            board: Switchboard::new(alloc, sockets)?,
            times,
            ready: Numbers::none(),
            due: None,
            turn: 0,
            waits: false,
            has_guest: false,
            is_full: false,
        })
    }

    pub(crate) fn sockets(&self) -> &S {
        self.board.sockets()
    }

    pub(crate) fn listen(&mut self, address: &str) -> bool
        ensures ready { IsTrue result → IsTrue (S.listens_at self.new.board.sockets address.now) }
        ensures unready { result ≡ false → S.listens_at self.new.board.sockets ≡ S.listens_at self.old.board.sockets }
        ensures events { S.events self.new.board.sockets ≡ S.events self.old.board.sockets }
        ensures sent { sent_in (S.deeds self.new.board.sockets) ≡ sent_in (S.deeds self.old.board.sockets) }
    {
        self.waits = self.board.listen(address);
        self.waits
    }

    // Whose turn comes next in this round.
    pub(crate) fn next_turn(&mut self) -> Turn
        ensures events { S.events self.new.board.sockets ≡ S.events self.old.board.sockets }
        ensures sent { sent_in (S.deeds self.new.board.sockets) ≡ sent_in (S.deeds self.old.board.sockets) }
        ensures listening { S.listens_at self.new.board.sockets ≡ S.listens_at self.old.board.sockets }
    {
        if let Some(number) = self.ready.first_from(self.turn) {
            self.turn = number.saturating_add(1);
            return Turn::Connection(number);
        }
        if self.turn <= PLACES {
            self.turn = PLACES + 1;
            if self.may_accept() {
                return Turn::Listener;
            }
        }
        Turn::Nobody
    }

    fn may_accept(&self) -> bool {
        self.has_guest || (self.waits && !self.is_full)
    }

    // Begins a round: waits until something is ready or the first of the times is up, and not at all where somebody's turn
    // comes anyway. False where that fails.
    pub(crate) fn next_round(&mut self) -> bool
        ensures events { S.events self.new.board.sockets ≡ S.events self.old.board.sockets }
        ensures sent { sent_in (S.deeds self.new.board.sockets) ≡ sent_in (S.deeds self.old.board.sockets) }
        ensures listening { S.listens_at self.new.board.sockets ≡ S.listens_at self.old.board.sockets }
    {
        if self.ready.first_from(0).is_some() || self.may_accept() {
            return self.wait(Some(Duration::from_secs(0)));
        }
        let time = self.time_left();
        self.wait(time)
    }

    // Waits for the time at most, notes what has become ready, and goes on with what is closed.
    fn wait(&mut self, time: Option<Duration>) -> bool
        ensures events { S.events self.new.board.sockets ≡ S.events self.old.board.sockets }
        ensures sent { sent_in (S.deeds self.new.board.sockets) ≡ sent_in (S.deeds self.old.board.sockets) }
        ensures listening { S.listens_at self.new.board.sockets ≡ S.listens_at self.old.board.sockets }
    {
        let Some(ready) = self.board.wait(time) else {
            return false;
        };
        self.board.read_clock();
        self.turn = 0;
        self.is_full = false;
        self.waits = self.waits || ready.listener;
        self.become_ready(ready);
        self.look_over();
        true
    }

    fn become_ready(&mut self, ready: Ready)
        ensures events { S.events self.new.board.sockets ≡ S.events self.old.board.sockets }
        ensures sent { sent_in (S.deeds self.new.board.sockets) ≡ sent_in (S.deeds self.old.board.sockets) }
        ensures listening { S.listens_at self.new.board.sockets ≡ S.listens_at self.old.board.sockets }
    {
        let mut from = 0;
        for _ in 0..PLACES {
            let Some(number) = ready.sockets.first_from(from) else {
                return;
            };
            self.becomes_ready(number);
            from = number.saturating_add(1);
        }
    }

    // Something may be read from the connection's socket, or written to it.
    fn becomes_ready(&mut self, number: u32)
        ensures events { S.events self.new.board.sockets ≡ S.events self.old.board.sockets }
        ensures sent { sent_in (S.deeds self.new.board.sockets) ≡ sent_in (S.deeds self.old.board.sockets) }
        ensures listening { S.listens_at self.new.board.sockets ≡ S.listens_at self.old.board.sockets }
    {
        let Some(place) = self.board.place(number) else {
            return;
        };
        if place.is_closed() {
            self.wind_up(number);
        } else {
            self.board.write(number);
            self.ready.insert(number);
        }
    }

    // How long a wait may last: until a connection's time is over, or until one is accepted again.
    fn time_left(&mut self) -> Option<Duration>
        ensures events { S.events self.new.board.sockets ≡ S.events self.old.board.sockets }
        ensures sent { sent_in (S.deeds self.new.board.sockets) ≡ sent_in (S.deeds self.old.board.sockets) }
        ensures listening { S.listens_at self.new.board.sockets ≡ S.listens_at self.old.board.sockets }
    {
        self.board.read_clock();
        let left = match self.due {
            Some(due) => Some(due.saturating_sub(self.board.now())),
            None => None,
        };
        let retry = Duration::from_secs(RETRY);
        if self.is_full && left.is_none_or(|time| time > retry) {
            return Some(retry);
        }
        left
    }

    // Where a time is over, has the open connections heard whose time that is, and lets the sockets of closed ones go.
    fn look_over(&mut self)
        ensures events { S.events self.new.board.sockets ≡ S.events self.old.board.sockets }
        ensures sent { sent_in (S.deeds self.new.board.sockets) ≡ sent_in (S.deeds self.old.board.sockets) }
        ensures listening { S.listens_at self.new.board.sockets ≡ S.listens_at self.old.board.sockets }
    {
        let now = self.board.now();
        if self.due.is_none_or(|due| due > now) {
            return;
        }
        self.due = None;
        for number in 0..PLACES {
            self.look_at(number);
        }
    }

    fn look_at(&mut self, number: u32)
        ensures events { S.events self.new.board.sockets ≡ S.events self.old.board.sockets }
        ensures sent { sent_in (S.deeds self.new.board.sockets) ≡ sent_in (S.deeds self.old.board.sockets) }
        ensures listening { S.listens_at self.new.board.sockets ≡ S.listens_at self.old.board.sockets }
    {
        let Some(place) = self.board.place(number) else {
            return;
        };
        let (due, is_closed) = (place.due(), place.is_closed());
        if due > self.board.now() {
            self.note_due(due);
        } else if is_closed {
            self.wind_up(number);
        } else {
            self.ready.insert(number);
        }
    }

    // A connection's time is over then.
    fn note_due(&mut self, time: Duration)
        ensures events { S.events self.new.board.sockets ≡ S.events self.old.board.sockets }
        ensures sent { sent_in (S.deeds self.new.board.sockets) ≡ sent_in (S.deeds self.old.board.sockets) }
        ensures listening { S.listens_at self.new.board.sockets ≡ S.listens_at self.old.board.sockets }
    {
        if self.due.is_none_or(|due| due > time) {
            self.due = Some(time);
        }
    }

    // A connection's time is over when its place says so.
    fn note_place(&mut self, number: u32)
        ensures events { S.events self.new.board.sockets ≡ S.events self.old.board.sockets }
        ensures sent { sent_in (S.deeds self.new.board.sockets) ≡ sent_in (S.deeds self.old.board.sockets) }
        ensures listening { S.listens_at self.new.board.sockets ≡ S.listens_at self.old.board.sockets }
    {
        if let Some(place) = self.board.place(number) {
            let due = place.due();
            self.note_due(due);
        }
    }

    // Has a socket for one who waits, if one does.
    pub(crate) fn accept(&mut self) -> Accepted
        ensures events { S.events self.new.board.sockets ≡ S.events self.old.board.sockets }
        ensures sent { sent_in (S.deeds self.new.board.sockets) ≡ sent_in (S.deeds self.old.board.sockets) }
        ensures listening { S.listens_at self.new.board.sockets ≡ S.listens_at self.old.board.sockets }
    {
        if self.has_guest {
            return Accepted::Guest;
        }
        let accepted = self.board.accept();
        match accepted {
            Accepted::Guest => self.has_guest = true,
            Accepted::Nobody => self.waits = false,
            Accepted::Full => self.is_full = true,
            Accepted::Gone | Accepted::Failed => {}
        }
        accepted
    }

    // A number for the socket that was accepted last. Where all places are taken, the closed connection whose time is over
    // first loses its socket.
    pub(crate) fn free_number(&mut self) -> Option<u32>
        ensures free { IfSome result (λ number. IsFree self.new.board.places.items number) }
        ensures events { S.events self.new.board.sockets ≡ S.events self.old.board.sockets }
        ensures sent { sent_in (S.deeds self.new.board.sockets) ≡ sent_in (S.deeds self.old.board.sockets) }
        ensures listening { S.listens_at self.new.board.sockets ≡ S.listens_at self.old.board.sockets }
    {
        self.board.free_number()
    }

    // Names the socket that was accepted last. False where that fails.
    pub(crate) fn settle(&mut self, number: u32) -> bool
        requires { IsFree self.old.board.places.items number }
        ensures events { S.events self.new.board.sockets ≡ with_more (S.events self.old.board.sockets) (opening_of number result) }
        ensures sent { sent_in (S.deeds self.new.board.sockets) ≡ sent_in (S.deeds self.old.board.sockets) }
        ensures listening { S.listens_at self.new.board.sockets ≡ S.listens_at self.old.board.sockets }
    {
        self.has_guest = false;
        self.is_full = false;
        if !self.board.settle(number, self.times) {
            return false;
        }
        self.note_place(number);
        self.ready.insert(number);
        true
    }

    // One of the open connections is to end, if none is already: one on which no empty line has come before others, and that
    // on which nothing has come for longest.
    pub(crate) fn make_room(&mut self)
        ensures events { S.events self.new.board.sockets ≡ S.events self.old.board.sockets }
        ensures sent { sent_in (S.deeds self.new.board.sockets) ≡ sent_in (S.deeds self.old.board.sockets) }
        ensures listening { S.listens_at self.new.board.sockets ≡ S.listens_at self.old.board.sockets }
    {
        if let Some(number) = self.board.first_to_go(false) {
            self.board.leaves(number);
            self.ready.insert(number);
        }
    }

    // Reads what has come on a connection. One whose time is over has ended where nothing waits.
    pub(crate) fn hear(&mut self, number: u32, buf: &mut [u8]) -> Moved
        requires { 0 < length buf.old }
        ensures fits { MovedFits result (length buf.new) }
        ensures room { length buf.new ≡ length buf.old }
        ensures ended { result ≡ Moved.End → IsOpenAt self.new.board.places.items number }
        ensures events { S.events self.new.board.sockets ≡ with_more (S.events self.old.board.sockets) (piece_of number result buf.new) }
        ensures sent { sent_in (S.deeds self.new.board.sockets) ≡ sent_in (S.deeds self.old.board.sockets) }
        ensures listening { S.listens_at self.new.board.sockets ≡ S.listens_at self.old.board.sockets }
    {
        self.board.read_clock();
        let heard = self.board.hear(number, buf, self.times);
        match heard {
            Moved::Nothing => self.ready.remove(number),
            Moved::Bytes(_) => self.note_place(number),
            Moved::End => {}
        }
        heard
    }

    // It has no turn until something comes.
    pub(crate) fn pass_by(&mut self, number: u32)
        ensures events { S.events self.new.board.sockets ≡ S.events self.old.board.sockets }
        ensures sent { sent_in (S.deeds self.new.board.sockets) ≡ sent_in (S.deeds self.old.board.sockets) }
        ensures listening { S.listens_at self.new.board.sockets ≡ S.listens_at self.old.board.sockets }
    {
        self.ready.remove(number);
    }

    // Keeps the bytes of an open connection and writes what its socket takes at once. False where there is no such connection,
    // and for want of memory.
    pub(crate) fn send(&mut self, number: u32, bytes: &[u8]) -> bool
        ensures sent { sent_in (S.deeds self.new.board.sockets)
            ≡ with_more (sent_in (S.deeds self.old.board.sockets)) (taken_if result number bytes.now) }
        ensures events { S.events self.new.board.sockets ≡ S.events self.old.board.sockets }
        ensures listening { S.listens_at self.new.board.sockets ≡ S.listens_at self.old.board.sockets }
    {
        if !self.board.take(number, bytes) {
            return false;
        }
        self.board.write(number);
        true
    }

    // The connection is closed; its socket goes once all is written and what comes was passed over.
    pub(crate) fn close(&mut self, number: u32)
        ensures events { S.events self.new.board.sockets ≡ S.events self.old.board.sockets }
        ensures sent { sent_in (S.deeds self.new.board.sockets) ≡ sent_in (S.deeds self.old.board.sockets) }
        ensures listening { S.listens_at self.new.board.sockets ≡ S.listens_at self.old.board.sockets }
    {
        self.ready.remove(number);
        self.board.read_clock();
        self.board.close(number);
        self.wind_up(number);
    }

    // Goes on with a closed connection.
    fn wind_up(&mut self, number: u32)
        ensures events { S.events self.new.board.sockets ≡ S.events self.old.board.sockets }
        ensures sent { sent_in (S.deeds self.new.board.sockets) ≡ sent_in (S.deeds self.old.board.sockets) }
        ensures listening { S.listens_at self.new.board.sockets ≡ S.listens_at self.old.board.sockets }
    {
        if self.board.wind_up(number) {
            self.note_place(number);
        } else {
            self.is_full = false;
        }
    }

    // The socket of an open connection goes.
    pub(crate) fn end(&mut self, number: u32)
        requires { IsOpenAt self.old.board.places.items number }
        ensures events { S.events self.new.board.sockets ≡ with_more (S.events self.old.board.sockets) (Event.Ended number ∷ []) }
        ensures sent { sent_in (S.deeds self.new.board.sockets) ≡ sent_in (S.deeds self.old.board.sockets) }
        ensures listening { S.listens_at self.new.board.sockets ≡ S.listens_at self.old.board.sockets }
    {
        self.board.end(number);
        self.ready.remove(number);
        self.is_full = false;
    }

    // Waits until no closed connection has its socket any more, at most for about the time.
    pub(crate) fn finish(&mut self, time: Duration)
        ensures events { S.events self.new.board.sockets ≡ S.events self.old.board.sockets }
        ensures sent { sent_in (S.deeds self.new.board.sockets) ≡ sent_in (S.deeds self.old.board.sockets) }
        ensures listening { S.listens_at self.new.board.sockets ≡ S.listens_at self.old.board.sockets }
    {
        self.board.read_clock();
        let end = self.board.now().saturating_add(time);
        for _ in 0..u64::MAX {
            let first = self.time_left();
            let left = end.saturating_sub(self.board.now());
            let wait = match first {
                Some(due) if due < left => due,
                _ => left,
            };
            if left.is_zero() || !self.board.is_winding_up() || !self.wait(Some(wait)) {
                return;
            }
        }
    }
}
