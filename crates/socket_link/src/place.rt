// One connection: how long it may stand, and what is still to be written to it.
ghost use Rattle.std.specs.Prelude.{◌≡◌, ◌<◌, ◌≤◌, ◌++◌, [], IsTrue, OnOk, OnErr, false, length};
ghost use Rattle.std.specs.Duration.{as_nanos};
ghost use Rattle.wiki_io.specs.Link.{with_more};
ghost use Rattle.socket_link.specs.Deeds.{end_of};
ghost use Rattle.socket_link.specs.Moved.{MovedFits};
ghost use Rattle.socket_link.specs.Told.{piece_of};

use crate::head::Head;
use crate::socket::{Moved, Sockets};
use std::alloc::{AllocError, Global};
use std::time::Duration;

// For how many seconds after its opening a connection isn't the one to make room, where there is another.
const NEW_SECONDS: u64 = 1;

// How many seconds after its close a response may take to be written.
const WRITE_SECONDS: u64 = 60;

// How many seconds after the last byte was written what comes is passed over, and how many bytes at most.
const DRAIN_SECONDS: u64 = 2;

const MOST_DRAINED: usize = 1_048_576;

/// How long a connection may take from its opening on.
#[derive(Clone, Copy, Debug)]
pub struct Times {
    /// Until an empty line has come.
    pub head: Duration,
    /// Until its whole request has come.
    pub request: Duration,
}

#[derive(Drop)]
pub(crate) struct Place {
    opened: Duration,
    // when bytes last came
    heard: Duration,
    head: Head,
    // when its time is over
    due: Duration,
    is_leaving: bool,
    // what was taken to be sent, and how much of it is written
    unsent: Vec<u8>,
    written: usize,
    // closed by this side: what is unsent is still written, and what comes is passed over
    is_closed: bool,
    is_shut: bool,
    has_ended: bool,
    drained: usize,
}

impl Place {
    ghost use Rattle.socket_link.specs.Kept.{left_in, IsServed, OnlyOn, HasFailed, IsFreeToGo};

    pub(crate) fn new(alloc: Global, now: Duration, times: Times) -> Place
        ensures left { left_in result ≡ [] }
        ensures closed { result.is_closed ≡ false }
        ensures shut { result.is_shut ≡ false }
    {
        Place {
            opened: now,
            heard: now,
            head: Head::Before,
            due: now.saturating_add(times.head),
            is_leaving: false,
            unsent: Vec::new(alloc),
            written: 0,
            is_closed: false,
            is_shut: false,
            has_ended: false,
            drained: 0,
        }
    }

    pub(crate) fn is_closed(&self) -> bool
        ensures { result ≡ self.now.is_closed }
    {
        self.is_closed
    }

    pub(crate) fn due(&self) -> Duration
        ensures { result ≡ self.now.due }
    {
        self.due
    }

    // It is to end as soon as nothing waits to be read.
    pub(crate) fn leaves(&mut self)
        ensures left { left_in self.new ≡ left_in self.old }
        ensures closed { self.new.is_closed ≡ self.old.is_closed }
        ensures shut { self.new.is_shut ≡ self.old.is_shut }
        ensures due { self.new.due ≡ self.old.due }
    {
        self.is_leaving = true;
    }

    // Which of two goes first, where both are closed or both open. Of closed ones, whose time is over first; of open ones, the
    // one that is to end anyway, then one that wasn't opened just now, so that its bytes may come, then one without an empty
    // line, then the one that has been silent for longest.
    pub(crate) fn goes_before(&self, other: &Place, now: Duration) -> bool {
        if self.is_closed {
            self.due < other.due
        } else if self.is_leaving != other.is_leaving {
            self.is_leaving
        } else if self.is_new(now) != other.is_new(now) {
            other.is_new(now)
        } else if self.head.is_whole() != other.head.is_whole() {
            other.head.is_whole()
        } else {
            self.heard < other.heard
        }
    }

    fn is_new(&self, now: Duration) -> bool {
        now.saturating_sub(self.opened) < Duration::from_secs(NEW_SECONDS)
    }

    // Reads what has come into the buffer. One whose time is over has ended where nothing waits.
    pub(crate) fn hear<S: Sockets>(
        &mut self,
        sockets: &mut S,
        number: u32,
        buf: &mut [u8],
        now: Duration,
        times: Times,
    ) -> Moved
        requires { 0 < length buf.old }
        ensures fits { MovedFits result (length buf.new) }
        ensures room { length buf.new ≡ length buf.old }
        ensures left { left_in self.new ≡ left_in self.old }
        ensures closed { self.new.is_closed ≡ self.old.is_closed }
        ensures shut { self.new.is_shut ≡ self.old.is_shut }
        ensures deeds { S.deeds sockets.new ≡ S.deeds sockets.old }
        ensures events { S.events sockets.new ≡ with_more (S.events sockets.old) (piece_of number result buf.new) }
        ensures listening { S.listens_at sockets.new ≡ S.listens_at sockets.old }
    {
        match sockets.read(number, buf) {
            Moved::Nothing if self.is_leaving || self.due <= now => Moved::End,
            Moved::Bytes(size) => {
                self.heard = now;
                self.head = self.head.after(&buf[..size]);
                if self.head.is_whole() {
                    self.due = self.opened.saturating_add(times.request);
                }
                Moved::Bytes(size)
            }
            heard => heard,
        }
    }

    // Keeps all of the bytes, to be sent behind those that are kept.
    pub(crate) fn keep(&mut self, bytes: &[u8]) -> Result<(), AllocError>
        ensures kept { OnOk result (left_in self.new ≡ left_in self.old ++ bytes.now) }
        ensures unkept { OnErr result (left_in self.new ≡ left_in self.old) }
        ensures closed { self.new.is_closed ≡ self.old.is_closed }
        ensures shut { self.new.is_shut ≡ self.old.is_shut }
        ensures due { self.new.due ≡ self.old.due }
    {
        if self.written >= self.unsent.len() {
            self.unsent.clear();
            self.written = 0;
        }
        self.unsent.extend_from_slice(bytes)?;
        Ok(())
    }

    // Writes what the socket takes now; on a closed connection, before its time is over. False where it has failed.
    pub(crate) fn write<S: Sockets>(&mut self, sockets: &mut S, number: u32, now: Duration) -> bool
        requires in_time { IsTrue self.old.is_closed → as_nanos now < as_nanos self.old.due }
        requires served { IsServed number self.old (as_nanos now) (S.deeds sockets.old) }
        ensures served { IsServed number self.new (as_nanos now) (S.deeds sockets.new) }
        ensures others { OnlyOn number (S.deeds sockets.old) (S.deeds sockets.new) }
        ensures failed { result ≡ false → HasFailed number (S.deeds sockets.new) }
        ensures closed { self.new.is_closed ≡ self.old.is_closed }
        ensures events { S.events sockets.new ≡ S.events sockets.old }
        ensures listening { S.listens_at sockets.new ≡ S.listens_at sockets.old }
    {
        for _ in 0..u64::MAX {
            match self.write_some(sockets, number, now) {
                Moved::Nothing => return true,
                Moved::Bytes(_) => {}
                Moved::End => return false,
            }
        }
        true
    }

    // One writing of what is left.
    fn write_some<S: Sockets>(&mut self, sockets: &mut S, number: u32, now: Duration) -> Moved
        requires in_time { IsTrue self.old.is_closed → as_nanos now < as_nanos self.old.due }
        requires served { IsServed number self.old (as_nanos now) (S.deeds sockets.old) }
        ensures served { IsServed number self.new (as_nanos now) (S.deeds sockets.new) }
        ensures others { OnlyOn number (S.deeds sockets.old) (S.deeds sockets.new) }
        ensures failed { result ≡ Moved.End → HasFailed number (S.deeds sockets.new) }
        ensures closed { self.new.is_closed ≡ self.old.is_closed }
        ensures due { self.new.due ≡ self.old.due }
        ensures events { S.events sockets.new ≡ S.events sockets.old }
        ensures listening { S.listens_at sockets.new ≡ S.listens_at sockets.old }
    {
        if self.written >= self.unsent.len() {
            self.unsent.clear();
            self.written = 0;
            return Moved::Nothing;
        }
        match sockets.write(number, &self.unsent[self.written..]) {
            Moved::Nothing => Moved::Nothing,
            Moved::Bytes(size) => {
                self.written += size;
                Moved::Bytes(size)
            }
            Moved::End => Moved::End,
        }
    }

    // What is kept may be written for sixty seconds.
    pub(crate) fn close(&mut self, now: Duration)
        ensures closed { IsTrue self.new.is_closed }
        ensures due { as_nanos self.new.due ≡ end_of (as_nanos now) }
        ensures left { left_in self.new ≡ left_in self.old }
        ensures shut { self.new.is_shut ≡ self.old.is_shut }
    {
        self.is_closed = true;
        self.due = now.saturating_add(Duration::from_secs(WRITE_SECONDS));
    }

    // Goes on with a connection that is closed: writes what is unsent, ends the writing, and passes over what comes. False
    // where nothing is left to do, so that its socket may go.
    pub(crate) fn wind_up<S: Sockets>(
        &mut self,
        sockets: &mut S,
        number: u32,
        now: Duration,
    ) -> bool
        requires closed { IsTrue self.old.is_closed }
        requires served { IsServed number self.old (as_nanos now) (S.deeds sockets.old) }
        ensures served { IsServed number self.new (as_nanos now) (S.deeds sockets.new) }
        ensures others { OnlyOn number (S.deeds sockets.old) (S.deeds sockets.new) }
        ensures done { result ≡ false → IsFreeToGo number (S.deeds sockets.new) }
        ensures events { S.events sockets.new ≡ S.events sockets.old }
        ensures listening { S.listens_at sockets.new ≡ S.listens_at sockets.old }
    {
        let is_over = self.due.as_nanos() <= now.as_nanos();
        if is_over {
            return false;
        }
        if !self.write(sockets, number, now) {
            return false;
        }
        if !self.end_writing(sockets, number, now) {
            return false;
        }
        self.drain(sockets, number);
        if !self.is_shut {
            return true;
        }
        !self.has_ended && self.drained <= MOST_DRAINED
    }

    // Where all is written, ends the writing; then what comes is passed over for two seconds. False where that fails.
    fn end_writing<S: Sockets>(&mut self, sockets: &mut S, number: u32, now: Duration) -> bool
        requires closed { IsTrue self.old.is_closed }
        requires served { IsServed number self.old (as_nanos now) (S.deeds sockets.old) }
        ensures served { IsServed number self.new (as_nanos now) (S.deeds sockets.new) }
        ensures others { OnlyOn number (S.deeds sockets.old) (S.deeds sockets.new) }
        ensures done { result ≡ false → IsFreeToGo number (S.deeds sockets.new) }
        ensures closed { self.new.is_closed ≡ self.old.is_closed }
        ensures events { S.events sockets.new ≡ S.events sockets.old }
        ensures listening { S.listens_at sockets.new ≡ S.listens_at sockets.old }
    {
        if self.is_shut {
            return true;
        }
        if self.written < self.unsent.len() {
            return true;
        }
        if !sockets.shut(number) {
            return false;
        }
        self.is_shut = true;
        self.due = now.saturating_add(Duration::from_secs(DRAIN_SECONDS));
        true
    }

    // Passes over what has come.
    fn drain<S: Sockets>(&mut self, sockets: &mut S, number: u32)
        ensures left { left_in self.new ≡ left_in self.old }
        ensures closed { self.new.is_closed ≡ self.old.is_closed }
        ensures shut { self.new.is_shut ≡ self.old.is_shut }
        ensures due { self.new.due ≡ self.old.due }
        ensures deeds { S.deeds sockets.new ≡ S.deeds sockets.old }
        ensures events { S.events sockets.new ≡ S.events sockets.old }
        ensures listening { S.listens_at sockets.new ≡ S.listens_at sockets.old }
    {
        for _ in 0..u64::MAX {
            if self.has_ended || self.drained > MOST_DRAINED {
                return;
            }
            match sockets.pass_over(number) {
                Moved::Nothing => return,
                Moved::Bytes(size) => self.drained = self.drained.saturating_add(size),
                Moved::End => self.has_ended = true,
            }
        }
    }
}
