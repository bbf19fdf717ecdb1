// The sockets, and for each that has a number a place, which keeps what is still to be written to it.
ghost use Rattle.std.specs.Prelude.{◌≡◌, ◌<◌, ◌≤◌, ◌∷◌, [], IfOk, IfSome, IsTrue, false, None, Some, length, slice_get, slice_set};
ghost use Rattle.std.specs.Duration.{as_nanos};
ghost use Rattle.wiki_io.specs.declared.links.Event.{Event};
ghost use Rattle.wiki_io.specs.Link.{with_more};
ghost use Rattle.socket_link.specs.Deeds.{sent_in};
ghost use Rattle.socket_link.specs.Kept.{IsSound, IsFree, AreFree, IsOpenAt, IsClosedAt, AreTakenBelow, IsFreeToGo};
ghost use Rattle.socket_link.specs.Moved.{MovedFits};
ghost use Rattle.socket_link.specs.Told.{opening_of, piece_of, taken_if};

use crate::place::{Place, Times};
use crate::socket::{Accepted, Moved, PLACES, Ready, Sockets};
use std::alloc::Global;
use std::time::Duration;
use wiki_base::Memory;

#[derive(Drop)]
pub(crate) struct Switchboard<S: Sockets> {
    alloc: Global,
    sockets: S,
    places: Vec<Option<Place>>,
    clock: Duration,
    ghost sound: { ∥ IfSome (S.deeds sockets) (IsSound places.items (as_nanos clock)) ∥₁ },
}

impl<S: Sockets> Switchboard<S> {
    pub(crate) fn new(alloc: Global, sockets: S) -> Result<Self, Memory>
        requires { IfSome (S.deeds sockets) (λ deeds. deeds ≡ []) }
        ensures events { IfOk result (λ board. S.events board.sockets ≡ S.events sockets) }
        ensures sent { IfOk result (λ board. sent_in (S.deeds board.sockets) ≡ sent_in (S.deeds sockets)) }
        ensures listening { IfOk result (λ board. S.listens_at board.sockets ≡ S.listens_at sockets) }
    {
        Ok(Switchboard {
            alloc,
            sockets,
            places: free_places(alloc)?,
            clock: Duration::from_secs(0),
        })
    }

    pub(crate) fn sockets(&self) -> &S {
        &self.sockets
    }

    pub(crate) fn now(&self) -> Duration {
        self.clock
    }

    pub(crate) fn place(&self, number: u32) -> Option<&Place>
        ensures { IfSome result (λ place. slice_get self.now.places.items number ≡ Some (Some place.now)) }
    {
        match self.places.get(number as usize) {
            Some(Some(place)) => Some(place),
            _ => None,
        }
    }

    fn is_open(&self, number: u32) -> bool
        ensures { IsTrue result → IsOpenAt self.now.places.items number }
    {
        match self.place(number) {
            Some(place) => !place.is_closed(),
            None => false,
        }
    }

    fn is_closed(&self, number: u32) -> bool
        ensures { IsTrue result → IsClosedAt self.now.places.items number }
    {
        match self.place(number) {
            Some(place) => place.is_closed(),
            None => false,
        }
    }

    pub(crate) fn is_winding_up(&self) -> bool {
        self.places.iter().any(|place| match place {
            Some(kept) => kept.is_closed(),
            None => false,
        })
    }

    pub(crate) fn listen(&mut self, address: &str) -> bool
        ensures ready { IsTrue result → IsTrue (S.listens_at self.new.sockets address.now) }
        ensures unready { result ≡ false → S.listens_at self.new.sockets ≡ S.listens_at self.old.sockets }
        ensures events { S.events self.new.sockets ≡ S.events self.old.sockets }
        ensures sent { sent_in (S.deeds self.new.sockets) ≡ sent_in (S.deeds self.old.sockets) }
    {
        self.sockets.listen(address)
    }

    pub(crate) fn read_clock(&mut self)
        ensures places { self.new.places ≡ self.old.places }
        ensures events { S.events self.new.sockets ≡ S.events self.old.sockets }
        ensures sent { sent_in (S.deeds self.new.sockets) ≡ sent_in (S.deeds self.old.sockets) }
        ensures listening { S.listens_at self.new.sockets ≡ S.listens_at self.old.sockets }
    {
        match self.sockets.now() {
            Some(now) => self.clock = now,
            None => {}
        }
    }

    pub(crate) fn wait(&mut self, time: Option<Duration>) -> Option<Ready>
        ensures events { S.events self.new.sockets ≡ S.events self.old.sockets }
        ensures sent { sent_in (S.deeds self.new.sockets) ≡ sent_in (S.deeds self.old.sockets) }
        ensures listening { S.listens_at self.new.sockets ≡ S.listens_at self.old.sockets }
    {
        self.sockets.wait(time)
    }

    pub(crate) fn accept(&mut self) -> Accepted
        ensures events { S.events self.new.sockets ≡ S.events self.old.sockets }
        ensures sent { sent_in (S.deeds self.new.sockets) ≡ sent_in (S.deeds self.old.sockets) }
        ensures listening { S.listens_at self.new.sockets ≡ S.listens_at self.old.sockets }
    {
        self.sockets.accept()
    }

    // Names the socket that was accepted last. False where that fails.
    pub(crate) fn settle(&mut self, number: u32, times: Times) -> bool
        requires { IsFree self.old.places.items number }
        ensures events { S.events self.new.sockets ≡ with_more (S.events self.old.sockets) (opening_of number result) }
        ensures sent { sent_in (S.deeds self.new.sockets) ≡ sent_in (S.deeds self.old.sockets) }
        ensures listening { S.listens_at self.new.sockets ≡ S.listens_at self.old.sockets }
    {
        self.read_clock();
        if !self.sockets.settle(number) {
            self.release(number);
            return false;
        }
        let place = Place::new(self.alloc, self.clock, times);
        put(&mut self.places, number, place);
        true
    }

    // Reads what has come on an open connection. One whose time is over has ended where nothing waits.
    pub(crate) fn hear(&mut self, number: u32, buf: &mut [u8], times: Times) -> Moved
        requires { 0 < length buf.old }
        ensures fits { MovedFits result (length buf.new) }
        ensures room { length buf.new ≡ length buf.old }
        ensures ended { result ≡ Moved.End → IsOpenAt self.new.places.items number }
        ensures events { S.events self.new.sockets ≡ with_more (S.events self.old.sockets) (piece_of number result buf.new) }
        ensures sent { sent_in (S.deeds self.new.sockets) ≡ sent_in (S.deeds self.old.sockets) }
        ensures listening { S.listens_at self.new.sockets ≡ S.listens_at self.old.sockets }
    {
        if !self.is_open(number) {
            return Moved::Nothing;
        }
        let Some(mut place) = lift(&mut self.places, number) else {
            return Moved::Nothing;
        };
        let heard = place.hear(&mut self.sockets, number, buf, self.clock, times);
        put(&mut self.places, number, place);
        heard
    }

    // It is to end as soon as nothing waits to be read.
    pub(crate) fn leaves(&mut self, number: u32)
        ensures events { S.events self.new.sockets ≡ S.events self.old.sockets }
        ensures sent { sent_in (S.deeds self.new.sockets) ≡ sent_in (S.deeds self.old.sockets) }
        ensures listening { S.listens_at self.new.sockets ≡ S.listens_at self.old.sockets }
    {
        if !self.is_open(number) {
            return;
        }
        let Some(mut place) = lift(&mut self.places, number) else {
            return;
        };
        place.leaves();
        put(&mut self.places, number, place);
    }

    // Keeps the bytes for the socket of an open connection. False where there is no such connection, and for want of memory.
    pub(crate) fn take(&mut self, number: u32, bytes: &[u8]) -> bool
        ensures sent { sent_in (S.deeds self.new.sockets) ≡ with_more (sent_in (S.deeds self.old.sockets)) (taken_if result number bytes.now) }
        ensures events { S.events self.new.sockets ≡ S.events self.old.sockets }
        ensures listening { S.listens_at self.new.sockets ≡ S.listens_at self.old.sockets }
    {
        if !self.is_open(number) {
            return false;
        }
        let Some(mut place) = lift(&mut self.places, number) else {
            return false;
        };
        match place.keep(bytes) {
            Ok(()) => {
                self.sockets.take(number, bytes);
                put(&mut self.places, number, place);
                true
            }
            Err(_) => {
                put(&mut self.places, number, place);
                false
            }
        }
    }

    // Writes what the socket of an open connection takes now. Where that fails, the next reading finds it.
    pub(crate) fn write(&mut self, number: u32)
        ensures events { S.events self.new.sockets ≡ S.events self.old.sockets }
        ensures sent { sent_in (S.deeds self.new.sockets) ≡ sent_in (S.deeds self.old.sockets) }
        ensures listening { S.listens_at self.new.sockets ≡ S.listens_at self.old.sockets }
    {
        if !self.is_open(number) {
            return;
        }
        let Some(mut place) = lift(&mut self.places, number) else {
            return;
        };
        place.write(&mut self.sockets, number, self.clock);
        put(&mut self.places, number, place);
    }

    // An open connection is closed, and what was taken may be written for a time.
    pub(crate) fn close(&mut self, number: u32)
        ensures events { S.events self.new.sockets ≡ S.events self.old.sockets }
        ensures sent { sent_in (S.deeds self.new.sockets) ≡ sent_in (S.deeds self.old.sockets) }
        ensures listening { S.listens_at self.new.sockets ≡ S.listens_at self.old.sockets }
    {
        if !self.is_open(number) {
            return;
        }
        let Some(mut place) = lift(&mut self.places, number) else {
            return;
        };
        place.close(self.clock);
        self.sockets.close(number);
        put(&mut self.places, number, place);
    }

    // Goes on with a closed connection. False where nothing is left to do, so that its socket may go.
    fn goes_on(&mut self, number: u32) -> bool
        ensures done { result ≡ false → IsFreeToGo number (S.deeds self.new.sockets) }
        ensures events { S.events self.new.sockets ≡ S.events self.old.sockets }
        ensures sent { sent_in (S.deeds self.new.sockets) ≡ sent_in (S.deeds self.old.sockets) }
        ensures listening { S.listens_at self.new.sockets ≡ S.listens_at self.old.sockets }
    {
        if !self.is_closed(number) {
            return true;
        }
        let Some(mut place) = lift(&mut self.places, number) else {
            return true;
        };
        let goes_on = place.wind_up(&mut self.sockets, number, self.clock);
        put(&mut self.places, number, place);
        goes_on
    }

    // Goes on with a closed connection. False where its socket was let go, since nothing is left to do.
    pub(crate) fn wind_up(&mut self, number: u32) -> bool
        ensures events { S.events self.new.sockets ≡ S.events self.old.sockets }
        ensures sent { sent_in (S.deeds self.new.sockets) ≡ sent_in (S.deeds self.old.sockets) }
        ensures listening { S.listens_at self.new.sockets ≡ S.listens_at self.old.sockets }
    {
        if self.goes_on(number) {
            return true;
        }
        self.release(number);
        false
    }

    // A number that no socket has. Where there is none, the closed connection whose time is over first loses its socket.
    pub(crate) fn free_number(&mut self) -> Option<u32>
        ensures free { IfSome result (λ number. IsFree self.new.places.items number) }
        ensures events { S.events self.new.sockets ≡ S.events self.old.sockets }
        ensures sent { sent_in (S.deeds self.new.sockets) ≡ sent_in (S.deeds self.old.sockets) }
        ensures listening { S.listens_at self.new.sockets ≡ S.listens_at self.old.sockets }
    {
        if let Some(number) = self.first_free() {
            return Some(number);
        }
        if !self.are_all_taken() {
            return None;
        }
        let number = self.first_to_go(true)?;
        self.release(number);
        self.first_free()
    }

    // The least number that is free.
    fn first_free(&self) -> Option<u32>
        ensures free { IfSome result (λ number. IsFree self.now.places.items number) }
    {
        for number in 0..PLACES {
            if let Some(None) = self.places.get(number as usize) {
                return Some(number);
            }
        }
        None
    }

    fn are_all_taken(&self) -> bool
        ensures { IsTrue result → AreTakenBelow self.now.places.items 128 }
    {
        for number in 0..PLACES {
            let Some(_place) = self.place(number) else {
                return false;
            };
        }
        true
    }

    // Of the closed or of the open connections the first that is to go.
    pub(crate) fn first_to_go(&self, is_closed: bool) -> Option<u32> {
        let mut found: Option<u32> = None;
        for number in 0..PLACES {
            if self.goes_before(number, found, is_closed) {
                found = Some(number);
            }
        }
        found
    }

    // It is closed or open, as is asked for, and goes before the other.
    fn goes_before(&self, number: u32, other: Option<u32>, is_closed: bool) -> bool {
        let Some(place) = self.place(number) else {
            return false;
        };
        if place.is_closed() != is_closed {
            return false;
        }
        match other.and_then(|found| self.place(found)) {
            Some(found) => place.goes_before(found, self.clock),
            None => true,
        }
    }

    // The socket of an open connection goes.
    pub(crate) fn end(&mut self, number: u32)
        requires { IsOpenAt self.old.places.items number }
        ensures events { S.events self.new.sockets ≡ with_more (S.events self.old.sockets) (Event.Ended number ∷ []) }
        ensures sent { sent_in (S.deeds self.new.sockets) ≡ sent_in (S.deeds self.old.sockets) }
        ensures listening { S.listens_at self.new.sockets ≡ S.listens_at self.old.sockets }
    {
        self.sockets.end(number);
        clear(&mut self.places, number);
    }

    // The socket of a closed connection goes, as it may.
    fn release(&mut self, number: u32)
        requires { IsFreeToGo number (S.deeds self.old.sockets) }
        ensures events { S.events self.new.sockets ≡ S.events self.old.sockets }
        ensures sent { sent_in (S.deeds self.new.sockets) ≡ sent_in (S.deeds self.old.sockets) }
        ensures listening { S.listens_at self.new.sockets ≡ S.listens_at self.old.sockets }
    {
        self.sockets.release(number);
        clear(&mut self.places, number);
    }
}

#[tactic(auto, using(crate::proofs::SoundLemmas::free_none, crate::proofs::SoundLemmas::free_push))]
fn free_places(alloc: Global) -> Result<Vec<Option<Place>>, Memory>
    ensures { IfOk result (λ places. AreFree places.items) }
{
    let mut places = Vec::with_capacity(alloc, PLACES as usize)?;
    for _ in 0..PLACES {
        places.push(None)?;
    }
    Ok(places)
}

// Nothing is kept for a number any more.
fn clear(places: &mut Vec<Option<Place>>, number: u32)
    ensures { places.new.items ≡ slice_set places.old.items number None }
{
    if let Some(place) = places.get_mut(number as usize) {
        *place = None;
    }
}

// Takes a place out, if there is one.
fn lift(places: &mut Vec<Option<Place>>, number: u32) -> Option<Place>
    ensures found { IfSome result (λ place. slice_get places.old.items number ≡ Some (Some place)) }
    ensures lifted { IfSome result (λ place. places.new.items ≡ slice_set places.old.items number None) }
    ensures none { result ≡ None → places.new.items ≡ places.old.items }
{
    let index = number as usize;
    if index >= places.len() || places[index].is_none() {
        return None;
    }
    places[index].take()
}

// Puts a place where it was.
fn put(places: &mut Vec<Option<Place>>, number: u32, place: Place)
    ensures { places.new.items ≡ slice_set places.old.items number (Some place) }
{
    if let Some(kept) = places.get_mut(number as usize) {
        *kept = Some(place);
    }
}
