// The sockets that a link runs over.
ghost use Rattle.std.specs.Prelude.{◌≡◌, ◌<◌, ◌≤◌, ◌∷◌, [], ℕ, Bool, IsTrue, false, List, Option, IfOk, length};
ghost use Rattle.wiki_io.specs.declared.links.Event.{Event};
ghost use Rattle.wiki_io.specs.Link.{with_more};
ghost use Rattle.socket_link.specs.Moved.{MovedFits};
ghost use Rattle.socket_link.specs.Deeds.{Deed, Takes, Closes, Goes, with_deed};
ghost use Rattle.socket_link.specs.Told.{opening_of, piece_of, with_time, with_opening, with_writing};

use crate::numbers::Numbers;
use std::io;
use std::io::ErrorKind;
use std::time::Duration;
use wiki_io::Event;

/// How many sockets of connections there are at most, those of closed connections included.
pub(crate) const PLACES: u32 = 128;

// Errors of `accept` that are the listener's own: EBADF, EFAULT, EINVAL, ENOTSOCK. Any other belongs to a connection.
const LISTENER_ERRORS: [i32; 4] = [9, 14, 22, 88];

// Errors of `accept` for want of descriptors or room: ENOMEM, ENFILE, EMFILE, ENOBUFS.
const FULL_ERRORS: [i32; 4] = [12, 23, 24, 105];

/// What one reading or writing came to.
#[derive(Clone, Copy, Debug, PartialEq, Eq)]
pub enum Moved {
    /// Nothing can be read or written now.
    Nothing,
    /// So many bytes, at least one: they stand at the buffer's front, or were written from the front of the bytes.
    Bytes(usize),
    /// The other side has ended, or the socket has failed.
    End,
}

impl Moved {
    pub(crate) fn from_io(done: io::Result<usize>) -> Moved
        ensures { (room : ℕ) → IfOk done (λ size. size ≤ room) → MovedFits result room }
    {
        match done {
            Ok(0) => Moved::End,
            Ok(size) => Moved::Bytes(size),
            Err(error) if error.kind() == ErrorKind::WouldBlock => Moved::Nothing,
            Err(_) => Moved::End,
        }
    }
}

/// What one look at the listener came to.
#[derive(Clone, Copy, Debug, PartialEq, Eq)]
pub enum Accepted {
    /// Nobody waits.
    Nobody,
    /// One who waited has a socket, which has no number yet.
    Guest,
    /// One who waited has gone.
    Gone,
    /// There are no descriptors for one.
    Full,
    /// The listener has failed.
    Failed,
}

impl Accepted {
    // What an error of `accept` means for the next one. Only of the listener's own is the listener done for.
    pub(crate) fn from_error(error: &io::Error) -> Accepted {
        match (error.kind(), error.raw_os_error()) {
            (ErrorKind::WouldBlock, _) => Accepted::Nobody,
            (_, Some(code)) if FULL_ERRORS.contains(&code) => Accepted::Full,
            (_, Some(code)) if LISTENER_ERRORS.contains(&code) => Accepted::Failed,
            _ => Accepted::Gone,
        }
    }
}

/// What has become ready: sockets by their numbers, on which something may be read or written, and the listener.
#[derive(Clone, Copy, Debug, PartialEq, Eq)]
pub struct Ready {
    pub sockets: Numbers,
    pub listener: bool,
}

impl Ready {
    /// Nothing is ready.
    pub fn nothing() -> Ready {
        Ready {
            sockets: Numbers::none(),
            listener: false,
        }
    }

    /// The socket of this number becomes ready, or the listener where it is no socket's.
    pub fn add(&mut self, number: u32) {
        if number < PLACES {
            self.sockets.insert(number);
        } else {
            self.listener = true;
        }
    }
}

/// A listener and the sockets of its connections, named by numbers below 128. No call waits but `wait`.
pub trait Sockets: Drop {
    /// Whether they listen at an address.
    ghost listens_at: { Self → List ℕ → Bool };

    /// What happened on the sockets, in order, where they tell it: one gets its number, bytes are read from it, and one that
    /// is open goes. What is passed over is no part of it.
    ghost events: { Self → Option (List Event) };

    /// What the sockets did, the newest deed first, where they tell it: what they were to write, what they wrote, and when.
    ghost deeds: { Self → Option (List Deed) };

    /// Begins to listen at the address. False where that fails, and then they listen where they did before.
    fn listen(&mut self, address: &str) -> bool
        ensures ready { IsTrue result → IsTrue (listens_at self.new address.now) }
        ensures unready { result ≡ false → listens_at self.new ≡ listens_at self.old }
        ensures events { events self.new ≡ events self.old }
        ensures deeds { deeds self.new ≡ deeds self.old };

    /// The time since some start. None where there is no telling.
    fn now(&mut self) -> Option<Duration>
        ensures events { events self.new ≡ events self.old }
        ensures deeds { deeds self.new ≡ with_time (deeds self.old) result }
        ensures listening { listens_at self.new ≡ listens_at self.old };

    /// Waits until something becomes ready, or for the time at most. None where that fails.
    fn wait(&mut self, time: Option<Duration>) -> Option<Ready>
        ensures events { events self.new ≡ events self.old }
        ensures deeds { deeds self.new ≡ deeds self.old }
        ensures listening { listens_at self.new ≡ listens_at self.old };

    /// Gives a socket to one who waits at the listener.
    fn accept(&mut self) -> Accepted
        ensures events { events self.new ≡ events self.old }
        ensures deeds { deeds self.new ≡ deeds self.old }
        ensures listening { listens_at self.new ≡ listens_at self.old };

    /// Names the socket that was accepted last by a number that no other has. False where that fails, and it goes.
    fn settle(&mut self, number: u32) -> bool
        ensures events { events self.new ≡ with_more (events self.old) (opening_of number result) }
        ensures deeds { deeds self.new ≡ with_opening (deeds self.old) number result }
        ensures listening { listens_at self.new ≡ listens_at self.old };

    /// Reads what has come into the front of the buffer.
    fn read(&mut self, number: u32, buf: &mut [u8]) -> Moved
        requires { 0 < length buf.old }
        ensures fits { MovedFits result (length buf.new) }
        ensures room { length buf.new ≡ length buf.old }
        ensures events { events self.new ≡ with_more (events self.old) (piece_of number result buf.new) }
        ensures deeds { deeds self.new ≡ deeds self.old }
        ensures listening { listens_at self.new ≡ listens_at self.old };

    /// Reads what has come and passes it over.
    fn pass_over(&mut self, number: u32) -> Moved
        ensures events { events self.new ≡ events self.old }
        ensures deeds { deeds self.new ≡ deeds self.old }
        ensures listening { listens_at self.new ≡ listens_at self.old };

    /// Is told that these bytes are to be written to the socket, behind those before. Nothing is done with them yet.
    fn take(&mut self, number: u32, bytes: &[u8])
        ensures events { events self.new ≡ events self.old }
        ensures deeds { deeds self.new ≡ with_deed (deeds self.old) (Takes number bytes.now) }
        ensures listening { listens_at self.new ≡ listens_at self.old };

    /// Writes from the front of the bytes what the socket takes now.
    fn write(&mut self, number: u32, bytes: &[u8]) -> Moved
        requires { 0 < length bytes.now }
        ensures fits { MovedFits result (length bytes.now) }
        ensures events { events self.new ≡ events self.old }
        ensures deeds { deeds self.new ≡ with_writing (deeds self.old) number result bytes.now }
        ensures listening { listens_at self.new ≡ listens_at self.old };

    /// Is told that the connection is closed: what is to be written to its socket is all there. Nothing is done yet.
    fn close(&mut self, number: u32)
        ensures events { events self.new ≡ events self.old }
        ensures deeds { deeds self.new ≡ with_deed (deeds self.old) (Closes number) }
        ensures listening { listens_at self.new ≡ listens_at self.old };

    /// Nothing more is written. False where that fails.
    fn shut(&mut self, number: u32) -> bool
        ensures events { events self.new ≡ events self.old }
        ensures deeds { deeds self.new ≡ deeds self.old }
        ensures listening { listens_at self.new ≡ listens_at self.old };

    /// The socket of an open connection goes.
    fn end(&mut self, number: u32)
        ensures events { events self.new ≡ with_more (events self.old) (Event.Ended number ∷ []) }
        ensures deeds { deeds self.new ≡ with_deed (deeds self.old) (Goes number) }
        ensures listening { listens_at self.new ≡ listens_at self.old };

    /// The socket of a closed connection goes.
    fn release(&mut self, number: u32)
        ensures events { events self.new ≡ events self.old }
        ensures deeds { deeds self.new ≡ with_deed (deeds self.old) (Goes number) }
        ensures listening { listens_at self.new ≡ listens_at self.old };
}
