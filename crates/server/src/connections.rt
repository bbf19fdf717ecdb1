// One connection: the bytes that have come over it, and what they come to.
ghost use Rattle.std.specs.Prelude.{◌≡◌, ◌++◌, [], None, IfOk, IfSome, OnOk, OnErr};
ghost use Rattle.http_front.specs.Front.{Begins, Sees, seen_by, seen_after};
ghost use Rattle.server.specs.Responses.{status_response};
ghost use Rattle.server.specs.Taking.{turn_of};
ghost use Rattle.server.specs.Reading.{IsRead, IsSeen};

use crate::responses::{own_response, status_response};
use crate::turns::Turn;
use http_front::{Begun, Front, Head, Seen};
use std::alloc::Global;
use wiki_base::{Bytes, Memory};

/// A connection that is open. Its head is kept once it has come, so that a body in many pieces is read once.
#[derive(Drop)]
pub(crate) struct Connection {
    pub number: u32,
    pub bytes: Bytes,
    pub head: Option<Head>,
}

/// What the bytes of a connection come to, and its head where that was read now.
#[derive(Drop)]
pub(crate) struct Reading {
    pub turn: Turn,
    pub head: Option<Head>,
}

impl Connection {
    /// A connection over which nothing has come.
    pub fn new(alloc: Global, number: u32) -> Connection
        ensures { result ≡ record { number = number; bytes = []; head = None } }
    {
        Connection {
            number,
            bytes: Bytes::new(alloc),
            head: None,
        }
    }

    /// Adds a piece, and tells what the connection comes to.
    pub fn take_piece(&mut self, alloc: Global, front: &Front, piece: &[u8]) -> Result<Turn, Memory>
        requires { IsRead self.old }
        ensures turn { IfOk result (λ turn. IsSeen self.old.number (self.old.bytes ++ piece.now) turn) }
        ensures number { self.new.number ≡ self.old.number }
        ensures bytes { OnOk result (self.new.bytes ≡ self.old.bytes ++ piece.now) }
        ensures read { IsRead self.new }
        ensures err { OnErr result (self.new ≡ self.old) }
    {
        let before = self.bytes.len();
        self.bytes.extend(piece)?;
        match self.reading(alloc, front) {
            Ok(Reading { turn, head }) => {
                self.note(head);
                Ok(turn)
            }
            Err(Memory) => {
                self.bytes.truncate(before);
                Err(Memory)
            }
        }
    }

    // Keeps a head that was read now.
    fn note(&mut self, head: Option<Head>)
        requires before { IsRead self.old }
        requires now { IfSome head (λ read. Begins self.old.bytes (Begun.Head read)) }
        ensures read { IsRead self.new }
        ensures number { self.new.number ≡ self.old.number }
        ensures bytes { self.new.bytes ≡ self.old.bytes }
    {
        match head {
            Some(head) => self.head = Some(head),
            None => {}
        }
    }

    // What the bytes come to.
    fn reading(&self, alloc: Global, front: &Front) -> Result<Reading, Memory>
        requires { IsRead self.now }
        ensures turn { IfOk result (λ reading. IsSeen self.now.number self.now.bytes reading.turn) }
        ensures head { IfOk result (λ reading. IfSome reading.head (λ head. Begins self.now.bytes (Begun.Head head))) }
    {
        let bytes = self.bytes.as_slice();
        if let Some(head) = &self.head {
            let seen = front.request_after(head, bytes)?;
            return Ok(Reading {
                turn: turn_of(alloc, self.number, seen)?,
                head: None,
            });
        }
        match front.head_of(bytes)? {
            Begun::Wait => Ok(Reading {
                turn: Turn::Wait,
                head: None,
            }),
            Begun::Refuse { status, allow } => Ok(Reading {
                turn: Turn::Own(self.number, status_response(alloc, status, allow, false)?),
                head: None,
            }),
            Begun::Head(head) => {
                let seen = front.request_after(&head, bytes)?;
                Ok(Reading {
                    turn: turn_of(alloc, self.number, seen)?,
                    head: Some(head),
                })
            }
        }
    }
}

// What is done where this is seen in the bytes of a connection.
fn turn_of(alloc: Global, number: u32, seen: Seen) -> Result<Turn, Memory>
    ensures { IfOk result (λ turn. turn ≡ turn_of number seen) }
{
    match seen {
        Seen::Wait => Ok(Turn::Wait),
        Seen::Refuse {
            status,
            allow,
            bad_line,
        } => Ok(Turn::Own(number, status_response(alloc, status, allow, bad_line)?)),
        Seen::Own(own) => Ok(Turn::Own(number, own_response(alloc, own)?)),
        Seen::Ask(request, then) => Ok(Turn::Ask(number, request, then)),
    }
}
