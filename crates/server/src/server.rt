// The connections that are open, and one turn for each event on them.
ghost use Rattle.std.specs.Prelude.{◌≡◌, ◌==◌, ◌++◌, ◌∷◌, [], ◌≤◌, IsTrue, IfOk, OnErr, All, filter, not, map};
ghost use Rattle.std.specs.List.{position};
ghost use Rattle.wiki_io.specs.Link.{is_among, can_come};
ghost use Rattle.server.specs.Kept.{numbers, closed};

use crate::connections::Connection;
use crate::responses::busy_response;
use crate::turns::Turn;
use http_front::Front;
use std::alloc::Global;
use std::marker::Model;
use wiki_base::Memory;
use wiki_io::{Event, MOST_OPEN};

/// The connections that are open, at most `MOST_OPEN`, seen as a list in the order of their opening: each with its number
/// and the bytes that have come over it.
#[derive(Drop)]
pub struct Server {
    alloc: Global,
    front: Front,
    kept: Vec<Connection>,
}

impl Model for Server {
    ghost use Rattle.std.specs.Prelude.{List, All, map};
    ghost use Rattle.server.specs.Kept.{Kept};
    ghost use Rattle.server.specs.Reading.{shown, IsRead};

    ghost Value = { List Kept };

    ghost view = { λ s. map shown s.kept.items };

    ghost invariant = { λ s. All IsRead s.kept.items };
}

impl Server {
    ghost use Rattle.server.specs.Taking.{Takes, TakesOpening, TakesPiece, TakesEnd};
    ghost use Rattle.server.specs.Runs.{IsApart};

    /// A server without connections.
    pub fn new(alloc: Global) -> Result<Server, Memory>
        ensures { IfOk result (λ server. server ≡ []) }
    {
        Ok(Server {
            alloc,
            front: Front::new(alloc)?,
            kept: Vec::new(alloc),
        })
    }

    /// Takes note of an event, and tells what it comes to. For want of memory it takes no note.
    pub fn take(&mut self, event: &Event) -> Result<Turn, Memory>
        requires { IsTrue (can_come (numbers self.old) event.now) }
        ensures turn { IfOk result (λ turn. Takes self.old event.now turn self.new) }
        ensures apart { IfOk result (λ turn. IsApart self.old event.now turn) }
        ensures memory { OnErr result (self.new ≡ self.old) }
    {
        let turn = self.turn(event)?;
        Ok(turn)
    }

    fn turn(&mut self, event: &Event) -> Result<Turn, Memory>
        requires { IsTrue (can_come (numbers self.old) event.now) }
        ensures turn { IfOk result (λ turn. Takes self.old event.now turn self.new) }
        ensures memory { OnErr result (self.new ≡ self.old) }
    {
        match event {
            Event::Opened(number) => self.open(*number),
            Event::Piece(number, piece) => self.take_piece(*number, piece.as_slice()),
            Event::Ended(number) => {
                self.close(*number);
                Ok(Turn::Wait)
            }
        }
    }

    fn open(&mut self, number: u32) -> Result<Turn, Memory>
        ensures turn { IfOk result (λ turn. TakesOpening self.old number turn self.new) }
        ensures memory { OnErr result (self.new ≡ self.old) }
    {
        if self.kept.len() >= MOST_OPEN {
            let response = busy_response(self.alloc)?;
            return Ok(Turn::Own(number, response));
        }
        self.kept.push(Connection::new(self.alloc, number))?;
        Ok(Turn::Wait)
    }

    fn take_piece(&mut self, number: u32, piece: &[u8]) -> Result<Turn, Memory>
        requires { IsTrue (is_among (numbers self.old) number) }
        ensures turn { IfOk result (λ turn. TakesPiece self.old number piece.now turn self.new) }
        ensures memory { OnErr result (self.new ≡ self.old) }
    {
        let Some(place) = place_of(&self.kept, number) else {
            unreachable!();
        };
        let connection = &mut self.kept[place];
        let turn = connection.take_piece(self.alloc, &self.front, piece)?;
        match turn {
            Turn::Wait => Ok(Turn::Wait),
            turn => {
                self.close(number);
                Ok(turn)
            }
        }
    }

    fn close(&mut self, number: u32)
        ensures { self.new ≡ closed number self.old }
    {
        close(&mut self.kept, number);
    }
}

fn place_of(kept: &[Connection], number: u32) -> Option<usize>
    ensures { result ≡ position (λ c. c.number == number) kept.now }
{
    kept.iter().position(|c| c.number == number)
}

fn close(kept: &mut Vec<Connection>, number: u32)
    ensures { kept.new.items ≡ filter (λ c. not (c.number == number)) kept.old.items }
{
    kept.retain(|c| c.number != number);
}
