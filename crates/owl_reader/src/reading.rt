// The reading of a whole file.
ghost use Rattle.std.specs.Prelude.{◌≡◌, ◌≤◌, ◌<◌, ◌^◌, length};
ghost use Rattle.owl_tokens.specs.Tokens.{Whole};
ghost use Rattle.owl_reader.specs.Reading.{fault_at, ended, step};
ghost use Rattle.owl_reader.specs.Views.{state_of};
ghost use Rattle.owl_reader.specs.Outcomes.{TakesAt};
ghost use Rattle.owl_reader.specs.Shown.{Answers, ReadsFront, Reads};

use crate::faults::{OwlFault, Refusal, Trouble};
use crate::kinds::Entities;
use crate::reader::Reader;
use logic_terms::Axioms;
use owl_tokens::{Next, Token, has_mark, next_token, utf8_front};
use std::alloc::Global;

/// What a file says: entity number i, from 1, is the word i of the axioms.
#[derive(Drop)]
pub struct OwlDoc {
    pub entities: Entities,
    pub axioms: Axioms,
}

fn fault_at(trouble: Trouble, at: usize) -> OwlFault
    requires { at < 2 ^ 32 }
    ensures { result ≡ fault_at trouble at }
{
    match trouble {
        Trouble::Syntax => OwlFault::Syntax(at as u32),
        Trouble::Unsupported => OwlFault::Unsupported(at as u32),
        Trouble::Prefix => OwlFault::Prefix(at as u32),
        Trouble::TooDeep => OwlFault::TooDeep(at as u32),
    }
}

/// Takes a token.
fn take_token(alloc: Global, reader: &mut Reader, token: &Token<'_>) -> Result<(), OwlFault>
    requires { token.now.at < 2 ^ 32 }
    ensures { TakesAt (step (state_of reader.old) token.now.kind token.now.text.now) token.now.at result (state_of reader.new) }
{
    match reader.take(alloc, token.kind, token.text) {
        Ok(()) => Ok(()),
        Err(Refusal::Memory) => Err(OwlFault::Memory),
        Err(Refusal::Trouble(trouble)) => Err(fault_at(trouble, token.at)),
    }
}

/// What was read, where the text ends.
fn ended(alloc: Global, reader: Reader, at: usize) -> Result<OwlDoc, OwlFault>
    requires { at < 2 ^ 32 }
    ensures { Answers (ended (state_of reader) (Whole at)) result }
{
    if !reader.is_closed() {
        return Err(OwlFault::Syntax(at as u32));
    }
    let Reader {
        entities,
        axioms,
        ..
    } = reader;
    Ok(OwlDoc {
        entities: entities.entities(alloc)?,
        axioms,
    })
}

/// The front of a file that is UTF-8, which may be the whole of it.
fn read_front(alloc: Global, front: &[u8], whole: bool) -> Result<OwlDoc, OwlFault>
    requires { length front.now ≤ 16777216 }
    ensures { ReadsFront front.now whole result }
{
    let mut reader = Reader::new(alloc)?;
    let mut at = 0;
    loop {
        match next_token(front, at) {
            Next::Found(token) => {
                if let Err(fault) = take_token(alloc, &mut reader, &token) {
                    return Err(fault);
                }
                at = token.end;
            }
            Next::Broken(place) => return Err(OwlFault::Syntax(place as u32)),
            Next::Ends(place) => {
                return if whole {
                    ended(alloc, reader, place)
                } else {
                    Err(OwlFault::Syntax(place as u32))
                };
            }
        }
    }
}

/// The entities and the axioms of a file in the functional-style syntax of OWL 2, in the profile of docs/OWL.md: each entity once,
/// in the order in which they come, and the axioms in order. Else the fault of the first token that has one.
pub fn read_owl(alloc: Global, text: &[u8]) -> Result<OwlDoc, OwlFault>
    requires { length text.now ≤ 16777216 }
    ensures { Reads text.now result }
{
    if has_mark(text) {
        return Err(OwlFault::Syntax(0));
    }
    let front = utf8_front(text);
    read_front(alloc, front, front.len() == text.len())
}
