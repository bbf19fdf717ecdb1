// A script of events, and what serving them at a small machine leaves where calls fail.
ghost use Rattle.std.specs.Prelude.{IsTrue};
ghost use Rattle.std.specs.List.{list_all};
ghost use Rattle.wiki_io.specs.MemoryLink.{is_whole};

use lists::List;
use serving::{Machine, Served, serve};
use std::alloc::Global;
use std::collections::VecDeque;
use std::test::Fail;
use wiki_base::{Bytes, Memory};
use wiki_io::{Event, Fails, MemoryLink, MemorySink};
use wiki_talk::{Refusal, Reply, Request, WikiRequest};

// How many bytes of a response the link takes at once.
pub(crate) const SENT_AT_ONCE: usize = 100;

// How many bytes of a line the journal takes at once.
pub(crate) const WRITTEN_AT_ONCE: usize = 10;

// More events than any script has.
const MOST: u64 = 1_000;

// No connection has a greater number.
const LAST_NUMBER: u32 = 66;

// The number of the call of each kind that fails. Calls are numbered from 1.
#[derive(Clone, Copy)]
pub(crate) struct Failing {
    pub next: u64,
    pub send: u64,
    pub write: u64,
}

pub(crate) const NOTHING: Failing = Failing {
    next: 0,
    send: 0,
    write: 0,
};

// What happens on a connection.
#[derive(Clone, Copy)]
pub(crate) enum Step<'a> {
    Opens(u32),
    // Bytes come in one piece, if there are any.
    Says(u32, &'a [u8]),
    // A connection of its own, over which this comes.
    Asks(u32, &'a [u8]),
    Ends(u32),
}

// Two connections: over the first a request comes in single bytes, and the second says GET between them and ends.
pub(crate) fn two_at_once<'a>(alloc: Global, request: &'a [u8]) -> Result<Vec<Step<'a>>, Fail> {
    let mut steps = Vec::new(alloc);
    steps.push(Step::Opens(1))?;
    steps.push(Step::Opens(2))?;
    for place in 0..request.len() {
        steps.push(Step::Says(1, &request[place..place + 1]))?;
        let beside: Option<Step<'a>> = match place {
            1 => Some(Step::Says(2, b"G")),
            2 => Some(Step::Says(2, b"E")),
            3 => Some(Step::Says(2, b"T")),
            5 => Some(Step::Ends(2)),
            _ => None,
        };
        if let Some(step) = beside {
            steps.push(step)?;
        }
    }
    Ok(steps)
}

// Events, in which no piece is empty.
#[derive(Drop)]
struct Script {
    alloc: Global,
    events: VecDeque<Event>,
    ghost whole: { IsTrue (list_all is_whole events.items) },
}

impl Script {
    fn of(alloc: Global, steps: &[Step<'_>]) -> Result<Script, Fail> {
        let mut script = Script {
            alloc,
            events: VecDeque::new(alloc),
        };
        for step in steps {
            script.add(*step)?;
        }
        Ok(script)
    }

    fn add(&mut self, step: Step<'_>) -> Result<(), Fail> {
        match step {
            Step::Opens(connection) => self.push(Event::Opened(connection)),
            Step::Says(connection, bytes) => self.say(connection, bytes),
            Step::Asks(connection, bytes) => {
                self.push(Event::Opened(connection))?;
                self.say(connection, bytes)
            }
            Step::Ends(connection) => self.push(Event::Ended(connection)),
        }
    }

    fn say(&mut self, connection: u32, bytes: &[u8]) -> Result<(), Fail> {
        if bytes.is_empty() {
            return Ok(());
        }
        let piece = Bytes::from_slice(self.alloc, bytes)?;
        self.push(Event::Piece(connection, piece))
    }

    #[tactic(auto, using(crate::proofs::ScriptLemmas::whole_push))]
    fn push(&mut self, event: Event) -> Result<(), Fail>
        requires { IsTrue (is_whole event) }
    {
        self.events.push_back(event)?;
        Ok(())
    }
}

// A machine that has no words. It takes one word, once, and refuses whatever else it is asked but its words.
#[derive(Drop)]
struct Desk {
    alloc: Global,
    is_taken: bool,
}

impl Machine for Desk {
    ghost use Rattle.std.specs.Prelude.{⊤};

    ghost Steps = { λ old request reply new. ⊤ };

    fn step(&mut self, request: &Request) -> Result<Reply, Memory> {
        match request {
            Request::OnWiki(WikiRequest::Words) => Ok(Reply::Words {
                words: List::new(self.alloc),
            }),
            Request::OnWiki(WikiRequest::Word { .. }) if !self.is_taken => {
                self.is_taken = true;
                Ok(Reply::Word)
            }
            _ => Ok(Reply::Refused(Refusal::Nothing)),
        }
    }
}

// What serving left, as plain data, so that a test over much of it is proved cheaply.
#[derive(Drop)]
pub(crate) struct Left {
    pub served: Served,
    pub journal: Vec<u8>,
    // what was sent on each connection's number
    sent: Vec<Vec<u8>>,
}

// Serves what happens, where the calls of these numbers fail.
pub(crate) fn serve_steps(
    alloc: Global,
    steps: &[Step<'_>],
    failing: Failing,
) -> Result<Left, Fail> {
    let script = Script::of(alloc, steps)?;
    let mut fails = Fails::none(alloc);
    fails.next.push(failing.next)?;
    fails.send.push(failing.send)?;
    let mut desk = Desk {
        alloc,
        is_taken: false,
    };
    let mut journal = MemorySink::in_pieces(alloc, vec![in alloc; failing.write]?, WRITTEN_AT_ONCE);
    let mut link = MemoryLink::in_pieces(alloc, script.events, fails, SENT_AT_ONCE);
    let served = serve(alloc, &mut desk, MOST, &mut journal, &mut link);
    Ok(Left {
        served,
        journal: journal.bytes().to_vec(alloc)?,
        sent: sent_on_each(alloc, link.sent())?,
    })
}

// The bytes of these pieces, by the numbers of their connections.
fn sent_on_each(alloc: Global, pieces: &[(u32, Bytes)]) -> Result<Vec<Vec<u8>>, Fail> {
    let mut sent = Vec::new(alloc);
    for _ in 0..=LAST_NUMBER {
        sent.push(Vec::new(alloc))?;
    }
    for (number, bytes) in pieces {
        if let Some(all) = sent.get_mut(*number as usize) {
            all.extend_from_slice(bytes.as_slice())?;
        }
    }
    Ok(sent)
}

impl Left {
    // What was sent on a connection's number.
    pub(crate) fn sent_on(&self, connection: usize) -> &[u8] {
        match self.sent.get(connection) {
            Some(all) => all,
            None => &[],
        }
    }
}
