// The sockets that a link runs over.
ghost use Rattle.std.specs.Prelude.{◌≡◌, ◌<◌, ◌≤◌, ◌∷◌, [], length};
ghost use Rattle.wiki_io.specs.declared.links.Event.{Event};
ghost use Rattle.wiki_io.specs.Link.{with_more};
ghost use Rattle.socket_link.specs.Moved.{MovedFits};
ghost use Rattle.socket_link.specs.Deeds.{Takes, Closes, Goes, with_deed};
ghost use Rattle.socket_link.specs.Told.{opening_of, piece_of, with_time, with_opening, with_writing};

use crate::clients::{Client, Does};
use socket_link::{Accepted, Moved, Ready, Sockets};
use std::alloc::Global;
use std::cell::Cell;
use std::collections::VecDeque;
use std::time::Duration;
use wiki_base::Memory;

/// Sockets whose clients do what a script says. The clients and the clock are a test's.
#[derive(Drop)]
pub struct MemorySockets<'a> {
    // in seconds
    now: &'a Cell<u64>,
    script: VecDeque<(u64, usize, Does)>,
    clients: &'a mut [Client],
    queue: VecDeque<usize>,
    guest: Option<usize>,
    // which call fails, counted from 1, and how many there were
    fails: u64,
    calls: u64,
}

impl<'a> MemorySockets<'a> {
    /// The clients do these things, each at its second. The sockets take no byte but where a client makes room. Of the calls
    /// that can fail, counted from 1, the one of this number does.
    pub fn new(
        alloc: Global,
        now: &'a Cell<u64>,
        clients: &'a mut [Client],
        script: &[(u64, usize, Does)],
        fails: u64,
    ) -> Result<MemorySockets<'a>, Memory> {
        let mut left = VecDeque::new(alloc);
        for step in script {
            left.push_back(*step)?;
        }
        Ok(MemorySockets {
            now,
            script: left,
            clients,
            queue: VecDeque::new(alloc),
            guest: None,
            fails,
            calls: 0,
        })
    }

    // This call fails.
    fn fails_now(&mut self) -> bool {
        self.calls = self.calls.saturating_add(1);
        self.calls == self.fails
    }

    fn client(&mut self, number: u32) -> Option<&mut Client> {
        for client in self.clients.iter_mut() {
            if client.number == Some(number) {
                return Some(client);
            }
        }
        None
    }

    // What has happened until now, and what is ready by that.
    fn happen(&mut self, ready: &mut Ready) -> bool {
        let mut has_happened = false;
        for _ in 0..self.script.len() {
            let Some((at, client, does)) = self.script.pop_front() else {
                break;
            };
            if at > self.now.get() {
                let _ = self.script.push_front((at, client, does));
                break;
            }
            has_happened = true;
            self.happens(client, does, ready);
        }
        has_happened
    }

    fn happens(&mut self, place: usize, does: Does, ready: &mut Ready) {
        let Some(client) = self.clients.get_mut(place) else {
            return;
        };
        match does {
            Does::Comes => {
                ready.listener = true;
                let _ = self.queue.push_back(place);
            }
            Does::Sends(bytes) => {
                let _ = client.sent.extend_from_slice(bytes);
            }
            Does::Ends => client.has_ended = true,
            Does::Takes(size) => client.room = client.room.saturating_add(size),
        }
        if let Some(number) = client.number {
            ready.add(number);
        }
    }
}

impl Sockets for MemorySockets<'_> {
    ghost use Rattle.std.specs.Prelude.{None, true};

    ghost listens_at = { λ _ _. true };

    ghost events = { λ _. None };

    ghost deeds = { λ _. None };

    fn listen(&mut self, _address: &str) -> bool {
        !self.fails_now()
    }

    fn now(&mut self) -> Option<Duration> {
        Some(Duration::from_secs(self.now.get()))
    }

    fn wait(&mut self, time: Option<Duration>) -> Option<Ready> {
        let mut ready = Ready::nothing();
        if self.happen(&mut ready) {
            return Some(ready);
        }
        let next = self.script.front().map(|step| step.0);
        let now = self.now.get();
        let until = time.map(|time| now.saturating_add(time.as_secs()));
        self.now.set(match (next, until) {
            (Some(next), Some(until)) => next.min(until),
            (Some(next), None) => next,
            (None, Some(until)) => until,
            (None, None) => return None,
        });
        self.happen(&mut ready);
        Some(ready)
    }

    fn accept(&mut self) -> Accepted {
        match self.queue.pop_front() {
            None => Accepted::Nobody,
            Some(_) if self.fails_now() => Accepted::Gone,
            Some(client) => {
                self.guest = Some(client);
                Accepted::Guest
            }
        }
    }

    fn settle(&mut self, number: u32) -> bool {
        if self.fails_now() {
            self.guest = None;
            return false;
        }
        match self
            .guest
            .take()
            .and_then(|guest| self.clients.get_mut(guest))
        {
            Some(client) => {
                client.number = Some(number);
                true
            }
            None => false,
        }
    }

    fn read(&mut self, number: u32, buf: &mut [u8]) -> Moved {
        if self.fails_now() {
            return Moved::End;
        }
        let Some(client) = self.client(number) else {
            return Moved::End;
        };
        match client.give(buf) {
            0 if client.has_ended => Moved::End,
            0 => Moved::Nothing,
            size => Moved::Bytes(size),
        }
    }

    fn pass_over(&mut self, number: u32) -> Moved {
        self.read(number, &mut [0; 4])
    }

    fn take(&mut self, _number: u32, _bytes: &[u8]) {}

    fn write(&mut self, number: u32, bytes: &[u8]) -> Moved {
        if self.fails_now() {
            return Moved::End;
        }
        let Some(client) = self.client(number) else {
            return Moved::End;
        };
        match client.get(bytes) {
            0 => Moved::Nothing,
            size => Moved::Bytes(size),
        }
    }

    fn close(&mut self, _number: u32) {}

    fn shut(&mut self, number: u32) -> bool {
        if self.fails_now() {
            return false;
        }
        match self.client(number) {
            Some(client) => {
                client.is_shut = true;
                true
            }
            None => false,
        }
    }

    fn end(&mut self, number: u32) {
        self.release(number)
    }

    fn release(&mut self, number: u32) {
        if let Some(client) = self.client(number) {
            client.number = None;
        }
    }
}
