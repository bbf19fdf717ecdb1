// The sockets of the system. Its calls don't wait, so they aren't interrupted.
ghost use Rattle.std.specs.Prelude.{◌≡◌, ◌<◌, ◌≤◌, ◌∷◌, [], IsTrue, None, is_some, length};
ghost use Rattle.wiki_io.specs.declared.links.Event.{Event};
ghost use Rattle.wiki_io.specs.Link.{listens_anywhere, with_more};
ghost use Rattle.socket_link.specs.Moved.{MovedFits};
ghost use Rattle.socket_link.specs.Deeds.{Takes, Closes, Goes, with_deed};
ghost use Rattle.socket_link.specs.Told.{opening_of, piece_of, with_time, with_opening, with_writing};

use crate::socket::{Accepted, Moved, PLACES, Ready, Sockets};
use mio::net::{TcpListener, TcpStream};
use mio::{Events, Interest, Poll, Token};
use std::alloc::Global;
use std::io::{ErrorKind, Read, Write};
use std::net::{Net, Shutdown, SocketAddr, ToSocketAddrs};
use std::time::{Clock, Duration};
use wiki_base::Memory;

/// Sockets over TCP, on the host's network and clock.
#[derive(Drop)]
pub struct TcpSockets<'a, R> {
    host: &'a R,
    bound: Option<(TcpListener, Poll)>,
    events: Events<Global>,
    guest: Option<TcpStream>,
    streams: Vec<Option<TcpStream>>,
}

impl<'a, R: Net + Clock> TcpSockets<'a, R> {
    /// No sockets yet.
    pub fn new(alloc: Global, host: &'a R) -> Result<Self, Memory> {
        Ok(TcpSockets {
            host,
            bound: None,
            events: Events::with_capacity(alloc, PLACES as usize)?,
            guest: None,
            streams: (0..PLACES).map(|_| None).collect(alloc)?,
        })
    }

    /// The address at which they listen, once they do.
    pub fn address(&self) -> Option<SocketAddr> {
        self.bound.as_ref()?.0.local_addr().ok()
    }

    // A listener at the first of the address's addresses that can be bound, and what tells when it is ready.
    fn bind(&self, address: &str) -> Option<(TcpListener, Poll)> {
        let mut addresses = address.to_socket_addrs(self.host).ok()?;
        let mut listener = addresses.find_map(|at| TcpListener::bind(self.host, at).ok())?;
        let poll = Poll::new(self.host).ok()?;
        let (token, reads) = (Token(PLACES as usize), Interest::READABLE);
        poll.registry().register(&mut listener, token, reads).ok()?;
        Some((listener, poll))
    }
}

impl<R: Net + Clock> Sockets for TcpSockets<'_, R> {
    ghost listens_at = { λ s. listens_anywhere (is_some s.bound) };

    ghost events = { λ _. None };

    ghost deeds = { λ _. None };

    #[tactic(auto, using(crate::proofs::ToldLemmas::listens_once))]
    fn listen(&mut self, address: &str) -> bool {
        let Some(bound) = self.bind(address) else {
            return false;
        };
        self.bound = Some(bound);
        true
    }

    fn now(&mut self) -> Option<Duration> {
        self.host.monotonic().ok()
    }

    fn wait(&mut self, time: Option<Duration>) -> Option<Ready> {
        match self.bound.as_mut()?.1.poll(&mut self.events, time) {
            Err(error) if error.kind() != ErrorKind::Interrupted => return None,
            _ => {}
        }
        let mut ready = Ready::nothing();
        for event in &self.events {
            ready.add(u32::try_from(event.token().0).unwrap_or(PLACES));
        }
        Some(ready)
    }

    fn accept(&mut self) -> Accepted {
        let Some((listener, _)) = &self.bound else {
            return Accepted::Failed;
        };
        match listener.accept() {
            Ok((stream, _)) => {
                self.guest = Some(stream);
                Accepted::Guest
            }
            Err(error) => Accepted::from_error(&error),
        }
    }

    fn settle(&mut self, number: u32) -> bool {
        let (Some(mut stream), Some((_, poll))) = (self.guest.take(), &self.bound) else {
            return false;
        };
        let both = Interest::READABLE | Interest::WRITABLE;
        let token = Token(number as usize);
        let is_registered = poll.registry().register(&mut stream, token, both).is_ok();
        if let Some(place) = self.streams.get_mut(number as usize) {
            *place = Some(stream);
        }
        is_registered
    }

    fn read(&mut self, number: u32, buf: &mut [u8]) -> Moved {
        match self.streams.get_mut(number as usize) {
            Some(Some(stream)) => Moved::from_io(stream.read(buf)),
            _ => Moved::End,
        }
    }

    fn pass_over(&mut self, number: u32) -> Moved {
        self.read(number, &mut [0; 4096])
    }

    fn take(&mut self, _number: u32, _bytes: &[u8]) {}

    fn write(&mut self, number: u32, bytes: &[u8]) -> Moved {
        match self.streams.get_mut(number as usize) {
            Some(Some(stream)) => Moved::from_io(stream.write(bytes)),
            _ => Moved::End,
        }
    }

    fn close(&mut self, _number: u32) {}

    fn shut(&mut self, number: u32) -> bool {
        let stream = self.streams.get(number as usize);
        matches!(stream, Some(Some(open)) if open.shutdown(Shutdown::Write).is_ok())
    }

    fn end(&mut self, number: u32) {
        self.release(number)
    }

    fn release(&mut self, number: u32) {
        if let Some(place) = self.streams.get_mut(number as usize) {
            *place = None;
        }
    }
}
