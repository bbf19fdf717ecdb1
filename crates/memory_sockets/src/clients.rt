// Clients, as a test sees them.
ghost use Rattle.std.specs.Prelude.{◌≡◌, ◌++◌, ◌≤◌, drop, take, length};

use std::alloc::Global;
use wiki_base::Memory;

/// What a client does.
#[derive(Clone, Copy, Drop)]
pub enum Does {
    /// It waits at the listener.
    Comes,
    /// It sends these bytes.
    Sends(&'static [u8]),
    /// It sends nothing more.
    Ends,
    /// It makes room for so many bytes more.
    Takes(usize),
}

/// One at the other end of a socket.
#[derive(Drop)]
pub struct Client {
    pub(crate) number: Option<u32>,
    pub(crate) sent: Vec<u8>,
    // how many bytes of what was sent were read
    pub(crate) read: usize,
    pub(crate) has_ended: bool,
    pub(crate) room: usize,
    pub(crate) got: Vec<u8>,
    pub(crate) is_shut: bool,
}

impl Client {
    // Puts what it sent and nobody has read into the buffer, as far as there is room, and tells how many bytes.
    #[tactic(auto, using(crate::proofs::GivingLemmas::front_given))]
    pub(crate) fn give(&mut self, buf: &mut [u8]) -> usize
        ensures given { drop self.old.read self.old.sent.items ≡ take result buf.new ++ drop self.new.read self.new.sent.items }
        ensures fits { result ≤ length buf.new }
        ensures room { length buf.new ≡ length buf.old }
    {
        if self.read > self.sent.len() {
            return 0;
        }
        let (_, rest) = self.sent.split_at(self.read);
        let size = rest.len().min(buf.len());
        buf[..size].copy_from_slice(&rest[..size]);
        self.read += size;
        size
    }

    // Takes the front of the bytes, as far as it made room, and tells how many.
    pub(crate) fn get(&mut self, bytes: &[u8]) -> usize
        ensures got { self.new.got.items ≡ self.old.got.items ++ take result bytes.now }
        ensures fits { result ≤ length bytes.now }
    {
        let size = bytes.len().min(self.room);
        if self.got.extend_from_slice(&bytes[..size]).is_err() {
            return 0;
        }
        self.room -= size;
        size
    }
}

/// So many clients, none of which has come.
pub fn some_clients(alloc: Global, count: usize) -> Result<Vec<Client>, Memory> {
    let mut clients = Vec::new(alloc);
    for _ in 0..count {
        clients.push(Client {
            number: None,
            sent: Vec::new(alloc),
            read: 0,
            has_ended: false,
            room: 0,
            got: Vec::new(alloc),
            is_shut: false,
        })?;
    }
    Ok(clients)
}

/// What a client has got.
pub fn got(clients: &[Client], client: usize) -> &[u8] {
    match clients.get(client) {
        Some(client) => &client.got,
        None => &[],
    }
}

/// The writing side towards a client was shut down.
pub fn is_shut(clients: &[Client], client: usize) -> bool {
    clients.get(client).is_some_and(|client| client.is_shut)
}
