// Calls of a link, each without what its contract says, so that a test over many of them is proved cheaply.
ghost use Rattle.std.specs.Prelude.{◌<◌, length};

use memory_sockets::{Client, Does, MemorySockets};
use socket_link::{SocketLink, Sockets, Times};
use std::alloc::Global;
use std::cell::Cell;
use std::test::Fail;
use std::time::Duration;
use wiki_io::{Link, Listen, Next, Took};

// A link over what the clients do.
pub(crate) fn linked<'a>(
    alloc: Global,
    now: &'a Cell<u64>,
    clients: &'a mut [Client],
    script: &[(u64, usize, Does)],
    fails: u64,
) -> Result<SocketLink<MemorySockets<'a>>, Fail> {
    let times = Times {
        head: Duration::from_secs(20),
        request: Duration::from_secs(60),
    };
    let sockets = MemorySockets::new(alloc, now, clients, script, fails)?;
    Ok(SocketLink::over(alloc, sockets, times)?)
}

pub(crate) fn listens<S: Sockets>(link: &mut SocketLink<S>, address: &str) -> bool {
    link.listen(address) == Listen::Ready
}

pub(crate) fn next<S: Sockets>(link: &mut SocketLink<S>, buffer: &mut [u8]) -> Next
    requires { 0 < length buffer.old }
{
    link.next(buffer)
}

pub(crate) fn close<S: Sockets>(link: &mut SocketLink<S>, number: u32) {
    link.close(number);
}

// The next, where a connection that was opened, or brought something, gets the response and is closed. Until then so many
// seconds pass.
pub(crate) fn answered<S: Sockets>(
    link: &mut SocketLink<S>,
    buffer: &mut [u8],
    response: &[u8],
    now: &Cell<u64>,
    seconds: u64,
) -> Result<Next, Fail>
    requires { 0 < length buffer.old }
{
    let next = link.next(buffer);
    let (Next::Opened(number) | Next::Bytes(number, _)) = next else {
        return Ok(next);
    };
    now.set(now.get().saturating_add(seconds));
    if response.is_empty() || link.send(number, response) != Took::Bytes(response.len()) {
        return Err(Fail::new("the response isn't taken"));
    }
    link.close(number);
    Ok(next)
}

// The next, where each connection that brings something gets the response to that and is closed, whether or not that fails.
// False where the link has failed.
pub(crate) fn answers<S: Sockets>(link: &mut SocketLink<S>) -> bool {
    let mut buffer = [0; 8];
    match link.next(&mut buffer) {
        Next::Bytes(number, size) => {
            let response = response_to(&buffer[..size]);
            let _ = link.send(number, response);
            link.close(number);
            true
        }
        Next::Opened(_) | Next::Ended(_) => true,
        Next::Over | Next::Failed => false,
    }
}

fn response_to(piece: &[u8]) -> &'static [u8]
    ensures { 0 < length result.now }
{
    if piece.starts_with(b"zero") {
        b"to zero"
    } else if piece.starts_with(b"one") {
        b"to one"
    } else {
        b"to none"
    }
}
