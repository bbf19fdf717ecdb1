// The program over sockets in memory.
use crate::tests::{INPUT, JOURNAL, REQUEST, RESPONSE, ToldLine};
use commands::program_over;
use memory_sockets::{Client, Does, MemorySockets, got, some_clients};
use socket_link::{SocketLink, Times};
use std::alloc::Global;
use std::cell::Cell;
use std::test::Fail;
use std::time::Duration;
use wiki_base::Arg;
use wiki_io::{MemorySink, MemorySource};

// The status and the journal of a run, where a client comes and sends a request.
fn run_over(alloc: Global, clients: &mut [Client]) -> Result<(u8, Vec<u8>), Fail> {
    let script = [
        (0, 0, Does::Comes),
        (0, 0, Does::Takes(RESPONSE.len())),
        (0, 0, Does::Sends(REQUEST)),
    ];
    let now = Cell::new(0);
    let sockets = MemorySockets::new(alloc, &now, clients, &script, 0)?;
    let times = Times {
        head: Duration::from_secs(20),
        request: Duration::from_secs(60),
    };
    let mut link = SocketLink::over(alloc, sockets, times)?;
    let mut words = Vec::new(alloc);
    for word in [b"serve".as_slice(), b"anywhere", b"--events", b"2"] {
        words.push(Arg::from_slice(alloc, word)?)?;
    }
    let line = ToldLine { words };
    let mut input = MemorySource::new(INPUT.to_vec(alloc)?, Vec::new(alloc));
    let mut output = MemorySink::new(alloc, Vec::new(alloc));
    let mut errors = MemorySink::new(alloc, Vec::new(alloc));
    let status = program_over(
        alloc,
        &line,
        &mut input,
        &mut output,
        &mut errors,
        &mut link,
    );
    Ok((status, output.bytes().to_vec(alloc)?))
}

#[test]
fn a_request_over_a_socket_gets_its_response(rt: HostRuntime) -> Result<(), Fail> {
    let mut clients = some_clients(rt.alloc(), 1)?;
    let (status, journal) = run_over(rt.alloc(), &mut clients)?;
    assert_eq!(rt; status, 0);
    assert_eq!(rt; journal.as_slice(), JOURNAL);
    assert_eq!(rt; got(&clients, 0), RESPONSE);
    Ok(())
}
