// One call after the other fails, and heads that are cut, oversized or ambiguous.
use crate::scripts::{
    Failing, NOTHING, SENT_AT_ONCE, Step, WRITTEN_AT_ONCE, serve_steps, two_at_once,
};
use serving::Served;
use std::alloc::Global;
use std::test::Fail;

const ASKS_WORDS: &[u8] =
    b"POST /api HTTP/1.1\r\nHost: x\r\nContent-Length: 14\r\n\r\n{\"do\":\"words\"}";

const TELLS_WORDS: &[u8] =
    b"HTTP/1.1 200 OK\r\nContent-Type: application/json\r\nContent-Length: 28\r\nConnection: close\r\n\r\n{\"done\":\"words\",\"words\":[]}\n";

const ASKS_PAGE: &[u8] = b"GET / HTTP/1.1\r\nHost: x\r\n\r\n";

const ADDS_BERN: &[u8] =
    b"POST /word HTTP/1.1\r\nHost: x\r\nContent-Length: 20\r\n\r\nkind=name&forms=Bern";

const BERN_WRITTEN: &[u8] = b"{\"do\":\"word\",\"forms\":[\"Bern\"],\"kind\":\"name\"}\n";

// So many bytes from the front, or all where there are fewer.
fn front(bytes: &[u8], count: usize) -> &[u8] {
    &bytes[..count.min(bytes.len())]
}

#[test]
fn each_wait_that_fails_leaves_what_was_answered_before(rt: HostRuntime) -> Result<(), Fail> {
    // Connection 1 asks for the words, and connection 2 comes to nothing: 71 events.
    let steps = two_at_once(rt.alloc(), ASKS_WORDS)?;
    for next in 1..73 {
        let left = serve_steps(rt.alloc(), &steps, Failing { next, ..NOTHING })?;
        let sent = if next == 72 {
            TELLS_WORDS
        } else {
            b"".as_slice()
        };
        assert_eq!(rt; left.served, Served::LinkFault, "at {next}");
        assert_eq!(rt; left.sent_on(1), sent, "at {next}");
        assert!(rt; left.sent_on(2).is_empty());
        assert!(rt; left.journal.is_empty());
    }
    Ok(())
}

#[test]
fn a_change_that_the_journal_does_not_take_is_answered_by_no_byte(
    rt: HostRuntime,
) -> Result<(), Fail> {
    let steps = [
        Step::Asks(1, ASKS_WORDS),
        Step::Asks(2, ADDS_BERN),
        Step::Asks(3, ASKS_WORDS),
    ];
    for taken in 0..5u64 {
        let write = taken + 1;
        let left = serve_steps(rt.alloc(), &steps, Failing { write, ..NOTHING })?;
        let written = front(BERN_WRITTEN, taken as usize * WRITTEN_AT_ONCE);
        assert_eq!(rt; left.served, Served::JournalFault);
        assert_eq!(rt; left.journal.as_slice(), written);
        assert_eq!(rt; left.sent_on(1), TELLS_WORDS);
        assert!(rt; left.sent_on(2).is_empty());
        assert!(rt; left.sent_on(3).is_empty());
    }
    Ok(())
}

#[test]
fn a_send_that_fails_cuts_its_response_alone(rt: HostRuntime) -> Result<(), Fail> {
    let steps = [
        Step::Asks(1, ASKS_WORDS),
        // The number can be another connection's only where it was closed.
        Step::Asks(1, ADDS_BERN),
        Step::Asks(2, ASKS_WORDS),
    ];
    for taken in 0..2u64 {
        let send = taken + 1;
        let left = serve_steps(rt.alloc(), &steps, Failing { send, ..NOTHING })?;
        let cut = front(TELLS_WORDS, taken as usize * SENT_AT_ONCE);
        assert_eq!(rt; left.served, Served::Done);
        assert!(rt;
            left.sent_on(1)
                .strip_prefix(cut)
                .is_some_and(|rest| rest.starts_with(b"HTTP/1.1 303 See Other\r\n"))
        );
        assert_eq!(rt; left.journal.as_slice(), BERN_WRITTEN);
        assert_eq!(rt; left.sent_on(2), TELLS_WORDS);
    }
    Ok(())
}

#[test]
fn a_head_that_is_cut_is_answered_by_nothing(rt: HostRuntime) -> Result<(), Fail> {
    for come in 0..ASKS_WORDS.len() {
        let steps = [Step::Asks(1, front(ASKS_WORDS, come)), Step::Ends(1)];
        let left = serve_steps(rt.alloc(), &steps, NOTHING)?;
        assert_eq!(rt; left.served, Served::Done);
        assert!(rt; left.sent_on(1).is_empty(), "at {come}");
    }
    Ok(())
}

// A request whose head has so many fields beside its Host.
fn with_fields(alloc: Global, count: usize) -> Result<Vec<u8>, Fail> {
    let mut request = b"GET / HTTP/1.1\r\nHost: x\r\n".to_vec(alloc)?;
    for _field in 0..count {
        request.extend_from_slice(b"X: y\r\n")?;
    }
    request.extend_from_slice(b"\r\n")?;
    Ok(request)
}

// A field whose value goes on for 16,384 bytes without an end of its line.
fn endless_field(alloc: Global) -> Result<Vec<u8>, Fail> {
    let mut request = b"GET / HTTP/1.1\r\nHost: x\r\nX: ".to_vec(alloc)?;
    request.resize(16_412, b'y')?;
    Ok(request)
}

// The first line of the response to one request.
fn status_line(alloc: Global, request: &[u8]) -> Result<Vec<u8>, Fail> {
    let left = serve_steps(alloc, &[Step::Asks(1, request)], NOTHING)?;
    let mut line = Vec::new(alloc);
    for byte in left.sent_on(1) {
        if *byte == b'\r' {
            break;
        }
        line.push(*byte)?;
    }
    Ok(line)
}

#[test]
fn heads_that_are_oversized_are_refused(rt: HostRuntime) -> Result<(), Fail> {
    let alloc = rt.alloc();
    let cases: [(Vec<u8>, &[u8]); 3] = [
        (endless_field(alloc)?, b"HTTP/1.1 413 Payload Too Large"),
        (with_fields(alloc, 63)?, b"HTTP/1.1 200 OK"),
        (with_fields(alloc, 64)?, b"HTTP/1.1 400 Bad Request"),
    ];
    for (request, line) in &cases {
        assert_eq!(rt; status_line(alloc, request)?.as_slice(), *line);
    }
    Ok(())
}

#[test]
fn heads_that_are_ambiguous_are_refused(rt: HostRuntime) -> Result<(), Fail> {
    // A request that is accepted is asked of the machine, which refuses it.
    let cases: [(&[u8], &[u8]); 9] = [
        (b"\0GET / HTTP/1.1\r\nHost: x\r\n\r\n", b"400 Bad Request"),
        (
            b"POST /session/1/back HTTP/1.1\r\nHost: x\r\nContent-Length: 3\r\nContent-Length: 4\r\n\r\na=b&",
            b"400 Bad Request",
        ),
        (
            b"POST /session/1/back HTTP/1.1\r\nHost: x\r\nContent-Length: 3\r\nContent-Length: 3\r\n\r\na=b",
            b"409 Conflict",
        ),
        (b"GET / HTTP/1.1\r\n\r\n", b"400 Bad Request"),
        (
            b"GET / HTTP/1.1\r\nHost: x\r\nHost: x\r\n\r\n",
            b"400 Bad Request",
        ),
        (
            b"GET / HTTP/1.0\r\nHost: x\r\nHost: x\r\n\r\n",
            b"400 Bad Request",
        ),
        (b"GET / HTTP/1.0\r\n\r\n", b"200 OK"),
        (
            b"POST /api HTTP/1.1\r\nHost: x\r\nTransfer-Encoding: chunked\r\nContent-Length: 70000\r\n\r\n",
            b"501 Not Implemented",
        ),
        (
            b"POST /api HTTP/1.1\r\nHost: x\r\nContent-Length: 70000\r\n\r\n",
            b"413 Payload Too Large",
        ),
    ];
    for (request, status) in &cases {
        let line = status_line(rt.alloc(), request)?;
        assert_eq!(rt; line.strip_prefix(b"HTTP/1.1 ".as_slice()), Some(*status));
    }
    Ok(())
}

#[test]
fn a_65th_connection_is_refused_and_the_next_one_is_served(rt: HostRuntime) -> Result<(), Fail> {
    let mut steps = Vec::new(rt.alloc());
    for connection in 1..66u32 {
        steps.push(Step::Opens(connection))?;
    }
    steps.push(Step::Ends(1))?;
    steps.push(Step::Asks(66, ASKS_PAGE))?;
    let left = serve_steps(rt.alloc(), &steps, NOTHING)?;
    assert_eq!(rt; left.served, Served::Done);
    assert!(rt;
        left.sent_on(65)
            .starts_with(b"HTTP/1.1 503 Service Unavailable\r\n")
    );
    assert!(rt; left.sent_on(66).starts_with(b"HTTP/1.1 200 OK\r\n"));
    assert!(rt; left.sent_on(64).is_empty());
    Ok(())
}
