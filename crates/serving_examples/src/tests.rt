// Whole runs of events.
use crate::scripts::{ALL, Step, response_to, serve_steps, two_at_once};
use serving::Served;
use std::test::Fail;

#[test]
fn pieces_of_two_connections_are_not_joined(rt: HostRuntime) -> Result<(), Fail> {
    let request = b"POST /api HTTP/1.1\r\nHost: x\r\nContent-Length: 14\r\n\r\n{\"do\":\"words\"}";
    let steps = two_at_once(rt.alloc(), request)?;
    let left = serve_steps(rt.alloc(), &steps, &[], 200)?;
    let response =
        b"HTTP/1.1 200 OK\r\nContent-Type: application/json\r\nContent-Length: 28\r\nConnection: close\r\n\r\n{\"done\":\"words\",\"words\":[]}\n";
    assert_eq!(rt; left.served, Served::Done);
    assert_eq!(rt; left.sent_on(1), response.as_slice());
    assert!(rt; left.sent_on(2).is_empty());
    assert!(rt; left.journal.is_empty());
    Ok(())
}

#[test]
fn what_is_refused_is_told_why(rt: HostRuntime) -> Result<(), Fail> {
    let cases: [(&str, &str); 9] = [
        ("GET / HTTP/1.1\r\n\r\n", "HTTP/1.1 400 Bad Request\r\n"),
        (
            "GET / HTTP/1.1\r\nHost: x\r\nHost: x\r\n\r\n",
            "HTTP/1.1 400 Bad Request\r\n",
        ),
        (
            "POST /api HTTP/1.1\r\nHost: x\r\nContent-Length: 65537\r\n\r\n",
            "HTTP/1.1 413 Payload Too Large\r\n",
        ),
        (
            "POST /api HTTP/1.1\r\nHost: x\r\nTransfer-Encoding: chunked\r\n\r\n",
            "HTTP/1.1 501 Not Implemented\r\n",
        ),
        (
            "GET /none HTTP/1.1\r\nHost: x\r\n\r\n",
            "HTTP/1.1 404 Not Found\r\n",
        ),
        (
            "GET /word HTTP/1.1\r\nHost: x\r\n\r\n",
            "HTTP/1.1 405 Method Not Allowed\r\nContent-Type: text/html; charset=utf-8\r\nContent-Length: 177\r\nAllow: POST\r\nConnection: close\r\n\r\n",
        ),
        (
            "GET / HTTP/1.1\r\nHost: x\r\n\r\n",
            "HTTP/1.1 200 OK\r\nContent-Type: text/html; charset=utf-8\r\nContent-Length: 274\r\nConnection: close\r\n\r\n<!DOCTYPE html>\n",
        ),
        ("GET / HTTP/1.1\r\nHost: x\r\n\r", ""),
        (
            "GET /session/1 HTTP/1.0\r\n\r\n",
            "HTTP/1.1 409 Conflict\r\n",
        ),
    ];
    for (request, front) in &cases {
        let response = response_to(rt.alloc(), request.as_bytes())?;
        assert!(rt; response.starts_with(front.as_bytes()), "to {request}");
        assert_eq!(rt; response.is_empty(), front.is_empty());
    }
    Ok(())
}

#[test]
fn the_longest_body_may_be_no_request(rt: HostRuntime) -> Result<(), Fail> {
    let half = vec![in rt.alloc(); b' '; 32_768]?;
    let steps = [
        Step::Asks(
            1,
            b"POST /api HTTP/1.1\r\nHost: x\r\nContent-Length: 65536\r\n\r\n",
        ),
        Step::Says(1, &half),
        Step::Says(1, &half),
    ];
    let left = serve_steps(rt.alloc(), &steps, &[], ALL)?;
    let response = left.sent_on(1);
    assert!(rt; response.starts_with(b"HTTP/1.1 400 Bad Request\r\n"));
    assert!(rt; response.ends_with(b"<p>0 BadRequest</p></body></html>\n"));
    Ok(())
}

#[test]
fn an_accepted_change_goes_to_the_journal(rt: HostRuntime) -> Result<(), Fail> {
    let taken = b"POST /word HTTP/1.0\r\nContent-Length: 20\r\n\r\nkind=name&forms=Bern";
    let steps = [Step::Asks(1, taken), Step::Asks(2, taken)];
    let left = serve_steps(rt.alloc(), &steps, &[], 4)?;
    let line = b"{\"do\":\"word\",\"forms\":[\"Bern\"],\"kind\":\"name\"}\n";
    assert_eq!(rt; left.served, Served::Done);
    assert_eq!(rt; left.journal.as_slice(), line.as_slice());
    assert!(rt; left.sent_on(1).starts_with(b"HTTP/1.1 303 See Other\r\n"));
    assert!(rt; left.sent_on(2).starts_with(b"HTTP/1.1 409 Conflict\r\n"));
    Ok(())
}

#[test]
fn the_65th_connection_is_told_that_there_are_too_many(rt: HostRuntime) -> Result<(), Fail> {
    let mut steps = Vec::new(rt.alloc());
    for connection in 1..66u32 {
        steps.push(Step::Opens(connection))?;
    }
    steps.push(Step::Says(64, b"GET / HTTP/1.0\r\n\r\n"))?;
    let left = serve_steps(rt.alloc(), &steps, &[], ALL)?;
    assert!(rt; left.sent_on(63).is_empty());
    assert!(rt; left.sent_on(64).starts_with(b"HTTP/1.1 200 OK\r\n"));
    assert!(rt;
        left.sent_on(65)
            .starts_with(b"HTTP/1.1 503 Service Unavailable\r\n")
    );
    Ok(())
}

#[test]
fn a_send_that_fails_cuts_its_response_alone(rt: HostRuntime) -> Result<(), Fail> {
    let request = b"GET / HTTP/1.1\r\nHost: x\r\n\r\n";
    let steps = [Step::Asks(1, request), Step::Asks(2, request)];
    let left = serve_steps(rt.alloc(), &steps, &[3], ALL)?;
    let cut = left.sent_on(1);
    let whole = left.sent_on(2);
    assert_eq!(rt; cut.len(), 200);
    assert!(rt; whole.starts_with(cut));
    assert!(rt; whole.ends_with(b"</body></html>\n"));
    Ok(())
}

#[test]
fn serving_ends_after_its_events_or_with_the_link(rt: HostRuntime) -> Result<(), Fail> {
    let asks = Step::Asks(1, b"GET / HTTP/1.0\r\n\r\n");
    for (step, most) in &[(Step::Opens(1), 1), (Step::Opens(1), ALL), (asks, 1)] {
        let left = serve_steps(rt.alloc(), &[*step], &[], *most)?;
        assert_eq!(rt; left.served, Served::Done);
        assert!(rt; left.sent_on(1).is_empty());
    }
    Ok(())
}
