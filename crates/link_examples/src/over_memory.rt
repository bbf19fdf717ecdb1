// Times, turns and failures, over sockets in memory.
use crate::links::{answered, answers, close, linked, listens, next};
use memory_sockets::{Client, Does, got, is_shut, some_clients};
use std::alloc::Global;
use std::cell::Cell;
use std::test::Fail;
use std::time::Duration;
use wiki_io::Next;

#[test]
fn a_response_isnt_cut_because_its_request_was_slow(rt: HostRuntime) -> Result<(), Fail> {
    let script = [
        (0, 0, Does::Comes),
        (0, 0, Does::Sends(b"ask")),
        (101, 0, Does::Takes(4)),
        (150, 0, Does::Takes(9)),
        (151, 0, Does::Sends(b"more than is asked for")),
    ];
    let now = Cell::new(0);
    let mut clients = some_clients(rt.alloc(), 1)?;
    let mut link = linked(rt.alloc(), &now, &mut clients, &script, 0)?;
    assert!(rt; listens(&mut link, "here"));
    let mut buffer = [0; 8];
    assert_eq!(rt; next(&mut link, &mut buffer), Next::Opened(0));
    assert_eq!(rt;
        answered(&mut link, &mut buffer, b"response", &now, 100)?,
        Next::Bytes(0, 3)
    );
    link.finish(Duration::from_secs(100));
    drop(link);
    assert_eq!(rt; got(&clients, 0), b"response".as_slice());
    assert!(rt; is_shut(&clients, 0));
    // What comes behind a request is passed over for two seconds after the last byte was written, and no longer.
    assert_eq!(rt; now.get(), 152);
    Ok(())
}

#[test]
fn a_response_that_isnt_taken_in_60_seconds_is_cut(rt: HostRuntime) -> Result<(), Fail> {
    let script = [
        (0, 0, Does::Comes),
        (59, 0, Does::Takes(4)),
        (61, 0, Does::Takes(4)),
    ];
    let now = Cell::new(0);
    let mut clients = some_clients(rt.alloc(), 1)?;
    let mut link = linked(rt.alloc(), &now, &mut clients, &script, 0)?;
    assert!(rt; listens(&mut link, "here"));
    let mut buffer = [0; 8];
    assert_eq!(rt;
        answered(&mut link, &mut buffer, b"response", &now, 0)?,
        Next::Opened(0)
    );
    link.finish(Duration::from_secs(100));
    drop(link);
    assert_eq!(rt; now.get(), 60);
    assert_eq!(rt; got(&clients, 0), b"resp".as_slice());
    Ok(())
}

#[test]
fn a_connection_has_20_seconds_for_an_empty_line_and_60_for_its_request(
    rt: HostRuntime,
) -> Result<(), Fail> {
    let script = [
        (0, 0, Does::Comes),
        (0, 1, Does::Comes),
        (1, 1, Does::Sends(b"a\r\n\r")),
        (2, 0, Does::Sends(b"a\r\n")),
        (19, 0, Does::Sends(b"b")),
        (19, 1, Does::Sends(b"\nc")),
        (59, 1, Does::Sends(b"d")),
    ];
    let now = Cell::new(0);
    let mut clients = some_clients(rt.alloc(), 2)?;
    let mut link = linked(rt.alloc(), &now, &mut clients, &script, 0)?;
    assert!(rt; listens(&mut link, "here"));
    let mut buffer = [0; 8];
    for (wanted, seconds) in [
        (Next::Opened(0), 0),
        (Next::Opened(1), 0),
        (Next::Bytes(1, 4), 1),
        (Next::Bytes(0, 3), 2),
        (Next::Bytes(0, 1), 19),
        (Next::Bytes(1, 2), 19),
        (Next::Ended(0), 20),
        (Next::Bytes(1, 1), 59),
        (Next::Ended(1), 60),
        (Next::Failed, 60),
    ] {
        assert_eq!(rt; next(&mut link, &mut buffer), wanted);
        assert_eq!(rt; now.get(), seconds);
    }
    Ok(())
}

#[test]
fn what_came_while_another_request_ran_is_handed_in_before_the_end(
    rt: HostRuntime,
) -> Result<(), Fail> {
    let script = [
        (0, 0, Does::Comes),
        (0, 1, Does::Comes),
        (0, 0, Does::Sends(b"slow")),
        (10, 1, Does::Sends(b"a\n\nrequest")),
    ];
    let now = Cell::new(0);
    let mut clients = some_clients(rt.alloc(), 2)?;
    let mut link = linked(rt.alloc(), &now, &mut clients, &script, 0)?;
    assert!(rt; listens(&mut link, "here"));
    let mut buffer = [0; 6];
    for (wanted, closes) in [
        (Next::Opened(0), false),
        (Next::Bytes(0, 4), false),
        (Next::Opened(1), true),
        (Next::Bytes(1, 6), false),
        (Next::Bytes(1, 4), false),
        (Next::Ended(1), false),
    ] {
        assert_eq!(rt; next(&mut link, &mut buffer), wanted);
        if closes {
            now.set(now.get().saturating_add(90));
            close(&mut link, 0);
        }
    }
    Ok(())
}

#[test]
fn one_with_an_empty_line_goes_after_those_without(rt: HostRuntime) -> Result<(), Fail> {
    let mut script = Vec::new(rt.alloc());
    for client in 0..64 {
        script.push((0, client, Does::Comes))?;
    }
    script.extend_from_slice(&[
        (1, 0, Does::Sends(b"a\n\n")),
        (2, 1, Does::Sends(b"a")),
        (3, 64, Does::Comes),
        (3, 2, Does::Sends(b"waits")),
    ])?;
    let now = Cell::new(0);
    let mut clients = some_clients(rt.alloc(), 65)?;
    let mut link = linked(rt.alloc(), &now, &mut clients, &script, 0)?;
    assert!(rt; listens(&mut link, "here"));
    let mut buffer = [0; 6];
    for number in 0..64 {
        assert_eq!(rt; next(&mut link, &mut buffer), Next::Opened(number));
    }
    for wanted in [
        Next::Bytes(0, 3),
        Next::Bytes(1, 1),
        Next::Bytes(2, 5),
        Next::Ended(3),
        Next::Opened(3),
    ] {
        assert_eq!(rt; next(&mut link, &mut buffer), wanted);
    }
    Ok(())
}

#[test]
fn where_all_places_are_taken_the_first_closed_connection_loses_its_socket(
    rt: HostRuntime,
) -> Result<(), Fail> {
    let mut script = Vec::new(rt.alloc());
    for client in 0..129 {
        script.push((0, client, Does::Comes))?;
    }
    script.push((1, 0, Does::Takes(9)))?;
    script.push((1, 1, Does::Takes(9)))?;
    let now = Cell::new(0);
    let mut clients = some_clients(rt.alloc(), 129)?;
    let mut link = linked(rt.alloc(), &now, &mut clients, &script, 0)?;
    assert!(rt; listens(&mut link, "here"));
    let mut buffer = [0; 6];
    for number in 0..128 {
        assert_eq!(rt;
            answered(&mut link, &mut buffer, b"response", &now, 0)?,
            Next::Opened(number)
        );
    }
    assert_eq!(rt; next(&mut link, &mut buffer), Next::Opened(0));
    link.finish(Duration::from_secs(9));
    drop(link);
    assert_eq!(rt; got(&clients, 0), b"".as_slice());
    assert_eq!(rt; got(&clients, 1), b"response".as_slice());
    Ok(())
}

// Two clients ask and get their responses, where the call of this number fails.
fn two_ask(alloc: Global, clients: &mut [Client], fails: u64) -> Result<(), Fail> {
    let script = [
        (0, 0, Does::Comes),
        (0, 1, Does::Comes),
        (0, 0, Does::Takes(3)),
        (1, 0, Does::Sends(b"zero")),
        (1, 1, Does::Takes(9)),
        (2, 1, Does::Sends(b"one")),
        (2, 0, Does::Ends),
        (3, 0, Does::Takes(1)),
        (4, 0, Does::Takes(9)),
        (4, 1, Does::Sends(b"more than is asked for")),
        (5, 1, Does::Ends),
    ];
    let now = Cell::new(0);
    let mut link = linked(alloc, &now, clients, &script, fails)?;
    let _ = listens(&mut link, "here");
    for _ in 0..20 {
        if !answers(&mut link) {
            break;
        }
    }
    link.finish(Duration::from_secs(9));
    Ok(())
}

#[test]
fn whatever_call_fails_each_gets_a_front_of_its_own_response(rt: HostRuntime) -> Result<(), Fail> {
    for fails in 0..40 {
        let mut clients = some_clients(rt.alloc(), 2)?;
        two_ask(rt.alloc(), &mut clients, fails)?;
        for (client, response) in [(0, b"to zero".as_slice()), (1, b"to one")] {
            let got = got(&clients, client);
            assert!(rt; response.starts_with(got), "call {fails}");
            assert!(rt; fails != 0 || got == response);
        }
    }
    Ok(())
}
