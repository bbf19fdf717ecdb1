// Turns, times and ends, over sockets of TCP.
use crate::links::{answered, close, listens, next};
use socket_link::SocketLink;
use std::cell::Cell;
use std::collections::VecDeque;
use std::io::{Read, Write};
use std::net::{SocketAddr, TcpStream};
use std::test::Fail;
use std::time::Duration;
use wiki_io::Next;

fn seconds(count: u64) -> Duration {
    Duration::from_secs(count)
}

fn client(rt: &HostRuntime, address: Option<SocketAddr>) -> Result<TcpStream, Fail> {
    match address {
        Some(address) => Ok(TcpStream::connect(rt, address)?),
        None => Err(Fail::new("the link listens nowhere")),
    }
}

#[test]
fn pieces_come_and_what_was_sent_is_written_after_the_close(rt: HostRuntime) -> Result<(), Fail> {
    let mut link = SocketLink::new(rt.alloc(), &rt, seconds(20), seconds(60))?;
    assert!(rt; listens(&mut link, "127.0.0.1:0"));
    let mut near = client(&rt, link.address())?;
    near.write_all(b"abc")?;
    let mut buffer = [0; 8];
    assert_eq!(rt; next(&mut link, &mut buffer), Next::Opened(0));
    let now = Cell::new(0);
    let told = answered(&mut link, &mut buffer, b"reply", &now, 0)?;
    assert_eq!(rt; told, Next::Bytes(0, 3));
    assert!(rt; buffer.starts_with(b"abc"));
    let mut reply = [0; 8];
    assert_eq!(rt; near.read(&mut reply)?, 5);
    assert_eq!(rt; &reply[..5], b"reply".as_slice());
    assert_eq!(rt; near.read(&mut reply)?, 0);
    Ok(())
}

#[test]
fn connections_and_the_listener_have_their_turns(rt: HostRuntime) -> Result<(), Fail> {
    let mut link = SocketLink::new(rt.alloc(), &rt, seconds(20), seconds(60))?;
    assert!(rt; listens(&mut link, "127.0.0.1:0"));
    let mut first = client(&rt, link.address())?;
    let mut second = client(&rt, link.address())?;
    first.write_all(b"aaaa")?;
    second.write_all(b"bb")?;
    let mut buffer = [0; 2];
    for wanted in [
        Next::Opened(0),
        Next::Bytes(0, 2),
        Next::Opened(1),
        Next::Bytes(0, 2),
        Next::Bytes(1, 2),
    ] {
        assert_eq!(rt; next(&mut link, &mut buffer), wanted);
    }
    drop(second);
    assert_eq!(rt; next(&mut link, &mut buffer), Next::Ended(1));
    Ok(())
}

#[test]
fn a_connection_on_which_nothing_comes_ends(rt: HostRuntime) -> Result<(), Fail> {
    let mut link = SocketLink::new(rt.alloc(), &rt, Duration::from_millis(20), seconds(60))?;
    assert!(rt; listens(&mut link, "127.0.0.1:0"));
    let _idle = client(&rt, link.address())?;
    let mut buffer = [0; 2];
    assert_eq!(rt; next(&mut link, &mut buffer), Next::Opened(0));
    assert_eq!(rt; next(&mut link, &mut buffer), Next::Ended(0));
    link.finish(Duration::from_secs(1));
    Ok(())
}

#[test]
fn where_64_are_open_the_longest_silent_ends_before_another_is_let_in(
    rt: HostRuntime,
) -> Result<(), Fail> {
    let mut link = SocketLink::new(rt.alloc(), &rt, seconds(20), seconds(60))?;
    assert!(rt; listens(&mut link, "127.0.0.1:0"));
    let mut clients = VecDeque::new(rt.alloc());
    for _ in 0..66 {
        clients.push_back(client(&rt, link.address())?)?;
    }
    let mut buffer = [0; 2];
    for number in 0..64 {
        assert_eq!(rt; next(&mut link, &mut buffer), Next::Opened(number));
    }
    assert_eq!(rt; next(&mut link, &mut buffer), Next::Ended(0));
    assert_eq!(rt; next(&mut link, &mut buffer), Next::Opened(0));
    // The socket of a connection that is closed keeps its place, and so its number, for a while.
    close(&mut link, 7);
    assert_eq!(rt; next(&mut link, &mut buffer), Next::Opened(64));
    Ok(())
}

#[test]
fn an_address_that_is_none_fails(rt: HostRuntime) -> Result<(), Fail> {
    let mut link = SocketLink::new(rt.alloc(), &rt, seconds(20), seconds(60))?;
    assert!(rt; !listens(&mut link, "nowhere"));
    let mut buffer = [0; 2];
    assert_eq!(rt; next(&mut link, &mut buffer), Next::Failed);
    Ok(())
}
