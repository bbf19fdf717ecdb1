// Lines, connections, and calls that fail, over memory.
ghost use Rattle.std.specs.Prelude.{IsTrue, IfOk};
ghost use Rattle.std.specs.List.{list_all};
ghost use Rattle.wiki_io.specs.MemoryLink.{is_whole};

use std::alloc::Global;
use std::collections::VecDeque;
use std::test::Fail;
use wiki_base::Bytes;
use wiki_io::{
    Event, Fails, Line, LineReader, Link, Listen, MemoryLink, MemorySink, MemorySource, Next, put,
};

// The answers over a whole source, up to its end: each line, and each other answer as a word.
fn answers(alloc: Global, source: &mut MemorySource) -> Result<Vec<u8>, Fail> {
    let mut reader = LineReader::new(alloc)?;
    let mut log = Vec::new(alloc);
    for _ in 0..100 {
        match reader.next_line(source) {
            Line::Text => {
                log.extend_from_slice(reader.line())?;
                log.push(b'|')?;
            }
            Line::TooLong => log.extend_from_slice(b"too long|")?,
            Line::ReadFault => log.extend_from_slice(b"fault|")?,
            Line::End => {
                log.extend_from_slice(b"end")?;
                break;
            }
            Line::TooMuch => break,
        }
    }
    Ok(log)
}

fn answers_of(alloc: Global, bytes: &[u8], largest: usize) -> Result<Vec<u8>, Fail> {
    let bytes = bytes.to_vec(alloc)?;
    let mut source = MemorySource::in_pieces(bytes, Vec::new(alloc), largest.max(1));
    answers(alloc, &mut source)
}

// So many bytes, and then these.
fn long_then(alloc: Global, count: usize, bytes: &[u8]) -> Result<Vec<u8>, Fail> {
    let mut all = vec![in alloc; b'x'; count]?;
    all.extend_from_slice(bytes)?;
    Ok(all)
}

#[test]
fn lines_end_with_a_newline_byte_or_with_the_input(rt: HostRuntime) -> Result<(), Fail> {
    let alloc = rt.alloc();
    let cases: [(&[u8], &[u8]); 6] = [
        (b"", b"end"),
        (b"\n", b"|end"),
        (b"ab\ncd\n", b"ab|cd|end"),
        (b"ab\ncd", b"ab|cd|end"),
        (b"\n\nab\n\n", b"||ab||end"),
        (b"ab\r\n\r\ncd\r", b"ab\r|\r|cd\r|end"),
    ];
    for (bytes, want) in cases {
        for largest in 1..8 {
            let log = answers_of(alloc, bytes, largest)?;
            assert_eq!(rt; log.as_slice(), want, "in pieces of {largest}");
        }
    }
    Ok(())
}

#[test]
fn a_line_of_70000_bytes_is_too_long_and_the_next_is_given(rt: HostRuntime) -> Result<(), Fail> {
    let alloc = rt.alloc();
    let bytes = long_then(alloc, 70_000, b"\nab\n")?;
    for largest in [1, 1_000, 65_536, 1_000_000] {
        let log = answers_of(alloc, &bytes, largest)?;
        assert_eq!(rt;
            log.as_slice(),
            b"too long|ab|end".as_slice(),
            "in pieces of {largest}"
        );
    }
    Ok(())
}

#[test]
fn a_line_is_too_long_from_65536_bytes_on(rt: HostRuntime) -> Result<(), Fail> {
    let alloc = rt.alloc();
    let short = long_then(alloc, 65_535, b"\n")?;
    let log = answers_of(alloc, &short, 1_000_000)?;
    let want = long_then(alloc, 65_535, b"|end")?;
    assert_eq!(rt; log.as_slice(), want.as_slice());
    for ending in [b"\nab".as_slice(), b"\nab\n"] {
        let long = long_then(alloc, 65_536, ending)?;
        let log = answers_of(alloc, &long, 1_000_000)?;
        assert_eq!(rt; log.as_slice(), b"too long|ab|end".as_slice());
    }
    let unended = long_then(alloc, 65_536, b"")?;
    let log = answers_of(alloc, &unended, 1_000_000)?;
    assert_eq!(rt; log.as_slice(), b"too long|end".as_slice());
    Ok(())
}

#[test]
fn reading_goes_on_behind_a_failed_read(rt: HostRuntime) -> Result<(), Fail> {
    let alloc = rt.alloc();
    // Two bytes a read, so the input is at its end at the fifth.
    let wants: [&[u8]; 6] = [
        b"fault|ab|cd|e|end",
        b"fault|ab|cd|e|end",
        b"ab|fault|cd|e|end",
        b"ab|cd|fault|e|end",
        b"ab|cd|fault|e|end",
        b"ab|cd|e|end",
    ];
    for (k, want) in (1..).zip(wants) {
        let bytes = b"ab\ncd\ne".to_vec(alloc)?;
        let mut source = MemorySource::in_pieces(bytes, [k].to_vec(alloc)?, 2);
        let log = answers(alloc, &mut source)?;
        assert_eq!(rt; log.as_slice(), want, "at read {k}");
    }
    Ok(())
}

#[test]
fn a_line_is_given_before_more_is_read(rt: HostRuntime) -> Result<(), Fail> {
    let alloc = rt.alloc();
    let mut source = MemorySource::in_pieces(b"a\nb\nc\n".to_vec(alloc)?, Vec::new(alloc), 3);
    let mut reader = LineReader::new(alloc)?;
    assert_eq!(rt; reader.next_line(&mut source), Line::Text);
    assert_eq!(rt; reader.line(), b"a".as_slice());
    assert_eq!(rt; source.unread(), b"\nc\n".as_slice());
    Ok(())
}

#[test]
fn writing_fails_at_each_number(rt: HostRuntime) -> Result<(), Fail> {
    let alloc = rt.alloc();
    // Three bytes a write, so all is written with the third.
    let wants: [(bool, &[u8]); 4] = [
        (false, b""),
        (false, b"abc"),
        (false, b"abcdef"),
        (true, b"abcdefgh"),
    ];
    for (k, (all, taken)) in (1..).zip(wants) {
        let mut sink = MemorySink::in_pieces(alloc, [k].to_vec(alloc)?, 3);
        assert_eq!(rt; put(&mut sink, b"abcdefgh"), all, "at write {k}");
        assert_eq!(rt; sink.bytes(), taken, "at write {k}");
        assert_eq!(rt; sink.faults(), if all { 0 } else { 1 });
    }
    Ok(())
}

// A connection that is opened twice, brings three bytes, ends, and brings one more.
fn script(alloc: Global) -> Result<VecDeque<Event>, Fail>
    ensures { IfOk result (λ script. IsTrue (list_all is_whole script.items)) }
{
    let mut script = VecDeque::new(alloc);
    script.push_back(Event::Opened(1))?;
    script.push_back(Event::Opened(1))?;
    script.push_back(Event::Piece(1, Bytes::from_slice(alloc, b"abc")?))?;
    script.push_back(Event::Ended(1))?;
    script.push_back(Event::Piece(1, Bytes::from_slice(alloc, b"d")?))?;
    Ok(script)
}

#[test]
fn what_cant_come_is_left_out_and_calls_fail_by_their_numbers(rt: HostRuntime) -> Result<(), Fail> {
    let alloc = rt.alloc();
    let mut fails = Fails::none(alloc);
    fails.next.push(2)?;
    fails.send.push(1)?;
    let mut link = MemoryLink::in_pieces(alloc, script(alloc)?, fails, 2);
    let mut buffer = [0; 8];
    assert_eq!(rt; link.listen("anywhere"), Listen::Ready);
    for want in [
        Next::Opened(1),
        Next::Failed,
        Next::Bytes(1, 3),
        Next::Ended(1),
        Next::Over,
    ] {
        assert_eq!(rt; link.next(&mut buffer), want);
        if want == Next::Bytes(1, 3) {
            assert_eq!(rt; &buffer[..3], b"abc".as_slice());
        }
    }
    Ok(())
}
