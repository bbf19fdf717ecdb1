// Streams of std as sources and sinks.
use std::io;
use std::io::Read;
use std::test::Fail;
use wiki_io::{Got, ReadSource, Source, WriteSink, put};

#[derive(Drop)]
struct Broken;

impl Read for Broken {
    fn read(&mut self, _buf: &mut [u8]) -> io::Result<usize> {
        Err(io::Error::other("broken"))
    }
}

#[test]
fn a_reader_is_a_source(rt: HostRuntime) {
    let mut buffer = [0; 2];
    let mut source = ReadSource::new(b"abc".as_slice());
    assert_eq!(rt; source.read(&mut buffer), Got::Bytes(2));
    assert_eq!(rt; buffer, *b"ab");
    assert_eq!(rt; source.read(&mut buffer), Got::Bytes(1));
    assert_eq!(rt; source.read(&mut buffer), Got::End);
    assert_eq!(rt; source.faults, 0);
    let mut broken = ReadSource::new(Broken);
    assert_eq!(rt; broken.read(&mut buffer), Got::Failed);
    assert_eq!(rt; broken.faults, 1);
}

#[test]
fn a_writer_is_a_sink(rt: HostRuntime) {
    let mut room = [0; 4];
    let mut sink = WriteSink::new(room.as_mut_slice());
    assert!(rt; put(&mut sink, b"abc"));
    // A write of one byte is taken, and the next takes nothing.
    assert!(rt; !put(&mut sink, b"de"));
    assert_eq!(rt; sink.faults, 1);
    assert_eq!(rt; room, *b"abcd");
}

#[test]
fn standard_output_is_written_at_once(rt: HostRuntime) {
    let mut sink = WriteSink::new(rt.stdout());
    assert!(rt; put(&mut sink, b"a line\n"));
    let mut sink = WriteSink::new(rt.stderr());
    assert!(rt; put(&mut sink, b"a line\n"));
}
