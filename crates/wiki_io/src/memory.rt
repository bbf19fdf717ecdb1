// A source and a sink in memory, whose calls fail where that is asked for.
ghost use Rattle.std.specs.Prelude.{◌≡◌, if◌then◌else◌, ◌<◌, ◌≤◌, [], Some, length, min, true, ◌-◌, ◌^◌};
ghost use Rattle.std.specs.Io.KnownBytes.{Consumes, Appends, IsAtEnd};
ghost use Rattle.wiki_io.specs.Faults.{Rose};
ghost use Rattle.wiki_io.specs.Memory.{is_to_fail, next_got, one_more};
ghost use Rattle.wiki_io.specs.Sink.{bytes_taken, is_failure, TookFits, IfTook};
ghost use Rattle.wiki_io.specs.Source.{bytes_got, GotFits};

use crate::sinks::{Sink, Took};
use crate::sources::{Got, Source};
use std::alloc::Global;
use std::marker::Model;

/// A source of bytes in memory.
#[derive(Drop)]
pub struct MemorySource {
    bytes: Vec<u8>,
    // how many bytes were read
    at: usize,
    largest: usize,
    fails: Vec<u64>,
    calls: u64,
    faults: u64,
}

impl Model for MemorySource {
    ghost use Rattle.std.specs.Prelude.{◌<◌, ◌≤◌, drop, vec_len};
    ghost use Rattle.wiki_io.specs.Memory.{Held};

    ghost Value = { Held };

    ghost view = { λ s. record { bytes = drop s.at s.bytes.items; largest = s.largest; fails = s.fails.items; calls = s.calls; faults = s.faults } };

    ghost invariant = { λ s. (s.at ≤ vec_len s.bytes) × (0 < s.largest) };
}

impl MemorySource {
    /// A source of these bytes, whose reads of these numbers fail. Reads are numbered from 1.
    pub fn new(bytes: Vec<u8>, fails: Vec<u64>) -> Self
        ensures { result ≡ record { bytes = bytes.items; largest = 2 ^ 64 - 1; fails = fails.items; calls = 0; faults = 0 } }
    {
        MemorySource::in_pieces(bytes, fails, usize::MAX)
    }

    /// The same, where no read gives more than `largest` bytes.
    pub fn in_pieces(bytes: Vec<u8>, fails: Vec<u64>, largest: usize) -> Self
        requires { 0 < largest }
        ensures { result ≡ record { bytes = bytes.items; largest = largest; fails = fails.items; calls = 0; faults = 0 } }
    {
        MemorySource {
            bytes,
            at: 0,
            largest,
            fails,
            calls: 0,
            faults: 0,
        }
    }

    /// The bytes that are left to read.
    pub fn unread(&self) -> &[u8]
        ensures { result.now ≡ self.now.bytes }
    {
        &self.bytes[self.at..]
    }

    /// How often a read has failed.
    pub fn faults(&self) -> u64
        ensures { result ≡ self.now.faults }
    {
        self.faults
    }
}

impl Source for MemorySource {
    ghost left = { λ s. Some s.bytes };

    ghost faults = { λ s. s.faults };

    fn read(&mut self, buf: &mut [u8]) -> Got
        requires { 0 < length buf.old }
        ensures fits { GotFits result (length buf.old) }
        ensures bytes { Consumes (Some self.old.bytes) (Some self.new.bytes) (bytes_got result buf.new) }
        ensures end { result ≡ Got.End → IsAtEnd (Some self.new.bytes) }
        ensures failed { result ≡ Got.Failed → Rose self.old.faults self.new.faults }
        ensures faults { self.old.faults ≤ self.new.faults }

        // It fails exactly where it is to fail, and then alone its count of failures rises.
        ensures answer { result ≡ next_got self.old (length buf.old) }
        ensures count { self.new.faults ≡ (if is_to_fail self.old then one_more self.old.faults else self.old.faults) }
        ensures calls { self.new.calls ≡ one_more self.old.calls }
        ensures same { (self.new.fails ≡ self.old.fails) × (self.new.largest ≡ self.old.largest) }
    {
        self.calls = self.calls.saturating_add(1);
        if self.fails.contains(&self.calls) {
            self.faults = self.faults.saturating_add(1);
            return Got::Failed;
        }
        let size = (self.bytes.len() - self.at)
            .min(buf.len())
            .min(self.largest);
        if size == 0 {
            return Got::End;
        }
        buf[..size].copy_from_slice(&self.bytes[self.at..self.at + size]);
        self.at += size;
        Got::Bytes(size)
    }
}

/// A sink in memory. Where it finds no memory for more bytes, the write fails.
#[derive(Drop)]
pub struct MemorySink {
    bytes: Vec<u8>,
    largest: usize,
    fails: Vec<u64>,
    calls: u64,
    faults: u64,
}

impl Model for MemorySink {
    ghost use Rattle.std.specs.Prelude.{◌<◌};
    ghost use Rattle.wiki_io.specs.Memory.{Held};

    ghost Value = { Held };

    ghost view = { λ s. record { bytes = s.bytes.items; largest = s.largest; fails = s.fails.items; calls = s.calls; faults = s.faults } };

    ghost invariant = { λ s. 0 < s.largest };
}

impl MemorySink {
    /// An empty sink, whose writes of these numbers fail. Writes are numbered from 1.
    pub fn new(alloc: Global, fails: Vec<u64>) -> Self
        ensures { result ≡ record { bytes = []; largest = 2 ^ 64 - 1; fails = fails.items; calls = 0; faults = 0 } }
    {
        MemorySink::in_pieces(alloc, fails, usize::MAX)
    }

    /// The same, where no write takes more than `largest` bytes.
    pub fn in_pieces(alloc: Global, fails: Vec<u64>, largest: usize) -> Self
        requires { 0 < largest }
        ensures { result ≡ record { bytes = []; largest = largest; fails = fails.items; calls = 0; faults = 0 } }
    {
        MemorySink {
            bytes: Vec::new(alloc),
            largest,
            fails,
            calls: 0,
            faults: 0,
        }
    }

    /// The bytes that were taken.
    pub fn bytes(&self) -> &[u8]
        ensures { result.now ≡ self.now.bytes }
    {
        &self.bytes
    }

    /// How often a write has failed.
    pub fn faults(&self) -> u64
        ensures { result ≡ self.now.faults }
    {
        self.faults
    }
}

impl Sink for MemorySink {
    ghost taken = { λ s. Some s.bytes };

    ghost faults = { λ s. s.faults };

    fn write(&mut self, bytes: &[u8]) -> Took
        requires { 0 < length bytes.now }
        ensures fits { TookFits result (length bytes.now) }
        ensures bytes { Appends (Some self.old.bytes) (Some self.new.bytes) (bytes_taken result bytes.now) }
        ensures failed { result ≡ Took.Failed → Rose self.old.faults self.new.faults }
        ensures faults { self.old.faults ≤ self.new.faults }

        // It fails where it is to fail, and for want of memory.
        ensures to_fail { is_to_fail self.old ≡ true → result ≡ Took.Failed }
        ensures size { IfTook result (λ size. size ≡ min (length bytes.now) self.old.largest) }
        ensures count { self.new.faults ≡ (if is_failure result then one_more self.old.faults else self.old.faults) }
        ensures calls { self.new.calls ≡ one_more self.old.calls }
        ensures same { (self.new.fails ≡ self.old.fails) × (self.new.largest ≡ self.old.largest) }
    {
        self.calls = self.calls.saturating_add(1);
        let size = bytes.len().min(self.largest);
        if self.fails.contains(&self.calls)
            || self.bytes.extend_from_slice(&bytes[..size]).is_err()
        {
            self.faults = self.faults.saturating_add(1);
            return Took::Failed;
        }
        Took::Bytes(size)
    }
}
