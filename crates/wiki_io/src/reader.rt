// The lines of an input, one call for each.
ghost use Rattle.std.specs.Prelude.{◌≡◌, ◌≢◌, ◌<◌, ◌≤◌, ◌+◌, ◌-◌, ◌++◌, ◌↔◌, ◌⊎◌, ℕ, [], IfOk, IfSome, IfNone, IsTrue, true, false, length, take, drop, slice_get, slice_range, vec_len, Some};
ghost use Rattle.std.specs.Bool.{OnTrue, OnFalse};
ghost use Rattle.std.specs.Io.KnownBytes.{Consumes, IsAtEnd};
ghost use Rattle.wiki_io.specs.Faults.{Rose};
ghost use Rattle.wiki_io.specs.Lines.{whole_lines, HasNoNewline};
ghost use Rattle.wiki_io.specs.Reading.{unread, bytes_to_come, ReadsLine, HasNoLine, GivesLine, KeepsBytes, Fills, lines_to_come, answered};
ghost use Rattle.wiki_io.specs.Source.{bytes_got, GotFits};

use crate::limits::{MAX_INPUT, MAX_LINE, NEWLINE};
use crate::sources::{Got, Source};
use memchr::memchr;
use std::alloc::Global;
use std::marker::Model;
use wiki_base::Memory;

// Beside an unfinished line, which is shorter than `MAX_LINE`, a block of that size has room.
const ROOM: usize = 131_072;

/// What `next_line` answers.
#[derive(Clone, Copy, Debug, PartialEq, Eq)]
pub enum Line {
    /// A line, which `line` lends.
    Text,
    /// A line of `MAX_LINE` bytes or more. The rest of it is skipped.
    TooLong,
    /// The input is at its end, and every line was given.
    End,
    /// A read failed. What was read of the line is kept, and the next call goes on from there.
    ReadFault,
    /// The input has more than `MAX_INPUT` bytes.
    TooMuch,
}

/// Reads the lines of one source, in blocks, through a buffer of its own.
#[derive(Drop)]
pub struct LineReader {
    buffer: Vec<u8>,
    // What was read and not given lies from `start` up to `end`. Its first `searched` bytes have no newline.
    start: usize,
    end: usize,
    searched: usize,
    // The line that was given last.
    line_start: usize,
    line_length: usize,
    skips: bool,
    ended: bool,
    count: u64,
}

impl Model for LineReader {
    ghost use Rattle.wiki_io.specs.Reading.{Reading};

    ghost Value = { Reading };

    ghost use Rattle.wiki_io.specs.ReaderFields.{reading_of, IsSound};

    ghost view = { reading_of };

    ghost invariant = { IsSound };
}

impl LineReader {
    /// A reader that has read nothing. Its buffer is all the memory that it takes.
    pub fn new(alloc: Global) -> Result<LineReader, Memory>
        ensures { IfOk result (λ reader. reader ≡ unread) }
    {
        Ok(LineReader {
            buffer: vec![in alloc; 0; ROOM]?,
            start: 0,
            end: 0,
            searched: 0,
            line_start: 0,
            line_length: 0,
            skips: false,
            ended: false,
            count: 0,
        })
    }

    /// The line that the last call of `next_line` gave, without its newline; no byte where it gave none.
    pub fn line(&self) -> &[u8]
        ensures { result.now ≡ self.now.line }
    {
        &self.buffer[self.line_start..self.line_start + self.line_length]
    }

    /// Gives the next line of the source. It reads no more where a line is there already, and takes no memory.
    pub fn next_line<S: Source>(&mut self, source: &mut S) -> Line
        // No call before answered `TooMuch`.
        requires { self.old.count ≤ MAX_INPUT }

        ensures lines { ReadsLine (S.left source.old) self.old result self.new (S.left source.new) }
        ensures no_line { result ≢ Line.Text → self.new.line ≡ [] }

        // At the end every line was given. From then on the source is not read.
        ensures end { result ≡ Line.End → IsTrue self.new.ended }
        ensures nothing_left { IsTrue self.new.ended → IsTrue self.old.ended ⊎ IsAtEnd (S.left source.new) }
        ensures nothing_pending { IsTrue self.new.ended → self.new.pending ≡ [] }
        ensures last_line { IsTrue self.new.ended → (result ≡ Line.End) ⊎ (result ≡ Line.Text) }
        ensures ended { IsTrue self.old.ended → (result ≡ Line.End) × (source.new ≡ source.old) }

        // A line takes bytes, so whoever goes on comes to an end.
        ensures takes { (result ≡ Line.Text) ⊎ (result ≡ Line.TooLong)
            → length self.new.pending + self.old.count < length self.old.pending + self.new.count }

        ensures too_much { (result ≡ Line.TooMuch) ↔ (MAX_INPUT < self.new.count) }
        ensures room { result ≢ Line.TooMuch → self.new.count ≤ MAX_INPUT }

        // Whoever waits for the reply to a line has it before more is read.
        ensures at_once { whole_lines (bytes_to_come self.old []) ≢ [] → source.new ≡ source.old }
        ensures at_once_too_long { MAX_LINE ≤ length (bytes_to_come self.old []) → source.new ≡ source.old }

        // Where a read failed, each whole line that was read has been given.
        ensures read_fault { result ≡ Line.ReadFault → Rose (S.faults source.old) (S.faults source.new) }
        ensures given { result ≡ Line.ReadFault → HasNoLine self.new }
        ensures faults { S.faults source.old ≤ S.faults source.new }
    {
        if self.ended {
            return self.nothing();
        }
        loop {
            if let Some(line) = self.cut() {
                return line;
            }
            match self.fill(source) {
                Got::Bytes(_) => {
                    if self.is_over() {
                        return Line::TooMuch;
                    }
                }
                Got::End => return self.finish(),
                Got::Failed => return Line::ReadFault,
            }
        }
    }

    // The answer where no line is left.
    fn nothing(&mut self) -> Line
        ensures end { result ≡ Line.End }
        ensures new { self.new ≡ record self.old { line = [] } }
        ensures pending { IsTrue self.old.ended → self.old.pending ≡ [] }
    {
        self.line_length = 0;
        Line::End
    }

    fn is_over(&self) -> bool
        ensures { IsTrue result ↔ (MAX_INPUT < self.now.count) }
    {
        self.count > MAX_INPUT
    }

    // Takes a line from what was read, if one can be told from it.
    fn cut(&mut self) -> Option<Line>
        requires { self.old.ended ≡ false }
        ensures some { IfSome result (λ answer. GivesLine self.old answer self.new) }
        ensures answer { IfSome result (λ answer. (answer ≡ Line.Text) ⊎ ((answer ≡ Line.TooLong) × (self.new.line ≡ []))) }
        ensures none { IfNone result (HasNoLine self.new × KeepsBytes self.old self.new) }
        ensures takes { IfSome result (λ _. length self.new.pending < length self.old.pending) }
        ensures keeps { length self.new.pending ≤ length self.old.pending }
        ensures ended { self.new.ended ≡ false }
        ensures count { self.new.count ≡ self.old.count }
    {
        if !self.skip() {
            return None;
        }
        let start = self.start;
        let searched = self.searched;
        let window = self.end.min(start + MAX_LINE);
        match newline_at(&self.buffer[start + searched..window]) {
            Some(at) => Some(self.text(searched + at)),
            None if window - start == MAX_LINE => Some(self.too_long()),
            None => {
                self.searched = window - start;
                None
            }
        }
    }

    // Skips the rest of a line that was too long. False: its newline has not come.
    fn skip(&mut self) -> bool
        requires { self.old.ended ≡ false }
        ensures kept { KeepsBytes self.old self.new }
        ensures done { OnTrue result (self.new.skips ≡ false) }
        ensures more { OnFalse result (HasNoLine self.new) }
        ensures keeps { length self.new.pending ≤ length self.old.pending }
        ensures ended { self.new.ended ≡ false }
        ensures count { self.new.count ≡ self.old.count }
        ensures line { self.new.line ≡ [] }
    {
        self.line_length = 0;
        if !self.skips {
            return true;
        }
        self.searched = 0;
        match newline_at(&self.buffer[self.start..self.end]) {
            Some(at) => {
                self.start += at + 1;
                self.skips = false;
                true
            }
            None => {
                self.start = self.end;
                false
            }
        }
    }

    // Gives the first bytes that were read, of this number, up to a newline byte.
    fn text(&mut self, size: usize) -> Line
        requires skips { self.old.skips ≡ false }
        requires ended { self.old.ended ≡ false }
        requires short { size < MAX_LINE }
        requires no_newline { HasNoNewline (take size self.old.pending) }
        requires newline { slice_get self.old.pending size ≡ Some NEWLINE }
        ensures line { GivesLine self.old result self.new }
        ensures text { result ≡ Line.Text }
        ensures takes { length self.new.pending < length self.old.pending }
        ensures ended { self.new.ended ≡ false }
        ensures count { self.new.count ≡ self.old.count }
    {
        self.line_start = self.start;
        self.line_length = size;
        self.start += size + 1;
        self.searched = 0;
        Line::Text
    }

    // Gives a line that is too long by its first bytes.
    fn too_long(&mut self) -> Line
        requires skips { self.old.skips ≡ false }
        requires ended { self.old.ended ≡ false }
        requires long { MAX_LINE ≤ length self.old.pending }
        requires no_newline { HasNoNewline (take MAX_LINE self.old.pending) }
        ensures line { GivesLine self.old result self.new }
        ensures too_long { (result ≡ Line.TooLong) × (self.new.line ≡ []) }
        ensures takes { length self.new.pending < length self.old.pending }
        ensures ended { self.new.ended ≡ false }
        ensures count { self.new.count ≡ self.old.count }
    {
        self.line_length = 0;
        self.start += MAX_LINE;
        self.searched = 0;
        self.skips = true;
        Line::TooLong
    }

    // Reads a block behind an unfinished line.
    fn fill<S: Source>(&mut self, source: &mut S) -> Got
        requires no_line { HasNoLine self.old }
        requires count { self.old.count ≤ MAX_INPUT }
        ensures bytes { Fills (S.left source.old) self.old result self.new (S.left source.new) }
        ensures end { result ≡ Got.End → IsAtEnd (S.left source.new) }
        ensures failed { result ≡ Got.Failed → Rose (S.faults source.old) (S.faults source.new) }
        ensures faults { S.faults source.old ≤ S.faults source.new }
    {
        to_front(&mut self.buffer, self.start, self.end);
        self.line_length = 0;
        self.end -= self.start;
        self.start = 0;
        let got = read_behind(source, &mut self.buffer, self.end);
        if let Got::Bytes(size) = got {
            self.end += size;
            self.count += size as u64;
        }
        got
    }

    // At the source's end, gives what is left as the last line.
    fn finish(&mut self) -> Line
        requires { HasNoLine self.old }
        ensures lines { lines_to_come self.old [] ≡ answered result self.new.line }
        ensures answer { ((result ≡ Line.End) × (self.new.line ≡ [])) ⊎ ((result ≡ Line.Text) × (0 < length self.old.pending)) }
        ensures ended { IsTrue self.new.ended }
        ensures pending { self.new.pending ≡ [] }
        ensures count { self.new.count ≡ self.old.count }
    {
        self.ended = true;
        self.searched = 0;
        self.line_start = self.start;
        self.line_length = self.end - self.start;
        self.start = self.end;
        if self.line_length == 0 {
            Line::End
        } else {
            Line::Text
        }
    }
}

// Moves the bytes from `start` up to `end` to the buffer's front.
fn to_front(buffer: &mut Vec<u8>, start: usize, end: usize)
    requires order { start ≤ end }
    requires end { end ≤ vec_len buffer.old }
    ensures moved { slice_range buffer.new.items 0 (end - start) ≡ slice_range buffer.old.items start end }
    ensures length { vec_len buffer.new ≡ vec_len buffer.old }
{
    if start > 0 {
        buffer.copy_within(start..end, 0);
    }
}

// Reads into the buffer from a place on.
fn read_behind<S: Source>(source: &mut S, buffer: &mut Vec<u8>, from: usize) -> Got
    requires { from < vec_len buffer.old }
    ensures fits { GotFits result (vec_len buffer.old - from) }
    ensures bytes { Consumes (S.left source.old) (S.left source.new) (bytes_got result (drop from buffer.new.items)) }
    ensures front { take from buffer.new.items ≡ take from buffer.old.items }
    ensures length { vec_len buffer.new ≡ vec_len buffer.old }
    ensures end { result ≡ Got.End → IsAtEnd (S.left source.new) }
    ensures failed { result ≡ Got.Failed → Rose (S.faults source.old) (S.faults source.new) }
    ensures faults { S.faults source.old ≤ S.faults source.new }
{
    source.read(&mut buffer[from..])
}

// The place of the first newline byte.
fn newline_at(bytes: &[u8]) -> Option<usize>
    ensures none { IfNone result (HasNoNewline bytes.now) }
    ensures some { IfSome result (λ at. HasNoNewline (take at bytes.now) × (slice_get bytes.now at ≡ Some NEWLINE)) }
{
    memchr(NEWLINE, bytes)
}
