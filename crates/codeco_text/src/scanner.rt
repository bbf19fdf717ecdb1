// Reading a text of the notation byte by byte.
ghost use Rattle.std.specs.Prelude.{◌≡◌, ◌<◌, ◌≤◌, ◌+◌, List, length, slice_index, slice_range, Some, IfOk, IfErr, OnOk, OnErr, Result, Ok, None, IsTrue, ℕ, if◌then◌else◌};
ghost use Rattle.codeco_text.specs.declared.written.WrittenItem.{WrittenItem};
ghost use Rattle.codeco_text.specs.Names.{is_among, is_variable};
ghost use Rattle.codeco_text.specs.Notation.{labels, kinds, IsSpelling, Finds, TellsFault};
ghost use Rattle.codeco_text.specs.Reading.{as_word, identifier};
ghost use Rattle.codeco_text.specs.Building.{Takes, grow};
ghost use Rattle.codeco_text.specs.Scanning.{
  single,
  begin,
  begin_sign,
  begin_dash,
  begin_single,
  behind,
  finish,
  step,
  reading,
  fresh,
  is_between_items,
  ended,
  ok_or_place,
  between,
  word,
  terminal,
  greater,
  guard,
};
ghost use Rattle.codeco_text.specs.Scanner.{seen, StartsWithin, IsSignMode, Steps, Reads};

use crate::builder::Builder;
use crate::bytes::{is_space, is_terminal_byte, is_word_byte};
use crate::mode::Mode;
use crate::moves::{takes_sign, takes_terminal, wants};
use crate::spot::{Spot, Wanted};
use crate::symbols::{Lexeme, Sign};
use crate::syntax_fault::SyntaxFault;
use crate::words::{
    is_identifier, is_kind, is_label, is_terminal, is_variable, may_begin, may_go_on, same_bytes,
};
use crate::written::WrittenItems;
use codeco_terms::Symbol;
use std::alloc::{AllocError, Global};
use wiki_base::Memory;

/// The name that the word is, where it is one.
fn identifier(alloc: Global, word: &[u8]) -> Result<Option<Lexeme>, Memory>
    ensures { IfOk result (λ found. found ≡ identifier word.now) }
{
    if is_identifier(word) {
        Ok(Some(Lexeme::Identifier(Symbol::from_slice(alloc, word)?)))
    } else {
        Ok(None)
    }
}

/// The keyword that the word is, or else the name.
fn keyword_or_name(alloc: Global, is_keyword: bool, word: &[u8]) -> Result<Option<Lexeme>, Memory>
    ensures { IfOk result (λ found. found ≡ (if is_keyword then Some (Lexeme.Keyword word.now) else identifier word.now)) }
{
    if is_keyword {
        Ok(Some(Lexeme::Keyword(Symbol::from_slice(alloc, word)?)))
    } else {
        identifier(alloc, word)
    }
}

/// The variable that the word is, where it is one.
fn variable(alloc: Global, word: &[u8]) -> Result<Option<Lexeme>, Memory>
    ensures { IfOk result (λ found. found ≡ (if is_variable word.now then Some (Lexeme.Variable word.now) else None)) }
{
    if is_variable(word) {
        Ok(Some(Lexeme::Variable(Symbol::from_slice(alloc, word)?)))
    } else {
        Ok(None)
    }
}

/// The label that the word is, where it is one.
fn label(alloc: Global, word: &[u8]) -> Result<Option<Lexeme>, Memory>
    ensures { IfOk result (λ found. found ≡ (if is_among labels word.now then Some (Lexeme.Label word.now) else None)) }
{
    if is_label(word) {
        Ok(Some(Lexeme::Label(Symbol::from_slice(alloc, word)?)))
    } else {
        Ok(None)
    }
}

/// The preterminal that the word is, where it is one.
fn kind(alloc: Global, word: &[u8]) -> Result<Option<Lexeme>, Memory>
    ensures { IfOk result (λ found. found ≡ (if is_among kinds word.now then Some (Lexeme.Kind word.now) else None)) }
{
    if is_kind(word) {
        Ok(Some(Lexeme::Kind(Symbol::from_slice(alloc, word)?)))
    } else {
        Ok(None)
    }
}

/// The variable that the word is, or else the name.
fn term(alloc: Global, word: &[u8]) -> Result<Option<Lexeme>, Memory>
    ensures { IfOk result (λ found. found ≡ (if is_variable word.now then Some (Lexeme.Variable word.now) else identifier word.now)) }
{
    if is_variable(word) {
        Ok(Some(Lexeme::Variable(Symbol::from_slice(alloc, word)?)))
    } else {
        identifier(alloc, word)
    }
}

/// The symbol that the word is, among those that are wanted.
fn as_word(alloc: Global, wanted: Wanted, word: &[u8]) -> Result<Option<Lexeme>, Memory>
    ensures { IfOk result (λ found. found ≡ as_word wanted word.now) }
{
    match wanted {
        Wanted::Nothing => Ok(None),
        Wanted::Item => keyword_or_name(alloc, same_bytes(word, b"feature"), word),
        Wanted::Identifier => identifier(alloc, word),
        Wanted::Value => {
            let is_keyword = same_bytes(word, b"word") || same_bytes(word, b"position");
            keyword_or_name(alloc, is_keyword, word)
        }
        Wanted::Label => label(alloc, word),
        Wanted::Kind => kind(alloc, word),
        Wanted::Variable => variable(alloc, word),
        Wanted::Term => term(alloc, word),
    }
}

/// Takes a symbol that ends with the last byte.
fn take_whole(builder: &mut Builder, alloc: Global, lexeme: Lexeme) -> Result<Option<Mode>, Memory>
    ensures { (text : List ℕ) (next : ℕ) → Steps (behind (grow builder.old lexeme)) text next result builder.new }
{
    if builder.take(alloc, lexeme)? {
        Ok(Some(Mode::Between))
    } else {
        Ok(None)
    }
}

fn if_it(holds: bool, mode: Mode) -> Option<Mode>
    ensures { result ≡ guard holds mode }
{
    if holds { Some(mode) } else { None }
}

/// The sign that the byte is by itself.
fn single(byte: u8) -> Option<Sign>
    ensures { result ≡ single byte }
{
    match byte {
        b':' => Some(Sign::Colon),
        b',' => Some(Sign::Comma),
        b'.' => Some(Sign::Stop),
        b'{' => Some(Sign::OpenBrace),
        b'}' => Some(Sign::CloseBrace),
        b'(' => Some(Sign::OpenParen),
        b')' => Some(Sign::CloseParen),
        b'$' => Some(Sign::Dollar),
        b'#' => Some(Sign::Hash),
        b'<' => Some(Sign::Back),
        b'+' => Some(Sign::Plus),
        b'?' => Some(Sign::Question),
        _ => None,
    }
}

/// A `-` outside symbols: the sign before a negative pattern, or the first byte of an arrow.
fn begin_dash(builder: &mut Builder, alloc: Global) -> Result<Option<Mode>, Memory>
    ensures { (text : List ℕ) (next : ℕ) → Steps (begin_dash builder.old) text next result builder.new }
{
    if takes_sign(builder.spot, Sign::Minus) {
        take_whole(builder, alloc, Lexeme::Sign(Sign::Minus))
    } else {
        Ok(if_it(takes_sign(builder.spot, Sign::Normal), Mode::Dash))
    }
}

/// A byte of no other kind outside symbols: a sign by itself.
fn begin_single(builder: &mut Builder, alloc: Global, byte: u8) -> Result<Option<Mode>, Memory>
    ensures { (text : List ℕ) (next : ℕ) → Steps (begin_single builder.old byte) text next result builder.new }
{
    match single(byte) {
        None => Ok(None),
        Some(sign) => take_whole(builder, alloc, Lexeme::Sign(sign)),
    }
}

/// The first byte of a sign or a terminal, which stands before the place `next`.
fn begin_sign(
    builder: &mut Builder,
    alloc: Global,
    byte: u8,
    next: usize,
) -> Result<Option<Mode>, Memory>
    ensures { (text : List ℕ) → Steps (begin_sign builder.old byte) text next result builder.new }
{
    match byte {
        b'[' => Ok(if_it(takes_terminal(builder.spot), Mode::Terminal(next))),
        b'-' => begin_dash(builder, alloc),
        b'~' => Ok(if_it(takes_sign(builder.spot, Sign::Closing), Mode::Tilde)),
        b'/' => Ok(if_it(takes_sign(builder.spot, Sign::Scope), Mode::Slash)),
        b'>' => Ok(if_it(takes_sign(builder.spot, Sign::Weak), Mode::Greater)),
        _ => begin_single(builder, alloc, byte),
    }
}

/// A byte outside symbols.
#[tactic(auto, using(crate::proofs::Slices::slice_one))]
fn begin(
    builder: &mut Builder,
    alloc: Global,
    text: &[u8],
    at: usize,
) -> Result<Option<Mode>, Memory>
    requires { at < length text.now }
    ensures { Steps (begin builder.old (slice_index text.now at)) text.now (at + 1) result builder.new }
{
    let byte = text[at];
    if is_space(byte) {
        return Ok(Some(Mode::Between));
    }
    if byte == b'%' {
        return Ok(Some(Mode::Comment));
    }
    if may_begin(wants(builder.spot), byte) {
        return Ok(Some(Mode::Word(at)));
    }
    begin_sign(builder, alloc, byte, at + 1)
}

/// Takes a word that is whole, where it may stand.
fn finish_word(builder: &mut Builder, alloc: Global, bytes: &[u8]) -> Result<bool, Memory>
    ensures { Takes (finish builder.old (word bytes.now)) result builder.new }
{
    match as_word(alloc, wants(builder.spot), bytes)? {
        None => Ok(false),
        Some(lexeme) => builder.take(alloc, lexeme),
    }
}

/// The next byte of a word, or the byte behind it.
#[tactic(auto, using(crate::proofs::Slices::slice_more))]
fn step_word(
    builder: &mut Builder,
    alloc: Global,
    text: &[u8],
    start: usize,
    at: usize,
) -> Result<Option<Mode>, Memory>
    requires within { at < length text.now }
    requires started { start ≤ at }
    ensures { Steps (step builder.old (word (slice_range text.now start at)) (slice_index text.now at)) text.now (at + 1) result builder.new }
{
    if is_word_byte(text[at]) {
        let goes_on = may_go_on(wants(builder.spot), &text[start..at + 1]);
        return Ok(if_it(goes_on, Mode::Word(start)));
    }
    if finish_word(builder, alloc, &text[start..at])? {
        begin(builder, alloc, text, at)
    } else {
        Ok(None)
    }
}

/// Takes a terminal of these bytes, where it is one and may stand.
fn end_terminal(builder: &mut Builder, alloc: Global, bytes: &[u8]) -> Result<Option<Mode>, Memory>
    ensures { (text : List ℕ) (next : ℕ) → Steps (step builder.old (terminal bytes.now) 93) text next result builder.new }
{
    if is_terminal(bytes) {
        take_whole(
            builder,
            alloc,
            Lexeme::Terminal(Symbol::from_slice(alloc, bytes)?),
        )
    } else {
        Ok(None)
    }
}

/// The next byte of a terminal, or its closing bracket.
#[tactic(auto, using(crate::proofs::Slices::slice_more))]
fn step_terminal(
    builder: &mut Builder,
    alloc: Global,
    text: &[u8],
    start: usize,
    at: usize,
) -> Result<Option<Mode>, Memory>
    requires within { at < length text.now }
    requires started { start ≤ at }
    ensures { Steps (step builder.old (terminal (slice_range text.now start at)) (slice_index text.now at)) text.now (at + 1) result builder.new }
{
    if text[at] == b']' {
        return end_terminal(builder, alloc, &text[start..at]);
    }
    let goes_on = is_terminal_byte(text[at]);
    Ok(if_it(goes_on, Mode::Terminal(start)))
}

/// The byte behind `>`.
fn step_greater(
    builder: &mut Builder,
    alloc: Global,
    text: &[u8],
    at: usize,
) -> Result<Option<Mode>, Memory>
    requires { at < length text.now }
    ensures { Steps (step builder.old greater (slice_index text.now at)) text.now (at + 1) result builder.new }
{
    if text[at] == b'>' {
        return take_whole(builder, alloc, Lexeme::Sign(Sign::Strong));
    }
    if builder.take(alloc, Lexeme::Sign(Sign::Weak))? {
        begin(builder, alloc, text, at)
    } else {
        Ok(None)
    }
}

/// The byte behind the first of an arrow or of a sign with `/`.
fn step_sign(
    builder: &mut Builder,
    alloc: Global,
    mode: Mode,
    byte: u8,
) -> Result<Option<Mode>, Memory>
    ensures { (text : List ℕ) (at next : ℕ) → IsSignMode mode → Steps (step builder.old (seen text at mode) byte) text next result builder.new }
{
    match mode {
        Mode::Dash => Ok(if_it(byte == b'-', Mode::Dashes)),
        Mode::Dashes => {
            if byte == b'>' {
                take_whole(builder, alloc, Lexeme::Sign(Sign::Normal))
            } else {
                Ok(None)
            }
        }
        Mode::Tilde => Ok(if_it(byte == b'~', Mode::Tildes)),
        Mode::Tildes => {
            if byte == b'>' {
                take_whole(builder, alloc, Lexeme::Sign(Sign::Closing))
            } else {
                Ok(None)
            }
        }
        Mode::Slash => match byte {
            b'/' => take_whole(builder, alloc, Lexeme::Sign(Sign::Scope)),
            b'<' => take_whole(builder, alloc, Lexeme::Sign(Sign::NoBack)),
            _ => Ok(None),
        },
        _ => Ok(None),
    }
}

/// The byte at a place of the text.
fn step(
    builder: &mut Builder,
    alloc: Global,
    mode: Mode,
    text: &[u8],
    at: usize,
) -> Result<Option<Mode>, Memory>
    requires within { at < length text.now }
    requires started { StartsWithin at mode }
    ensures { Steps (step builder.old (seen text.now at mode) (slice_index text.now at)) text.now (at + 1) result builder.new }
{
    match mode {
        Mode::Between => begin(builder, alloc, text, at),
        Mode::Comment => {
            let ends = text[at] == b'\n';
            Ok(Some(if ends { Mode::Between } else { Mode::Comment }))
        }
        Mode::Word(start) => step_word(builder, alloc, text, start, at),
        Mode::Terminal(start) => step_terminal(builder, alloc, text, start, at),
        Mode::Greater => step_greater(builder, alloc, text, at),
        _ => step_sign(builder, alloc, mode, text[at]),
    }
}

/// Takes the word or the `>` that the text ends with.
fn finish(builder: &mut Builder, alloc: Global, mode: Mode, text: &[u8]) -> Result<bool, Memory>
    requires { StartsWithin (length text.now) mode }
    ensures { Takes (finish builder.old (seen text.now (length text.now) mode)) result builder.new }
{
    match mode {
        Mode::Between => Ok(true),
        Mode::Comment => Ok(true),
        Mode::Word(start) => finish_word(builder, alloc, &text[start..]),
        Mode::Greater => builder.take(alloc, Lexeme::Sign(Sign::Weak)),
        _ => Ok(false),
    }
}

fn is_between_items(spot: Spot) -> bool
    ensures { result ≡ is_between_items spot }
{
    matches!(spot, Spot::Items)
}

/// The items at the end of a text.
fn ended(
    mut builder: Builder,
    alloc: Global,
    mode: Mode,
    text: &[u8],
) -> Result<WrittenItems, SyntaxFault>
    requires { StartsWithin (length text.now) mode }
    ensures { Reads result (ok_or_place (ended builder (seen text.now (length text.now) mode)) (length text.now)) }
{
    if finish(&mut builder, alloc, mode, text)? && is_between_items(builder.spot) {
        Ok(builder.items)
    } else {
        Err(SyntaxFault::At(text.len()))
    }
}

/// The items that the text spells.
fn scan(alloc: Global, text: &[u8]) -> Result<WrittenItems, SyntaxFault>
    ensures { Reads result (reading fresh between text.now 0) }
{
    let mut builder = Builder::new(alloc);
    let mut mode = Mode::Between;
    for at in 0..text.len() {
        match step(&mut builder, alloc, mode, text, at)? {
            None => return Err(SyntaxFault::At(at)),
            Some(next) => mode = next,
        }
    }
    ended(builder, alloc, mode, text)
}

/// The declarations and rules that the text spells. A text that spells none is refused at the first byte with which no
/// sentence of the notation begins as the text does, or at its length where the whole of it goes on to a sentence.
pub fn read_items(alloc: Global, text: &[u8]) -> Result<WrittenItems, SyntaxFault>
    ensures spelled { IfOk result (λ items. IsSpelling text.now items) }
    ensures only { (items : List WrittenItem) → IsSpelling text.now items → Finds items result }
    ensures fault { IfErr result (TellsFault text.now) }
{
    scan(alloc, text)
}
