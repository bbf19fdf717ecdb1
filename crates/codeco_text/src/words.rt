// The words of the notation.
ghost use Rattle.std.specs.Prelude.{◌≡◌, ◌==◌, ◌||◌};
ghost use Rattle.std.specs.List.{list_all, list_any};
ghost use Rattle.codeco_text.specs.Names.{
  same_bytes,
  is_among,
  is_identifier,
  is_variable,
  is_terminal,
  is_word_byte,
  is_terminal_byte,
  ends_well,
};
ghost use Rattle.codeco_text.specs.Notation.{labels, kinds, has_front};
ghost use Rattle.codeco_text.specs.Reading.{is_front_among, may_begin, may_go_on};

use crate::bytes::{is_lower, is_terminal_byte, is_upper, is_word_byte};
use crate::spot::Wanted;

/// The thirty labels.
const LABELS: [&[u8]; 30] = [
    b"statement",
    b"ask",
    b"if",
    b"say",
    b"and",
    b"or",
    b"pass",
    b"not",
    b"does",
    b"done",
    b"class",
    b"top",
    b"same",
    b"only",
    b"gap",
    b"name",
    b"refer",
    b"var",
    b"noun",
    b"part",
    b"some",
    b"every",
    b"no",
    b"something",
    b"everything",
    b"nothing",
    b"what",
    b"which",
    b"whichobj",
    b"mark",
];

/// The five preterminals.
const KINDS: [&[u8]; 5] = [b"name", b"noun", b"of", b"verb", b"adj"];

/// Whether two words have the same bytes.
pub fn same_bytes(left: &[u8], right: &[u8]) -> bool
    ensures { result ≡ same_bytes left.now right.now }
{
    left == right
}

/// Whether the text begins with the front.
pub fn has_front(front: &[u8], text: &[u8]) -> bool
    ensures { result ≡ has_front front.now text.now }
{
    text.starts_with(front)
}

/// Whether each byte is one of words.
pub fn are_word_bytes(bytes: &[u8]) -> bool
    ensures { result ≡ list_all is_word_byte bytes.now }
{
    bytes.iter().all(|byte| is_word_byte(*byte))
}

/// Whether the word is among these.
fn is_among(words: &[&[u8]], word: &[u8]) -> bool
    ensures { result ≡ list_any (λ w. same_bytes word.now w.now) words.now }
{
    words.iter().any(|other| same_bytes(word, other))
}

/// Whether one of the words begins so.
fn is_front_among(words: &[&[u8]], front: &[u8]) -> bool
    ensures { result ≡ list_any (λ w. has_front front.now w.now) words.now }
{
    words.iter().any(|other| has_front(front, other))
}

/// Whether the word is a label.
pub fn is_label(word: &[u8]) -> bool
    ensures { result ≡ is_among labels word.now }
{
    is_among(&LABELS, word)
}

/// Whether a label begins so.
fn is_label_front(front: &[u8]) -> bool
    ensures { result ≡ is_front_among labels front.now }
{
    is_front_among(&LABELS, front)
}

/// Whether the word is a preterminal's name.
pub fn is_kind(word: &[u8]) -> bool
    ensures { result ≡ is_among kinds word.now }
{
    is_among(&KINDS, word)
}

/// Whether a preterminal's name begins so.
fn is_kind_front(front: &[u8]) -> bool
    ensures { result ≡ is_front_among kinds front.now }
{
    is_front_among(&KINDS, front)
}

/// Whether the bytes are a name: a lower-case letter, then letters, digits and `_`, but no keyword.
pub fn is_identifier(word: &[u8]) -> bool
    ensures { result ≡ is_identifier word.now }
{
    match word {
        [] => false,
        [first, rest @ ..] => {
            is_lower(*first)
                && are_word_bytes(rest)
                && !(same_bytes(word, b"feature")
                    || same_bytes(word, b"word")
                    || same_bytes(word, b"position"))
        }
    }
}

/// Whether the bytes are a variable: an upper-case letter, then letters, digits and `_`.
pub fn is_variable(word: &[u8]) -> bool
    ensures { result ≡ is_variable word.now }
{
    match word {
        [] => false,
        [first, rest @ ..] => is_upper(*first) && are_word_bytes(rest),
    }
}

/// Whether the bytes are those of a terminal: one or more, without white space and brackets, and of more than one the
/// last neither `.` nor `?`.
pub fn is_terminal(bytes: &[u8]) -> bool
    ensures { result ≡ is_terminal bytes.now }
{
    match bytes {
        [] => false,
        [only] => is_terminal_byte(*only),
        [first, rest @ ..] => {
            is_terminal_byte(*first) && are_terminal_bytes(rest) && ends_well(rest)
        }
    }
}

fn are_terminal_bytes(bytes: &[u8]) -> bool
    ensures { result ≡ list_all is_terminal_byte bytes.now }
{
    bytes.iter().all(|byte| is_terminal_byte(*byte))
}

/// Whether the last byte is neither `.` nor `?`.
fn ends_well(bytes: &[u8]) -> bool
    ensures { result ≡ ends_well bytes.now }
{
    match bytes {
        [] => true,
        [.., last] => !is_end_mark(*last),
    }
}

/// Whether the byte is `.` or `?`.
fn is_end_mark(byte: u8) -> bool
    ensures { result ≡ ((byte == 46) || (byte == 63)) }
{
    byte == b'.' || byte == b'?'
}

/// Whether a wanted word may begin with the byte.
pub fn may_begin(wanted: Wanted, byte: u8) -> bool
    ensures { result ≡ may_begin wanted byte }
{
    match wanted {
        Wanted::Nothing => false,
        Wanted::Item => is_lower(byte),
        Wanted::Identifier => is_lower(byte),
        Wanted::Value => is_lower(byte),
        Wanted::Label => is_label_front(&[byte]),
        Wanted::Kind => is_kind_front(&[byte]),
        Wanted::Variable => is_upper(byte),
        Wanted::Term => is_upper(byte) || is_lower(byte),
    }
}

/// Whether a wanted word may begin with this word, whose last byte is one of words and stands behind what may begin one.
pub fn may_go_on(wanted: Wanted, word: &[u8]) -> bool
    ensures { result ≡ may_go_on wanted word.now }
{
    match wanted {
        Wanted::Label => is_label_front(word),
        Wanted::Kind => is_kind_front(word),
        _ => true,
    }
}
