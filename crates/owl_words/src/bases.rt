// What an entity is called after its IRI.
ghost use Rattle.std.specs.Prelude.{◌≡◌, false, map, IfOk, string_bytes};
ghost use Rattle.std.specs.Str.{chars, encode_utf8_all};
ghost use Rattle.std.specs.Str.Lossy.{utf8_lossy};
ghost use Rattle.owl_words.specs.Bases.{is_separator, last_part, parted, respelled, tidied, kind_text, made_text, text_in, base_of_part, base};

use lexicon::Kind;
use std::alloc::{AllocError, Global};
use unicode::properties::{is_alphabetic, is_lowercase, is_uppercase};
use wiki_base::{BadText, Memory, Text};

/// What an entity of the IRI is called, as a word of the kind.
pub(crate) fn base(alloc: Global, kind: Kind, iri: &[u8]) -> Result<Vec<char>, Memory>
    ensures { IfOk result (λ made. made.items ≡ base kind iri.now) }
{
    let text = String::from_utf8_lossy(alloc, iri)?;
    let cs = chars_of(alloc, text.as_str())?;
    let part = last_part(alloc, &cs)?;
    base_of_part(alloc, kind, part)
}

// The characters of a text.
fn chars_of(alloc: Global, text: &str) -> Result<Vec<char>, AllocError>
    ensures { IfOk result (λ cs. cs.items ≡ chars text.now) }
{
    text.chars().collect(alloc)
}

// What follows the last separator of an IRI.
fn last_part(alloc: Global, cs: &[char]) -> Result<Vec<char>, AllocError>
    ensures { IfOk result (λ part. part.items ≡ last_part cs.now) }
{
    let mut part = Vec::new(alloc);
    for c in cs {
        if is_separator(*c) {
            part.clear();
            continue;
        }
        part.push(*c)?;
    }
    Ok(part)
}

fn is_separator(c: char) -> bool
    ensures { result ≡ is_separator c }
{
    c == '#' || c == '/' || c == ':'
}

fn base_of_part(alloc: Global, kind: Kind, part: Vec<char>) -> Result<Vec<char>, Memory>
    ensures { IfOk result (λ made. made.items ≡ base_of_part kind part.items) }
{
    match text_of(alloc, &part)? {
        Some(_) => Ok(part),
        None => Ok(made_text(alloc, kind, &part)?),
    }
}

// The text of these characters, if they are one.
pub(crate) fn text_of(alloc: Global, cs: &[char]) -> Result<Option<Text>, Memory>
    ensures { IfOk result (λ text. text ≡ text_in cs.now) }
{
    let spelled = spelled(alloc, cs)?;
    match Text::read(alloc, spelled.as_str()) {
        Ok(text) => Ok(Some(text)),
        Err(BadText::Memory) => Err(Memory),
        Err(_) => Ok(None),
    }
}

/// The characters as a string.
pub(crate) fn spelled(alloc: Global, cs: &[char]) -> Result<String, AllocError>
    ensures { IfOk result (λ text. string_bytes text ≡ encode_utf8_all cs.now) }
{
    let mut text = String::new(alloc);
    for c in cs {
        text.push(*c)?;
    }
    Ok(text)
}

fn made_text(alloc: Global, kind: Kind, part: &[char]) -> Result<Vec<char>, AllocError>
    ensures { IfOk result (λ made. made.items ≡ made_text kind part.now) }
{
    let parted = parted(alloc, part)?;
    let made = tidied(alloc, &parted)?;
    if made.is_empty() {
        chars_of(alloc, kind_text(kind))
    } else {
        Ok(made)
    }
}

// The characters with a hyphen where a small letter meets a capital.
fn parted(alloc: Global, part: &[char]) -> Result<Vec<char>, AllocError>
    ensures { IfOk result (λ made. made.items ≡ parted false part.now) }
{
    let mut made = Vec::new(alloc);
    let mut after_small = false;
    for c in part {
        if after_small && is_uppercase(*c) {
            made.push('-')?;
        }
        made.push(*c)?;
        after_small = is_lowercase(*c);
    }
    Ok(made)
}

/// A letter, or the letter of a digit; and a hyphen for another character.
pub(crate) fn respelled(c: char) -> char
    ensures { result ≡ respelled c }
{
    if is_alphabetic(c) {
        return c;
    }
    if c >= '0' && c <= '9' {
        char::from(c as u8 + 49)
    } else {
        '-'
    }
}

// The characters respelled, with single hyphens between letters alone.
fn tidied(alloc: Global, cs: &[char]) -> Result<Vec<char>, AllocError>
    ensures { IfOk result (λ made. made.items ≡ tidied false (map respelled cs.now)) }
{
    let mut made = Vec::new(alloc);
    let mut begun = false;
    let mut due = false;
    for c in cs {
        let c = respelled(*c);
        if c == '-' {
            due = true;
            continue;
        }
        if begun && due {
            made.push('-')?;
        }
        made.push(c)?;
        begun = true;
        due = false;
    }
    Ok(made)
}

fn kind_text(kind: Kind) -> &'static str
    ensures { result.now ≡ kind_text kind }
{
    match kind {
        Kind::Noun => "class",
        Kind::Name => "individual",
        Kind::Of | Kind::Verb | Kind::Adjective => "property",
    }
}
