// How words end, and other endings for them.
ghost use Rattle.std.specs.Prelude.{◌≡◌, ◌<◌, ◌≤◌, ◌++◌, length, IfOk, IfErr, OnOk, Some, None, if◌then◌else◌, option_copied, string_bytes};
ghost use Rattle.wiki_base.specs.Text.{IsText};
ghost use Rattle.lexicon.specs.Suggest.{ends_in, ends_in_sibilant, is_consonant, ends_in_consonant, stem, changes_y, with_s, with_d, too_long, IsFormRefusal};
ghost use Rattle.wiki_base.specs.declared.text.TheConstants.{LONGEST_TEXT};

use crate::suggest::FormFault;
use std::alloc::{AllocError, Global};
use wiki_base::{BadText, Text};

// The suggested plural of a noun, and third person of a verb.
pub(crate) fn with_s(alloc: Global, word: &Text) -> Result<Text, FormFault>
    ensures text { IfOk result (λ text. text ≡ with_s word.now) }
    ensures fits { OnOk result (too_long (with_s word.now) ≡ None) }
    ensures refused { IfErr result (IsFormRefusal (too_long (with_s word.now))) }
{
    let text = word.as_str();
    if ends_in_sibilant(text) {
        return extended(alloc, text, "es");
    }
    match before_y(text) {
        Some(stem) => extended(alloc, stem, "ies"),
        None => extended(alloc, text, "s"),
    }
}

// The suggested past participle of a verb.
pub(crate) fn with_d(alloc: Global, word: &Text) -> Result<Text, FormFault>
    ensures text { IfOk result (λ text. text ≡ with_d word.now) }
    ensures fits { OnOk result (too_long (with_d word.now) ≡ None) }
    ensures refused { IfErr result (IsFormRefusal (too_long (with_d word.now))) }
{
    let text = word.as_str();
    if ends_in(text, "e") {
        return extended(alloc, text, "d");
    }
    match before_y(text) {
        Some(stem) => extended(alloc, stem, "ied"),
        None => extended(alloc, text, "ed"),
    }
}

// The text of these two parts.
fn extended(alloc: Global, front: &str, ending: &str) -> Result<Text, FormFault>
    requires some { 0 < length (front.now ++ ending.now) }
    requires letters { length (front.now ++ ending.now) ≤ LONGEST_TEXT → IsText (front.now ++ ending.now) }
    ensures text { IfOk result (λ text. text ≡ front.now ++ ending.now) }
    ensures fits { OnOk result (too_long (front.now ++ ending.now) ≡ None) }
    ensures refused { IfErr result (IsFormRefusal (too_long (front.now ++ ending.now))) }
{
    let joined = joined(alloc, front, ending)?;
    match Text::read(alloc, joined.as_str()) {
        Ok(text) => Ok(text),
        Err(BadText::TooLong) => Err(FormFault::TooLong(1)),
        Err(BadText::Memory) => Err(FormFault::Memory),
        Err(BadText::Empty) => unreachable!(),
        Err(BadText::Letter(_)) => unreachable!(),
    }
}

fn joined(alloc: Global, front: &str, ending: &str) -> Result<String, AllocError>
    ensures { IfOk result (λ text. string_bytes text ≡ front.now ++ ending.now) }
{
    let mut text = String::from_str(alloc, front)?;
    text.push_str(ending)?;
    Ok(text)
}

// What stands before the `y` in which the text ends, if that comes after a letter other than a, e, i, o, u.
fn before_y(text: &str) -> Option<&str>
    ensures { option_copied result ≡ (if changes_y text.now then Some (stem text.now) else None) }
{
    if !ends_in(text, "y") {
        return None;
    }
    let stem = &text[..text.len() - 1];
    if ends_in_consonant(stem.as_bytes()) {
        Some(stem)
    } else {
        None
    }
}

fn ends_in_sibilant(text: &str) -> bool
    ensures { result ≡ ends_in_sibilant text.now }
{
    ends_in(text, "s")
        || ends_in(text, "x")
        || ends_in(text, "z")
        || ends_in(text, "ch")
        || ends_in(text, "sh")
}

fn ends_in(text: &str, ending: &str) -> bool
    ensures { result ≡ ends_in text.now ending.now }
{
    text.ends_with(ending)
}

fn ends_in_consonant(text: &[u8]) -> bool
    ensures { result ≡ ends_in_consonant text.now }
{
    match text.last() {
        Some(last) => is_consonant(*last),
        None => false,
    }
}

fn is_consonant(letter: u8) -> bool
    ensures { result ≡ is_consonant letter }
{
    !b"aeiou-".contains(&letter)
}
