// The forms that are tried for an entity.
ghost use Rattle.std.specs.Prelude.{◌≡◌, ◌≤◌, ◌++◌, length, map, min, IfOk};
ghost use Rattle.wiki_base.specs.declared.text.TheConstants.{LONGEST_TEXT};
ghost use Rattle.owl_words.specs.Bases.{respelled};
ghost use Rattle.owl_words.specs.Attempts.{suffix, suggested, fitting, longest, attempted};

use crate::bases::{respelled, text_of};
use lexicon::{FormFault, Forms, Kind, forms};
use std::alloc::{AllocError, Global};
use wiki_base::{LONGEST_TEXT, Memory, Text};

/// The forms at an attempt, of which the first is 0, if some fit.
pub(crate) fn attempted(
    alloc: Global,
    kind: Kind,
    base: &[char],
    attempt: u32,
) -> Result<Option<Forms>, Memory>
    ensures { IfOk result (λ made. made ≡ attempted kind base.now attempt) }
{
    if attempt == 0 {
        return fitting(alloc, kind, base);
    }
    let ending = suffix(alloc, attempt)?;
    longest(alloc, kind, base, &ending, most_kept(base.len()))
}

// How many characters of so many a text can have at most.
fn most_kept(count: usize) -> usize
    ensures { result ≡ min count LONGEST_TEXT }
{
    count.min(LONGEST_TEXT)
}

// The forms from the longest front of the base, of so many characters at most, that fit with an ending.
fn longest(
    alloc: Global,
    kind: Kind,
    base: &[char],
    ending: &[char],
    most: usize,
) -> Result<Option<Forms>, Memory>
    requires { most ≤ length base.now }
    ensures { IfOk result (λ made. made ≡ longest kind base.now ending.now most) }
{
    let mut count = most;
    while count > 0 {
        match fitting_with(alloc, kind, &base[..count], ending)? {
            Some(forms) => return Ok(Some(forms)),
            None => count -= 1,
        }
    }
    Ok(None)
}

// The forms from these characters and an ending, where they fit.
fn fitting_with(
    alloc: Global,
    kind: Kind,
    front: &[char],
    ending: &[char],
) -> Result<Option<Forms>, Memory>
    ensures { IfOk result (λ made. made ≡ fitting kind (front.now ++ ending.now)) }
{
    let mut joined = Vec::from_slice(alloc, front)?;
    joined.extend_from_slice(ending)?;
    fitting(alloc, kind, &joined)
}

// The forms of a word of the kind from these characters, where they fit.
fn fitting(alloc: Global, kind: Kind, cs: &[char]) -> Result<Option<Forms>, Memory>
    ensures { IfOk result (λ made. made ≡ fitting kind cs.now) }
{
    match text_of(alloc, cs)? {
        Some(text) => suggested(alloc, kind, text),
        None => Ok(None),
    }
}

// The forms of a word of the kind that are suggested for a text.
fn suggested(alloc: Global, kind: Kind, text: Text) -> Result<Option<Forms>, Memory>
    ensures { IfOk result (λ made. made ≡ suggested kind text) }
{
    match forms(alloc, kind, &[text]) {
        Ok(made) => Ok(Some(made)),
        Err(FormFault::Memory) => Err(Memory),
        Err(_) => Ok(None),
    }
}

// What stands behind the base at an attempt after the first.
fn suffix(alloc: Global, attempt: u32) -> Result<Vec<char>, AllocError>
    ensures { IfOk result (λ made. made.items ≡ suffix attempt) }
{
    let mut made = Vec::new(alloc);
    if attempt == 0 {
        return Ok(made);
    }
    made.push('-')?;
    let number = format!(in alloc; "{}", u64::from(attempt) + 1)?;
    let letters = letters(alloc, number.as_bytes())?;
    made.extend_from_slice(&letters)?;
    Ok(made)
}

// The letters of digits.
fn letters(alloc: Global, digits: &[u8]) -> Result<Vec<char>, AllocError>
    ensures { IfOk result (λ made. made.items ≡ map respelled digits.now) }
{
    let mut made = Vec::new(alloc);
    for digit in digits {
        made.push(respelled(char::from(*digit)))?;
    }
    Ok(made)
}
