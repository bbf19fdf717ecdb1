// Texts of words: letters, and hyphens between letters.
ghost use Rattle.std.specs.Prelude.{◌≡◌, ◌≢◌, ◌⊎◌, ◌<◌, ◌≤◌, ℕ, [], false, Some, IfOk, OnOk, IsErrOf, MatchResult, length};
ghost use Rattle.std.specs.Str.{chars};
ghost use Rattle.wiki_base.specs.Text.{fault_of, misplaced, begins_with_letter, is_in_place, IsText, AllInPlace, IsFirstMisplaced};
ghost use Rattle.wiki_base.specs.declared.text.BadText.TheVariants.{Memory};

use lists::{Copied, Memory};
use std::alloc::{AllocError, Global};
use std::marker::Model;
use unicode::properties::is_alphabetic;

/// The greatest number of bytes of a text.
pub const LONGEST_TEXT: usize = 64;

/// Why some bytes are no text.
#[derive(Clone, Copy, Debug, PartialEq, Eq)]
pub enum BadText {
    /// There are none.
    Empty,
    /// There are over 64.
    TooLong,
    /// The first character that is neither a letter nor a hyphen between two letters begins after this many bytes, 0 to 63.
    Letter(u32),
    Memory,
}

impl From<AllocError> for BadText {
    ghost from_gives = { λ _ e. e ≡ Memory };

    fn from(_: AllocError) -> Self {
        BadText::Memory
    }
}

/// A form of a word: 1 to 64 bytes of letters, which are the characters with the property Alphabetic of Unicode, and
/// of hyphens that stand between two letters. Seen as its bytes.
#[derive(Drop)]
pub struct Text {
    text: String,
}

impl Model for Text {
    ghost use Rattle.std.specs.Prelude.{List, ℕ};
    ghost use Rattle.std.specs.String.{string_bytes};
    ghost use Rattle.wiki_base.specs.Text.{IsText};

    ghost Value = { List ℕ };

    ghost view = { λ t. string_bytes t.text };

    ghost invariant = { λ t. IsText (string_bytes t.text) };
}

impl Text {
    /// Reads a text. The faults are tested in the order of `BadText`.
    pub fn read(alloc: Global, s: &str) -> Result<Text, BadText>
        ensures ok { IfOk result (λ text. text ≡ s.now) }
        ensures cause { MatchResult result (λ _. IsText s.now) (λ fault. (fault ≡ BadText.Memory) ⊎ (fault_of s.now ≡ Some fault)) }

        // What the fault says, in other words.
        ensures accepted { OnOk result ((s.now ≢ []) × (length s.now ≤ LONGEST_TEXT) × AllInPlace (chars s.now)) }
        ensures empty { IsErrOf result BadText.Empty → s.now ≡ [] }
        ensures too_long { IsErrOf result BadText.TooLong → LONGEST_TEXT < length s.now }
        ensures letter { (place : ℕ) → IsErrOf result (BadText.Letter place) → IsFirstMisplaced (chars s.now) place }
    {
        if s.is_empty() {
            return Err(BadText::Empty);
        }
        if s.len() > LONGEST_TEXT {
            return Err(BadText::TooLong);
        }
        match first_misplaced(s) {
            Some(place) => Err(BadText::Letter(place)),
            None => Ok(Text {
                text: String::from_str(alloc, s)?,
            }),
        }
    }

    pub fn as_str(&self) -> &str
        ensures value { result.now ≡ self.now }
        ensures text { IsText self.now }
    {
        self.text.as_str()
    }
}

impl Copied for Text {
    fn copy(&self) -> Result<Self, Memory> {
        Ok(Text {
            text: self.text.clone()?,
        })
    }
}

fn begins_with_letter(s: &str) -> bool
    ensures { result ≡ begins_with_letter (chars s.now) }
{
    s.chars().next().is_some_and(|c| is_alphabetic(c))
}

fn is_in_place(after_letter: bool, c: char, rest: &str) -> bool
    ensures { result ≡ is_in_place after_letter c (chars rest.now) }
{
    is_alphabetic(c) || (c == '-' && (after_letter && begins_with_letter(rest)))
}

// How many bytes stand in front of the first misplaced character.
fn first_misplaced(s: &str) -> Option<u32>
    requires { length s.now ≤ LONGEST_TEXT }
    ensures { result ≡ misplaced false (chars s.now) }
{
    let mut after_letter = false;
    let mut place = 0;
    let mut chars = s.chars();
    while let Some(c) = chars.next() {
        if !is_in_place(after_letter, c, chars.as_str()) {
            return Some(place);
        }
        after_letter = is_alphabetic(c);
        place += c.len_utf8() as u32;
    }
    None
}
