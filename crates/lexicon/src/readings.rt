// What a form of a word is to a grammar.
ghost use Rattle.std.specs.Prelude.{◌≡◌, ◌+◌, ◌<◌, ◌≤◌, ◌↔◌, [], ◌∷◌, ◌++◌, length, IsTrue, slice_get, Some};
ghost use Rattle.lexicon.specs.Kinds.{IsComplete};
ghost use Rattle.lexicon.specs.Readings.{is_vowel, begins_with_vowel, vow_of, number_at, form_at, reading, readings_of_word};

use crate::kinds::Kind;
use crate::words::Word;
use codeco_terms::{Ground, Vals, Value};
use std::marker::Model;
use wiki_base::WordId;

// The features and the categories that every grammar has, by number.
const NUM: u16 = 0;

const VOW: u16 = 1;

const FORM: u16 = 2;

const W: u16 = 3;

const NAME: u16 = 0;

const NOUN: u16 = 1;

const OF: u16 = 2;

const VERB: u16 = 3;

const ADJECTIVE: u16 = 4;

/// The most readings that a form has: one for each form of a verb.
pub const MOST_READINGS: usize = 3;

/// The readings of a form: preterminals with values of their features. There are at most three, held in the list
/// itself, so that no call takes memory.
#[derive(Drop)]
pub struct Readings {
    grounds: [Ground; MOST_READINGS],
    count: usize,
}

impl Model for Readings {
    ghost use Rattle.std.specs.Prelude.{◌≡◌, ◌≤◌, List, length, take};
    ghost use Rattle.codeco_terms.specs.declared.categories.Ground.{Ground};

    ghost Value = { List Ground };

    ghost view = { λ r. take r.count r.grounds };

    ghost invariant = { λ r. (r.count ≤ 3) × (length r.grounds ≡ 3) };
}

impl Readings {
    /// No readings.
    pub fn none() -> Self
        ensures { result ≡ [] }
    {
        Readings {
            grounds: [ground(0, &[]), ground(0, &[]), ground(0, &[])],
            count: 0,
        }
    }

    /// How many readings there are, at most three.
    pub fn len(&self) -> usize
        ensures len { result ≡ length self.now }
        ensures most { length self.now ≤ 3 }
    {
        self.count
    }

    /// Whether there is none.
    pub fn is_empty(&self) -> bool
        ensures { IsTrue result ↔ (self.now ≡ []) }
    {
        self.as_slice().is_empty()
    }

    /// The reading at a place, from 0.
    pub fn get(&self, place: usize) -> &Ground
        requires { place < length self.now }
        ensures { slice_get self.now place ≡ Some result.now }
    {
        &self.as_slice()[place]
    }

    /// All of them, in order.
    pub fn as_slice(&self) -> &[Ground]
        ensures { result.now ≡ self.now }
    {
        &self.grounds[..self.count]
    }

    // Adds a reading at the end.
    fn push(&mut self, reading: Ground)
        requires { length self.old < 3 }
        ensures { self.new ≡ self.old ++ reading ∷ [] }
    {
        self.grounds[self.count] = reading;
        self.count += 1;
    }
}

// The readings of the token as a form of the word.
pub(crate) fn readings_of_word(word: &Word, token: &str) -> Readings
    requires { IsComplete word.now.forms }
    ensures { result ≡ readings_of_word token.now word.now }
{
    let mut readings = Readings::none();
    for (place, form) in word.forms.texts.as_slice().iter().enumerate() {
        if token == form.as_str() {
            readings.push(reading(word.forms.kind, word.id, place, form.as_str()));
        }
    }
    readings
}

fn reading(kind: Kind, id: WordId, place: usize, form: &str) -> Ground
    ensures { result ≡ reading kind id place form.now }
{
    let word = Value::Word(id);
    match kind {
        Kind::Name => ground(NAME, &[(W, word)]),
        Kind::Noun => ground(
            NOUN,
            &[(NUM, number_at(place)), (VOW, vow_of(form)), (W, word)],
        ),
        Kind::Of => ground(OF, &[(VOW, vow_of(form)), (W, word)]),
        Kind::Verb => ground(VERB, &[(FORM, form_at(place)), (W, word)]),
        Kind::Adjective => ground(ADJECTIVE, &[(W, word)]),
    }
}

// A ground category of this name and these values.
fn ground(name: u16, pairs: &[(u16, Value)]) -> Ground
    requires { length pairs.now ≤ 3 }
    ensures name { result.name ≡ name }
    ensures vals { result.vals ≡ pairs.now }
{
    let mut vals = Vals::new();
    for (feature, value) in pairs {
        vals.push(*feature, *value);
    }
    Ground { name, vals }
}

fn number_at(place: usize) -> Value
    ensures { result ≡ number_at place }
{
    if place == 0 {
        Value::Atom(0)
    } else {
        Value::Atom(1)
    }
}

fn form_at(place: usize) -> Value
    ensures { result ≡ form_at place }
{
    match place {
        0 => Value::Atom(4),
        1 => Value::Atom(5),
        _ => Value::Atom(6),
    }
}

fn vow_of(form: &str) -> Value
    ensures { result ≡ vow_of form.now }
{
    if begins_with_vowel(form.as_bytes()) {
        Value::Atom(2)
    } else {
        Value::Atom(3)
    }
}

fn begins_with_vowel(form: &[u8]) -> bool
    ensures { result ≡ begins_with_vowel form.now }
{
    match form {
        [] => false,
        [first, ..] => is_vowel(*first),
    }
}

fn is_vowel(letter: u8) -> bool
    ensures { result ≡ is_vowel letter }
{
    b"aeiouAEIOU".contains(&letter)
}
