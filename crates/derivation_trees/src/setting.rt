// The grammar, the tokens and their readings, and what matches there.
ghost use Rattle.std.specs.Prelude.{◌≡◌, ◌+◌, if◌then◌else◌, Some, None};
ghost use Rattle.std.specs.List.{list_any};
ghost use Rattle.std.specs.Str.{bytes_eq};
ghost use Rattle.codeco_terms.specs.declared.categories.Ground.{Ground};
ghost use Rattle.scopes.specs.Resolution as resolution;
ghost use Rattle.codeco_checked.specs.Numbering.{has};
ghost use Rattle.derivation_trees.specs.Settings as settings;

use codeco_terms::{Declared, Grammar, Ground, Value};
use lexicon::Readings;
use scopes::{Test, agrees, has_value};
use std::marker::Model;
use wiki_base::Token;

/// The feature of preterminals that holds the word.
const WORD_FEATURE: u16 = 3;

/// What a derivation is of: a grammar, tokens, and the readings of each token by a lexicon. There are at most 41 tokens, one
/// more than a sentence has, since a menu tries each token behind the others.
#[derive(Drop)]
pub struct Setting<'a> {
    pub grammar: &'a Grammar,
    pub tokens: &'a [Token],
    pub readings: &'a [Readings],
}

impl<'a> Model for Setting<'a> {
    ghost use Rattle.derivation_trees.specs.Settings as settings;

    ghost Value = { settings.Setting };

    ghost view = { λ a. record { grammar = a.grammar.now; tokens = a.tokens.now; readings = a.readings.now } };

    ghost use Rattle.std.specs.Prelude.{◌≡◌, ◌≤◌, ◌+◌, length};
    ghost use Rattle.wiki_base.specs.declared.tokens.TheConstants.{MOST_TOKENS};

    ghost invariant = { λ a. (length a.tokens.now ≤ MOST_TOKENS + 1) × (length a.readings.now ≡ length a.tokens.now) };
}

impl Setting<'_> {
    /// The place after a token that is the terminal.
    pub fn after_terminal(&self, terminal: u16, place: u16) -> Option<u16>
        ensures { result ≡ (if settings.matches_terminal self.now terminal place then Some (place + 1) else None) }
    {
        if (place as usize) < self.tokens.len() && self.matches_terminal(terminal, place as usize) {
            Some(place + 1)
        } else {
            None
        }
    }

    /// The place after a token that reads as the category.
    pub fn after_preterminal(&self, asked: &Test, place: u16) -> Option<u16>
        ensures { result ≡ (if settings.matches_preterminal self.now asked.now place then Some (place + 1) else None) }
    {
        if (place as usize) < self.readings.len()
            && self.matches_preterminal(asked, place as usize)
        {
            Some(place + 1)
        } else {
            None
        }
    }

    // Whether the token at the place is the terminal with the number.
    pub(crate) fn matches_terminal(&self, terminal: u16, place: usize) -> bool
        ensures { result ≡ settings.matches_terminal self.now terminal place }
    {
        let Some(token) = self.tokens.get(place) else {
            return false;
        };
        let Some(symbol) = self.grammar.terminals().as_slice().get(terminal as usize) else {
            return false;
        };
        same_bytes(token.as_str().as_bytes(), symbol.as_bytes())
    }

    // Whether the token at the place has a reading with the name and the values that are asked for.
    fn matches_preterminal(&self, asked: &Test, place: usize) -> bool
        ensures { result ≡ settings.matches_preterminal self.now asked.now place }
    {
        let Some(readings) = self.readings.get(place) else {
            return false;
        };
        some_agrees(readings.as_slice(), asked)
    }

    // Whether the word has a form among the tokens.
    fn has_word(&self, word: Value) -> bool
        ensures { result ≡ settings.has_word self.now word }
    {
        some_have_word(self.readings, word)
    }

    /// Whether the value is one of those that are declared.
    pub fn is_value(&self, declared: &Declared, value: Value) -> bool
        ensures { result ≡ settings.is_value self.now declared.now value }
    {
        match declared {
            Declared::Undeclared => false,
            Declared::Words => match value {
                Value::Word(word) => word.0 == 0 || self.has_word(value),
                _ => false,
            },
            Declared::Positions => match value {
                Value::Pos(pos) => pos as usize <= self.tokens.len(),
                _ => false,
            },
            Declared::Atoms(atoms) => match value {
                Value::Atom(atom) => has_number(atoms.as_slice(), atom),
                _ => false,
            },
        }
    }

    /// Whether the value is one of the feature with the number.
    pub fn fits_feature(&self, feature: u16, value: Value) -> bool
        ensures { result ≡ settings.fits_feature self.now feature value }
    {
        match self.grammar.features().as_slice().get(feature as usize) {
            None => false,
            Some(feature) => self.is_value(&feature.declared, value),
        }
    }
}

// Whether the number is among these.
pub(crate) fn has_number(numbers: &[u16], number: u16) -> bool
    ensures { result ≡ has numbers.now number }
{
    numbers.iter().any(|other| number == *other)
}

fn same_bytes(bytes: &[u8], other: &[u8]) -> bool
    ensures { result ≡ bytes_eq bytes.now other.now }
{
    bytes == other
}

fn some_agrees(readings: &[Ground], asked: &Test) -> bool
    ensures { result ≡ list_any (λ reading. resolution.agrees reading asked.now) readings.now }
{
    readings.iter().any(|reading| agrees(reading, asked))
}

fn some_have_word(readings: &[Readings], word: Value) -> bool
    ensures { result
        ≡ list_any (λ one. list_any (λ reading. resolution.has_value reading.vals (3, word)) one) readings.now }
{
    readings
        .iter()
        .any(|one| some_has_word(one.as_slice(), word))
}

fn some_has_word(readings: &[Ground], word: Value) -> bool
    ensures { result ≡ list_any (λ reading. resolution.has_value reading.vals (3, word)) readings.now }
{
    readings.iter().any(|reading| has_value(reading.vals.as_slice(), (WORD_FEATURE, word)))
}
