// The features of a category, by feature number, and the features of a pattern that take a value.
ghost use Rattle.std.specs.Prelude.{◌≡◌, ◌+◌, ◌<◌, ◌≤◌, ◌↔◌, ℕ, List, [], ◌∷◌, ◌++◌, length, slice_get, take, Some, IsTrue};

use crate::{Term, Value};
use std::marker::Model;
use wiki_base::{List, Memory};

/// The features of a category as written: each with its number and what stands for it, in order of number.
pub type Feats = List<(u16, Term)>;

/// The marked features of a pattern: each with the variable that takes its value from the referent found.
pub type Takes = List<(u16, u8)>;

/// The most values that a ground category holds.
pub const MOST_VALUES: usize = 16;

/// The values of a ground category: each with the number of its feature, in order of number. There are at most
/// sixteen, held in the list itself, so that no call takes memory.
#[derive(Drop)]
pub struct Vals {
    pairs: [(u16, Value); MOST_VALUES],
    count: usize,
}

impl Model for Vals {
    ghost use Rattle.std.specs.Prelude.{◌≡◌, ◌≤◌, List, ℕ, length, take};
    ghost use Rattle.codeco_terms.specs.declared.values.Value.{Value as OneValue};

    ghost Value = { List (ℕ × OneValue) };

    ghost view = { λ a. take a.count a.pairs };

    ghost invariant = { λ a. (a.count ≤ 16) × (length a.pairs ≡ 16) };
}

impl Vals {
    /// No values.
    pub fn new() -> Self
        ensures { result ≡ [] }
    {
        Vals {
            pairs: [(0, Value::Atom(0)); MOST_VALUES],
            count: 0,
        }
    }

    /// How many values there are, at most sixteen.
    pub fn len(&self) -> usize
        ensures len { result ≡ length self.now }
        ensures most { length self.now ≤ 16 }
    {
        self.count
    }

    /// Whether there is none.
    pub fn is_empty(&self) -> bool
        ensures { IsTrue result ↔ (self.now ≡ []) }
    {
        self.as_slice().is_empty()
    }

    /// The feature and the value at a place below the length.
    pub fn get(&self, place: usize) -> (u16, Value)
        requires { place < length self.now }
        ensures { slice_get self.now place ≡ Some result }
    {
        self.as_slice()[place]
    }

    /// All of them, in order.
    pub fn as_slice(&self) -> &[(u16, Value)]
        ensures { result.now ≡ self.now }
    {
        &self.pairs[..self.count]
    }

    /// Adds a feature with its value at the end.
    pub fn push(&mut self, feature: u16, value: Value)
        requires { length self.old < 16 }
        ensures { self.new ≡ self.old ++ (feature, value) ∷ [] }
    {
        self.pairs[self.count] = (feature, value);
        self.count += 1;
    }

    /// An equal list.
    pub fn copy(&self) -> Self
        ensures { result ≡ self.now }
    {
        Vals {
            pairs: self.pairs,
            count: self.count,
        }
    }
}
