// What a feature may be: a value, or a variable that stands for one.
ghost use Rattle.std.specs.Prelude.{◌≡◌};

use wiki_base::{Copied, Memory, WordId};

/// A value of a feature: an atom by its number, a word, or a position (a number of tokens).
#[derive(Clone, Copy, Debug, PartialEq, Eq)]
pub enum Value {
    Atom(u16),
    Word(WordId),
    Pos(u16),
}

impl Value {
    ghost use Rattle.codeco_terms.specs.Values.{same_value};

    /// Whether the two are the same value.
    pub fn is(self, other: Value) -> bool
        ensures { result ≡ same_value self other }
    {
        match (self, other) {
            (Value::Atom(atom), Value::Atom(other)) => atom == other,
            (Value::Word(word), Value::Word(other)) => word.0 == other.0,
            (Value::Pos(pos), Value::Pos(other)) => pos == other,
            _ => false,
        }
    }
}

/// What is written for a feature: a value, or a variable of the rule by its number.
#[derive(Clone, Copy, Debug, PartialEq, Eq)]
pub enum Term {
    Val(Value),
    Var(u8),
}

impl Copied for Value {
    fn copy(&self) -> Result<Value, Memory> {
        Ok(*self)
    }
}

impl Copied for Term {
    fn copy(&self) -> Result<Term, Memory> {
        Ok(*self)
    }
}
