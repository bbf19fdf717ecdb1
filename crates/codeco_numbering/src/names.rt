// Tables of names, each name with its number.
ghost use Rattle.std.specs.Prelude.{◌≡◌, ◌≤◌, List, [], ◌∷◌, ◌++◌, length, IfOk, OnOk};
ghost use Rattle.codeco_text.specs.Names.{same_bytes};
ghost use Rattle.codeco_text.specs.Notation.{kinds};
ghost use Rattle.codeco_numbering.specs.Numbered.{gathered, number_of};

use codeco_terms::{Symbol, Symbols};
use indexmap::IndexSet;
use std::alloc::Global;
use std::marker::Model;
use wiki_base::Memory;

/// Different names in the order of their numbers, from 0.
#[derive(Drop)]
pub struct Names {
    set: IndexSet<Vec<u8>>,
}

impl Model for Names {
    ghost use Rattle.std.specs.Prelude.{List, ℕ, map};

    ghost Value = { List (List ℕ) };

    ghost view = { λ a. map (λ v. v.items) a.set.keys };
}

/// Whether two names have the same bytes.
pub fn same_bytes(left: &[u8], right: &[u8]) -> bool
    ensures { result ≡ same_bytes left.now right.now }
{
    left == right
}

/// The number of a preterminal's name.
pub fn kind_number(name: &[u8]) -> u16
    ensures { result ≡ number_of kinds name.now }
{
    if same_bytes(name, b"name") {
        0
    } else if same_bytes(name, b"noun") {
        1
    } else if same_bytes(name, b"of") {
        2
    } else if same_bytes(name, b"verb") {
        3
    } else if same_bytes(name, b"adj") {
        4
    } else {
        5
    }
}

impl Names {
    /// No names.
    pub fn new(alloc: Global) -> Names
        ensures { result ≡ [] }
    {
        Names {
            set: IndexSet::new(alloc),
        }
    }

    /// Gives the name the next number, unless it has one.
    pub fn add(&mut self, alloc: Global, name: &[u8]) -> Result<(), Memory>
        ensures { OnOk result (self.new ≡ gathered self.old (name.now ∷ [])) }
    {
        if !self.set.contains(name) {
            self.set.insert(Vec::from_slice(alloc, name)?)?;
        }
        Ok(())
    }

    /// The number of the name: how many names there are, where it isn't among them.
    pub fn number_of(&self, name: &[u8]) -> usize
        ensures number { result ≡ number_of self.now name.now }
        ensures most { result ≤ length self.now }
    {
        self.set.get_index_of(name).unwrap_or(self.set.len())
    }

    /// The names as symbols, in order of number, behind others.
    pub fn symbols_behind(&self, alloc: Global, front: Symbols) -> Result<Symbols, Memory>
        ensures { IfOk result (λ symbols. symbols ≡ front ++ self.now) }
    {
        let mut symbols = front;
        for name in self.set.as_slice() {
            symbols.push(Symbol::from_slice(alloc, name.as_slice())?)?;
        }
        Ok(symbols)
    }

    /// The names as symbols, in order of number.
    pub fn symbols(&self, alloc: Global) -> Result<Symbols, Memory>
        ensures { IfOk result (λ symbols. symbols ≡ self.now) }
    {
        self.symbols_behind(alloc, Symbols::new(alloc))
    }
}
