// Different names, in the order in which they came.
ghost use Rattle.std.specs.Prelude.{◌≡◌, ℕ, List, [], ◌∷◌, length, map, not, IfOk, OnOk};
ghost use Rattle.codeco_text.specs.Names.{is_among};
ghost use Rattle.codeco_numbering.specs.Numbered.{gathered};

use codeco_terms::Symbol;
use indexmap::IndexSet;
use std::alloc::Global;
use std::marker::Model;
use wiki_base::Memory;

/// Names, each once.
#[derive(Drop)]
pub(crate) struct NameSet<'a> {
    names: IndexSet<&'a [u8]>,
}

impl<'a> Model for NameSet<'a> {
    ghost use Rattle.std.specs.Prelude.{List, ℕ, map};

    ghost Value = { List (List ℕ) };

    ghost view = { λ a. map (λ name. name.now) a.names.keys };
}

impl<'a> NameSet<'a> {
    /// The set of no names, which takes no memory.
    pub(crate) fn new(alloc: Global) -> Self
        ensures { result ≡ [] }
    {
        NameSet {
            names: IndexSet::new(alloc),
        }
    }

    /// How many there are.
    pub(crate) fn len(&self) -> usize
        ensures { result ≡ length self.now }
    {
        self.names.len()
    }

    /// Whether this name is among them.
    pub(crate) fn has(&self, name: &[u8]) -> bool
        ensures { result ≡ is_among self.now name.now }
    {
        self.names.contains(name)
    }

    /// Puts a name behind the others if it is new, and says whether it is.
    pub(crate) fn put(&mut self, name: &'a [u8]) -> Result<bool, Memory>
        ensures new { IfOk result (λ new. new ≡ not (is_among self.old name.now)) }
        ensures names { OnOk result (self.new ≡ gathered self.old (name.now ∷ [])) }
    {
        Ok(self.names.insert(name)?)
    }
}

/// Puts the names behind the others, in order, each once.
pub(crate) fn put_names<'a>(names: &mut NameSet<'a>, more: &'a [Symbol]) -> Result<(), Memory>
    ensures { OnOk result (names.new ≡ gathered names.old more.now) }
{
    for name in more {
        names.put(name.as_bytes())?;
    }
    Ok(())
}
