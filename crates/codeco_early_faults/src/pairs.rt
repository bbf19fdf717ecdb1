// Different pairs of a category's name and a feature's name.
ghost use Rattle.std.specs.Prelude.{◌≡◌, ℕ, List, [], ◌∷◌, map, OnOk};
ghost use Rattle.codeco_early_faults.specs.Pairs.{gathered_pairs};

use indexmap::IndexSet;
use std::alloc::Global;
use std::marker::Model;
use wiki_base::Memory;

/// Pairs of names, each once.
#[derive(Drop)]
pub(crate) struct PairSet<'a> {
    pairs: IndexSet<(&'a [u8], &'a [u8])>,
}

impl<'a> Model for PairSet<'a> {
    ghost use Rattle.std.specs.Prelude.{List, ℕ, map};

    ghost Value = { List (List ℕ × List ℕ) };

    ghost view = { λ a. map (λ pair. (pair.0.now, pair.1.now)) a.pairs.keys };
}

impl<'a> PairSet<'a> {
    /// The set of no pairs, which takes no memory.
    pub(crate) fn new(alloc: Global) -> Self
        ensures { result ≡ [] }
    {
        PairSet {
            pairs: IndexSet::new(alloc),
        }
    }

    /// The pairs in the order in which they came.
    pub(crate) fn as_slice(&self) -> &[(&'a [u8], &'a [u8])]
        ensures { map (λ pair. (pair.0.now, pair.1.now)) result.now ≡ self.now }
    {
        self.pairs.as_slice()
    }

    /// Puts a pair behind the others if it is new.
    pub(crate) fn put(&mut self, category: &'a [u8], feature: &'a [u8]) -> Result<(), Memory>
        ensures { OnOk result (self.new ≡ gathered_pairs self.old ((category.now, feature.now) ∷ [])) }
    {
        self.pairs.insert((category, feature))?;
        Ok(())
    }
}
