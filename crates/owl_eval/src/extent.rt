// The elements of a class word.
ghost use Rattle.std.specs.Prelude.{◌≡◌, ◌==◌, IsSorted, IsPermutation, IfOk};
ghost use Rattle.std.specs.Ordering.{nat_cmp};
ghost use Rattle.std.specs.List.{list_any};

use crate::sorted::has_item;
use std::alloc::Global;
use std::marker::Model;
use wiki_base::{Memory, WordId};

/// A class word and its elements, in rising order.
#[derive(Drop)]
pub(crate) struct Extent {
    word: WordId,
    elements: Vec<u64>,
}

impl Model for Extent {
    ghost use Rattle.std.specs.Prelude.{List, ℕ, IsSorted};
    ghost use Rattle.std.specs.Ordering.{nat_cmp};
    ghost use Rattle.wiki_base.specs.declared.numbers.WordId.{WordId};

    ghost Value = { WordId × List ℕ };

    ghost view = { λ e. (e.word, e.elements.items) };

    ghost invariant = { λ e. IsSorted nat_cmp e.elements.items };
}

impl Extent {
    pub(crate) fn new(word: WordId, elements: Vec<u64>) -> Self
        ensures word { result.0 ≡ word }
        ensures same { IsPermutation elements.items result.1 }
        ensures sorted { IsSorted nat_cmp result.1 }
    {
        let mut elements = elements;
        elements.sort_unstable();
        Extent { word, elements }
    }

    pub(crate) fn word(&self) -> WordId
        ensures { result ≡ self.now.0 }
    {
        self.word
    }

    pub(crate) fn elements(&self) -> &[u64]
        ensures { result.now ≡ self.now.1 }
    {
        self.elements.as_slice()
    }

    pub(crate) fn has(&self, element: u64) -> bool
        ensures { result ≡ list_any (λ x. x == element) self.now.1 }
    {
        has_item(self.elements.as_slice(), &element)
    }

    pub(crate) fn copy(&self, alloc: Global) -> Result<Self, Memory>
        ensures { IfOk result (λ copied. copied ≡ self.now) }
    {
        let elements = Vec::from_slice(alloc, self.elements.as_slice())?;
        Ok(Extent {
            word: self.word,
            elements,
        })
    }
}
