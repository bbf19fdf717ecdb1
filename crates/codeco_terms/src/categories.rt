// Categories with their features, and the patterns of references.
ghost use Rattle.std.specs.Prelude.{◌≡◌};

use crate::{Feats, Takes, Vals};
use wiki_base::{Copied, List, Memory};

/// A category as written in a rule: its name by number, and its features.
#[derive(Drop)]
pub struct Category {
    pub name: u16,
    pub feats: Feats,
}

impl Copied for Category {
    fn copy(&self) -> Result<Self, Memory> {
        Ok(Category {
            name: self.name,
            feats: self.feats.copy()?,
        })
    }
}

/// A category whose features are values: a referent, or a reading of a word.
#[derive(Drop)]
pub struct Ground {
    pub name: u16,
    pub vals: Vals,
}

impl Ground {
    /// An equal ground category.
    pub fn copy(&self) -> Self
        ensures { result ≡ self.now }
    {
        Ground {
            name: self.name,
            vals: self.vals.copy(),
        }
    }
}

/// A pattern of a reference: a category with the features that are tested, and beside it the marked features,
/// whose variables take the values of the referent found.
#[derive(Drop)]
pub struct Pattern {
    pub cat: Category,
    pub taken: Takes,
}

impl Copied for Pattern {
    fn copy(&self) -> Result<Self, Memory> {
        Ok(Pattern {
            cat: self.cat.copy()?,
            taken: self.taken.copy()?,
        })
    }
}

/// The patterns of a reference, as written.
pub type Patterns = List<Pattern>;
