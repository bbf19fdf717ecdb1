// Pieces of knowledge, as they are found.
ghost use Rattle.std.specs.Prelude.{◌≡◌, OnOk};

use logic_terms::{Class, Classes, Role};
use std::alloc::Global;
use wiki_base::{Memory, WordId};

// Pieces of knowledge, sorted by their kinds, each kind in the order in which they were found.
#[derive(Drop)]
pub(crate) struct Pieces {
    pub(crate) equalities: Vec<(WordId, WordId)>,
    pub(crate) role_inclusions: Vec<(Role, Role)>,
    pub(crate) assertions: Vec<(WordId, Class)>,
    pub(crate) edges: Vec<(Role, WordId, WordId)>,
    pub(crate) differences: Vec<(WordId, WordId)>,
    pub(crate) transitive: Vec<WordId>,
    pub(crate) unfoldings: Vec<(WordId, Class)>,
    pub(crate) general: Classes,
}

impl Pieces {
    ghost use Rattle.logic_terms.specs.Shown.{concept_of};
    ghost use Rattle.absorb.specs.Pieces.{Equality, RoleInclusion, Assertion, Related, Difference, Transitivity, Unfolding, General};
    ghost use Rattle.absorb.specs.Sorted.{with_piece, no_pieces};
    ghost use Rattle.absorb.specs.Found.{found};

    pub(crate) fn new(alloc: Global) -> Pieces
        ensures { found result ≡ no_pieces }
    {
        Pieces {
            equalities: Vec::new(alloc),
            role_inclusions: Vec::new(alloc),
            assertions: Vec::new(alloc),
            edges: Vec::new(alloc),
            differences: Vec::new(alloc),
            transitive: Vec::new(alloc),
            unfoldings: Vec::new(alloc),
            general: Classes::new(alloc),
        }
    }

    pub(crate) fn equate(&mut self, one: WordId, other: WordId) -> Result<(), Memory>
        ensures { OnOk result (found self.new ≡ with_piece (found self.old) (Equality one other)) }
    {
        self.equalities.push((one, other))?;
        Ok(())
    }

    pub(crate) fn put_below(&mut self, below: Role, above: Role) -> Result<(), Memory>
        ensures { OnOk result (found self.new ≡ with_piece (found self.old) (RoleInclusion below above)) }
    {
        self.role_inclusions.push((below, above))?;
        Ok(())
    }

    pub(crate) fn assert(&mut self, name: WordId, class: Class) -> Result<(), Memory>
        ensures { OnOk result (found self.new ≡ with_piece (found self.old) (Assertion name (concept_of class))) }
    {
        self.assertions.push((name, class))?;
        Ok(())
    }

    pub(crate) fn relate(&mut self, role: Role, from: WordId, to: WordId) -> Result<(), Memory>
        ensures { OnOk result (found self.new ≡ with_piece (found self.old) (Related role from to)) }
    {
        self.edges.push((role, from, to))?;
        Ok(())
    }

    pub(crate) fn tell_apart(&mut self, one: WordId, other: WordId) -> Result<(), Memory>
        ensures { OnOk result (found self.new ≡ with_piece (found self.old) (Difference one other)) }
    {
        self.differences.push((one, other))?;
        Ok(())
    }

    pub(crate) fn lead_on(&mut self, word: WordId) -> Result<(), Memory>
        ensures { OnOk result (found self.new ≡ with_piece (found self.old) (Transitivity word)) }
    {
        self.transitive.push(word)?;
        Ok(())
    }

    pub(crate) fn unfold(&mut self, word: WordId, class: Class) -> Result<(), Memory>
        ensures { OnOk result (found self.new ≡ with_piece (found self.old) (Unfolding word (concept_of class))) }
    {
        self.unfoldings.push((word, class))?;
        Ok(())
    }

    pub(crate) fn cover(&mut self, class: Class) -> Result<(), Memory>
        ensures { OnOk result (found self.new ≡ with_piece (found self.old) (General (concept_of class))) }
    {
        self.general.push(class)
    }
}
