// Discourse representation structures.
ghost use Rattle.std.specs.Prelude.{◌≡◌, ◌<◌, ◌==◌, [], ◌∷◌, ◌++◌, map, length, slice_get, Some, OnOk, OnErr};
ghost use Rattle.logic_terms.specs.Shown.{condition_of, conditions_of, structure_of};
ghost use Rattle.logic_terms.specs.Structure.{structure, conditions_from, conditions_in, referents_in};
ghost use Rattle.logic_terms.specs.declared.structures.Cond.TheViews.{size-Cond, size-Conds, size-Drs};

use std::alloc::Global;
use wiki_base::{List, Memory, WordId};

/// What a condition speaks of: a referent or a name.
#[derive(Clone, Copy, Debug, PartialEq, Eq)]
pub enum Thing {
    Ref(u16),
    Name(WordId),
}

/// A list of referents.
pub type Referents = List<u16>;

/// A condition of a structure, after Kamp and Reyle, From Discourse to Logic, 1993.
#[cycle(drs)]
#[derive(Drop)]
pub enum Cond {
    /// The thing has the noun.
    Class(WordId, Thing),
    /// The two things are a pair of the relation word.
    Rel(WordId, Thing, Thing),
    Same(Thing, Thing),
    Not(Drs),
    Implies(Drs, Drs),
    Or(Drs, Drs),
}

/// A structure: the referents that it introduces, and its conditions.
#[cycle(drs)]
#[derive(Drop)]
pub struct Drs {
    referents: Referents,
    conditions: Conds,
}

/// A list of conditions.
#[cycle(drs)]
#[derive(Drop)]
pub struct Conds {
    items: Vec<Cond>,
}

impl Drs {
    pub fn new(referents: Referents, conditions: Conds) -> Self
        ensures { structure_of result ≡ structure referents (conditions_from (conditions_of conditions)) }
    {
        Drs {
            referents,
            conditions,
        }
    }

    /// The referents that the structure introduces.
    pub fn referents(&self) -> &Referents
        ensures { result.now ≡ referents_in (structure_of self.now) }
    {
        &self.referents
    }

    /// The structure's conditions. They are smaller than the structure, so a recursion may go on in them.
    pub fn conditions(&self) -> &Conds
        ensures list { conditions_of result.now ≡ conditions_in (structure_of self.now) }
        ensures smaller { size-Conds result.now < size-Drs self.now }
    {
        &self.conditions
    }
}

impl Conds {
    /// The empty list.
    pub fn new(alloc: Global) -> Self
        ensures { conditions_of result ≡ [] }
    {
        Conds {
            items: Vec::new(alloc),
        }
    }

    /// The conditions of a `Vec`, in order.
    pub fn from_vec(items: Vec<Cond>) -> Self
        ensures { conditions_of result ≡ map condition_of items.items }
    {
        Conds { items }
    }

    /// The same conditions as a `Vec`.
    pub fn into_vec(self) -> Vec<Cond>
        ensures { map condition_of result.items ≡ conditions_of self }
    {
        let Conds { items } = self;
        items
    }

    pub fn len(&self) -> usize
        ensures { result ≡ length (conditions_of self.now) }
    {
        self.items.len()
    }

    pub fn is_empty(&self) -> bool
        ensures { result ≡ (length (conditions_of self.now) == 0) }
    {
        self.items.is_empty()
    }

    /// The condition at a place below the length. It is smaller than the list, so a recursion may go on in it.
    pub fn get(&self, place: usize) -> &Cond
        requires { place < length (conditions_of self.now) }
        ensures item { slice_get (conditions_of self.now) place ≡ Some (condition_of result.now) }
        ensures smaller { size-Cond result.now < size-Conds self.now }
    {
        &self.items[place]
    }

    pub fn as_slice(&self) -> &[Cond]
        ensures { map condition_of result.now ≡ conditions_of self.now }
    {
        self.items.as_slice()
    }

    /// Adds a condition at the end. Where memory is refused the list stays, and the condition is dropped.
    pub fn push(&mut self, condition: Cond) -> Result<(), Memory>
        ensures ok { OnOk result (conditions_of self.new ≡ conditions_of self.old ++ condition_of condition ∷ []) }
        ensures err { OnErr result (conditions_of self.new ≡ conditions_of self.old) }
    {
        self.items.push(condition)?;
        Ok(())
    }
}
