// Axioms.
ghost use Rattle.std.specs.Prelude.{◌≡◌, ◌<◌, ◌==◌, [], ◌∷◌, ◌++◌, map, length, slice_get, Some, OnOk, OnErr, IfOk};
ghost use Rattle.logic_terms.specs.Shown.{claim_of, claims_of};

use crate::expressions::{Class, Role};
use std::alloc::Global;
use wiki_base::{Memory, WordId};

/// An axiom: what is said of the classes, the roles and the names.
#[derive(Drop)]
pub enum Axiom {
    /// Each element of the first class is in the second.
    SubClass(Class, Class),
    /// Each pair of the first role is one of the second.
    SubRole(Role, Role),
    /// The name's element is in the class.
    Member(Class, WordId),
    /// The two names' elements are a pair of the role.
    Related(Role, WordId, WordId),
    /// The two names' elements are no pair of the role.
    NotRelated(Role, WordId, WordId),
    /// The two names have one element.
    Equal(WordId, WordId),
    /// The two names have different elements.
    Differ(WordId, WordId),
    /// The relation word leads on: where it relates one to another and that to a third, it relates the one to the third.
    Transitive(WordId),
}

impl Axiom {
    /// An equal axiom in memory of its own.
    pub fn copy(&self, alloc: Global) -> Result<Axiom, Memory>
        ensures { IfOk result (λ copied. claim_of copied ≡ claim_of self.now) }
    {
        match self {
            Axiom::SubClass(below, above) => Ok(Axiom::SubClass(
                below.copy(alloc)?,
                above.copy(alloc)?,
            )),
            Axiom::SubRole(below, above) => Ok(Axiom::SubRole(*below, *above)),
            Axiom::Member(class, name) => Ok(Axiom::Member(class.copy(alloc)?, *name)),
            Axiom::Related(role, from, to) => Ok(Axiom::Related(*role, *from, *to)),
            Axiom::NotRelated(role, from, to) => Ok(Axiom::NotRelated(*role, *from, *to)),
            Axiom::Equal(one, other) => Ok(Axiom::Equal(*one, *other)),
            Axiom::Differ(one, other) => Ok(Axiom::Differ(*one, *other)),
            Axiom::Transitive(word) => Ok(Axiom::Transitive(*word)),
        }
    }
}

/// A list of axioms.
#[derive(Drop)]
pub struct Axioms {
    items: Vec<Axiom>,
}

impl Axioms {
    /// The empty list.
    pub fn new(alloc: Global) -> Self
        ensures { claims_of result ≡ [] }
    {
        Axioms {
            items: Vec::new(alloc),
        }
    }

    /// The axioms of a `Vec`, in order.
    pub fn from_vec(items: Vec<Axiom>) -> Self
        ensures { claims_of result ≡ map claim_of items.items }
    {
        Axioms { items }
    }

    /// The same axioms as a `Vec`.
    pub fn into_vec(self) -> Vec<Axiom>
        ensures { map claim_of result.items ≡ claims_of self }
    {
        let Axioms { items } = self;
        items
    }

    pub fn len(&self) -> usize
        ensures { result ≡ length (claims_of self.now) }
    {
        self.items.len()
    }

    pub fn is_empty(&self) -> bool
        ensures { result ≡ (length (claims_of self.now) == 0) }
    {
        self.items.is_empty()
    }

    /// The axiom at a place below the length.
    pub fn get(&self, place: usize) -> &Axiom
        requires { place < length (claims_of self.now) }
        ensures { slice_get (claims_of self.now) place ≡ Some (claim_of result.now) }
    {
        &self.items[place]
    }

    pub fn as_slice(&self) -> &[Axiom]
        ensures { map claim_of result.now ≡ claims_of self.now }
    {
        self.items.as_slice()
    }

    /// Adds an axiom at the end. Where memory is refused the list stays, and the axiom is dropped.
    pub fn push(&mut self, added: Axiom) -> Result<(), Memory>
        ensures ok { OnOk result (claims_of self.new ≡ claims_of self.old ++ claim_of added ∷ []) }
        ensures err { OnErr result (claims_of self.new ≡ claims_of self.old) }
    {
        self.items.push(added)?;
        Ok(())
    }

    /// Equal axioms in memory of their own.
    pub fn copy(&self) -> Result<Axioms, Memory>
        ensures { IfOk result (λ copied. claims_of copied ≡ claims_of self.now) }
    {
        let alloc = *self.items.allocator();
        let mut copied = Axioms::new(alloc);
        for axiom in &self.items {
            copied.push(axiom.copy(alloc)?)?;
        }
        Ok(copied)
    }
}
