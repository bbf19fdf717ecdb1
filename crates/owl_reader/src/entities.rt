// The entities of a file, with their numbers.
ghost use Rattle.std.specs.Prelude.{◌≡◌, ◌+◌, [], ◌++◌, IfOk, OnOk};
ghost use Rattle.owl_reader.specs.Names.{is_thing, is_nothing, is_top_property, is_bottom_property, entered, word_of};

use crate::keywords::same_bytes;
use crate::kinds::{Entities, Entity, EntityKind};
use indexmap::IndexSet;
use std::alloc::Global;
use std::marker::Model;
use wiki_base::{Bytes, Memory, WordId};

/// An entity in a table.
#[derive(PartialEq, Eq, Hash, Drop)]
struct Key {
    kind: EntityKind,
    iri: Vec<u8>,
}

/// The entities, each once, in the order in which they come.
#[derive(Drop)]
pub struct EntityTable {
    set: IndexSet<Key>,
}

impl Model for EntityTable {
    ghost use Rattle.std.specs.Prelude.{List, map};
    ghost use Rattle.owl_reader.specs.declared.kinds.Entity.{Entity};

    ghost Value = { List Entity };

    ghost view = { λ a. map (λ k. record { kind = k.kind; iri = k.iri.items }) a.set.keys };
}

impl EntityTable {
    pub fn new(alloc: Global) -> EntityTable
        ensures { result ≡ [] }
    {
        EntityTable {
            set: IndexSet::new(alloc),
        }
    }

    /// The number of an entity, which is entered where it is new.
    pub fn number(&mut self, kind: EntityKind, iri: Vec<u8>) -> Result<WordId, Memory>
        ensures number { IfOk result (λ word. word ≡ word_of self.old (record { kind = kind; iri = iri.items })) }
        ensures entered { OnOk result (self.new ≡ entered self.old (record { kind = kind; iri = iri.items })) }
    {
        let (place, _) = self.set.insert_full(Key { kind, iri })?;
        word_at(place)
    }

    /// The entities as a list.
    pub fn entities(&self, alloc: Global) -> Result<Entities, Memory>
        ensures { IfOk result (λ list. list ≡ self.now) }
    {
        let mut list = Entities::new(alloc);
        for key in self.set.as_slice() {
            list.push(Entity {
                kind: key.kind,
                iri: Bytes::from_slice(alloc, key.iri.as_slice())?,
            })?;
        }
        Ok(list)
    }
}

/// The word of the entity at a place. A list with more places than words would not fit in memory.
fn word_at(place: usize) -> Result<WordId, Memory>
    ensures { IfOk result (λ word. word ≡ record { 0 = place + 1 }) }
{
    match u32::try_from(place) {
        Ok(place) if place < u32::MAX => Ok(WordId(place + 1)),
        _ => Err(Memory),
    }
}

#[tactic(auto, unfolding(crate::specs::Names::is_thing))]
pub fn is_thing(iri: &[u8]) -> bool
    ensures { result ≡ is_thing iri.now }
{
    same_bytes(iri, b"http://www.w3.org/2002/07/owl#Thing")
}

#[tactic(auto, unfolding(crate::specs::Names::is_nothing))]
pub fn is_nothing(iri: &[u8]) -> bool
    ensures { result ≡ is_nothing iri.now }
{
    same_bytes(iri, b"http://www.w3.org/2002/07/owl#Nothing")
}

#[tactic(auto, unfolding(crate::specs::Names::is_top_property))]
pub fn is_top_property(iri: &[u8]) -> bool
    ensures { result ≡ is_top_property iri.now }
{
    same_bytes(iri, b"http://www.w3.org/2002/07/owl#topObjectProperty")
}

#[tactic(auto, unfolding(crate::specs::Names::is_bottom_property))]
pub fn is_bottom_property(iri: &[u8]) -> bool
    ensures { result ≡ is_bottom_property iri.now }
{
    same_bytes(iri, b"http://www.w3.org/2002/07/owl#bottomObjectProperty")
}

/// The IRI of a name: its prefix's, and what is behind the colon.
pub fn full_iri(alloc: Global, front: &[u8], local: &[u8]) -> Result<Vec<u8>, Memory>
    ensures { IfOk result (λ iri. iri.items ≡ front.now ++ local.now) }
{
    let mut iri = Vec::with_capacity(alloc, front.len() + local.len())?;
    iri.extend_from_slice(front)?;
    iri.extend_from_slice(local)?;
    Ok(iri)
}
