// What the conditions of a structure give to its members.
ghost use Rattle.std.specs.Prelude.{◌≡◌, ◌||◌, ◌==◌, Result};
ghost use Rattle.logic_terms.specs.Free.{is_bound};
ghost use Rattle.ace_to_owl.specs.Answers.{part_shown, Agrees};
ghost use Rattle.ace_to_owl.specs.Terms.{same_thing, is_root};
ghost use Rattle.ace_to_owl.specs.Rolling.{member, is_foreign, noun_part, value_part, relation_part, same_part};

use crate::fault::Fault;
use logic_terms::{Cause, Class, Role, Thing};
use wiki_base::WordId;

/// A class at a member, or an edge from one member to another. The root is number 0, referent q is number q + 1.
#[derive(Drop)]
pub enum Part {
    At(u32, Class),
    Edge(WordId, u32, u32),
}

pub fn same_thing(one: Thing, other: Thing) -> bool
    ensures { result ≡ same_thing one other }
{
    match (one, other) {
        (Thing::Ref(referent), Thing::Ref(second)) => referent == second,
        (Thing::Name(name), Thing::Name(second)) => name.0 == second.0,
        _ => false,
    }
}

pub fn is_root(root: Option<Thing>, thing: Thing) -> bool
    ensures { result ≡ is_root root thing }
{
    match root {
        Some(root) => same_thing(root, thing),
        None => false,
    }
}

pub fn is_among(referents: &[u16], referent: u16) -> bool
    ensures { result ≡ is_bound referents.now referent }
{
    referents.iter().any(|own| *own == referent)
}

/// The member that a thing is, if it is the root or one of the referents.
pub fn member(root: Option<Thing>, referents: &[u16], thing: Thing) -> Option<u32>
    ensures { result ≡ member root referents.now thing }
{
    if is_root(root, thing) {
        return Some(0);
    }
    match thing {
        Thing::Ref(referent) => {
            if is_among(referents, referent) {
                Some(referent as u32 + 1)
            } else {
                None
            }
        }
        Thing::Name(_) => None,
    }
}

fn is_foreign(root: Option<Thing>, referents: &[u16], thing: Thing) -> bool
    ensures { result ≡ is_foreign root referents.now thing }
{
    match thing {
        Thing::Ref(_) => member(root, referents, thing).is_none(),
        Thing::Name(_) => false,
    }
}

/// What a noun gives.
pub fn noun_part(
    root: Option<Thing>,
    referents: &[u16],
    noun: WordId,
    thing: Thing,
) -> Result<Part, Fault>
    ensures { Agrees part_shown result (noun_part root referents.now noun thing) }
{
    if is_foreign(root, referents, thing) {
        return Err(Fault::Outside(Cause::Shared));
    }
    match member(root, referents, thing) {
        Some(node) => Ok(Part::At(node, Class::Named(noun))),
        None => Err(Fault::Outside(Cause::NoRoot)),
    }
}

// A value at a member, where the other thing is another name.
fn value_part(node: u32, role: Role, thing: Thing) -> Result<Part, Fault>
    ensures { Agrees part_shown result (value_part node role thing) }
{
    match thing {
        Thing::Name(name) => Ok(Part::At(node, Class::Value(role, name))),
        Thing::Ref(_) => Err(Fault::Outside(Cause::Shared)),
    }
}

fn is_foreign_pair(root: Option<Thing>, referents: &[u16], one: Thing, other: Thing) -> bool
    ensures { result ≡ (is_foreign root referents.now one || is_foreign root referents.now other) }
{
    is_foreign(root, referents, one) || is_foreign(root, referents, other)
}

/// What a relation gives.
pub fn relation_part(
    root: Option<Thing>,
    referents: &[u16],
    word: WordId,
    from: Thing,
    to: Thing,
) -> Result<Part, Fault>
    ensures { Agrees part_shown result (relation_part root referents.now word from to) }
{
    if is_foreign_pair(root, referents, from, to) {
        return Err(Fault::Outside(Cause::Shared));
    }
    match (member(root, referents, from), member(root, referents, to)) {
        (Some(first), Some(second)) => edge_part(word, first, second),
        (Some(node), None) => value_part(
            node,
            Role {
                id: word,
                inverted: false,
            },
            to,
        ),
        (None, Some(node)) => value_part(
            node,
            Role {
                id: word,
                inverted: true,
            },
            from,
        ),
        (None, None) => Err(Fault::Outside(Cause::NoRoot)),
    }
}

fn edge_part(word: WordId, first: u32, second: u32) -> Result<Part, Fault>
    ensures { Agrees part_shown result (Rattle.ace_to_owl.specs.Rolling.edge_part word first second) }
{
    if first == second {
        Err(Fault::Outside(Cause::Cycle))
    } else {
        Ok(Part::Edge(word, first, second))
    }
}

/// What an equation gives: none is covered.
pub fn same_part(
    root: Option<Thing>,
    referents: &[u16],
    one: Thing,
    other: Thing,
) -> Result<Part, Fault>
    ensures { Agrees part_shown result (same_part root referents.now one other) }
{
    if is_foreign_pair(root, referents, one, other) {
        Err(Fault::Outside(Cause::Shared))
    } else {
        Err(Fault::Outside(Cause::Equality))
    }
}
