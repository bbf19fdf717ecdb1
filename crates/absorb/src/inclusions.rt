// Inclusions of classes as pieces of knowledge.
ghost use Rattle.std.specs.Prelude.{◌≡◌, ◌<◌, length, remove, IfOk, OnOk, MatchOption};
ghost use Rattle.logic_terms.specs.Shown.{concept_of, concepts_of};
ghost use Rattle.logic_terms.specs.Concept.{concepts_from, IntersectionOf, AllValuesFrom};
ghost use Rattle.logic_terms.specs.Complement.{complement};
ghost use Rattle.logic_terms.specs.Parts.{word_part as word_of};
ghost use Rattle.logic_terms.specs.Same.{inverse};
ghost use Rattle.absorb.specs.Pieces.{inclusion, inclusions, either, general, first_word, together};
ghost use Rattle.absorb.specs.Sorted.{with_piece, with_pieces};
ghost use Rattle.absorb.specs.FirstWord.{IsFirstWord};
ghost use Rattle.absorb.specs.Found.{found};

use crate::pieces::Pieces;
use logic_terms::{Class, Classes, Role, negated};
use std::alloc::Global;
use wiki_base::{Memory, WordId};

// Adds the pieces of the inclusion of one class in another.
#[cycle(including)]
pub(crate) fn include(
    alloc: Global,
    pieces: &mut Pieces,
    below: &Class,
    above: &Class,
) -> Result<(), Memory>
    ensures { OnOk result (found pieces.new ≡ with_pieces (found pieces.old) (inclusion (concept_of below.now) (concept_of above.now))) }
{
    match below {
        Class::Thing => pieces.cover(above.copy(alloc)?),
        Class::Named(word) => pieces.unfold(*word, above.copy(alloc)?),
        Class::Not(_) => cover_all(alloc, pieces, below, above),
        Class::And(members) => guard(alloc, pieces, below, members, above),
        Class::Or(members) => include_each(alloc, pieces, members, above),
        Class::Some(role, inner) => {
            let behind = all_behind(alloc, *role, above)?;
            include(alloc, pieces, inner, &behind)
        }
        Class::All(_, _) => cover_all(alloc, pieces, below, above),
        Class::Value(role, name) => pieces.assert(*name, all_behind(alloc, *role, above)?),
    }
}

// Adds the pieces of the inclusion of each of these classes in another.
#[cycle(including)]
fn include_each(
    alloc: Global,
    pieces: &mut Pieces,
    members: &Classes,
    above: &Class,
) -> Result<(), Memory>
    ensures { OnOk result (found pieces.new ≡ with_pieces (found pieces.old) (inclusions (concepts_from (concepts_of members.now)) (concept_of above.now))) }
{
    for place in 0..members.len() {
        include(alloc, pieces, members.get(place), above)?;
    }
    Ok(())
}

// Adds that each element is outside the one class or in the other.
fn cover_all(alloc: Global, pieces: &mut Pieces, below: &Class, above: &Class) -> Result<(), Memory>
    ensures { OnOk result (found pieces.new ≡ with_piece (found pieces.old) (general (concept_of below.now) (concept_of above.now))) }
{
    pieces.cover(outside_or_in(alloc, below, above)?)
}

// Adds the piece of the inclusion of an intersection, which has these members, in a class.
fn guard(
    alloc: Global,
    pieces: &mut Pieces,
    below: &Class,
    members: &Classes,
    above: &Class,
) -> Result<(), Memory>
    requires { concept_of below.now ≡ IntersectionOf (concepts_from (concepts_of members.now)) }
    ensures { OnOk result (found pieces.new ≡ with_pieces (found pieces.old) (inclusion (concept_of below.now) (concept_of above.now))) }
{
    match first_named(members) {
        Some((place, word)) => {
            let others = conjunction(alloc, members, place)?;
            pieces.unfold(word, outside_or_in(alloc, &others, above)?)
        }
        None => cover_all(alloc, pieces, below, above),
    }
}

// The class of what is outside the one class or in the other.
fn outside_or_in(alloc: Global, below: &Class, above: &Class) -> Result<Class, Memory>
    ensures { IfOk result (λ made. concept_of made ≡ either (complement (concept_of below.now)) (concept_of above.now)) }
{
    let mut members = Classes::new(alloc);
    members.push(negated(alloc, below)?)?;
    members.push(above.copy(alloc)?)?;
    Ok(Class::Or(members))
}

// The class of what has its predecessors by a role all in a class.
fn all_behind(alloc: Global, role: Role, above: &Class) -> Result<Class, Memory>
    ensures { IfOk result (λ made. concept_of made ≡ AllValuesFrom (inverse role) (concept_of above.now)) }
{
    let inner = Box::new(alloc, above.copy(alloc)?)?;
    Ok(Class::All(role.inverse(), inner))
}

// The first class word among these, with its place.
fn first_named(members: &Classes) -> Option<(usize, WordId)>
    ensures { MatchOption result (first_word (concepts_from (concepts_of members.now)) ≡ None)
        (λ found. IsFirstWord (concepts_of members.now) found.0 found.1) }
{
    for place in 0..members.len() {
        match word_of(members.get(place)) {
            Some(word) => return Some((place, word)),
            None => {}
        }
    }
    None
}

// The class word that a class is.
fn word_of(class: &Class) -> Option<WordId>
    ensures { result ≡ word_of (concept_of class.now) }
{
    match class {
        Class::Named(word) => Some(*word),
        Class::Thing => None,
        Class::Not(_) => None,
        Class::And(_) => None,
        Class::Or(_) => None,
        Class::Some(_, _) => None,
        Class::All(_, _) => None,
        Class::Value(_, _) => None,
    }
}

// The intersection of these classes but the one at a place.
fn conjunction(alloc: Global, members: &Classes, left_out: usize) -> Result<Class, Memory>
    requires { left_out < length (concepts_of members.now) }
    ensures { IfOk result (λ made. concept_of made ≡ together (concepts_from (remove (concepts_of members.now) left_out))) }
{
    let mut others = members.copy()?.into_vec();
    let _ = others.remove(left_out);
    Ok(joined(Classes::from_vec(others)))
}

// The intersection of these classes, and of a single class itself.
fn joined(classes: Classes) -> Class
    ensures { concept_of result ≡ together (concepts_from (concepts_of classes)) }
{
    if classes.len() > 1 {
        return Class::And(classes);
    }
    match classes.into_vec().pop() {
        Some(single) => single,
        None => Class::Thing,
    }
}
