// Growth: what false axioms ask for is added, and then what other axioms ask for because of that.
use crate::draft::{Draft, Pair};
use crate::mentions::Mentions;
use logic_terms::{Axiom, Axioms, Class, Names, Role};
use owl_eval::{Interp, axiom_true};
use std::alloc::Global;
use std::collections::BTreeSet;
use wiki_base::Memory;

// How many elements may be looked at for all axioms together, and how many pairs may be added.
const MOST_LOOKS: u64 = 1_000_000;

/// An interpretation with the elements of another one that may be a model of axioms. Class words get more elements and
/// relation words more pairs, where the first axiom that is false, and those behind it up to a true one, ask for that in one
/// way alone, or others do then. Where a transitive word gets a pair, it and the words above it get those to which this leads by
/// steps. None where the interpretation lacks one of the names, which would all be element 0 then; where an axiom asks for a
/// choice or for an element; or after too many looks. Nothing is said of what is found.
pub fn grow(
    alloc: Global,
    interp: &Interp,
    axioms: &Axioms,
    names: &Names,
) -> Result<Option<Interp>, Memory> {
    if !has_names(interp, names) {
        return Ok(None);
    }
    let mut waiting = first_false(alloc, interp, axioms)?;
    let mentions = Mentions::new(alloc, axioms)?;
    let mut draft = Draft::new(alloc, interp);
    for _ in 0..MOST_LOOKS / interp.size() {
        let Some(place) = waiting.pop_first() else {
            return draft.finished();
        };
        if !is_met(&mut draft, axioms, place)? || !are_led(&mut draft, axioms, &mentions)? {
            return Ok(None);
        }
        wake(&mut draft, &mentions, &mut waiting)?;
    }
    Ok(None)
}

// Whether an interpretation gives each name an element of its own.
fn has_names(interp: &Interp, names: &Names) -> bool {
    let entries = interp.names();
    let mut place: usize = 0;
    for entry in entries {
        if place < names.len() && names.get(place).0 == entry.0.0 {
            place = place.saturating_add(1);
        }
    }
    place >= names.len()
}

// The places of the first false axiom, and of those that follow it up to a true one. Axioms on all pairs of a word are looked
// at only behind a false one, or where there is no other: they cost the most, and a new fact leaves them true.
fn first_false(alloc: Global, interp: &Interp, axioms: &Axioms) -> Result<BTreeSet<usize>, Memory> {
    for place in 0..axioms.len() {
        if !is_on_all_pairs(axioms.get(place)) && !axiom_true(interp, axioms.get(place)) {
            return false_from(alloc, interp, axioms, place);
        }
    }
    for place in 0..axioms.len() {
        if !axiom_true(interp, axioms.get(place)) {
            return false_from(alloc, interp, axioms, place);
        }
    }
    Ok(BTreeSet::new(alloc))
}

fn is_on_all_pairs(stated: &Axiom) -> bool {
    match stated {
        Axiom::SubRole(_, _) => true,
        Axiom::Transitive(_) => true,
        _ => false,
    }
}

// The places of the false axioms from a place on, up to a true one.
fn false_from(
    alloc: Global,
    interp: &Interp,
    axioms: &Axioms,
    start: usize,
) -> Result<BTreeSet<usize>, Memory> {
    let mut found = BTreeSet::new(alloc);
    for place in start..axioms.len() {
        if axiom_true(interp, axioms.get(place)) {
            return Ok(found);
        }
        let _ = found.insert(place)?;
    }
    Ok(found)
}

// Puts the axioms in that mention words with more elements or pairs than before.
fn wake(
    draft: &mut Draft,
    mentions: &Mentions,
    waiting: &mut BTreeSet<usize>,
) -> Result<(), Memory> {
    let words = draft.take_grown();
    for word in words.iter() {
        for place in mentions.at(*word) {
            let _ = waiting.insert(*place)?;
        }
    }
    Ok(())
}

// Adds what an axiom asks for, and answers whether that is all.
fn is_met(draft: &mut Draft, axioms: &Axioms, place: usize) -> Result<bool, Memory> {
    if place >= axioms.len() {
        return Ok(false);
    }
    match axioms.get(place) {
        Axiom::SubClass(below, above) => is_subclass_met(draft, below, above),
        Axiom::SubRole(below, above) => {
            draft.include(*below, *above)?;
            Ok(true)
        }
        Axiom::Member(class, name) => {
            let element = draft.element(*name);
            draft.put(class, element)
        }
        Axiom::Related(role, from, to) => {
            let (one, other) = (draft.element(*from), draft.element(*to));
            draft.relate(*role, one, other)?;
            Ok(true)
        }
        Axiom::NotRelated(_, _, _) => Ok(false),
        Axiom::Equal(_, _) => Ok(false),
        Axiom::Differ(_, _) => Ok(false),
        Axiom::Transitive(word) => draft.close(*word),
    }
}

// Adds the pairs that other axioms ask for where words got pairs, and answers whether these are not too many.
fn are_led(draft: &mut Draft, axioms: &Axioms, mentions: &Mentions) -> Result<bool, Memory> {
    for _ in 0..MOST_LOOKS {
        let Some(pair) = draft.take_fresh() else {
            return Ok(true);
        };
        for place in mentions.leading(pair.word) {
            if !is_led(draft, axioms, *place, pair)? {
                return Ok(false);
            }
        }
    }
    Ok(false)
}

// Adds the pairs that an axiom asks for where a word got a pair, and answers whether these are not too many.
fn is_led(draft: &mut Draft, axioms: &Axioms, place: usize, pair: Pair) -> Result<bool, Memory> {
    if axioms.len() <= place {
        return Ok(false);
    }
    match axioms.get(place) {
        Axiom::SubRole(below, above) => {
            include_pair(draft, *below, *above, pair)?;
            Ok(true)
        }
        Axiom::Transitive(_) if !pair.is_led => draft.lead(pair.word, pair.from, pair.to),
        _ => Ok(true),
    }
}

// Relates the elements of a pair of one role by another.
fn include_pair(draft: &mut Draft, below: Role, above: Role, pair: Pair) -> Result<(), Memory> {
    if below.inverted {
        draft.relate(above, pair.to, pair.from)
    } else {
        draft.relate(above, pair.from, pair.to)
    }
}

// Puts each element of a class into another.
fn is_subclass_met(draft: &mut Draft, below: &Class, above: &Class) -> Result<bool, Memory> {
    for element in 0..draft.size() {
        if draft.has(below, element) && !draft.has(above, element) {
            if !draft.put(above, element)? {
                return Ok(false);
            }
        }
    }
    Ok(true)
}
