// The terms of conditions, and those that are open at a root.
ghost use Rattle.std.specs.Prelude.{◌≡◌, ◌++◌, [], IfOk, OnOk};
ghost use Rattle.std.specs.List.{filter};
ghost use Rattle.logic_terms.specs.Shown.{structure_of, condition_of, conditions_of};
ghost use Rattle.logic_terms.specs.Structure.{Implication, Disjunction, conditions_from, referents_in};
ghost use Rattle.ace_to_owl.specs.Terms.{terms_of, terms_in, terms_in_all, terms_in_condition, is_open, first_name, referents_among};

use crate::part::{is_among, is_root};
use lists::List;
use logic_terms::{Cond, Conds, Drs, Thing};
use std::alloc::Global;
use wiki_base::{Memory, WordId};

/// The terms of a condition, from left to right.
pub fn condition_terms(alloc: Global, condition: &Cond) -> Result<List<Thing>, Memory>
    ensures { IfOk result (λ terms. terms ≡ terms_in_condition [] (condition_of condition.now)) }
{
    let mut found = List::new(alloc);
    add_condition(condition, &mut List::new(alloc), &mut found)?;
    Ok(found)
}

/// The terms of a structure, from left to right.
pub fn structure_terms(alloc: Global, drs: &Drs) -> Result<List<Thing>, Memory>
    ensures { IfOk result (λ terms. terms ≡ terms_in [] (structure_of drs.now)) }
{
    let mut found = List::new(alloc);
    add_structure(drs, &mut List::new(alloc), &mut found)?;
    Ok(found)
}

/// The terms of an implication, from left to right.
pub fn implication_terms(alloc: Global, left: &Drs, right: &Drs) -> Result<List<Thing>, Memory>
    ensures { IfOk result (λ terms. terms ≡ terms_in_condition [] (Implication (structure_of left.now) (structure_of right.now))) }
{
    let mut found = List::new(alloc);
    add_implication(left, right, &mut List::new(alloc), &mut found)?;
    Ok(found)
}

/// The terms of a disjunction, from left to right.
pub fn disjunction_terms(alloc: Global, left: &Drs, right: &Drs) -> Result<List<Thing>, Memory>
    ensures { IfOk result (λ terms. terms ≡ terms_in_condition [] (Disjunction (structure_of left.now) (structure_of right.now))) }
{
    let mut found = List::new(alloc);
    add_either(left, right, &mut List::new(alloc), &mut found)?;
    Ok(found)
}

/// Those terms that are open at a root.
pub fn open_terms(
    alloc: Global,
    root: Option<Thing>,
    terms: &[Thing],
) -> Result<List<Thing>, Memory>
    ensures { IfOk result (λ opened. opened ≡ filter (is_open root) terms.now) }
{
    let mut opened = List::new(alloc);
    for term in terms {
        if is_open(root, *term) {
            opened.push(*term)?;
        }
    }
    Ok(opened)
}

fn is_open(root: Option<Thing>, term: Thing) -> bool
    ensures { result ≡ is_open root term }
{
    match term {
        Thing::Ref(_) => true,
        Thing::Name(_) => is_root(root, term),
    }
}

/// The first name among terms.
pub fn first_name(terms: &[Thing]) -> Option<WordId>
    ensures { result ≡ first_name terms.now }
{
    for term in terms {
        if let Thing::Name(name) = term {
            return Some(*name);
        }
    }
    None
}

/// The referents that are among terms, each as often as it occurs.
pub fn referents_among(
    alloc: Global,
    referents: &[u16],
    terms: &[Thing],
) -> Result<List<u16>, Memory>
    ensures { IfOk result (λ own. own ≡ referents_among referents.now terms.now) }
{
    let mut own = List::new(alloc);
    for term in terms {
        if let Thing::Ref(referent) = term
            && is_among(referents, *referent)
        {
            own.push(*referent)?;
        }
    }
    Ok(own)
}

#[cycle(terms)]
fn add_structure(drs: &Drs, bound: &mut List<u16>, found: &mut List<Thing>) -> Result<(), Memory>
    ensures found { OnOk result (found.new ≡ found.old ++ terms_in bound.old (structure_of drs.now)) }
    ensures kept { OnOk result (bound.new ≡ bound.old) }
{
    let before = bound.len();
    add_bound(bound, drs.referents().as_slice())?;
    add_conditions(drs.conditions(), bound, found)?;
    bound.truncate(before);
    Ok(())
}

#[cycle(terms)]
fn add_conditions(
    conditions: &Conds,
    bound: &mut List<u16>,
    found: &mut List<Thing>,
) -> Result<(), Memory>
    ensures found { OnOk result (found.new ≡ found.old ++ terms_in_all bound.old (conditions_from (conditions_of conditions.now))) }
    ensures kept { OnOk result (bound.new ≡ bound.old) }
{
    for place in 0..conditions.len() {
        add_condition(conditions.get(place), bound, found)?;
    }
    Ok(())
}

#[cycle(terms)]
fn add_condition(
    condition: &Cond,
    bound: &mut List<u16>,
    found: &mut List<Thing>,
) -> Result<(), Memory>
    ensures found { OnOk result (found.new ≡ found.old ++ terms_in_condition bound.old (condition_of condition.now)) }
    ensures kept { OnOk result (bound.new ≡ bound.old) }
{
    match condition {
        Cond::Class(_, thing) => add_thing(*thing, bound.as_slice(), found),
        Cond::Rel(_, from, to) => add_things(*from, *to, bound.as_slice(), found),
        Cond::Same(one, other) => add_things(*one, *other, bound.as_slice(), found),
        Cond::Not(inner) => add_structure(inner, bound, found),
        Cond::Implies(left, right) => add_implication(left, right, bound, found),
        Cond::Or(left, right) => add_either(left, right, bound, found),
    }
}

#[cycle(terms)]
fn add_implication(
    left: &Drs,
    right: &Drs,
    bound: &mut List<u16>,
    found: &mut List<Thing>,
) -> Result<(), Memory>
    ensures found { OnOk result (found.new
        ≡ found.old ++ (terms_in bound.old (structure_of left.now) ++ terms_in (bound.old ++ referents_in (structure_of left.now)) (structure_of right.now))) }
    ensures kept { OnOk result (bound.new ≡ bound.old) }
{
    add_structure(left, bound, found)?;
    let before = bound.len();
    add_bound(bound, left.referents().as_slice())?;
    add_structure(right, bound, found)?;
    bound.truncate(before);
    Ok(())
}

#[cycle(terms)]
fn add_either(
    left: &Drs,
    right: &Drs,
    bound: &mut List<u16>,
    found: &mut List<Thing>,
) -> Result<(), Memory>
    ensures found { OnOk result (found.new ≡ found.old ++ (terms_in bound.old (structure_of left.now) ++ terms_in bound.old (structure_of right.now))) }
    ensures kept { OnOk result (bound.new ≡ bound.old) }
{
    add_structure(left, bound, found)?;
    add_structure(right, bound, found)
}

fn add_thing(thing: Thing, bound: &[u16], found: &mut List<Thing>) -> Result<(), Memory>
    ensures { OnOk result (found.new ≡ found.old ++ terms_of bound.now thing) }
{
    if let Thing::Ref(referent) = thing
        && is_among(bound, referent)
    {
        return Ok(());
    }
    found.push(thing)
}

fn add_things(
    one: Thing,
    other: Thing,
    bound: &[u16],
    found: &mut List<Thing>,
) -> Result<(), Memory>
    ensures { OnOk result (found.new ≡ found.old ++ (terms_of bound.now one ++ terms_of bound.now other)) }
{
    add_thing(one, bound, found)?;
    add_thing(other, bound, found)
}

// Adds referents to those that are bound.
fn add_bound(bound: &mut List<u16>, referents: &[u16]) -> Result<(), Memory>
    ensures { OnOk result (bound.new ≡ bound.old ++ referents.now) }
{
    for referent in referents {
        bound.push(*referent)?;
    }
    Ok(())
}
