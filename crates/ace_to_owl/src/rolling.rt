// Rolling up: from structures to classes.
ghost use Rattle.std.specs.Prelude.{◌≡◌, ◌++◌, ◌∷◌, [], map, IfOk};
ghost use Rattle.std.specs.List.{filter, list_all};
ghost use Rattle.logic_terms.specs.Concept.{UnionOf, no_concept, also_concept};
ghost use Rattle.logic_terms.specs.Shown.{concept_of, structure_of, condition_of, conditions_of};
ghost use Rattle.logic_terms.specs.Structure.{Implication, Disjunction, conditions_from};
ghost use Rattle.ace_to_owl.specs.Answers.{part_shown, Agrees};
ghost use Rattle.ace_to_owl.specs.Outcomes.{next};
ghost use Rattle.ace_to_owl.specs.Parts.{class_of_tree};
ghost use Rattle.ace_to_owl.specs.Terms.{is_open, same_thing};
ghost use Rattle.ace_to_owl.specs.Truths.{RollsTruly};
ghost use Rattle.ace_to_owl.specs.Rolling.{held_at, holder, negation_part, roll, roll_with, parts, part_of};

use crate::fault::Fault;
use crate::part::{Part, member, noun_part, relation_part, same_part, same_thing};
use crate::terms::{disjunction_terms, implication_terms, open_terms, structure_terms};
use crate::tree::class_of_tree;
use lists::List;
use logic_terms::{Cause, Class, Classes, Cond, Conds, Drs, Thing, negated};
use std::alloc::Global;
use wiki_base::Memory;

/// The class of a structure at a root, or why there is none. Where each referent is introduced once and the root is none
/// of them, an element is in the class exactly where the structure is true with it for the root.
pub fn class_at_root(alloc: Global, root: Option<Thing>, drs: &Drs) -> Result<Class, Fault>
    ensures exact { Agrees concept_of result (roll root (structure_of drs.now)) }
    ensures truth { IfOk result (λ class. RollsTruly root (structure_of drs.now) (concept_of class)) }
{
    match roll(alloc, root, drs) {
        Ok(class) => Ok(class),
        Err(fault) => Err(fault),
    }
}

#[cycle(rolling)]
fn roll(alloc: Global, root: Option<Thing>, drs: &Drs) -> Result<Class, Fault>
    ensures { Agrees concept_of result (roll root (structure_of drs.now)) }
{
    rolled(alloc, root, drs.referents().as_slice(), drs.conditions())
}

/// The class of a structure of these referents and conditions.
#[cycle(rolling)]
pub fn rolled(
    alloc: Global,
    root: Option<Thing>,
    referents: &[u16],
    conditions: &Conds,
) -> Result<Class, Fault>
    ensures { Agrees concept_of result (next (parts root referents.now (conditions_from (conditions_of conditions.now))) (class_of_tree referents.now)) }
{
    let given = parts_of(alloc, root, referents, conditions)?;
    class_of_tree(alloc, referents, given.as_slice())
}

// The class of the left structure with one more condition, that the right one is not true.
#[cycle(rolling)]
fn roll_without(alloc: Global, root: Option<Thing>, left: &Drs, right: &Drs) -> Result<Class, Fault>
    ensures { Agrees concept_of result (roll_with root (structure_of left.now)
        (negation_part (λ w. roll w (structure_of right.now)) (structure_of right.now) root)) }
{
    let referents = left.referents().as_slice();
    rolled_without(alloc, root, referents, left.conditions(), right)
}

#[cycle(rolling)]
fn rolled_without(
    alloc: Global,
    root: Option<Thing>,
    referents: &[u16],
    conditions: &Conds,
    right: &Drs,
) -> Result<Class, Fault>
    ensures { Agrees concept_of result (next (parts root referents.now (conditions_from (conditions_of conditions.now)))
        (λ ps. next (negation_part (λ w. roll w (structure_of right.now)) (structure_of right.now) root referents.now)
        (λ p. class_of_tree referents.now (ps ++ p ∷ [])))) }
{
    let mut given = parts_of(alloc, root, referents, conditions)?;
    let last = not_part(alloc, root, referents, right)?;
    given.push(last)?;
    class_of_tree(alloc, referents, given.as_slice())
}

// What conditions give.
#[cycle(rolling)]
fn parts_of(
    alloc: Global,
    root: Option<Thing>,
    referents: &[u16],
    conditions: &Conds,
) -> Result<List<Part>, Fault>
    ensures { Agrees (λ given. map part_shown given) result (parts root referents.now (conditions_from (conditions_of conditions.now))) }
{
    let mut given = List::new(alloc);
    for place in 0..conditions.len() {
        match part_of(alloc, root, referents, conditions.get(place)) {
            Ok(part) => given.push(part)?,
            Err(fault) => return Err(fault),
        }
    }
    Ok(given)
}

/// What a condition gives.
#[cycle(rolling)]
pub fn part_of(
    alloc: Global,
    root: Option<Thing>,
    referents: &[u16],
    condition: &Cond,
) -> Result<Part, Fault>
    ensures { Agrees part_shown result (part_of root referents.now (condition_of condition.now)) }
{
    match condition {
        Cond::Class(noun, thing) => noun_part(root, referents, *noun, *thing),
        Cond::Rel(word, from, to) => relation_part(root, referents, *word, *from, *to),
        Cond::Same(one, other) => same_part(root, referents, *one, *other),
        Cond::Not(inner) => not_part(alloc, root, referents, inner),
        Cond::Implies(left, right) => implies_part(alloc, root, referents, left, right),
        Cond::Or(left, right) => or_part(alloc, root, referents, left, right),
    }
}

#[cycle(rolling)]
fn not_part(
    alloc: Global,
    root: Option<Thing>,
    referents: &[u16],
    inner: &Drs,
) -> Result<Part, Fault>
    ensures { Agrees part_shown result (negation_part (λ v. roll v (structure_of inner.now)) (structure_of inner.now) root referents.now) }
{
    let terms = structure_terms(alloc, inner)?;
    let (inner_root, node) = holder(alloc, root, referents, terms.as_slice())?;
    let class = roll(alloc, inner_root, inner)?;
    let negative = negated(alloc, &class)?;
    Ok(Part::At(node, negative))
}

#[cycle(rolling)]
fn implies_part(
    alloc: Global,
    root: Option<Thing>,
    referents: &[u16],
    left: &Drs,
    right: &Drs,
) -> Result<Part, Fault>
    ensures { Agrees part_shown result (part_of root referents.now (Implication (structure_of left.now) (structure_of right.now))) }
{
    let terms = implication_terms(alloc, left, right)?;
    let (inner_root, node) = holder(alloc, root, referents, terms.as_slice())?;
    let class = roll_without(alloc, inner_root, left, right)?;
    let kept = negated(alloc, &class)?;
    Ok(Part::At(node, kept))
}

#[cycle(rolling)]
fn or_part(
    alloc: Global,
    root: Option<Thing>,
    referents: &[u16],
    left: &Drs,
    right: &Drs,
) -> Result<Part, Fault>
    ensures { Agrees part_shown result (part_of root referents.now (Disjunction (structure_of left.now) (structure_of right.now))) }
{
    let terms = disjunction_terms(alloc, left, right)?;
    let (inner_root, node) = holder(alloc, root, referents, terms.as_slice())?;
    let first = roll(alloc, inner_root, left)?;
    let second = roll(alloc, inner_root, right)?;
    let either = either(alloc, first, second)?;
    Ok(Part::At(node, either))
}

fn either(alloc: Global, first: Class, second: Class) -> Result<Class, Memory>
    ensures { IfOk result (λ either. concept_of either ≡ UnionOf (also_concept (concept_of first) (also_concept (concept_of second) no_concept))) }
{
    let mut members = Classes::new(alloc);
    members.push(first)?;
    members.push(second)?;
    Ok(Class::Or(members))
}

// The one term that is open among these, with the member that it is; or the root where there is none.
fn holder(
    alloc: Global,
    root: Option<Thing>,
    referents: &[u16],
    terms: &[Thing],
) -> Result<(Option<Thing>, u32), Fault>
    ensures { Agrees (λ h. h) result (holder root referents.now (filter (is_open root) terms.now)) }
{
    let opened = open_terms(alloc, root, terms)?;
    let Some((first, rest)) = opened.as_slice().split_first() else {
        return Ok((root, 0));
    };
    if all_same(*first, rest) {
        held_at(root, referents, *first)
    } else {
        Err(Fault::Outside(Cause::Shared))
    }
}

fn all_same(first: Thing, rest: &[Thing]) -> bool
    ensures { result ≡ list_all (same_thing first) rest.now }
{
    rest.iter().all(|term| same_thing(first, *term))
}

// A term with the member that it is.
fn held_at(
    root: Option<Thing>,
    referents: &[u16],
    term: Thing,
) -> Result<(Option<Thing>, u32), Fault>
    ensures { Agrees (λ h. h) result (held_at root referents.now term) }
{
    match member(root, referents, term) {
        Some(node) => Ok((Some(term), node)),
        None => Err(Fault::Outside(Cause::Shared)),
    }
}
