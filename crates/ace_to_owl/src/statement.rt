// The axioms of a statement.
ghost use Rattle.std.specs.Prelude.{◌≡◌, ◌++◌, ◌≤◌, [], None, map, length, take, IfOk, OnOk, if◌then◌else◌};
ghost use Rattle.logic_terms.specs.Shown.{concept_of, claim_of, claims_of, structure_of, condition_of, conditions_of};
ghost use Rattle.logic_terms.specs.Structure.{structure, conditions_from};
ghost use Rattle.ace_to_owl.specs.Answers.{part_shown, option_shown, listed, Agrees};
ghost use Rattle.ace_to_owl.specs.Terms.{first_name, terms_in_all, terms_in_condition};
ghost use Rattle.ace_to_owl.specs.Groups.{AreKnown, part_with};
ghost use Rattle.ace_to_owl.specs.Rolling.{part_of, parts};
ghost use Rattle.ace_to_owl.specs.Mapping.{together, conditions_with, referents_with, member_claim, claim_together, claim_at, claims_after, axioms_stated};
ghost use Rattle.ace_to_owl.specs.Outcomes.{next};
ghost use Rattle.ace_to_owl.specs.Parts.{class_of_tree};
ghost use Rattle.std.specs.List.{list_any};

use crate::alone::claim_alone;
use crate::components::{groups_of, is_earlier, is_together, joins, referents_with};
use crate::fault::Fault;
use crate::part::Part;
use crate::rolling::part_of;
use crate::terms::{condition_terms, first_name};
use crate::tree::class_of_tree;
use lists::List;
use logic_terms::{Axiom, Axioms, Cause, Class, Cond, Conds, Drs, Thing};
use std::alloc::Global;
use wiki_base::{Memory, WordId};

/// A statement's referents and conditions, the group of referents that each condition uses, and moves of labels after which
/// joined referents have one.
#[derive(Drop)]
pub struct Whole<'a> {
    pub referents: &'a [u16],
    pub conditions: &'a Conds,
    pub groups: &'a [List<u16>],
    pub moves: &'a [(u32, u32)],
}

/// The axioms of a statement, or why there are none.
pub fn axioms_stated(alloc: Global, drs: &Drs) -> Result<Axioms, Fault>
    ensures { Agrees claims_of result (axioms_stated (structure_of drs.now)) }
{
    axioms_of(alloc, drs.referents().as_slice(), drs.conditions())
}

fn axioms_of(alloc: Global, referents: &[u16], conditions: &Conds) -> Result<Axioms, Fault>
    ensures { Agrees claims_of result (axioms_stated (structure referents.now (conditions_from (conditions_of conditions.now)))) }
{
    let groups = groups_of(alloc, referents, conditions)?;
    let moves = joins(alloc, groups.as_slice())?;
    let whole = Whole {
        referents,
        conditions,
        groups: groups.as_slice(),
        moves: moves.as_slice(),
    };
    axioms_by(alloc, &whole)
}

fn axioms_by(alloc: Global, whole: &Whole<'_>) -> Result<Axioms, Fault>
    requires { AreKnown whole.now }
    ensures { Agrees claims_of result (claims_after whole.now.referents.now whole.now.groups.now (conditions_of whole.now.conditions.now) []
        (conditions_of whole.now.conditions.now)) }
{
    let mut axioms = Axioms::new(alloc);
    for place in 0..whole.groups.len() {
        let own = whole.groups[place].as_slice();
        match claim_at(alloc, whole, own, place, whole.conditions.get(place)) {
            Ok(claim) => push_claim(&mut axioms, claim)?,
            Err(fault) => return Err(fault),
        }
    }
    Ok(axioms)
}

fn push_claim(axioms: &mut Axioms, claim: Option<Axiom>) -> Result<(), Memory>
    ensures { OnOk result (claims_of axioms.new ≡ claims_of axioms.old ++ listed (option_shown claim_of claim)) }
{
    match claim {
        Some(claim) => axioms.push(claim),
        None => Ok(()),
    }
}

// The axiom of a condition with this group at this place.
fn claim_at(
    alloc: Global,
    whole: &Whole<'_>,
    own: &[u16],
    place: usize,
    condition: &Cond,
) -> Result<Option<Axiom>, Fault>
    requires known { AreKnown whole.now }
    requires place { place ≤ length whole.now.groups.now }
    ensures { Agrees (option_shown claim_of) result
        (claim_at whole.now.referents.now whole.now.groups.now (conditions_of whole.now.conditions.now) (take place whole.now.groups.now) own.now
        (condition_of condition.now)) }
{
    if own.is_empty() {
        let alone = claim_alone(alloc, condition)?;
        Ok(Some(alone))
    } else if was_before(whole, own, place) {
        Ok(None)
    } else {
        let first = claim_together(alloc, whole, own)?;
        Ok(Some(first))
    }
}

// Whether a group belongs together with one before a place.
fn was_before(whole: &Whole<'_>, own: &[u16], place: usize) -> bool
    requires known { AreKnown whole.now }
    requires place { place ≤ length whole.now.groups.now }
    ensures { result ≡ list_any (together whole.now.groups.now own.now) (take place whole.now.groups.now) }
{
    is_earlier(whole.moves, own, groups_before(whole.groups, place))
}

fn groups_before(groups: &[List<u16>], place: usize) -> &[List<u16>]
    requires { place ≤ length groups.now }
    ensures { result.now ≡ take place groups.now }
{
    &groups[..place]
}

fn is_with(whole: &Whole<'_>, own: &[u16], group: &[u16]) -> bool
    requires { AreKnown whole.now }
    ensures { result ≡ together whole.now.groups.now own.now group.now }
{
    is_together(whole.moves, own, group)
}

fn referents_inside(alloc: Global, whole: &Whole<'_>, own: &[u16]) -> Result<List<u16>, Memory>
    requires { AreKnown whole.now }
    ensures { IfOk result (λ inside. inside ≡ referents_with whole.now.groups.now own.now whole.now.referents.now) }
{
    let inside = referents_with(alloc, whole.moves, own, whole.referents)?;
    Ok(inside)
}

// The axiom of the conditions that belong together with a group, at the first name in them.
fn claim_together(alloc: Global, whole: &Whole<'_>, own: &[u16]) -> Result<Axiom, Fault>
    requires { AreKnown whole.now }
    ensures { Agrees claim_of result (claim_together (referents_with whole.now.groups.now own.now whole.now.referents.now)
        (conditions_with whole.now.referents.now whole.now.groups.now own.now (conditions_of whole.now.conditions.now))) }
{
    match name_together(alloc, whole, own)? {
        Some(name) => claim_named(alloc, whole, own, name),
        None => Err(Fault::Outside(Cause::NoRoot)),
    }
}

fn claim_named(alloc: Global, whole: &Whole<'_>, own: &[u16], name: WordId) -> Result<Axiom, Fault>
    requires { AreKnown whole.now }
    ensures { Agrees claim_of result (member_claim name
        (structure (referents_with whole.now.groups.now own.now whole.now.referents.now)
        (conditions_from (conditions_with whole.now.referents.now whole.now.groups.now own.now (conditions_of whole.now.conditions.now))))) }
{
    let inside = referents_inside(alloc, whole, own)?;
    let root = Some(Thing::Name(name));
    match rolled_together(alloc, root, inside.as_slice(), whole, own) {
        Ok(class) => Ok(Axiom::Member(class, name)),
        Err(fault) => Err(fault),
    }
}

fn rolled_together(
    alloc: Global,
    root: Option<Thing>,
    inside: &[u16],
    whole: &Whole<'_>,
    own: &[u16],
) -> Result<Class, Fault>
    requires { AreKnown whole.now }
    ensures { Agrees concept_of result (next
        (parts root inside.now (conditions_from
        (conditions_with whole.now.referents.now whole.now.groups.now own.now (conditions_of whole.now.conditions.now)))) (class_of_tree inside.now)) }
{
    let given = parts_together(alloc, root, inside, whole, own)?;
    class_of_tree(alloc, inside, given.as_slice())
}

// The first name in the conditions that belong together with a group.
fn name_together(alloc: Global, whole: &Whole<'_>, own: &[u16]) -> Result<Option<WordId>, Memory>
    requires { AreKnown whole.now }
    ensures { IfOk result (λ found. found
        ≡ first_name (terms_in_all [] (conditions_from
        (conditions_with whole.now.referents.now whole.now.groups.now own.now (conditions_of whole.now.conditions.now))))) }
{
    for place in 0..whole.groups.len() {
        let group = whole.groups[place].as_slice();
        let name = name_with(alloc, whole, own, group, whole.conditions.get(place))?;
        if let Some(name) = name {
            return Ok(Some(name));
        }
    }
    Ok(None)
}

// The first name in a condition, if its group belongs together with the other one.
fn name_with(
    alloc: Global,
    whole: &Whole<'_>,
    own: &[u16],
    group: &[u16],
    condition: &Cond,
) -> Result<Option<WordId>, Memory>
    requires { AreKnown whole.now }
    ensures { IfOk result (λ found. found
        ≡ (if together whole.now.groups.now own.now group.now then first_name (terms_in_condition [] (condition_of condition.now)) else None)) }
{
    if is_with(whole, own, group) {
        let terms = condition_terms(alloc, condition)?;
        Ok(first_name(terms.as_slice()))
    } else {
        Ok(None)
    }
}

// What the conditions give that belong together with a group.
fn parts_together(
    alloc: Global,
    root: Option<Thing>,
    inside: &[u16],
    whole: &Whole<'_>,
    own: &[u16],
) -> Result<List<Part>, Fault>
    requires { AreKnown whole.now }
    ensures { Agrees (λ given. map part_shown given) result
        (parts root inside.now (conditions_from
        (conditions_with whole.now.referents.now whole.now.groups.now own.now (conditions_of whole.now.conditions.now)))) }
{
    let mut given = List::new(alloc);
    for place in 0..whole.groups.len() {
        let group = whole.groups[place].as_slice();
        match part_with(
            alloc,
            root,
            inside,
            whole,
            own,
            group,
            whole.conditions.get(place),
        ) {
            Ok(part) => push_part(&mut given, part)?,
            Err(fault) => return Err(fault),
        }
    }
    Ok(given)
}

// What a condition gives, if its group belongs together with the other one.
fn part_with(
    alloc: Global,
    root: Option<Thing>,
    inside: &[u16],
    whole: &Whole<'_>,
    own: &[u16],
    group: &[u16],
    condition: &Cond,
) -> Result<Option<Part>, Fault>
    requires { AreKnown whole.now }
    ensures { Agrees (option_shown part_shown) result
        (part_with (together whole.now.groups.now own.now group.now) (part_of root inside.now (condition_of condition.now))) }
{
    if is_with(whole, own, group) {
        let part = part_of(alloc, root, inside, condition)?;
        Ok(Some(part))
    } else {
        Ok(None)
    }
}

fn push_part(given: &mut List<Part>, part: Option<Part>) -> Result<(), Memory>
    ensures { OnOk result (map part_shown given.new ≡ map part_shown given.old ++ listed (option_shown part_shown part)) }
{
    match part {
        Some(part) => given.push(part),
        None => Ok(()),
    }
}
