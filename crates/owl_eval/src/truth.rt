// Which structures are true.
ghost use Rattle.std.specs.Prelude.{◌≡◌, ℕ, ◌||◌, ◌↔◌, IsTrue, IfOk, OnOk};
ghost use Rattle.logic_terms.specs.Shown.{structure_of, condition_of, conditions_of};
ghost use Rattle.logic_terms.specs.Truth.{thing_in, some_extension, each_extension, is_true, condition_true};
ghost use Rattle.logic_terms.specs.Reading.{IsTrueUnder};
ghost use Rattle.logic_terms.specs.Free.{IsClosed};
ghost use Rattle.owl_eval.specs.Assigned.{assigned, nothing_given, each_condition, carries_over};

use crate::interp::Interp;
use logic_terms::{Cond, Conds, Drs, Thing};
use std::alloc::Global;
use wiki_base::Memory;

/// Whether a structure is true in an interpretation, after Kamp and Reyle, From Discourse to Logic, 1993. It takes memory
/// for assignments alone. No referent of the structure should be free; one that is stands for element 0.
pub fn drs_true(alloc: Global, interp: &Interp, drs: &Drs) -> Result<bool, Memory>
    ensures exact { IfOk result (λ answer. answer ≡ is_true interp.now (structure_of drs.now) nothing_given) }
    ensures reading { IfOk result (λ answer. IsTrue answer ↔ IsTrueUnder interp.now (structure_of drs.now) nothing_given) }
    ensures closed { IfOk result (λ answer. IsClosed (structure_of drs.now) → (f : ℕ → ℕ) → IsTrue answer ↔ IsTrueUnder interp.now (structure_of drs.now) f) }
{
    let mut given = Vec::new(alloc);
    structure_true(interp, drs, &mut given)
}

#[cycle(truth)]
fn structure_true(interp: &Interp, drs: &Drs, given: &mut Vec<(u16, u64)>) -> Result<bool, Memory>
    ensures truth { IfOk result (λ answer. answer ≡ is_true interp.now (structure_of drs.now) (assigned given.old.items)) }
    ensures kept { OnOk result (given.new.items ≡ given.old.items) }
{
    let referents = drs.referents().as_slice();
    some_extension_true(interp, referents, drs.conditions(), given)
}

// Whether some extension to these referents makes the conditions true.
#[cycle(truth)]
fn some_extension_true(
    interp: &Interp,
    referents: &[u16],
    conditions: &Conds,
    given: &mut Vec<(u16, u64)>,
) -> Result<bool, Memory>
    ensures truth { IfOk result (λ answer. answer
        ≡ some_extension interp.now.size referents.now (each_condition interp.now (conditions_of conditions.now)) (assigned given.old.items)) }
    ensures kept { OnOk result (given.new.items ≡ given.old.items) }
{
    let Some((first, rest)) = referents.split_first() else {
        return conditions_true(interp, conditions, given);
    };
    for element in 0..interp.size() {
        given.push((*first, element))?;
        let found = some_extension_true(interp, rest, conditions, given)?;
        given.pop();
        if found {
            return Ok(true);
        }
    }
    Ok(false)
}

// Whether each extension to these referents that makes the conditions true makes the right side true.
#[cycle(truth)]
fn each_extension_true(
    interp: &Interp,
    referents: &[u16],
    conditions: &Conds,
    right: &Drs,
    given: &mut Vec<(u16, u64)>,
) -> Result<bool, Memory>
    ensures truth { IfOk result (λ answer. answer
        ≡ each_extension interp.now.size referents.now (carries_over interp.now (conditions_of conditions.now) (structure_of right.now))
        (assigned given.old.items)) }
    ensures kept { OnOk result (given.new.items ≡ given.old.items) }
{
    let Some((first, rest)) = referents.split_first() else {
        return if_then_true(interp, conditions, right, given);
    };
    for element in 0..interp.size() {
        given.push((*first, element))?;
        let kept = each_extension_true(interp, rest, conditions, right, given)?;
        given.pop();
        if !kept {
            return Ok(false);
        }
    }
    Ok(true)
}

// Whether a structure is true if these conditions are.
#[cycle(truth)]
fn if_then_true(
    interp: &Interp,
    conditions: &Conds,
    right: &Drs,
    given: &mut Vec<(u16, u64)>,
) -> Result<bool, Memory>
    ensures truth { IfOk result (λ answer. answer
        ≡ carries_over interp.now (conditions_of conditions.now) (structure_of right.now) (assigned given.old.items)) }
    ensures kept { OnOk result (given.new.items ≡ given.old.items) }
{
    if conditions_true(interp, conditions, given)? {
        structure_true(interp, right, given)
    } else {
        Ok(true)
    }
}

#[cycle(truth)]
fn conditions_true(
    interp: &Interp,
    conditions: &Conds,
    given: &mut Vec<(u16, u64)>,
) -> Result<bool, Memory>
    ensures truth { IfOk result (λ answer. answer ≡ each_condition interp.now (conditions_of conditions.now) (assigned given.old.items)) }
    ensures kept { OnOk result (given.new.items ≡ given.old.items) }
{
    for place in 0..conditions.len() {
        if !holds(interp, conditions.get(place), given)? {
            return Ok(false);
        }
    }
    Ok(true)
}

#[cycle(truth)]
fn holds(interp: &Interp, condition: &Cond, given: &mut Vec<(u16, u64)>) -> Result<bool, Memory>
    ensures truth { IfOk result (λ answer. answer ≡ condition_true interp.now (condition_of condition.now) (assigned given.old.items)) }
    ensures kept { OnOk result (given.new.items ≡ given.old.items) }
{
    match condition {
        Cond::Class(noun, thing) => Ok(interp.has_element(*noun, meant(interp, *thing, given))),
        Cond::Rel(word, from, to) => {
            let from = meant(interp, *from, given);
            let to = meant(interp, *to, given);
            Ok(interp.has_pair(*word, from, to))
        }
        Cond::Same(one, other) => Ok(meant(interp, *one, given) == meant(interp, *other, given)),
        Cond::Not(inner) => Ok(!structure_true(interp, inner, given)?),
        Cond::Implies(left, right) => {
            let referents = left.referents().as_slice();
            each_extension_true(interp, referents, left.conditions(), right, given)
        }
        Cond::Or(left, right) => either_true(interp, left, right, given),
    }
}

// Whether one of two structures is true.
#[cycle(truth)]
fn either_true(
    interp: &Interp,
    left: &Drs,
    right: &Drs,
    given: &mut Vec<(u16, u64)>,
) -> Result<bool, Memory>
    ensures truth { IfOk result (λ answer. answer
        ≡ (is_true interp.now (structure_of left.now) (assigned given.old.items) || is_true interp.now (structure_of right.now) (assigned given.old.items))) }
    ensures kept { OnOk result (given.new.items ≡ given.old.items) }
{
    if structure_true(interp, left, given)? {
        return Ok(true);
    }
    structure_true(interp, right, given)
}

// The element that a thing stands for.
fn meant(interp: &Interp, thing: Thing, given: &[(u16, u64)]) -> u64
    ensures { result ≡ thing_in interp.now (assigned given.now) thing }
{
    match thing {
        Thing::Ref(referent) => last_given(given, referent),
        Thing::Name(name) => interp.element(name),
    }
}

// The element that a referent was given last, or 0.
fn last_given(given: &[(u16, u64)], referent: u16) -> u64
    ensures { result ≡ assigned given.now referent }
{
    let mut element = 0;
    for entry in given {
        if entry.0 == referent {
            element = entry.1;
        }
    }
    element
}
