// The first free referent of a structure.
ghost use Rattle.std.specs.Prelude.{◌≡◌, [], ◌++◌, IfOk};
ghost use Rattle.logic_terms.specs.Shown.{structure_of, condition_of, conditions_of};
ghost use Rattle.std.specs.Option.{option_or};
ghost use Rattle.logic_terms.specs.Structure.{conditions_from};
ghost use Rattle.logic_terms.specs.Free as free;

use lists::List;
use logic_terms::{Cond, Conds, Drs, Thing};
use std::alloc::Global;
use wiki_base::Memory;

/// The first referent from left to right that is used where no structure around introduces it nor, on the right of an
/// implication, the left side. `None` where there is none.
pub fn first_free(alloc: Global, drs: &Drs) -> Result<Option<u16>, Memory>
    ensures { IfOk result (λ found. found ≡ free.free_in [] (structure_of drs.now)) }
{
    free_in(alloc, &List::new(alloc), drs)
}

fn is_bound(bound: &[u16], referent: u16) -> bool
    ensures { result ≡ free.is_bound bound.now referent }
{
    bound.iter().any(|other| *other == referent)
}

fn free_thing(bound: &[u16], thing: Thing) -> Option<u16>
    ensures { result ≡ free.free_thing bound.now thing }
{
    match thing {
        Thing::Ref(referent) => {
            if is_bound(bound, referent) {
                None
            } else {
                Some(referent)
            }
        }
        Thing::Name(_) => None,
    }
}

fn free_pair(bound: &[u16], one: Thing, other: Thing) -> Option<u16>
    ensures { result ≡ option_or (free.free_thing bound.now one) (free.free_thing bound.now other) }
{
    match free_thing(bound, one) {
        Some(referent) => Some(referent),
        None => free_thing(bound, other),
    }
}

// These referents, and then those.
fn joined(alloc: Global, more: &[u16], bound: &[u16]) -> Result<List<u16>, Memory>
    ensures { IfOk result (λ all. all ≡ more.now ++ bound.now) }
{
    let mut all = Vec::from_slice(alloc, more)?;
    all.extend_from_slice(bound)?;
    Ok(List::from_vec(all))
}

#[cycle(free)]
fn free_in(alloc: Global, bound: &List<u16>, drs: &Drs) -> Result<Option<u16>, Memory>
    ensures { IfOk result (λ found. found ≡ free.free_in bound.now (structure_of drs.now)) }
{
    let all = joined(alloc, drs.referents().as_slice(), bound.as_slice())?;
    free_in_all(alloc, &all, drs.conditions())
}

#[cycle(free)]
fn free_in_all(alloc: Global, bound: &List<u16>, conditions: &Conds) -> Result<Option<u16>, Memory>
    ensures { IfOk result (λ found. found ≡ free.free_in_all bound.now (conditions_from (conditions_of conditions.now))) }
{
    for place in 0..conditions.len() {
        if let Some(referent) = free_in_condition(alloc, bound, conditions.get(place))? {
            return Ok(Some(referent));
        }
    }
    Ok(None)
}

#[cycle(free)]
fn free_in_condition(
    alloc: Global,
    bound: &List<u16>,
    condition: &Cond,
) -> Result<Option<u16>, Memory>
    ensures { IfOk result (λ found. found ≡ free.free_in_condition bound.now (condition_of condition.now)) }
{
    match condition {
        Cond::Class(_, thing) => Ok(free_thing(bound.as_slice(), *thing)),
        Cond::Rel(_, from, to) => Ok(free_pair(bound.as_slice(), *from, *to)),
        Cond::Same(one, other) => Ok(free_pair(bound.as_slice(), *one, *other)),
        Cond::Not(inner) => free_in(alloc, bound, inner),
        Cond::Implies(left, right) => {
            if let Some(referent) = free_in(alloc, bound, left)? {
                return Ok(Some(referent));
            }
            let all = joined(alloc, left.referents().as_slice(), bound.as_slice())?;
            free_in(alloc, &all, right)
        }
        Cond::Or(one, other) => {
            if let Some(referent) = free_in(alloc, bound, one)? {
                return Ok(Some(referent));
            }
            free_in(alloc, bound, other)
        }
    }
}
