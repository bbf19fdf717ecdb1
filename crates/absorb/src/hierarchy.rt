// The hierarchy of roles.
ghost use Rattle.std.specs.Prelude.{◌≡◌, ◌⊎◌, Contains, IfOk, OnOk, IsTrue, ◌↔◌};
ghost use Rattle.logic_terms.specs.declared.expressions.Role.{Role};
ghost use Rattle.absorb.specs.Hierarchy.{IsAtOrBelow, AreDistinct};
ghost use Rattle.absorb.specs.Absorbed.{IsPutBelow};
ghost use Rattle.absorb.specs.Closure.{Reaches};

use logic_terms::Role;
use std::alloc::Global;
use wiki_base::Memory;

// The pairs of different roles of which inclusions, as they stand and with both sides inverted, put the first below the
// second in any number of steps.
pub(crate) fn hierarchy(
    alloc: Global,
    inclusions: &[(Role, Role)],
) -> Result<Vec<(Role, Role)>, Memory>
    ensures closed { IfOk result (λ made. (r s : Role) → IsAtOrBelow made.items r s ↔ Reaches (IsPutBelow inclusions.now) r s) }
    ensures distinct { IfOk result (λ made. AreDistinct made.items) }
{
    let mut made = Vec::new(alloc);
    for inclusion in inclusions {
        put_below(alloc, &mut made, inclusion.0, inclusion.1)?;
        put_below(
            alloc,
            &mut made,
            inclusion.0.inverse(),
            inclusion.1.inverse(),
        )?;
    }
    Ok(made)
}

// Puts each role that is not above the one below each that is not below the other.
fn put_below(
    alloc: Global,
    hierarchy: &mut Vec<(Role, Role)>,
    below: Role,
    above: Role,
) -> Result<(), Memory>
    requires { AreDistinct hierarchy.old.items }
    ensures closed { OnOk result ((r s : Role)
        → IsAtOrBelow hierarchy.new.items r s ↔
        (IsAtOrBelow hierarchy.old.items r s ⊎ (IsAtOrBelow hierarchy.old.items r below × IsAtOrBelow hierarchy.old.items above s))) }
    ensures distinct { OnOk result (AreDistinct hierarchy.new.items) }
{
    let lower = lower(alloc, hierarchy.as_slice(), below)?;
    let upper = upper(alloc, hierarchy.as_slice(), above)?;
    for first in &lower {
        put_each(hierarchy, *first, upper.as_slice())?;
    }
    Ok(())
}

// Puts one role below each of several.
fn put_each(hierarchy: &mut Vec<(Role, Role)>, below: Role, above: &[Role]) -> Result<(), Memory>
    requires { AreDistinct hierarchy.old.items }
    ensures closed { OnOk result ((r s : Role)
        → IsAtOrBelow hierarchy.new.items r s ↔ (IsAtOrBelow hierarchy.old.items r s ⊎ ((below ≡ r) × Contains above.now s))) }
    ensures distinct { OnOk result (AreDistinct hierarchy.new.items) }
{
    for role in above {
        if !is_within(hierarchy.as_slice(), below, *role) {
            hierarchy.push((below, *role))?;
        }
    }
    Ok(())
}

// Whether a role is another, or a pair puts it below.
fn is_within(hierarchy: &[(Role, Role)], below: Role, above: Role) -> bool
    ensures { IsTrue result ↔ IsAtOrBelow hierarchy.now below above }
{
    if is_same(below, above) {
        return true;
    }
    for pair in hierarchy {
        if is_same(pair.0, below) && is_same(pair.1, above) {
            return true;
        }
    }
    false
}

fn is_same(one: Role, other: Role) -> bool
    ensures { IsTrue result ↔ (one ≡ other) }
{
    one.id.0 == other.id.0 && one.inverted == other.inverted
}

// A role and those that pairs put below it.
fn lower(alloc: Global, hierarchy: &[(Role, Role)], role: Role) -> Result<Vec<Role>, Memory>
    ensures { IfOk result (λ made. (r : Role) → Contains made.items r ↔ IsAtOrBelow hierarchy.now r role) }
{
    let mut made = Vec::new(alloc);
    made.push(role)?;
    for pair in hierarchy {
        if is_same(pair.1, role) {
            made.push(pair.0)?;
        }
    }
    Ok(made)
}

// A role and those that pairs put above it.
fn upper(alloc: Global, hierarchy: &[(Role, Role)], role: Role) -> Result<Vec<Role>, Memory>
    ensures { IfOk result (λ made. (r : Role) → Contains made.items r ↔ IsAtOrBelow hierarchy.now role r) }
{
    let mut made = Vec::new(alloc);
    made.push(role)?;
    for pair in hierarchy {
        if is_same(pair.0, role) {
            made.push(pair.1)?;
        }
    }
    Ok(made)
}
