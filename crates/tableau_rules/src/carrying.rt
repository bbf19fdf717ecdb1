// What transitive roles carry along.
ghost use Rattle.std.specs.Prelude.{◌≡◌, ◌&&◌, ◌∷◌, ◌++◌, [], map, IfOk, OnOk, if◌then◌else◌};
ghost use Rattle.logic_terms.specs.Concept.{AllValuesFrom, ComplementOf, HasValue};
ghost use Rattle.logic_terms.specs.Known.{theory_of};
ghost use Rattle.logic_terms.specs.Same.{same_concept, has_concept};
ghost use Rattle.logic_terms.specs.Shown.{concept_of, concepts_of};
ghost use Rattle.logic_terms.specs.Theory.{is_below};
ghost use Rattle.tableau_rules.specs.Carrying.{role_of_all, along, carried};
ghost use Rattle.tableau_rules.specs.Neighbours.{is_neighbour};
ghost use Rattle.tableau_rules.specs.Shown.{graph_of};

use crate::branch::Branch;
use crate::neighbour::is_neighbour;
use logic_terms::{Class, Classes, Knowledge, Role};
use std::alloc::Global;
use wiki_base::{Memory, WordId};

/// The role of a class that speaks of all successors: `All`, and the complement of `Value`. It takes no memory.
pub fn role_of_all(class: &Class) -> Option<Role>
    ensures { result ≡ role_of_all (concept_of class.now) }
{
    match class {
        Class::All(role, _) => Some(*role),
        Class::Not(inner) => role_of_value(inner),
        _ => None,
    }
}

fn role_of_value(inner: &Class) -> Option<Role>
    ensures { result ≡ role_of_all (ComplementOf (concept_of inner.now)) }
{
    match inner {
        Class::Value(role, _) => Some(*role),
        _ => None,
    }
}

// Whether a label has the class that speaks of the successors by another role.
pub(crate) fn has_along(label: &[Class], role: Role, class: &Class) -> bool
    ensures { result ≡ has_concept (map concept_of label.now) (along role (concept_of class.now)) }
{
    for own in label {
        if is_along(own, role, class) {
            return true;
        }
    }
    false
}

// Whether a class is another one with this role in its place.
fn is_along(own: &Class, role: Role, class: &Class) -> bool
    ensures { result ≡ same_concept (concept_of own.now) (along role (concept_of class.now)) }
{
    match class {
        Class::All(_, inner) => is_all(own, role, inner),
        Class::Value(_, name) => is_value(own, role, *name),
        Class::Not(inner) => match own {
            Class::Not(own_inner) => is_along(own_inner, role, inner),
            _ => false,
        },
        _ => own.is_same(class),
    }
}

fn is_all(own: &Class, role: Role, inner: &Class) -> bool
    ensures { result ≡ same_concept (concept_of own.now) (AllValuesFrom role (concept_of inner.now)) }
{
    match own {
        Class::All(own_role, own_inner) => own_role.is_same(role) && own_inner.is_same(inner),
        _ => false,
    }
}

fn is_value(own: &Class, role: Role, name: WordId) -> bool
    ensures { result ≡ same_concept (concept_of own.now) (HasValue role name) }
{
    match own {
        Class::Value(own_role, own_name) => own_role.is_same(role) && own_name.0 == name.0,
        _ => false,
    }
}

// The class with this role in the place of its own.
fn along(alloc: Global, role: Role, class: &Class) -> Result<Class, Memory>
    ensures { IfOk result (λ made. concept_of made ≡ along role (concept_of class.now)) }
{
    match class {
        Class::All(_, inner) => Ok(Class::All(role, Box::new(alloc, inner.copy(alloc)?)?)),
        Class::Value(_, name) => Ok(Class::Value(role, *name)),
        Class::Not(inner) => Ok(Class::Not(Box::new(alloc, along(alloc, role, inner)?)?)),
        other => other.copy(alloc),
    }
}

// What transitive roles below a role carry of a class from one node to another.
pub(crate) fn carried(
    k: &Knowledge,
    b: &Branch,
    role: Role,
    class: &Class,
    node: u64,
    other: u64,
) -> Result<Classes, Memory>
    ensures { IfOk result (λ made. concepts_of made ≡ carried (theory_of k.now) (graph_of b.now) role (concept_of class.now) node other) }
{
    let alloc = b.allocator();
    let mut made = Classes::new(alloc);
    for word in k.transitive() {
        let plain = Role {
            id: *word,
            inverted: false,
        };
        carry(
            &mut made,
            carries(k, b, role, plain, node, other),
            plain,
            class,
            alloc,
        )?;
        let inverse = plain.inverse();
        carry(
            &mut made,
            carries(k, b, role, inverse, node, other),
            inverse,
            class,
            alloc,
        )?;
    }
    Ok(made)
}

// Adds the class along a role, if it is carried.
fn carry(
    made: &mut Classes,
    is_carried: bool,
    role: Role,
    class: &Class,
    alloc: Global,
) -> Result<(), Memory>
    ensures { OnOk result (concepts_of made.new ≡ concepts_of made.old ++ (if is_carried then along role (concept_of class.now) ∷ [] else [])) }
{
    if is_carried {
        made.push(along(alloc, role, class)?)
    } else {
        Ok(())
    }
}

// Whether a role is below another and makes the one node a neighbour of the other.
fn carries(k: &Knowledge, b: &Branch, role: Role, carrier: Role, node: u64, other: u64) -> bool
    ensures { result ≡ (is_below (theory_of k.now) carrier role && is_neighbour (theory_of k.now) (graph_of b.now) carrier node other) }
{
    k.is_below(carrier, role) && is_neighbour(k, b, carrier, node, other)
}
