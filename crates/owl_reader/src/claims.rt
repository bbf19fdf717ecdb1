// The axioms and the class of each construct.
ghost use Rattle.std.specs.Prelude.{◌≡◌, ◌++◌, [], ◌∷◌, map, IfOk, OnOk};
ghost use Rattle.logic_terms.specs.Shown.{concept_of, concepts_of, claims_of};
ghost use Rattle.logic_terms.specs.Complement.{normal_form};
ghost use Rattle.logic_terms.specs.Concept as claim;
ghost use Rattle.owl_reader.specs.Claims.{
  below,
  apart,
  each_next,
  round,
  pairs,
  sub_class,
  sub_property,
  inverses,
  symmetric,
  transitive,
  domain,
  range,
  member,
  related,
  claims_by,
  first_class,
  first_role,
  first_name,
  class_by,
};

use crate::kinds::Construct;
use logic_terms::{Axiom, Axioms, Class, Classes, Role, negated};
use std::alloc::Global;
use wiki_base::{Memory, WordId};

/// The normal form of a class.
fn normal(alloc: Global, class: &Class) -> Result<Class, Memory>
    ensures { IfOk result (λ made. concept_of made ≡ normal_form (concept_of class.now)) }
{
    let inner = Box::new(alloc, class.copy(alloc)?)?;
    negated(alloc, &Class::Not(inner))
}

fn push_below(
    alloc: Global,
    axioms: &mut Axioms,
    class: &Class,
    above: &Class,
) -> Result<(), Memory>
    ensures { OnOk result (claims_of axioms.new ≡ claims_of axioms.old ++ below (concept_of class.now) (concept_of above.now) ∷ []) }
{
    let class = normal(alloc, class)?;
    let above = normal(alloc, above)?;
    axioms.push(Axiom::SubClass(class, above))
}

fn push_apart(
    alloc: Global,
    axioms: &mut Axioms,
    class: &Class,
    other: &Class,
) -> Result<(), Memory>
    ensures { OnOk result (claims_of axioms.new ≡ claims_of axioms.old ++ apart (concept_of class.now) (concept_of other.now) ∷ []) }
{
    let class = normal(alloc, class)?;
    let other = negated(alloc, other)?;
    axioms.push(Axiom::SubClass(class, other))
}

fn push_sub_class(alloc: Global, axioms: &mut Axioms, classes: &[Class]) -> Result<(), Memory>
    ensures { OnOk result (claims_of axioms.new ≡ claims_of axioms.old ++ sub_class (map concept_of classes.now)) }
{
    match classes {
        [class, above] => push_below(alloc, axioms, class, above),
        _ => Ok(()),
    }
}

fn push_equivalent(alloc: Global, axioms: &mut Axioms, classes: &[Class]) -> Result<(), Memory>
    ensures { OnOk result (claims_of axioms.new ≡ claims_of axioms.old ++ round below (map concept_of classes.now)) }
{
    match classes {
        [] => Ok(()),
        [first, rest @ ..] => {
            let mut last = first;
            for class in rest {
                push_below(alloc, axioms, last, class)?;
                last = class;
            }
            push_below(alloc, axioms, last, first)
        }
    }
}

fn push_each_apart(
    alloc: Global,
    axioms: &mut Axioms,
    class: &Class,
    others: &[Class],
) -> Result<(), Memory>
    ensures { OnOk result (claims_of axioms.new ≡ claims_of axioms.old ++ map (apart (concept_of class.now)) (map concept_of others.now)) }
{
    for other in others {
        push_apart(alloc, axioms, class, other)?;
    }
    Ok(())
}

fn push_disjoint(alloc: Global, axioms: &mut Axioms, classes: &[Class]) -> Result<(), Memory>
    ensures { OnOk result (claims_of axioms.new ≡ claims_of axioms.old ++ pairs apart (map concept_of classes.now)) }
{
    for place in 0..classes.len() {
        push_each_apart(alloc, axioms, &classes[place], &classes[place + 1..])?;
    }
    Ok(())
}

fn push_sub_property(axioms: &mut Axioms, roles: &[Role]) -> Result<(), Memory>
    ensures { OnOk result (claims_of axioms.new ≡ claims_of axioms.old ++ sub_property roles.now) }
{
    match roles {
        [role, above] => axioms.push(Axiom::SubRole(*role, *above)),
        _ => Ok(()),
    }
}

fn push_same_properties(axioms: &mut Axioms, roles: &[Role]) -> Result<(), Memory>
    ensures { OnOk result (claims_of axioms.new ≡ claims_of axioms.old ++ round claim.SubPropertyOf roles.now) }
{
    match roles {
        [] => Ok(()),
        [first, rest @ ..] => {
            let mut last = *first;
            for role in rest {
                axioms.push(Axiom::SubRole(last, *role))?;
                last = *role;
            }
            axioms.push(Axiom::SubRole(last, *first))
        }
    }
}

fn push_domain(
    alloc: Global,
    axioms: &mut Axioms,
    roles: &[Role],
    classes: &[Class],
) -> Result<(), Memory>
    ensures { OnOk result (claims_of axioms.new ≡ claims_of axioms.old ++ domain roles.now (map concept_of classes.now)) }
{
    match (roles, classes) {
        ([role], [class]) => {
            let thing = Box::new(alloc, Class::Thing)?;
            push_below(alloc, axioms, &Class::Some(*role, thing), class)
        }
        _ => Ok(()),
    }
}

fn push_range(
    alloc: Global,
    axioms: &mut Axioms,
    roles: &[Role],
    classes: &[Class],
) -> Result<(), Memory>
    ensures { OnOk result (claims_of axioms.new ≡ claims_of axioms.old ++ range roles.now (map concept_of classes.now)) }
{
    match (roles, classes) {
        ([role], [class]) => {
            let inner = Box::new(alloc, class.copy(alloc)?)?;
            push_below(alloc, axioms, &Class::Thing, &Class::All(*role, inner))
        }
        _ => Ok(()),
    }
}

fn push_inverses(axioms: &mut Axioms, roles: &[Role]) -> Result<(), Memory>
    ensures { OnOk result (claims_of axioms.new ≡ claims_of axioms.old ++ inverses roles.now) }
{
    match roles {
        [role, other] => {
            axioms.push(Axiom::SubRole(*role, other.inverse()))?;
            axioms.push(Axiom::SubRole(*other, role.inverse()))
        }
        _ => Ok(()),
    }
}

fn push_symmetric(axioms: &mut Axioms, roles: &[Role]) -> Result<(), Memory>
    ensures { OnOk result (claims_of axioms.new ≡ claims_of axioms.old ++ symmetric roles.now) }
{
    match roles {
        [role] => axioms.push(Axiom::SubRole(*role, role.inverse())),
        _ => Ok(()),
    }
}

fn push_transitive(axioms: &mut Axioms, roles: &[Role]) -> Result<(), Memory>
    ensures { OnOk result (claims_of axioms.new ≡ claims_of axioms.old ++ transitive roles.now) }
{
    match roles {
        [role] => axioms.push(Axiom::Transitive(role.id)),
        _ => Ok(()),
    }
}

fn push_same(axioms: &mut Axioms, names: &[WordId]) -> Result<(), Memory>
    ensures { OnOk result (claims_of axioms.new ≡ claims_of axioms.old ++ each_next claim.SameIndividual names.now) }
{
    match names {
        [] => Ok(()),
        [first, rest @ ..] => {
            let mut last = *first;
            for name in rest {
                axioms.push(Axiom::Equal(last, *name))?;
                last = *name;
            }
            Ok(())
        }
    }
}

fn push_each_different(axioms: &mut Axioms, name: WordId, others: &[WordId]) -> Result<(), Memory>
    ensures { OnOk result (claims_of axioms.new ≡ claims_of axioms.old ++ map (claim.DifferentIndividuals name) others.now) }
{
    for other in others {
        axioms.push(Axiom::Differ(name, *other))?;
    }
    Ok(())
}

fn push_different(axioms: &mut Axioms, names: &[WordId]) -> Result<(), Memory>
    ensures { OnOk result (claims_of axioms.new ≡ claims_of axioms.old ++ pairs claim.DifferentIndividuals names.now) }
{
    for place in 0..names.len() {
        push_each_different(axioms, names[place], &names[place + 1..])?;
    }
    Ok(())
}

fn push_member(
    alloc: Global,
    axioms: &mut Axioms,
    classes: &[Class],
    names: &[WordId],
) -> Result<(), Memory>
    ensures { OnOk result (claims_of axioms.new ≡ claims_of axioms.old ++ member (map concept_of classes.now) names.now) }
{
    match (classes, names) {
        ([class], [name]) => {
            let class = normal(alloc, class)?;
            axioms.push(Axiom::Member(class, *name))
        }
        _ => Ok(()),
    }
}

fn push_related(axioms: &mut Axioms, roles: &[Role], names: &[WordId]) -> Result<(), Memory>
    ensures { OnOk result (claims_of axioms.new ≡ claims_of axioms.old ++ related claim.PropertyAssertion roles.now names.now) }
{
    match (roles, names) {
        ([role], [from, to]) => axioms.push(Axiom::Related(*role, *from, *to)),
        _ => Ok(()),
    }
}

fn push_unrelated(axioms: &mut Axioms, roles: &[Role], names: &[WordId]) -> Result<(), Memory>
    ensures { OnOk result (claims_of axioms.new ≡ claims_of axioms.old ++ related claim.NegativePropertyAssertion roles.now names.now) }
{
    match (roles, names) {
        ([role], [from, to]) => axioms.push(Axiom::NotRelated(*role, *from, *to)),
        _ => Ok(()),
    }
}

/// Adds the axioms of a construct with these classes, properties and individuals.
pub fn push_claims(
    alloc: Global,
    axioms: &mut Axioms,
    construct: Construct,
    classes: &[Class],
    roles: &[Role],
    names: &[WordId],
) -> Result<(), Memory>
    ensures { OnOk result (claims_of axioms.new ≡ claims_of axioms.old ++ claims_by construct (map concept_of classes.now) roles.now names.now) }
{
    match construct {
        Construct::SubClassOf => push_sub_class(alloc, axioms, classes),
        Construct::EquivalentClasses => push_equivalent(alloc, axioms, classes),
        Construct::DisjointClasses => push_disjoint(alloc, axioms, classes),
        Construct::SubObjectPropertyOf => push_sub_property(axioms, roles),
        Construct::EquivalentObjectProperties => push_same_properties(axioms, roles),
        Construct::ObjectPropertyDomain => push_domain(alloc, axioms, roles, classes),
        Construct::ObjectPropertyRange => push_range(alloc, axioms, roles, classes),
        Construct::InverseObjectProperties => push_inverses(axioms, roles),
        Construct::SymmetricObjectProperty => push_symmetric(axioms, roles),
        Construct::TransitiveObjectProperty => push_transitive(axioms, roles),
        Construct::SameIndividual => push_same(axioms, names),
        Construct::DifferentIndividuals => push_different(axioms, names),
        Construct::ClassAssertion => push_member(alloc, axioms, classes, names),
        Construct::ObjectPropertyAssertion => push_related(axioms, roles, names),
        Construct::NegativeObjectPropertyAssertion => push_unrelated(axioms, roles, names),
        _ => Ok(()),
    }
}

fn first_class(classes: Classes) -> Class
    ensures { concept_of result ≡ first_class (concepts_of classes) }
{
    let mut items = classes.into_vec();
    if items.is_empty() {
        Class::Thing
    } else {
        items.remove(0)
    }
}

pub fn first_role(roles: &[Role]) -> Role
    ensures { result ≡ first_role roles.now }
{
    match roles {
        [] => Role {
            id: WordId(0),
            inverted: false,
        },
        [role, ..] => *role,
    }
}

fn first_name(names: &[WordId]) -> WordId
    ensures { result ≡ first_name names.now }
{
    match names {
        [] => WordId(0),
        [name, ..] => *name,
    }
}

/// The class of a construct with these classes, properties and individuals.
pub fn class_by(
    alloc: Global,
    construct: Construct,
    classes: Classes,
    roles: &[Role],
    names: &[WordId],
) -> Result<Class, Memory>
    ensures { IfOk result (λ class. concept_of class ≡ class_by construct (concepts_of classes) roles.now names.now) }
{
    match construct {
        Construct::ObjectIntersectionOf => Ok(Class::And(classes)),
        Construct::ObjectUnionOf => Ok(Class::Or(classes)),
        Construct::ObjectComplementOf => {
            let inner = Box::new(alloc, first_class(classes))?;
            Ok(Class::Not(inner))
        }
        Construct::ObjectSomeValuesFrom => {
            let inner = Box::new(alloc, first_class(classes))?;
            Ok(Class::Some(first_role(roles), inner))
        }
        Construct::ObjectAllValuesFrom => {
            let inner = Box::new(alloc, first_class(classes))?;
            Ok(Class::All(first_role(roles), inner))
        }
        Construct::ObjectHasValue => Ok(Class::Value(first_role(roles), first_name(names))),
        _ => Ok(Class::Thing),
    }
}
