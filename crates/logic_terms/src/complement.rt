// The complement of a class, in negation normal form.
ghost use Rattle.std.specs.Prelude.{◌≡◌, ℕ, true, not, ◌↔◌, IfOk};
ghost use Rattle.logic_terms.specs.Shown.{concept_of, concepts_of};
ghost use Rattle.logic_terms.specs.Concept.{ComplementOf, concepts_from};
ghost use Rattle.logic_terms.specs.Interpretation.{Interpretation};
ghost use Rattle.logic_terms.specs.Meaning.{is_in};
ghost use Rattle.logic_terms.specs.Reading.{IsIn};
ghost use Rattle.logic_terms.specs.Complement.{complement, complements, normal_form, normal_forms, is_normal, is_wide};

use crate::expressions::{Class, Classes};
use std::alloc::Global;
use wiki_base::Memory;

/// The negation normal form of a class's complement: its elements are those that the class lacks, and complements stand
/// before `Thing`, a class word and a value alone. Each `And` and `Or` gives one with as many members.
pub fn negated(alloc: Global, class: &Class) -> Result<Class, Memory>
    ensures exact { IfOk result (λ negative. concept_of negative ≡ complement (concept_of class.now)) }
    ensures meaning { IfOk result (λ negative. (i : Interpretation) (x : ℕ) → is_in i (concept_of negative) x ≡ not (is_in i (concept_of class.now) x)) }
    ensures reading { IfOk result (λ negative. (i : Interpretation) (x : ℕ) → IsIn i (concept_of negative) x ↔ ¬ IsIn i (concept_of class.now) x) }
    ensures normal { IfOk result (λ negative. is_normal (concept_of negative) ≡ true) }
    ensures wide { IfOk result (λ negative. is_wide (concept_of negative) ≡ is_wide (concept_of class.now)) }
{
    complement_of(alloc, class)
}

#[cycle(negating)]
fn complement_of(alloc: Global, class: &Class) -> Result<Class, Memory>
    ensures { IfOk result (λ negative. concept_of negative ≡ complement (concept_of class.now)) }
{
    match class {
        Class::Thing => outside(alloc, Class::Thing),
        Class::Named(word) => outside(alloc, Class::Named(*word)),
        Class::Not(inner) => normal_form_of(alloc, inner),
        Class::And(members) => Ok(Class::Or(complements_of(alloc, members)?)),
        Class::Or(members) => Ok(Class::And(complements_of(alloc, members)?)),
        Class::Some(role, inner) => Ok(Class::All(*role, boxed_complement(alloc, inner)?)),
        Class::All(role, inner) => Ok(Class::Some(*role, boxed_complement(alloc, inner)?)),
        Class::Value(role, name) => outside(alloc, Class::Value(*role, *name)),
    }
}

#[cycle(negating)]
fn normal_form_of(alloc: Global, class: &Class) -> Result<Class, Memory>
    ensures { IfOk result (λ normal. concept_of normal ≡ normal_form (concept_of class.now)) }
{
    match class {
        Class::Thing => Ok(Class::Thing),
        Class::Named(word) => Ok(Class::Named(*word)),
        Class::Not(inner) => complement_of(alloc, inner),
        Class::And(members) => Ok(Class::And(normal_forms_of(alloc, members)?)),
        Class::Or(members) => Ok(Class::Or(normal_forms_of(alloc, members)?)),
        Class::Some(role, inner) => Ok(Class::Some(*role, boxed_normal_form(alloc, inner)?)),
        Class::All(role, inner) => Ok(Class::All(*role, boxed_normal_form(alloc, inner)?)),
        Class::Value(role, name) => Ok(Class::Value(*role, *name)),
    }
}

#[cycle(negating)]
fn complements_of(alloc: Global, members: &Classes) -> Result<Classes, Memory>
    ensures { IfOk result (λ negative. concepts_from (concepts_of negative) ≡ complements (concepts_from (concepts_of members.now))) }
{
    let mut negative = Classes::new(alloc);
    for place in 0..members.len() {
        negative.push(complement_of(alloc, members.get(place))?)?;
    }
    Ok(negative)
}

#[cycle(negating)]
fn normal_forms_of(alloc: Global, members: &Classes) -> Result<Classes, Memory>
    ensures { IfOk result (λ normal. concepts_from (concepts_of normal) ≡ normal_forms (concepts_from (concepts_of members.now))) }
{
    let mut normal = Classes::new(alloc);
    for place in 0..members.len() {
        normal.push(normal_form_of(alloc, members.get(place))?)?;
    }
    Ok(normal)
}

#[cycle(negating)]
fn boxed_complement(alloc: Global, class: &Class) -> Result<Box<Class>, Memory>
    ensures { IfOk result (λ negative. concept_of negative.value ≡ complement (concept_of class.now)) }
{
    let negative = Box::new(alloc, complement_of(alloc, class)?)?;
    Ok(negative)
}

#[cycle(negating)]
fn boxed_normal_form(alloc: Global, class: &Class) -> Result<Box<Class>, Memory>
    ensures { IfOk result (λ normal. concept_of normal.value ≡ normal_form (concept_of class.now)) }
{
    let normal = Box::new(alloc, normal_form_of(alloc, class)?)?;
    Ok(normal)
}

// The complement of a class, as it stands.
fn outside(alloc: Global, class: Class) -> Result<Class, Memory>
    ensures { IfOk result (λ negative. concept_of negative ≡ ComplementOf (concept_of class)) }
{
    let boxed = Box::new(alloc, class)?;
    Ok(Class::Not(boxed))
}
