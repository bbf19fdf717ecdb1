// Which elements are in a class.
ghost use Rattle.std.specs.Prelude.{◌≡◌, ◌↔◌, IsTrue};
ghost use Rattle.std.specs.List.{list_any, list_all};
ghost use Rattle.logic_terms.specs.Shown.{concept_of, concepts_of};
ghost use Rattle.logic_terms.specs.Meaning.{is_in};
ghost use Rattle.logic_terms.specs.Reading.{IsIn};

use crate::interp::Interp;
use logic_terms::{Class, Classes};

/// Whether an element is in a class, by OWL 2, Direct Semantics, section 2.2. It takes no memory.
/// The element is a number below the size; of any other number the same definition decides.
pub fn in_class(interp: &Interp, class: &Class, element: u64) -> bool
    ensures exact { result ≡ is_in interp.now (concept_of class.now) element }
    ensures reading { IsTrue result ↔ IsIn interp.now (concept_of class.now) element }
{
    is_member(interp, class, element)
}

#[cycle(membership)]
fn is_member(interp: &Interp, class: &Class, element: u64) -> bool
    ensures { result ≡ is_in interp.now (concept_of class.now) element }
{
    match class {
        Class::Thing => true,
        Class::Named(word) => interp.has_element(*word, element),
        Class::Not(inner) => !is_member(interp, inner, element),
        Class::And(members) => is_member_of_each(interp, members, element),
        Class::Or(members) => is_member_of_some(interp, members, element),
        Class::Some(role, inner) => some_end_is_member(
            interp,
            inner,
            interp.successors(*role, element),
        ),
        Class::All(role, inner) => each_end_is_member(
            interp,
            inner,
            interp.successors(*role, element),
        ),
        Class::Value(role, name) => interp.relates(*role, element, interp.element(*name)),
    }
}

#[cycle(membership)]
fn is_member_of_each(interp: &Interp, classes: &Classes, element: u64) -> bool
    ensures { result ≡ list_all (λ c. is_in interp.now c element) (concepts_of classes.now) }
{
    for place in 0..classes.len() {
        if !is_member(interp, classes.get(place), element) {
            return false;
        }
    }
    true
}

#[cycle(membership)]
fn is_member_of_some(interp: &Interp, classes: &Classes, element: u64) -> bool
    ensures { result ≡ list_any (λ c. is_in interp.now c element) (concepts_of classes.now) }
{
    for place in 0..classes.len() {
        if is_member(interp, classes.get(place), element) {
            return true;
        }
    }
    false
}

// Whether some of these pairs ends in the class.
#[cycle(membership)]
fn some_end_is_member(interp: &Interp, class: &Class, pairs: &[(u64, u64)]) -> bool
    ensures { result ≡ list_any (λ p. is_in interp.now (concept_of class.now) p.1) pairs.now }
{
    for pair in pairs {
        if is_member(interp, class, pair.1) {
            return true;
        }
    }
    false
}

// Whether each of these pairs ends in the class.
#[cycle(membership)]
fn each_end_is_member(interp: &Interp, class: &Class, pairs: &[(u64, u64)]) -> bool
    ensures { result ≡ list_all (λ p. is_in interp.now (concept_of class.now) p.1) pairs.now }
{
    for pair in pairs {
        if !is_member(interp, class, pair.1) {
            return false;
        }
    }
    true
}
