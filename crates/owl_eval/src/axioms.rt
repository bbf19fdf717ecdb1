// Which axioms are true.
ghost use Rattle.std.specs.Prelude.{◌≡◌, ℕ, ◌↔◌, IsTrue};
ghost use Rattle.std.specs.List.{list_all};
ghost use Rattle.logic_terms.specs.Shown.{concept_of, claim_of, claims_of};
ghost use Rattle.logic_terms.specs.Meaning.{implies, each_below, is_in, holds, all_hold};
ghost use Rattle.logic_terms.specs.Interpretation.{relates};
ghost use Rattle.logic_terms.specs.Reading.{Holds, IsModel};

use crate::interp::Interp;
use crate::membership::in_class;
use logic_terms::{Axiom, Axioms, Class, Role};

/// Whether an interpretation is a model of axioms: each of them is true in it. It takes no memory.
pub fn is_model(interp: &Interp, axioms: &Axioms) -> bool
    ensures exact { result ≡ all_hold interp.now (claims_of axioms.now) }
    ensures reading { IsTrue result ↔ IsModel interp.now (claims_of axioms.now) }
{
    all_true(interp, axioms)
}

/// Whether an axiom is true in an interpretation, by OWL 2, Direct Semantics, section 2.3. It takes no memory.
pub fn axiom_true(interp: &Interp, axiom: &Axiom) -> bool
    ensures exact { result ≡ holds interp.now (claim_of «axiom».now) }
    ensures reading { IsTrue result ↔ Holds interp.now (claim_of «axiom».now) }
{
    is_true(interp, axiom)
}

fn all_true(interp: &Interp, axioms: &Axioms) -> bool
    ensures { result ≡ all_hold interp.now (claims_of axioms.now) }
{
    for place in 0..axioms.len() {
        if !is_true(interp, axioms.get(place)) {
            return false;
        }
    }
    true
}

pub(crate) fn is_true(interp: &Interp, stated: &Axiom) -> bool
    ensures { result ≡ holds interp.now (claim_of stated.now) }
{
    match stated {
        Axiom::SubClass(below, above) => is_subclass(interp, below, above),
        Axiom::SubRole(below, above) => is_subrole(interp, *below, *above),
        Axiom::Member(class, name) => in_class(interp, class, interp.element(*name)),
        Axiom::Related(role, from, to) => {
            interp.relates(*role, interp.element(*from), interp.element(*to))
        }
        Axiom::NotRelated(role, from, to) => {
            !interp.relates(*role, interp.element(*from), interp.element(*to))
        }
        Axiom::Equal(one, other) => interp.element(*one) == interp.element(*other),
        Axiom::Differ(one, other) => interp.element(*one) != interp.element(*other),
        Axiom::Transitive(word) => interp.is_transitive(*word),
    }
}

// Whether each element of the one class is in the other. Of a class word only its own elements are looked at.
fn is_subclass(interp: &Interp, below: &Class, above: &Class) -> bool
    ensures { result ≡ each_below interp.now.size (λ x. implies (is_in interp.now (concept_of below.now) x) (is_in interp.now (concept_of above.now) x)) }
{
    match below {
        Class::Named(word) => all_in_class(interp, above, interp.elements(*word)),
        _ => is_included(interp, below, above),
    }
}

// Whether each of these elements is in a class.
fn all_in_class(interp: &Interp, class: &Class, elements: &[u64]) -> bool
    ensures { result ≡ list_all (is_in interp.now (concept_of class.now)) elements.now }
{
    for element in elements {
        if !in_class(interp, class, *element) {
            return false;
        }
    }
    true
}

// Whether each element that is in the one class is in the other, of all that there are.
fn is_included(interp: &Interp, below: &Class, above: &Class) -> bool
    ensures { result ≡ each_below interp.now.size (λ x. implies (is_in interp.now (concept_of below.now) x) (is_in interp.now (concept_of above.now) x)) }
{
    for element in 0..interp.size() {
        if in_class(interp, below, element) && !in_class(interp, above, element) {
            return false;
        }
    }
    true
}

// Whether each pair of the one role is one of the other.
fn is_subrole(interp: &Interp, below: Role, above: Role) -> bool
    ensures { result ≡ each_below interp.now.size
        (λ x. each_below interp.now.size (λ y. implies (relates interp.now below x y) (relates interp.now above x y))) }
{
    for element in 0..interp.size() {
        if !each_end_relates(interp, above, element, interp.successors(below, element)) {
            return false;
        }
    }
    true
}

// Whether an element is related to the end of each of these pairs.
fn each_end_relates(interp: &Interp, role: Role, element: u64, pairs: &[(u64, u64)]) -> bool
    ensures { result ≡ list_all (λ p. relates interp.now role element p.1) pairs.now }
{
    pairs
        .iter()
        .all(|pair| interp.relates(role, element, pair.1))
}
