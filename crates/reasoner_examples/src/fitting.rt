// Which axioms a verdict may be asked on.
ghost use Rattle.std.specs.Prelude.{◌≡◌, IsTrue};
ghost use Rattle.logic_terms.specs.Complement.{is_simple};
ghost use Rattle.logic_terms.specs.Plain.{are_plain};
ghost use Rattle.logic_terms.specs.Shown.{concept_of, concepts_of, claim_of, claims_of};
ghost use Rattle.absorb.specs.Mentioned.{is_among, are_over};
ghost use Rattle.reasoner_examples.specs.Fit.{is_fit, members_fit, fits};

use logic_terms::{Axiom, Axioms, Class, Classes, Names};
use wiki_base::WordId;

/// Whether each name in the axioms is a given one, and each class is in negation normal form and has at least two members
/// in each intersection and union: what a verdict asks of axioms.
pub fn are_fit(names: &Names, axioms: &Axioms) -> bool
    ensures over { IsTrue result → IsTrue (are_over names.now (claims_of axioms.now)) }
    ensures plain { IsTrue result → IsTrue (are_plain (claims_of axioms.now)) }
{
    for place in 0..axioms.len() {
        if !fits(names, axioms.get(place)) {
            return false;
        }
    }
    true
}

fn fits(names: &Names, given: &Axiom) -> bool
    ensures { result ≡ fits names.now (claim_of given.now) }
{
    match given {
        Axiom::SubClass(below, above) => is_fit(names, below) && is_fit(names, above),
        Axiom::SubRole(_, _) => true,
        Axiom::Member(class, name) => is_given(names, *name) && is_fit(names, class),
        Axiom::Related(_, from, to) => is_given(names, *from) && is_given(names, *to),
        Axiom::NotRelated(_, from, to) => is_given(names, *from) && is_given(names, *to),
        Axiom::Equal(one, other) => is_given(names, *one) && is_given(names, *other),
        Axiom::Differ(one, other) => is_given(names, *one) && is_given(names, *other),
        Axiom::Transitive(_) => true,
    }
}

#[cycle(fitting)]
fn is_fit(names: &Names, class: &Class) -> bool
    ensures { result ≡ is_fit names.now (concept_of class.now) }
{
    match class {
        Class::Thing => true,
        Class::Named(_) => true,
        Class::Not(inner) => is_simple(inner) && is_fit(names, inner),
        Class::And(members) => members_fit(names, members),
        Class::Or(members) => members_fit(names, members),
        Class::Some(_, inner) => is_fit(names, inner),
        Class::All(_, inner) => is_fit(names, inner),
        Class::Value(_, name) => is_given(names, *name),
    }
}

// Whether there are at least two members, and each is fit.
#[cycle(fitting)]
fn members_fit(names: &Names, members: &Classes) -> bool
    ensures { result ≡ members_fit names.now (concepts_of members.now) }
{
    if members.len() < 2 {
        return false;
    }
    for place in 0..members.len() {
        if !is_fit(names, members.get(place)) {
            return false;
        }
    }
    true
}

fn is_simple(class: &Class) -> bool
    ensures { result ≡ is_simple (concept_of class.now) }
{
    match class {
        Class::Thing => true,
        Class::Named(_) => true,
        Class::Value(_, _) => true,
        Class::Not(_) => false,
        Class::And(_) => false,
        Class::Or(_) => false,
        Class::Some(_, _) => false,
        Class::All(_, _) => false,
    }
}

fn is_given(names: &Names, name: WordId) -> bool
    ensures { result ≡ is_among names.now name }
{
    names.as_slice().iter().any(|own| name.0 == own.0)
}
