// Which axioms are written alike.
ghost use Rattle.std.specs.Prelude.{◌≡◌, ◌&&◌, map};
ghost use Rattle.logic_terms.specs.Shown.{claim_of, concept_of};
ghost use Rattle.logic_terms.specs.Concept.{SubClassOf, SubPropertyOf, ClassAssertion, PropertyAssertion, NegativePropertyAssertion, SameIndividual, DifferentIndividuals, TransitiveProperty};
ghost use Rattle.logic_terms.specs.Interpretation.{is_word};
ghost use Rattle.logic_terms.specs.Same.{same_role};
ghost use Rattle.verbalise.specs.Same.{same_claim, are_just};

use logic_terms::{Axiom, Class, Role};
use wiki_base::WordId;

/// Whether axioms are just this one. It takes no memory.
pub(crate) fn are_just(axioms: &[Axiom], axiom: &Axiom) -> bool
    ensures { result ≡ are_just (map claim_of axioms.now) (claim_of «axiom».now) }
{
    match axioms {
        [only] => is_same(only, axiom),
        _ => false,
    }
}

fn is_same(one: &Axiom, other: &Axiom) -> bool
    ensures { result ≡ same_claim (claim_of one.now) (claim_of other.now) }
{
    match one {
        Axiom::SubClass(below, above) => is_subclass(other, below, above),
        Axiom::SubRole(below, above) => is_subrole(other, *below, *above),
        Axiom::Member(class, name) => is_member(other, class, *name),
        Axiom::Related(role, from, to) => is_related(other, *role, *from, *to),
        Axiom::NotRelated(role, from, to) => is_not_related(other, *role, *from, *to),
        Axiom::Equal(one, another) => is_equal(other, *one, *another),
        Axiom::Differ(one, another) => is_differ(other, *one, *another),
        Axiom::Transitive(word) => is_transitive(other, *word),
    }
}

fn is_transitive(axiom: &Axiom, word: WordId) -> bool
    ensures { result ≡ same_claim (TransitiveProperty word) (claim_of «axiom».now) }
{
    match axiom {
        Axiom::Transitive(other) => word.0 == other.0,
        _ => false,
    }
}

fn is_subclass(axiom: &Axiom, below: &Class, above: &Class) -> bool
    ensures { result ≡ same_claim (SubClassOf (concept_of below.now) (concept_of above.now)) (claim_of «axiom».now) }
{
    match axiom {
        Axiom::SubClass(first, second) => below.is_same(first) && above.is_same(second),
        _ => false,
    }
}

fn is_subrole(axiom: &Axiom, below: Role, above: Role) -> bool
    ensures { result ≡ same_claim (SubPropertyOf below above) (claim_of «axiom».now) }
{
    match axiom {
        Axiom::SubRole(first, second) => below.is_same(*first) && above.is_same(*second),
        _ => false,
    }
}

fn is_member(axiom: &Axiom, class: &Class, name: WordId) -> bool
    ensures { result ≡ same_claim (ClassAssertion (concept_of class.now) name) (claim_of «axiom».now) }
{
    match axiom {
        Axiom::Member(other, another) => class.is_same(other) && name.0 == another.0,
        _ => false,
    }
}

fn is_related(axiom: &Axiom, role: Role, from: WordId, to: WordId) -> bool
    ensures { result ≡ same_claim (PropertyAssertion role from to) (claim_of «axiom».now) }
{
    match axiom {
        Axiom::Related(other, first, second) => {
            role.is_same(*other) && are_same(from, to, *first, *second)
        }
        _ => false,
    }
}

fn is_not_related(axiom: &Axiom, role: Role, from: WordId, to: WordId) -> bool
    ensures { result ≡ same_claim (NegativePropertyAssertion role from to) (claim_of «axiom».now) }
{
    match axiom {
        Axiom::NotRelated(other, first, second) => {
            role.is_same(*other) && are_same(from, to, *first, *second)
        }
        _ => false,
    }
}

fn is_equal(axiom: &Axiom, one: WordId, other: WordId) -> bool
    ensures { result ≡ same_claim (SameIndividual one other) (claim_of «axiom».now) }
{
    match axiom {
        Axiom::Equal(first, second) => are_same(one, other, *first, *second),
        _ => false,
    }
}

fn is_differ(axiom: &Axiom, one: WordId, other: WordId) -> bool
    ensures { result ≡ same_claim (DifferentIndividuals one other) (claim_of «axiom».now) }
{
    match axiom {
        Axiom::Differ(first, second) => are_same(one, other, *first, *second),
        _ => false,
    }
}

// Whether two pairs of words are the same.
fn are_same(a: WordId, b: WordId, first: WordId, second: WordId) -> bool
    ensures { result ≡ (is_word a first && is_word b second) }
{
    a.0 == first.0 && b.0 == second.0
}
