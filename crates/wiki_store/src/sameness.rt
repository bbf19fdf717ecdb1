// Which meanings are one.
ghost use Rattle.std.specs.Prelude.{◌≡◌};
ghost use Rattle.logic_terms.specs.Shown.{claim_of, claims_of};
ghost use Rattle.logic_terms.specs.Interpretation.{is_word};
ghost use Rattle.wiki_parts.specs.Found.{meaning_shown};
ghost use Rattle.wiki_store.specs.Sameness.{same_cause, same_claim, same_claims, same_meaning};

use logic_terms::{Axiom, Axioms, Cause};
use wiki_base::WordId;
use wiki_parts::Sense;

// Whether two sentences mean the same.
pub(crate) fn same_sense(one: &Sense, other: &Sense) -> bool
    ensures { result ≡ same_meaning (meaning_shown one.now) (meaning_shown other.now) }
{
    match one {
        Sense::Stating(axioms) => match other {
            Sense::Stating(others) => same_axioms(axioms, others),
            _ => false,
        },
        Sense::Outside(cause) => match other {
            Sense::Outside(others) => same_cause(*cause, *others),
            _ => false,
        },
        Sense::Asking(class) => match other {
            Sense::Asking(others) => class.is_same(others),
            _ => false,
        },
        Sense::AskingOutside(cause) => match other {
            Sense::AskingOutside(others) => same_cause(*cause, *others),
            _ => false,
        },
    }
}

// Whether two lists have the same axioms in the same order.
fn same_axioms(axioms: &Axioms, others: &Axioms) -> bool
    ensures { result ≡ same_claims (claims_of axioms.now) (claims_of others.now) }
{
    if axioms.len() != others.len() {
        return false;
    }
    for place in 0..axioms.len() {
        if !same_axiom(axioms.get(place), others.get(place)) {
            return false;
        }
    }
    true
}

fn same_axiom(first: &Axiom, other: &Axiom) -> bool
    ensures { result ≡ same_claim (claim_of first.now) (claim_of other.now) }
{
    match first {
        Axiom::SubClass(below, above) => match other {
            Axiom::SubClass(others_below, others_above) => below.is_same(others_below)
                && above.is_same(others_above),
            _ => false,
        },
        Axiom::SubRole(below, above) => match other {
            Axiom::SubRole(others_below, others_above) => below.is_same(*others_below)
                && above.is_same(*others_above),
            _ => false,
        },
        Axiom::Member(class, name) => match other {
            Axiom::Member(others, others_name) => class.is_same(others)
                && same_word(*name, *others_name),
            _ => false,
        },
        Axiom::Related(role, from, to) => match other {
            Axiom::Related(others, others_from, others_to) => role.is_same(*others)
                && same_word(*from, *others_from)
                && same_word(*to, *others_to),
            _ => false,
        },
        Axiom::NotRelated(role, from, to) => match other {
            Axiom::NotRelated(others, others_from, others_to) => role.is_same(*others)
                && same_word(*from, *others_from)
                && same_word(*to, *others_to),
            _ => false,
        },
        Axiom::Equal(one, two) => match other {
            Axiom::Equal(others_one, others_two) => same_word(*one, *others_one)
                && same_word(*two, *others_two),
            _ => false,
        },
        Axiom::Differ(one, two) => match other {
            Axiom::Differ(others_one, others_two) => same_word(*one, *others_one)
                && same_word(*two, *others_two),
            _ => false,
        },
        Axiom::Transitive(word) => match other {
            Axiom::Transitive(others) => same_word(*word, *others),
            _ => false,
        },
    }
}

fn same_word(one: WordId, other: WordId) -> bool
    ensures { result ≡ is_word one other }
{
    one.0 == other.0
}

fn same_cause(one: Cause, other: Cause) -> bool
    ensures { result ≡ same_cause one other }
{
    match one {
        Cause::Shared => matches!(other, Cause::Shared),
        Cause::Cycle => matches!(other, Cause::Cycle),
        Cause::NoRoot => matches!(other, Cause::NoRoot),
        Cause::Equality => matches!(other, Cause::Equality),
        Cause::Free => matches!(other, Cause::Free),
    }
}
