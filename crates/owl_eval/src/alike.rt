// Which axioms are written alike.
ghost use Rattle.std.specs.Prelude.{◌≡◌};
ghost use Rattle.logic_terms.specs.Shown.{claim_of};
ghost use Rattle.owl_eval.specs.Same.{same_claim};

use logic_terms::Axiom;

// Whether two axioms are one, part by part. It takes no memory.
pub(crate) fn same_axiom(stated: &Axiom, other: &Axiom) -> bool
    ensures { result ≡ same_claim (claim_of stated.now) (claim_of other.now) }
{
    match stated {
        Axiom::SubClass(below, above) => match other {
            Axiom::SubClass(low, high) => below.is_same(low) && above.is_same(high),
            _ => false,
        },
        Axiom::SubRole(below, above) => match other {
            Axiom::SubRole(low, high) => below.is_same(*low) && above.is_same(*high),
            _ => false,
        },
        Axiom::Member(class, name) => match other {
            Axiom::Member(others, id) => class.is_same(others) && name.0 == id.0,
            _ => false,
        },
        Axiom::Related(role, from, to) => match other {
            Axiom::Related(others, start, end) => role.is_same(*others)
                && (from.0 == start.0 && to.0 == end.0),
            _ => false,
        },
        Axiom::NotRelated(role, from, to) => match other {
            Axiom::NotRelated(others, start, end) => role.is_same(*others)
                && (from.0 == start.0 && to.0 == end.0),
            _ => false,
        },
        Axiom::Equal(name, same) => match other {
            Axiom::Equal(start, end) => name.0 == start.0 && same.0 == end.0,
            _ => false,
        },
        Axiom::Differ(name, another) => match other {
            Axiom::Differ(start, end) => name.0 == start.0 && another.0 == end.0,
            _ => false,
        },
        Axiom::Transitive(word) => match other {
            Axiom::Transitive(others) => word.0 == others.0,
            _ => false,
        },
    }
}
