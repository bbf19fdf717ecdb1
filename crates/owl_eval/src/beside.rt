// Axioms that are true by what is known of others.
ghost use Rattle.std.specs.Prelude.{◌≡◌, true, Contains, IsSorted};
ghost use Rattle.std.specs.Ordering.{nat_cmp};
ghost use Rattle.logic_terms.specs.Shown.{claim_of, claims_of};
ghost use Rattle.logic_terms.specs.Meaning.{holds, all_hold};
ghost use Rattle.owl_eval.specs.Avoiding.{claim_avoids, HoldBeside};

use crate::alike::same_axiom;
use crate::avoiding::is_without;
use crate::axioms::is_true;
use crate::interp::Interp;
use logic_terms::{Axiom, Axioms};

// Whether axioms are true in an interpretation, where those of the known ones are that have none of the changed words. Such a
// one isn't looked at again where it stands at the same place in both, counted from the front or from the back.
pub(crate) fn all_true_beside(
    interp: &Interp,
    axioms: &Axioms,
    known: &Axioms,
    changed: &[u32],
) -> bool
    requires rising { IsSorted nat_cmp changed.now }
    requires known { HoldBeside changed.now interp.now (claims_of known.now) }
    ensures { result ≡ all_hold interp.now (claims_of axioms.now) }
{
    let count = axioms.len();
    for place in 0..count {
        let stated = axioms.get(place);
        if !is_true_beside(interp, stated, known, changed, place, count - place) {
            return false;
        }
    }
    true
}

// Whether an axiom is true, which is known where it stays.
fn is_true_beside(
    interp: &Interp,
    stated: &Axiom,
    known: &Axioms,
    changed: &[u32],
    place: usize,
    left: usize,
) -> bool
    requires rising { IsSorted nat_cmp changed.now }
    requires known { HoldBeside changed.now interp.now (claims_of known.now) }
    ensures { result ≡ holds interp.now (claim_of stated.now) }
{
    if stays(stated, known, changed, place, left) {
        return true;
    }
    is_true(interp, stated)
}

// Whether an axiom has none of the changed words, and is one of the known ones at its place.
fn stays(stated: &Axiom, known: &Axioms, changed: &[u32], place: usize, left: usize) -> bool
    requires { IsSorted nat_cmp changed.now }
    ensures without { result ≡ true → claim_avoids changed.now (claim_of stated.now) ≡ true }
    ensures stands { result ≡ true → Contains (claims_of known.now) (claim_of stated.now) }
{
    is_without(stated, changed) && stands_beside(stated, known, place, left)
}

// Whether an axiom is one of the known ones: the one at a place from the front, or the one with as many left from it on.
fn stands_beside(stated: &Axiom, known: &Axioms, place: usize, left: usize) -> bool
    ensures { result ≡ true → Contains (claims_of known.now) (claim_of stated.now) }
{
    stands_at(stated, known, place)
        || (left <= known.len() && stands_at(stated, known, known.len() - left))
}

fn stands_at(stated: &Axiom, known: &Axioms, place: usize) -> bool
    ensures { result ≡ true → Contains (claims_of known.now) (claim_of stated.now) }
{
    place < known.len() && same_axiom(known.get(place), stated)
}
