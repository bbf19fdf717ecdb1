// The parts with which the kept ones contradict each other.
ghost use Rattle.std.specs.Prelude.{◌≡◌, ◌++◌, ◌∷◌, ◌≤◌, drop, length, IfOk, OnOk, if◌then◌else◌};
ghost use Rattle.owl_eval.specs.Checked.{kept_interp, kept_claims};
ghost use Rattle.reasoner.specs.Verdicts.{IfConsistent, IfInconsistent, IfSpent, IsFiniteModel};
ghost use Rattle.explain.specs.Answers.{claims_in};
ghost use Rattle.explain.specs.Reasons.{places_of, stated_at, IsUndecided};
ghost use Rattle.explain.specs.Narrow.{AreFit, AreBetween, IsCore, IsShut};

use crate::gathering::{behind, gathered, joined};
use crate::inquiry::Inquiry;
use crate::sources::serves;
use crate::tracing::traced;
use crate::uses::Uses;
use absorb::absorb;
use lists::List;
use logic_terms::Knowledge;
use owl_eval::CheckedModel;
use reasoner::{Verdict, searched_verdict};
use std::alloc::Global;
use tableau_rules::Closed;
use wiki_base::Memory;

// Places with which the kept parts contradict each other, as the tree shows.
#[derive(Drop)]
pub(crate) struct Core {
    pub(crate) chosen: List<usize>,
    pub(crate) closed: Closed,
}

// Whether the parts at the places of both lists have a finite model together, as the search finds within the budget.
pub(crate) fn judged(
    alloc: Global,
    inquiry: &Inquiry<'_>,
    kept: &[usize],
    rest: &[usize],
) -> Result<Verdict<CheckedModel>, Memory>
    requires { AreFit (claims_in inquiry.now.parts.now) inquiry.now.names.now }
    ensures axioms { IfOk result (λ v. IfConsistent v (λ m. kept_claims m ≡ stated_at (claims_in inquiry.now.parts.now) (kept.now ++ rest.now))) }
    ensures model { IfOk result (λ v. IfConsistent v
        (λ m. IsFiniteModel (kept_interp m) (stated_at (claims_in inquiry.now.parts.now) (kept.now ++ rest.now)))) }
    ensures shut { IfOk result (λ v. IfInconsistent v
        (λ tree. IsShut (stated_at (claims_in inquiry.now.parts.now) (kept.now ++ rest.now)) inquiry.now.names.now tree)) }
    ensures spent { IfOk result (λ v. IfSpent v
        (λ _. IsUndecided (stated_at (claims_in inquiry.now.parts.now) (kept.now ++ rest.now)) inquiry.now.names.now inquiry.now.budget)) }
{
    let places = joined(alloc, kept, rest)?;
    let axioms = gathered(alloc, inquiry.parts, places.as_slice())?;
    searched_verdict(alloc, axioms, inquiry.names, inquiry.budget)
}

// The places from one on with which the kept parts contradict each other: those that the tree of all of them seems to rest on,
// where a search confirms it, and else all.
pub(crate) fn core_of(
    alloc: Global,
    inquiry: &Inquiry<'_>,
    kept: &[usize],
    all: &[usize],
    from: usize,
    closed: Closed,
) -> Result<Core, Memory>
    requires fit { AreFit (claims_in inquiry.now.parts.now) inquiry.now.names.now }
    requires whole { all.now ≡ places_of (claims_in inquiry.now.parts.now) }
    requires within { from ≤ length all.now }
    requires shut { IsShut (stated_at (claims_in inquiry.now.parts.now) (kept.now ++ drop from all.now)) inquiry.now.names.now closed }
    ensures { IfOk result (IsCore (claims_in inquiry.now.parts.now) inquiry.now.names.now kept.now from) }
{
    let rest = behind(all, from);
    let chosen = proposed(alloc, inquiry, kept, rest, from, &closed)?;
    match judged(alloc, inquiry, kept, chosen.as_slice())? {
        Verdict::Inconsistent(closed) => Ok(Core { chosen, closed }),
        _ => Ok(Core {
            chosen: List::from_slice(alloc, rest)?,
            closed,
        }),
    }
}

// The places from one on that the tree seems to rest on.
fn proposed(
    alloc: Global,
    inquiry: &Inquiry<'_>,
    kept: &[usize],
    rest: &[usize],
    from: usize,
    closed: &Closed,
) -> Result<List<usize>, Memory>
    requires fit { AreFit (claims_in inquiry.now.parts.now) inquiry.now.names.now }
    requires within { from ≤ length inquiry.now.parts.now }
    ensures { IfOk result (AreBetween from (length (claims_in inquiry.now.parts.now))) }
{
    let places = joined(alloc, kept, rest)?;
    let axioms = gathered(alloc, inquiry.parts, places.as_slice())?;
    let k = absorb(alloc, &axioms, inquiry.names)?;
    let mut uses = traced(alloc, &k, closed)?;
    for place in kept {
        serves(alloc, inquiry, *place, &k, &mut uses)?;
    }
    serving(alloc, inquiry, from, &k, &mut uses)
}

// The places from one on of the parts that state something that is used.
fn serving(
    alloc: Global,
    inquiry: &Inquiry<'_>,
    from: usize,
    k: &Knowledge,
    uses: &mut Uses,
) -> Result<List<usize>, Memory>
    requires fit { AreFit (claims_in inquiry.now.parts.now) inquiry.now.names.now }
    requires within { from ≤ length inquiry.now.parts.now }
    ensures { IfOk result (AreBetween from (length (claims_in inquiry.now.parts.now))) }
{
    let mut chosen = List::new(alloc);
    let mut place = inquiry.parts.len();
    while place > from {
        place -= 1;
        let is_used = serves(alloc, inquiry, place, k, uses)?;
        put_first(&mut chosen, place, is_used)?;
    }
    Ok(chosen)
}

// Puts a place in front of others where it is used.
fn put_first(chosen: &mut List<usize>, place: usize, is_used: bool) -> Result<(), Memory>
    ensures { OnOk result (chosen.new ≡ (if is_used then place ∷ chosen.old else chosen.old)) }
{
    if is_used {
        chosen.insert(0, place)?;
    }
    Ok(())
}
