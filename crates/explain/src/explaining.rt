// Reasons.
ghost use Rattle.std.specs.Prelude.{◌≡◌, ◌++◌, ◌≤◌, All, length, drop, IfOk, IsTrue};
ghost use Rattle.std.specs.List.{AllZip};
ghost use Rattle.logic_terms.specs.Plain.{are_plain};
ghost use Rattle.absorb.specs.Mentioned.{are_over};
ghost use Rattle.owl_eval.specs.Checked.{kept_interp, kept_claims};
ghost use Rattle.tableau_rules.specs.Trees.{tree_of};
ghost use Rattle.reasoner.specs.Verdicts.{IsFiniteModel, HaveNoModel, ClosesAll};
ghost use Rattle.explain.specs.Answers.{claims_in, IfReason, IfConsistent, IfSpent};
ghost use Rattle.explain.specs.Reasons.{places_of, stated_at, without, IsReason, IsAsked, IsUndecided};
ghost use Rattle.explain.specs.Narrow.{AreFit, IsShut};

use crate::gathering::{behind, first_of, first_places, joined};
use crate::inquiry::Inquiry;
use crate::narrowing::{core_of, judged};
use crate::part::Part;
use crate::showing::models;
use crate::why::Why;
use lists::List;
use logic_terms::Names;
use reasoner::Verdict;
use std::alloc::Global;
use tableau_rules::Closed;
use wiki_base::Memory;

/// Why the parts contradict each other: those that are left where, from the first one to the last, each is left out without which the
/// others still have no finite model. Each search may take `budget` rule applications. Only parts that a closed tree rests on are
/// tried one by one: what is above a list without a model has none, and a model of a list is one of what is below it.
pub fn explain(alloc: Global, parts: &[Part], names: &Names, budget: u64) -> Result<Why, Memory>
    requires over { All (λ claims. IsTrue (are_over names.now claims)) (claims_in parts.now) }
    requires plain { All (λ claims. IsTrue (are_plain claims)) (claims_in parts.now) }
    ensures reason { IfOk result (λ why. IfReason why (λ kept _ _. IsReason (claims_in parts.now) kept)) }
    ensures closed { IfOk result (λ why. IfReason why (λ kept tree _. ClosesAll (stated_at (claims_in parts.now) kept) names.now (tree_of tree))) }
    ensures contradicts { IfOk result (λ why. IfReason why (λ kept _ _. HaveNoModel (stated_at (claims_in parts.now) kept))) }
    ensures models { IfOk result (λ why. IfReason why
        (λ kept _ models. AllZip (λ place m. kept_claims m ≡ stated_at (claims_in parts.now) (without place kept)) kept models)) }
    ensures consistent { IfOk result (λ why. IfConsistent why (λ m. kept_claims m ≡ stated_at (claims_in parts.now) (places_of (claims_in parts.now)))) }
    ensures asked { IfOk result (λ why. IfSpent why (IsAsked (claims_in parts.now))) }
    ensures spent { IfOk result (λ why. IfSpent why (λ asked. IsUndecided (stated_at (claims_in parts.now) asked) names.now budget)) }
{
    let inquiry = Inquiry {
        parts,
        names,
        budget,
    };
    let all = first_places(alloc, parts.len())?;
    match judged(alloc, &inquiry, &[], all.as_slice())? {
        Verdict::Consistent(model) => Ok(Why::Consistent(model)),
        Verdict::Spent(_) => Ok(Why::Spent(all)),
        Verdict::Inconsistent(closed) => reduced(alloc, &inquiry, all.as_slice(), closed),
    }
}

// Tries the parts that closed trees rest on, from the first one on, until none can be left out.
fn reduced(
    alloc: Global,
    inquiry: &Inquiry<'_>,
    all: &[usize],
    closed: Closed,
) -> Result<Why, Memory>
    requires fit { AreFit (claims_in inquiry.now.parts.now) inquiry.now.names.now }
    requires whole { all.now ≡ places_of (claims_in inquiry.now.parts.now) }
    requires shut { IsShut (stated_at (claims_in inquiry.now.parts.now) all.now) inquiry.now.names.now closed }
    ensures reason { IfOk result (λ why. IfReason why (λ kept _ _. IsReason (claims_in inquiry.now.parts.now) kept)) }
    ensures shut { IfOk result (λ why. IfReason why
        (λ kept tree _. IsShut (stated_at (claims_in inquiry.now.parts.now) kept) inquiry.now.names.now tree)) }
    ensures models { IfOk result (λ why. IfReason why
        (λ kept _ models. AllZip (λ place m. kept_claims m ≡ stated_at (claims_in inquiry.now.parts.now) (without place kept)) kept models)) }
    ensures inconsistent { IfOk result (λ why. IfConsistent why (λ _. ⊥)) }
    ensures asked { IfOk result (λ why. IfSpent why (IsAsked (claims_in inquiry.now.parts.now))) }
    ensures spent { IfOk result (λ why. IfSpent why
        (λ asked. IsUndecided (stated_at (claims_in inquiry.now.parts.now) asked) inquiry.now.names.now inquiry.now.budget)) }
{
    let mut kept = List::new(alloc);
    let mut shown = List::new(alloc);
    let mut from = 0;
    let mut core = core_of(alloc, inquiry, &[], all, 0, closed)?;
    while let Some(place) = first_of(core.chosen.as_slice()) {
        from = place + 1;
        match judged(alloc, inquiry, kept.as_slice(), behind(all, from))? {
            Verdict::Consistent(model) => {
                kept.push(place)?;
                shown.push(model.interp().copy()?)?;
                let _ = core.chosen.remove(0);
            }
            Verdict::Inconsistent(closed) => {
                core = core_of(alloc, inquiry, kept.as_slice(), all, from, closed)?;
            }
            Verdict::Spent(_) => {
                let asked = joined(alloc, kept.as_slice(), behind(all, from))?;
                return Ok(Why::Spent(asked));
            }
        }
    }
    let models = models(alloc, inquiry.parts, kept.as_slice(), shown.as_slice())?;
    Ok(Why::Reason {
        kept,
        closed: core.closed,
        models,
    })
}
