// The branch to which steps that leave one choice lead.
ghost use Rattle.std.specs.Prelude.{IfOk, IfSome, OnOk};
ghost use Rattle.logic_terms.specs.Known.{theory_of};
ghost use Rattle.tableau_rules.specs.Shown.{graph_of};
ghost use Rattle.consequences.specs.Forced.{IsForced};

use logic_terms::Knowledge;
use quick_search::{Proposal, hunt};
use std::alloc::Global;
use tableau_rules::{Branch, Step, applies, apply, choices, start};
use wiki_base::Memory;

// Below this budget whether a name is an answer depends on the search alone.
const LEAST_BUDGET: u64 = 100_000;

// How many steps the quick search may take.
const MOST_STEPS: u64 = 100_000;

// A branch that each model fits. The quick search proposes the steps to it.
pub(crate) fn forced_branch(
    alloc: Global,
    k: &Knowledge,
    budget: u64,
) -> Result<Option<Branch>, Memory>
    ensures { IfOk result (λ o. IfSome o (λ b. IsForced (theory_of k.now) (graph_of b))) }
{
    if budget < LEAST_BUDGET {
        return Ok(None);
    }
    let first = start(alloc, k)?;
    match hunt(alloc, k, &first, MOST_STEPS, true)? {
        Proposal::Steps(steps) => Ok(Some(forced(k, first, steps.as_slice())?)),
        Proposal::Tree(_) => Ok(Some(first)),
        Proposal::Nothing => Ok(Some(first)),
    }
}

// The branch that those of the steps make that apply and leave one choice.
fn forced(k: &Knowledge, first: Branch, steps: &[(Step, u64)]) -> Result<Branch, Memory>
    requires { IsForced (theory_of k.now) (graph_of first) }
    ensures { IfOk result (λ b. IsForced (theory_of k.now) (graph_of b)) }
{
    let mut b = first;
    for taken in steps {
        take(k, &mut b, &taken.0)?;
    }
    Ok(b)
}

// Takes a step, if it applies and leaves one choice.
fn take(k: &Knowledge, b: &mut Branch, step: &Step) -> Result<(), Memory>
    requires { IsForced (theory_of k.now) (graph_of b.old) }
    ensures { OnOk result (IsForced (theory_of k.now) (graph_of b.new)) }
{
    if !applies(k, b, step) || choices(b, step) != 1 {
        return Ok(());
    }
    apply(k, b, step, 0)
}
