// What the quick search proposes, tested.
ghost use Rattle.std.specs.Prelude.{◌≡◌, IfOk, IfSome, IsTrue};
ghost use Rattle.logic_terms.specs.Known.{theory_of};
ghost use Rattle.tableau_rules.specs.Branches.{IsBranch, is_finished};
ghost use Rattle.tableau_rules.specs.Shown.{graph_of};
ghost use Rattle.tableau_rules.specs.Trees.{tree_of, is_closed};
ghost use Rattle.tableau.specs.Ends.{IfConsistent, IfInconsistent, IfSpent, IsEnd};

use crate::verdict::Verdict;
use closure_check::accepts;
use lists::List;
use logic_terms::Knowledge;
use quick_search::{Proposal, hunt};
use std::alloc::Global;
use tableau_rules::{Branch, Closed, Step, applicable, applies, apply, choices, clash, start};
use wiki_base::Memory;

// Below this budget the quick search leaves no choice out, so that it ends where the systematic one does.
const LEAST_LEAPING_BUDGET: u64 = 100_000;

// An end of a search that the quick search finds within the budget, if it finds one: never a spent budget.
pub(crate) fn quickly(
    alloc: Global,
    k: &Knowledge,
    budget: u64,
) -> Result<Option<Verdict<Branch>>, Memory>
    ensures finished { IfOk result (λ o. IfSome o (λ v. IfConsistent v (λ b. IsEnd (theory_of k.now) (graph_of b)))) }
    ensures closed { IfOk result (λ o. IfSome o (λ v. IfInconsistent v (λ tree. IsTrue (is_closed (theory_of k.now) (tree_of tree))))) }
    ensures not_spent { IfOk result (λ o. IfSome o (λ v. IfSpent v (λ _. ⊥))) }
{
    let first = start(alloc, k)?;
    match hunt(alloc, k, &first, budget, budget >= LEAST_LEAPING_BUDGET)? {
        Proposal::Steps(steps) => finished(k, first, steps),
        Proposal::Tree(tree) => closed(alloc, k, tree),
        Proposal::Nothing => Ok(None),
    }
}

// The end at a branch that these choices of steps make, if they do.
fn finished(
    k: &Knowledge,
    first: Branch,
    steps: List<(Step, u64)>,
) -> Result<Option<Verdict<Branch>>, Memory>
    requires { IsBranch (theory_of k.now) (graph_of first) }
    ensures finished { IfOk result (λ o. IfSome o (λ v. IfConsistent v (λ b. IsEnd (theory_of k.now) (graph_of b)))) }
    ensures closed { IfOk result (λ o. IfSome o (λ v. IfInconsistent v (λ tree. IsTrue (is_closed (theory_of k.now) (tree_of tree))))) }
    ensures not_spent { IfOk result (λ o. IfSome o (λ v. IfSpent v (λ _. ⊥))) }
{
    let Some(b) = replayed(k, first, steps.as_slice())? else {
        return Ok(None);
    };
    if is_finished(k, &b) {
        Ok(Some(Verdict::Consistent(b)))
    } else {
        Ok(None)
    }
}

// Whether a branch has no clash, and no step applies to it.
fn is_finished(k: &Knowledge, b: &Branch) -> bool
    ensures { result ≡ is_finished (theory_of k.now) (graph_of b.now) }
{
    clash(k, b).is_none() && applicable(k, b).is_none()
}

// The branch that these choices of steps make, if they are choices of steps that apply.
fn replayed(k: &Knowledge, first: Branch, steps: &[(Step, u64)]) -> Result<Option<Branch>, Memory>
    requires { IsBranch (theory_of k.now) (graph_of first) }
    ensures { IfOk result (λ o. IfSome o (λ b. IsBranch (theory_of k.now) (graph_of b))) }
{
    let mut b = first;
    for taken in steps {
        let (step, choice) = *taken;
        if !applies(k, &b, &step) || choice >= choices(&b, &step) {
            return Ok(None);
        }
        apply(k, &mut b, &step, choice)?;
    }
    Ok(Some(b))
}

// The end by a closed tree, if this is one.
fn closed(alloc: Global, k: &Knowledge, tree: Closed) -> Result<Option<Verdict<Branch>>, Memory>
    ensures finished { IfOk result (λ o. IfSome o (λ v. IfConsistent v (λ b. IsEnd (theory_of k.now) (graph_of b)))) }
    ensures closed { IfOk result (λ o. IfSome o (λ v. IfInconsistent v (λ tree. IsTrue (is_closed (theory_of k.now) (tree_of tree))))) }
    ensures not_spent { IfOk result (λ o. IfSome o (λ v. IfSpent v (λ _. ⊥))) }
{
    if accepts(alloc, k, &tree)? {
        Ok(Some(Verdict::Inconsistent(tree)))
    } else {
        Ok(None)
    }
}
