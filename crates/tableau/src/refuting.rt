// Closed trees that the quick search finds by a part of knowledge, tested.
ghost use Rattle.std.specs.Prelude.{IfOk, IfSome, IsTrue};
ghost use Rattle.logic_terms.specs.Known.{theory_of};
ghost use Rattle.closure_check.specs.NoModel.{HasNoModel};
ghost use Rattle.tableau_rules.specs.Trees.{tree_of, is_closed};

use closure_check::accepts;
use logic_terms::Knowledge;
use quick_search::hunt_within;
use std::alloc::Global;
use tableau_rules::{Closed, start};
use wiki_base::{Memory, WordId};

/// A closed tree of knowledge, if a quick search by a part of it, with the same names and roles, finds one with at most `budget`
/// rule applications. Of what each element is in it takes no more than that the elements of these names are in it. None says
/// nothing of the knowledge.
pub fn refute(
    alloc: Global,
    k: &Knowledge,
    part: &Knowledge,
    names: &[WordId],
    budget: u64,
) -> Result<Option<Closed>, Memory>
    ensures closed { IfOk result (λ o. IfSome o (λ tree. IsTrue (is_closed (theory_of k.now) (tree_of tree)))) }
    ensures no_model { IfOk result (λ o. IfSome o (λ _. HasNoModel (theory_of k.now))) }
{
    let first = start(alloc, k)?;
    match hunt_within(alloc, k, part, names, &first, budget)? {
        Some(tree) => accepted(alloc, k, tree),
        None => Ok(None),
    }
}

// A tree, if it closes the knowledge.
fn accepted(alloc: Global, k: &Knowledge, tree: Closed) -> Result<Option<Closed>, Memory>
    ensures closed { IfOk result (λ o. IfSome o (λ tree. IsTrue (is_closed (theory_of k.now) (tree_of tree)))) }
    ensures no_model { IfOk result (λ o. IfSome o (λ _. HasNoModel (theory_of k.now))) }
{
    if accepts(alloc, k, &tree)? {
        Ok(Some(tree))
    } else {
        Ok(None)
    }
}
