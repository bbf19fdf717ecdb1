// Decisions on knowledge.
ghost use Rattle.std.specs.Prelude.{IfOk, IsTrue};
ghost use Rattle.logic_terms.specs.Interpretation.{is_interpretation};
ghost use Rattle.logic_terms.specs.Known.{theory_of};
ghost use Rattle.logic_terms.specs.Plain.{is_plain_theory};
ghost use Rattle.logic_terms.specs.Theory.{IsLawful, IsModelOf};
ghost use Rattle.closure_check.specs.NoModel.{HasNoModel};
ghost use Rattle.tableau.specs.Ends.{IfConsistent, IfInconsistent, IfSpent, IsCutAt};
ghost use Rattle.tableau_rules.specs.Shown.{graph_of};
ghost use Rattle.tableau_rules.specs.Trees.{tree_of, is_closed};

use branch_model::model;
use logic_terms::Knowledge;
use owl_eval::Interp;
use std::alloc::Global;
use tableau::{Verdict, search};
use wiki_base::Memory;

/// Whether lawful knowledge has a finite model. The budget is spent only where the systematic search has not ended within
/// that many rule applications.
pub fn decide(alloc: Global, k: &Knowledge, budget: u64) -> Result<Verdict<Interp>, Memory>
    requires lawful { IsLawful (theory_of k.now) }
    requires plain { IsTrue (is_plain_theory (theory_of k.now)) }
    ensures model { IfOk result (λ v. IfConsistent v (λ i. IsModelOf i (theory_of k.now))) }
    ensures finite { IfOk result (λ v. IfConsistent v (λ i. IsTrue (is_interpretation i))) }
    ensures tree { IfOk result (λ v. IfInconsistent v (λ tree. IsTrue (is_closed (theory_of k.now) (tree_of tree)))) }
    ensures no_model { IfOk result (λ v. IfInconsistent v (λ _. HasNoModel (theory_of k.now))) }
    ensures spent { IfOk result (λ v. IfSpent v (λ b. IsCutAt (theory_of k.now) budget (graph_of b))) }
{
    match search(alloc, k, budget)? {
        Verdict::Consistent(b) => Ok(Verdict::Consistent(model(alloc, k, &b)?)),
        Verdict::Inconsistent(tree) => Ok(Verdict::Inconsistent(tree)),
        Verdict::Spent(b) => Ok(Verdict::Spent(b)),
    }
}
