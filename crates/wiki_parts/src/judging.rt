// The status of a statement, by a verdict on all axioms.
ghost use Rattle.std.specs.Prelude.{◌≡◌, IfOk, IsTrue};
ghost use Rattle.absorb.specs.Mentioned.{are_over};
ghost use Rattle.logic_terms.specs.Plain.{are_plain};
ghost use Rattle.logic_terms.specs.Shown.{claims_of};
ghost use Rattle.logic_terms.specs.Reading.{IsModel};
ghost use Rattle.owl_eval.specs.Checked.{kept_interp, kept_claims};
ghost use Rattle.reasoner.specs.Verdicts.{IfConsistent, IfSpent};
ghost use Rattle.wiki_parts.specs.Judgements.{status_in};
ghost use Rattle.plain_wiki.specs.Knowledge.{IsAllowed};
ghost use Rattle.wiki_parts.specs.Spending.{IsCutOff};

use logic_terms::{Axioms, Names};
use owl_eval::CheckedModel;
use reasoner::{Verdict, verdict};
use std::alloc::Global;
use wiki_base::Memory;

/// Judges a statement by all axioms, its own among them. A search is made only where the kept interpretation is no model.
pub fn judged(
    alloc: Global,
    axioms: Axioms,
    names: &Names,
    kept: &CheckedModel,
    budget: u64,
) -> Result<Verdict<CheckedModel>, Memory>
    requires over { IsTrue (are_over names.now (claims_of axioms)) }
    requires plain { IsTrue (are_plain (claims_of axioms)) }
    ensures allowed { IfOk result (λ v. IsAllowed (claims_of axioms) names.now (IsCutOff budget) (status_in v)) }
    ensures taken { IfOk result (λ v. IfConsistent v (λ model. kept_claims model ≡ claims_of axioms)) }
    ensures spent { IfOk result (λ v. IfSpent v (λ _. IsModel (kept_interp kept.now) (claims_of axioms) → ⊥)) }
{
    verdict(alloc, axioms, names, kept, budget)
}
