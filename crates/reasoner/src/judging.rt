// Verdicts on axioms.
ghost use Rattle.std.specs.Prelude.{◌≡◌, true, IfOk, IsTrue};
ghost use Rattle.logic_terms.specs.Shown.{claims_of};
ghost use Rattle.logic_terms.specs.Known.{theory_of};
ghost use Rattle.logic_terms.specs.Plain.{are_plain};
ghost use Rattle.logic_terms.specs.Reading.{IsModel};
ghost use Rattle.absorb.specs.Mentioned.{are_over};
ghost use Rattle.owl_eval.specs.Checked.{kept_interp, kept_claims};
ghost use Rattle.tableau_rules.specs.Shown.{graph_of};
ghost use Rattle.tableau_rules.specs.Trees.{tree_of};
ghost use Rattle.reasoner.specs.Verdicts.{IfConsistent, IfInconsistent, IfSpent, IsFiniteModel, HaveNoModel, ClosesAll, SpendsAll, IsBelowEnough, IsBelowWithoutChoices, IsBelowWithoutNewNodes};

use crate::deciding::decide;
use crate::refuting::{Stated, refuted};
use absorb::absorb;
use logic_terms::{Axioms, Names};
use model_growth::grow;
use owl_eval::{CheckedModel, Interp};
use shared_search::{Proposed, propose};
use std::alloc::Global;
use tableau::Verdict;
use wiki_base::Memory;

// Below this budget whether axioms have a model depends on the kept interpretation and the search alone.
const LEAST_PROPOSING_BUDGET: u64 = 100_000;

// How much may be looked at for a proposal.
const MOST_LOOKS: u64 = 40_000_000;

/// Whether axioms over these names have a finite model. The kept interpretation is tried first, and then, from a budget of
/// 100,000 on, one that grows out of it and one in which successors are shared: where one of them is a model, no search is made.
/// Else the search over the absorbed knowledge decides. A spent budget is one by which the systematic search has not ended:
/// it is below `enough`, and below the far smaller bounds of knowledge without unions, and without existential restrictions.
pub fn verdict(
    alloc: Global,
    axioms: Axioms,
    names: &Names,
    kept: &CheckedModel,
    budget: u64,
) -> Result<Verdict<CheckedModel>, Memory>
    requires over { IsTrue (are_over names.now (claims_of axioms)) }
    requires plain { IsTrue (are_plain (claims_of axioms)) }
    ensures consistent { IfOk result (λ v. IfConsistent v (λ m. kept_claims m ≡ claims_of axioms)) }
    ensures model { IfOk result (λ v. IfConsistent v (λ m. IsFiniteModel (kept_interp m) (claims_of axioms))) }
    ensures inconsistent { IfOk result (λ v. IfInconsistent v (λ tree. ClosesAll (claims_of axioms) names.now (tree_of tree))) }
    ensures impossible { IfOk result (λ v. IfInconsistent v (λ _. HaveNoModel (claims_of axioms))) }
    ensures spent { IfOk result (λ v. IfSpent v (λ b. SpendsAll (claims_of axioms) names.now budget (graph_of b))) }
    ensures enough { IfOk result (λ v. IfSpent v (λ _. IsBelowEnough (claims_of axioms) names.now budget)) }
    ensures straight { IfOk result (λ v. IfSpent v (λ _. IsBelowWithoutChoices (claims_of axioms) names.now budget)) }
    ensures short { IfOk result (λ v. IfSpent v (λ _. IsBelowWithoutNewNodes (claims_of axioms) names.now budget)) }
    ensures not_kept { IfOk result (λ v. IfSpent v (λ _. ¬ IsModel (kept_interp kept.now) (claims_of axioms))) }
{
    if kept.is_model_of(&axioms) {
        return Ok(Verdict::Consistent(kept_model(kept, axioms)?));
    }
    grown_verdict(alloc, axioms, names, kept, budget)
}

// The kept interpretation as a checked model of axioms that it is a model of.
fn kept_model(kept: &CheckedModel, axioms: Axioms) -> Result<CheckedModel, Memory>
    requires { IsModel (kept_interp kept.now) (claims_of axioms) }
    ensures interp { IfOk result (λ made. kept_interp made ≡ kept_interp kept.now) }
    ensures axioms { IfOk result (λ made. kept_claims made ≡ claims_of axioms) }
{
    let interp = kept.interp().copy()?;
    Ok(kept.grown(interp, axioms).unwrap())
}

// The verdict where the kept interpretation is no model of the axioms: one that grows out of it is tried before the search.
fn grown_verdict(
    alloc: Global,
    axioms: Axioms,
    names: &Names,
    kept: &CheckedModel,
    budget: u64,
) -> Result<Verdict<CheckedModel>, Memory>
    requires over { IsTrue (are_over names.now (claims_of axioms)) }
    requires plain { IsTrue (are_plain (claims_of axioms)) }
    ensures consistent { IfOk result (λ v. IfConsistent v (λ m. kept_claims m ≡ claims_of axioms)) }
    ensures model { IfOk result (λ v. IfConsistent v (λ m. IsFiniteModel (kept_interp m) (claims_of axioms))) }
    ensures inconsistent { IfOk result (λ v. IfInconsistent v (λ tree. ClosesAll (claims_of axioms) names.now (tree_of tree))) }
    ensures impossible { IfOk result (λ v. IfInconsistent v (λ _. HaveNoModel (claims_of axioms))) }
    ensures spent { IfOk result (λ v. IfSpent v (λ b. SpendsAll (claims_of axioms) names.now budget (graph_of b))) }
    ensures enough { IfOk result (λ v. IfSpent v (λ _. IsBelowEnough (claims_of axioms) names.now budget)) }
    ensures straight { IfOk result (λ v. IfSpent v (λ _. IsBelowWithoutChoices (claims_of axioms) names.now budget)) }
    ensures short { IfOk result (λ v. IfSpent v (λ _. IsBelowWithoutNewNodes (claims_of axioms) names.now budget)) }
{
    if budget < LEAST_PROPOSING_BUDGET {
        return searched_verdict(alloc, axioms, names, budget);
    }
    match grow(alloc, kept.interp(), &axioms, names)? {
        Some(grown) => tried_verdict(alloc, grown, axioms, names, kept, budget),
        None => proposed_verdict(alloc, axioms, names, Some(kept.interp()), budget),
    }
}

// The verdict that a grown interpretation makes, if it is a model of the axioms, and else a search.
fn tried_verdict(
    alloc: Global,
    interp: Interp,
    axioms: Axioms,
    names: &Names,
    kept: &CheckedModel,
    budget: u64,
) -> Result<Verdict<CheckedModel>, Memory>
    requires over { IsTrue (are_over names.now (claims_of axioms)) }
    requires plain { IsTrue (are_plain (claims_of axioms)) }
    ensures consistent { IfOk result (λ v. IfConsistent v (λ m. kept_claims m ≡ claims_of axioms)) }
    ensures model { IfOk result (λ v. IfConsistent v (λ m. IsFiniteModel (kept_interp m) (claims_of axioms))) }
    ensures inconsistent { IfOk result (λ v. IfInconsistent v (λ tree. ClosesAll (claims_of axioms) names.now (tree_of tree))) }
    ensures impossible { IfOk result (λ v. IfInconsistent v (λ _. HaveNoModel (claims_of axioms))) }
    ensures spent { IfOk result (λ v. IfSpent v (λ b. SpendsAll (claims_of axioms) names.now budget (graph_of b))) }
    ensures enough { IfOk result (λ v. IfSpent v (λ _. IsBelowEnough (claims_of axioms) names.now budget)) }
    ensures straight { IfOk result (λ v. IfSpent v (λ _. IsBelowWithoutChoices (claims_of axioms) names.now budget)) }
    ensures short { IfOk result (λ v. IfSpent v (λ _. IsBelowWithoutNewNodes (claims_of axioms) names.now budget)) }
{
    match kept.grown(interp, axioms) {
        Ok(model) => {
            let _ = model.interp();
            Ok(Verdict::Consistent(model))
        }
        Err(refused) => {
            let (_, axioms) = refused;
            proposed_verdict(alloc, axioms, names, Some(kept.interp()), budget)
        }
    }
}

/// The verdict for axioms without an interpretation that is kept: from a budget of 100,000 on a small one is looked for first, in
/// which successors are shared, and a part of the axioms that contradicts itself; else the search decides.
pub fn searched_verdict(
    alloc: Global,
    axioms: Axioms,
    names: &Names,
    budget: u64,
) -> Result<Verdict<CheckedModel>, Memory>
    requires over { IsTrue (are_over names.now (claims_of axioms)) }
    requires plain { IsTrue (are_plain (claims_of axioms)) }
    ensures consistent { IfOk result (λ v. IfConsistent v (λ m. kept_claims m ≡ claims_of axioms)) }
    ensures model { IfOk result (λ v. IfConsistent v (λ m. IsFiniteModel (kept_interp m) (claims_of axioms))) }
    ensures inconsistent { IfOk result (λ v. IfInconsistent v (λ tree. ClosesAll (claims_of axioms) names.now (tree_of tree))) }
    ensures impossible { IfOk result (λ v. IfInconsistent v (λ _. HaveNoModel (claims_of axioms))) }
    ensures spent { IfOk result (λ v. IfSpent v (λ b. SpendsAll (claims_of axioms) names.now budget (graph_of b))) }
    ensures enough { IfOk result (λ v. IfSpent v (λ _. IsBelowEnough (claims_of axioms) names.now budget)) }
    ensures straight { IfOk result (λ v. IfSpent v (λ _. IsBelowWithoutChoices (claims_of axioms) names.now budget)) }
    ensures short { IfOk result (λ v. IfSpent v (λ _. IsBelowWithoutNewNodes (claims_of axioms) names.now budget)) }
{
    proposed_verdict(alloc, axioms, names, None, budget)
}

// The verdict for axioms that the kept interpretation, if there is one, is not a model of.
fn proposed_verdict(
    alloc: Global,
    axioms: Axioms,
    names: &Names,
    kept: Option<&Interp>,
    budget: u64,
) -> Result<Verdict<CheckedModel>, Memory>
    requires over { IsTrue (are_over names.now (claims_of axioms)) }
    requires plain { IsTrue (are_plain (claims_of axioms)) }
    ensures consistent { IfOk result (λ v. IfConsistent v (λ m. kept_claims m ≡ claims_of axioms)) }
    ensures model { IfOk result (λ v. IfConsistent v (λ m. IsFiniteModel (kept_interp m) (claims_of axioms))) }
    ensures inconsistent { IfOk result (λ v. IfInconsistent v (λ tree. ClosesAll (claims_of axioms) names.now (tree_of tree))) }
    ensures impossible { IfOk result (λ v. IfInconsistent v (λ _. HaveNoModel (claims_of axioms))) }
    ensures spent { IfOk result (λ v. IfSpent v (λ b. SpendsAll (claims_of axioms) names.now budget (graph_of b))) }
    ensures enough { IfOk result (λ v. IfSpent v (λ _. IsBelowEnough (claims_of axioms) names.now budget)) }
    ensures straight { IfOk result (λ v. IfSpent v (λ _. IsBelowWithoutChoices (claims_of axioms) names.now budget)) }
    ensures short { IfOk result (λ v. IfSpent v (λ _. IsBelowWithoutNewNodes (claims_of axioms) names.now budget)) }
{
    if budget < LEAST_PROPOSING_BUDGET {
        return decided_verdict(alloc, axioms, names, budget);
    }
    let knowledge = absorb(alloc, &axioms, names)?;
    match propose(alloc, &knowledge, &axioms, kept, MOST_LOOKS)? {
        Proposed::Model(interp) => shared_verdict(alloc, interp, axioms, names, budget),
        Proposed::Clash(part) => {
            let stated = Stated {
                axioms: &axioms,
                names,
                knowledge: &knowledge,
            };
            match refuted(alloc, &stated, &part, budget)? {
                Some(tree) => Ok(Verdict::Inconsistent(tree)),
                None => decided_verdict(alloc, axioms, names, budget),
            }
        }
        Proposed::Nothing => decided_verdict(alloc, axioms, names, budget),
    }
}

// The verdict that an interpretation makes, if it is a model of the axioms, and else the search.
fn shared_verdict(
    alloc: Global,
    interp: Interp,
    axioms: Axioms,
    names: &Names,
    budget: u64,
) -> Result<Verdict<CheckedModel>, Memory>
    requires over { IsTrue (are_over names.now (claims_of axioms)) }
    requires plain { IsTrue (are_plain (claims_of axioms)) }
    ensures consistent { IfOk result (λ v. IfConsistent v (λ m. kept_claims m ≡ claims_of axioms)) }
    ensures model { IfOk result (λ v. IfConsistent v (λ m. IsFiniteModel (kept_interp m) (claims_of axioms))) }
    ensures inconsistent { IfOk result (λ v. IfInconsistent v (λ tree. ClosesAll (claims_of axioms) names.now (tree_of tree))) }
    ensures impossible { IfOk result (λ v. IfInconsistent v (λ _. HaveNoModel (claims_of axioms))) }
    ensures spent { IfOk result (λ v. IfSpent v (λ b. SpendsAll (claims_of axioms) names.now budget (graph_of b))) }
    ensures enough { IfOk result (λ v. IfSpent v (λ _. IsBelowEnough (claims_of axioms) names.now budget)) }
    ensures straight { IfOk result (λ v. IfSpent v (λ _. IsBelowWithoutChoices (claims_of axioms) names.now budget)) }
    ensures short { IfOk result (λ v. IfSpent v (λ _. IsBelowWithoutNewNodes (claims_of axioms) names.now budget)) }
{
    match CheckedModel::new(interp, axioms) {
        Ok(model) => {
            let _ = model.interp();
            Ok(Verdict::Consistent(model))
        }
        Err(refused) => {
            let (_, axioms) = refused;
            decided_verdict(alloc, axioms, names, budget)
        }
    }
}

// The verdict that the search alone makes.
fn decided_verdict(
    alloc: Global,
    axioms: Axioms,
    names: &Names,
    budget: u64,
) -> Result<Verdict<CheckedModel>, Memory>
    requires over { IsTrue (are_over names.now (claims_of axioms)) }
    requires plain { IsTrue (are_plain (claims_of axioms)) }
    ensures consistent { IfOk result (λ v. IfConsistent v (λ m. kept_claims m ≡ claims_of axioms)) }
    ensures model { IfOk result (λ v. IfConsistent v (λ m. IsFiniteModel (kept_interp m) (claims_of axioms))) }
    ensures inconsistent { IfOk result (λ v. IfInconsistent v (λ tree. ClosesAll (claims_of axioms) names.now (tree_of tree))) }
    ensures impossible { IfOk result (λ v. IfInconsistent v (λ _. HaveNoModel (claims_of axioms))) }
    ensures spent { IfOk result (λ v. IfSpent v (λ b. SpendsAll (claims_of axioms) names.now budget (graph_of b))) }
    ensures enough { IfOk result (λ v. IfSpent v (λ _. IsBelowEnough (claims_of axioms) names.now budget)) }
    ensures straight { IfOk result (λ v. IfSpent v (λ _. IsBelowWithoutChoices (claims_of axioms) names.now budget)) }
    ensures short { IfOk result (λ v. IfSpent v (λ _. IsBelowWithoutNewNodes (claims_of axioms) names.now budget)) }
{
    let k = absorb(alloc, &axioms, names)?;
    match decide(alloc, &k, budget)? {
        Verdict::Consistent(interp) => Ok(Verdict::Consistent(checked(interp, axioms))),
        Verdict::Inconsistent(tree) => Ok(Verdict::Inconsistent(tree)),
        Verdict::Spent(b) => Ok(Verdict::Spent(b)),
    }
}

// The checked model of an interpretation and axioms that it is a model of.
fn checked(interp: Interp, axioms: Axioms) -> CheckedModel
    requires { IsModel interp (claims_of axioms) }
    ensures interp { kept_interp result ≡ interp }
    ensures axioms { kept_claims result ≡ claims_of axioms }
{
    CheckedModel::new(interp, axioms).unwrap()
}
