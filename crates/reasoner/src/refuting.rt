// Closed trees by a part of what is known.
ghost use Rattle.std.specs.Prelude.{IfOk, IfSome, IsTrue};
ghost use Rattle.logic_terms.specs.Shown.{claims_of};
ghost use Rattle.logic_terms.specs.Known.{theory_of};
ghost use Rattle.absorb.specs.Mentioned.{are_over};
ghost use Rattle.closure_check.specs.NoModel.{HasNoModel};
ghost use Rattle.tableau_rules.specs.Trees.{tree_of, is_closed};

use absorb::absorb;
use logic_terms::{Axiom, Axioms, Knowledge, Names};
use shared_search::{Part, narrow};
use std::alloc::Global;
use tableau::refute;
use tableau_rules::Closed;
use wiki_base::Memory;

// With how many rule applications a part is tried before it is made smaller.
const FIRST_BUDGET: u64 = 500;

// How much may be looked at to make a part smaller.
const MOST_LOOKS: u64 = 2_000_000;

// What is said by axioms over names, and absorbed.
#[derive(Clone, Copy)]
pub(crate) struct Stated<'a> {
    pub(crate) axioms: &'a Axioms,
    pub(crate) names: &'a Names,
    pub(crate) knowledge: &'a Knowledge,
}

// A closed tree of the knowledge, if a part of the axioms, or a smaller one, leads to one.
pub(crate) fn refuted(
    alloc: Global,
    stated: &Stated<'_>,
    chosen: &Part,
    budget: u64,
) -> Result<Option<Closed>, Memory>
    requires { IsTrue (are_over stated.now.names.now (claims_of stated.now.axioms.now)) }
    ensures closed { IfOk result (λ o. IfSome o (λ tree. IsTrue (is_closed (theory_of stated.now.knowledge.now) (tree_of tree)))) }
    ensures no_model { IfOk result (λ o. IfSome o (λ _. HasNoModel (theory_of stated.now.knowledge.now))) }
{
    if let Some(tree) = refuted_by(alloc, stated, chosen, budget.min(FIRST_BUDGET))? {
        return Ok(Some(tree));
    }
    let mut fewer = narrow(alloc, stated.knowledge, stated.axioms, chosen, MOST_LOOKS)?;
    if let Some(tree) = refuted_by(alloc, stated, &fewer, budget)? {
        return Ok(Some(tree));
    }
    fewer.names = Vec::from_slice(alloc, stated.names.as_slice())?;
    refuted_by(alloc, stated, &fewer, budget)
}

// A closed tree of the knowledge, if a part of the axioms leads to one.
fn refuted_by(
    alloc: Global,
    stated: &Stated<'_>,
    chosen: &Part,
    budget: u64,
) -> Result<Option<Closed>, Memory>
    requires { IsTrue (are_over stated.now.names.now (claims_of stated.now.axioms.now)) }
    ensures closed { IfOk result (λ o. IfSome o (λ tree. IsTrue (is_closed (theory_of stated.now.knowledge.now) (tree_of tree)))) }
    ensures no_model { IfOk result (λ o. IfSome o (λ _. HasNoModel (theory_of stated.now.knowledge.now))) }
{
    let axioms = part(alloc, stated, chosen.places.as_slice())?;
    let within = absorb(alloc, &axioms, stated.names)?;
    refute(
        alloc,
        stated.knowledge,
        &within,
        chosen.names.as_slice(),
        budget,
    )
}

// The axioms at these places, and all on roles and on which names are one.
fn part(alloc: Global, stated: &Stated<'_>, places: &[usize]) -> Result<Axioms, Memory>
    requires { IsTrue (are_over stated.now.names.now (claims_of stated.now.axioms.now)) }
    ensures { IfOk result (λ chosen. IsTrue (are_over stated.now.names.now (claims_of chosen))) }
{
    let mut chosen = Axioms::new(alloc);
    for place in 0..stated.axioms.len() {
        let axiom = stated.axioms.get(place);
        if speaks_of_all(axiom) || places.contains(&place) {
            chosen.push(axiom.copy(alloc)?)?;
        }
    }
    Ok(chosen)
}

// Whether an axiom is on roles, or on which names are one.
fn speaks_of_all(axiom: &Axiom) -> bool {
    match axiom {
        Axiom::SubRole(_, _) => true,
        Axiom::Transitive(_) => true,
        Axiom::Equal(_, _) => true,
        _ => false,
    }
}
