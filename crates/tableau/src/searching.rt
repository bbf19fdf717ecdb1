// The systematic search.
ghost use Rattle.std.specs.Prelude.{◌≡◌, ◌<◌, IfOk, IsTrue};
ghost use Rattle.logic_terms.specs.Known.{theory_of};
ghost use Rattle.logic_terms.specs.Plain.{is_plain_theory};
ghost use Rattle.tableau_rules.specs.Shown.{graph_of};
ghost use Rattle.tableau_rules.specs.Trees.{tree_of, is_closed};
ghost use Rattle.tableau_rules.specs.Searching.{IsLonger};
ghost use Rattle.tableau_bounds.specs.Enough.{enough, enough_without_choices, enough_without_new_nodes};
ghost use Rattle.tableau_bounds.specs.Fragments.{is_without_unions, is_without_existentials};
ghost use Rattle.tableau.specs.Ends.{IfConsistent, IfInconsistent, IfSpent, IsEnd, IsCutAt};

use crate::quickly::quickly;
use crate::turn::{Turn, next_turn};
use crate::verdict::Verdict;
use crate::way::take;
use agenda::{Agenda, clash_after};
use lists::List;
use logic_terms::Knowledge;
use std::alloc::Global;
use tableau_rules::{Branch, clash, start};
use wiki_base::Memory;

/// Searches for a model of the knowledge. A quick search comes first, whose ends are tested; where it finds none, the
/// systematic one decides, which alone is ever spent: never by a budget of `enough` applications, by fewer over knowledge
/// without unions, and by far fewer over knowledge without unions and existential restrictions. docs/REASONING.md has the
/// rules and their order, and these numbers.
pub fn search(alloc: Global, k: &Knowledge, budget: u64) -> Result<Verdict<Branch>, Memory>
    ensures finished { IfOk result (λ v. IfConsistent v (λ b. IsEnd (theory_of k.now) (graph_of b))) }
    ensures closed { IfOk result (λ v. IfInconsistent v (λ tree. IsTrue (is_closed (theory_of k.now) (tree_of tree)))) }
    ensures spent { IfOk result (λ v. IfSpent v (λ b. IsCutAt (theory_of k.now) budget (graph_of b))) }
    ensures enough { IfOk result (λ v. IfSpent v (λ _. IsTrue (is_plain_theory (theory_of k.now)) → budget < enough (theory_of k.now))) }
    ensures straight { IfOk result (λ v. IfSpent v (λ _. IsTrue (is_without_unions (theory_of k.now)) → budget < enough_without_choices (theory_of k.now))) }
    ensures short { IfOk result (λ v. IfSpent v (λ _. IsTrue (is_without_unions (theory_of k.now)) → IsTrue (is_without_existentials (theory_of k.now))
        → budget < enough_without_new_nodes (theory_of k.now))) }
{
    match quickly(alloc, k, budget)? {
        Some(verdict) => Ok(verdict),
        None => systematic(alloc, k, budget),
    }
}

/// The systematic search alone, with at most `budget` rule applications: the first applicable step is applied again and
/// again, choices of `or` are tried from the first on, and a clash goes back to the last open choice. It is spent exactly
/// where it has not ended by then. An agenda finds that step, and a clash is looked for where the last step changed something.
pub fn systematic(alloc: Global, k: &Knowledge, budget: u64) -> Result<Verdict<Branch>, Memory>
    ensures finished { IfOk result (λ v. IfConsistent v (λ b. IsEnd (theory_of k.now) (graph_of b))) }
    ensures closed { IfOk result (λ v. IfInconsistent v (λ tree. IsTrue (is_closed (theory_of k.now) (tree_of tree)))) }
    ensures spent { IfOk result (λ v. IfSpent v (λ b. IsCutAt (theory_of k.now) budget (graph_of b))) }
    ensures finished_within { IfOk result (λ v. IfConsistent v (λ _. ¬ IsLonger (theory_of k.now) budget)) }
    ensures closed_within { IfOk result (λ v. IfInconsistent v (λ _. ¬ IsLonger (theory_of k.now) budget)) }
{
    let mut way = List::new(alloc);
    let mut b = start(alloc, k)?;
    let mut agenda = Agenda::full(alloc, &b)?;
    let mut found = clash(k, &b);
    for _spent in 0..budget {
        match next_turn(alloc, k, &b, found, &mut agenda, &mut way)? {
            Turn::Finished => return Ok(Verdict::Consistent(b)),
            Turn::Shut(tree) => return Ok(Verdict::Inconsistent(tree)),
            Turn::Forward(step) => {
                b = take(k, b, step, List::new(alloc), &mut way)?;
                agenda.note(&b, &step)?;
                found = clash_after(k, &b, &step);
            }
            Turn::Back(step, trees, before) => {
                b = take(k, before, step, trees, &mut way)?;
                agenda = Agenda::full(alloc, &b)?;
                found = clash_after(k, &b, &step);
            }
        }
    }
    match next_turn(alloc, k, &b, found, &mut agenda, &mut way)? {
        Turn::Finished => Ok(Verdict::Consistent(b)),
        Turn::Shut(tree) => Ok(Verdict::Inconsistent(tree)),
        Turn::Forward(_) => Ok(Verdict::Spent(b)),
        Turn::Back(_, _, _) => Ok(Verdict::Spent(b)),
    }
}
