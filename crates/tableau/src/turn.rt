// The next turn of a search.
ghost use Rattle.std.specs.Prelude.{◌≡◌, ℕ, true, IfOk, IfSome, IsTrue, is_some};
ghost use Rattle.logic_terms.specs.Known.{theory_of};
ghost use Rattle.logic_terms.specs.Theory.{Theory};
ghost use Rattle.agenda.specs.Agendas.{IsAgendaOf};
ghost use Rattle.tableau_rules.specs.Clashes.{is_clash, has_clash};
ghost use Rattle.tableau_rules.specs.Shown.{graph_of};
ghost use Rattle.tableau_rules.specs.Trees.{tree_of, closes};
ghost use Rattle.tableau.specs.Ways.{Leads, reached};
ghost use Rattle.tableau.specs.Turns.{IsTurn, IsBack};

use crate::way::Taken;
use agenda::Agenda;
use lists::List;
use logic_terms::Knowledge;
use std::alloc::Global;
use tableau_rules::{Branch, Clash, Closed, Step, choices};
use wiki_base::Memory;

// What a search does next.
#[derive(Drop)]
pub(crate) enum Turn {
    // It ends: no rule applies at the branch, which has no clash.
    Finished,
    // It ends: this tree closes the first branch.
    Shut(Closed),
    // It takes the first choice of this step.
    Forward(Step),
    // It goes back to this branch, and takes the choice of the step that follows those with these trees.
    Back(Step, List<Closed>, Branch),
}

// The next turn at a branch, which this way leads to, with a clash of it if there is one. Going back shortens the way.
pub(crate) fn next_turn(
    alloc: Global,
    k: &Knowledge,
    b: &Branch,
    clash: Option<Clash>,
    agenda: &mut Agenda,
    way: &mut List<Taken>,
) -> Result<Turn, Memory>
    requires leads { Leads (theory_of k.now) way.old }
    requires here { graph_of b.now ≡ (reached (theory_of k.now) way.old).graph }
    requires exact { is_some clash ≡ has_clash (theory_of k.now) (graph_of b.now) }
    requires there { IfSome clash (λ c. IsTrue (is_clash (theory_of k.now) (graph_of b.now) c)) }
    requires agenda { IsAgendaOf (theory_of k.now) (graph_of b.now) agenda.old }
    ensures turn { IfOk result (λ t. IsTurn (theory_of k.now) (reached (theory_of k.now) way.old) way.new t) }
    ensures agenda { IfOk result (λ _. IsAgendaOf (theory_of k.now) (graph_of b.now) agenda.new) }
{
    match clash {
        Some(found) => back(Closed::Clash(found), way),
        None => {
            let first = agenda.next(k, b)?;
            match first {
                None => Ok(Turn::Finished),
                Some(step) if choices(b, &step) == 0 => {
                    back(Closed::Step(step, List::new(alloc)), way)
                }
                Some(step) => Ok(Turn::Forward(step)),
            }
        }
    }
}

// Goes back from a branch that a tree closes to the last choice that is left.
fn back(tree: Closed, way: &mut List<Taken>) -> Result<Turn, Memory>
    ensures { IfOk result (λ t. (k : Theory) → Leads k way.old → closes k (reached k way.old).graph (tree_of tree) ≡ true
        → IsBack k (reached k way.old).waiting way.new t) }
{
    let mut closed = tree;
    while let Some(last) = way.pop() {
        let Taken {
            step,
            mut trees,
            kept,
        } = last;
        trees.push(closed)?;
        match kept {
            Some(before) => return Ok(Turn::Back(step, trees, before)),
            None => closed = Closed::Step(step, trees),
        }
    }
    Ok(Turn::Shut(closed))
}
