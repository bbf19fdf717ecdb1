// The choices that a search took on the way to its branch.
ghost use Rattle.std.specs.Prelude.{◌≡◌, ◌<◌, length, IfOk};
ghost use Rattle.logic_terms.specs.Known.{theory_of};
ghost use Rattle.tableau_rules.specs.Shown.{graph_of};
ghost use Rattle.tableau_rules.specs.Rules.{choices};
ghost use Rattle.tableau.specs.Ways.{Leads, reached, chosen, IsOpen, IsKept};

use lists::List;
use logic_terms::Knowledge;
use tableau_rules::{Branch, Closed, Step, apply, choices};
use wiki_base::Memory;

// A step, and closed trees of the choices before the one that was taken: as many as its number. The branch before it is
// kept where a choice is left.
#[derive(Drop)]
pub(crate) struct Taken {
    pub(crate) step: Step,
    pub(crate) trees: List<Closed>,
    pub(crate) kept: Option<Branch>,
}

// Takes the choice of a step that follows those with these trees.
pub(crate) fn take(
    k: &Knowledge,
    before: Branch,
    step: Step,
    trees: List<Closed>,
    way: &mut List<Taken>,
) -> Result<Branch, Memory>
    requires leads { Leads (theory_of k.now) way.old }
    requires choice { IsOpen (theory_of k.now) (reached (theory_of k.now) way.old) step trees }
    requires before { graph_of before ≡ (reached (theory_of k.now) way.old).graph }
    ensures leads { IfOk result (λ _. Leads (theory_of k.now) way.new) }
    ensures reached { IfOk result (λ _. reached (theory_of k.now) way.new ≡ chosen (theory_of k.now) (reached (theory_of k.now) way.old) step (length trees)) }
    ensures branch { IfOk result (λ b. graph_of b ≡ (reached (theory_of k.now) way.new).graph) }
{
    let choice = trees.len() as u64;
    let kept = kept_for(&before, &step, choice)?;
    let mut b = before;
    apply(k, &mut b, &step, choice)?;
    way.push(Taken { step, trees, kept })?;
    Ok(b)
}

// A copy of the branch where a choice of the step is left after this one.
fn kept_for(b: &Branch, step: &Step, choice: u64) -> Result<Option<Branch>, Memory>
    requires { choice < choices (graph_of b.now) step.now }
    ensures { IfOk result (λ kept. IsKept (graph_of b.now) step.now choice kept) }
{
    if choice < choices(b, step) - 1 {
        Ok(Some(b.copy()?))
    } else {
        Ok(None)
    }
}
