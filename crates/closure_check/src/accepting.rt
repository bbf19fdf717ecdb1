// Which trees are closed.
ghost use Rattle.std.specs.Prelude.{◌≡◌, ◌<◌, ◌∷◌, [], false, map, IfOk, IfSome, MatchOption, IsTrue};
ghost use Rattle.logic_terms.specs.Known.{theory_of};
ghost use Rattle.tableau_rules.specs.Shown.{graph_of};
ghost use Rattle.tableau_rules.specs.Trees.{tree_of, closes, is_closed};
ghost use Rattle.tableau_rules.specs.declared.step.Closed.TheVariants as shown;
ghost use Rattle.tableau_rules.specs.declared.step.Closed.TheViews.{size-Closed};
ghost use Rattle.closure_check.specs.Firsts.{close_firsts, Follows};
ghost use Rattle.closure_check.specs.NoModel.{HasNoModel};

use logic_terms::Knowledge;
use std::alloc::Global;
use tableau_rules::{Branch, Closed, Step, applies, apply, choices, is_clash, start};
use wiki_base::Memory;

/// Whether a tree is a closed tree of the knowledge: each of its steps applies where it stands, with one subtree for each
/// choice, and each of its clashes is there. Where it is one, no finite interpretation is a model of the knowledge.
/// Whoever made the tree is not trusted.
pub fn accepts(alloc: Global, k: &Knowledge, closed: &Closed) -> Result<bool, Memory>
    ensures exact { IfOk result (λ yes. yes ≡ is_closed (theory_of k.now) (tree_of closed.now)) }
    ensures sound { IfOk result (λ yes. IsTrue yes → HasNoModel (theory_of k.now)) }
{
    let first = start(alloc, k)?;
    closes(k, first, closed)
}

// Whether a tree closes a branch. Only a step with several choices takes calls, and the branch itself goes on with the last
// choice, so that each other choice takes a copy, and a long way without choices takes no stack.
#[cycle(closing)]
fn closes(k: &Knowledge, b: Branch, closed: &Closed) -> Result<bool, Memory>
    ensures { IfOk result (λ yes. yes ≡ closes (theory_of k.now) (graph_of b) (tree_of closed.now)) }
{
    let mut here = b;
    let Some(tree) = follow(k, &mut here, closed)? else {
        return Ok(false);
    };
    match tree {
        Closed::Clash(clash) => Ok(is_clash(k, &here, *clash)),
        Closed::Step(step, subtrees) => {
            if !applies(k, &here, step) || choices(&here, step) != subtrees.len() as u64 {
                return Ok(false);
            }
            match subtrees.as_slice() {
                [] => Ok(true),
                [firsts @ .., last] => {
                    if !close_firsts(k, &here, step, firsts)? {
                        return Ok(false);
                    }
                    apply(k, &mut here, step, firsts.len() as u64)?;
                    closes(k, here, last)
                }
            }
        }
    }
}

// Takes the steps with one subtree down to the first tree that is none, if they apply.
fn follow<'a>(
    k: &Knowledge,
    b: &mut Branch,
    closed: &'a Closed,
) -> Result<Option<&'a Closed>, Memory>
    ensures { IfOk result (λ found. MatchOption found (closes (theory_of k.now) (graph_of b.old) (tree_of closed.now) ≡ false)
        (λ t. Follows (theory_of k.now) (graph_of b.old) closed.now (graph_of b.new) t.now)) }
{
    let mut tree = closed;
    while let Some((step, next)) = only_subtree(tree) {
        if !applies(k, b, step) || choices(b, step) != 1 {
            return Ok(None);
        }
        apply(k, b, step, 0)?;
        tree = next;
    }
    Ok(Some(tree))
}

// The step and the subtree of a tree that has one.
fn only_subtree(closed: &Closed) -> Option<(&Step, &Closed)>
    ensures tree { IfSome result (λ found. closed.now ≡ shown.Step found.0.now (found.1.now ∷ [])) }
    ensures smaller { IfSome result (λ found. size-Closed found.1.now < size-Closed closed.now) }
{
    match closed {
        Closed::Clash(_) => None,
        Closed::Step(step, subtrees) => match subtrees.as_slice() {
            [only] => Some((step, only)),
            _ => None,
        },
    }
}

// Whether each of these trees closes the branch after the choice of its place.
#[cycle(closing)]
fn close_firsts(k: &Knowledge, b: &Branch, step: &Step, firsts: &[Closed]) -> Result<bool, Memory>
    ensures { IfOk result (λ yes. yes ≡ close_firsts (theory_of k.now) (graph_of b.now) step.now 0 (map tree_of firsts.now)) }
{
    let mut choice = 0;
    for subtree in firsts {
        let mut next = b.copy()?;
        apply(k, &mut next, step, choice)?;
        if !closes(k, next, subtree)? {
            return Ok(false);
        }
        choice += 1;
    }
    Ok(true)
}
