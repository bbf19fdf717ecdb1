// Which pieces of knowledge a closed tree rests on. Nobody believes it: what it proposes gets a verdict.
ghost use Rattle.std.specs.Prelude.{◌≡◌, ◌≤◌, ◌<◌, ◌∷◌, [], IfOk, IfSome};
ghost use Rattle.tableau_rules.specs.declared.step.Closed.TheVariants as shown;
ghost use Rattle.tableau_rules.specs.declared.step.Closed.TheViews.{size-Closed};

use crate::uses::{Growth, Uses};
use logic_terms::Knowledge;
use std::alloc::Global;
use tableau_rules::{Branch, Closed, Rule, Step, apply, start};
use wiki_base::{Memory, WordId};

// What is used on the ways down a tree, and where labels grew by unfoldings on the present one.
#[derive(Drop)]
pub(crate) struct Trace {
    pub(crate) uses: Uses,
    pub(crate) grown: Vec<Growth>,
}

// What a tree that closes the knowledge uses of it.
pub(crate) fn traced(alloc: Global, k: &Knowledge, closed: &Closed) -> Result<Uses, Memory> {
    let first = start(alloc, k)?;
    let mut trace = Trace {
        uses: Uses::new(alloc),
        grown: Vec::new(alloc),
    };
    walk(k, first, closed, &mut trace)?;
    Ok(trace.uses)
}

// Goes down a tree from a branch. Only a step with several choices takes calls.
#[cycle(walking)]
fn walk(k: &Knowledge, b: Branch, closed: &Closed, trace: &mut Trace) -> Result<(), Memory> {
    let mut here = b;
    match follow(k, &mut here, closed, trace)? {
        Closed::Clash(clash) => trace
            .uses
            .note_clash(k, &here, trace.grown.as_slice(), *clash),
        Closed::Step(step, subtrees) => {
            trace
                .uses
                .note_step(k, &here, trace.grown.as_slice(), step)?;
            walk_each(k, &here, step, subtrees.as_slice(), trace)
        }
    }
}

// Goes down the tree of each choice of a step.
#[cycle(walking)]
fn walk_each(
    k: &Knowledge,
    b: &Branch,
    step: &Step,
    subtrees: &[Closed],
    trace: &mut Trace,
) -> Result<(), Memory> {
    for choice in 0..subtrees.len() {
        let mut next = b.copy()?;
        apply(k, &mut next, step, choice as u64)?;
        let before = trace.grown.len();
        walk(k, next, &subtrees[choice], trace)?;
        trace.grown.truncate(before);
    }
    Ok(())
}

// Takes the steps with one subtree down to the first tree that is none.
fn follow<'a>(
    k: &Knowledge,
    b: &mut Branch,
    closed: &'a Closed,
    trace: &mut Trace,
) -> Result<&'a Closed, Memory>
    ensures { IfOk result (λ tree. size-Closed tree.now ≤ size-Closed closed.now) }
{
    let mut tree = closed;
    while let Some((step, next)) = only_subtree(tree) {
        trace.uses.note_step(k, b, trace.grown.as_slice(), step)?;
        take(k, b, step, trace)?;
        tree = next;
    }
    Ok(tree)
}

// The step and the subtree of a tree that has one.
fn only_subtree(closed: &Closed) -> Option<(&Step, &Closed)>
    ensures { IfSome result (λ found. size-Closed found.1.now < size-Closed closed.now) }
{
    match closed {
        Closed::Clash(_) => None,
        Closed::Step(step, subtrees) => match subtrees.as_slice() {
            [only] => Some((step, only)),
            _ => None,
        },
    }
}

// Takes a step with one choice, and notes what an unfolding adds.
fn take(k: &Knowledge, b: &mut Branch, step: &Step, trace: &mut Trace) -> Result<(), Memory> {
    let word = unfolded(b, step);
    let from = b.label_len(step.node);
    apply(k, b, step, 0)?;
    if let Some(word) = word {
        trace.grown.push(Growth {
            node: step.node,
            from,
            to: b.label_len(step.node),
            word,
        })?;
    }
    Ok(())
}

// The class word that a step unfolds.
fn unfolded(b: &Branch, step: &Step) -> Option<WordId> {
    if step.rule != Rule::Unfold {
        return None;
    }
    match b.class(step.node, step.class) {
        Some(class) => class.word(),
        None => None,
    }
}
