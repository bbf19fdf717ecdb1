// The nodes at which there may be a step by a rule.
ghost use Rattle.std.specs.Prelude.{◌≡◌, ℕ, ◌<◌, ◌==◌, ◌⊎◌, true, false, length, Some, None, IfOk, OnOk, IsTrue};
ghost use Rattle.std.specs.BTreeSet.{contains, btree_set_len};
ghost use Rattle.std.specs.List.{list_any};
ghost use Rattle.std.specs.Option.{option_map_or};
ghost use Rattle.std.specs.Ordering.{nat_cmp};
ghost use Rattle.logic_terms.specs.Known.{theory_of};
ghost use Rattle.logic_terms.specs.Theory.{Theory};
ghost use Rattle.tableau_rules.specs.Branches.{IsBranch};
ghost use Rattle.tableau_rules.specs.Graph.{label_at};
ghost use Rattle.tableau_rules.specs.Rules.{first_at, first_by};
ghost use Rattle.tableau_rules.specs.Shown.{graph_of};
ghost use Rattle.agenda.specs.Resting.{concerns, IsResting};
ghost use Rattle.agenda.specs.Views.{is_listed, Lists, is_due, is_waiting, FitsQueue, FollowsQueue, NotesLabel, Meets, NotesEdge};

use crate::reading::concerns;
use crate::stepping::{grown_by, last_edge, reaches_out, sprouts};
use crate::waiting::{empty, wait, wait_for_blocked, wait_for_servers, waiting_for};
use lists::List;
use logic_terms::Knowledge;
use std::alloc::Global;
use std::collections::BTreeSet;
use tableau_rules::{Branch, Edge, Rule, Step, first_at};
use wiki_base::Memory;

// For one rule: the nodes that are due to be looked at, and for each node those that wait for it to grow.
#[derive(Drop)]
pub(crate) struct Queue {
    due: BTreeSet<u64>,
    waiting: Vec<List<u64>>,
}

fn insert(due: &mut BTreeSet<u64>, node: u64) -> Result<(), Memory>
    ensures there { OnOk result (contains nat_cmp due.new node ≡ true) }
    ensures kept { OnOk result ((x : ℕ) → contains nat_cmp due.old x ≡ true → contains nat_cmp due.new x ≡ true) }
{
    due.insert(node)?;
    Ok(())
}

fn insert_all(due: &mut BTreeSet<u64>, nodes: &[u64]) -> Result<(), Memory>
    ensures there { OnOk result ((x : ℕ) → list_any (λ y. y == x) nodes.now ≡ true → contains nat_cmp due.new x ≡ true) }
    ensures kept { OnOk result ((x : ℕ) → contains nat_cmp due.old x ≡ true → contains nat_cmp due.new x ≡ true) }
{
    for node in nodes {
        insert(due, *node)?;
    }
    Ok(())
}

// Lets a node wait for all that may let a step by the rule apply there.
fn rest(
    waiting: &mut Vec<List<u64>>,
    k: &Knowledge,
    b: &Branch,
    rule: Rule,
    node: u64,
) -> Result<(), Memory>
    requires branch { IsBranch (theory_of k.now) (graph_of b.now) }
    requires none { first_at (theory_of k.now) (graph_of b.now) rule node ≡ None }
    ensures there { OnOk result (IsResting (theory_of k.now) (graph_of b.now) (is_listed waiting.new.items) rule node) }
    ensures more { OnOk result (Lists waiting.old.items waiting.new.items) }
{
    wait(waiting, b, node, node)?;
    if reaches_out(rule) {
        wait_for_blocked(waiting, k, b, node)
    } else if sprouts(rule) {
        wait_for_servers(waiting, k, b, node)
    } else {
        Ok(())
    }
}

impl Queue {
    // A queue in which each node is due that concerns the rule.
    pub(crate) fn full(alloc: Global, b: &Branch, rule: Rule) -> Result<Self, Memory>
        ensures { IfOk result (λ q. (k : Theory) → FitsQueue k (graph_of b.now) rule q) }
    {
        let mut queue = Queue {
            due: BTreeSet::new(alloc),
            waiting: Vec::new(alloc),
        };
        for node in 0..b.len() {
            queue.put(b, rule, node)?;
        }
        Ok(queue)
    }

    // Makes a node due if its label concerns the rule.
    fn put(&mut self, b: &Branch, rule: Rule, node: u64) -> Result<(), Memory>
        ensures there { OnOk result ((is_due self.new node ≡ true) ⊎ (concerns rule (label_at (graph_of b.now) node) ≡ false)) }
        ensures kept { OnOk result ((x : ℕ) → is_due self.old x ≡ true → is_due self.new x ≡ true) }
        ensures waiting { OnOk result (self.new.waiting ≡ self.old.waiting) }
    {
        if concerns(rule, b.label(node)) {
            insert(&mut self.due, node)?;
        }
        Ok(())
    }

    // Makes the nodes due that wait for a node.
    fn wake(&mut self, node: u64) -> Result<(), Memory>
        ensures woken { OnOk result ((x : ℕ) → is_waiting self.old node x ≡ true → is_due self.new x ≡ true) }
        ensures kept { OnOk result ((x : ℕ) → is_due self.old x ≡ true → is_due self.new x ≡ true) }
        ensures waiting { OnOk result ((z x : ℕ) → (node ≡ z → ⊥) → is_waiting self.old z x ≡ true → is_waiting self.new z x ≡ true) }
    {
        insert_all(&mut self.due, waiting_for(&self.waiting, node))?;
        empty(&mut self.waiting, node);
        Ok(())
    }

    // The first step by the rule.
    pub(crate) fn next(
        &mut self,
        k: &Knowledge,
        b: &Branch,
        rule: Rule,
    ) -> Result<Option<Step>, Memory>
        requires branch { IsBranch (theory_of k.now) (graph_of b.now) }
        requires fits { FitsQueue (theory_of k.now) (graph_of b.now) rule self.old }
        ensures first { IfOk result (λ found. found ≡ first_by (theory_of k.now) (graph_of b.now) rule) }
        ensures fits { IfOk result (λ _. FitsQueue (theory_of k.now) (graph_of b.now) rule self.new) }
    {
        while let Some(node) = self.due.first().copied() {
            if let Some(step) = first_at(k, b, rule, node) {
                return Ok(Some(step));
            }
            self.settle(k, b, rule, node)?;
        }
        Ok(None)
    }

    // Lets a node rest at which no step by the rule applies.
    fn settle(&mut self, k: &Knowledge, b: &Branch, rule: Rule, node: u64) -> Result<(), Memory>
        requires branch { IsBranch (theory_of k.now) (graph_of b.now) }
        requires fits { FitsQueue (theory_of k.now) (graph_of b.now) rule self.old }
        requires due { is_due self.old node ≡ true }
        requires none { first_at (theory_of k.now) (graph_of b.now) rule node ≡ None }
        ensures fits { OnOk result (FitsQueue (theory_of k.now) (graph_of b.now) rule self.new) }
        ensures fewer { OnOk result (btree_set_len self.new.due < btree_set_len self.old.due) }
    {
        rest(&mut self.waiting, k, b, rule, node)?;
        let _ = self.due.remove(&node);
        Ok(())
    }

    // Notes what a step may let apply; the branch is that after it.
    pub(crate) fn note(&mut self, b: &Branch, rule: Rule, step: &Step) -> Result<(), Memory>
        ensures { OnOk result ((k : Theory) → FollowsQueue k step.now (graph_of b.now) rule self.old self.new) }
    {
        match grown_by(step) {
            Some(node) => self.note_label(b, rule, node),
            None => match last_edge(b) {
                Some(edge) => self.note_edge(b, rule, edge, sprouts(step.rule)),
                None => Ok(()),
            },
        }
    }

    fn note_label(&mut self, b: &Branch, rule: Rule, node: u64) -> Result<(), Memory>
        ensures { OnOk result (NotesLabel (graph_of b.now) rule node self.old self.new) }
    {
        self.wake(node)?;
        self.put(b, rule, node)
    }

    // Makes the ends of an edge due where the rule looks at all neighbours.
    fn meet(&mut self, b: &Branch, rule: Rule, edge: Edge) -> Result<(), Memory>
        ensures { OnOk result (Meets (graph_of b.now) rule edge self.old self.new) }
    {
        if reaches_out(rule) {
            self.put(b, rule, edge.from)?;
            self.put(b, rule, edge.to)?;
        }
        Ok(())
    }

    fn note_edge(&mut self, b: &Branch, rule: Rule, edge: Edge, is_new: bool) -> Result<(), Memory>
        ensures { OnOk result (NotesEdge (graph_of b.now) rule edge is_new self.old self.new) }
    {
        self.meet(b, rule, edge)?;
        if is_new {
            self.note_label(b, rule, edge.to)?;
        }
        Ok(())
    }
}
