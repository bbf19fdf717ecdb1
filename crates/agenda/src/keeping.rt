// The agenda: a queue for each rule.
ghost use Rattle.std.specs.Prelude.{◌≡◌, IfOk, OnOk};
ghost use Rattle.logic_terms.specs.Known.{theory_of};
ghost use Rattle.logic_terms.specs.Theory.{Theory};
ghost use Rattle.tableau_rules.specs.Branches.{IsBranch};
ghost use Rattle.tableau_rules.specs.Rules.{first_step};
ghost use Rattle.tableau_rules.specs.Shown.{graph_of};
ghost use Rattle.agenda.specs.Agendas.{IsAgendaOf, Follows};

use crate::queue::Queue;
use logic_terms::Knowledge;
use std::alloc::Global;
use tableau_rules::{Branch, Rule, Step};
use wiki_base::Memory;

/// What is known of a branch, so that its first applicable step is found without looking over it: for each rule the nodes
/// at which it may apply, and the nodes whose growth would let it apply at others.
#[derive(Drop)]
pub struct Agenda {
    ands: Queue,
    unfoldings: Queue,
    alls: Queue,
    transes: Queue,
    values: Queue,
    units: Queue,
    ors: Queue,
    somes: Queue,
}

impl Agenda {
    /// An agenda of any branch, which leaves out nothing.
    pub fn full(alloc: Global, b: &Branch) -> Result<Self, Memory>
        ensures { IfOk result (λ a. (k : Theory) → IsAgendaOf k (graph_of b.now) a) }
    {
        Ok(Agenda {
            ands: Queue::full(alloc, b, Rule::And)?,
            unfoldings: Queue::full(alloc, b, Rule::Unfold)?,
            alls: Queue::full(alloc, b, Rule::All)?,
            transes: Queue::full(alloc, b, Rule::Trans)?,
            values: Queue::full(alloc, b, Rule::Value)?,
            units: Queue::full(alloc, b, Rule::Unit)?,
            ors: Queue::full(alloc, b, Rule::Or)?,
            somes: Queue::full(alloc, b, Rule::Some)?,
        })
    }

    /// The first step that applies at the branch: by rule, then by node, then by place in the label; none where none
    /// applies.
    pub fn next(&mut self, k: &Knowledge, b: &Branch) -> Result<Option<Step>, Memory>
        requires branch { IsBranch (theory_of k.now) (graph_of b.now) }
        requires agenda { IsAgendaOf (theory_of k.now) (graph_of b.now) self.old }
        ensures first { IfOk result (λ found. found ≡ first_step (theory_of k.now) (graph_of b.now)) }
        ensures agenda { IfOk result (λ _. IsAgendaOf (theory_of k.now) (graph_of b.now) self.new) }
    {
        if let Some(step) = self.ands.next(k, b, Rule::And)? {
            return Ok(Some(step));
        }
        if let Some(step) = self.unfoldings.next(k, b, Rule::Unfold)? {
            return Ok(Some(step));
        }
        if let Some(step) = self.alls.next(k, b, Rule::All)? {
            return Ok(Some(step));
        }
        if let Some(step) = self.transes.next(k, b, Rule::Trans)? {
            return Ok(Some(step));
        }
        if let Some(step) = self.values.next(k, b, Rule::Value)? {
            return Ok(Some(step));
        }
        if let Some(step) = self.units.next(k, b, Rule::Unit)? {
            return Ok(Some(step));
        }
        if let Some(step) = self.ors.next(k, b, Rule::Or)? {
            return Ok(Some(step));
        }
        self.somes.next(k, b, Rule::Some)
    }

    /// Makes an agenda of a branch one of the branch after a step that applies: this is the branch after it.
    pub fn note(&mut self, b: &Branch, step: &Step) -> Result<(), Memory>
        ensures { OnOk result ((k : Theory) → Follows k step.now (graph_of b.now) self.old self.new) }
    {
        self.ands.note(b, Rule::And, step)?;
        self.unfoldings.note(b, Rule::Unfold, step)?;
        self.alls.note(b, Rule::All, step)?;
        self.transes.note(b, Rule::Trans, step)?;
        self.values.note(b, Rule::Value, step)?;
        self.units.note(b, Rule::Unit, step)?;
        self.ors.note(b, Rule::Or, step)?;
        self.somes.note(b, Rule::Some, step)
    }
}
