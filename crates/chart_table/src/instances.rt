// The instances of a rule that lead somewhere.
ghost use Rattle.std.specs.Prelude.{◌≡◌, ◌↔◌, ◌+◌, ◌<◌, ◌∷◌, [], ◌++◌, map, ℕ, List, Some, IfOk, OnOk, IsTrue, take, flat_map};
ghost use Rattle.codeco_checked.specs.Occurrences.{positions};
ghost use Rattle.derivation_trees.specs.Instances as instances;
ghost use Rattle.chart_table.specs.Choices as choosing;
ghost use Rattle.chart_table.specs.Ends as ending;
ghost use Rattle.chart_table.specs.Instances as finding;
ghost use Rattle.chart_table.specs.Table as tables;

use crate::branches::alone;
use crate::choices::Plan;
use crate::ends::{as_terms, values_of_all};
use crate::rows::Rows;
use crate::scene::{Start, Trial};
use crate::sentences::DEEPEST;
use crate::states::{Aim, Bound, State};
use crate::steps::close;
use crate::table::{last_states, start_states};
use codeco_checked::NUMBERS;
use codeco_terms::{Rule, Value};
use derivation_trees::{Setting, may_start};
use lists::List;
use std::alloc::Global;
use std::cell::Cell;
use wiki_base::Memory;

fn same_value(one: (u8, Value), other: (u8, Value)) -> bool
    ensures { IsTrue result ↔ one ≡ other }
{
    one.0 == other.0 && one.1 == other.1
}

/// Whether the assignments are the same, in the same order.
pub fn same_bound(values: &[(u8, Value)], others: &[(u8, Value)]) -> bool
    ensures { IsTrue result ↔ values.now ≡ others.now }
{
    if values.len() != others.len() {
        return false;
    }
    for (place, value) in values.iter().enumerate() {
        if !same_value(*value, others[place]) {
            return false;
        }
    }
    true
}

fn has_bound(bounds: &[Bound], bound: &[(u8, Value)]) -> bool
    ensures { IsTrue result → finding.HasMore bounds.now bounds.now (bound.now ∷ []) }
{
    for other in bounds {
        if same_bound(other.as_slice(), bound) {
            return true;
        }
    }
    false
}

// Adds the values, where they aren't there yet.
fn push_new(bound: Bound, out: &mut List<Bound>) -> Result<(), Memory>
    ensures { OnOk result (finding.HasMore out.old out.new (bound ∷ [])) }
{
    if has_bound(out.as_slice(), bound.as_slice()) {
        Ok(())
    } else {
        out.push(bound)?;
        Ok(())
    }
}

// Adds the values of all variables in each of the assignments.
fn push_bounds(
    alloc: Global,
    bounds: &[Bound],
    numbers: &[usize],
    out: &mut List<Bound>,
) -> Result<(), Memory>
    ensures { OnOk result (finding.HasMore out.old out.new (map (λ b. ending.values_of_all b numbers.now) bounds.now)) }
{
    for bound in bounds {
        let values = values_of_all(alloc, bound.as_slice(), numbers)?;
        push_new(values, out)?;
    }
    Ok(())
}

// Adds the values of all variables in a state, in each way.
fn push_state(trial: &Trial<'_>, state: &State, out: &mut List<Bound>) -> Result<(), Memory>
    requires { choosing.IsPlan trial.now.setting.now trial.now.rule.now trial.now.plan.now }
    ensures { OnOk result (finding.HasMore out.old out.new (finding.closed_values trial.now.setting.now trial.now.rule.now state.now)) }
{
    let Trial {
        alloc,
        setting,
        plan,
        ..
    } = *trial;
    let terms = as_terms(alloc, plan.variables.as_slice())?;
    let one = alone(alloc, state.binds.as_slice())?;
    let bounds = close(alloc, setting, plan, terms.as_slice(), one)?;
    push_bounds(alloc, bounds.as_slice(), plan.variables.as_slice(), out)
}

// Adds the values of all variables in each of the states.
fn push_states(trial: &Trial<'_>, states: &[State], out: &mut List<Bound>) -> Result<(), Memory>
    requires { choosing.IsPlan trial.now.setting.now trial.now.rule.now trial.now.plan.now }
    ensures { OnOk result (finding.HasStates trial.now.setting.now trial.now.rule.now states.now out.old out.new) }
{
    for state in states {
        push_state(trial, state, out)?;
    }
    Ok(())
}

/// Values for all variables of a rule: among them is each instance that agrees with the known values of features and by
/// which the rule's elements lead somewhere from the place and the list. The rows are those of the table so far, of which
/// more may be made.
pub fn leading_instances(
    alloc: Global,
    setting: &Setting<'_>,
    plans: &[Plan],
    rows: &mut Rows,
    rule: &Rule,
    plan: &Plan,
    start: &Start<'_>,
) -> Result<List<List<(u8, Value)>>, Memory>
    requires plans { choosing.ArePlans setting.now plans.now }
    requires rows { tables.AreRows setting.now tables.no_asks rows.old }
    requires plan { choosing.IsPlan setting.now rule.now plan.now }
    ensures rows { OnOk result (tables.AreRows setting.now tables.no_asks rows.new) }
    ensures instances { IfOk result (finding.HasInstances setting.now rule.now start.now.known.now
        (record { place = start.now.place; list = start.now.list.now })) }
{
    if !may_start(setting, start.place, rule.body.as_slice()) {
        return Ok(List::new(alloc));
    }
    let starts = start_states(alloc, start, rule.head.feats.as_slice())?;
    let made = Cell::new(0usize);
    let aim = nothing(&made);
    let trial = Trial {
        alloc,
        setting,
        aim: &aim,
        plans,
        depth: DEEPEST,
        rule,
        plan,
    };
    let mut cuts = List::new(alloc);
    let states = last_states(&trial, rows, starts, &mut cuts)?;
    let mut instances = List::new(alloc);
    push_states(&trial, states.as_slice(), &mut instances)?;
    Ok(instances)
}

// Nothing is asked for.
fn nothing<'a>(made: &'a Cell<usize>) -> Aim<'a>
    ensures { result ≡ tables.no_asks }
{
    Aim {
        halt: NUMBERS,
        asks: &[],
        made,
    }
}
