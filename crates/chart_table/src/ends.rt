// Where the phrases of categories end: a table of ends, filled from the top.
ghost use Rattle.std.specs.Prelude.{◌≡◌, ◌+◌, ◌≤◌, ◌<◌, ◌∷◌, [], ◌++◌, map, drop, length, ℕ, List, Some, All, IfOk, IfSome, OnOk, true, slice_get, ◌&&◌, if◌then◌else◌, IsTrue};
ghost use Rattle.std.specs.List.{list_all, flat_map, cons_option};
ghost use Rattle.codeco_terms.specs.declared.values.Value.{Value as OneValue};
ghost use Rattle.codeco_terms.specs.declared.values.Term.{Term as OneTerm};
ghost use Rattle.codeco_terms.specs.declared.values.Term.TheVariants.{Var};
ghost use Rattle.codeco_checked.specs.Occurrences.{positions};
ghost use Rattle.codeco_terms.specs.Values.{same_value};
ghost use Rattle.scopes.specs.declared.entries.Entry.{Entry as OneEntry};
ghost use Rattle.scopes.specs.AccessList as access;
ghost use Rattle.derivation_trees.specs.Instances as instances;
ghost use Rattle.derivation_trees.specs.Derives as derives;
ghost use Rattle.scopes.specs.AccessList.{referents};
ghost use Rattle.chart_table.specs.Branches as branches;
ghost use Rattle.chart_table.specs.Choices as choosing;
ghost use Rattle.chart_table.specs.Steps as steps;
ghost use Rattle.chart_table.specs.Ends as ending;

use crate::branches::{alone, value_of};
use crate::choices::Plan;
use crate::fits::is_planned;
use crate::states::{Bound, End, Feat, State};
use crate::steps::close;
use codeco_terms::{Rule, Term, Value};
use derivation_trees::{Setting, under, value_under};
use lists::List;
use scopes::{Access, Entry};
use std::alloc::Global;
use wiki_base::Memory;

// The variable with the number.
fn variable_with(number: usize) -> Result<u8, Memory>
    ensures { IfOk result (λ variable. variable ≡ number) }
{
    match u8::try_from(number) {
        Ok(variable) => Ok(variable),
        Err(_) => Err(Memory),
    }
}

pub(crate) fn as_terms(alloc: Global, numbers: &[usize]) -> Result<List<Feat>, Memory>
    ensures { IfOk result (λ terms. terms ≡ ending.as_terms numbers.now) }
{
    let mut terms = List::new(alloc);
    for number in numbers {
        terms.push((0, Term::Var(variable_with(*number)?)))?;
    }
    Ok(terms)
}

// The values of all variables of a rule under an assignment.
pub(crate) fn values_of_all(
    alloc: Global,
    bound: &[(u8, Value)],
    numbers: &[usize],
) -> Result<List<(u8, Value)>, Memory>
    ensures { IfOk result (λ values. values ≡ ending.values_of_all bound.now numbers.now) }
{
    let mut values = List::from_vec(Vec::with_capacity(alloc, numbers.len())?);
    for number in numbers {
        let variable = variable_with(*number)?;
        values.push((variable, value_under(bound, variable)))?;
    }
    Ok(values)
}

/// Whether the values are an instance of the rule, which has this plan.
pub fn is_instance(setting: &Setting<'_>, rule: &Rule, plan: &Plan, values: &[(u8, Value)]) -> bool
    requires { choosing.IsPlan setting.now rule.now plan.now }
    ensures { result ≡ instances.is_instance setting.now rule.now values.now }
{
    let _ = rule;
    is_planned(setting, plan, values)
}

pub(crate) fn has_values(values: &[(u8, Value)], bound: &[(u8, Value)]) -> bool
    ensures { result ≡ ending.has_values values.now bound.now }
{
    bound.iter().all(|p| value_under(values, p.0).is(p.1))
}

// What has been added to the list since it was the one before.
fn added_since(alloc: Global, before: &Access, list: &Access) -> Result<Access, Memory>
    ensures { IfOk result (λ added. added ≡ drop (length before.now) list.now) }
{
    let first = before.len();
    if first > list.len() {
        return Ok(Access::empty(alloc));
    }
    list.suffix(first)
}

/// What is left of what a phrase of the rule has added to the list, in the memory of the list.
pub fn tail_of(alloc: Global, rule: &Rule, before: &Access, list: &Access) -> Result<Access, Memory>
    ensures { IfOk result (λ tail. tail ≡ ending.left_of rule.now (drop (length before.now) list.now)) }
{
    let added = added_since(alloc, before, list)?;
    if rule.closing {
        added.closed()
    } else {
        Ok(added)
    }
}

fn end_with(
    alloc: Global,
    rule: &Rule,
    before: &Access,
    state: &State,
    values: &[(u8, Value)],
) -> Result<End, Memory>
    ensures { IfOk result (λ end. end ≡ ending.end_with rule.now before.now state.now values.now) }
{
    let head = under(alloc, values, &rule.head)?;
    Ok(End {
        values: head.values,
        place: state.place,
        tail: tail_of(alloc, rule, before, &state.list)?,
    })
}

// Whether the variable has a value in the assignment.
fn is_bound(bound: &[(u8, Value)], number: usize) -> bool
    ensures { result ≡ true → (values : List OneValue) → branches.chosen_for (Var number) values bound.now ≡ bound.now ∷ [] }
{
    match u8::try_from(number) {
        Ok(variable) => value_of(bound, variable).is_some(),
        Err(_) => false,
    }
}

// Whether each of the variables has a value in the assignment.
pub(crate) fn are_bound(bound: &[(u8, Value)], numbers: &[usize]) -> bool
    ensures { result ≡ true → (choices : OneTerm → List OneValue)
        → branches.closing choices (ending.as_terms numbers.now) (bound.now ∷ []) ≡ bound.now ∷ [] }
{
    for number in numbers {
        if !is_bound(bound, *number) {
            return false;
        }
    }
    true
}

// The end in an assignment of all variables, if that is an instance.
pub(crate) fn finished_one(
    alloc: Global,
    setting: &Setting<'_>,
    rule: &Rule,
    plan: &Plan,
    before: &Access,
    state: &State,
    bound: &[(u8, Value)],
) -> Result<Option<End>, Memory>
    requires { choosing.IsPlan setting.now rule.now plan.now }
    ensures { IfOk result (λ end. cons_option end []
        ≡ ending.finished_one setting.now rule.now before.now state.now plan.now.variables bound.now) }
{
    let values = values_of_all(alloc, bound, plan.variables.as_slice())?;
    if is_instance(setting, rule, plan, values.as_slice()) && has_values(values.as_slice(), bound) {
        let end = end_with(alloc, rule, before, state, values.as_slice())?;
        return Ok(Some(end));
    }
    Ok(None)
}

fn push_some(end: Option<End>, out: &mut List<End>) -> Result<(), Memory>
    ensures { OnOk result (out.new ≡ out.old ++ cons_option end []) }
{
    match end {
        None => Ok(()),
        Some(end) => out.push(end),
    }
}

// The ends in these assignments of all variables, where they are instances.
fn finished_all(
    alloc: Global,
    setting: &Setting<'_>,
    rule: &Rule,
    plan: &Plan,
    before: &Access,
    state: &State,
    bounds: &[Bound],
) -> Result<List<End>, Memory>
    requires { choosing.IsPlan setting.now rule.now plan.now }
    ensures { IfOk result (λ ends. ends
        ≡ flat_map (ending.finished_one setting.now rule.now before.now state.now plan.now.variables) bounds.now) }
{
    let mut ends = List::new(alloc);
    for bound in bounds {
        let end = finished_one(alloc, setting, rule, plan, before, state, bound.as_slice())?;
        push_some(end, &mut ends)?;
    }
    Ok(ends)
}

// The ends of phrases of the rule that stand so after the last element.
pub(crate) fn finished(
    alloc: Global,
    setting: &Setting<'_>,
    rule: &Rule,
    plan: &Plan,
    before: &Access,
    state: &State,
) -> Result<List<End>, Memory>
    requires { choosing.IsPlan setting.now rule.now plan.now }
    ensures { IfOk result (λ ends. ends ≡ ending.finished setting.now rule.now before.now state.now) }
{
    let terms = as_terms(alloc, plan.variables.as_slice())?;
    let one = alone(alloc, state.binds.as_slice())?;
    let bounds = close(alloc, setting, plan, terms.as_slice(), one)?;
    finished_all(alloc, setting, rule, plan, before, state, bounds.as_slice())
}
