// The ways in which variables of a rule can be given values.
ghost use Rattle.std.specs.Prelude.{◌≡◌, ◌==◌, List, [], ◌∷◌, ◌++◌, true, if◌then◌else◌, Some, None, IfOk, OnOk};
ghost use Rattle.std.specs.List.{filter_map, cons_option, flat_map};
ghost use Rattle.codeco_terms.specs.declared.values.Value.{Value as OneValue};
ghost use Rattle.derivation_trees.specs.Instances.{looked_up};
ghost use Rattle.chart_table.specs.Branches as branches;

use crate::states::{Bound, Feat};
use codeco_terms::{Category, Ground, Pattern, Term, Value};
use lists::List;
use std::alloc::Global;
use wiki_base::Memory;

/// How many more variables the copy of an assignment has room for at once.
const ROOM: usize = 4;

// The value that the variable has, if it has one.
pub(crate) fn value_of(bound: &[(u8, Value)], variable: u8) -> Option<Value>
    ensures { result ≡ looked_up bound.now variable }
{
    for (other, value) in bound {
        if *other == variable {
            return Some(*value);
        }
    }
    None
}

pub(crate) fn copy_bound(alloc: Global, bound: &[(u8, Value)]) -> Result<Bound, Memory>
    ensures { IfOk result (λ copied. copied ≡ bound.now) }
{
    let mut copied = Vec::with_capacity(alloc, bound.len().saturating_add(ROOM))?;
    copied.extend_from_slice(bound)?;
    Ok(List::from_vec(copied))
}

fn copy_if(alloc: Global, yes: bool, bound: &[(u8, Value)]) -> Result<Option<Bound>, Memory>
    ensures { IfOk result (λ copied. copied ≡ (if yes then Some bound.now else None)) }
{
    if yes {
        let copied = copy_bound(alloc, bound)?;
        Ok(Some(copied))
    } else {
        Ok(None)
    }
}

fn with_value(
    alloc: Global,
    bound: &[(u8, Value)],
    variable: u8,
    value: Value,
) -> Result<Bound, Memory>
    ensures { IfOk result (λ more. more ≡ bound.now ++ (variable, value) ∷ []) }
{
    let mut more = copy_bound(alloc, bound)?;
    more.push((variable, value))?;
    Ok(more)
}

fn bind_at(
    alloc: Global,
    bound: &[(u8, Value)],
    variable: u8,
    value: Value,
    known: Option<Value>,
) -> Result<Option<Bound>, Memory>
    ensures { IfOk result (λ more. more ≡ branches.bound_at bound.now variable value known) }
{
    match known {
        None => {
            let more = with_value(alloc, bound, variable, value)?;
            Ok(Some(more))
        }
        Some(known) => copy_if(alloc, known.is(value), bound),
    }
}

// The assignment under which the term has the value, if there is one.
pub(crate) fn bind_term(
    alloc: Global,
    bound: &[(u8, Value)],
    term: Term,
    value: Value,
) -> Result<Option<Bound>, Memory>
    ensures { IfOk result (λ more. more ≡ branches.bound_term bound.now term value) }
{
    match term {
        Term::Val(known) => copy_if(alloc, known.is(value), bound),
        Term::Var(variable) => bind_at(alloc, bound, variable, value, value_of(bound, variable)),
    }
}

fn push_some(one: Option<Bound>, out: &mut List<Bound>) -> Result<(), Memory>
    ensures { OnOk result (out.new ≡ out.old ++ cons_option one []) }
{
    match one {
        None => Ok(()),
        Some(bound) => out.push(bound),
    }
}

// Adds the assignments under which the term has one of the values.
fn push_restricted(
    alloc: Global,
    bound: &[(u8, Value)],
    term: Term,
    values: &[Value],
    out: &mut List<Bound>,
) -> Result<(), Memory>
    ensures { OnOk result (out.new ≡ out.old ++ filter_map (branches.bound_term bound.now term) values.now) }
{
    for value in values {
        let one = bind_term(alloc, bound, term, *value)?;
        push_some(one, out)?;
    }
    Ok(())
}

// The value of the term, where it is known.
pub(crate) fn known_value(bound: &[(u8, Value)], term: Term) -> Option<Value>
    ensures { result ≡ branches.known_value bound.now term }
{
    match term {
        Term::Val(value) => Some(value),
        Term::Var(variable) => value_of(bound, variable),
    }
}

// Whether the term is known under each of the assignments.
pub(crate) fn all_know(bounds: &[Bound], term: Term) -> bool
    ensures { result ≡ true → (values : List OneValue) → flat_map (branches.chosen_for term values) bounds.now ≡ bounds.now }
{
    for bound in bounds {
        if known_value(bound.as_slice(), term).is_none() {
            return false;
        }
    }
    true
}

// Adds the assignment alone where the term is known, else with each of the values for it.
fn push_chosen(
    alloc: Global,
    bound: &[(u8, Value)],
    term: Term,
    values: &[Value],
    out: &mut List<Bound>,
) -> Result<(), Memory>
    ensures { OnOk result (out.new ≡ out.old ++ branches.chosen_for term values.now bound.now) }
{
    match known_value(bound, term) {
        Some(_) => {
            let same = copy_bound(alloc, bound)?;
            out.push(same)
        }
        None => push_restricted(alloc, bound, term, values, out),
    }
}

// The assignments under which the term is known: those under which it isn't have each of the values for it.
pub(crate) fn choose(
    alloc: Global,
    term: Term,
    values: &[Value],
    bounds: &[Bound],
) -> Result<List<Bound>, Memory>
    ensures { IfOk result (λ out. out ≡ flat_map (branches.chosen_for term values.now) bounds.now) }
{
    let mut out = List::new(alloc);
    for bound in bounds {
        push_chosen(alloc, bound.as_slice(), term, values, &mut out)?;
    }
    Ok(out)
}

// The assignments under which the term has one of the values.
pub(crate) fn restrict(
    alloc: Global,
    term: Term,
    values: &[Value],
    bounds: &[Bound],
) -> Result<List<Bound>, Memory>
    ensures { IfOk result (λ out. out ≡ branches.restricted term values.now bounds.now) }
{
    let mut out = List::new(alloc);
    for bound in bounds {
        push_restricted(alloc, bound.as_slice(), term, values, &mut out)?;
    }
    Ok(out)
}

// The one assignment alone.
pub(crate) fn alone(alloc: Global, bound: &[(u8, Value)]) -> Result<List<Bound>, Memory>
    ensures { IfOk result (λ out. out ≡ bound.now ∷ []) }
{
    let mut out = List::new(alloc);
    let same = copy_bound(alloc, bound)?;
    out.push(same)?;
    Ok(out)
}

// The values that are given for a feature.
pub(crate) fn values_at(
    alloc: Global,
    vals: &[(u16, Value)],
    feature: u16,
) -> Result<List<Value>, Memory>
    ensures { IfOk result (λ out. out ≡ branches.values_at vals.now feature) }
{
    let mut out = List::new(alloc);
    for (other, value) in vals {
        if *other == feature {
            out.push(*value)?;
        }
    }
    Ok(out)
}

// The assignments under which each feature has a value that is given for it.
pub(crate) fn have(
    alloc: Global,
    vals: &[(u16, Value)],
    feats: &[Feat],
    bounds: List<Bound>,
) -> Result<List<Bound>, Memory>
    ensures { IfOk result (λ out. out ≡ branches.having vals.now feats.now bounds) }
{
    let mut all = bounds;
    for feat in feats {
        let values = values_at(alloc, vals, feat.0)?;
        all = restrict(alloc, feat.1, values.as_slice(), all.as_slice())?;
    }
    Ok(all)
}

// The assignments under which the category reads so.
pub(crate) fn read_as(
    alloc: Global,
    category: &Category,
    bound: &[(u8, Value)],
    reading: &Ground,
) -> Result<List<Bound>, Memory>
    ensures { IfOk result (λ out. out ≡ branches.read_as category.now bound.now reading.now) }
{
    if reading.name == category.name {
        let one = alone(alloc, bound)?;
        have(
            alloc,
            reading.vals.as_slice(),
            category.feats.as_slice(),
            one,
        )
    } else {
        Ok(List::new(alloc))
    }
}

// Gives the variable the value, where it has none; tells whether it has the value then.
fn bind_variable(bound: &mut Bound, variable: u8, value: Value) -> Result<bool, Memory>
    ensures { IfOk result (λ yes. branches.bound_at bound.old variable value (looked_up bound.old variable)
        ≡ (if yes then Some bound.new else None)) }
{
    match value_of(bound.as_slice(), variable) {
        None => {
            bound.push((variable, value))?;
            Ok(true)
        }
        Some(known) => Ok(known.is(value)),
    }
}

// Gives the term the value, where it has none; tells whether it has the value then.
fn bind(bound: &mut Bound, term: Term, value: Value) -> Result<bool, Memory>
    ensures { IfOk result (λ yes. branches.bound_term bound.old term value ≡ (if yes then Some bound.new else None)) }
{
    match term {
        Term::Val(known) => Ok(known.is(value)),
        Term::Var(variable) => bind_variable(bound, variable, value),
    }
}

// Gives the feature, where it is that of the value, the value; tells whether it has it then.
fn meet_at(bound: &mut Bound, pair: (u16, Value), feat: Feat) -> Result<bool, Memory>
    ensures { IfOk result (λ yes. (if pair.0 == feat.0 then branches.restricted feat.1 (pair.1 ∷ []) (bound.old ∷ []) else bound.old ∷ [])
        ≡ branches.one_if yes bound.new) }
{
    if pair.0 == feat.0 {
        bind(bound, feat.1, pair.1)
    } else {
        Ok(true)
    }
}

// Gives the features that are those of the value the value; tells whether all have it then.
fn meet_one(bound: &mut Bound, pair: (u16, Value), feats: &[Feat]) -> Result<bool, Memory>
    ensures { IfOk result (λ yes. branches.meeting_one pair feats.now (bound.old ∷ []) ≡ branches.one_if yes bound.new) }
{
    for feat in feats {
        if !meet_at(bound, pair, *feat)? {
            return Ok(false);
        }
    }
    Ok(true)
}

// Makes each feature that is written in both have the value that is given; tells whether that could be done.
pub(crate) fn meet(bound: &mut Bound, vals: &[(u16, Value)], feats: &[Feat]) -> Result<bool, Memory>
    ensures { IfOk result (λ yes. branches.meeting vals.now feats.now (bound.old ∷ []) ≡ branches.one_if yes bound.new) }
{
    for pair in vals {
        if !meet_one(bound, *pair, feats)? {
            return Ok(false);
        }
    }
    Ok(true)
}

// The assignment under which each feature that is written in both has the value that is given, if there is one.
pub(crate) fn meeting(
    alloc: Global,
    vals: &[(u16, Value)],
    feats: &[Feat],
    bound: &[(u8, Value)],
) -> Result<List<Bound>, Memory>
    ensures { IfOk result (λ out. out ≡ branches.meeting vals.now feats.now (bound.now ∷ [])) }
{
    let mut out = List::new(alloc);
    let mut more = copy_bound(alloc, bound)?;
    if meet(&mut more, vals, feats)? {
        out.push(more)?;
    }
    Ok(out)
}

// The features whose values are known.
pub(crate) fn known_features(
    alloc: Global,
    bound: &[(u8, Value)],
    feats: &[Feat],
) -> Result<List<(u16, Value)>, Memory>
    ensures { IfOk result (λ out. out ≡ branches.known_features bound.now feats.now) }
{
    let mut out = List::from_vec(Vec::with_capacity(alloc, feats.len())?);
    for feat in feats {
        if let Some(value) = known_value(bound, feat.1) {
            out.push((feat.0, value))?;
        }
    }
    Ok(out)
}
