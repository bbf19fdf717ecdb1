// The phrases of a rule that are cut off, by the values of their heads.
ghost use Rattle.std.specs.Prelude.{◌≡◌, None, ◌∷◌, [], ◌↔◌, if◌then◌else◌, length, option_map, true, IfOk, IsTrue, OnOk};
ghost use Rattle.std.specs.List.{cons_option};
ghost use Rattle.derivation_trees.specs.Instances as instances;
ghost use Rattle.chart_table.specs.Asks as asking;
ghost use Rattle.chart_table.specs.Branches as branches;
ghost use Rattle.chart_table.specs.Choices as choosing;
ghost use Rattle.chart_table.specs.Cuts as cutting;

use crate::asks::Ask;
use crate::branches::{alone, bind_term, copy_bound, known_value, meeting, read_as};
use crate::choices::{Plan, choices};
use crate::ends::{finished, has_values, is_instance, values_of_all};
use crate::sameness::{same_pair, same_values};
use crate::scene::Trial;
use crate::states::{Bound, Cut, Feat, State};
use crate::steps::close;
use crate::told::push_many_within;
use codeco_terms::{Category, Element, Ground, Rule, Value};
use derivation_trees::{term_value, under};
use lists::List;
use scopes::{Access, TestValues};
use std::alloc::Global;
use wiki_base::Memory;

/// How many ways of being cut off are few: with more of them, what values tell is kept.
const FEW: usize = 6;

fn mixed(mark: u64, value: Value) -> u64 {
    let number = match value {
        Value::Atom(atom) => atom as u64,
        Value::Word(word) => word.0 as u64,
        Value::Pos(place) => place as u64,
    };
    mark.wrapping_mul(31).wrapping_add(number)
}

// The mark of the values for the ask with the number.
fn mark_of(number: usize, values: &[(u16, Value)]) -> u64 {
    let mut mark = number as u64;
    for value in values {
        mark = mixed(mark, value.1);
    }
    mark
}

// The mark of the features under the assignment for the ask with the number.
fn mark_under(number: usize, bound: &[(u8, Value)], feats: &[Feat]) -> u64 {
    let mut mark = number as u64;
    for feat in feats {
        mark = mixed(mark, term_value(bound, feat.1));
    }
    mark
}

fn is_cut(cut: &Cut, number: usize, values: &[(u16, Value)]) -> bool
    ensures ask { IsTrue result → cut.now.ask ≡ number }
    ensures values { IsTrue result → cut.now.values ≡ values.now }
{
    cut.ask == number && same_values(cut.values.as_slice(), values)
}

pub(crate) fn has_cut(cuts: &[Cut], number: usize, values: &[(u16, Value)]) -> bool
    ensures { result ≡ true → cutting.HasCut cuts.now number values.now }
{
    let mark = mark_of(number, values);
    for cut in cuts {
        if cut.mark == mark && is_cut(cut, number, values) {
            return true;
        }
    }
    false
}

// Whether the values are those of the features under the assignment.
fn is_under(values: &[(u16, Value)], bound: &[(u8, Value)], feats: &[Feat]) -> bool
    ensures { IsTrue result → values.now ≡ instances.feats_under bound.now feats.now }
{
    if values.len() != feats.len() {
        return false;
    }
    for (place, feat) in feats.iter().enumerate() {
        if !same_pair(values[place], (feat.0, term_value(bound, feat.1))) {
            return false;
        }
    }
    true
}

// Whether the cut-off phrase with the features under the assignment is there.
fn has_head(cuts: &[Cut], number: usize, bound: &[(u8, Value)], feats: &[Feat]) -> bool
    ensures { IsTrue result → cutting.HasCut cuts.now number (instances.feats_under bound.now feats.now) }
{
    let mark = mark_under(number, bound, feats);
    for cut in cuts {
        if cut.mark == mark && cut.ask == number && is_under(cut.values.as_slice(), bound, feats) {
            return true;
        }
    }
    false
}

// A value for each variable of the rule: those of the assignment, and some others.
fn guess(alloc: Global, plan: &Plan, bound: &[(u8, Value)]) -> Result<Bound, Memory> {
    let mut all = copy_bound(alloc, bound)?;
    for pair in plan.sample.as_slice() {
        all.push(*pair)?;
    }
    values_of_all(alloc, all.as_slice(), plan.variables.as_slice())
}

// Whether some instance of the rule extends the assignment.
fn is_possible(trial: &Trial<'_>, bound: &[(u8, Value)]) -> Result<bool, Memory>
    requires { choosing.IsPlan trial.now.setting.now trial.now.rule.now trial.now.plan.now }
    ensures { IfOk result (λ yes. IsTrue yes ↔ cutting.IsPossible trial.now.setting.now trial.now.rule.now bound.now) }
{
    let setting = trial.setting;
    let guess = guess(trial.alloc, trial.plan, bound)?;
    if is_instance(setting, trial.rule, trial.plan, guess.as_slice())
        && has_values(guess.as_slice(), bound)
    {
        return Ok(true);
    }
    is_extended(trial, bound)
}

// Whether some instance of the rule extends the assignment, by trying all.
fn is_extended(trial: &Trial<'_>, bound: &[(u8, Value)]) -> Result<bool, Memory>
    requires { choosing.IsPlan trial.now.setting.now trial.now.rule.now trial.now.plan.now }
    ensures { IfOk result (λ yes. IsTrue yes ↔ cutting.IsPossible trial.now.setting.now trial.now.rule.now bound.now) }
{
    let state = State {
        binds: copy_bound(trial.alloc, bound)?,
        place: 0,
        list: Access::empty(trial.alloc),
    };
    let ends = finished(
        trial.alloc,
        trial.setting,
        trial.rule,
        trial.plan,
        &state.list,
        &state,
    )?;
    Ok(!ends.is_empty())
}

// Adds the cut-off phrase with these values.
pub(crate) fn push_cut(
    number: usize,
    values: TestValues,
    cuts: &mut List<Cut>,
) -> Result<(), Memory>
    ensures { OnOk result (cutting.HasOneMore number values cuts.old cuts.new) }
{
    let mark = mark_of(number, values.as_slice());
    cuts.push(Cut {
        ask: number,
        mark,
        values,
    })?;
    Ok(())
}

// Adds the head that the assignment tells, where some instance extends it.
fn push_head(
    trial: &Trial<'_>,
    number: usize,
    bound: &[(u8, Value)],
    cuts: &mut List<Cut>,
) -> Result<(), Memory>
    requires plan { choosing.IsPlan trial.now.setting.now trial.now.rule.now trial.now.plan.now }
    requires settled { cutting.Settles trial.now.rule.now bound.now }
    ensures { OnOk result (cutting.HasHeads trial.now.setting.now trial.now.rule.now (cutting.IsOf number (bound.now ∷ [])) cuts.old cuts.new) }
{
    let feats = trial.rule.head.feats.as_slice();
    if has_head(cuts.as_slice(), number, bound, feats) {
        return Ok(());
    }
    if is_possible(trial, bound)? {
        let head = under(trial.alloc, bound, &trial.rule.head)?;
        push_cut(number, head.values, cuts)?;
        return Ok(());
    }
    Ok(())
}

// Adds the heads that the assignments tell, where some instance extends them.
fn push_settled(
    trial: &Trial<'_>,
    number: usize,
    bounds: &[Bound],
    cuts: &mut List<Cut>,
) -> Result<(), Memory>
    requires plan { choosing.IsPlan trial.now.setting.now trial.now.rule.now trial.now.plan.now }
    requires settled { cutting.AllSettle trial.now.rule.now bounds.now }
    ensures { OnOk result (cutting.HasHeads trial.now.setting.now trial.now.rule.now (cutting.IsOf number bounds.now) cuts.old cuts.new) }
{
    for bound in bounds {
        push_head(trial, number, bound.as_slice(), cuts)?;
    }
    Ok(())
}

// Adds the heads of the instances that extend the assignment, which is closed first.
fn push_closed(
    trial: &Trial<'_>,
    number: usize,
    bound: &[(u8, Value)],
    cuts: &mut List<Cut>,
) -> Result<(), Memory>
    requires { choosing.IsPlan trial.now.setting.now trial.now.rule.now trial.now.plan.now }
    ensures { OnOk result (cutting.HasHeads trial.now.setting.now trial.now.rule.now (cutting.IsOf number (bound.now ∷ [])) cuts.old cuts.new) }
{
    let one = alone(trial.alloc, bound)?;
    let feats = trial.rule.head.feats.as_slice();
    let settled = close(trial.alloc, trial.setting, trial.plan, feats, one)?;
    push_settled(trial, number, settled.as_slice(), cuts)?;
    Ok(())
}

// Whether the assignment tells the values of the head.
fn settles(bound: &[(u8, Value)], rule: &Rule) -> bool
    ensures { IsTrue result → cutting.Settles rule.now bound.now }
{
    let feats = rule.head.feats.as_slice();
    for feat in feats {
        if known_value(bound, feat.1).is_none() {
            return false;
        }
    }
    true
}

// Adds the heads of the instances that extend the assignment: the head that it tells, where it tells one.
fn push_last(
    trial: &Trial<'_>,
    number: usize,
    bound: &[(u8, Value)],
    cuts: &mut List<Cut>,
) -> Result<(), Memory>
    requires { choosing.IsPlan trial.now.setting.now trial.now.rule.now trial.now.plan.now }
    ensures { OnOk result (cutting.HasHeads trial.now.setting.now trial.now.rule.now (cutting.IsOf number (bound.now ∷ [])) cuts.old cuts.new) }
{
    if settles(bound, trial.rule) {
        push_head(trial, number, bound, cuts)
    } else {
        push_closed(trial, number, bound, cuts)
    }
}

// Adds the heads of the instances that extend the assignment, of which features are still to be gone through: one that isn't
// known has each of its choices.
#[cycle(heads)]
fn push_from(
    trial: &Trial<'_>,
    number: usize,
    feats: &[Feat],
    bound: &[(u8, Value)],
    cuts: &mut List<Cut>,
) -> Result<(), Memory>
    requires { choosing.IsPlan trial.now.setting.now trial.now.rule.now trial.now.plan.now }
    ensures { OnOk result (cutting.HasHeads trial.now.setting.now trial.now.rule.now (cutting.IsOf number (bound.now ∷ [])) cuts.old cuts.new) }
{
    match feats {
        [] => push_last(trial, number, bound, cuts),
        [feat, later @ ..] => {
            if known_value(bound, feat.1).is_some() {
                push_from(trial, number, later, bound, cuts)
            } else {
                push_each(trial, number, *feat, later, bound, cuts)
            }
        }
    }
}

// Adds the heads of the instances that extend the assignment, with each choice for a feature.
#[cycle(heads)]
fn push_each(
    trial: &Trial<'_>,
    number: usize,
    feat: Feat,
    later: &[Feat],
    bound: &[(u8, Value)],
    cuts: &mut List<Cut>,
) -> Result<(), Memory>
    requires plan { choosing.IsPlan trial.now.setting.now trial.now.rule.now trial.now.plan.now }
    requires unknown { branches.known_value bound.now feat.1 ≡ None }
    ensures { OnOk result (cutting.HasHeads trial.now.setting.now trial.now.rule.now (cutting.IsOf number (bound.now ∷ [])) cuts.old cuts.new) }
{
    let values = choices(trial.alloc, trial.setting, trial.plan, feat.1)?;
    for value in values.as_slice() {
        let more = bind_term(trial.alloc, bound, feat.1, *value)?;
        push_some(trial, number, later, more, cuts)?;
    }
    Ok(())
}

// Adds the heads of the instances that extend the assignment, if there is one.
#[cycle(heads)]
fn push_some(
    trial: &Trial<'_>,
    number: usize,
    later: &[Feat],
    more: Option<Bound>,
    cuts: &mut List<Cut>,
) -> Result<(), Memory>
    requires { choosing.IsPlan trial.now.setting.now trial.now.rule.now trial.now.plan.now }
    ensures { OnOk result (cutting.HasHeads trial.now.setting.now trial.now.rule.now (cutting.IsOf number (cons_option more [])) cuts.old cuts.new) }
{
    match more {
        None => Ok(()),
        Some(bound) => push_from(trial, number, later, bound.as_slice(), cuts),
    }
}

// Adds the heads of the instances that extend the assignments.
pub(crate) fn push_heads(
    trial: &Trial<'_>,
    number: usize,
    bounds: &[Bound],
    cuts: &mut List<Cut>,
) -> Result<(), Memory>
    requires { choosing.IsPlan trial.now.setting.now trial.now.rule.now trial.now.plan.now }
    ensures { OnOk result (cutting.HasHeads trial.now.setting.now trial.now.rule.now (cutting.IsOf number bounds.now) cuts.old cuts.new) }
{
    let feats = trial.rule.head.feats.as_slice();
    for bound in bounds {
        push_from(trial, number, feats, bound.as_slice(), cuts)?;
    }
    Ok(())
}

fn takes_terminal(number: u16, element: &Element) -> bool
    ensures { result ≡ asking.takes_terminal number element.now }
{
    match element {
        Element::Terminal(terminal) => *terminal == number,
        _ => false,
    }
}

fn terminal_bounds(
    alloc: Global,
    element: &Element,
    bound: &[(u8, Value)],
    number: u16,
) -> Result<List<Bound>, Memory>
    ensures { IfOk result
        (λ out. out ≡ (if asking.takes_terminal number element.now then bound.now ∷ [] else [])) }
{
    if takes_terminal(number, element) {
        alone(alloc, bound)
    } else {
        Ok(List::new(alloc))
    }
}

fn reading_bounds(
    alloc: Global,
    element: &Element,
    bound: &[(u8, Value)],
    reading: &Ground,
) -> Result<List<Bound>, Memory>
    ensures { IfOk result (λ out. out ≡ cutting.reading_binds reading.now element.now bound.now) }
{
    match element {
        Element::Preterminal(category) => read_as(alloc, category, bound, reading),
        _ => Ok(List::new(alloc)),
    }
}

// The assignments under which the next element meets the ask.
fn met_bounds(
    alloc: Global,
    next: Option<&Element>,
    bound: &[(u8, Value)],
    ask: &Ask,
) -> Result<List<Bound>, Memory>
    ensures { IfOk result (λ out. out ≡ cutting.met_binds (option_map (λ e. e.now) next.entry) bound.now ask.now) }
{
    match ask {
        Ask::Any => alone(alloc, bound),
        Ask::Terminal(number) => match next {
            None => Ok(List::new(alloc)),
            Some(element) => terminal_bounds(alloc, element, bound, *number),
        },
        Ask::Reading(reading) => match next {
            None => Ok(List::new(alloc)),
            Some(element) => reading_bounds(alloc, element, bound, reading),
        },
    }
}

// Adds the phrases of the rule that are cut off in a state, where the next element meets the ask.
fn push_met(
    trial: &Trial<'_>,
    next: Option<&Element>,
    number: usize,
    ask: &Ask,
    bound: &[(u8, Value)],
    cuts: &mut List<Cut>,
) -> Result<(), Memory>
    requires { choosing.IsPlan trial.now.setting.now trial.now.rule.now trial.now.plan.now }
    ensures { OnOk result (cutting.HasHeads trial.now.setting.now trial.now.rule.now
        (cutting.MeetsOne (option_map (λ e. e.now) next.entry) bound.now number ask.now) cuts.old cuts.new) }
{
    let bounds = met_bounds(trial.alloc, next, bound, ask)?;
    if bounds.is_empty() {
        return Ok(());
    }
    push_heads(trial, number, bounds.as_slice(), cuts)?;
    Ok(())
}

// Adds the phrases of the rule that are cut off in a state, where the next element meets one of the asks.
fn push_asked(
    trial: &Trial<'_>,
    asks: &[Ask],
    next: Option<&Element>,
    bound: &[(u8, Value)],
    cuts: &mut List<Cut>,
) -> Result<(), Memory>
    requires { choosing.IsPlan trial.now.setting.now trial.now.rule.now trial.now.plan.now }
    ensures { OnOk result (cutting.HasHeads trial.now.setting.now trial.now.rule.now
        (cutting.OneBefore asks.now (cutting.MeetsOne (option_map (λ e. e.now) next.entry) bound.now) (length asks.now)) cuts.old cuts.new) }
{
    for (number, ask) in asks.iter().enumerate() {
        push_met(trial, next, number, ask, bound, cuts)?;
    }
    Ok(())
}

// Adds the phrases of the rule that are cut off in a state, if it stands at the place.
fn push_cut_here(
    trial: &Trial<'_>,
    next: Option<&Element>,
    state: &State,
    cuts: &mut List<Cut>,
) -> Result<(), Memory>
    requires { choosing.IsPlan trial.now.setting.now trial.now.rule.now trial.now.plan.now }
    ensures { OnOk result (cutting.HasHeads trial.now.setting.now trial.now.rule.now
        (λ j v. cutting.Halts trial.now.aim.now (option_map (λ e. e.now) next.entry) j v state.now) cuts.old cuts.new) }
{
    let aim = trial.aim;
    if state.place as usize == aim.halt {
        push_asked(trial, aim.asks, next, state.binds.as_slice(), cuts)?;
        return Ok(());
    }
    Ok(())
}

// Adds the phrases of the rule that are cut off in those of the states that stand at the place.
pub(crate) fn push_cuts_here(
    trial: &Trial<'_>,
    next: Option<&Element>,
    states: &[State],
    cuts: &mut List<Cut>,
) -> Result<(), Memory>
    requires { choosing.IsPlan trial.now.setting.now trial.now.rule.now trial.now.plan.now }
    ensures { OnOk result (cutting.HasHeads trial.now.setting.now trial.now.rule.now
        (λ j v. cutting.Among (cutting.Halts trial.now.aim.now (option_map (λ e. e.now) next.entry) j v) states.now) cuts.old cuts.new) }
{
    for state in states {
        push_cut_here(trial, next, state, cuts)?;
    }
    Ok(())
}

// Adds the phrases of the rule whose next element, a category, is cut off so.
fn push_cut_within(
    trial: &Trial<'_>,
    category: &Category,
    bound: &[(u8, Value)],
    cut: &Cut,
    cuts: &mut List<Cut>,
) -> Result<(), Memory>
    requires { choosing.IsPlan trial.now.setting.now trial.now.rule.now trial.now.plan.now }
    ensures { OnOk result (cutting.HasHeads trial.now.setting.now trial.now.rule.now
        (cutting.IsOf cut.now.ask (cutting.within_binds category.now bound.now cut.now)) cuts.old cuts.new) }
{
    let bounds = meeting(
        trial.alloc,
        cut.values.as_slice(),
        category.feats.as_slice(),
        bound,
    )?;
    if bounds.is_empty() {
        return Ok(());
    }
    push_heads(trial, cut.ask, bounds.as_slice(), cuts)?;
    Ok(())
}

// Adds the phrases of the rule whose next element, a category, is cut off in one of these ways.
fn push_few_within(
    trial: &Trial<'_>,
    category: &Category,
    bound: &[(u8, Value)],
    within: &[Cut],
    cuts: &mut List<Cut>,
) -> Result<(), Memory>
    requires { choosing.IsPlan trial.now.setting.now trial.now.rule.now trial.now.plan.now }
    ensures { OnOk result (cutting.HasHeads trial.now.setting.now trial.now.rule.now
        (cutting.OneBefore within.now (cutting.MeetsCut category.now bound.now) (length within.now)) cuts.old cuts.new) }
{
    for cut in within {
        push_cut_within(trial, category, bound, cut, cuts)?;
    }
    Ok(())
}

// Adds the phrases of the rule whose next element, a category, is cut off in one of these ways.
pub(crate) fn push_cuts_within(
    trial: &Trial<'_>,
    category: &Category,
    bound: &[(u8, Value)],
    within: &[Cut],
    cuts: &mut List<Cut>,
) -> Result<(), Memory>
    requires { choosing.IsPlan trial.now.setting.now trial.now.rule.now trial.now.plan.now }
    ensures { OnOk result (cutting.HasHeads trial.now.setting.now trial.now.rule.now
        (cutting.OneBefore within.now (cutting.MeetsCut category.now bound.now) (length within.now)) cuts.old cuts.new) }
{
    if within.len() > FEW {
        push_many_within(trial, category, bound, within, cuts)
    } else {
        push_few_within(trial, category, bound, within, cuts)
    }
}
