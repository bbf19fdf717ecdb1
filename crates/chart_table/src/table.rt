// The table of ends: a row for each category with known values, place and list that was asked for.
ghost use Rattle.std.specs.Prelude.{◌≡◌, ◌+◌, ◌≤◌, ◌<◌, ◌∷◌, [], ◌++◌, map, drop, length, ℕ, List, Some, All, IfOk, IfSome, OnOk, true, false, slice_get, flat_map};
ghost use Rattle.std.specs.List.{cons_option};
ghost use Rattle.codeco_checked.specs.Occurrences.{positions};
ghost use Rattle.scopes.specs.declared.entries.Entry.{Entry as OneEntry};
ghost use Rattle.derivation_trees.specs.Instances as instances;
ghost use Rattle.derivation_trees.specs.Stands.{is_sub};
ghost use Rattle.scopes.specs.AccessList.{referents};
ghost use Rattle.chart_table.specs.Branches as branches;
ghost use Rattle.chart_table.specs.Choices as choosing;
ghost use Rattle.chart_table.specs.Steps as steps;
ghost use Rattle.chart_table.specs.Ends as ending;
ghost use Rattle.chart_table.specs.Features as listing;
ghost use Rattle.chart_table.specs.Cuts as cutting;
ghost use Rattle.chart_table.specs.Table as tables;
ghost use Rattle.codeco_terms.specs.declared.elements.Element.{Element as OneElement};
ghost use Rattle.codeco_terms.specs.declared.elements.Element.TheVariants.{Sub};
ghost use Rattle.chart_table.specs.declared.states.State.{State as OneState};
ghost use Rattle.chart_table.specs.declared.table.Row.{Row as OneRow};

use crate::branches::{known_features, meet};
use crate::choices::{count_at, features_at, plan_for};
use crate::cuts::{push_cuts_here, push_cuts_within};
use crate::ends::{are_bound, finished, finished_one};
use crate::merging::merged;
use crate::rows::Rows;
use crate::sameness::{copy_values, same_end, same_values};
use crate::scene::{Scene, Start, Step, Trial};
use crate::states::{Aim, Bound, Cut, End, Feat, State};
use crate::steps::{push_ends, push_plain};
use codeco_terms::{Category, Element, Value};
use derivation_trees::{Setting, may_start};
use lists::List;
use scopes::{Access, Entry, TestValues};
use std::alloc::Global;
use wiki_base::Memory;

/// The phrases of a category with known values, from a place and a list without openers: where they end, and those that
/// are cut off at a place, with what they are asked for there.
#[derive(Drop)]
pub struct Row {
    pub(crate) name: u16,
    pub(crate) known: List<(u16, Value)>,
    pub(crate) place: u16,
    pub(crate) list: Access,
    pub(crate) ends: List<End>,
    pub(crate) cuts: List<Cut>,
    pub(crate) older: usize,
}

fn is_row(row: &Row, name: u16, known: &[(u16, Value)], place: u16, list: &Access) -> bool
    ensures name { result ≡ true → row.now.name ≡ name }
    ensures known { result ≡ true → row.now.known ≡ known.now }
    ensures place { result ≡ true → row.now.place ≡ place }
    ensures list { result ≡ true → row.now.list ≡ list.now }
{
    row.place == place
        && row.name == name
        && same_values(row.known.as_slice(), known)
        && row.list.is_same(list)
}

// The number of the row, if it is there, by the rows at its place: the newest first, whose number is one less than is given, and
// each tells the next older one.
fn find(
    rows: &[Row],
    newest: usize,
    name: u16,
    known: &[(u16, Value)],
    place: u16,
    list: &Access,
) -> Option<usize>
    ensures { IfSome result (λ number. tables.IsFound rows.now number name known.now place list.now) }
{
    let mut next = newest;
    while next > 0 && next <= rows.len() {
        let number = next - 1;
        if is_row(&rows[number], name, known, place, list) {
            return Some(number);
        }
        next = rows[number].older.min(number);
    }
    None
}

fn has_end(ends: &[End], end: &End) -> bool
    ensures { result ≡ true → ending.HasMore ends.now ends.now (end.now ∷ []) }
{
    for other in ends {
        if same_end(other, end) {
            return true;
        }
    }
    false
}

// Adds the end, where it isn't there yet.
fn push_new(end: End, out: &mut List<End>) -> Result<(), Memory>
    ensures { OnOk result (ending.HasMore out.old out.new (end ∷ [])) }
{
    if has_end(out.as_slice(), &end) {
        Ok(())
    } else {
        out.push(end)?;
        Ok(())
    }
}

fn copy_end(alloc: Global, end: &End) -> Result<End, Memory>
    ensures { IfOk result (λ copied. copied ≡ end.now) }
{
    Ok(End {
        values: copy_values(alloc, end.values.as_slice())?,
        place: end.place,
        tail: end.tail.share()?,
    })
}

// Adds those of the ends that aren't there yet.
fn push_all_new(alloc: Global, ends: &[End], out: &mut List<End>) -> Result<(), Memory>
    ensures { OnOk result (ending.HasMore out.old out.new ends.now) }
{
    for end in ends {
        push_new(copy_end(alloc, end)?, out)?;
    }
    Ok(())
}

// Adds the ends of phrases of the rule that stand in these states after the last element.
fn push_finished(
    trial: &Trial<'_>,
    before: &Access,
    states: &[State],
    out: &mut List<End>,
) -> Result<(), Memory>
    requires { choosing.IsPlan trial.now.setting.now trial.now.rule.now trial.now.plan.now }
    ensures { OnOk result (ending.HasFinished trial.now.setting.now trial.now.rule.now before.now states.now out.old out.new) }
{
    for state in states {
        push_state_ends(trial, before, state, out)?;
    }
    Ok(())
}

// Adds the end, if there is one and it isn't there yet.
fn push_some_new(end: Option<End>, out: &mut List<End>) -> Result<(), Memory>
    ensures { OnOk result (ending.HasMore out.old out.new (cons_option end [])) }
{
    match end {
        None => Ok(()),
        Some(end) => push_new(end, out),
    }
}

// Adds the ends of phrases of the rule that stand in this state after the last element.
fn push_state_ends(
    trial: &Trial<'_>,
    before: &Access,
    state: &State,
    out: &mut List<End>,
) -> Result<(), Memory>
    requires { choosing.IsPlan trial.now.setting.now trial.now.rule.now trial.now.plan.now }
    ensures { OnOk result (ending.HasMore out.old out.new (ending.finished trial.now.setting.now trial.now.rule.now before.now state.now)) }
{
    let Trial { alloc, setting, .. } = *trial;
    let bound = state.binds.as_slice();
    if are_bound(bound, trial.plan.variables.as_slice()) {
        let end = finished_one(alloc, setting, trial.rule, trial.plan, before, state, bound)?;
        return push_some_new(end, out);
    }
    let ends = finished(alloc, setting, trial.rule, trial.plan, before, state)?;
    push_all_new(alloc, ends.as_slice(), out)
}

fn add_count(number: u16, count: usize) -> Result<u16, Memory>
    ensures { IfOk result (λ next. next ≡ number + count) }
{
    match u16::try_from(count) {
        Ok(count) => number.checked_add(count).ok_or(Memory),
        Err(_) => Err(Memory),
    }
}

// The states at the start of a rule.
pub(crate) fn start_states(
    alloc: Global,
    start: &Start<'_>,
    feats: &[Feat],
) -> Result<List<State>, Memory>
    ensures { IfOk result (λ states. states ≡ steps.starting start.now.known.now feats.now start.now.place start.now.list.now) }
{
    let mut states = List::new(alloc);
    let mut binds: Bound = List::new(alloc);
    if !meet(&mut binds, start.known, feats)? {
        return Ok(states);
    }
    let list = start.list.share()?;
    states.push(State {
        binds,
        place: start.place,
        list,
    })?;
    Ok(states)
}

// How many tokens there are.
pub(crate) fn token_count(setting: &Setting<'_>) -> usize
    ensures { result ≡ length setting.now.tokens }
{
    setting.tokens.len()
}

// The number of the row of the category, which is made where it isn't there yet.
#[cycle(ends)]
pub(crate) fn row_of(
    scene: &Scene<'_>,
    rows: &mut Rows,
    name: u16,
    known: List<(u16, Value)>,
    place: u16,
    list: Access,
) -> Result<usize, Memory>
    requires rows { tables.AreRows scene.now.setting.now scene.now.aim.now rows.old }
    requires plans { choosing.ArePlans scene.now.setting.now scene.now.plans.now }
    ensures rows { OnOk result (tables.AreRows scene.now.setting.now scene.now.aim.now rows.new) }
    ensures row { IfOk result (λ number. tables.HasRow scene.now.setting.now scene.now.aim.now rows.new number name known
        (record { place = place; list = list })) }
{
    if let Some(number) = find(
        rows.as_slice(),
        rows.newest_at(place),
        name,
        known.as_slice(),
        place,
        &list,
    ) {
        return Ok(number);
    }
    let mut cuts = List::new(scene.alloc);
    let start = Start {
        known: known.as_slice(),
        place,
        list: &list,
    };
    let ends = category_ends(scene, rows, name, &start, &mut cuts)?;
    let row = Row {
        name,
        known,
        place,
        list,
        ends,
        cuts,
        older: rows.newest_at(place),
    };
    let number = rows.push(row)?;
    Ok(number)
}

// The ends of the category, by all its rules. What is cut off is added, to a list that has been empty.
#[cycle(ends)]
fn category_ends(
    scene: &Scene<'_>,
    rows: &mut Rows,
    name: u16,
    start: &Start<'_>,
    cuts: &mut List<Cut>,
) -> Result<List<End>, Memory>
    requires rows { tables.AreRows scene.now.setting.now scene.now.aim.now rows.old }
    requires plans { choosing.ArePlans scene.now.setting.now scene.now.plans.now }
    requires none { cuts.old ≡ [] }
    ensures rows { OnOk result (tables.AreRows scene.now.setting.now scene.now.aim.now rows.new) }
    ensures ends { IfOk result (λ ends. ending.IsEnds scene.now.setting.now name start.now.known.now
        (record { place = start.now.place; list = start.now.list.now }) ends) }
    ensures cuts { OnOk result (cutting.AreCuts scene.now.setting.now scene.now.aim.now name start.now.known.now
        (record { place = start.now.place; list = start.now.list.now }) cuts.new) }
{
    let setting = scene.setting;
    let rules = setting.grammar.rules().as_slice();
    let mut ends = List::new(scene.alloc);
    for (number, rule) in rules.iter().enumerate() {
        let plan = plan_for(scene.plans, number);
        let trial = Trial {
            alloc: scene.alloc,
            setting,
            aim: scene.aim,
            plans: scene.plans,
            depth: scene.depth,
            rule,
            plan,
        };
        push_named(&trial, rows, name, start, &mut ends, cuts)?;
    }
    Ok(ends)
}

// Whether phrases are cut off at the place, or the rule's first element that takes tokens may stand there.
fn may_go(trial: &Trial<'_>, place: u16) -> bool
    ensures { result ≡ false → cutting.IsIdle trial.now.setting.now trial.now.aim.now trial.now.rule.now place }
{
    let aim = trial.aim;
    if place as usize == aim.halt {
        return true;
    }
    may_start(trial.setting, place, trial.rule.body.as_slice())
}

// Adds the ends of the rule and what is cut off, if it has the name.
#[cycle(ends)]
fn push_named(
    trial: &Trial<'_>,
    rows: &mut Rows,
    name: u16,
    start: &Start<'_>,
    ends: &mut List<End>,
    cuts: &mut List<Cut>,
) -> Result<(), Memory>
    requires rows { tables.AreRows trial.now.setting.now trial.now.aim.now rows.old }
    requires plans { choosing.ArePlans trial.now.setting.now trial.now.plans.now }
    requires plan { choosing.IsPlan trial.now.setting.now trial.now.rule.now trial.now.plan.now }
    ensures rows { OnOk result (tables.AreRows trial.now.setting.now trial.now.aim.now rows.new) }
    ensures ends { OnOk result (ending.HasEndsIfNamed trial.now.setting.now trial.now.rule.now name start.now.known.now
        (record { place = start.now.place; list = start.now.list.now }) ends.old ends.new) }
    ensures cuts { OnOk result (cutting.HasCutsIfNamed trial.now.setting.now trial.now.aim.now trial.now.rule.now name start.now.known.now
        (record { place = start.now.place; list = start.now.list.now }) cuts.old cuts.new) }
{
    if trial.rule.head.name == name {
        push_rule(trial, rows, start, ends, cuts)?;
        return Ok(());
    }
    Ok(())
}

// Adds the ends of the rule and what is cut off.
#[cycle(ends)]
fn push_rule(
    trial: &Trial<'_>,
    rows: &mut Rows,
    start: &Start<'_>,
    ends: &mut List<End>,
    cuts: &mut List<Cut>,
) -> Result<(), Memory>
    requires rows { tables.AreRows trial.now.setting.now trial.now.aim.now rows.old }
    requires plans { choosing.ArePlans trial.now.setting.now trial.now.plans.now }
    requires plan { choosing.IsPlan trial.now.setting.now trial.now.rule.now trial.now.plan.now }
    ensures rows { OnOk result (tables.AreRows trial.now.setting.now trial.now.aim.now rows.new) }
    ensures ends { OnOk result (ending.HasEndsOfRule trial.now.setting.now trial.now.rule.now start.now.known.now
        (record { place = start.now.place; list = start.now.list.now }) ends.old ends.new) }
    ensures cuts { OnOk result (cutting.HasCutsOfRule trial.now.setting.now trial.now.aim.now trial.now.rule.now start.now.known.now
        (record { place = start.now.place; list = start.now.list.now }) cuts.old cuts.new) }
{
    if !may_go(trial, start.place) {
        return Ok(());
    }
    let alloc = trial.alloc;
    let starts = start_states(alloc, start, trial.rule.head.feats.as_slice())?;
    let states = last_states(trial, rows, starts, cuts)?;
    push_cuts_here(trial, None, states.as_slice(), cuts)?;
    push_finished(trial, start.list, states.as_slice(), ends)?;
    Ok(())
}

// Counts states that are made.
fn count(aim: &Aim<'_>, states: usize) {
    aim.made.set(aim.made.get().saturating_add(states));
}

// The states after the last element. What is cut off before is added.
#[cycle(ends)]
pub(crate) fn last_states(
    trial: &Trial<'_>,
    rows: &mut Rows,
    starts: List<State>,
    cuts: &mut List<Cut>,
) -> Result<List<State>, Memory>
    requires rows { tables.AreRows trial.now.setting.now trial.now.aim.now rows.old }
    requires plans { choosing.ArePlans trial.now.setting.now trial.now.plans.now }
    requires plan { choosing.IsPlan trial.now.setting.now trial.now.rule.now trial.now.plan.now }
    ensures rows { OnOk result (tables.AreRows trial.now.setting.now trial.now.aim.now rows.new) }
    ensures last { IfOk result (λ states. cutting.AreAllAfter trial.now.setting.now trial.now.rule.now starts states) }
    ensures cuts { OnOk result (cutting.HasHeads trial.now.setting.now trial.now.rule.now
        (cutting.CutBefore trial.now.setting.now trial.now.aim.now trial.now.rule.now starts (length trial.now.rule.now.body)) cuts.old cuts.new) }
{
    let aim = trial.aim;
    count(aim, starts.len());
    let body = trial.rule.body.as_slice();
    let mut states = starts;
    let mut number: u16 = 16;
    for (place, element) in body.iter().enumerate() {
        push_cuts_here(trial, Some(element), states.as_slice(), cuts)?;
        let features = features_at(trial.plan, place);
        let step = Step {
            number,
            features,
            element,
        };
        states = next_states(trial, rows, &step, states.as_slice(), cuts)?;
        count(aim, states.len());
        number = add_count(number, count_at(trial.plan, place))?;
    }
    Ok(states)
}

// The states after an element. What is cut off within it is added.
#[cycle(ends)]
fn next_states(
    trial: &Trial<'_>,
    rows: &mut Rows,
    step: &Step<'_>,
    states: &[State],
    cuts: &mut List<Cut>,
) -> Result<List<State>, Memory>
    requires rows { tables.AreRows trial.now.setting.now trial.now.aim.now rows.old }
    requires plans { choosing.ArePlans trial.now.setting.now trial.now.plans.now }
    requires plan { choosing.IsPlan trial.now.setting.now trial.now.rule.now trial.now.plan.now }
    requires features { step.now.features.now ≡ listing.element_features trial.now.setting.now.grammar step.now.element.now }
    ensures rows { OnOk result (tables.AreRows trial.now.setting.now trial.now.aim.now rows.new) }
    ensures steps { IfOk result (λ news. ending.AreSteps trial.now.setting.now trial.now.rule.now step.now.number step.now.element.now states.now news) }
    ensures cuts { OnOk result (cutting.HasHeads trial.now.setting.now trial.now.rule.now
        (λ j v. cutting.Among (cutting.Enters trial.now.setting.now trial.now.aim.now step.now.element.now j v) states.now) cuts.old cuts.new) }
{
    let mut news = List::new(trial.alloc);
    for state in states {
        push_state(trial, rows, step, state, &mut news, cuts)?;
    }
    let news = merged(trial.alloc, news)?;
    Ok(news)
}

// Adds the states after an element from one state, and what is cut off within it.
#[cycle(ends)]
fn push_state(
    trial: &Trial<'_>,
    rows: &mut Rows,
    step: &Step<'_>,
    state: &State,
    out: &mut List<State>,
    cuts: &mut List<Cut>,
) -> Result<(), Memory>
    requires rows { tables.AreRows trial.now.setting.now trial.now.aim.now rows.old }
    requires plans { choosing.ArePlans trial.now.setting.now trial.now.plans.now }
    requires plan { choosing.IsPlan trial.now.setting.now trial.now.rule.now trial.now.plan.now }
    requires features { step.now.features.now ≡ listing.element_features trial.now.setting.now.grammar step.now.element.now }
    ensures rows { OnOk result (tables.AreRows trial.now.setting.now trial.now.aim.now rows.new) }
    ensures step { OnOk result ((news : List OneState) × (out.new ≡ out.old ++ news)
        × ending.IsStep trial.now.setting.now trial.now.rule.now step.now.number step.now.element.now state.now news) }
    ensures cuts { OnOk result (cutting.HasHeads trial.now.setting.now trial.now.rule.now
        (λ j v. cutting.Enters trial.now.setting.now trial.now.aim.now step.now.element.now j v state.now) cuts.old cuts.new) }
{
    match step.element {
        Element::Sub(category) => {
            push_category(trial, rows, step.number, category, state, out, cuts)?;
            Ok(())
        }
        _ => {
            push_plain(trial, step, state, out)?;
            Ok(())
        }
    }
}

// Adds the states after a category from one state, and what is cut off within it. Calls are nested as deep as categories
// are, which the grammar bounds.
#[cycle(ends)]
fn push_category(
    trial: &Trial<'_>,
    rows: &mut Rows,
    number: u16,
    category: &Category,
    state: &State,
    out: &mut List<State>,
    cuts: &mut List<Cut>,
) -> Result<(), Memory>
    requires rows { tables.AreRows trial.now.setting.now trial.now.aim.now rows.old }
    requires plans { choosing.ArePlans trial.now.setting.now trial.now.plans.now }
    requires plan { choosing.IsPlan trial.now.setting.now trial.now.rule.now trial.now.plan.now }
    ensures rows { OnOk result (tables.AreRows trial.now.setting.now trial.now.aim.now rows.new) }
    ensures step { OnOk result ((news : List OneState) × (out.new ≡ out.old ++ news)
        × ending.IsStep trial.now.setting.now trial.now.rule.now number (Sub category.now) state.now news) }
    ensures cuts { OnOk result (cutting.HasHeads trial.now.setting.now trial.now.rule.now
        (λ j v. cutting.Enters trial.now.setting.now trial.now.aim.now (Sub category.now) j v state.now) cuts.old cuts.new) }
{
    let alloc = trial.alloc;
    let deeper = Scene {
        alloc,
        setting: trial.setting,
        aim: trial.aim,
        plans: trial.plans,
        depth: trial.depth.checked_sub(1).ok_or(Memory)?,
    };
    let known = known_features(alloc, state.binds.as_slice(), category.feats.as_slice())?;
    let list = state.list.referents()?;
    let row = row_of(&deeper, rows, category.name, known, state.place, list)?;
    push_row(alloc, category, state, rows.as_slice(), row, out)?;
    push_row_cuts(trial, category, state, rows.as_slice(), row, cuts)?;
    Ok(())
}

// Adds the states after a category, by a row.
fn push_row(
    alloc: Global,
    category: &Category,
    state: &State,
    rows: &[Row],
    number: usize,
    out: &mut List<State>,
) -> Result<(), Memory>
    requires { number < length rows.now }
    ensures { OnOk result ((row : OneRow) → slice_get rows.now number ≡ Some row → out.new ≡ out.old ++ steps.sub_steps category.now state.now row.ends) }
{
    push_ends(alloc, category, state, rows[number].ends.as_slice(), out)
}

// Adds what is cut off within a category, by a row.
fn push_row_cuts(
    trial: &Trial<'_>,
    category: &Category,
    state: &State,
    rows: &[Row],
    number: usize,
    cuts: &mut List<Cut>,
) -> Result<(), Memory>
    requires number { number < length rows.now }
    requires plan { choosing.IsPlan trial.now.setting.now trial.now.rule.now trial.now.plan.now }
    ensures { OnOk result ((row : OneRow) → slice_get rows.now number ≡ Some row → cutting.HasHeads trial.now.setting.now trial.now.rule.now
        (cutting.OneBefore row.cuts (cutting.MeetsCut category.now state.now.binds) (length row.cuts)) cuts.old cuts.new) }
{
    push_cuts_within(
        trial,
        category,
        state.binds.as_slice(),
        rows[number].cuts.as_slice(),
        cuts,
    )
}
