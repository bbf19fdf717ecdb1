// The table of least trees: a row for each category with its values, place and list without openers that was asked for.
ghost use Rattle.std.specs.Prelude.{◌≡◌, ◌+◌, ◌≤◌, ◌<◌, ◌∷◌, [], ◌++◌, map, length, ℕ, List, Some, All, IfOk, IfSome, OnOk, IsTrue, slice_get};
ghost use Rattle.codeco_terms.specs.declared.elements.Element.TheVariants.{Sub};
ghost use Rattle.derivation_trees.specs.Derives.{rule_with};
ghost use Rattle.derivation_trees.specs.Instances.{is_instance};
ghost use Rattle.derivation_trees.specs.Stands.{IsLimited, IsWithin};
ghost use Rattle.derivations.specs.Enumeration as enumeration;
ghost use Rattle.chart_table.specs.Choices.{ArePlans, IsPlan};
ghost use Rattle.chart_table.specs.Table.{AreRows, no_asks};
ghost use Rattle.chart_table.specs.Instances.{HasInstances};
ghost use Rattle.chart_trees.specs.declared.table.Best.{Best as OneBest};
ghost use Rattle.chart_trees.specs.Paths.{path_of, outcome_at, start_of};
ghost use Rattle.chart_trees.specs.Ways as ways;
ghost use Rattle.chart_trees.specs.Outcomes as ends;
ghost use Rattle.chart_trees.specs.Tables as tabled;

use crate::earliest::earliest;
use crate::outcomes::{Outcome, push_ended};
use crate::paths::{Path, opened, push_joined, push_passed};
use crate::scene::{Scene, Sought, Trial};
use chart_table::{Plan, Rows, Start, leading_instances, plan_for, same_values};
use codeco_terms::{Category, Element, Rule, Value};
use derivation_trees::{Setting, fits, under};
use lists::List;
use scopes::{Access, Test};
use std::alloc::Global;
use wiki_base::Memory;

// The least trees that are phrases for the category, from a place and a list without openers, one for each end.
#[derive(Drop)]
pub(crate) struct Best {
    pub(crate) asked: Test,
    pub(crate) place: u16,
    pub(crate) list: Access,
    pub(crate) outcomes: List<Outcome>,
}

// The table of ends, and that of least trees.
#[derive(Drop)]
pub(crate) struct Tables {
    pub(crate) ends: Rows,
    pub(crate) rows: List<Best>,
}

fn is_row(row: &Best, asked: &Test, place: u16, list: &Access) -> bool
    ensures asked { IsTrue result → row.now.asked ≡ asked.now }
    ensures place { IsTrue result → row.now.place ≡ place }
    ensures list { IsTrue result → row.now.list ≡ list.now }
{
    row.place == place && same_test(&row.asked, asked) && row.list.is_same(list)
}

fn same_test(one: &Test, other: &Test) -> bool
    ensures { IsTrue result → one.now ≡ other.now }
{
    one.name == other.name && same_values(one.values.as_slice(), other.values.as_slice())
}

// The number of the row, if it is there. The newest rows are looked at first.
fn find(rows: &[Best], asked: &Test, place: u16, list: &Access) -> Option<usize>
    ensures { IfSome result (λ number. tabled.IsFound rows.now number asked.now place list.now) }
{
    let mut number = rows.len();
    while number > 0 {
        number -= 1;
        if is_row(&rows[number], asked, place, list) {
            return Some(number);
        }
    }
    None
}

// Adds the row, and gives its number.
fn push_new_row(rows: &mut List<Best>, row: Best) -> Result<usize, Memory>
    ensures rows { OnOk result (rows.new ≡ rows.old ++ row ∷ []) }
    ensures number { IfOk result (λ number. number ≡ length rows.old) }
{
    let number = rows.len();
    rows.push(row)?;
    Ok(number)
}

// The number after a rule's.
fn next_number(number: u16) -> Result<u16, Memory>
    ensures { IfOk result (λ next. next ≡ number + 1) }
{
    number.checked_add(1).ok_or(Memory)
}

// Whether the values are an instance of the rule whose head fits the category.
fn may_begin(
    alloc: Global,
    setting: &Setting<'_>,
    rule: &Rule,
    plan: &Plan,
    asked: &Test,
    values: &[(u8, Value)],
) -> Result<bool, Memory>
    requires { IsPlan setting.now rule.now plan.now }
    ensures { IfOk result (λ yes. yes ≡ enumeration.may_begin setting.now rule.now asked.now values.now) }
{
    let head = under(alloc, values, &rule.head)?;
    if !fits(&head, asked) {
        return Ok(false);
    }
    Ok(chart_table::is_instance(setting, rule, plan, values))
}

// The number of the row of the category, which is made where it isn't there yet.
#[cycle(best)]
pub(crate) fn best_of(
    scene: &Scene<'_>,
    tables: &mut Tables,
    asked: Test,
    place: u16,
    list: Access,
) -> Result<usize, Memory>
    requires limited { IsLimited scene.now.setting.now.grammar }
    requires plans { ArePlans scene.now.setting.now scene.now.plans.now }
    requires tables { tabled.AreTables scene.now.setting.now tables.old }
    ensures tables { OnOk result (tabled.AreTables scene.now.setting.now tables.new) }
    ensures row { IfOk result (λ number. tabled.HasBest scene.now.setting.now tables.new.rows number asked (record { place = place; list = list })) }
{
    if let Some(number) = find(tables.rows.as_slice(), &asked, place, &list) {
        return Ok(number);
    }
    let sought = Sought {
        asked: &asked,
        place,
        list: &list,
    };
    let outcomes = all_outcomes(scene, tables, &sought)?;
    let row = Best {
        asked,
        place,
        list,
        outcomes,
    };
    let number = push_new_row(&mut tables.rows, row)?;
    Ok(number)
}

// The least trees for the category, by all rules.
#[cycle(best)]
fn all_outcomes(
    scene: &Scene<'_>,
    tables: &mut Tables,
    sought: &Sought<'_>,
) -> Result<List<Outcome>, Memory>
    requires limited { IsLimited scene.now.setting.now.grammar }
    requires plans { ArePlans scene.now.setting.now scene.now.plans.now }
    requires tables { tabled.AreTables scene.now.setting.now tables.old }
    ensures tables { OnOk result (tabled.AreTables scene.now.setting.now tables.new) }
    ensures best { IfOk result (ends.IsBest scene.now.setting.now sought.now.asked.now (start_of sought.now)) }
{
    let setting = scene.setting;
    let rules = setting.grammar.rules().as_slice();
    let mut out = List::new(scene.alloc);
    let mut number: u16 = 1;
    for (index, rule) in rules.iter().enumerate() {
        let plan = plan_for(scene.plans, index);
        let trial = Trial { number, rule, plan };
        push_named(scene, tables, sought, &trial, &mut out)?;
        number = next_number(number)?;
    }
    Ok(out)
}

// Adds the least trees with the rule, if it has the name.
#[cycle(best)]
fn push_named(
    scene: &Scene<'_>,
    tables: &mut Tables,
    sought: &Sought<'_>,
    trial: &Trial<'_>,
    out: &mut List<Outcome>,
) -> Result<(), Memory>
    requires limited { IsLimited scene.now.setting.now.grammar }
    requires plans { ArePlans scene.now.setting.now scene.now.plans.now }
    requires tables { tabled.AreTables scene.now.setting.now tables.old }
    requires has { rule_with scene.now.setting.now.grammar trial.now.number ≡ Some trial.now.rule.now }
    requires plan { IsPlan scene.now.setting.now trial.now.rule.now trial.now.plan.now }
    ensures tables { OnOk result (tabled.AreTables scene.now.setting.now tables.new) }
    ensures trees { OnOk result (ends.HasTrees scene.now.setting.now sought.now.asked.now (start_of sought.now)
        (ends.IsOfRule trial.now.number) out.old out.new) }
{
    if trial.rule.head.name == sought.asked.name {
        push_rule(scene, tables, sought, trial, out)?;
        return Ok(());
    }
    Ok(())
}

// Adds the least trees with the rule.
#[cycle(best)]
fn push_rule(
    scene: &Scene<'_>,
    tables: &mut Tables,
    sought: &Sought<'_>,
    trial: &Trial<'_>,
    out: &mut List<Outcome>,
) -> Result<(), Memory>
    requires limited { IsLimited scene.now.setting.now.grammar }
    requires plans { ArePlans scene.now.setting.now scene.now.plans.now }
    requires tables { tabled.AreTables scene.now.setting.now tables.old }
    requires has { rule_with scene.now.setting.now.grammar trial.now.number ≡ Some trial.now.rule.now }
    requires plan { IsPlan scene.now.setting.now trial.now.rule.now trial.now.plan.now }
    ensures tables { OnOk result (tabled.AreTables scene.now.setting.now tables.new) }
    ensures trees { OnOk result (ends.HasTrees scene.now.setting.now sought.now.asked.now (start_of sought.now)
        (ends.IsOfRule trial.now.number) out.old out.new) }
{
    let start = Start {
        known: sought.asked.values.as_slice(),
        place: sought.place,
        list: sought.list,
    };
    let instances = leading_instances(
        scene.alloc,
        scene.setting,
        scene.plans,
        &mut tables.ends,
        trial.rule,
        trial.plan,
        &start,
    )?;
    push_instances(scene, tables, sought, trial, instances.as_slice(), out)?;
    Ok(())
}

// Adds the least trees with the rule and each of the instances.
#[cycle(best)]
fn push_instances(
    scene: &Scene<'_>,
    tables: &mut Tables,
    sought: &Sought<'_>,
    trial: &Trial<'_>,
    instances: &[List<(u8, Value)>],
    out: &mut List<Outcome>,
) -> Result<(), Memory>
    requires limited { IsLimited scene.now.setting.now.grammar }
    requires plans { ArePlans scene.now.setting.now scene.now.plans.now }
    requires tables { tabled.AreTables scene.now.setting.now tables.old }
    requires has { rule_with scene.now.setting.now.grammar trial.now.number ≡ Some trial.now.rule.now }
    requires plan { IsPlan scene.now.setting.now trial.now.rule.now trial.now.plan.now }
    ensures tables { OnOk result (tabled.AreTables scene.now.setting.now tables.new) }
    ensures trees { OnOk result (ends.HasTrees scene.now.setting.now sought.now.asked.now (start_of sought.now)
        (ends.IsOfInstances trial.now.number instances.now) out.old out.new) }
{
    for values in instances {
        push_instance(scene, tables, sought, trial, values.as_slice(), out)?;
    }
    Ok(())
}

// Adds the least trees with the rule and the instance.
#[cycle(best)]
fn push_instance(
    scene: &Scene<'_>,
    tables: &mut Tables,
    sought: &Sought<'_>,
    trial: &Trial<'_>,
    values: &[(u8, Value)],
    out: &mut List<Outcome>,
) -> Result<(), Memory>
    requires limited { IsLimited scene.now.setting.now.grammar }
    requires plans { ArePlans scene.now.setting.now scene.now.plans.now }
    requires tables { tabled.AreTables scene.now.setting.now tables.old }
    requires has { rule_with scene.now.setting.now.grammar trial.now.number ≡ Some trial.now.rule.now }
    requires plan { IsPlan scene.now.setting.now trial.now.rule.now trial.now.plan.now }
    ensures tables { OnOk result (tabled.AreTables scene.now.setting.now tables.new) }
    ensures trees { OnOk result (ends.HasTrees scene.now.setting.now sought.now.asked.now (start_of sought.now)
        (ends.IsOfInstance trial.now.number values.now) out.old out.new) }
{
    let Scene { alloc, setting, .. } = *scene;
    let Trial { number, rule, plan } = *trial;
    if !may_begin(alloc, setting, rule, plan, sought.asked, values)? {
        return Ok(());
    }
    let list = sought.list;
    let first = opened(alloc, rule, values, sought.place, list)?;
    let paths = run_all(scene, tables, values, rule.body.as_slice(), first)?;
    push_ended(alloc, number, rule, values, list, paths.as_slice(), out)?;
    Ok(())
}

// The paths after all elements.
#[cycle(best)]
fn run_all(
    scene: &Scene<'_>,
    tables: &mut Tables,
    values: &[(u8, Value)],
    body: &[Element],
    first: Path,
) -> Result<List<Path>, Memory>
    requires limited { IsLimited scene.now.setting.now.grammar }
    requires plans { ArePlans scene.now.setting.now scene.now.plans.now }
    requires within { All (IsWithin scene.now.setting.now.grammar) body.now }
    requires tables { tabled.AreTables scene.now.setting.now tables.old }
    ensures tables { OnOk result (tabled.AreTables scene.now.setting.now tables.new) }
    ensures paths { IfOk result (λ out. ways.AreReached scene.now.setting.now values.now body.now (path_of first) (map path_of out)) }
{
    let mut paths = List::new(scene.alloc);
    paths.push(first)?;
    for element in body {
        paths = step_all(scene, tables, values, element, paths.as_slice())?;
    }
    Ok(paths)
}

// The paths after one element, from each of these.
#[cycle(best)]
fn step_all(
    scene: &Scene<'_>,
    tables: &mut Tables,
    values: &[(u8, Value)],
    element: &Element,
    paths: &[Path],
) -> Result<List<Path>, Memory>
    requires limited { IsLimited scene.now.setting.now.grammar }
    requires plans { ArePlans scene.now.setting.now scene.now.plans.now }
    requires within { IsWithin scene.now.setting.now.grammar element.now }
    requires tables { tabled.AreTables scene.now.setting.now tables.old }
    ensures tables { OnOk result (tabled.AreTables scene.now.setting.now tables.new) }
    ensures steps { IfOk result (λ out. ways.AreStepsOf scene.now.setting.now values.now element.now (map path_of paths.now) (map path_of out)) }
{
    let mut out = List::new(scene.alloc);
    for path in paths {
        push_steps(scene, tables, values, element, path, &mut out)?;
    }
    let left = earliest(scene.alloc, out)?;
    Ok(left)
}

// Adds the paths after one element.
#[cycle(best)]
fn push_steps(
    scene: &Scene<'_>,
    tables: &mut Tables,
    values: &[(u8, Value)],
    element: &Element,
    path: &Path,
    out: &mut List<Path>,
) -> Result<(), Memory>
    requires limited { IsLimited scene.now.setting.now.grammar }
    requires plans { ArePlans scene.now.setting.now scene.now.plans.now }
    requires within { IsWithin scene.now.setting.now.grammar element.now }
    requires tables { tabled.AreTables scene.now.setting.now tables.old }
    ensures tables { OnOk result (tabled.AreTables scene.now.setting.now tables.new) }
    ensures steps { OnOk result (ways.HasSteps scene.now.setting.now values.now element.now (path_of path.now) (map path_of out.old) (map path_of out.new)) }
{
    match element {
        Element::Sub(category) => {
            push_child(scene, tables, values, category, path, out)?;
            Ok(())
        }
        _ => {
            push_passed(scene.alloc, scene.setting, values, element, path, out)?;
            Ok(())
        }
    }
}

// Adds the paths after a category. Calls are nested as deep as categories are, which the grammar bounds.
#[cycle(best)]
fn push_child(
    scene: &Scene<'_>,
    tables: &mut Tables,
    values: &[(u8, Value)],
    category: &Category,
    path: &Path,
    out: &mut List<Path>,
) -> Result<(), Memory>
    requires limited { IsLimited scene.now.setting.now.grammar }
    requires plans { ArePlans scene.now.setting.now scene.now.plans.now }
    requires tables { tabled.AreTables scene.now.setting.now tables.old }
    ensures tables { OnOk result (tabled.AreTables scene.now.setting.now tables.new) }
    ensures steps { OnOk result (ways.HasSteps scene.now.setting.now values.now (Sub category.now) (path_of path.now) (map path_of out.old)
        (map path_of out.new)) }
{
    let deeper = Scene {
        alloc: scene.alloc,
        setting: scene.setting,
        plans: scene.plans,
        depth: scene.depth.checked_sub(1).ok_or(Memory)?,
    };
    let asked = under(scene.alloc, values, category)?;
    let list = path.list.referents()?;
    let number = best_of(&deeper, tables, asked, path.place, list)?;
    push_best(scene.alloc, path, tables.rows.as_slice(), number, out)?;
    Ok(())
}

// Adds the paths after a category, by a row.
fn push_best(
    alloc: Global,
    path: &Path,
    rows: &[Best],
    number: usize,
    out: &mut List<Path>,
) -> Result<(), Memory>
    requires { number < length rows.now }
    ensures { OnOk result ((row : OneBest) → slice_get rows.now number ≡ Some row → map path_of out.new
        ≡ map path_of out.old ++ map (enumeration.joined (path_of path.now)) (map (outcome_at path.now.list) row.outcomes)) }
{
    push_joined(alloc, path, rows[number].outcomes.as_slice(), out)
}
