// The trees for a category at a place and a list.
ghost use Rattle.std.specs.Prelude.{◌≡◌, ◌≤◌, ◌+◌, ◌∷◌, [], ◌++◌, if◌then◌else◌, All, IfOk, OnOk, map};
ghost use Rattle.std.specs.List.{flat_map};
ghost use Rattle.derivation_trees.specs.Stands.{Begins, IsLimited, IsWithin, at_of};
ghost use Rattle.derivations.specs.Enumeration as enumeration;
ghost use Rattle.derivations.specs.Paths.{path_of, outcome_of, start_of};

use crate::choices::{Bound, instances};
use crate::paths::{Outcome, Path, copy_found, copy_pairs, joined, push_passed};
use crate::sought::Sought;
use codeco_terms::{Element, Rule, Value};
use derivation_trees::{
    Binds, Places, Setting, Tree, Trees, closed, fits, is_instance, may_start, own_values, under,
};
use lists::List;
use scopes::{Access, Test};
use std::alloc::Global;
use wiki_base::Memory;

// A rule with its number, which is 1 for the first.
#[derive(Clone, Copy)]
struct Numbered<'a> {
    number: u16,
    rule: &'a Rule,
}

// Adds the paths after each of the children.
#[tactic(auto, using(crate::proofs::LoopLemmas::paths_push))]
fn push_children(
    alloc: Global,
    path: &Path,
    children: &[Outcome],
    out: &mut List<Path>,
) -> Result<(), Memory>
    ensures { OnOk result (map path_of out.new
        ≡ map path_of out.old ++ map (enumeration.joined (path_of path.now)) (map outcome_of children.now)) }
{
    for child in children {
        let next = joined(alloc, path, child)?;
        out.push(next)?;
    }
    Ok(())
}

// Adds the paths after one element.
#[cycle(listing)]
fn push_steps(
    alloc: Global,
    setting: &Setting<'_>,
    depth: usize,
    values: &[(u8, Value)],
    element: &Element,
    path: &Path,
    out: &mut List<Path>,
) -> Result<(), Memory>
    requires limited { IsLimited setting.now.grammar }
    requires within { IsWithin setting.now.grammar element.now }

    ensures { OnOk result (map path_of out.new ≡ map path_of out.old
        ++ enumeration.steps setting.now (enumeration.trees_of setting.now depth) values.now element.now (path_of path.now)) }
{
    match element {
        Element::Sub(category) => {
            let wanted = under(alloc, values, category)?;
            let sought = Sought {
                wanted: &wanted,
                place: path.place,
                list: &path.list,
            };
            let children = trees_of(alloc, setting, depth, &sought)?;
            push_children(alloc, path, children.as_slice(), out)
        }
        _ => push_passed(alloc, setting, values, element, path, out),
    }
}

// The paths after one element, from each of these.
#[cycle(listing)]
pub(crate) fn step_all(
    alloc: Global,
    setting: &Setting<'_>,
    depth: usize,
    values: &[(u8, Value)],
    element: &Element,
    paths: &[Path],
) -> Result<List<Path>, Memory>
    requires limited { IsLimited setting.now.grammar }
    requires within { IsWithin setting.now.grammar element.now }

    ensures { IfOk result (λ out. map path_of out
        ≡ flat_map (enumeration.steps setting.now (enumeration.trees_of setting.now depth) values.now element.now) (map path_of paths.now)) }
{
    let mut out = List::new(alloc);
    for path in paths {
        push_steps(alloc, setting, depth, values, element, path, &mut out)?;
    }
    Ok(out)
}

// The path at the start of a node.
pub(crate) fn opened(
    alloc: Global,
    rule: &Rule,
    values: &[(u8, Value)],
    place: u16,
    list: &Access,
) -> Result<Path, Memory>
    ensures { IfOk result (λ path. path_of path ≡ enumeration.opened rule.now values.now (at_of (place, list.now))) }
{
    let own = own_values(alloc, rule, values)?;
    Ok(Path {
        found: List::new(alloc),
        own: copy_pairs(alloc, own)?,
        children: Trees::new(alloc),
        place,
        list: list.share()?,
    })
}

// The paths after all elements.
#[cycle(listing)]
fn run_all(
    alloc: Global,
    setting: &Setting<'_>,
    depth: usize,
    values: &[(u8, Value)],
    body: &[Element],
    start: Path,
) -> Result<List<Path>, Memory>
    requires limited { IsLimited setting.now.grammar }
    requires within { All (IsWithin setting.now.grammar) body.now }

    ensures { IfOk result (λ out. map path_of out
        ≡ enumeration.all_steps setting.now (enumeration.trees_of setting.now depth) values.now body.now (path_of start ∷ [])) }
{
    let mut paths = List::new(alloc);
    paths.push(start)?;
    for element in body {
        paths = step_all(alloc, setting, depth, values, element, paths.as_slice())?;
    }
    Ok(paths)
}

// The instance as the values of a tree.
fn binds(alloc: Global, values: &[(u8, Value)]) -> Result<Binds, Memory>
    ensures { IfOk result (λ binds. binds ≡ values.now) }
{
    let mut binds = Binds::new(alloc);
    for pair in values {
        binds.push(*pair)?;
    }
    Ok(binds)
}

fn places(alloc: Global, found: &[u16]) -> Result<Places, Memory>
    ensures { IfOk result (λ places. places ≡ found.now) }
{
    let mut places = Places::new(alloc);
    for pos in found {
        places.push(*pos)?;
    }
    Ok(places)
}

// The tree at the end of a path.
fn ended_path(
    alloc: Global,
    numbered: &Numbered<'_>,
    values: &[(u8, Value)],
    begun: &Access,
    path: &Path,
) -> Result<Outcome, Memory>
    requires { Begins begun.now path.now.list }
    ensures { IfOk result (λ outcome. outcome_of outcome
        ≡ enumeration.ended_path numbered.now.number numbered.now.rule.now values.now begun.now (path_of path.now)) }
{
    let tree = Tree {
        rule: numbered.number,
        values: binds(alloc, values)?,
        found: places(alloc, path.found.as_slice())?,
        children: path.children.copy(alloc)?,
    };
    let list = closed(numbered.rule, begun, path.list.share()?)?;
    Ok(Outcome {
        tree,
        place: path.place,
        list,
    })
}

// Adds the trees at the ends of the paths.
#[tactic(auto, using(crate::proofs::LoopLemmas::outcomes_push))]
fn push_ends(
    alloc: Global,
    numbered: &Numbered<'_>,
    values: &[(u8, Value)],
    begun: &Access,
    paths: &[Path],
    out: &mut List<Outcome>,
) -> Result<(), Memory>
    requires { All (λ path. Begins begun.now path.list) paths.now }
    ensures { OnOk result (map outcome_of out.new ≡ map outcome_of out.old
        ++ map (enumeration.ended_path numbered.now.number numbered.now.rule.now values.now begun.now) (map path_of paths.now)) }
{
    for path in paths {
        let outcome = ended_path(alloc, numbered, values, begun, path)?;
        out.push(outcome)?;
    }
    Ok(())
}

// Whether the values are an instance of the rule whose head fits the category.
pub(crate) fn may_begin(
    alloc: Global,
    setting: &Setting<'_>,
    rule: &Rule,
    wanted: &Test,
    values: &[(u8, Value)],
) -> Result<bool, Memory>
    ensures { IfOk result (λ yes. yes ≡ enumeration.may_begin setting.now rule.now wanted.now values.now) }
{
    let head = under(alloc, values, &rule.head)?;
    if !fits(&head, wanted) {
        return Ok(false);
    }
    is_instance(alloc, setting, rule, values)
}

// Adds the trees at the ends of the paths, where the values are an instance whose head fits.
#[tactic(auto, using(crate::proofs::LoopLemmas::nothing_ended))]
fn push_instance_ends(
    alloc: Global,
    setting: &Setting<'_>,
    sought: &Sought<'_>,
    numbered: &Numbered<'_>,
    values: &[(u8, Value)],
    paths: &[Path],
    out: &mut List<Outcome>,
) -> Result<(), Memory>
    requires { All (λ path. Begins sought.now.list.now path.list) paths.now }
    ensures { OnOk result (map outcome_of out.new
        ≡ map outcome_of out.old ++ (if enumeration.may_begin setting.now numbered.now.rule.now sought.now.wanted.now values.now
        then map (enumeration.ended_path numbered.now.number numbered.now.rule.now values.now sought.now.list.now) (map path_of paths.now) else [])) }
{
    if paths.len() == 0 || !may_begin(alloc, setting, numbered.rule, sought.wanted, values)? {
        return Ok(());
    }
    push_ends(alloc, numbered, values, sought.list, paths, out)
}

// Adds the trees with the rule and the instance.
#[tactic(auto, using(crate::proofs::LoopLemmas::no_more_where))]
#[cycle(listing)]
fn push_instance_trees(
    alloc: Global,
    setting: &Setting<'_>,
    depth: usize,
    sought: &Sought<'_>,
    numbered: &Numbered<'_>,
    values: &[(u8, Value)],
    out: &mut List<Outcome>,
) -> Result<(), Memory>
    requires limited { IsLimited setting.now.grammar }
    requires within { All (IsWithin setting.now.grammar) numbered.now.rule.now.body }

    ensures { OnOk result (map outcome_of out.new ≡ map outcome_of out.old
        ++ enumeration.instance_trees setting.now (enumeration.trees_of setting.now depth) sought.now.wanted.now (start_of sought.now) numbered.now.number
        numbered.now.rule.now values.now) }
{
    let rule = numbered.rule;
    let head = under(alloc, values, &rule.head)?;
    if !fits(&head, sought.wanted) {
        return Ok(());
    }
    let start = opened(alloc, rule, values, sought.place, sought.list)?;
    let paths = run_all(alloc, setting, depth, values, rule.body.as_slice(), start)?;
    push_instance_ends(
        alloc,
        setting,
        sought,
        numbered,
        values,
        paths.as_slice(),
        out,
    )
}

// Adds the trees with the rule.
#[cycle(listing)]
fn push_rule_trees(
    alloc: Global,
    setting: &Setting<'_>,
    depth: usize,
    sought: &Sought<'_>,
    numbered: &Numbered<'_>,
    out: &mut List<Outcome>,
) -> Result<(), Memory>
    requires limited { IsLimited setting.now.grammar }
    requires within { All (IsWithin setting.now.grammar) numbered.now.rule.now.body }

    ensures { OnOk result (map outcome_of out.new ≡ map outcome_of out.old
        ++ enumeration.rule_trees setting.now (enumeration.trees_of setting.now depth) sought.now.wanted.now (start_of sought.now) numbered.now.number
        numbered.now.rule.now) }
{
    let rule = numbered.rule;
    if rule.head.name != sought.wanted.name
        || !may_start(setting, sought.place, rule.body.as_slice())
    {
        return Ok(());
    }
    let made = instances(alloc, setting, rule, sought.wanted)?;
    push_all_instances(
        alloc,
        setting,
        depth,
        sought,
        numbered,
        made.as_slice(),
        out,
    )
}

// Adds the trees with the rule and each of the instances.
#[cycle(listing)]
fn push_all_instances(
    alloc: Global,
    setting: &Setting<'_>,
    depth: usize,
    sought: &Sought<'_>,
    numbered: &Numbered<'_>,
    made: &[Bound],
    out: &mut List<Outcome>,
) -> Result<(), Memory>
    requires limited { IsLimited setting.now.grammar }
    requires within { All (IsWithin setting.now.grammar) numbered.now.rule.now.body }

    ensures { OnOk result (map outcome_of out.new ≡ map outcome_of out.old
        ++ flat_map (enumeration.instance_trees setting.now (enumeration.trees_of setting.now depth) sought.now.wanted.now (start_of sought.now)
        numbered.now.number numbered.now.rule.now) made.now) }
{
    for values in made {
        push_instance_trees(
            alloc,
            setting,
            depth,
            sought,
            numbered,
            values.as_slice(),
            out,
        )?;
    }
    Ok(())
}

// The number after a rule's.
fn next_number(number: u16) -> Result<u16, Memory>
    ensures { IfOk result (λ next. next ≡ number + 1) }
{
    number.checked_add(1).ok_or(Memory)
}

// Adds the trees with any of the rules, the first of which has the number 1.
#[cycle(listing)]
fn push_rules(
    alloc: Global,
    setting: &Setting<'_>,
    depth: usize,
    sought: &Sought<'_>,
    rules: &[Rule],
    out: &mut List<Outcome>,
) -> Result<(), Memory>
    requires limited { IsLimited setting.now.grammar }
    requires within { All (λ rule. All (IsWithin setting.now.grammar) rule.body) rules.now }

    ensures { OnOk result (map outcome_of out.new ≡ map outcome_of out.old
        ++ enumeration.rules_trees setting.now (enumeration.trees_of setting.now depth) sought.now.wanted.now (start_of sought.now) 1 rules.now) }
{
    let mut number: u16 = 1;
    for rule in rules {
        let numbered = Numbered { number, rule };
        push_rule_trees(alloc, setting, depth, sought, &numbered, out)?;
        number = next_number(number)?;
    }
    Ok(())
}

// The trees for a category at a place and a list, up to a depth.
#[tactic(auto, using(crate::proofs::LoopLemmas::all_limited))]
#[cycle(listing)]
pub(crate) fn trees_of(
    alloc: Global,
    setting: &Setting<'_>,
    depth: usize,
    sought: &Sought<'_>,
) -> Result<List<Outcome>, Memory>
    requires { IsLimited setting.now.grammar }

    ensures { IfOk result (λ out. map outcome_of out
        ≡ enumeration.trees_of setting.now depth sought.now.wanted.now (start_of sought.now)) }
{
    let mut out = List::new(alloc);
    if depth > 0 {
        let rules = setting.grammar.rules().as_slice();
        push_rules(alloc, setting, depth - 1, sought, rules, &mut out)?;
    }
    Ok(out)
}
