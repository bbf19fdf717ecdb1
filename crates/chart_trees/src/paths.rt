// Nodes of which some elements are passed.
ghost use Rattle.std.specs.Prelude.{◌≡◌, ◌≤◌, ◌∷◌, [], ◌++◌, IfOk, OnOk, map, length, option_map, false};
ghost use Rattle.scopes.specs.Findings.{shown};
ghost use Rattle.scopes.specs.Resolution.{closest_finding};
ghost use Rattle.derivation_trees.specs.Derives.{reference_tests};
ghost use Rattle.derivation_trees.specs.Stands.{IsWithin, at_of, is_sub};
ghost use Rattle.derivations.specs.Enumeration as enumeration;
ghost use Rattle.chart_trees.specs.Paths.{path_of, outcome_at};

use crate::outcomes::Outcome;
use codeco_terms::{Element, Patterns, Rule, Value};
use derivation_trees::{Progress, Setting, Trees, own_values, pass, tests_under};
use lists::List;
use scopes::{Access, Found, Tests};
use std::alloc::Global;
use wiki_base::Memory;

// A node of which some elements are passed: the positions that its references have found, its own variables to come, its
// children, and the place and the list where it stands.
#[derive(Drop)]
pub(crate) struct Path {
    pub(crate) found: List<u16>,
    pub(crate) own: List<(u8, Value)>,
    pub(crate) children: Trees,
    pub(crate) place: u16,
    pub(crate) list: Access,
}

fn copy_pairs(alloc: Global, pairs: &[(u8, Value)]) -> Result<List<(u8, Value)>, Memory>
    ensures { IfOk result (λ copied. copied ≡ pairs.now) }
{
    let mut copied = List::new(alloc);
    for pair in pairs {
        copied.push(*pair)?;
    }
    Ok(copied)
}

fn copy_found(alloc: Global, found: &[u16]) -> Result<List<u16>, Memory>
    ensures { IfOk result (λ copied. copied ≡ found.now) }
{
    let mut copied = List::new(alloc);
    for pos in found {
        copied.push(*pos)?;
    }
    Ok(copied)
}

// The positions, followed by others.
fn joined_found(alloc: Global, found: &[u16], more: &[u16]) -> Result<List<u16>, Memory>
    ensures { IfOk result (λ joined. joined ≡ found.now ++ more.now) }
{
    let mut joined = copy_found(alloc, found)?;
    for pos in more {
        joined.push(*pos)?;
    }
    Ok(joined)
}

// The position of what is found.
fn found_position(alloc: Global, found: Option<Found<'_>>) -> Result<List<u16>, Memory>
    ensures { IfOk result (λ positions. positions ≡ enumeration.found_position (option_map shown found.entry)) }
{
    let mut positions = List::new(alloc);
    match found {
        None => Ok(positions),
        Some(found) => {
            positions.push(found.pos)?;
            Ok(positions)
        }
    }
}

// What the backward reference finds.
fn reference_at(
    alloc: Global,
    values: &[(u8, Value)],
    positive: &Patterns,
    negative: &Patterns,
    list: &Access,
) -> Result<List<u16>, Memory>
    requires { length positive.now ≤ 16 }
    ensures { IfOk result (λ found. found
        ≡ enumeration.found_position (closest_finding (reference_tests values.now positive.now negative.now) list.now)) }
{
    let tests = Tests {
        positive: tests_under(alloc, values, positive.as_slice())?,
        negative: tests_under(alloc, values, negative.as_slice())?,
    };
    found_position(alloc, list.closest(&tests))
}

// What a backward reference finds.
fn found_at(
    alloc: Global,
    setting: &Setting<'_>,
    values: &[(u8, Value)],
    element: &Element,
    list: &Access,
) -> Result<List<u16>, Memory>
    requires { IsWithin setting.now.grammar element.now }
    ensures { IfOk result (λ found. found ≡ enumeration.found_at values.now element.now list.now) }
{
    match element {
        Element::Back(positive, negative) => reference_at(alloc, values, positive, negative, list),
        _ => Ok(List::new(alloc)),
    }
}

// Adds the path after an element that is no category.
pub(crate) fn push_passed(
    alloc: Global,
    setting: &Setting<'_>,
    values: &[(u8, Value)],
    element: &Element,
    path: &Path,
    out: &mut List<Path>,
) -> Result<(), Memory>
    requires within { IsWithin setting.now.grammar element.now }
    requires plain { is_sub element.now ≡ false }

    ensures { OnOk result (map path_of out.new
        ≡ map path_of out.old ++ enumeration.passed setting.now values.now element.now (path_of path.now)) }
{
    let found = found_at(alloc, setting, values, element, &path.list)?;
    let stand = Progress {
        place: path.place,
        list: path.list.share()?,
        found: found.as_slice(),
        own: path.own.as_slice(),
    };
    match pass(alloc, setting, values, element, stand)? {
        None => Ok(()),
        Some(stand) => {
            let next = Path {
                found: joined_found(alloc, path.found.as_slice(), found.as_slice())?,
                own: copy_pairs(alloc, stand.own)?,
                children: path.children.copy(alloc)?,
                place: stand.place,
                list: stand.list,
            };
            out.push(next)
        }
    }
}

// The path after a child.
fn joined(alloc: Global, path: &Path, child: &Outcome) -> Result<Path, Memory>
    ensures { IfOk result (λ next. path_of next ≡ enumeration.joined (path_of path.now) (outcome_at path.now.list child.now)) }
{
    let mut children = path.children.copy(alloc)?;
    children.push(child.tree.copy(alloc)?)?;
    Ok(Path {
        found: copy_found(alloc, path.found.as_slice())?,
        own: copy_pairs(alloc, path.own.as_slice())?,
        children,
        place: child.place,
        list: path.list.join(&child.tail)?,
    })
}

// Adds the paths after each of the children.
#[tactic(auto, using(crate::proofs::PathLemmas::paths_push))]
pub(crate) fn push_joined(
    alloc: Global,
    path: &Path,
    children: &[Outcome],
    out: &mut List<Path>,
) -> Result<(), Memory>
    ensures { OnOk result (map path_of out.new
        ≡ map path_of out.old ++ map (enumeration.joined (path_of path.now)) (map (outcome_at path.now.list) children.now)) }
{
    for child in children {
        let next = joined(alloc, path, child)?;
        out.push(next)?;
    }
    Ok(())
}

// The path at the start of a node.
pub(crate) fn opened(
    alloc: Global,
    rule: &Rule,
    values: &[(u8, Value)],
    place: u16,
    list: &Access,
) -> Result<Path, Memory>
    ensures { IfOk result (λ path. path_of path ≡ enumeration.opened rule.now values.now (at_of (place, list.now))) }
{
    let own = own_values(alloc, rule, values)?;
    Ok(Path {
        found: List::new(alloc),
        own: copy_pairs(alloc, own)?,
        children: Trees::new(alloc),
        place,
        list: list.share()?,
    })
}
