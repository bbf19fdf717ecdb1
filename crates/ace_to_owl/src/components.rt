// Which conditions of a structure belong together.
ghost use Rattle.std.specs.Prelude.{◌≡◌, ◌==◌, ◌<◌, ℕ, List, map, length, IfOk, OnOk};
ghost use Rattle.std.specs.List.{list_any, filter};
ghost use Rattle.logic_terms.specs.Shown.{condition_of, conditions_of};
ghost use Rattle.ace_to_owl.specs.Moves.{moved, moved_by, gathered};
ghost use Rattle.ace_to_owl.specs.Mapping.{own_terms, joined};

use crate::graph::label;
use crate::terms::{condition_terms, referents_among};
use lists::List;
use logic_terms::{Cond, Conds};
use std::alloc::Global;
use wiki_base::Memory;

/// The referents of a structure that are open in each of its conditions.
pub fn groups_of(
    alloc: Global,
    referents: &[u16],
    conditions: &Conds,
) -> Result<List<List<u16>>, Memory>
    ensures { IfOk result (λ groups. groups ≡ map (own_terms referents.now) (conditions_of conditions.now)) }
{
    let mut groups = List::new(alloc);
    for place in 0..conditions.len() {
        let own = own_terms(alloc, referents, conditions.get(place))?;
        groups.push(own)?;
    }
    Ok(groups)
}

fn own_terms(alloc: Global, referents: &[u16], condition: &Cond) -> Result<List<u16>, Memory>
    ensures { IfOk result (λ own. own ≡ own_terms referents.now (condition_of condition.now)) }
{
    let terms = condition_terms(alloc, condition)?;
    referents_among(alloc, referents, terms.as_slice())
}

/// Moves of labels after which two referents have one label where the groups join them.
pub fn joins(alloc: Global, groups: &[List<u16>]) -> Result<List<(u32, u32)>, Memory>
    ensures { IfOk result (λ moves. (q p : ℕ) → (moved_by moves q == moved_by moves p) ≡ joined groups.now q p) }
{
    let mut moves = List::new(alloc);
    let mut left = groups.len();
    while left > 0 {
        left -= 1;
        join(&mut moves, groups[left].as_slice())?;
    }
    Ok(moves)
}

// Moves the labels of a group's referents to that of the first.
fn join(moves: &mut List<(u32, u32)>, group: &[u16]) -> Result<(), Memory>
    ensures { OnOk result ((n : ℕ) → moved_by moves.new n ≡ gathered (moved_by moves.old) group.now n) }
{
    let Some(first) = group.first() else {
        return Ok(());
    };
    let target = label(moves.as_slice(), *first as u32);
    for referent in group {
        let old = label(moves.as_slice(), *referent as u32);
        move_label(moves, old, target)?;
    }
    Ok(())
}

// Moves a label to another, where they differ.
fn move_label(moves: &mut List<(u32, u32)>, from: u32, to: u32) -> Result<(), Memory>
    ensures { OnOk result ((n : ℕ) → moved_by moves.new n ≡ moved from to (moved_by moves.old n)) }
{
    if from == to {
        return Ok(());
    }
    moves.push((from, to))?;
    Ok(())
}

/// Whether a referent of one group has the label of one of another.
pub fn is_together(moves: &[(u32, u32)], own: &[u16], other: &[u16]) -> bool
    ensures { result ≡ list_any (λ q. list_any (λ p. moved_by moves.now q == moved_by moves.now p) other.now) own.now }
{
    own.iter().any(|referent| has_label(moves, label(moves, *referent as u32), other))
}

fn has_label(moves: &[(u32, u32)], wanted: u32, group: &[u16]) -> bool
    ensures { result ≡ list_any (λ p. wanted == moved_by moves.now p) group.now }
{
    group
        .iter()
        .any(|referent| wanted == label(moves, *referent as u32))
}

/// Whether a group came up already.
pub fn is_earlier(moves: &[(u32, u32)], own: &[u16], before: &[List<u16>]) -> bool
    ensures { result ≡ list_any (λ other. list_any (λ q. list_any (λ p. moved_by moves.now q == moved_by moves.now p) other) own.now) before.now }
{
    for group in before {
        if is_together(moves, own, group.as_slice()) {
            return true;
        }
    }
    false
}

fn is_labelled(moves: &[(u32, u32)], own: &[u16], referent: u16) -> bool
    ensures { result ≡ list_any (λ r. moved_by moves.now r == moved_by moves.now referent) own.now }
{
    let wanted = label(moves, referent as u32);
    own.iter()
        .any(|other| label(moves, *other as u32) == wanted)
}

/// Those of the referents that have the label of one of a group.
pub fn referents_with(
    alloc: Global,
    moves: &[(u32, u32)],
    own: &[u16],
    referents: &[u16],
) -> Result<List<u16>, Memory>
    ensures { IfOk result (λ inside. inside ≡ filter (λ q. list_any (λ r. moved_by moves.now r == moved_by moves.now q) own.now) referents.now) }
{
    let mut inside = List::new(alloc);
    for referent in referents {
        if is_labelled(moves, own, *referent) {
            inside.push(*referent)?;
        }
    }
    Ok(inside)
}
