// Trees with where they lead, of which the lowest is kept for each end.
ghost use Rattle.std.specs.Prelude.{◌≡◌, ◌≢◌, ◌<◌, ◌∷◌, [], ◌++◌, ℕ, IsTrue, IfOk, OnOk, Some, length, slice_get};
ghost use Rattle.derivation_trees.specs.Trees.{node_of, nodes_of, node, nodes_from};
ghost use Rattle.chart_trees.specs.Order.{Lower, AtMost};
ghost use Rattle.chart_trees.specs.Outcomes as ends;
ghost use Rattle.chart_trees.specs.Paths.{path_of};

use crate::codes::{code_of, is_lower, same_code};
use crate::paths::Path;
use chart_table::tail_of;
use codeco_terms::{Rule, Value};
use derivation_trees::{Binds, Places, Tree};
use lists::List;
use scopes::Access;
use std::alloc::Global;
use wiki_base::Memory;

// A tree with its code, the place after it, and what it adds to the list.
#[derive(Drop)]
pub(crate) struct Outcome {
    pub(crate) tree: Tree,
    pub(crate) code: List<u16>,
    pub(crate) place: u16,
    pub(crate) tail: Access,
}

// Where an outcome belongs among others: nowhere, since one with its end is as low; in the place of one with its end that
// isn't; or at the end.
#[derive(Drop)]
pub(crate) enum Seat {
    Taken,
    At(usize),
    Free,
}

fn same_end(one: &Outcome, other: &Outcome) -> bool
    ensures place { IsTrue result → one.now.place ≡ other.now.place }
    ensures tail { IsTrue result → one.now.tail ≡ other.now.tail }
{
    one.place == other.place && one.tail.is_same(&other.tail)
}

// Whether the outcome leads to the other's end with a code that is not above.
fn stands_for(old: &Outcome, new: &Outcome) -> bool
    ensures place { IsTrue result → old.now.place ≡ new.now.place }
    ensures tail { IsTrue result → old.now.tail ≡ new.now.tail }
    ensures code { IsTrue result → AtMost old.now.code new.now.code }
{
    if !same_end(old, new) {
        return false;
    }
    if same_code(old.code.as_slice(), new.code.as_slice()) {
        return true;
    }
    is_lower(old.code.as_slice(), new.code.as_slice())
}

// Where the outcome belongs.
fn seat_of(outcomes: &[Outcome], new: &Outcome) -> Seat
    ensures { ends.IsSeat outcomes.now new.now result }
{
    for (place, old) in outcomes.iter().enumerate() {
        if stands_for(old, new) {
            return Seat::Taken;
        }
        if stands_for(new, old) {
            return Seat::At(place);
        }
    }
    Seat::Free
}

// Adds the outcome, unless one with its end is as low; a higher one with its end is left out.
pub(crate) fn put(new: Outcome, out: &mut List<Outcome>) -> Result<(), Memory>
    ensures { OnOk result (ends.IsPut new out.old out.new) }
{
    match seat_of(out.as_slice(), &new) {
        Seat::Taken => Ok(()),
        Seat::At(place) => {
            out.set(place, new);
            Ok(())
        }
        Seat::Free => {
            out.push(new)?;
            Ok(())
        }
    }
}

// The instance as the values of a tree.
fn binds(alloc: Global, values: &[(u8, Value)]) -> Result<Binds, Memory>
    ensures { IfOk result (λ binds. binds ≡ values.now) }
{
    let mut binds = Binds::new(alloc);
    for pair in values {
        binds.push(*pair)?;
    }
    Ok(binds)
}

fn places(alloc: Global, found: &[u16]) -> Result<Places, Memory>
    ensures { IfOk result (λ places. places ≡ found.now) }
{
    let mut places = Places::new(alloc);
    for pos in found {
        places.push(*pos)?;
    }
    Ok(places)
}

// The tree at the end of a path.
fn tree_of(alloc: Global, number: u16, values: &[(u8, Value)], path: &Path) -> Result<Tree, Memory>
    ensures { IfOk result (λ tree. node_of tree ≡ node number values.now path.now.found (nodes_from (nodes_of path.now.children))) }
{
    Ok(Tree {
        rule: number,
        values: binds(alloc, values)?,
        found: places(alloc, path.found.as_slice())?,
        children: path.children.copy(alloc)?,
    })
}

// The outcome at the end of a path.
fn ended(
    alloc: Global,
    number: u16,
    rule: &Rule,
    values: &[(u8, Value)],
    begun: &Access,
    path: &Path,
) -> Result<Outcome, Memory>
    ensures { IfOk result (ends.IsEnded number rule.now values.now begun.now (path_of path.now)) }
{
    let tree = tree_of(alloc, number, values, path)?;
    let code = code_of(alloc, &tree)?;
    let tail = tail_of(alloc, rule, begun, &path.list)?;
    Ok(Outcome {
        tree,
        code,
        place: path.place,
        tail,
    })
}

// Adds the outcomes at the ends of the paths.
pub(crate) fn push_ended(
    alloc: Global,
    number: u16,
    rule: &Rule,
    values: &[(u8, Value)],
    begun: &Access,
    paths: &[Path],
    out: &mut List<Outcome>,
) -> Result<(), Memory>
    ensures { OnOk result (ends.HasEnded number rule.now values.now begun.now paths.now out.old out.new) }
{
    for path in paths {
        let outcome = ended(alloc, number, rule, values, begun, path)?;
        put(outcome, out)?;
    }
    Ok(())
}
