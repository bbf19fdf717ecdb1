// Paths of one node, of which those are left out that others stand for with no higher code.
ghost use Rattle.std.specs.Prelude.{◌≡◌, ◌∷◌, [], map, IsTrue, IfOk, OnOk};
ghost use Rattle.derivation_trees.specs.Trees.{nodes_of};
ghost use Rattle.chart_trees.specs.Earliest as first;
ghost use Rattle.chart_trees.specs.Order.{AtMost, codes};
ghost use Rattle.chart_trees.specs.Paths.{path_of};
ghost use Rattle.chart_trees.specs.Ways as ways;

use crate::codes::{codes_of, is_lower, same_code};
use crate::outcomes::Seat;
use crate::paths::Path;
use chart_table::same_bound;
use lists::List;
use std::alloc::Global;
use wiki_base::Memory;

// Whether the paths stand at the same place with the same list, and have the same variables to come.
fn same_stand(one: &Path, other: &Path) -> bool
    ensures at { IsTrue result → (path_of one.now).at ≡ (path_of other.now).at }
    ensures own { IsTrue result → one.now.own ≡ other.now.own }
{
    one.place == other.place
        && same_bound(one.own.as_slice(), other.own.as_slice())
        && one.list.is_same(&other.list)
}

// Whether the code of the children of the one is that of the other's, or lower.
fn has_low_children(alloc: Global, one: &Path, other: &Path) -> Result<bool, Memory>
    ensures { IfOk result (λ yes. IsTrue yes → AtMost (codes (nodes_of one.now.children)) (codes (nodes_of other.now.children))) }
{
    let code = codes_of(alloc, &one.children)?;
    let other_code = codes_of(alloc, &other.children)?;
    if same_code(code.as_slice(), other_code.as_slice()) {
        return Ok(true);
    }
    Ok(is_lower(code.as_slice(), other_code.as_slice()))
}

// Whether the one path stands for the other: where that leads it leads too, and the code that comes of it is no higher.
fn is_no_later(alloc: Global, one: &Path, other: &Path) -> Result<bool, Memory>
    ensures { IfOk result (λ yes. IsTrue yes → ways.IsNoLater (path_of one.now) (path_of other.now)) }
{
    if !same_stand(one, other) {
        return Ok(false);
    }
    if same_code(one.found.as_slice(), other.found.as_slice()) {
        return has_low_children(alloc, one, other);
    }
    Ok(is_lower(one.found.as_slice(), other.found.as_slice()))
}

// Where the path belongs.
fn seat_for(alloc: Global, paths: &[Path], new: &Path) -> Result<Seat, Memory>
    ensures { IfOk result (first.IsSeat paths.now new.now) }
{
    for (place, old) in paths.iter().enumerate() {
        if is_no_later(alloc, old, new)? {
            return Ok(Seat::Taken);
        }
        if is_no_later(alloc, new, old)? {
            return Ok(Seat::At(place));
        }
    }
    Ok(Seat::Free)
}

// Adds the path, unless another stands for it; one for which it stands is left out.
fn put(alloc: Global, new: Path, out: &mut List<Path>) -> Result<(), Memory>
    ensures { OnOk result (first.IsPut new out.old out.new) }
{
    match seat_for(alloc, out.as_slice(), &new)? {
        Seat::Taken => Ok(()),
        Seat::At(place) => {
            out.set(place, new);
            Ok(())
        }
        Seat::Free => {
            out.push(new)?;
            Ok(())
        }
    }
}

// Those of the paths that stand for all of them.
pub(crate) fn earliest(alloc: Global, paths: List<Path>) -> Result<List<Path>, Memory>
    ensures { IfOk result (first.StandFor paths) }
{
    if paths.len() < 2 {
        return Ok(paths);
    }
    let mut rest = paths;
    let mut out = List::new(alloc);
    while let Some(path) = rest.pop() {
        put(alloc, path, &mut out)?;
    }
    Ok(out)
}
