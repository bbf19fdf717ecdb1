// States that are equal, of which one is kept.
ghost use Rattle.std.specs.Prelude.{◌≡◌, ◌↔◌, ℕ, List, IfOk, IsTrue, OnOk};
ghost use Rattle.codeco_terms.specs.declared.values.Value.{Value as OneValue};
ghost use Rattle.derivation_trees.specs.Derives.{At};
ghost use Rattle.chart_table.specs.Merging as merging;

use crate::instances::same_bound;
use crate::states::State;
use lists::List;
use std::alloc::Global;
use wiki_base::Memory;

fn is_state(one: &State, other: &State) -> bool
    ensures { IsTrue result ↔ one.now ≡ other.now }
{
    one.place == other.place
        && same_bound(one.binds.as_slice(), other.binds.as_slice())
        && one.list.is_same(&other.list)
}

fn has_state(states: &[State], state: &State) -> bool
    ensures { IsTrue result → merging.HasState states.now state.now }
{
    for other in states {
        if is_state(other, state) {
            return true;
        }
    }
    false
}

// Adds the state, where it isn't there yet.
fn push_new(state: State, out: &mut List<State>) -> Result<(), Memory>
    ensures { OnOk result (merging.CoverAlso out.old state out.new) }
{
    if has_state(out.as_slice(), &state) {
        return Ok(());
    }
    out.push(state)?;
    Ok(())
}

// The states, each once, in whatever order.
pub(crate) fn merged(alloc: Global, states: List<State>) -> Result<List<State>, Memory>
    ensures { IfOk result (merging.CoverAlike states) }
{
    if states.len() < 2 {
        return Ok(states);
    }
    let mut rest = states;
    let mut out = List::from_vec(Vec::with_capacity(alloc, rest.len())?);
    while let Some(state) = rest.pop() {
        push_new(state, &mut out)?;
    }
    Ok(out)
}
