// Which nodes wait for others to grow: a list for each node.
ghost use Rattle.std.specs.Prelude.{◌≡◌, ℕ, ◌<◌, ◌≤◌, ◌∷◌, ◌++◌, ◌⊎◌, [], true, false, length, slice_set, slice_index_or, Some, None, OnOk, OnErr};
ghost use Rattle.logic_terms.specs.Concept.{Concept};
ghost use Rattle.logic_terms.specs.Known.{theory_of};
ghost use Rattle.logic_terms.specs.Meaning.{some_below};
ghost use Rattle.logic_terms.specs.Parts.{some_part};
ghost use Rattle.logic_terms.specs.declared.expressions.Role.{Role as OneRole};
ghost use Rattle.tableau_rules.specs.Blocking.{is_indirectly_blocked};
ghost use Rattle.tableau_rules.specs.Graph.{class_at};
ghost use Rattle.tableau_rules.specs.Neighbours.{is_neighbour};
ghost use Rattle.tableau_rules.specs.Rules.{serves};
ghost use Rattle.tableau_rules.specs.Shown.{graph_of};
ghost use Rattle.agenda.specs.Resting.{waits_for, way_up};
ghost use Rattle.agenda.specs.Views.{is_listed, Lists, AreWaitedFor, IsWaitedFor};

use crate::edging::{far_end, server};
use lists::List;
use logic_terms::Knowledge;
use tableau_rules::{Branch, is_indirectly_blocked};
use wiki_base::Memory;

// Adds empty lists until a node has one.
fn reach(waiting: &mut Vec<List<u64>>, node: u64) -> Result<(), Memory>
    ensures same { (z : ℕ) → slice_index_or waiting.new.items z [] ≡ slice_index_or waiting.old.items z [] }
    ensures ok { OnOk result (node < length waiting.new.items) }
{
    let alloc = *waiting.allocator();
    while waiting.len() as u64 <= node {
        waiting.push(List::new(alloc))?;
    }
    Ok(())
}

fn add_at(waiting: &mut Vec<List<u64>>, node: u64, item: u64) -> Result<(), Memory>
    requires { node < length waiting.old.items }
    ensures { OnOk result (waiting.new.items ≡ slice_set waiting.old.items node (slice_index_or waiting.old.items node [] ++ item ∷ [])) }
{
    let own = &mut waiting[node as usize];
    own.push(item)
}

// Puts a node into the list of another one.
fn add(waiting: &mut Vec<List<u64>>, node: u64, item: u64) -> Result<(), Memory>
    ensures there { OnOk result (is_listed waiting.new.items node item ≡ true) }
    ensures more { OnOk result (Lists waiting.old.items waiting.new.items) }
{
    reach(waiting, node)?;
    add_at(waiting, node, item)
}

// Lets a node wait for another one and for the ancestors of that.
pub(crate) fn wait(
    waiting: &mut Vec<List<u64>>,
    b: &Branch,
    from: u64,
    item: u64,
) -> Result<(), Memory>
    ensures there { OnOk result (waits_for (is_listed waiting.new.items) item (way_up (graph_of b.now) from) ≡ true) }
    ensures more { OnOk result (Lists waiting.old.items waiting.new.items) }
{
    add(waiting, from, item)?;
    let mut at = from;
    let mut left = from;
    while left > 0 {
        match b.parent(at) {
            Some(parent) => {
                add(waiting, parent, item)?;
                at = parent;
                left -= 1;
            }
            None => return Ok(()),
        }
    }
    Ok(())
}

// Lets a node wait for what blocks its indirectly blocked neighbours.
pub(crate) fn wait_for_blocked(
    waiting: &mut Vec<List<u64>>,
    k: &Knowledge,
    b: &Branch,
    node: u64,
) -> Result<(), Memory>
    ensures there { OnOk result (AreWaitedFor (theory_of k.now) (graph_of b.now) (is_listed waiting.new.items) node) }
    ensures more { OnOk result (Lists waiting.old.items waiting.new.items) }
{
    for edge in b.edges_at(node) {
        let other = far_end(node, *edge);
        if is_indirectly_blocked(k, b, other) {
            wait(waiting, b, other, node)?;
        }
    }
    Ok(())
}

// Lets a node wait for what may block the neighbours that serve it.
pub(crate) fn wait_for_servers(
    waiting: &mut Vec<List<u64>>,
    k: &Knowledge,
    b: &Branch,
    node: u64,
) -> Result<(), Memory>
    ensures there { OnOk result ((place : ℕ) → IsWaitedFor (theory_of k.now) (graph_of b.now) (is_listed waiting.new.items) node place) }
    ensures more { OnOk result (Lists waiting.old.items waiting.new.items) }
{
    for place in 0..b.label_len(node) {
        wait_for_server(waiting, k, b, node, place)?;
    }
    Ok(())
}

fn wait_for_server(
    waiting: &mut Vec<List<u64>>,
    k: &Knowledge,
    b: &Branch,
    node: u64,
    place: u64,
) -> Result<(), Memory>
    ensures there { OnOk result (IsWaitedFor (theory_of k.now) (graph_of b.now) (is_listed waiting.new.items) node place) }
    ensures more { OnOk result (Lists waiting.old.items waiting.new.items) }
{
    match b.class(node, place) {
        Some(class) => match class.existential() {
            Some(parts) => match server(k, b, parts.0, parts.1, node) {
                Some(other) => wait(waiting, b, other, node),
                None => Ok(()),
            },
            None => Ok(()),
        },
        None => Ok(()),
    }
}

// The nodes that wait for a node.
pub(crate) fn waiting_for(waiting: &Vec<List<u64>>, node: u64) -> &[u64]
    ensures { result.now ≡ slice_index_or waiting.now.items node [] }
{
    match waiting.get(node as usize) {
        Some(own) => own.as_slice(),
        None => &[],
    }
}

// Empties the list of a node.
pub(crate) fn empty(waiting: &mut Vec<List<u64>>, node: u64)
    ensures { (z x : ℕ) → (node ≡ z → ⊥) → is_listed waiting.old.items z x ≡ true → is_listed waiting.new.items z x ≡ true }
{
    let place = node as usize;
    if place < waiting.len() {
        let own = &mut waiting[place];
        own.truncate(0);
    }
}
