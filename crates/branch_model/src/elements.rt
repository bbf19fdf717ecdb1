// The elements of a branch's model.
ghost use Rattle.std.specs.Prelude.{◌≡◌, ◌+◌, ◌<◌, true, OnOk, IfOk, length};
ghost use Rattle.logic_terms.specs.Known.{theory_of};
ghost use Rattle.tableau_rules.specs.Blocking.{is_directly_blocked};
ghost use Rattle.tableau_rules.specs.Shown.{graph_of};
ghost use Rattle.branch_model.specs.Elements.{ParentsBelow, IsTwin, ArePlaced};

use logic_terms::Knowledge;
use std::alloc::Global;
use tableau_rules::{Branch, is_directly_blocked, is_indirectly_blocked, root_count, same_set};
use wiki_base::Memory;

// The nodes that own the elements, in order, and the element of each node that is not indirectly blocked.
#[derive(Drop)]
pub(crate) struct Elements {
    pub(crate) owners: Vec<u64>,
    pub(crate) stands: Vec<Option<u64>>,
}

pub(crate) fn find_elements(alloc: Global, k: &Knowledge, b: &Branch) -> Result<Elements, Memory>
    requires { ParentsBelow (graph_of b.now) }
    ensures { IfOk result (λ made. ArePlaced (theory_of k.now) (graph_of b.now) (length (graph_of b.now).nodes) made.owners.items made.stands.items) }
{
    let mut owners = Vec::new(alloc);
    let mut stands = Vec::new(alloc);
    for node in 0..b.len() {
        place(k, b, node, &mut owners, &mut stands)?;
    }
    Ok(Elements { owners, stands })
}

// Gives the next node its element.
fn place(
    k: &Knowledge,
    b: &Branch,
    node: u64,
    owners: &mut Vec<u64>,
    stands: &mut Vec<Option<u64>>,
) -> Result<(), Memory>
    requires parents { ParentsBelow (graph_of b.now) }
    requires placed { ArePlaced (theory_of k.now) (graph_of b.now) node owners.old.items stands.old.items }
    ensures { OnOk result (ArePlaced (theory_of k.now) (graph_of b.now) (node + 1) owners.new.items stands.new.items) }
{
    if is_indirectly_blocked(k, b, node) {
        stands.push(None)?;
        return Ok(());
    }
    if is_directly_blocked(k, b, node) {
        let stand = stands[twin_of(k, b, node) as usize];
        stands.push(stand)?;
        return Ok(());
    }
    let element = owners.len() as u64;
    owners.push(node)?;
    stands.push(Some(element))?;
    Ok(())
}

// The node that blocks a directly blocked one.
fn twin_of(k: &Knowledge, b: &Branch, node: u64) -> u64
    requires parents { ParentsBelow (graph_of b.now) }
    requires blocked { is_directly_blocked (theory_of k.now) (graph_of b.now) node ≡ true }
    ensures { IsTwin (theory_of k.now) (graph_of b.now) node result }
{
    let named = root_count(k);
    let mut at = node;
    while let Some(parent) = b.parent(at) {
        if parent >= named && same_set(b.label(node), b.label(parent)) {
            return parent;
        }
        at = parent;
    }
    at
}
