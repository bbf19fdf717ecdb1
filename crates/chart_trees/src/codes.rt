// The codes of trees, and which of two is lower.
ghost use Rattle.std.specs.Prelude.{◌≡◌, ◌<◌, ◌++◌, IsTrue, IfOk, OnOk, take};
ghost use Rattle.derivation_trees.specs.Trees.{node_of, nodes_of};
ghost use Rattle.chart_trees.specs.Order.{Lower, node_code, codes};

use derivation_trees::{Tree, Trees};
use lists::List;
use std::alloc::Global;
use wiki_base::Memory;

fn push_found(found: &[u16], code: &mut List<u16>) -> Result<(), Memory>
    ensures { OnOk result (code.new ≡ code.old ++ found.now) }
{
    for pos in found {
        code.push(*pos)?;
    }
    Ok(())
}

// Adds the code of the tree.
#[cycle(coding)]
fn push_code(tree: &Tree, code: &mut List<u16>) -> Result<(), Memory>
    ensures { OnOk result (code.new ≡ code.old ++ node_code (node_of tree.now)) }
{
    code.push(tree.rule)?;
    push_found(tree.found.as_slice(), code)?;
    push_codes(&tree.children, code)?;
    Ok(())
}

// Adds the codes of the trees, from left to right.
#[cycle(coding)]
fn push_codes(trees: &Trees, code: &mut List<u16>) -> Result<(), Memory>
    ensures { OnOk result (code.new ≡ code.old ++ codes (nodes_of trees.now)) }
{
    for place in 0..trees.len() {
        push_code(trees.get(place), code)?;
    }
    Ok(())
}

// The code of the tree.
pub(crate) fn code_of(alloc: Global, tree: &Tree) -> Result<List<u16>, Memory>
    ensures { IfOk result (λ code. code ≡ node_code (node_of tree.now)) }
{
    let mut code = List::new(alloc);
    push_code(tree, &mut code)?;
    Ok(code)
}

// The codes of the trees, one after another.
pub(crate) fn codes_of(alloc: Global, trees: &Trees) -> Result<List<u16>, Memory>
    ensures { IfOk result (λ code. code ≡ codes (nodes_of trees.now)) }
{
    let mut code = List::new(alloc);
    push_codes(trees, &mut code)?;
    Ok(code)
}

// Whether the one is lower where the two first differ.
pub(crate) fn is_lower(one: &[u16], other: &[u16]) -> bool
    ensures { IsTrue result → Lower one.now other.now }
{
    for (place, symbol) in one.iter().enumerate() {
        if place >= other.len() {
            return false;
        }
        if *symbol != other[place] {
            return *symbol < other[place];
        }
    }
    false
}

// Whether the codes are the same.
pub(crate) fn same_code(one: &[u16], other: &[u16]) -> bool
    ensures { IsTrue result → one.now ≡ other.now }
{
    one == other
}
