// The edges of a branch, with an index by node.
ghost use Rattle.std.specs.Prelude.{◌≡◌, ℕ, ◌<◌, ◌≤◌, ◌∷◌, ◌++◌, [], List, length, slice_set, IfOk, OnOk, OnErr};
ghost use Rattle.tableau_rules.specs.Touching.{edges_at, list_at, SameIndex, Notes};

use crate::branch::Edge;
use lists::List;
use std::alloc::Global;
use std::marker::Model;
use wiki_base::Memory;

// Edges in order, and for each node those that lead from it or to it.
#[derive(Drop)]
pub(crate) struct Edges {
    all: Vec<Edge>,
    by_node: Vec<List<Edge>>,
}

impl Model for Edges {
    ghost use Rattle.std.specs.Prelude.{List};
    ghost use Rattle.tableau_rules.specs.declared.branch.Edge.{Edge as OneEdge};
    ghost use Rattle.tableau_rules.specs.Touching.{IsIndex};

    ghost Value = { List OneEdge };

    ghost view = { λ e. e.all.items };

    ghost invariant = { λ e. IsIndex e.by_node.items e.all.items };
}

impl Edges {
    // No edges, which take no memory.
    pub(crate) fn new(alloc: Global) -> Self
        ensures { result ≡ [] }
    {
        Edges {
            all: Vec::new(alloc),
            by_node: Vec::new(alloc),
        }
    }

    // The edges, in the order in which they were added.
    pub(crate) fn as_slice(&self) -> &[Edge]
        ensures { result.now ≡ self.now }
    {
        self.all.as_slice()
    }

    // Those that lead from a node or to it.
    pub(crate) fn at(&self, node: u64) -> &[Edge]
        ensures { result.now ≡ edges_at self.now node }
    {
        match self.by_node.get(node as usize) {
            Some(own) => own.as_slice(),
            None => &[],
        }
    }

    // Adds an edge at the end.
    pub(crate) fn push(&mut self, edge: Edge) -> Result<(), Memory>
        ensures ok { OnOk result (self.new ≡ self.old ++ edge ∷ []) }
        ensures err { OnErr result (self.new ≡ self.old) }
    {
        self.all.push(edge)?;
        match note(&mut self.by_node, edge) {
            Ok(()) => Ok(()),
            Err(_) => {
                let _ = self.all.pop();
                Err(Memory)
            }
        }
    }

    // Equal edges in memory of their own.
    pub(crate) fn copy(&self) -> Result<Edges, Memory>
        ensures { IfOk result (λ copied. copied ≡ self.now) }
    {
        let alloc = *self.all.allocator();
        Ok(Edges {
            all: Vec::from_slice(alloc, self.all.as_slice())?,
            by_node: copied(alloc, self.by_node.as_slice())?,
        })
    }
}

fn copied(alloc: Global, lists: &[List<Edge>]) -> Result<Vec<List<Edge>>, Memory>
    ensures { IfOk result (λ copied. copied.items ≡ lists.now) }
{
    let mut copied = Vec::with_capacity(alloc, lists.len())?;
    for own in lists {
        copied.push(List::from_slice(alloc, own.as_slice())?)?;
    }
    Ok(copied)
}

// Adds an edge to the lists of its two nodes.
fn note(by_node: &mut Vec<List<Edge>>, edge: Edge) -> Result<(), Memory>
    ensures ok { OnOk result (Notes by_node.old.items by_node.new.items edge) }
    ensures err { OnErr result (SameIndex by_node.old.items by_node.new.items) }
{
    reach(by_node, edge.from)?;
    reach(by_node, edge.to)?;
    note_ends(by_node, edge)
}

// Adds empty lists until a node has one.
fn reach(by_node: &mut Vec<List<Edge>>, node: u64) -> Result<(), Memory>
    ensures same { SameIndex by_node.old.items by_node.new.items }
    ensures longer { length by_node.old.items ≤ length by_node.new.items }
    ensures ok { OnOk result (node < length by_node.new.items) }
{
    let alloc = *by_node.allocator();
    while by_node.len() as u64 <= node {
        by_node.push(List::new(alloc))?;
    }
    Ok(())
}

fn note_ends(by_node: &mut Vec<List<Edge>>, edge: Edge) -> Result<(), Memory>
    requires from { edge.from < length by_node.old.items }
    requires to { edge.to < length by_node.old.items }
    ensures ok { OnOk result (Notes by_node.old.items by_node.new.items edge) }
    ensures err { OnErr result (SameIndex by_node.old.items by_node.new.items) }
{
    add_at(by_node, edge.from, edge)?;
    if edge.from == edge.to {
        return Ok(());
    }
    match add_at(by_node, edge.to, edge) {
        Ok(()) => Ok(()),
        Err(_) => {
            drop_at(by_node, edge.from);
            Err(Memory)
        }
    }
}

fn add_at(by_node: &mut Vec<List<Edge>>, node: u64, edge: Edge) -> Result<(), Memory>
    requires { node < length by_node.old.items }
    ensures ok { OnOk result (by_node.new.items ≡ slice_set by_node.old.items node (list_at by_node.old.items node ++ edge ∷ [])) }
    ensures err { OnErr result (by_node.new.items ≡ by_node.old.items) }
{
    let own = &mut by_node[node as usize];
    own.push(edge)
}

// Takes the last edge of a node's list back.
fn drop_at(by_node: &mut Vec<List<Edge>>, node: u64)
    requires { node < length by_node.old.items }
    ensures { (own : List Edge) (e : Edge) → list_at by_node.old.items node ≡ own ++ e ∷ [] → by_node.new.items ≡ slice_set by_node.old.items node own }
{
    let own = &mut by_node[node as usize];
    let _ = own.pop();
}
