// Branches.
ghost use Rattle.std.specs.Prelude.{◌≡◌, ◌<◌, [], ◌∷◌, ◌++◌, List, map, length, slice_get, None, Some, MatchOption, IfOk, OnOk, OnErr};
ghost use Rattle.logic_terms.specs.Shown.{concept_of, concepts_of};
ghost use Rattle.tableau_rules.specs.Graph.{Graph, Vertex, label_at, class_at, parent_of};
ghost use Rattle.tableau_rules.specs.Rules.{grown, with_edge, with_node};
ghost use Rattle.tableau_rules.specs.Shown.{graph_of, vertex_of};
ghost use Rattle.tableau_rules.specs.Touching.{edges_at};

use crate::edges::Edges;
use logic_terms::{Class, Classes, Role};
use std::alloc::Global;
use wiki_base::Memory;

/// An edge from a node to a node. The role is as it was written, which may be inverted.
#[derive(Clone, Copy, Debug, PartialEq, Eq)]
pub struct Edge {
    pub from: u64,
    pub role: Role,
    pub to: u64,
}

/// A node: the node that made it, where one did, and the classes that its element is to be in.
#[derive(Drop)]
pub struct Node {
    parent: Option<u64>,
    label: Classes,
}

/// A branch of a search: nodes, each by its place, and edges between them.
#[derive(Drop)]
pub struct Branch {
    nodes: Vec<Node>,
    edges: Edges,
}

impl Node {
    pub(crate) fn new(parent: Option<u64>, label: Classes) -> Self
        ensures { vertex_of result ≡ record { parent = parent; label = concepts_of label } }
    {
        Node { parent, label }
    }

    /// The node that made it; none at a node of the start.
    pub fn parent(&self) -> Option<u64>
        ensures { result ≡ (vertex_of self.now).parent }
    {
        self.parent
    }

    /// The classes of its label, in the order in which they were added.
    pub fn label(&self) -> &Classes
        ensures { concepts_of result.now ≡ (vertex_of self.now).label }
    {
        &self.label
    }

    fn copy(&self) -> Result<Self, Memory>
        ensures { IfOk result (λ copied. vertex_of copied ≡ vertex_of self.now) }
    {
        Ok(Node {
            parent: self.parent,
            label: self.label.copy()?,
        })
    }
}

impl Branch {
    // Nodes without edges.
    pub(crate) fn new(nodes: Vec<Node>) -> Self
        ensures { graph_of result ≡ record { nodes = map vertex_of nodes.items; edges = [] } }
    {
        let edges = Edges::new(*nodes.allocator());
        Branch { nodes, edges }
    }

    /// The nodes, each by its place.
    pub fn nodes(&self) -> &[Node]
        ensures { map vertex_of result.now ≡ (graph_of self.now).nodes }
    {
        self.nodes.as_slice()
    }

    /// The edges, in the order in which they were added.
    pub fn edges(&self) -> &[Edge]
        ensures { result.now ≡ (graph_of self.now).edges }
    {
        self.edges.as_slice()
    }

    /// The edges that lead from a node or to it, in the order in which they were added. It takes no memory.
    pub fn edges_at(&self, node: u64) -> &[Edge]
        ensures { result.now ≡ edges_at (graph_of self.now).edges node }
    {
        self.edges.at(node)
    }

    /// The label of a node, and no classes for any other number. It takes no memory.
    pub fn label(&self, node: u64) -> &[Class]
        ensures { map concept_of result.now ≡ label_at (graph_of self.now) node }
    {
        match self.nodes.get(node as usize) {
            Some(found) => found.label.as_slice(),
            None => &[],
        }
    }

    /// The class at a place of a node's label, if there is one. It takes no memory.
    pub fn class(&self, node: u64, place: u64) -> Option<&Class>
        ensures { MatchOption result (class_at (graph_of self.now) node place ≡ None) (λ c. class_at (graph_of self.now) node place ≡ Some (concept_of c.now)) }
    {
        self.label(node).get(place as usize)
    }

    /// How many classes a node's label has. It takes no memory.
    pub fn label_len(&self, node: u64) -> u64
        ensures { result ≡ length (label_at (graph_of self.now) node) }
    {
        self.label(node).len() as u64
    }

    /// How many nodes there are.
    pub fn len(&self) -> u64
        ensures { result ≡ length (graph_of self.now).nodes }
    {
        self.nodes.len() as u64
    }

    /// The node that made a node. It takes no memory.
    pub fn parent(&self, node: u64) -> Option<u64>
        ensures { result ≡ parent_of (graph_of self.now) node }
    {
        match self.nodes.get(node as usize) {
            Some(found) => found.parent,
            None => None,
        }
    }

    /// The edge at a place, if there is one. It takes no memory.
    pub fn edge(&self, place: u64) -> Option<Edge>
        ensures { result ≡ slice_get (graph_of self.now).edges place }
    {
        self.edges.as_slice().get(place as usize).copied()
    }

    /// How many edges there are. It takes no memory.
    pub fn edge_count(&self) -> u64
        ensures { result ≡ length (graph_of self.now).edges }
    {
        self.edges.as_slice().len() as u64
    }

    pub(crate) fn allocator(&self) -> Global {
        *self.nodes.allocator()
    }

    // Adds classes at the end of a node's label, unchanged where memory is refused.
    pub(crate) fn grow(&mut self, node: u64, more: Classes) -> Result<(), Memory>
        ensures ok { OnOk result (graph_of self.new ≡ grown (graph_of self.old) node (concepts_of more)) }
        ensures err { OnErr result (graph_of self.new ≡ graph_of self.old) }
    {
        let place = node as usize;
        if place < self.nodes.len() {
            let found = &mut self.nodes[place];
            found.label.append(more)?;
        }
        Ok(())
    }

    // Adds an edge, unchanged where memory is refused.
    pub(crate) fn join(&mut self, edge: Edge) -> Result<(), Memory>
        ensures ok { OnOk result (graph_of self.new ≡ with_edge (graph_of self.old) edge) }
        ensures err { OnErr result (graph_of self.new ≡ graph_of self.old) }
    {
        self.edges.push(edge)
    }

    // Adds a node and an edge, unchanged where memory is refused.
    pub(crate) fn sprout(&mut self, node: Node, edge: Edge) -> Result<(), Memory>
        ensures ok { OnOk result (graph_of self.new ≡ with_node (graph_of self.old) (vertex_of node) edge) }
        ensures err { OnErr result (graph_of self.new ≡ graph_of self.old) }
    {
        self.nodes.push(node)?;
        match self.edges.push(edge) {
            Ok(()) => Ok(()),
            Err(_) => {
                let _ = self.nodes.pop();
                Err(Memory)
            }
        }
    }

    /// An equal branch in memory of its own.
    pub fn copy(&self) -> Result<Branch, Memory>
        ensures { IfOk result (λ copied. graph_of copied ≡ graph_of self.now) }
    {
        let mut nodes = Vec::with_capacity(self.allocator(), self.nodes.len())?;
        for node in &self.nodes {
            nodes.push(node.copy()?)?;
        }
        let edges = self.edges.copy()?;
        Ok(Branch { nodes, edges })
    }
}
