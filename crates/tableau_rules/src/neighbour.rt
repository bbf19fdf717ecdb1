// Which nodes are neighbours.
ghost use Rattle.std.specs.Prelude.{◌≡◌, ◌&&◌, nat_lt, length};
ghost use Rattle.std.specs.List.{list_any};
ghost use Rattle.logic_terms.specs.Known.{theory_of};
ghost use Rattle.tableau_rules.specs.Shown.{graph_of};
ghost use Rattle.tableau_rules.specs.Neighbours.{makes_neighbour, is_neighbour};
ghost use Rattle.tableau_rules.specs.Touching.{far_end};

use crate::branch::{Branch, Edge};
use logic_terms::{Knowledge, Role};

/// Whether the edge makes `to` a neighbour of `from` by the role: it leads there by a role below, or back by a role
/// whose inverse is below. It takes no memory.
pub fn makes_neighbour(k: &Knowledge, role: Role, from: u64, to: u64, edge: Edge) -> bool
    ensures { result ≡ makes_neighbour (theory_of k.now) role from to edge }
{
    (edge.from == from && edge.to == to && k.is_below(edge.role, role))
        || (edge.from == to && edge.to == from && k.is_below(edge.role.inverse(), role))
}

/// Whether an edge of the branch makes `to` a neighbour of `from` by the role. It takes no memory.
pub fn is_neighbour(k: &Knowledge, b: &Branch, role: Role, from: u64, to: u64) -> bool
    ensures { result ≡ is_neighbour (theory_of k.now) (graph_of b.now) role from to }
{
    some_makes_neighbour(k, b.edges_at(from), role, from, to)
}

fn some_makes_neighbour(k: &Knowledge, edges: &[Edge], role: Role, from: u64, to: u64) -> bool
    ensures { result ≡ list_any (makes_neighbour (theory_of k.now) role from to) edges.now }
{
    edges
        .iter()
        .any(|edge| makes_neighbour(k, role, from, to, *edge))
}

// The node at the other end of an edge.
pub(crate) fn far_end(node: u64, edge: Edge) -> u64
    ensures { result ≡ far_end node edge }
{
    if edge.from == node {
        edge.to
    } else {
        edge.from
    }
}

// Whether the other end of an edge is a neighbour and one of the branch's nodes.
pub(crate) fn leads_on(k: &Knowledge, b: &Branch, role: Role, node: u64, edge: Edge) -> bool
    ensures { result ≡ (makes_neighbour (theory_of k.now) role node (far_end node edge) edge && nat_lt (far_end node edge) (length (graph_of b.now).nodes)) }
{
    let other = far_end(node, edge);
    makes_neighbour(k, role, node, other, edge) && other < b.len()
}
