// What the edges at a node lead to.
ghost use Rattle.std.specs.Prelude.{◌≡◌, ◌<◌, ◌&&◌, true, false, not, map, length, nat_lt, MatchOption};
ghost use Rattle.std.specs.List.{list_any};
ghost use Rattle.logic_terms.specs.Known.{theory_of};
ghost use Rattle.logic_terms.specs.Meaning.{some_below};
ghost use Rattle.logic_terms.specs.Same.{has_concept};
ghost use Rattle.logic_terms.specs.Shown.{concept_of};
ghost use Rattle.tableau_rules.specs.Blocking.{is_indirectly_blocked};
ghost use Rattle.tableau_rules.specs.Graph.{label_at};
ghost use Rattle.tableau_rules.specs.Neighbours.{makes_neighbour};
ghost use Rattle.tableau_rules.specs.Rules.{serves};
ghost use Rattle.tableau_rules.specs.Shown.{graph_of};
ghost use Rattle.tableau_rules.specs.Touching.{far_end, reaches};

use logic_terms::{Class, Knowledge, Role};
use tableau_rules::{Branch, Edge, is_indirectly_blocked, makes_neighbour};

fn has(label: &[Class], class: &Class) -> bool
    ensures { result ≡ has_concept (map concept_of label.now) (concept_of class.now) }
{
    for own in label {
        if own.is_same(class) {
            return true;
        }
    }
    false
}

// The node at the other end of an edge.
pub(crate) fn far_end(node: u64, edge: Edge) -> u64
    ensures { result ≡ far_end node edge }
{
    if edge.from == node {
        edge.to
    } else {
        edge.from
    }
}

// Whether the other end of an edge is a neighbour and one of the branch's nodes.
fn leads_on(k: &Knowledge, b: &Branch, role: Role, node: u64, edge: Edge) -> bool
    ensures { result ≡ (makes_neighbour (theory_of k.now) role node (far_end node edge) edge && nat_lt (far_end node edge) (length (graph_of b.now).nodes)) }
{
    let other = far_end(node, edge);
    makes_neighbour(k, role, node, other, edge) && other < b.len()
}

// A neighbour that is not indirectly blocked and has the class.
pub(crate) fn server(k: &Knowledge, b: &Branch, role: Role, class: &Class, node: u64) -> Option<u64>
    ensures { MatchOption result (some_below (length (graph_of b.now).nodes) (serves (theory_of k.now) (graph_of b.now) role (concept_of class.now) node)
        ≡ false) (λ y. (y < length (graph_of b.now).nodes) × (serves (theory_of k.now) (graph_of b.now) role (concept_of class.now) node y ≡ true)) }
{
    for edge in b.edges_at(node) {
        if is_witness(k, b, role, class, node, *edge) {
            return Some(far_end(node, *edge));
        }
    }
    None
}

fn is_witness(k: &Knowledge, b: &Branch, role: Role, class: &Class, node: u64, edge: Edge) -> bool
    ensures { result ≡ reaches (theory_of k.now) role (length (graph_of b.now).nodes) node
        (λ y. not (is_indirectly_blocked (theory_of k.now) (graph_of b.now) y) && has_concept (label_at (graph_of b.now) y) (concept_of class.now)) edge }
{
    let other = far_end(node, edge);
    leads_on(k, b, role, node, edge)
        && has(b.label(other), class)
        && !is_indirectly_blocked(k, b, other)
}
