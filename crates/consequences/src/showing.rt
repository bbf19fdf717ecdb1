// What a branch shows of its nodes.
ghost use Rattle.std.specs.Prelude.{◌≡◌, ◌&&◌, false, map};
ghost use Rattle.std.specs.List.{list_any, list_all};
ghost use Rattle.std.specs.Option.{option_map_or};
ghost use Rattle.logic_terms.specs.Known.{theory_of};
ghost use Rattle.logic_terms.specs.Same.{has_concept};
ghost use Rattle.logic_terms.specs.Shown.{concept_of, concepts_of};
ghost use Rattle.tableau_rules.specs.Graph.{label_at};
ghost use Rattle.tableau_rules.specs.Neighbours.{makes_neighbour, is_neighbour, node_of};
ghost use Rattle.tableau_rules.specs.Shown.{graph_of};
ghost use Rattle.tableau_rules.specs.Touching.{far_end};
ghost use Rattle.consequences.specs.Shows.{shows};

use logic_terms::{Class, Classes, Knowledge, Role};
use tableau_rules::{Branch, Edge, is_neighbour, makes_neighbour, node_of};
use wiki_base::WordId;

// Whether the labels and the edges of a branch show that a node is in a class. It takes no memory.
pub(crate) fn shows(k: &Knowledge, b: &Branch, class: &Class, node: u64) -> bool
    ensures { result ≡ shows (theory_of k.now) (graph_of b.now) (concept_of class.now) node }
{
    is_shown(k, b, class, node)
}

#[cycle(showing)]
fn is_shown(k: &Knowledge, b: &Branch, class: &Class, node: u64) -> bool
    ensures { result ≡ shows (theory_of k.now) (graph_of b.now) (concept_of class.now) node }
{
    match class {
        Class::Thing => true,
        Class::Named(_) => has(b, node, class),
        Class::Not(_) => has(b, node, class),
        Class::And(members) => each_is_shown(k, b, members, node),
        Class::Or(members) => some_is_shown(k, b, members, node),
        Class::Some(role, inner) => some_end_is_shown(k, b, *role, inner, node, b.edges_at(node)),
        Class::All(_, _) => has(b, node, class),
        Class::Value(role, name) => has_value(k, b, *role, *name, node),
    }
}

#[cycle(showing)]
fn each_is_shown(k: &Knowledge, b: &Branch, classes: &Classes, node: u64) -> bool
    ensures { result ≡ list_all (λ c. shows (theory_of k.now) (graph_of b.now) c node) (concepts_of classes.now) }
{
    for place in 0..classes.len() {
        if !is_shown(k, b, classes.get(place), node) {
            return false;
        }
    }
    true
}

#[cycle(showing)]
fn some_is_shown(k: &Knowledge, b: &Branch, classes: &Classes, node: u64) -> bool
    ensures { result ≡ list_any (λ c. shows (theory_of k.now) (graph_of b.now) c node) (concepts_of classes.now) }
{
    for place in 0..classes.len() {
        if is_shown(k, b, classes.get(place), node) {
            return true;
        }
    }
    false
}

// Whether the other end of one of these edges is a neighbour by the role and is shown to be in the class.
#[cycle(showing)]
fn some_end_is_shown(
    k: &Knowledge,
    b: &Branch,
    role: Role,
    class: &Class,
    node: u64,
    edges: &[Edge],
) -> bool
    ensures { result ≡ list_any (λ e. makes_neighbour (theory_of k.now) role node (far_end node e) e
        && shows (theory_of k.now) (graph_of b.now) (concept_of class.now) (far_end node e)) edges.now }
{
    for edge in edges {
        let other = far_end(node, *edge);
        if makes_neighbour(k, role, node, other, *edge) && is_shown(k, b, class, other) {
            return true;
        }
    }
    false
}

// The node at the other end of an edge.
fn far_end(node: u64, edge: Edge) -> u64
    ensures { result ≡ far_end node edge }
{
    if edge.from == node {
        edge.to
    } else {
        edge.from
    }
}

// Whether a node's label has a class.
fn has(b: &Branch, node: u64, class: &Class) -> bool
    ensures { result ≡ has_concept (label_at (graph_of b.now) node) (concept_of class.now) }
{
    is_among(b.label(node), class)
}

fn is_among(label: &[Class], class: &Class) -> bool
    ensures { result ≡ has_concept (map concept_of label.now) (concept_of class.now) }
{
    for own in label {
        if own.is_same(class) {
            return true;
        }
    }
    false
}

// Whether the node of a name is a neighbour by a role.
fn has_value(k: &Knowledge, b: &Branch, role: Role, name: WordId, node: u64) -> bool
    ensures { result ≡ option_map_or (λ y. is_neighbour (theory_of k.now) (graph_of b.now) role node y) (node_of (theory_of k.now) name) false }
{
    match node_of(k, name) {
        Some(other) => is_neighbour(k, b, role, node, other),
        None => false,
    }
}
