// The branch at which each search begins.
ghost use Rattle.std.specs.Prelude.{◌≡◌, ◌++◌, ◌∷◌, [], map, filter, filter_map, IfOk};
ghost use Rattle.logic_terms.specs.Interpretation.{is_word};
ghost use Rattle.logic_terms.specs.Known.{theory_of};
ghost use Rattle.logic_terms.specs.Shown.{concept_of, concepts_of};
ghost use Rattle.logic_terms.specs.Theory.{representative};
ghost use Rattle.tableau_rules.specs.Branches.{asserted, first_node, first_nodes, first_edge, start, IsBranch};
ghost use Rattle.tableau_rules.specs.Clashes.{passes};
ghost use Rattle.tableau_rules.specs.Neighbours.{roots};
ghost use Rattle.tableau_rules.specs.Rules.{with_classes};
ghost use Rattle.tableau_rules.specs.Shown.{graph_of, vertex_of};

use crate::branch::{Branch, Edge, Node};
use crate::grown::missing;
use crate::names::node_of;
use logic_terms::{Class, Classes, Knowledge, Role};
use std::alloc::Global;
use wiki_base::{Memory, WordId};

/// The first branch of the knowledge: a node for each name that represents itself, in order of number, or an anonymous
/// one where there is no name. Its label holds what is asserted of its names, and then the general classes. The edges
/// are the property assertions.
pub fn start(alloc: Global, k: &Knowledge) -> Result<Branch, Memory>
    ensures exact { IfOk result (λ b. graph_of b ≡ start (theory_of k.now)) }
    ensures branch { IfOk result (λ b. IsBranch (theory_of k.now) (graph_of b)) }
{
    let nodes = first_nodes(alloc, k)?;
    join_first_edges(k, Branch::new(nodes))
}

fn first_nodes(alloc: Global, k: &Knowledge) -> Result<Vec<Node>, Memory>
    ensures { IfOk result (λ nodes. map vertex_of nodes.items ≡ first_nodes (theory_of k.now) (roots (theory_of k.now))) }
{
    let mut nodes = named_nodes(alloc, k)?;
    if nodes.is_empty() {
        nodes.push(first_node(alloc, k, Classes::new(alloc))?)?;
    }
    Ok(nodes)
}

fn named_nodes(alloc: Global, k: &Knowledge) -> Result<Vec<Node>, Memory>
    ensures { IfOk result (λ nodes. map vertex_of nodes.items
        ≡ map (λ r. first_node (theory_of k.now) (asserted (theory_of k.now) r)) (roots (theory_of k.now))) }
{
    let owners = owners(alloc, k)?;
    let mut nodes = Vec::new(alloc);
    for entry in k.names() {
        if entry.0.0 == entry.1.0 {
            nodes.push(named_node(alloc, k, owners.as_slice(), entry.0)?)?;
        }
    }
    Ok(nodes)
}

// The representative of each assertion's name, which would be looked for anew at each node.
fn owners(alloc: Global, k: &Knowledge) -> Result<Vec<Option<WordId>>, Memory>
    ensures { IfOk result (λ owners. owners.items ≡ map (λ e. representative (theory_of k.now) e.0) (theory_of k.now).assertions) }
{
    let mut owners = Vec::with_capacity(alloc, k.assertions().len())?;
    for entry in k.assertions() {
        owners.push(k.representative(entry.0))?;
    }
    Ok(owners)
}

fn named_node(
    alloc: Global,
    k: &Knowledge,
    owners: &[Option<WordId>],
    root: WordId,
) -> Result<Node, Memory>
    requires { owners.now ≡ map (λ e. representative (theory_of k.now) e.0) (theory_of k.now).assertions }
    ensures { IfOk result (λ node. vertex_of node ≡ first_node (theory_of k.now) (asserted (theory_of k.now) root)) }
{
    first_node(alloc, k, asserted(alloc, k, owners, root)?)
}

// The classes that are asserted of the names with a representative.
fn asserted(
    alloc: Global,
    k: &Knowledge,
    owners: &[Option<WordId>],
    root: WordId,
) -> Result<Classes, Memory>
    requires { owners.now ≡ map (λ e. representative (theory_of k.now) e.0) (theory_of k.now).assertions }
    ensures { IfOk result (λ classes. concepts_of classes ≡ asserted (theory_of k.now) root) }
{
    let mut classes = Classes::new(alloc);
    let entries = k.assertions();
    for (place, entry) in entries.iter().enumerate() {
        if is_owned(k, owners[place], entry.0, root) {
            classes.push(entry.1.copy(alloc)?)?;
        }
    }
    Ok(classes)
}

// Whether the representative of a name is this one.
fn is_owned(k: &Knowledge, owner: Option<WordId>, name: WordId, root: WordId) -> bool
    requires { owner ≡ representative (theory_of k.now) name }
    ensures { result ≡ passes (representative (theory_of k.now) name) (is_word root) }
{
    match owner {
        Some(own) => root.0 == own.0,
        None => false,
    }
}

// A node with these classes and the general ones.
fn first_node(alloc: Global, k: &Knowledge, classes: Classes) -> Result<Node, Memory>
    ensures { IfOk result (λ node. vertex_of node ≡ first_node (theory_of k.now) (concepts_of classes)) }
{
    let label = label_of(alloc, k, classes.as_slice())?;
    Ok(Node::new(None, label))
}

// A label with these classes and the general ones.
fn label_of(alloc: Global, k: &Knowledge, classes: &[Class]) -> Result<Classes, Memory>
    ensures { IfOk result (λ label. concepts_of label ≡ with_classes [] (map concept_of classes.now ++ (theory_of k.now).general)) }
{
    let mut label = missing(alloc, &[], classes)?;
    let more = missing(alloc, label.as_slice(), k.general().as_slice())?;
    label.append(more)?;
    Ok(label)
}

// A label with a class and the general ones.
pub(crate) fn label_with(alloc: Global, k: &Knowledge, class: &Class) -> Result<Classes, Memory>
    ensures { IfOk result (λ label. concepts_of label ≡ with_classes [] (concept_of class.now ∷ (theory_of k.now).general)) }
{
    let mut classes = Classes::new(alloc);
    classes.push(class.copy(alloc)?)?;
    label_of(alloc, k, classes.as_slice())
}

// Adds the edges of the property assertions.
fn join_first_edges(k: &Knowledge, b: Branch) -> Result<Branch, Memory>
    ensures { IfOk result (λ joined. graph_of joined
        ≡ record { nodes = (graph_of b).nodes; edges = (graph_of b).edges ++ filter_map (first_edge (theory_of k.now)) (theory_of k.now).edges }) }
{
    let mut joined = b;
    for entry in k.edges() {
        if let Some(edge) = first_edge(k, *entry) {
            joined.join(edge)?;
        }
    }
    Ok(joined)
}

// The edge of a property assertion, between the nodes of its names.
fn first_edge(k: &Knowledge, entry: (Role, WordId, WordId)) -> Option<Edge>
    ensures { result ≡ first_edge (theory_of k.now) entry }
{
    match node_of(k, entry.1) {
        Some(from) => match node_of(k, entry.2) {
            Some(to) => Some(Edge {
                from,
                role: entry.0,
                to,
            }),
            None => None,
        },
        None => None,
    }
}
