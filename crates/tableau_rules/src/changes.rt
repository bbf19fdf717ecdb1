// What a step makes of a branch.
ghost use Rattle.std.specs.Prelude.{◌≡◌, ◌<◌, ◌∷◌, [], map, length, slice_get, Some, IsTrue, OnOk, OnErr, IfOk};
ghost use Rattle.std.specs.Option.{option_map, option_map_or, option_to_list};
ghost use Rattle.logic_terms.specs.Parts.{word_part, intersection_part, union_part, some_part, all_part, value_part};
ghost use Rattle.logic_terms.specs.Known.{theory_of};
ghost use Rattle.logic_terms.specs.Shown.{concept_of, concepts_of};
ghost use Rattle.tableau_rules.specs.Branches.{IsBranch};
ghost use Rattle.tableau_rules.specs.Carrying.{role_of_all, carried};
ghost use Rattle.tableau_rules.specs.Changes.{changed};
ghost use Rattle.tableau_rules.specs.Graph.{label_at};
ghost use Rattle.tableau_rules.specs.Rules.{adding, with_edge, with_node, applies, choices_for, choices, effect, after, with_classes, unfoldings_of, unit_member};
ghost use Rattle.tableau_rules.specs.Neighbours.{node_of};
ghost use Rattle.tableau_rules.specs.Shown.{graph_of};
ghost use Rattle.tableau_rules.specs.declared.step.Rule.TheVariants as rule;

use crate::branch::{Branch, Edge, Node};
use crate::carrying::{carried, role_of_all};
use crate::grown::{missing, missing_of, missing_unfoldings, unit_member};
use crate::names::node_of;
use crate::starting::label_with;
use crate::step::{Rule, Step};
use logic_terms::{Class, Classes, Knowledge};
use wiki_base::{Memory, WordId};

// A change to a branch, with the memory that it takes.
#[derive(Drop)]
pub(crate) enum Change {
    Nothing,
    Classes(u64, Classes),
    Edge(Edge),
    Node(Node, Edge),
}

/// How many choices a step leaves: one for each member of the union by `Rule::Or`, else one. It takes no memory.
pub fn choices(b: &Branch, step: &Step) -> u64
    ensures { result ≡ choices (graph_of b.now) step.now }
{
    match b.class(step.node, step.class) {
        Some(class) => choices_for(step.rule, class),
        None => 1,
    }
}

fn choices_for(rule: Rule, class: &Class) -> u64
    ensures { result ≡ choices_for rule (concept_of class.now) }
{
    match rule {
        Rule::Or => member_count(class),
        Rule::And => 1,
        Rule::Unfold => 1,
        Rule::All => 1,
        Rule::Trans => 1,
        Rule::Value => 1,
        Rule::Unit => 1,
        Rule::Some => 1,
    }
}

fn member_count(class: &Class) -> u64
    ensures { result ≡ choices_for rule.Or (concept_of class.now) }
{
    match class.union() {
        Some(members) => members.len() as u64,
        None => 1,
    }
}

/// Takes a step with one of its choices. Where memory is refused the branch stays as it was. Of a branch of the
/// knowledge and a step that applies it makes a branch of the knowledge.
pub fn apply(k: &Knowledge, b: &mut Branch, step: &Step, choice: u64) -> Result<(), Memory>
    ensures ok { OnOk result (graph_of b.new ≡ after (theory_of k.now) (graph_of b.old) step.now choice) }
    ensures err { OnErr result (graph_of b.new ≡ graph_of b.old) }
    ensures branch { OnOk result (IsBranch (theory_of k.now) (graph_of b.old) → IsTrue (applies (theory_of k.now) (graph_of b.old) step.now)
        → choice < choices (graph_of b.old) step.now → IsBranch (theory_of k.now) (graph_of b.new)) }
{
    let change = planned(k, b, step, choice)?;
    carry_out(b, change)
}

fn carry_out(b: &mut Branch, change: Change) -> Result<(), Memory>
    ensures ok { OnOk result (graph_of b.new ≡ changed (graph_of b.old) change) }
    ensures err { OnErr result (graph_of b.new ≡ graph_of b.old) }
{
    match change {
        Change::Nothing => Ok(()),
        Change::Classes(node, more) => b.grow(node, more),
        Change::Edge(edge) => b.join(edge),
        Change::Node(node, edge) => b.sprout(node, edge),
    }
}

fn planned(k: &Knowledge, b: &Branch, step: &Step, choice: u64) -> Result<Change, Memory>
    ensures { IfOk result (λ change. changed (graph_of b.now) change ≡ after (theory_of k.now) (graph_of b.now) step.now choice) }
{
    match b.class(step.node, step.class) {
        Some(class) => planned_by(k, b, step, class, choice),
        None => Ok(Change::Nothing),
    }
}

fn planned_by(
    k: &Knowledge,
    b: &Branch,
    step: &Step,
    class: &Class,
    choice: u64,
) -> Result<Change, Memory>
    ensures { IfOk result (λ change. changed (graph_of b.now) change
        ≡ effect (theory_of k.now) (graph_of b.now) step.now.rule step.now.node (concept_of class.now) step.now.other choice) }
{
    let node = step.node;
    match step.rule {
        Rule::And => by_and(b, node, class),
        Rule::Unfold => by_unfold(k, b, node, class),
        Rule::All => by_all(b, step.other, class),
        Rule::Trans => by_trans(k, b, node, step.other, class),
        Rule::Value => by_value(k, b, node, class),
        Rule::Unit => by_unit(b, node, class),
        Rule::Or => by_or(b, node, class, choice),
        Rule::Some => by_some(k, b, node, class),
    }
}

fn by_and(b: &Branch, node: u64, class: &Class) -> Result<Change, Memory>
    ensures { IfOk result (λ change. changed (graph_of b.now) change
        ≡ option_map_or (adding (graph_of b.now) node) (intersection_part (concept_of class.now)) (graph_of b.now)) }
{
    match class.intersection() {
        Some(members) => growing(b, node, members.as_slice()),
        None => Ok(Change::Nothing),
    }
}

fn by_unfold(k: &Knowledge, b: &Branch, node: u64, class: &Class) -> Result<Change, Memory>
    ensures { IfOk result (λ change. changed (graph_of b.now) change
        ≡ option_map_or (λ word. adding (graph_of b.now) node (unfoldings_of (theory_of k.now) word)) (word_part (concept_of class.now)) (graph_of b.now)) }
{
    match class.word() {
        Some(word) => unfolding(k, b, node, word),
        None => Ok(Change::Nothing),
    }
}

fn by_all(b: &Branch, other: u64, class: &Class) -> Result<Change, Memory>
    ensures { IfOk result (λ change. changed (graph_of b.now) change
        ≡ option_map_or (λ p. adding (graph_of b.now) other (p.1 ∷ [])) (all_part (concept_of class.now)) (graph_of b.now)) }
{
    match class.universal() {
        Some(parts) => growing_by(b, other, Some(parts.1)),
        None => Ok(Change::Nothing),
    }
}

fn by_trans(
    k: &Knowledge,
    b: &Branch,
    node: u64,
    other: u64,
    class: &Class,
) -> Result<Change, Memory>
    ensures { IfOk result (λ change. changed (graph_of b.now) change
        ≡ option_map_or (λ role. adding (graph_of b.now) other (carried (theory_of k.now) (graph_of b.now) role (concept_of class.now) node other))
        (role_of_all (concept_of class.now)) (graph_of b.now)) }
{
    match role_of_all(class) {
        Some(role) => {
            let classes = carried(k, b, role, class, node, other)?;
            growing(b, other, classes.as_slice())
        }
        None => Ok(Change::Nothing),
    }
}

fn by_value(k: &Knowledge, b: &Branch, node: u64, class: &Class) -> Result<Change, Memory>
    ensures { IfOk result (λ change. changed (graph_of b.now) change
        ≡ option_map_or (λ p. option_map_or (λ z. with_edge (graph_of b.now) (record { from = node; role = p.0; to = z })) (node_of (theory_of k.now) p.1)
        (graph_of b.now)) (value_part (concept_of class.now)) (graph_of b.now)) }
{
    match class.value() {
        Some(parts) => match node_of(k, parts.1) {
            Some(named) => Ok(Change::Edge(Edge {
                from: node,
                role: parts.0,
                to: named,
            })),
            None => Ok(Change::Nothing),
        },
        None => Ok(Change::Nothing),
    }
}

fn by_unit(b: &Branch, node: u64, class: &Class) -> Result<Change, Memory>
    ensures { IfOk result (λ change. changed (graph_of b.now) change
        ≡ option_map_or (λ cs. adding (graph_of b.now) node (option_to_list (unit_member (label_at (graph_of b.now) node) cs)))
        (union_part (concept_of class.now)) (graph_of b.now)) }
{
    match class.union() {
        Some(members) => growing_by(b, node, unit_member(b.label(node), members.as_slice())),
        None => Ok(Change::Nothing),
    }
}

fn by_or(b: &Branch, node: u64, class: &Class, choice: u64) -> Result<Change, Memory>
    ensures { IfOk result (λ change. changed (graph_of b.now) change
        ≡ option_map_or (λ cs. adding (graph_of b.now) node (option_to_list (slice_get cs choice))) (union_part (concept_of class.now)) (graph_of b.now)) }
{
    match class.union() {
        Some(members) => growing_by(b, node, member_at(members, choice)),
        None => Ok(Change::Nothing),
    }
}

fn member_at(members: &Classes, choice: u64) -> Option<&Class>
    ensures { option_map (λ c. concept_of c.now) result ≡ slice_get (concepts_of members.now) choice }
{
    members.as_slice().get(choice as usize)
}

fn by_some(k: &Knowledge, b: &Branch, node: u64, class: &Class) -> Result<Change, Memory>
    ensures { IfOk result (λ change. changed (graph_of b.now) change
        ≡ option_map_or (λ p. with_node (graph_of b.now) (record { parent = Some node; label = with_classes [] (p.1 ∷ (theory_of k.now).general) })
        (record { from = node; role = p.0; to = length (graph_of b.now).nodes })) (some_part (concept_of class.now)) (graph_of b.now)) }
{
    match class.existential() {
        Some(parts) => {
            let label = label_with(b.allocator(), k, parts.1)?;
            let edge = Edge {
                from: node,
                role: parts.0,
                to: b.len(),
            };
            Ok(Change::Node(Node::new(Some(node), label), edge))
        }
        None => Ok(Change::Nothing),
    }
}

// The unfoldings that a node's label lacks.
fn unfolding(k: &Knowledge, b: &Branch, node: u64, word: WordId) -> Result<Change, Memory>
    ensures { IfOk result (λ change. changed (graph_of b.now) change ≡ adding (graph_of b.now) node (unfoldings_of (theory_of k.now) word)) }
{
    let more = missing_unfoldings(b.allocator(), k, b.label(node), word)?;
    Ok(Change::Classes(node, more))
}

// The classes that a node's label lacks.
fn growing(b: &Branch, node: u64, classes: &[Class]) -> Result<Change, Memory>
    ensures { IfOk result (λ change. changed (graph_of b.now) change ≡ adding (graph_of b.now) node (map concept_of classes.now)) }
{
    let more = missing(b.allocator(), b.label(node), classes)?;
    Ok(Change::Classes(node, more))
}

// A class that a node's label may lack, where there is one.
fn growing_by(b: &Branch, node: u64, class: Option<&Class>) -> Result<Change, Memory>
    ensures { IfOk result (λ change. changed (graph_of b.now) change
        ≡ adding (graph_of b.now) node (option_to_list (option_map (λ c. concept_of c.now) class.entry))) }
{
    let more = missing_of(b.allocator(), b.label(node), class)?;
    Ok(Change::Classes(node, more))
}
