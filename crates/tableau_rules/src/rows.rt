// One row of the table for each rule: whether it applies at a node for a class of its label.
ghost use Rattle.std.specs.Prelude.{◌≡◌, ℕ, min, not, map, filter, length, Option, MatchOption, None, Some, ◌&&◌};
ghost use Rattle.std.specs.List.{list_any};
ghost use Rattle.std.specs.Option.{option_and_then, option_map_or};
ghost use Rattle.logic_terms.specs.Interpretation.{is_word};
ghost use Rattle.logic_terms.specs.Known.{theory_of};
ghost use Rattle.logic_terms.specs.Meaning.{some_below};
ghost use Rattle.logic_terms.specs.Same.{has_concept};
ghost use Rattle.logic_terms.specs.Theory.{is_below};
ghost use Rattle.logic_terms.specs.Shown.{concept_of, concepts_of};
ghost use Rattle.tableau_rules.specs.Shown.{graph_of};
ghost use Rattle.tableau_rules.specs.First.{first_below, where_true};
ghost use Rattle.tableau_rules.specs.Graph.{label_at};
ghost use Rattle.tableau_rules.specs.Blocking.{is_indirectly_blocked};
ghost use Rattle.tableau_rules.specs.Carrying.{role_of_all, along, both_ways, carriers};
ghost use Rattle.tableau_rules.specs.Least.{lesser_of};
ghost use Rattle.tableau_rules.specs.Rules.{lacks_some, unfoldings_of, needs, serves, row, site};
ghost use Rattle.tableau_rules.specs.Touching.{reaches};
ghost use Rattle.tableau_rules.specs.declared.step.Rule.TheVariants as rule;

use crate::blocking::{is_blocked, is_indirectly_blocked};
use crate::branch::{Branch, Edge};
use crate::carrying::{has_along, role_of_all};
use crate::label::{has, lacks_all_of, lacks_some_of, leaves_at_most_one};
use crate::names::node_of;
use crate::neighbour::{far_end, is_neighbour, leads_on};
use crate::step::Rule;
use logic_terms::{Class, Knowledge, Role};
use wiki_base::WordId;

// Where a rule applies at a node for a class of its label: the node that it adds to, and 0 for a rule without one.
pub(crate) fn site(k: &Knowledge, b: &Branch, rule: Rule, node: u64, class: &Class) -> Option<u64>
    ensures { result ≡ site (theory_of k.now) (graph_of b.now) rule node (concept_of class.now) }
{
    // The rule is asked first: on most classes it finds nothing, and blocking need not be looked at.
    match row(k, b, rule, node, class) {
        Some(_) if is_indirectly_blocked(k, b, node) => None,
        found => found,
    }
}

fn row(k: &Knowledge, b: &Branch, rule: Rule, node: u64, class: &Class) -> Option<u64>
    ensures { result ≡ row (theory_of k.now) (graph_of b.now) rule node (concept_of class.now) }
{
    match rule {
        Rule::And => by_and(k, b, node, class),
        Rule::Unfold => by_unfold(k, b, node, class),
        Rule::All => by_all(k, b, node, class),
        Rule::Trans => by_trans(k, b, node, class),
        Rule::Value => by_value(k, b, node, class),
        Rule::Unit => by_unit(k, b, node, class),
        Rule::Or => by_or(k, b, node, class),
        Rule::Some => by_some(k, b, node, class),
    }
}

fn by_and(k: &Knowledge, b: &Branch, node: u64, class: &Class) -> Option<u64>
    ensures { result ≡ row (theory_of k.now) (graph_of b.now) rule.And node (concept_of class.now) }
{
    match class.intersection() {
        Some(members) => zero_where(lacks_some_of(b.label(node), members.as_slice())),
        None => None,
    }
}

fn by_unfold(k: &Knowledge, b: &Branch, node: u64, class: &Class) -> Option<u64>
    ensures { result ≡ row (theory_of k.now) (graph_of b.now) rule.Unfold node (concept_of class.now) }
{
    match class.word() {
        Some(word) => zero_where(lacks_unfolding(k, b.label(node), word)),
        None => None,
    }
}

// Whether an unfolding of the word is missing.
fn lacks_unfolding(k: &Knowledge, label: &[Class], word: WordId) -> bool
    ensures { result ≡ lacks_some (map concept_of label.now) (unfoldings_of (theory_of k.now) word) }
{
    for entry in k.unfoldings() {
        if lacks_entry(label, word, entry) {
            return true;
        }
    }
    false
}

// Whether this is an unfolding of the word, and missing.
fn lacks_entry(label: &[Class], word: WordId, entry: &(WordId, Class)) -> bool
    ensures { result ≡ (is_word word entry.now.0 && not (has_concept (map concept_of label.now) (concept_of entry.now.1))) }
{
    word.0 == entry.0.0 && !has(label, &entry.1)
}

fn by_all(k: &Knowledge, b: &Branch, node: u64, class: &Class) -> Option<u64>
    ensures { result ≡ row (theory_of k.now) (graph_of b.now) rule.All node (concept_of class.now) }
{
    match class.universal() {
        Some(parts) => first_in_need(k, b, parts.0, parts.1, node),
        None => None,
    }
}

// The least neighbour that is not indirectly blocked and lacks the class.
fn first_in_need(k: &Knowledge, b: &Branch, role: Role, class: &Class, node: u64) -> Option<u64>
    ensures { result ≡ first_below (length (graph_of b.now).nodes)
        (λ y. where_true (needs (theory_of k.now) (graph_of b.now) role (concept_of class.now) node y) y) }
{
    let mut least = None;
    for edge in b.edges_at(node) {
        if is_in_need(k, b, role, class, node, *edge) {
            least = Some(lesser(least, far_end(node, *edge)));
        }
    }
    least
}

fn lesser(least: Option<u64>, other: u64) -> u64
    ensures { result ≡ option_map_or (λ own. min own other) least other }
{
    match least {
        Some(own) => own.min(other),
        None => other,
    }
}

fn is_in_need(k: &Knowledge, b: &Branch, role: Role, class: &Class, node: u64, edge: Edge) -> bool
    ensures { result ≡ reaches (theory_of k.now) role (length (graph_of b.now).nodes) node
        (λ y. not (is_indirectly_blocked (theory_of k.now) (graph_of b.now) y) && not (has_concept (label_at (graph_of b.now) y) (concept_of class.now))) edge }
{
    let other = far_end(node, edge);
    leads_on(k, b, role, node, edge)
        && !has(b.label(other), class)
        && !is_indirectly_blocked(k, b, other)
}

fn by_trans(k: &Knowledge, b: &Branch, node: u64, class: &Class) -> Option<u64>
    ensures { result ≡ row (theory_of k.now) (graph_of b.now) rule.Trans node (concept_of class.now) }
{
    match role_of_all(class) {
        Some(role) => first_to_get(k, b, role, class, node),
        None => None,
    }
}

// The least node that lacks what a transitive role below this one carries to it.
fn first_to_get(k: &Knowledge, b: &Branch, role: Role, class: &Class, node: u64) -> Option<u64>
    ensures { result ≡ first_below (length (graph_of b.now).nodes)
        (λ y. where_true (list_any (λ t. needs (theory_of k.now) (graph_of b.now) t (along t (concept_of class.now)) node y)
        (carriers (theory_of k.now) role)) y) }
{
    let mut least = None;
    for word in k.transitive() {
        let plain = Role {
            id: *word,
            inverted: false,
        };
        let there = first_by(k, b, role, plain, class, node);
        let back = first_by(k, b, role, plain.inverse(), class, node);
        least = lesser_of(lesser_of(least, there), back);
    }
    least
}

// The least node that lacks what a role carries to it, if the role is below this one.
fn first_by(
    k: &Knowledge,
    b: &Branch,
    role: Role,
    carrier: Role,
    class: &Class,
    node: u64,
) -> Option<u64>
    ensures { result ≡ first_below (length (graph_of b.now).nodes)
        (λ y. where_true (is_below (theory_of k.now) carrier role
        && needs (theory_of k.now) (graph_of b.now) carrier (along carrier (concept_of class.now)) node y) y) }
{
    if k.is_below(carrier, role) {
        first_to_get_by(k, b, carrier, class, node)
    } else {
        None
    }
}

// The least neighbour by the carrier that is not indirectly blocked and lacks the class along it.
fn first_to_get_by(
    k: &Knowledge,
    b: &Branch,
    carrier: Role,
    class: &Class,
    node: u64,
) -> Option<u64>
    ensures { result ≡ first_below (length (graph_of b.now).nodes)
        (λ y. where_true (needs (theory_of k.now) (graph_of b.now) carrier (along carrier (concept_of class.now)) node y) y) }
{
    let mut least = None;
    for edge in b.edges_at(node) {
        if lacks_along(k, b, carrier, class, node, *edge) {
            least = Some(lesser(least, far_end(node, *edge)));
        }
    }
    least
}

fn lacks_along(
    k: &Knowledge,
    b: &Branch,
    carrier: Role,
    class: &Class,
    node: u64,
    edge: Edge,
) -> bool
    ensures { result ≡ reaches (theory_of k.now) carrier (length (graph_of b.now).nodes) node
        (λ y. not (is_indirectly_blocked (theory_of k.now) (graph_of b.now) y)
        && not (has_concept (label_at (graph_of b.now) y) (along carrier (concept_of class.now)))) edge }
{
    let other = far_end(node, edge);
    leads_on(k, b, carrier, node, edge)
        && !has_along(b.label(other), carrier, class)
        && !is_indirectly_blocked(k, b, other)
}

// The lesser of two numbers, where there are any.
fn lesser_of(one: Option<u64>, two: Option<u64>) -> Option<u64>
    ensures { result ≡ lesser_of one two }
{
    match two {
        Some(other) => Some(lesser(one, other)),
        None => one,
    }
}

fn by_value(k: &Knowledge, b: &Branch, node: u64, class: &Class) -> Option<u64>
    ensures { result ≡ row (theory_of k.now) (graph_of b.now) rule.Value node (concept_of class.now) }
{
    match class.value() {
        Some(parts) => match node_of(k, parts.1) {
            Some(named) => zero_where(
                !is_neighbour(k, b, parts.0, node, named) && !is_blocked(k, b, node),
            ),
            None => None,
        },
        None => None,
    }
}

fn by_unit(k: &Knowledge, b: &Branch, node: u64, class: &Class) -> Option<u64>
    ensures { result ≡ row (theory_of k.now) (graph_of b.now) rule.Unit node (concept_of class.now) }
{
    match class.union() {
        Some(members) => zero_where(
            lacks_all_of(b.label(node), members.as_slice())
                && leaves_at_most_one(b.label(node), members.as_slice()),
        ),
        None => None,
    }
}

fn by_or(k: &Knowledge, b: &Branch, node: u64, class: &Class) -> Option<u64>
    ensures { result ≡ row (theory_of k.now) (graph_of b.now) rule.Or node (concept_of class.now) }
{
    match class.union() {
        Some(members) => zero_where(lacks_all_of(b.label(node), members.as_slice())),
        None => None,
    }
}

fn by_some(k: &Knowledge, b: &Branch, node: u64, class: &Class) -> Option<u64>
    ensures { result ≡ row (theory_of k.now) (graph_of b.now) rule.Some node (concept_of class.now) }
{
    match class.existential() {
        Some(parts) => zero_where(
            !is_served(k, b, parts.0, parts.1, node) && !is_blocked(k, b, node),
        ),
        None => None,
    }
}

// Whether a neighbour that is not indirectly blocked has the class.
fn is_served(k: &Knowledge, b: &Branch, role: Role, class: &Class, node: u64) -> bool
    ensures { result ≡ some_below (length (graph_of b.now).nodes) (serves (theory_of k.now) (graph_of b.now) role (concept_of class.now) node) }
{
    for edge in b.edges_at(node) {
        if is_witness(k, b, role, class, node, *edge) {
            return true;
        }
    }
    false
}

fn is_witness(k: &Knowledge, b: &Branch, role: Role, class: &Class, node: u64, edge: Edge) -> bool
    ensures { result ≡ reaches (theory_of k.now) role (length (graph_of b.now).nodes) node
        (λ y. not (is_indirectly_blocked (theory_of k.now) (graph_of b.now) y) && has_concept (label_at (graph_of b.now) y) (concept_of class.now)) edge }
{
    let other = far_end(node, edge);
    leads_on(k, b, role, node, edge)
        && has(b.label(other), class)
        && !is_indirectly_blocked(k, b, other)
}

fn zero_where(applies: bool) -> Option<u64>
    ensures { result ≡ where_true applies 0 }
{
    if applies { Some(0) } else { None }
}
