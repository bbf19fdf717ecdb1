// The contradictions of a branch.
ghost use Rattle.std.specs.Prelude.{◌≡◌, ◌&&◌, Some, IfSome, IsTrue, is_some, length, slice_get};
ghost use Rattle.std.specs.List.{list_any};
ghost use Rattle.std.specs.Option.{option_and_then, option_map};
ghost use Rattle.logic_terms.specs.Concept.{Everything, Atomic, ComplementOf};
ghost use Rattle.logic_terms.specs.Interpretation.{is_word};
ghost use Rattle.logic_terms.specs.Known.{theory_of};
ghost use Rattle.logic_terms.specs.Meaning.{some_below};
ghost use Rattle.logic_terms.specs.Parts.{word_part, complement_part, value_part};
ghost use Rattle.logic_terms.specs.Same.{same_concept, has_concept};
ghost use Rattle.logic_terms.specs.Shown.{concept_of};
ghost use Rattle.tableau_rules.specs.Clashes.{passes, are_joined, is_clash, clashes_at, has_clash, value_clashes};
ghost use Rattle.tableau_rules.specs.Graph.{label_at, class_at};
ghost use Rattle.tableau_rules.specs.Neighbours.{node_of, is_neighbour, makes_neighbour};
ghost use Rattle.tableau_rules.specs.Shown.{graph_of};

use crate::branch::Branch;
use crate::names::node_of;
use crate::neighbour::{is_neighbour, makes_neighbour};
use crate::step::Clash;
use logic_terms::{Class, Knowledge, Role};
use wiki_base::WordId;

/// A clash of the branch, if there is one. It takes no memory.
pub fn clash(k: &Knowledge, b: &Branch) -> Option<Clash>
    ensures exact { is_some result ≡ has_clash (theory_of k.now) (graph_of b.now) }
    ensures there { IfSome result (λ c. IsTrue (is_clash (theory_of k.now) (graph_of b.now) c)) }
{
    match clash_of_names(k, b) {
        Some(found) => Some(found),
        None => clash_of_nodes(k, b),
    }
}

/// Whether a clash is there. It takes no memory.
pub fn is_clash(k: &Knowledge, b: &Branch, clash: Clash) -> bool
    ensures { result ≡ is_clash (theory_of k.now) (graph_of b.now) clash }
{
    match clash {
        Clash::Pair(node, named, denied) => match b.class(node, named) {
            Some(class) => match class.word() {
                Some(word) => is_denied_at(b, node, denied, word),
                None => false,
            },
            None => false,
        },
        Clash::NoThing(node, place) => match b.class(node, place) {
            Some(class) => is_no_thing(class),
            None => false,
        },
        Clash::NoValue(node, place, edge) => match b.class(node, place) {
            Some(class) => is_no_value(k, b, node, class, edge),
            None => false,
        },
        Clash::Names(one, other) => has_difference(k, one, other) && are_joined(k, one, other),
    }
}

fn clash_of_names(k: &Knowledge, b: &Branch) -> Option<Clash>
    ensures exact { is_some result ≡ list_any (λ d. are_joined (theory_of k.now) d.0 d.1) (theory_of k.now).differences }
    ensures there { IfSome result (λ c. IsTrue (is_clash (theory_of k.now) (graph_of b.now) c)) }
{
    for pair in k.differences() {
        if are_joined(k, pair.0, pair.1) {
            return Some(Clash::Names(pair.0, pair.1));
        }
    }
    None
}

// Whether two names have one representative.
fn are_joined(k: &Knowledge, one: WordId, other: WordId) -> bool
    ensures { result ≡ are_joined (theory_of k.now) one other }
{
    match k.representative(one) {
        Some(root) => match k.representative(other) {
            Some(others) => root.0 == others.0,
            None => false,
        },
        None => false,
    }
}

fn has_difference(k: &Knowledge, one: WordId, other: WordId) -> bool
    ensures { result ≡ list_any (λ d. is_word one d.0 && is_word other d.1) (theory_of k.now).differences }
{
    k.differences()
        .iter()
        .any(|pair| one.0 == pair.0.0 && other.0 == pair.1.0)
}

fn clash_of_nodes(k: &Knowledge, b: &Branch) -> Option<Clash>
    ensures exact { is_some result ≡ some_below (length (graph_of b.now).nodes)
        (λ x. list_any (clashes_at (theory_of k.now) (graph_of b.now) x) (label_at (graph_of b.now) x)) }
    ensures there { IfSome result (λ c. IsTrue (is_clash (theory_of k.now) (graph_of b.now) c)) }
{
    for node in 0..b.len() {
        if let Some(found) = clash_at_node(k, b, node) {
            return Some(found);
        }
    }
    None
}

/// A clash at a node, if there is one. It takes no memory.
pub fn clash_at_node(k: &Knowledge, b: &Branch, node: u64) -> Option<Clash>
    ensures exact { is_some result ≡ list_any (clashes_at (theory_of k.now) (graph_of b.now) node) (label_at (graph_of b.now) node) }
    ensures there { IfSome result (λ c. IsTrue (is_clash (theory_of k.now) (graph_of b.now) c)) }
{
    for place in 0..b.label_len(node) {
        if let Some(found) = clash_at_place(k, b, node, place) {
            return Some(found);
        }
    }
    None
}

fn clash_at_place(k: &Knowledge, b: &Branch, node: u64, place: u64) -> Option<Clash>
    ensures exact { is_some result ≡ passes (class_at (graph_of b.now) node place) (clashes_at (theory_of k.now) (graph_of b.now) node) }
    ensures there { IfSome result (λ c. IsTrue (is_clash (theory_of k.now) (graph_of b.now) c)) }
{
    match b.class(node, place) {
        Some(class) => clash_at(k, b, node, place, class),
        None => None,
    }
}

fn clash_at(k: &Knowledge, b: &Branch, node: u64, place: u64, class: &Class) -> Option<Clash>
    requires { class_at (graph_of b.now) node place ≡ Some (concept_of class.now) }
    ensures exact { is_some result ≡ clashes_at (theory_of k.now) (graph_of b.now) node (concept_of class.now) }
    ensures there { IfSome result (λ c. IsTrue (is_clash (theory_of k.now) (graph_of b.now) c)) }
{
    match pair_clash(k, b, node, place, class) {
        Some(found) => Some(found),
        None => {
            if is_no_thing(class) {
                Some(Clash::NoThing(node, place))
            } else {
                value_clash(k, b, node, place, class)
            }
        }
    }
}

// The clash of a class word with its complement.
fn pair_clash(k: &Knowledge, b: &Branch, node: u64, place: u64, class: &Class) -> Option<Clash>
    requires { class_at (graph_of b.now) node place ≡ Some (concept_of class.now) }
    ensures exact { is_some result ≡ passes (word_part (concept_of class.now))
        (λ word. has_concept (label_at (graph_of b.now) node) (ComplementOf (Atomic word))) }
    ensures there { IfSome result (λ c. IsTrue (is_clash (theory_of k.now) (graph_of b.now) c)) }
{
    match class.word() {
        Some(word) => match denial(b, node, word) {
            Some(denied) => Some(Clash::Pair(node, place, denied)),
            None => None,
        },
        None => None,
    }
}

// The place of a class word's complement in a label.
fn denial(b: &Branch, node: u64, word: WordId) -> Option<u64>
    ensures exact { is_some result ≡ has_concept (label_at (graph_of b.now) node) (ComplementOf (Atomic word)) }
    ensures there { IfSome result (λ p. IsTrue (passes (class_at (graph_of b.now) node p) (λ d. same_concept d (ComplementOf (Atomic word))))) }
{
    for place in 0..b.label_len(node) {
        if is_denied_at(b, node, place, word) {
            return Some(place);
        }
    }
    None
}

fn is_denied_at(b: &Branch, node: u64, place: u64, word: WordId) -> bool
    ensures { result ≡ passes (class_at (graph_of b.now) node place) (λ d. same_concept d (ComplementOf (Atomic word))) }
{
    match b.class(node, place) {
        Some(class) => is_complement_of_word(class, word),
        None => false,
    }
}

fn is_complement_of_word(class: &Class, word: WordId) -> bool
    ensures { result ≡ same_concept (concept_of class.now) (ComplementOf (Atomic word)) }
{
    match class {
        Class::Not(inner) => is_named(inner, word),
        _ => false,
    }
}

fn is_named(class: &Class, word: WordId) -> bool
    ensures { result ≡ same_concept (concept_of class.now) (Atomic word) }
{
    match class {
        Class::Named(own) => own.0 == word.0,
        _ => false,
    }
}

fn is_no_thing(class: &Class) -> bool
    ensures { result ≡ same_concept (concept_of class.now) (ComplementOf Everything) }
{
    match class {
        Class::Not(inner) => is_thing(inner),
        _ => false,
    }
}

fn is_thing(class: &Class) -> bool
    ensures { result ≡ same_concept (concept_of class.now) Everything }
{
    match class {
        Class::Thing => true,
        _ => false,
    }
}

// Whether a class is the complement of a value whose node this edge makes a neighbour.
fn is_no_value(k: &Knowledge, b: &Branch, node: u64, class: &Class, edge: u64) -> bool
    ensures { result ≡ value_clashes (theory_of k.now) (concept_of class.now)
        (λ role y. passes (slice_get (graph_of b.now).edges edge) (makes_neighbour (theory_of k.now) role node y)) }
{
    match denied_value(k, class) {
        Some(parts) => is_made_by(k, b, parts.0, node, parts.1, edge),
        None => false,
    }
}

// Whether the edge at a place makes `to` a neighbour of `from`.
fn is_made_by(k: &Knowledge, b: &Branch, role: Role, from: u64, to: u64, place: u64) -> bool
    ensures { result ≡ passes (slice_get (graph_of b.now).edges place) (makes_neighbour (theory_of k.now) role from to) }
{
    match b.edge(place) {
        Some(edge) => makes_neighbour(k, role, from, to, edge),
        None => false,
    }
}

// The role, and the name's node, where a class is the complement of a value.
fn denied_value(k: &Knowledge, class: &Class) -> Option<(Role, u64)>
    ensures { result ≡ option_and_then (λ d. option_and_then (λ v. option_map (λ y. (v.0, y)) (node_of (theory_of k.now) v.1)) (value_part d))
        (complement_part (concept_of class.now)) }
{
    match class.complemented() {
        Some(inner) => match inner.value() {
            Some(parts) => match node_of(k, parts.1) {
                Some(named) => Some((parts.0, named)),
                None => None,
            },
            None => None,
        },
        None => None,
    }
}

fn value_clash(k: &Knowledge, b: &Branch, node: u64, place: u64, class: &Class) -> Option<Clash>
    requires { class_at (graph_of b.now) node place ≡ Some (concept_of class.now) }
    ensures exact { is_some result ≡ value_clashes (theory_of k.now) (concept_of class.now)
        (λ role y. is_neighbour (theory_of k.now) (graph_of b.now) role node y) }
    ensures there { IfSome result (λ c. IsTrue (is_clash (theory_of k.now) (graph_of b.now) c)) }
{
    match denied_value(k, class) {
        Some(parts) => match edge_between(k, b, parts.0, node, parts.1) {
            Some(edge) => Some(Clash::NoValue(node, place, edge)),
            None => None,
        },
        None => None,
    }
}

// The place of the first edge that makes `to` a neighbour of `from`. All edges are looked at only where there is one.
fn edge_between(k: &Knowledge, b: &Branch, role: Role, from: u64, to: u64) -> Option<u64>
    ensures exact { is_some result ≡ is_neighbour (theory_of k.now) (graph_of b.now) role from to }
    ensures there { IfSome result (λ e. IsTrue (passes (slice_get (graph_of b.now).edges e) (makes_neighbour (theory_of k.now) role from to))) }
{
    if is_neighbour(k, b, role, from, to) {
        first_edge_between(k, b, role, from, to)
    } else {
        None
    }
}

fn first_edge_between(k: &Knowledge, b: &Branch, role: Role, from: u64, to: u64) -> Option<u64>
    ensures exact { is_some result ≡ is_neighbour (theory_of k.now) (graph_of b.now) role from to }
    ensures there { IfSome result (λ e. IsTrue (passes (slice_get (graph_of b.now).edges e) (makes_neighbour (theory_of k.now) role from to))) }
{
    for place in 0..b.edge_count() {
        if is_made_by(k, b, role, from, to, place) {
            return Some(place);
        }
    }
    None
}
