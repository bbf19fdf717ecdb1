// Which parts state the pieces of knowledge that a closed tree uses. Nobody believes it: what it proposes gets a verdict.
ghost use Rattle.std.specs.Prelude.{◌≤◌, length};
ghost use Rattle.explain.specs.Answers.{claims_in};
ghost use Rattle.explain.specs.Narrow.{AreFit};

use crate::inquiry::Inquiry;
use crate::uses::Uses;
use absorb::absorb;
use logic_terms::{Axiom, Axioms, Class, Knowledge, Role};
use std::alloc::Global;
use tableau_rules::{Edge, node_of};
use wiki_base::{Memory, WordId};

// Whether a part states something that is used. What it states itself is taken from the uses, so that one part is found for
// each use; equalities, inclusions of roles and transitive words are left to all parts that state them.
pub(crate) fn serves(
    alloc: Global,
    inquiry: &Inquiry<'_>,
    place: usize,
    k: &Knowledge,
    uses: &mut Uses,
) -> Result<bool, Memory>
    requires { AreFit (claims_in inquiry.now.parts.now) inquiry.now.names.now }
{
    let Some(part) = inquiry.parts.get(place) else {
        return Ok(false);
    };
    let own = absorb(alloc, &part.axioms, inquiry.names)?;
    let classes = states_class(k, &own, &mut uses.classes);
    let unfoldings = unfolds(&own, &mut uses.unfoldings);
    let edges = relates(k, &own, &mut uses.edges);
    let differences = tells_apart(&own, &mut uses.differences);
    Ok(classes || unfoldings || edges || differences || joins(k, &part.axioms, uses))
}

// Whether a part asserts one of these classes, or has each element in it.
fn states_class(k: &Knowledge, own: &Knowledge, uses: &mut Vec<(u64, Class)>) -> bool {
    if own.assertions().is_empty() && own.general().is_empty() {
        return false;
    }
    let before = uses.len();
    uses.retain(|used| !(asserts(k, own, used.0, &used.1) || own.general().has(&used.1)));
    uses.len() < before
}

// Whether a part asserts a class of a name with this node.
fn asserts(k: &Knowledge, own: &Knowledge, node: u64, class: &Class) -> bool {
    own.assertions().iter().any(|entry| entry.1.is_same(class) && node_of(k, entry.0) == Some(node))
}

// Whether a part unfolds one of these words so.
fn unfolds(own: &Knowledge, uses: &mut Vec<(WordId, Class)>) -> bool {
    if own.unfoldings().is_empty() {
        return false;
    }
    let before = uses.len();
    uses.retain(|used| !has_unfolding(own, used.0, &used.1));
    uses.len() < before
}

fn has_unfolding(own: &Knowledge, word: WordId, class: &Class) -> bool {
    own.unfoldings()
        .iter()
        .any(|entry| entry.0.0 == word.0 && entry.1.is_same(class))
}

// Whether a part states one of these edges.
fn relates(k: &Knowledge, own: &Knowledge, uses: &mut Vec<Edge>) -> bool {
    if own.edges().is_empty() {
        return false;
    }
    let before = uses.len();
    uses.retain(|used| !has_edge(k, own, *used));
    uses.len() < before
}

fn has_edge(k: &Knowledge, own: &Knowledge, edge: Edge) -> bool {
    own.edges().iter().any(|entry| {
        entry.0.is_same(edge.role)
            && node_of(k, entry.1) == Some(edge.from)
            && node_of(k, entry.2) == Some(edge.to)
    })
}

// Whether a part states one of these differences.
fn tells_apart(own: &Knowledge, uses: &mut Vec<(WordId, WordId)>) -> bool {
    if own.differences().is_empty() {
        return false;
    }
    let before = uses.len();
    uses.retain(|used| !has_difference(own, *used));
    uses.len() < before
}

fn has_difference(own: &Knowledge, pair: (WordId, WordId)) -> bool {
    own.differences()
        .iter()
        .any(|entry| entry.0.0 == pair.0.0 && entry.1.0 == pair.1.0)
}

// Whether axioms join names, put roles below others or have words lead on, as is used.
fn joins(k: &Knowledge, axioms: &Axioms, uses: &Uses) -> bool {
    axioms.as_slice().iter().any(|stated| match stated {
        Axiom::Equal(one, _) => node_of(k, *one).is_some_and(|node| uses.nodes.contains(&node)),
        Axiom::SubRole(below, above) => includes(k, *below, *above, uses),
        Axiom::Transitive(word) => uses.transitive.iter().any(|own| own.0 == word.0),
        _ => false,
    })
}

// Whether an inclusion of roles may be used.
fn includes(k: &Knowledge, below: Role, above: Role, uses: &Uses) -> bool {
    uses.inclusions.iter().any(|used| {
        is_between(k, used.0, below, above, used.1)
            || is_between(k, used.0, below.inverse(), above.inverse(), used.1)
    })
}

fn is_between(k: &Knowledge, least: Role, below: Role, above: Role, greatest: Role) -> bool {
    k.is_below(least, below) && k.is_below(above, greatest)
}
