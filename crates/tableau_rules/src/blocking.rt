// Which nodes are blocked.
ghost use Rattle.std.specs.Prelude.{◌≡◌, ◌&&◌, length};
ghost use Rattle.logic_terms.specs.Known.{theory_of};
ghost use Rattle.tableau_rules.specs.Shown.{graph_of};
ghost use Rattle.tableau_rules.specs.Neighbours.{roots};
ghost use Rattle.tableau_rules.specs.Blocking.{climb, has_twin, blocks, is_anonymous, same_classes, is_blocked, is_directly_blocked, is_indirectly_blocked};
ghost use Rattle.tableau_rules.specs.Graph.{label_at};

use crate::branch::Branch;
use crate::label::same_set;
use crate::names::root_count;
use logic_terms::Knowledge;

/// Whether a proper ancestor of the node is directly blocked. It takes no memory.
pub fn is_indirectly_blocked(k: &Knowledge, b: &Branch, node: u64) -> bool
    ensures { result ≡ is_indirectly_blocked (theory_of k.now) (graph_of b.now) node }
{
    some_blocks(k, b, node, node)
}

/// Whether the node is directly blocked: it is anonymous, none of its proper ancestors is directly blocked, and an
/// anonymous one of them has the same set of classes. It takes no memory.
pub fn is_directly_blocked(k: &Knowledge, b: &Branch, node: u64) -> bool
    ensures { result ≡ is_directly_blocked (theory_of k.now) (graph_of b.now) node }
{
    repeats(k, b, node, node) && !some_blocks(k, b, node, node)
}

/// Whether the node is directly or indirectly blocked. It takes no memory.
pub fn is_blocked(k: &Knowledge, b: &Branch, node: u64) -> bool
    ensures { result ≡ is_blocked (theory_of k.now) (graph_of b.now) node }
{
    is_directly_blocked(k, b, node) || is_indirectly_blocked(k, b, node)
}

// Whether a node is no name's. The names are counted, so other tests go before.
fn is_anonymous(k: &Knowledge, node: u64) -> bool
    ensures { result ≡ is_anonymous (theory_of k.now) node }
{
    node >= root_count(k)
}

// Whether `above` is anonymous and has the node's classes.
fn is_twin(k: &Knowledge, b: &Branch, node: u64, above: u64) -> bool
    ensures { result ≡ (is_anonymous (theory_of k.now) above && same_classes (label_at (graph_of b.now) node) (label_at (graph_of b.now) above)) }
{
    same_set(b.label(node), b.label(above)) && is_anonymous(k, above)
}

// Whether one of the first `count` ancestors is anonymous and has the node's classes.
fn twin_above(k: &Knowledge, b: &Branch, node: u64, count: u64) -> bool
    ensures { result ≡ has_twin (theory_of k.now) (graph_of b.now) node (climb count (graph_of b.now) node) }
{
    let mut at = node;
    let mut left = count;
    while left > 0 {
        match b.parent(at) {
            Some(parent) => {
                if is_twin(k, b, node, parent) {
                    return true;
                }
                at = parent;
                left -= 1;
            }
            None => return false,
        }
    }
    false
}

// Whether the node is anonymous, and one of its first `count` ancestors is so too and has the same classes.
fn repeats(k: &Knowledge, b: &Branch, node: u64, count: u64) -> bool
    ensures { result ≡ (is_anonymous (theory_of k.now) node && has_twin (theory_of k.now) (graph_of b.now) node (climb count (graph_of b.now) node)) }
{
    twin_above(k, b, node, count) && is_anonymous(k, node)
}

// Whether one of the first `count` ancestors is directly blocked, which is so where one of them repeats one above it.
fn some_blocks(k: &Knowledge, b: &Branch, node: u64, count: u64) -> bool
    ensures { result ≡ blocks (theory_of k.now) (graph_of b.now) (climb count (graph_of b.now) node) }
{
    let mut at = node;
    let mut left = count;
    while left > 0 {
        match b.parent(at) {
            Some(parent) => {
                if repeats(k, b, parent, left - 1) {
                    return true;
                }
                at = parent;
                left -= 1;
            }
            None => return false,
        }
    }
    false
}
