// The model of a finished branch.
ghost use Rattle.std.specs.Prelude.{◌≡◌, ◌<◌, IfOk, IsTrue, length};
ghost use Rattle.logic_terms.specs.Interpretation.{is_interpretation};
ghost use Rattle.logic_terms.specs.Known.{theory_of};
ghost use Rattle.logic_terms.specs.Plain.{is_plain_theory};
ghost use Rattle.logic_terms.specs.Theory.{IsLawful, IsModelOf};
ghost use Rattle.tableau_rules.specs.Branches.{IsBranch, is_finished};
ghost use Rattle.tableau_rules.specs.Neighbours.{node_of};
ghost use Rattle.tableau_rules.specs.Shown.{graph_of};
ghost use Rattle.branch_model.specs.Named.{named_elements, element_named};

use crate::elements::find_elements;
use crate::extents::{class_extents, related, stand};
use logic_terms::Knowledge;
use owl_eval::Interp;
use std::alloc::Global;
use tableau_rules::{Branch, node_of};
use wiki_base::{Memory, WordId};

/// A model of lawful knowledge, from a branch of it that has no clash and to which no rule applies. Its elements are the
/// nodes that are not blocked; an edge to or from a directly blocked node goes to or from the node that blocks it, and
/// edges of indirectly blocked nodes are left out. A relation word has the pairs of its edges, and those that steps by a
/// transitive word lead to. Equal labels are enough for that, since no class counts successors.
pub fn model(alloc: Global, k: &Knowledge, b: &Branch) -> Result<Interp, Memory>
    requires lawful { IsLawful (theory_of k.now) }
    requires plain { IsTrue (is_plain_theory (theory_of k.now)) }
    requires branch { IsBranch (theory_of k.now) (graph_of b.now) }
    requires finished { IsTrue (is_finished (theory_of k.now) (graph_of b.now)) }
    ensures model { IfOk result (λ i. IsModelOf i (theory_of k.now)) }
    ensures sound { IfOk result (λ i. IsTrue (is_interpretation i)) }
{
    let placed = find_elements(alloc, k, b)?;
    let names = name_elements(alloc, k, placed.stands.as_slice())?;
    let classes = class_extents(alloc, b, placed.owners.as_slice())?;
    let relations = related(alloc, k, b, placed.stands.as_slice())?;
    Interp::new(alloc, placed.owners.len() as u64, names, classes, relations)
}

// The element of each given name: that of its node.
fn name_elements(
    alloc: Global,
    k: &Knowledge,
    stands: &[Option<u64>],
) -> Result<Vec<(WordId, u64)>, Memory>
    ensures { IfOk result (λ made. made.items ≡ named_elements (theory_of k.now) stands.now (theory_of k.now).names) }
{
    let mut made = Vec::new(alloc);
    for entry in k.names() {
        made.push((entry.0, name_element(k, stands, entry.0)))?;
    }
    Ok(made)
}

fn name_element(k: &Knowledge, stands: &[Option<u64>], name: WordId) -> u64
    ensures { result ≡ element_named (theory_of k.now) stands.now name }
{
    match node_of(k, name) {
        Some(node) => stand(stands, node).unwrap_or(0),
        None => 0,
    }
}
