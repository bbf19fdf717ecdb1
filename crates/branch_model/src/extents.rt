// What a branch's model gives to class words, relation words and names.
ghost use Rattle.std.specs.Prelude.{◌≡◌, [], map, OnOk, IfOk, IsTrue};
ghost use Rattle.logic_terms.specs.Interpretation.{words_rise};
ghost use Rattle.logic_terms.specs.Known.{theory_of};
ghost use Rattle.logic_terms.specs.Shown.{concept_of};
ghost use Rattle.owl_eval.specs.Given.{lists_in};
ghost use Rattle.tableau_rules.specs.Shown.{graph_of};
ghost use Rattle.branch_model.specs.Related.{pairs_in, Closes};
ghost use Rattle.branch_model.specs.Extents.{labelled, extents, paired, paired_above, paired_all, stand_of, linked, links};

use crate::closing::led_to;
use crate::entries::put;
use logic_terms::{Class, Knowledge, Role};
use std::alloc::Global;
use tableau_rules::{Branch, Edge};
use wiki_base::{Memory, WordId};

// The elements of each class word.
pub(crate) fn class_extents(
    alloc: Global,
    b: &Branch,
    owners: &[u64],
) -> Result<Vec<(WordId, Vec<u64>)>, Memory>
    ensures { IfOk result (λ made. lists_in made.items ≡ extents (graph_of b.now) 0 owners.now []) }
{
    let mut made = Vec::new(alloc);
    let mut element = 0;
    for owner in owners {
        add_label(alloc, &mut made, element, b.label(*owner))?;
        element += 1;
    }
    Ok(made)
}

fn add_label(
    alloc: Global,
    made: &mut Vec<(WordId, Vec<u64>)>,
    element: u64,
    label: &[Class],
) -> Result<(), Memory>
    ensures { OnOk result (lists_in made.new.items ≡ labelled element (map concept_of label.now) (lists_in made.old.items)) }
{
    for class in label {
        if let Some(word) = class.word() {
            put(alloc, made, word, element)?;
        }
    }
    Ok(())
}

// The pairs of each relation word: those of edges, and those that transitive words add to them.
pub(crate) fn related(
    alloc: Global,
    k: &Knowledge,
    b: &Branch,
    stands: &[Option<u64>],
) -> Result<Vec<(WordId, Vec<(u64, u64)>)>, Memory>
    ensures { IfOk result (λ made. Closes (theory_of k.now) (links (theory_of k.now) stands.now (graph_of b.now).edges []) (lists_in made.items)) }
{
    let edges = role_pairs(alloc, k, b, stands)?;
    let mut made = role_pairs(alloc, k, b, stands)?;
    close(alloc, &mut made, edges.as_slice(), k)?;
    Ok(made)
}

// The pairs of each relation word by edges alone.
fn role_pairs(
    alloc: Global,
    k: &Knowledge,
    b: &Branch,
    stands: &[Option<u64>],
) -> Result<Vec<(WordId, Vec<(u64, u64)>)>, Memory>
    ensures { IfOk result (λ made. lists_in made.items ≡ links (theory_of k.now) stands.now (graph_of b.now).edges []) }
{
    let mut made = Vec::new(alloc);
    for edge in b.edges() {
        add_edge(alloc, &mut made, k, stands, *edge)?;
    }
    Ok(made)
}

// Adds to the pairs of edges, for each transitive word and the roles above it, the pairs that steps by the word's lead to.
fn close(
    alloc: Global,
    made: &mut Vec<(WordId, Vec<(u64, u64)>)>,
    edges: &[(WordId, Vec<(u64, u64)>)],
    k: &Knowledge,
) -> Result<(), Memory>
    requires edges { lists_in made.old.items ≡ lists_in edges.now }
    requires rise { IsTrue (words_rise (lists_in edges.now)) }
    ensures { OnOk result (Closes (theory_of k.now) (lists_in edges.now) (lists_in made.new.items)) }
{
    for word in k.transitive() {
        let role = Role {
            id: *word,
            inverted: false,
        };
        let led = led_to(alloc, pairs_of(edges, *word))?;
        add_each(alloc, made, k.hierarchy(), role, led.as_slice())?;
    }
    Ok(())
}

// Adds pairs of a role, and of the roles above it.
fn add_each(
    alloc: Global,
    made: &mut Vec<(WordId, Vec<(u64, u64)>)>,
    hierarchy: &[(Role, Role)],
    role: Role,
    pairs: &[(u64, u64)],
) -> Result<(), Memory>
    ensures { OnOk result (lists_in made.new.items ≡ paired_all hierarchy.now role pairs.now (lists_in made.old.items)) }
{
    for pair in pairs {
        add_pair(alloc, made, role, pair.0, pair.1)?;
        add_above(alloc, made, hierarchy, role, pair.0, pair.1)?;
    }
    Ok(())
}

// The pairs of a word.
fn pairs_of(made: &[(WordId, Vec<(u64, u64)>)], word: WordId) -> &[(u64, u64)]
    ensures { result.now ≡ pairs_in (lists_in made.now) word }
{
    for entry in made {
        if entry.0.0 == word.0 {
            return entry.1.as_slice();
        }
    }
    &[]
}

fn add_edge(
    alloc: Global,
    made: &mut Vec<(WordId, Vec<(u64, u64)>)>,
    k: &Knowledge,
    stands: &[Option<u64>],
    edge: Edge,
) -> Result<(), Memory>
    ensures { OnOk result (lists_in made.new.items ≡ linked (theory_of k.now) stands.now edge (lists_in made.old.items)) }
{
    let Some(from) = stand(stands, edge.from) else {
        return Ok(());
    };
    let Some(to) = stand(stands, edge.to) else {
        return Ok(());
    };
    add_pair(alloc, made, edge.role, from, to)?;
    add_above(alloc, made, k.hierarchy(), edge.role, from, to)
}

fn add_above(
    alloc: Global,
    made: &mut Vec<(WordId, Vec<(u64, u64)>)>,
    hierarchy: &[(Role, Role)],
    role: Role,
    from: u64,
    to: u64,
) -> Result<(), Memory>
    ensures { OnOk result (lists_in made.new.items ≡ paired_above hierarchy.now role from to (lists_in made.old.items)) }
{
    for pair in hierarchy {
        if pair.0.is_same(role) {
            add_pair(alloc, made, pair.1, from, to)?;
        }
    }
    Ok(())
}

fn add_pair(
    alloc: Global,
    made: &mut Vec<(WordId, Vec<(u64, u64)>)>,
    role: Role,
    from: u64,
    to: u64,
) -> Result<(), Memory>
    ensures { OnOk result (lists_in made.new.items ≡ paired role from to (lists_in made.old.items)) }
{
    if role.inverted {
        put(alloc, made, role.id, (to, from))
    } else {
        put(alloc, made, role.id, (from, to))
    }
}

pub(crate) fn stand(stands: &[Option<u64>], node: u64) -> Option<u64>
    ensures { result ≡ stand_of stands.now node }
{
    match stands.get(node as usize) {
        Some(stand) => *stand,
        None => None,
    }
}
