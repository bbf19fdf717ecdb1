// Whether the edges among members make a tree.
ghost use Rattle.std.specs.Prelude.{◌≡◌, ◌==◌, ◌+◌, map, IfOk};
ghost use Rattle.logic_terms.specs.declared.cause.Cause.TheVariants as cause;
ghost use Rattle.ace_to_owl.specs.Answers.{part_shown};
ghost use Rattle.ace_to_owl.specs.Parts.{has_cycle, each_reached, tree_fault};
ghost use Rattle.std.specs.List.{list_all};
ghost use Rattle.ace_to_owl.specs.Moves.{moved_by};

use crate::part::Part;
use lists::List;
use logic_terms::Cause;
use std::alloc::Global;
use wiki_base::Memory;

/// Why the parts make no tree of the root and the referents, if they do not.
pub fn tree_fault(alloc: Global, referents: &[u16], parts: &[Part]) -> Result<Option<Cause>, Memory>
    ensures { IfOk result (λ fault. fault ≡ tree_fault referents.now (map part_shown parts.now)) }
{
    let mut moves = List::new(alloc);
    let mut left = parts.len();
    while left > 0 {
        left -= 1;
        if let Part::Edge(_, from, to) = &parts[left] {
            let old = label(moves.as_slice(), *from);
            let new = label(moves.as_slice(), *to);
            if old == new {
                return Ok(Some(Cause::Cycle));
            }
            moves.push((old, new))?;
        }
    }
    if each_reached(referents, moves.as_slice()) {
        Ok(None)
    } else {
        Ok(Some(Cause::NoRoot))
    }
}

/// The label of a member after these moves of one label to another.
pub fn label(moves: &[(u32, u32)], node: u32) -> u32
    ensures { result ≡ moved_by moves.now node }
{
    let mut label = node;
    for entry in moves {
        if label == entry.0 {
            label = entry.1;
        }
    }
    label
}

fn each_reached(referents: &[u16], moves: &[(u32, u32)]) -> bool
    ensures { result ≡ list_all (λ q. moved_by moves.now 0 == moved_by moves.now (q + 1)) referents.now }
{
    let root = label(moves, 0);
    referents
        .iter()
        .all(|referent| root == label(moves, *referent as u32 + 1))
}
