// The nodes of names.
ghost use Rattle.std.specs.Prelude.{◌≡◌, length};
ghost use Rattle.logic_terms.specs.Known.{theory_of};
ghost use Rattle.tableau_rules.specs.Neighbours.{roots, place_in, node_of};

use logic_terms::Knowledge;
use wiki_base::WordId;

/// The node of a given name in each branch of the knowledge: the place of its representative among the names that
/// represent themselves. Any other name has none. It takes no memory.
pub fn node_of(k: &Knowledge, name: WordId) -> Option<u64>
    ensures { result ≡ node_of (theory_of k.now) name }
{
    match k.representative(name) {
        Some(root) => place_of(k, root),
        None => None,
    }
}

fn place_of(k: &Knowledge, root: WordId) -> Option<u64>
    ensures { result ≡ place_in (roots (theory_of k.now)) root }
{
    let mut place = 0;
    for entry in k.names() {
        if entry.0.0 == entry.1.0 {
            if root.0 == entry.0.0 {
                return Some(place);
            }
            place += 1;
        }
    }
    None
}

/// How many nodes each branch of the knowledge has for names: they are the first ones. It takes no memory.
pub fn root_count(k: &Knowledge) -> u64
    ensures { result ≡ length (roots (theory_of k.now)) }
{
    let mut count = 0;
    for entry in k.names() {
        if entry.0.0 == entry.1.0 {
            count += 1;
        }
    }
    count
}
