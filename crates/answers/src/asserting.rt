// Knowledge with one more assertion.
ghost use Rattle.std.specs.Prelude.{◌≡◌, ◌++◌, ◌∷◌, [], IfOk};
ghost use Rattle.logic_terms.specs.Known.{theory_of, stated};
ghost use Rattle.logic_terms.specs.Shown.{concept_of};
ghost use Rattle.answers.specs.Asserted.{with_assertion};

use logic_terms::{Class, Knowledge};
use std::alloc::Global;
use wiki_base::{Memory, WordId};

// Equal knowledge in memory of its own, with a name in a class behind the other assertions.
pub(crate) fn asserting(
    alloc: Global,
    k: &Knowledge,
    name: WordId,
    class: &Class,
) -> Result<Knowledge, Memory>
    ensures { IfOk result (λ made. theory_of made ≡ with_assertion (theory_of k.now) name (concept_of class.now)) }
{
    let names = Vec::from_slice(alloc, k.names())?;
    let hierarchy = Vec::from_slice(alloc, k.hierarchy())?;
    let transitive = Vec::from_slice(alloc, k.transitive())?;
    let assertions = one_more(alloc, k.assertions(), name, class)?;
    let edges = Vec::from_slice(alloc, k.edges())?;
    let differences = Vec::from_slice(alloc, k.differences())?;
    let unfoldings = copied(alloc, k.unfoldings())?;
    let general = k.general().copy()?;
    Ok(Knowledge::new(
        names,
        hierarchy,
        transitive,
        assertions,
        edges,
        differences,
        unfoldings,
        general,
    ))
}

// Copies of the entries, and one more.
fn one_more(
    alloc: Global,
    entries: &[(WordId, Class)],
    name: WordId,
    class: &Class,
) -> Result<Vec<(WordId, Class)>, Memory>
    ensures { IfOk result (λ made. stated made.items ≡ stated entries.now ++ (name, concept_of class.now) ∷ []) }
{
    let mut made = copied(alloc, entries)?;
    let another = class.copy(alloc)?;
    made.push((name, another))?;
    Ok(made)
}

// The same words with equal classes.
fn copied(alloc: Global, entries: &[(WordId, Class)]) -> Result<Vec<(WordId, Class)>, Memory>
    ensures { IfOk result (λ copied. stated copied.items ≡ stated entries.now) }
{
    let mut copied = Vec::new(alloc);
    for entry in entries {
        copied.push((entry.0, entry.1.copy(alloc)?))?;
    }
    Ok(copied)
}
