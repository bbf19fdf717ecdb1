// What labels grow by, as lists of their own: a branch changes only once the memory for a change is there.
ghost use Rattle.std.specs.Prelude.{◌≡◌, ◌&&◌, ◌++◌, ◌∷◌, [], map, filter, not, None, Some, MatchOption, IfOk, slice_get};
ghost use Rattle.std.specs.Option.{option_map, option_to_list};
ghost use Rattle.logic_terms.specs.Interpretation.{is_word};
ghost use Rattle.logic_terms.specs.Known.{theory_of};
ghost use Rattle.logic_terms.specs.Same.{has_concept};
ghost use Rattle.logic_terms.specs.Shown.{concept_of, concepts_of};
ghost use Rattle.tableau_rules.specs.Rules.{unfoldings_of, with_class, with_classes, unit_member};

use crate::label::{has, has_complement};
use logic_terms::{Class, Classes, Knowledge};
use std::alloc::Global;
use wiki_base::{Memory, WordId};

// The classes that a label lacks, each once.
pub(crate) fn missing(alloc: Global, label: &[Class], classes: &[Class]) -> Result<Classes, Memory>
    ensures { IfOk result (λ more. map concept_of label.now ++ concepts_of more ≡ with_classes (map concept_of label.now) (map concept_of classes.now)) }
{
    let mut more = Classes::new(alloc);
    for class in classes {
        if is_missing(label, more.as_slice(), class) {
            more.push(class.copy(alloc)?)?;
        }
    }
    Ok(more)
}

// Whether a class is in neither list.
fn is_missing(label: &[Class], more: &[Class], class: &Class) -> bool
    ensures { result ≡ not (has_concept (map concept_of label.now ++ map concept_of more.now) (concept_of class.now)) }
{
    !has(label, class) && !has(more, class)
}

// The class, if the label lacks it.
pub(crate) fn missing_one(alloc: Global, label: &[Class], class: &Class) -> Result<Classes, Memory>
    ensures { IfOk result (λ more. map concept_of label.now ++ concepts_of more ≡ with_class (map concept_of label.now) (concept_of class.now)) }
{
    let mut more = Classes::new(alloc);
    if !has(label, class) {
        more.push(class.copy(alloc)?)?;
    }
    Ok(more)
}

// The same where there may be no class.
pub(crate) fn missing_of(
    alloc: Global,
    label: &[Class],
    class: Option<&Class>,
) -> Result<Classes, Memory>
    ensures { IfOk result (λ more. map concept_of label.now ++ concepts_of more
        ≡ with_classes (map concept_of label.now) (option_to_list (option_map (λ c. concept_of c.now) class.entry))) }
{
    match class {
        Some(found) => missing_one(alloc, label, found),
        None => Ok(Classes::new(alloc)),
    }
}

// The unfoldings of a class word that a label lacks, each once.
pub(crate) fn missing_unfoldings(
    alloc: Global,
    k: &Knowledge,
    label: &[Class],
    word: WordId,
) -> Result<Classes, Memory>
    ensures { IfOk result (λ more. map concept_of label.now ++ concepts_of more
        ≡ with_classes (map concept_of label.now) (unfoldings_of (theory_of k.now) word)) }
{
    let mut more = Classes::new(alloc);
    for entry in k.unfoldings() {
        if word.0 == entry.0.0 && is_missing(label, more.as_slice(), &entry.1) {
            more.push(entry.1.copy(alloc)?)?;
        }
    }
    Ok(more)
}

// The member whose complement is not in the label, or else the first.
pub(crate) fn unit_member<'a>(label: &[Class], members: &'a [Class]) -> Option<&'a Class>
    ensures { option_map (λ c. concept_of c.now) result ≡ unit_member (map concept_of label.now) (map concept_of members.now) }
{
    for member in members {
        if !has_complement(label, member) {
            return Some(member);
        }
    }
    members.get(0)
}
