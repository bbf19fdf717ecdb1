// Which axioms have none of some words in them.
ghost use Rattle.std.specs.Prelude.{◌≡◌, IsSorted};
ghost use Rattle.std.specs.Ordering.{nat_cmp};
ghost use Rattle.std.specs.List.{list_all};
ghost use Rattle.logic_terms.specs.Shown.{concept_of, concepts_of, claim_of};
ghost use Rattle.owl_eval.specs.Avoiding.{is_other, avoids, claim_avoids};

use crate::sorted::has_item;
use logic_terms::{Axiom, Class, Classes};
use wiki_base::WordId;

// Whether none of the words with these numbers, which rise, is in an axiom.
pub(crate) fn is_without(stated: &Axiom, numbers: &[u32]) -> bool
    requires { IsSorted nat_cmp numbers.now }
    ensures { result ≡ claim_avoids numbers.now (claim_of stated.now) }
{
    match stated {
        Axiom::SubClass(below, above) => class_avoids(below, numbers)
            && class_avoids(above, numbers),
        Axiom::SubRole(below, above) => is_other(below.id, numbers) && is_other(above.id, numbers),
        Axiom::Member(class, name) => class_avoids(class, numbers) && is_other(*name, numbers),
        Axiom::Related(role, from, to) => {
            is_other(role.id, numbers) && (is_other(*from, numbers) && is_other(*to, numbers))
        }
        Axiom::NotRelated(role, from, to) => {
            is_other(role.id, numbers) && (is_other(*from, numbers) && is_other(*to, numbers))
        }
        Axiom::Equal(one, other) => is_other(*one, numbers) && is_other(*other, numbers),
        Axiom::Differ(one, other) => is_other(*one, numbers) && is_other(*other, numbers),
        Axiom::Transitive(word) => is_other(*word, numbers),
    }
}

#[cycle(avoiding)]
fn class_avoids(class: &Class, numbers: &[u32]) -> bool
    requires { IsSorted nat_cmp numbers.now }
    ensures { result ≡ avoids numbers.now (concept_of class.now) }
{
    match class {
        Class::Thing => true,
        Class::Named(word) => is_other(*word, numbers),
        Class::Not(inner) => class_avoids(inner, numbers),
        Class::And(members) => each_avoids(members, numbers),
        Class::Or(members) => each_avoids(members, numbers),
        Class::Some(role, inner) => is_other(role.id, numbers) && class_avoids(inner, numbers),
        Class::All(role, inner) => is_other(role.id, numbers) && class_avoids(inner, numbers),
        Class::Value(role, name) => is_other(role.id, numbers) && is_other(*name, numbers),
    }
}

#[cycle(avoiding)]
fn each_avoids(classes: &Classes, numbers: &[u32]) -> bool
    requires { IsSorted nat_cmp numbers.now }
    ensures { result ≡ list_all (avoids numbers.now) (concepts_of classes.now) }
{
    for place in 0..classes.len() {
        if !class_avoids(classes.get(place), numbers) {
            return false;
        }
    }
    true
}

fn is_other(word: WordId, numbers: &[u32]) -> bool
    requires { IsSorted nat_cmp numbers.now }
    ensures { result ≡ is_other numbers.now word }
{
    !has_item(numbers, &word.0)
}
