// The parts of a class of one kind.
ghost use Rattle.std.specs.Prelude.{◌≡◌, ◌<◌, None, Some, MatchOption, IfSome};
ghost use Rattle.logic_terms.specs.Shown.{concept_of, concepts_of};
ghost use Rattle.logic_terms.specs.Parts.{word_part, complement_part, intersection_part, union_part, some_part, all_part, value_part};
ghost use Rattle.logic_terms.specs.declared.expressions.Class.TheViews.{size-Class, size-Classes};

use crate::expressions::{Class, Classes, Role};
use wiki_base::WordId;

impl Class {
    /// The word of a named class.
    pub fn word(&self) -> Option<WordId>
        ensures { result ≡ word_part (concept_of self.now) }
    {
        match self {
            Class::Named(word) => Some(*word),
            _ => None,
        }
    }

    /// What a complement stands before.
    pub fn complemented(&self) -> Option<&Class>
        ensures part { MatchOption result (complement_part (concept_of self.now) ≡ None)
            (λ c. complement_part (concept_of self.now) ≡ Some (concept_of c.now)) }
        ensures smaller { IfSome result (λ c. size-Class c.now < size-Class self.now) }
    {
        match self {
            Class::Not(inner) => Some(inner),
            _ => None,
        }
    }

    /// The members of an intersection.
    pub fn intersection(&self) -> Option<&Classes>
        ensures part { MatchOption result (intersection_part (concept_of self.now) ≡ None)
            (λ m. intersection_part (concept_of self.now) ≡ Some (concepts_of m.now)) }
        ensures smaller { IfSome result (λ m. size-Classes m.now < size-Class self.now) }
    {
        match self {
            Class::And(members) => Some(members),
            _ => None,
        }
    }

    /// The members of a union.
    pub fn union(&self) -> Option<&Classes>
        ensures part { MatchOption result (union_part (concept_of self.now) ≡ None) (λ m. union_part (concept_of self.now) ≡ Some (concepts_of m.now)) }
        ensures smaller { IfSome result (λ m. size-Classes m.now < size-Class self.now) }
    {
        match self {
            Class::Or(members) => Some(members),
            _ => None,
        }
    }

    /// The role and the class of a `Some`.
    pub fn existential(&self) -> Option<(Role, &Class)>
        ensures part { MatchOption result (some_part (concept_of self.now) ≡ None) (λ p. some_part (concept_of self.now) ≡ Some (p.0, concept_of p.1.now)) }
        ensures smaller { IfSome result (λ p. size-Class p.1.now < size-Class self.now) }
    {
        match self {
            Class::Some(role, inner) => Some((*role, inner)),
            _ => None,
        }
    }

    /// The role and the class of an `All`.
    pub fn universal(&self) -> Option<(Role, &Class)>
        ensures part { MatchOption result (all_part (concept_of self.now) ≡ None) (λ p. all_part (concept_of self.now) ≡ Some (p.0, concept_of p.1.now)) }
        ensures smaller { IfSome result (λ p. size-Class p.1.now < size-Class self.now) }
    {
        match self {
            Class::All(role, inner) => Some((*role, inner)),
            _ => None,
        }
    }

    /// The role and the name of a `Value`.
    pub fn value(&self) -> Option<(Role, WordId)>
        ensures { result ≡ value_part (concept_of self.now) }
    {
        match self {
            Class::Value(role, name) => Some((*role, *name)),
            _ => None,
        }
    }
}
