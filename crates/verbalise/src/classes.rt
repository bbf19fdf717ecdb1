// The phrases of classes.
ghost use Rattle.std.specs.Prelude.{◌≡◌, map, IfOk};
ghost use Rattle.logic_terms.specs.Shown.{concept_of};
ghost use Rattle.logic_terms.specs.Concept.{ComplementOf, SomeValuesFrom, AllValuesFrom, IntersectionOf, UnionOf, concepts_from};
ghost use Rattle.verbalise.specs.Phrases.{◌⋅◌, the};
ghost use Rattle.verbalise.specs.Said.{only, basic_phrase, also, joint_phrase, phrase, is_noun_or_thing, is_attribute, attribute, membership};

use crate::phrases::{Phrase, the, then};
use crate::vocabulary::{a_singular, not_related_to, plural, related, related_to, third};
use lexicon::Lexicon;
use logic_terms::{Class, Classes, Role};
use std::alloc::Global;
use wiki_base::{Memory, Tokens, WordId};

/// A verb that leads to elements of a noun alone.
pub(crate) fn only(
    alloc: Global,
    words: &Lexicon,
    verb: WordId,
    noun: WordId,
) -> Result<Phrase, Memory>
    ensures { IfOk result (λ said. said ≡ only words.now.live verb noun) }
{
    let start = then(third(alloc, words, verb)?, the(alloc, "only")?)?;
    then(start, plural(alloc, words, noun)?)
}

fn basic_phrase(alloc: Global, words: &Lexicon, class: &Class) -> Result<Phrase, Memory>
    ensures { IfOk result (λ said. said ≡ basic_phrase words.now.live (concept_of class.now)) }
{
    match class {
        Class::Named(noun) => then(the(alloc, "is")?, a_singular(alloc, words, *noun)?),
        Class::Not(inner) => not_phrase(alloc, words, inner),
        Class::Some(role, inner) => some_phrase(alloc, words, *role, inner),
        Class::All(role, inner) => all_phrase(alloc, words, *role, inner),
        Class::Value(role, a) => related_to(alloc, words, *role, *a),
        Class::Thing | Class::And(_) | Class::Or(_) => Ok(None),
    }
}

// The phrase of the complement of a class.
fn not_phrase(alloc: Global, words: &Lexicon, class: &Class) -> Result<Phrase, Memory>
    ensures { IfOk result (λ said. said ≡ basic_phrase words.now.live (ComplementOf (concept_of class.now))) }
{
    match class {
        Class::Named(noun) => {
            let start = then(the(alloc, "is")?, the(alloc, "not")?)?;
            then(start, a_singular(alloc, words, *noun)?)
        }
        Class::Value(role, a) => not_related_to(alloc, words, *role, *a),
        _ => Ok(None),
    }
}

// The phrase of the elements that a role leads from to some element of a class.
fn some_phrase(alloc: Global, words: &Lexicon, role: Role, class: &Class) -> Result<Phrase, Memory>
    ensures { IfOk result (λ said. said ≡ basic_phrase words.now.live (SomeValuesFrom role (concept_of class.now))) }
{
    match class {
        Class::Named(noun) => related(alloc, words, role, a_singular(alloc, words, *noun)?),
        Class::Thing => related(alloc, words, role, the(alloc, "something")?),
        _ => Ok(None),
    }
}

// The phrase of the elements that a role leads from to elements of a class alone.
fn all_phrase(alloc: Global, words: &Lexicon, role: Role, class: &Class) -> Result<Phrase, Memory>
    ensures { IfOk result (λ said. said ≡ basic_phrase words.now.live (AllValuesFrom role (concept_of class.now))) }
{
    match class {
        Class::Named(noun) if !role.inverted => only(alloc, words, role.id, *noun),
        _ => Ok(None),
    }
}

fn joint_phrase(alloc: Global, words: &Lexicon, class: &Class) -> Result<Phrase, Memory>
    ensures { IfOk result (λ said. said ≡ joint_phrase words.now.live (concept_of class.now)) }
{
    match class {
        Class::And(members) => conjunction(alloc, words, members.as_slice()),
        _ => basic_phrase(alloc, words, class),
    }
}

// The phrase of an intersection: the phrases of its members, joined by `and`.
fn conjunction(alloc: Global, words: &Lexicon, members: &[Class]) -> Result<Phrase, Memory>
    ensures { IfOk result (λ said. said ≡ joint_phrase words.now.live (IntersectionOf (concepts_from (map concept_of members.now)))) }
{
    match members {
        [] => Ok(None),
        [first, rest @ ..] => {
            then(
                basic_phrase(alloc, words, first)?,
                also(alloc, words, rest)?,
            )
        }
    }
}

// The phrases of classes, each behind `and`.
fn also(alloc: Global, words: &Lexicon, members: &[Class]) -> Result<Phrase, Memory>
    ensures { IfOk result (λ said. said ≡ also words.now.live (concepts_from (map concept_of members.now))) }
{
    let mut said = Some(Tokens::new(alloc));
    for class in members {
        let next = basic_phrase(alloc, words, class)?;
        said = then(said, then(the(alloc, "and")?, next)?)?;
    }
    Ok(said)
}

/// The phrase of a class.
pub(crate) fn phrase(alloc: Global, words: &Lexicon, class: &Class) -> Result<Phrase, Memory>
    ensures { IfOk result (λ said. said ≡ phrase words.now.live (concept_of class.now)) }
{
    match class {
        Class::Or(members) => union_phrase(alloc, words, members.as_slice()),
        _ => joint_phrase(alloc, words, class),
    }
}

// The phrase of a union: it has one where the members are exactly two.
fn union_phrase(alloc: Global, words: &Lexicon, members: &[Class]) -> Result<Phrase, Memory>
    ensures { IfOk result (λ said. said ≡ phrase words.now.live (UnionOf (concepts_from (map concept_of members.now)))) }
{
    if members.len() != 2 {
        return Ok(None);
    }
    let first = joint_phrase(alloc, words, &members[0])?;
    either(alloc, first, joint_phrase(alloc, words, &members[1])?)
}

// The one phrase or the other.
fn either(alloc: Global, one: Phrase, other: Phrase) -> Result<Phrase, Memory>
    ensures { IfOk result (λ said. said ≡ one ⋅ the "or" ⋅ other) }
{
    then(then(one, the(alloc, "or")?)?, other)
}

fn is_attribute(class: &Class) -> bool
    ensures { result ≡ is_attribute (concept_of class.now) }
{
    match class {
        Class::Named(_) => true,
        Class::Not(inner) => inner.word().is_some(),
        Class::Some(_, inner) => is_noun_or_thing(inner),
        _ => false,
    }
}

fn is_noun_or_thing(class: &Class) -> bool
    ensures { result ≡ is_noun_or_thing (concept_of class.now) }
{
    matches!(class, Class::Named(_) | Class::Thing)
}

fn attribute(alloc: Global, words: &Lexicon, class: &Class) -> Result<Phrase, Memory>
    ensures { IfOk result (λ said. said ≡ attribute words.now.live (concept_of class.now)) }
{
    if is_attribute(class) {
        basic_phrase(alloc, words, class)
    } else {
        Ok(None)
    }
}

/// The phrase of a class of which a name is.
pub(crate) fn membership(alloc: Global, words: &Lexicon, class: &Class) -> Result<Phrase, Memory>
    ensures { IfOk result (λ said. said ≡ membership words.now.live (concept_of class.now)) }
{
    match class {
        Class::Or(members) => union_membership(alloc, words, members.as_slice()),
        _ => attribute(alloc, words, class),
    }
}

fn union_membership(alloc: Global, words: &Lexicon, members: &[Class]) -> Result<Phrase, Memory>
    ensures { IfOk result (λ said. said ≡ membership words.now.live (UnionOf (concepts_from (map concept_of members.now)))) }
{
    if members.len() != 2 {
        return Ok(None);
    }
    let first = attribute(alloc, words, &members[0])?;
    either(alloc, first, attribute(alloc, words, &members[1])?)
}
