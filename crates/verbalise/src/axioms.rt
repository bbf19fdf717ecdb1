// The sentences of axioms.
ghost use Rattle.std.specs.Prelude.{◌≡◌, ◌∷◌, [], Some, IfOk};
ghost use Rattle.wiki_base.specs.Token.{IsToken};
ghost use Rattle.logic_terms.specs.Shown.{claim_of, concept_of};
ghost use Rattle.logic_terms.specs.Concept.{Atomic, HasValue, SubClassOf, SubPropertyOf, ClassAssertion, PropertyAssertion, NegativePropertyAssertion, SameIndividual, DifferentIndividuals, TransitiveProperty};
ghost use Rattle.verbalise.specs.Phrases.{◌⋅◌, the};
ghost use Rattle.verbalise.specs.Vocabulary.{related};
ghost use Rattle.verbalise.specs.Said.{said};

use crate::classes::{membership, only, phrase};
use crate::phrases::{Phrase, the, then};
use crate::vocabulary::{name, not_related_to, related, related_to, singular};
use lexicon::Lexicon;
use logic_terms::{Axiom, Class, Role};
use std::alloc::Global;
use wiki_base::{Memory, WordId};

/// The tokens that an axiom is said as, or none where no pattern fits.
pub(crate) fn said(alloc: Global, words: &Lexicon, axiom: &Axiom) -> Result<Phrase, Memory>
    ensures { IfOk result (λ sentence. sentence ≡ said words.now.live (claim_of «axiom».now)) }
{
    match axiom {
        Axiom::SubClass(below, above) => subclass(alloc, words, below, above),
        Axiom::SubRole(below, above) => subrole(alloc, words, *below, *above),
        Axiom::Member(class, a) => member(alloc, words, class, *a),
        Axiom::Related(role, a, b) => relates(alloc, words, *role, *a, *b),
        Axiom::NotRelated(role, a, b) => relates_not(alloc, words, *role, *a, *b),
        Axiom::Equal(a, b) => equals(alloc, words, *a, *b),
        Axiom::Differ(a, b) => differs(alloc, words, *a, *b),
        Axiom::Transitive(word) => leads_on(alloc, words, *word),
    }
}

// The start of a sentence and its rest, behind which it ends.
fn ended(alloc: Global, start: Phrase, rest: Phrase) -> Result<Phrase, Memory>
    ensures { IfOk result (λ sentence. sentence ≡ start ⋅ rest ⋅ the ".") }
{
    then(then(start, rest)?, the(alloc, ".")?)
}

fn member(alloc: Global, words: &Lexicon, class: &Class, a: WordId) -> Result<Phrase, Memory>
    ensures { IfOk result (λ sentence. sentence ≡ said words.now.live (ClassAssertion (concept_of class.now) a)) }
{
    let start = name(alloc, words, a)?;
    ended(alloc, start, membership(alloc, words, class)?)
}

fn relates(
    alloc: Global,
    words: &Lexicon,
    role: Role,
    a: WordId,
    b: WordId,
) -> Result<Phrase, Memory>
    ensures { IfOk result (λ sentence. sentence ≡ said words.now.live (PropertyAssertion role a b)) }
{
    if role.inverted {
        return Ok(None);
    }
    let start = name(alloc, words, a)?;
    ended(alloc, start, related_to(alloc, words, role, b)?)
}

fn relates_not(
    alloc: Global,
    words: &Lexicon,
    role: Role,
    a: WordId,
    b: WordId,
) -> Result<Phrase, Memory>
    ensures { IfOk result (λ sentence. sentence ≡ said words.now.live (NegativePropertyAssertion role a b)) }
{
    if role.inverted {
        return Ok(None);
    }
    let start = name(alloc, words, a)?;
    ended(alloc, start, not_related_to(alloc, words, role, b)?)
}

fn equals(alloc: Global, words: &Lexicon, a: WordId, b: WordId) -> Result<Phrase, Memory>
    ensures { IfOk result (λ sentence. sentence ≡ said words.now.live (SameIndividual a b)) }
{
    let start = then(name(alloc, words, a)?, the(alloc, "is")?)?;
    ended(alloc, start, name(alloc, words, b)?)
}

fn differs(alloc: Global, words: &Lexicon, a: WordId, b: WordId) -> Result<Phrase, Memory>
    ensures { IfOk result (λ sentence. sentence ≡ said words.now.live (DifferentIndividuals a b)) }
{
    let start = then(name(alloc, words, a)?, the(alloc, "is")?)?;
    let start = then(start, the(alloc, "not")?)?;
    ended(alloc, start, name(alloc, words, b)?)
}

fn subclass(alloc: Global, words: &Lexicon, below: &Class, above: &Class) -> Result<Phrase, Memory>
    ensures { IfOk result (λ sentence. sentence ≡ said words.now.live (SubClassOf (concept_of below.now) (concept_of above.now))) }
{
    match below {
        Class::Named(noun) => every(alloc, words, *noun, above),
        Class::Thing => {
            let start = the(alloc, "everything")?;
            ended(alloc, start, phrase(alloc, words, above)?)
        }
        Class::Value(role, a) => leads_only(alloc, words, *role, *a, above),
        _ => Ok(None),
    }
}

fn every(alloc: Global, words: &Lexicon, noun: WordId, above: &Class) -> Result<Phrase, Memory>
    ensures { IfOk result (λ sentence. sentence ≡ said words.now.live (SubClassOf (Atomic noun) (concept_of above.now))) }
{
    let start = then(the(alloc, "every")?, singular(alloc, words, noun)?)?;
    ended(alloc, start, phrase(alloc, words, above)?)
}

// What a name leads to by a verb is of a noun alone.
fn leads_only(
    alloc: Global,
    words: &Lexicon,
    role: Role,
    a: WordId,
    above: &Class,
) -> Result<Phrase, Memory>
    ensures { IfOk result (λ sentence. sentence ≡ said words.now.live (SubClassOf (HasValue role a) (concept_of above.now))) }
{
    match above {
        Class::Named(noun) if role.inverted => {
            let start = name(alloc, words, a)?;
            ended(alloc, start, only(alloc, words, role.id, *noun)?)
        }
        _ => Ok(None),
    }
}

fn subrole(alloc: Global, words: &Lexicon, below: Role, above: Role) -> Result<Phrase, Memory>
    ensures { IfOk result (λ sentence. sentence ≡ said words.now.live (SubPropertyOf below above)) }
{
    if below.inverted {
        return Ok(None);
    }
    let first = of_two(alloc, words, "X", below, "Y")?;
    let second = if above.inverted {
        of_two(alloc, words, "Y", above.inverse(), "X")?
    } else {
        of_two(alloc, words, "X", above, "Y")?
    };
    implied(alloc, first, second)
}

// One word that leads on.
fn leads_on(alloc: Global, words: &Lexicon, word: WordId) -> Result<Phrase, Memory>
    ensures { IfOk result (λ sentence. sentence ≡ said words.now.live (TransitiveProperty word)) }
{
    let role = Role {
        id: word,
        inverted: false,
    };
    let first = of_two(alloc, words, "X", role, "Y")?;
    let second = of_two(alloc, words, "Y", role, "Z")?;
    let start = then(then(the(alloc, "if")?, first)?, the(alloc, "and")?)?;
    let start = then(then(start, second)?, the(alloc, "then")?)?;
    ended(alloc, start, of_two(alloc, words, "X", role, "Z")?)
}

// A role between two variables.
fn of_two(
    alloc: Global,
    words: &Lexicon,
    subject: &str,
    role: Role,
    object: &str,
) -> Result<Phrase, Memory>
    requires subject { IsToken subject.now }
    requires object { IsToken object.now }
    ensures { IfOk result (λ said. said ≡ Some (subject.now ∷ []) ⋅ related words.now.live role (Some (object.now ∷ []))) }
{
    let object = the(alloc, object)?;
    then(the(alloc, subject)?, related(alloc, words, role, object)?)
}

// Two clauses of which the one implies the other.
fn implied(alloc: Global, first: Phrase, second: Phrase) -> Result<Phrase, Memory>
    ensures { IfOk result (λ sentence. sentence ≡ the "if" ⋅ first ⋅ the "then" ⋅ second ⋅ the ".") }
{
    let start = then(then(the(alloc, "if")?, first)?, the(alloc, "then")?)?;
    ended(alloc, start, second)
}
