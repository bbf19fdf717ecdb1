// Why a sentence isn't asserted, and why a name answers a question.
ghost use Rattle.std.specs.Prelude.{◌≡◌, ◌∷◌, [], codes, IfOk, IsTrue, Some, None, option_map};
ghost use Rattle.absorb.specs.Mentioned.{is_among};
ghost use Rattle.logic_terms.specs.Complement.{complement};
ghost use Rattle.logic_terms.specs.Concept.{ClassAssertion};
ghost use Rattle.logic_terms.specs.Shown.{claims_of, concept_of};
ghost use Rattle.wiki_core.specs.Parts.{IsFitClass};
ghost use Rattle.plain_wiki.specs.Knowledge.{live_names};
ghost use Rattle.plain_wiki.specs.Causes.{may_reassert};
ghost use Rattle.retelling.specs.Cases.{AsksFor, TellsCounted};
ghost use Rattle.retelling.specs.Why.{IsRedCase, IsAnswerCase, IsRedCaseOf, IsAnswerCaseOf, TellsCase, TellsWhy};

use crate::reasons::explained;
use explain::Part;
use logic_terms::{Axiom, Axioms, Class, negated};
use std::alloc::Global;
use wiki_base::{Memory, Place, Text8, WordId};
use wiki_core::Wiki;
use wiki_talk::Status;

/// Why the sentence at a place of the article that a form names isn't asserted; or why the name with a form is an answer
/// to it, where it is a question. It is told by the lines of a least list of sentences that contradict each other, with the
/// sentence taken as asserted, or with the denial that the name is in the class that is asked for. Each search may take
/// `budget` rule applications.
pub fn why(
    alloc: Global,
    wiki: &Wiki,
    budget: u64,
    form: &str,
    at: u32,
    name: Option<&str>,
) -> Result<Text8, Memory>
    ensures { IfOk result (TellsWhy wiki.now.state.stored budget form.now at (option_map (λ n. n.now) name.entry)) }
{
    match name {
        None => of_sentence(alloc, wiki, budget, form, at),
        Some(name) => of_answer(alloc, wiki, budget, form, at, name),
    }
}

// What is told where there is no case.
fn no_case(alloc: Global) -> Result<Text8, Memory>
    ensures { IfOk result (λ text. text ≡ codes "no case\n") }
{
    Text8::from_str(alloc, "no case\n")
}

// Why the sentence at a place of the article that a form names isn't asserted.
fn of_sentence(
    alloc: Global,
    wiki: &Wiki,
    budget: u64,
    form: &str,
    at: u32,
) -> Result<Text8, Memory>
    ensures { IfOk result (TellsCase wiki.now.state.stored budget (IsRedCaseOf wiki.now.state.stored form.now at)) }
{
    match wiki.lexicon().find(form) {
        Some(word) => of_sentence_at(alloc, wiki, budget, word, at),
        None => no_case(alloc),
    }
}

// Why the sentence at a place isn't asserted.
fn of_sentence_at(
    alloc: Global,
    wiki: &Wiki,
    budget: u64,
    word: WordId,
    at: u32,
) -> Result<Text8, Memory>
    ensures { IfOk result (TellsCase wiki.now.state.stored budget (IsRedCase wiki.now.state.stored word at)) }
{
    let Some(sentence) = wiki.sentence(word, at) else {
        return no_case(alloc);
    };
    if may_reassert(sentence.status) {
        with_sentence(alloc, wiki, budget, word, at)
    } else {
        no_case(alloc)
    }
}

// Whether a sentence of the status states axioms and isn't asserted.
fn may_reassert(status: Status) -> bool
    ensures { result ≡ may_reassert status }
{
    matches!(
        status,
        Status::Retracted | Status::RedContradiction | Status::RedBudget
    )
}

// What is told of the asserted sentences with that at a place.
fn with_sentence(
    alloc: Global,
    wiki: &Wiki,
    budget: u64,
    word: WordId,
    at: u32,
) -> Result<Text8, Memory>
    ensures { IfOk result (TellsCounted wiki.now.state.stored budget (Some (record { article = word; at = at })) []) }
{
    let parts = wiki.parts_with(Place { article: word, at })?;
    explained(alloc, wiki, budget, parts.as_slice(), parts.len())
}

// Why the name with a form is an answer to the question at a place of the article that another form names.
fn of_answer(
    alloc: Global,
    wiki: &Wiki,
    budget: u64,
    form: &str,
    at: u32,
    name: &str,
) -> Result<Text8, Memory>
    ensures { IfOk result (TellsCase wiki.now.state.stored budget (IsAnswerCaseOf wiki.now.state.stored form.now at name.now)) }
{
    let Some(word) = wiki.lexicon().find(form) else {
        return no_case(alloc);
    };
    match wiki.lexicon().find(name) {
        Some(other) => of_answer_at(alloc, wiki, budget, word, at, other),
        None => no_case(alloc),
    }
}

// Why a name is an answer to the question at a place.
fn of_answer_at(
    alloc: Global,
    wiki: &Wiki,
    budget: u64,
    word: WordId,
    at: u32,
    name: WordId,
) -> Result<Text8, Memory>
    ensures { IfOk result (TellsCase wiki.now.state.stored budget (IsAnswerCase wiki.now.state.stored word at name)) }
{
    let Some(meaning) = wiki.meaning(word, at)? else {
        return no_case(alloc);
    };
    match &meaning.class {
        Some(class) => of_class(alloc, wiki, budget, word, at, class, name),
        None => no_case(alloc),
    }
}

// Why a name is an answer to the question at a place, which asks for a class.
fn of_class(
    alloc: Global,
    wiki: &Wiki,
    budget: u64,
    word: WordId,
    at: u32,
    class: &Class,
    name: WordId,
) -> Result<Text8, Memory>
    requires asks { AsksFor wiki.now.state.stored word at class.now }
    requires fit { IsFitClass wiki.now.state.stored.words class.now }
    ensures { IfOk result (TellsCase wiki.now.state.stored budget (IsAnswerCase wiki.now.state.stored word at name)) }
{
    if is_live_name(wiki, name)? {
        with_denial(alloc, wiki, budget, class, name)
    } else {
        no_case(alloc)
    }
}

// Whether a word is one of the live names.
fn is_live_name(wiki: &Wiki, word: WordId) -> Result<bool, Memory>
    ensures { IfOk result (λ is. is ≡ is_among (live_names wiki.now.state.stored.words) word) }
{
    let names = wiki.names()?;
    Ok(names.as_slice().iter().any(|name| word.0 == name.0))
}

// What is told of the asserted sentences with the denial that a name is in a class.
fn with_denial(
    alloc: Global,
    wiki: &Wiki,
    budget: u64,
    class: &Class,
    name: WordId,
) -> Result<Text8, Memory>
    requires lives { IsTrue (is_among (live_names wiki.now.state.stored.words) name) }
    requires fit { IsFitClass wiki.now.state.stored.words class.now }
    ensures { IfOk result (TellsCounted wiki.now.state.stored budget None
        ((ClassAssertion (complement (concept_of class.now)) name ∷ []) ∷ [])) }
{
    let mut parts = wiki.parts()?;
    let count = parts.len();
    parts.push(denial(alloc, class, name)?)?;
    explained(alloc, wiki, budget, parts.as_slice(), count)
}

// The part that denies that a name is in a class. It is no sentence.
fn denial(alloc: Global, class: &Class, name: WordId) -> Result<Part, Memory>
    ensures { IfOk result (λ part. claims_of part.axioms ≡ ClassAssertion (complement (concept_of class.now)) name ∷ []) }
{
    let mut axioms = Axioms::new(alloc);
    axioms.push(Axiom::Member(negated(alloc, class)?, name))?;
    Ok(Part {
        article: WordId(0),
        at: 0,
        axioms,
    })
}
