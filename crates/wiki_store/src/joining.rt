// How the axioms of a sentence are put into the model that is kept, and taken out of it, without a look at the others.
ghost use Rattle.std.specs.Prelude.{◌≡◌, ◌+◌, ◌<◌, ◌≤◌, ◌^◌, ◌++◌, [], List, length, take, drop, IsTrue, IfOk, OnErr, if◌then◌else◌};
ghost use Rattle.logic_terms.specs.Concept.{Claim};
ghost use Rattle.logic_terms.specs.Reading.{IsModel};
ghost use Rattle.logic_terms.specs.Shown.{claims_of};
ghost use Rattle.owl_eval.specs.Checked.{kept_interp, kept_claims};
ghost use Rattle.wiki_parts.specs.Found.{meaning_shown};
ghost use Rattle.wiki_parts.specs.Kept.{stated_by, meanings_in, known_of, known_in};
ghost use Rattle.plain_wiki.specs.Knowledge.{is_asserted};
ghost use Rattle.wiki_store.specs.Putting.{IsThere, known_with, known_beside, IsJoined};
ghost use Rattle.wiki_store.specs.Settled.{IsTrueIn};

use crate::keeping::Keeping;
use articles::{Article, Sentence, Shared};
use logic_terms::Axioms;
use owl_eval::is_model;
use std::alloc::Global;
use wiki_base::Memory;
use wiki_parts::{Sense, Senses, is_asserted};

// A stretch of the sentences of an article, from a place to before another, with all articles, and what their sentences mean.
#[derive(Clone, Copy)]
pub(crate) struct Stretch<'a> {
    pub(crate) articles: &'a [Article],
    pub(crate) senses: &'a [Senses],
    pub(crate) place: usize,
    pub(crate) from: usize,
    pub(crate) to: usize,
}

// Axioms of a list: how many stand before them, and how many they are.
#[derive(Drop)]
pub(crate) struct Span {
    pub(crate) first: usize,
    pub(crate) count: usize,
}

// Axioms that were put into a list before others that are to go: where they begin, where the others do, and where those end.
#[derive(Drop)]
pub(crate) struct Joined {
    pub(crate) first: usize,
    pub(crate) behind: usize,
    pub(crate) end: usize,
}

// Whether it is a statement that is true in the kept interpretation, so that no search is needed.
pub(crate) fn is_settled(kept: &Keeping, sense: &Shared<Sense>) -> bool
    ensures { IsTrue result → IsTrueIn (kept_interp kept.now) (meaning_shown sense.now) }
{
    match sense.get() {
        Sense::Stating(own) => is_model(kept.interp(), own),
        Sense::Outside(_) | Sense::Asking(_) | Sense::AskingOutside(_) => false,
    }
}

// Puts axioms that are true in the kept interpretation in before those of a stretch of sentences. Where these leave then, what is known
// has the one in place of the other; where the new ones leave, it is as it was.
pub(crate) fn join(kept: &mut Keeping, stretch: &Stretch<'_>, own: Axioms) -> Result<Joined, Memory>
    requires there { IsThere stretch.now }
    requires known { kept_claims kept.old ≡ known_with stretch.now }
    requires model { IsModel (kept_interp kept.old) (claims_of own) }
    ensures joined { IfOk result (IsJoined (kept_claims kept.old) (known_beside stretch.now (claims_of own)) (kept_claims kept.new)) }
    ensures interp { kept_interp kept.new ≡ kept_interp kept.old }
    ensures memory { OnErr result (kept_claims kept.new ≡ kept_claims kept.old) }
{
    let total = kept.axioms().len();
    let old = span_of(stretch, total);
    if !kept.insert(old.first, own)? {
        unreachable!();
    }
    let behind = old.first + (kept.axioms().len() - total);
    Ok(Joined {
        first: old.first,
        behind,
        end: behind + old.count,
    })
}

// Takes the axioms of a stretch of sentences out.
pub(crate) fn leave(kept: &mut Keeping, stretch: &Stretch<'_>)
    requires there { IsThere stretch.now }
    requires known { kept_claims kept.old ≡ known_with stretch.now }
    ensures left { kept_claims kept.new ≡ known_beside stretch.now [] }
    ensures interp { kept_interp kept.new ≡ kept_interp kept.old }
{
    let total = kept.axioms().len();
    let old = span_of(stretch, total);
    kept.remove(old.first, old.first + old.count);
}

// Where the axioms of a stretch of sentences stand among all that are known.
pub(crate) fn span_of(stretch: &Stretch<'_>, total: usize) -> Span
    requires there { IsThere stretch.now }
    requires total { length (known_with stretch.now) ≤ total }
    ensures within { result.first + result.count ≤ length (known_with stretch.now) }
    ensures around { (own : List Claim) → known_beside stretch.now own
        ≡ take result.first (known_with stretch.now) ++ (own ++ drop (result.first + result.count) (known_with stretch.now)) }
{
    let Stretch {
        articles,
        senses,
        place,
        from,
        to,
    } = *stretch;
    let sentences = articles[place].sentences.as_slice();
    let meant = senses[place].as_slice();
    let before = count_in(&articles[..place], &senses[..place], total);
    let own = count_of(&sentences[..from], &meant[..from], total);
    let upto = count_of(&sentences[..to], &meant[..to], total);
    Span {
        first: before + own,
        count: upto - own,
    }
}

// How many axioms the asserted sentences of articles state, at most so many.
fn count_in(articles: &[Article], senses: &[Senses], most: usize) -> usize
    requires { length (known_in articles.now senses.now) ≤ most }
    ensures { result ≡ length (known_in articles.now senses.now) }
{
    let mut count = 0;
    for place in 0..articles.len().min(senses.len()) {
        let sentences = articles[place].sentences.as_slice();
        count += count_of(sentences, senses[place].as_slice(), most);
    }
    count
}

// How many axioms those of the sentences state that are asserted, at most so many.
fn count_of(sentences: &[Sentence], senses: &[Shared<Sense>], most: usize) -> usize
    requires { length (known_of sentences.now (meanings_in senses.now)) ≤ most }
    ensures { result ≡ length (known_of sentences.now (meanings_in senses.now)) }
{
    let mut count = 0;
    for place in 0..sentences.len().min(senses.len()) {
        count += count_stated(&sentences[place], &senses[place]);
    }
    count
}

// How many axioms a sentence adds to what is known.
fn count_stated(sentence: &Sentence, sense: &Shared<Sense>) -> usize
    ensures { result ≡ length (if is_asserted sentence.now.status then stated_by (meaning_shown sense.now) else []) }
{
    if !is_asserted(sentence.status) {
        return 0;
    }
    match sense.get() {
        Sense::Stating(own) => own.len(),
        Sense::Outside(_) | Sense::Asking(_) | Sense::AskingOutside(_) => 0,
    }
}

// Copies of the axioms that a sentence states.
pub(crate) fn stated(alloc: Global, sense: &Shared<Sense>) -> Result<Axioms, Memory>
    ensures { IfOk result (λ own. claims_of own ≡ stated_by (meaning_shown sense.now)) }
{
    match sense.get() {
        Sense::Stating(own) => own.copy(),
        Sense::Outside(_) | Sense::Asking(_) | Sense::AskingOutside(_) => Ok(Axioms::new(alloc)),
    }
}
