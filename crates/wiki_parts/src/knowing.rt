// The axioms that are known, from what is kept of the sentences.
ghost use Rattle.std.specs.Prelude.{◌≡◌, ◌++◌, [], IfOk, OnOk, if◌then◌else◌};
ghost use Rattle.logic_terms.specs.Shown.{claims_of};
ghost use Rattle.wiki_parts.specs.Kept.{stated_by, known_of, known_in, known_around, meanings_in, IsAround};
ghost use Rattle.plain_wiki.specs.Knowledge.{is_asserted};
ghost use Rattle.wiki_parts.specs.Found.{meaning_shown};

use crate::meanings::Sense;
use articles::{Article, Sentence, Shared};
use lists::List;
use logic_terms::Axioms;
use std::alloc::Global;
use wiki_base::Memory;
use wiki_talk::Status;

/// What is kept of the sentences of an article, in order. Copies share what a sentence means.
pub type Senses = List<Shared<Sense>>;

/// The axioms that are known with these in place of those of some sentences of an article, from a place to before another.
pub fn known_around(
    alloc: Global,
    articles: &[Article],
    senses: &[Senses],
    place: usize,
    from: usize,
    own: &Axioms,
    to: usize,
) -> Result<Axioms, Memory>
    requires { IsAround articles.now senses.now place from to }
    ensures { IfOk result (λ axioms. claims_of axioms ≡ known_around articles.now senses.now place from (claims_of own.now) to) }
{
    let sentences = articles[place].sentences.as_slice();
    let meant = senses[place].as_slice();
    let mut known = Axioms::new(alloc);
    push_articles(alloc, &mut known, &articles[..place], &senses[..place])?;
    push_sentences(alloc, &mut known, &sentences[..from], &meant[..from])?;
    push_all(alloc, &mut known, own)?;
    push_sentences(alloc, &mut known, &sentences[to..], &meant[to..])?;
    push_articles(
        alloc,
        &mut known,
        &articles[place + 1..],
        &senses[place + 1..],
    )?;
    Ok(known)
}

/// Adds the axioms of the asserted sentences of articles.
pub fn push_articles(
    alloc: Global,
    known: &mut Axioms,
    articles: &[Article],
    senses: &[Senses],
) -> Result<(), Memory>
    ensures { OnOk result (claims_of known.new ≡ claims_of known.old ++ known_in articles.now senses.now) }
{
    let count = articles.len().min(senses.len());
    for place in 0..count {
        push_sentences(
            alloc,
            known,
            articles[place].sentences.as_slice(),
            senses[place].as_slice(),
        )?;
    }
    Ok(())
}

/// Adds the axioms of those of the sentences that are asserted.
pub fn push_sentences(
    alloc: Global,
    known: &mut Axioms,
    sentences: &[Sentence],
    senses: &[Shared<Sense>],
) -> Result<(), Memory>
    ensures { OnOk result (claims_of known.new ≡ claims_of known.old ++ known_of sentences.now (meanings_in senses.now)) }
{
    let count = sentences.len().min(senses.len());
    for place in 0..count {
        push_sentence(alloc, known, &sentences[place], senses[place].get())?;
    }
    Ok(())
}

// Adds the axioms of a sentence, if it is asserted.
fn push_sentence(
    alloc: Global,
    known: &mut Axioms,
    sentence: &Sentence,
    sense: &Sense,
) -> Result<(), Memory>
    ensures { OnOk result (claims_of known.new ≡ claims_of known.old ++ (if is_asserted sentence.now.status then stated_by (meaning_shown sense.now) else [])) }
{
    if is_asserted(sentence.status) {
        push_stated(alloc, known, sense)
    } else {
        Ok(())
    }
}

// Adds the axioms that a sentence states.
fn push_stated(alloc: Global, known: &mut Axioms, sense: &Sense) -> Result<(), Memory>
    ensures { OnOk result (claims_of known.new ≡ claims_of known.old ++ stated_by (meaning_shown sense.now)) }
{
    match sense {
        Sense::Stating(own) => push_all(alloc, known, own),
        Sense::Asking(_) => Ok(()),
        Sense::Outside(_) => Ok(()),
        Sense::AskingOutside(_) => Ok(()),
    }
}

/// Adds copies of axioms.
pub fn push_all(alloc: Global, known: &mut Axioms, more: &Axioms) -> Result<(), Memory>
    ensures { OnOk result (claims_of known.new ≡ claims_of known.old ++ claims_of more.now) }
{
    for place in 0..more.len() {
        known.push(more.get(place).copy(alloc)?)?;
    }
    Ok(())
}

/// Whether it is the status of a sentence that counts.
pub fn is_asserted(status: Status) -> bool
    ensures { result ≡ is_asserted status }
{
    matches!(status, Status::Asserted)
}
