// The sentences of the wiki as parts of what it knows.
ghost use Rattle.std.specs.Prelude.{◌≡◌, ◌≤◌, ◌++◌, All, length, IfOk, OnOk};
ghost use Rattle.logic_terms.specs.Shown.{claims_of};
ghost use Rattle.wiki_talk.specs.declared.limits.TheConstants.{MOST_SENTENCES};
ghost use Rattle.wiki_parts.specs.Found.{meaning_shown};
ghost use Rattle.wiki_parts.specs.Kept.{stated_by, meanings_in};
ghost use Rattle.wiki_core.specs.Counting.{plain_parts, part_at, parts_from, parts_in};
ghost use Rattle.wiki_core.specs.Parts.{is_same_place, is_taken, is_counted};

use crate::wiki::Wiki;
use articles::{Article, Sentence, Shared};
use explain::Part;
use lists::List;
use logic_terms::Axioms;
use std::alloc::Global;
use wiki_base::{Memory, Place, WordId};
use wiki_parts::{Sense, Senses, is_asserted};
use wiki_talk::Status;

/// Sentences as parts of what is known, in order.
pub type Parts = List<Part>;

impl Wiki {
    ghost use Rattle.std.specs.Prelude.{None, Some};
    ghost use Rattle.wiki_core.specs.Parts.{AreParts};

    /// The asserted sentences with the axioms that they state: articles in order of word number, sentences in order.
    pub fn parts(&self) -> Result<Parts, Memory>
        ensures { IfOk result (AreParts self.now.state.stored None) }
    {
        self.parts_counted(None)
    }

    /// The same with the sentence at a place, if there is one, whatever its status is.
    pub fn parts_with(&self, place: Place) -> Result<Parts, Memory>
        ensures { IfOk result (AreParts self.now.state.stored (Some place)) }
    {
        self.parts_counted(Some(place))
    }

    // The parts of the sentences that are asserted, or taken as asserted.
    fn parts_counted(&self, taken: Option<Place>) -> Result<Parts, Memory>
        ensures { IfOk result (AreParts self.now.state.stored taken) }
    {
        self.is_fit();
        self.store.is_kept();
        let mut parts = List::new(self.alloc);
        push_articles(
            self.alloc,
            &mut parts,
            taken,
            self.store.articles(),
            self.store.senses(),
        )?;
        Ok(parts)
    }
}

// Adds the parts of the sentences of articles.
fn push_articles(
    alloc: Global,
    parts: &mut Parts,
    taken: Option<Place>,
    articles: &[Article],
    senses: &[Senses],
) -> Result<(), Memory>
    requires { All (λ article. length article.sentences ≤ MOST_SENTENCES) articles.now }
    ensures { OnOk result (plain_parts parts.new ≡ plain_parts parts.old ++ parts_in taken articles.now senses.now) }
{
    let count = articles.len().min(senses.len());
    for place in 0..count {
        push_sentences(
            alloc,
            parts,
            taken,
            articles[place].word,
            articles[place].sentences.as_slice(),
            senses[place].as_slice(),
        )?;
    }
    Ok(())
}

// Adds the parts of the sentences of a word's article.
fn push_sentences(
    alloc: Global,
    parts: &mut Parts,
    taken: Option<Place>,
    word: WordId,
    sentences: &[Sentence],
    senses: &[Shared<Sense>],
) -> Result<(), Memory>
    requires { length sentences.now ≤ MOST_SENTENCES }
    ensures { OnOk result (plain_parts parts.new ≡ plain_parts parts.old ++ parts_from taken word 0 sentences.now (meanings_in senses.now)) }
{
    let count = sentences.len().min(senses.len());
    for at in 0..count {
        let place = Place {
            article: word,
            at: at as u32,
        };
        push_sentence(alloc, parts, taken, place, &sentences[at], &senses[at])?;
    }
    Ok(())
}

// Adds the part of a sentence, if it counts.
fn push_sentence(
    alloc: Global,
    parts: &mut Parts,
    taken: Option<Place>,
    place: Place,
    sentence: &Sentence,
    sense: &Shared<Sense>,
) -> Result<(), Memory>
    ensures { OnOk result (plain_parts parts.new ≡ plain_parts parts.old ++ part_at taken place sentence.now.status (meaning_shown sense.now)) }
{
    if is_counted(taken, place, sentence.status) {
        parts.push(Part {
            article: place.article,
            at: place.at,
            axioms: stated(alloc, sense)?,
        })
    } else {
        Ok(())
    }
}

// A copy of the axioms that a sentence states.
fn stated(alloc: Global, sense: &Shared<Sense>) -> Result<Axioms, Memory>
    ensures { IfOk result (λ axioms. claims_of axioms ≡ stated_by (meaning_shown sense.now)) }
{
    match sense.get() {
        Sense::Stating(axioms) => axioms.copy(),
        Sense::Outside(_) | Sense::Asking(_) | Sense::AskingOutside(_) => Ok(Axioms::new(alloc)),
    }
}

// Whether the sentence at a place is asserted, or taken as asserted.
fn is_counted(taken: Option<Place>, place: Place, status: Status) -> bool
    ensures { result ≡ is_counted taken place status }
{
    is_asserted(status) || is_taken(taken, place)
}

fn is_taken(taken: Option<Place>, place: Place) -> bool
    ensures { result ≡ is_taken taken place }
{
    match taken {
        Some(other) => is_same_place(other, place),
        None => false,
    }
}

fn is_same_place(one: Place, other: Place) -> bool
    ensures { result ≡ is_same_place one other }
{
    one.article.0 == other.article.0 && one.at == other.at
}
