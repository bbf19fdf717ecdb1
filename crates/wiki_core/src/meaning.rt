// What one sentence means.
ghost use Rattle.std.specs.Prelude.{◌≡◌, None, IfOk, MatchOption, option_map};
ghost use Rattle.logic_terms.specs.Shown.{claims_of, concept_of};
ghost use Rattle.wiki_parts.specs.Found.{meaning_shown};
ghost use Rattle.wiki_parts.specs.Kept.{stated_by};
ghost use Rattle.wiki_core.specs.Parts.{asked_by};

use crate::wiki::Wiki;
use articles::Sentence;
use logic_terms::{Axioms, Class};
use std::alloc::Global;
use wiki_base::{Memory, WordId};
use wiki_parts::{Sense, sense_of};
use wiki_talk::Status;

/// What a sentence means, and its status.
#[derive(Drop)]
pub struct Meaning {
    pub status: Status,
    /// The axioms that it states, whether it is asserted or not.
    pub axioms: Axioms,
    /// The class that it asks for, if it asks for one.
    pub class: Option<Class>,
}

impl Wiki {
    ghost use Rattle.articles.specs.Articles.{sentence_at};
    ghost use Rattle.wiki_parts.specs.Holding.{IsStored};
    ghost use Rattle.wiki_core.specs.Parts.{IsMeaningOf, IsMeaningAt};

    /// What the sentence at a place of a word's article means, if there is one.
    pub fn meaning(&self, article: WordId, at: u32) -> Result<Option<Meaning>, Memory>
        ensures { IfOk result (λ told. MatchOption told
            (sentence_at self.now.state.stored.articles article at ≡ None) (IsMeaningAt self.now.state.stored article at)) }
    {
        match self.sentence(article, at) {
            Some(sentence) => Ok(Some(self.meaning_of(sentence)?)),
            None => Ok(None),
        }
    }

    // What a stored sentence means.
    fn meaning_of(&self, sentence: &Sentence) -> Result<Meaning, Memory>
        requires { IsStored self.now.state.stored sentence.now }
        ensures { IfOk result (IsMeaningOf self.now.state.stored sentence.now) }
    {
        self.is_fit();
        match sense_of(
            self.alloc,
            self.grammar(),
            self.lexicon(),
            sentence.tokens.get(),
        )? {
            Some(sense) => Ok(told(self.alloc, sentence.status, sense)),
            None => unreachable!(),
        }
    }
}

// A meaning with a status.
fn told(alloc: Global, status: Status, sense: Sense) -> Meaning
    ensures status { result.status ≡ status }
    ensures axioms { claims_of result.axioms ≡ stated_by (meaning_shown sense) }
    ensures class { option_map concept_of result.class ≡ asked_by (meaning_shown sense) }
{
    let (axioms, class) = match sense {
        Sense::Stating(axioms) => (axioms, None),
        Sense::Asking(class) => (Axioms::new(alloc), Some(class)),
        Sense::Outside(_) | Sense::AskingOutside(_) => (Axioms::new(alloc), None),
    };
    Meaning {
        status,
        axioms,
        class,
    }
}
