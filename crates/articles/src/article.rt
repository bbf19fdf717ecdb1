// The article of one word, and its changes.
ghost use Rattle.std.specs.Prelude.{◌≡◌, ◌+◌, ◌<◌, ◌≤◌, length, insert, remove, slice_get, slice_set, Some, OnOk, OnErr};
ghost use Rattle.articles.specs.Articles.{changed, new_article, with_status};

use crate::sentences::{Sentence, Sentences};
use lexicon::LAST_NUMBER;
use lists::Memory;
use std::alloc::Global;
use std::mem;
use wiki_base::{Rev, WordId};
use wiki_talk::Status;

/// The article of a word: how often it was changed, at most `LAST_NUMBER` times, and its sentences.
#[derive(Drop)]
pub struct Article {
    pub word: WordId,
    pub revision: Rev,
    pub sentences: Sentences,
}

impl Article {
    // An article without sentences.
    pub(crate) fn new(alloc: Global, word: WordId) -> Article
        ensures { result ≡ new_article word }
    {
        Article {
            word,
            revision: Rev(0),
            sentences: Sentences::new(alloc),
        }
    }

    // Puts a sentence at a place, or behind the last.
    pub(crate) fn insert(&mut self, at: usize, sentence: Sentence) -> Result<(), Memory>
        requires open { self.old.revision.0 < LAST_NUMBER }
        requires place { at ≤ length self.old.sentences }
        ensures ok { OnOk result (self.new ≡ changed (λ sentences. insert sentences at sentence) self.old) }
        ensures err { OnErr result (self.new ≡ self.old) }
    {
        self.sentences.insert(at, sentence)?;
        self.revision = next(self.revision);
        Ok(())
    }

    // Puts another sentence at a place, and gives the old one back.
    pub(crate) fn replace(&mut self, at: usize, sentence: Sentence) -> Sentence
        requires open { self.old.revision.0 < LAST_NUMBER }
        requires place { at < length self.old.sentences }
        ensures article { self.new ≡ changed (λ sentences. slice_set sentences at sentence) self.old }
        ensures old { slice_get self.old.sentences at ≡ Some result }
    {
        self.revision = next(self.revision);
        self.sentences.replace(at, sentence)
    }

    // Takes the sentence at a place out.
    pub(crate) fn take(&mut self, at: usize) -> Sentence
        requires open { self.old.revision.0 < LAST_NUMBER }
        requires place { at < length self.old.sentences }
        ensures article { self.new ≡ changed (λ sentences. remove sentences at) self.old }
        ensures old { slice_get self.old.sentences at ≡ Some result }
    {
        self.revision = next(self.revision);
        self.sentences.remove(at)
    }

    // Puts other sentences in place of all, and gives those back.
    pub(crate) fn exchange(&mut self, sentences: Sentences) -> Sentences
        requires { self.old.revision.0 < LAST_NUMBER }
        ensures article { self.new ≡ changed (λ _. sentences) self.old }
        ensures old { result ≡ self.old.sentences }
    {
        self.revision = next(self.revision);
        mem::replace(&mut self.sentences, sentences)
    }

    // Gives the sentence at a place another status.
    pub(crate) fn mark(&mut self, at: usize, status: Status)
        requires open { self.old.revision.0 < LAST_NUMBER }
        requires place { at < length self.old.sentences }
        ensures { self.new ≡ changed (λ sentences. with_status sentences at status) self.old }
    {
        let none = Sentences::new(self.sentences.allocator());
        let sentences = mem::replace(&mut self.sentences, none);
        self.sentences = marked(sentences, at, status);
        self.revision = next(self.revision);
    }
}

// The sentences, of which the one at the place gets another status. It takes no memory.
fn marked(sentences: Sentences, at: usize, status: Status) -> Sentences
    requires { at < length sentences }
    ensures { result ≡ with_status sentences at status }
{
    let mut items = sentences.into_vec();
    items[at].status = status;
    Sentences::from_vec(items)
}

// The revision after this one.
fn next(revision: Rev) -> Rev
    requires { revision.0 < LAST_NUMBER }
    ensures { result.0 ≡ revision.0 + 1 }
{
    Rev(revision.0 + 1)
}
