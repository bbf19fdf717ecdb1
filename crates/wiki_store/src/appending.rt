// Tokens that are added as a sentence at the end of an article.
ghost use Rattle.std.specs.Prelude.{◌≡◌, ◌≤◌, ◌<◌, length, IfOk, OnOk, OnErr};
ghost use Rattle.wiki_base.specs.declared.tokens.TheConstants.{MOST_TOKENS};
ghost use Rattle.derivation_trees.specs.Sentences.{IsSentence};
ghost use Rattle.wiki_talk.specs.declared.limits.TheConstants.{MOST_SENTENCES};
ghost use Rattle.articles.specs.Articles.{CanChange, HasArticle, HasPlace};
ghost use Rattle.wiki_parts.specs.Found.{meaning_shown};
ghost use Rattle.plain_wiki.specs.Knowledge.{sentences_in, GetStatus};
ghost use Rattle.plain_wiki.specs.Meanings.{Means};
ghost use Rattle.plain_wiki.specs.Doing.{end_of, with_appended};
ghost use Rattle.wiki_store.specs.Spending.{SpendsAtEnd};
ghost use Rattle.wiki_parts.specs.Spending.{IsCutOff};

use crate::base::Base;
use crate::putting::Change;
use articles::Shared;
use lists::Copied;
use wiki_base::{Memory, Tokens, WordId};
use wiki_parts::{Sense, sense_of};
use wiki_talk::Status;

impl Base {
    // Adds tokens that have a derivation as a sentence at the end of a word's article, with the status that they get there.
    pub(crate) fn append(&mut self, word: WordId, tokens: &Tokens) -> Result<Status, Memory>
        requires open { CanChange self.old.state.articles word }
        requires room { length (sentences_in self.old.state.articles) < MOST_SENTENCES }
        requires few { length tokens.now ≤ MOST_TOKENS }
        requires sentence { IsSentence self.old.state.grammar self.old.state.words tokens.now }
        ensures status { IfOk result (GetStatus (IsCutOff self.old.budget) (with_appended self.old.state word tokens.now Status.Asserted) tokens.now) }
        ensures after { IfOk result (λ status. self.new.state ≡ with_appended self.old.state word tokens.now status) }
        ensures budget { OnOk result (self.new.budget ≡ self.old.budget) }
        ensures spent { IfOk result (SpendsAtEnd self.old word tokens.now) }
        ensures memory { OnErr result (self.new ≡ self.old) }
    {
        let end = self.end(word);
        let change = Change {
            word,
            from: end,
            to: end,
            tokens: Shared::new(self.alloc, tokens.copy()?)?,
            sense: Shared::new(self.alloc, self.meant(tokens)?)?,
        };
        self.put(change)
    }

    // The place behind the last sentence of the word's article.
    fn end(&self, word: WordId) -> u32
        requires { HasArticle self.now.state.articles word }
        ensures end { result ≡ end_of self.now.state.articles word }
        ensures place { HasPlace self.now.state.articles word result }
    {
        match self.articles.article(word) {
            Some(article) => article.sentences.len() as u32,
            None => unreachable!(),
        }
    }

    // What tokens mean that have a derivation.
    fn meant(&self, tokens: &Tokens) -> Result<Sense, Memory>
        requires few { length tokens.now ≤ MOST_TOKENS }
        requires sentence { IsSentence self.now.state.grammar self.now.state.words tokens.now }
        ensures { IfOk result (λ sense. Means self.now.state.grammar self.now.state.words tokens.now (meaning_shown sense)) }
    {
        match sense_of(self.alloc, &self.grammar, &self.lexicon, tokens)? {
            Some(sense) => Ok(sense),
            None => unreachable!(),
        }
    }
}
