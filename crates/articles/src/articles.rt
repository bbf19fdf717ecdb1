// The articles of a wiki.
ghost use Rattle.std.specs.Prelude.{◌≡◌, ◌<◌, ◌≤◌, ◌↔◌, [], ◌∷◌, ◌++◌, length, insert, remove, slice_get, slice_set, option_map, option_copied, IsTrue, IfOk, IfSome, OnOk, OnErr, MatchOption, None, Some, All};

use crate::article::Article;
use crate::sentences::{Sentence, Sentences};
use std::alloc::Global;
use std::marker::Model;
use wiki_base::{Memory, Rev, WordId};
use wiki_talk::Status;

/// The articles of a wiki, one for a word, in order of the numbers of their words. They are seen as the list of them.
#[derive(Drop)]
pub struct Articles {
    articles: Vec<Article>,
}

impl Model for Articles {
    ghost use Rattle.std.specs.Prelude.{List};
    ghost use Rattle.articles.specs.declared.article.Article.{Article};
    ghost use Rattle.articles.specs.Articles.{AreInOrder};

    ghost Value = { List Article };

    ghost view = { λ a. a.articles.items };

    ghost invariant = { λ a. AreInOrder a.articles.items };
}

impl Articles {
    ghost use Rattle.articles.specs.Articles.{AreInOrder, article_of, new_article, without_article, with_change, with_status, sentence_at, HasArticle, IsEmptyArticle, CanChange, HasSentence, HasPlace};
    ghost use Rattle.articles.specs.Places.{IsPlaceOf};

    /// No articles.
    pub fn new(alloc: Global) -> Result<Articles, Memory>
        ensures { IfOk result (λ articles. articles ≡ []) }
    {
        Ok(Articles {
            articles: Vec::new(alloc),
        })
    }

    /// How many there are.
    pub fn len(&self) -> usize
        ensures count { result ≡ length self.now }
        ensures in_order { AreInOrder self.now }
    {
        self.articles.len()
    }

    /// Whether there is none.
    pub fn is_empty(&self) -> bool
        ensures { IsTrue result ↔ (self.now ≡ []) }
    {
        self.articles.is_empty()
    }

    /// The article at a place below the length.
    pub fn get(&self, place: usize) -> &Article
        requires { place < length self.now }
        ensures { slice_get self.now place ≡ Some result.now }
    {
        &self.articles[place]
    }

    /// All of them, in order.
    pub fn as_slice(&self) -> &[Article]
        ensures articles { result.now ≡ self.now }
        ensures in_order { AreInOrder self.now }
    {
        self.articles.as_slice()
    }

    /// The article of a word.
    pub fn article(&self, word: WordId) -> Option<&Article>
        ensures { option_copied result ≡ article_of self.now word }
    {
        match self.place_of(word) {
            Some(place) => Some(&self.articles[place]),
            None => None,
        }
    }

    /// How often the article of a word was changed.
    pub fn revision(&self, article: WordId) -> Option<Rev>
        ensures { result ≡ option_map (λ found. found.revision) (article_of self.now article) }
    {
        match self.article(article) {
            Some(found) => Some(found.revision),
            None => None,
        }
    }

    /// The sentences of the article of a word.
    pub fn sentences(&self, article: WordId) -> Option<&Sentences>
        ensures { option_map (λ sentences. sentences.now) result ≡ option_map (λ found. found.sentences) (article_of self.now article) }
    {
        match self.article(article) {
            Some(found) => Some(&found.sentences),
            None => None,
        }
    }

    /// Adds an empty article at revision 0, of a word whose number is greater than every other.
    pub fn begin(&mut self, article: WordId) -> Result<(), Memory>
        requires { All (λ other. other.word.0 < article.0) self.old }
        ensures ok { OnOk result (self.new ≡ self.old ++ new_article article ∷ []) }
        ensures err { OnErr result (self.new ≡ self.old) }
    {
        let begun = Article::new(*self.articles.allocator(), article);
        self.articles.push(begun)?;
        Ok(())
    }

    /// Takes out an article that is there and has no sentence.
    pub fn end(&mut self, article: WordId)
        requires { IsEmptyArticle self.old article }
        ensures { self.new ≡ without_article self.old article }
    {
        let place = self.place_there(article);
        let _ = self.articles.remove(place);
    }

    /// Puts a sentence at a place, before the one that is there, or behind the last.
    pub fn insert(&mut self, article: WordId, at: u32, sentence: Sentence) -> Result<(), Memory>
        requires open { CanChange self.old article }
        requires place { HasPlace self.old article at }
        ensures ok { OnOk result (self.new ≡ with_change self.old article (λ sentences. insert sentences at sentence)) }
        ensures err { OnErr result (self.new ≡ self.old) }
    {
        let place = self.place_there(article);
        self.articles[place].insert(at as usize, sentence)
    }

    /// Puts a sentence in place of another, and gives that one back.
    pub fn replace(&mut self, article: WordId, at: u32, sentence: Sentence) -> Sentence
        requires open { CanChange self.old article }
        requires place { HasSentence self.old article at }
        ensures articles { self.new ≡ with_change self.old article (λ sentences. slice_set sentences at sentence) }
        ensures old { sentence_at self.old article at ≡ Some result }
    {
        let place = self.place_there(article);
        self.articles[place].replace(at as usize, sentence)
    }

    /// Takes a sentence out.
    pub fn take(&mut self, article: WordId, at: u32) -> Sentence
        requires open { CanChange self.old article }
        requires place { HasSentence self.old article at }
        ensures articles { self.new ≡ with_change self.old article (λ sentences. remove sentences at) }
        ensures old { sentence_at self.old article at ≡ Some result }
    {
        let place = self.place_there(article);
        self.articles[place].take(at as usize)
    }

    /// Puts other sentences in place of all that an article has, and gives those back.
    pub fn exchange(&mut self, article: WordId, sentences: Sentences) -> Sentences
        requires { CanChange self.old article }
        ensures articles { self.new ≡ with_change self.old article (λ _. sentences) }
        ensures old { option_map (λ found. found.sentences) (article_of self.old article) ≡ Some result }
    {
        let place = self.place_there(article);
        self.articles[place].exchange(sentences)
    }

    /// Gives a sentence another status.
    pub fn mark(&mut self, article: WordId, at: u32, status: Status)
        requires open { CanChange self.old article }
        requires place { HasSentence self.old article at }
        ensures { self.new ≡ with_change self.old article (λ sentences. with_status sentences at status) }
    {
        let place = self.place_there(article);
        self.articles[place].mark(at as usize, status);
    }

    /// Where the article of a word stands in the list, if it has one.
    pub fn place_of(&self, word: WordId) -> Option<usize>
        ensures { MatchOption result (article_of self.now word ≡ None) (IsPlaceOf self.now word) }
    {
        self.articles
            .binary_search_by_key(&word.0, |article| article.word.0)
            .ok()
    }

    // Where the word's article stands, which is there.
    fn place_there(&self, word: WordId) -> usize
        requires { HasArticle self.now word }
        ensures { IsPlaceOf self.now word result }
    {
        match self.place_of(word) {
            Some(place) => place,
            None => unreachable!(),
        }
    }
}
