// What the store lends of itself.
ghost use Rattle.std.specs.Prelude.{◌≡◌, ◌≤◌, length, option_copied};
ghost use Rattle.wiki_talk.specs.declared.limits.TheConstants.{MOST_SENTENCES as most_sentences};
ghost use Rattle.articles.specs.Articles.{article_of};
ghost use Rattle.logic_terms.specs.Shown.{claims_of};
ghost use Rattle.wiki_parts.specs.Kept.{MeanInEach};
ghost use Rattle.plain_wiki.specs.Knowledge.{sentences_in, Knows};
ghost use Rattle.wiki_parts.specs.Sound.{IsSound};

use crate::base::Base;
use articles::Article;
use codeco_checked::CheckedGrammar;
use lexicon::Lexicon;
use logic_terms::Axioms;
use wiki_base::WordId;
use wiki_parts::Senses;

impl Base {
    // The grammar of sentences.
    pub(crate) fn grammar(&self) -> &CheckedGrammar
        ensures { result.now ≡ self.now.state.grammar }
    {
        &self.grammar
    }

    // The live words.
    pub(crate) fn lexicon(&self) -> &Lexicon
        ensures { result.now ≡ self.now.state.words }
    {
        &self.lexicon
    }

    // The article of a word.
    pub(crate) fn article_of(&self, word: WordId) -> Option<&Article>
        ensures found { option_copied result ≡ article_of self.now.state.articles word }
        ensures sound { IsSound self.now.state }
    {
        self.articles.article(word)
    }

    // How many sentences there are, at most `MOST_SENTENCES`.
    pub(crate) fn sentence_count(&self) -> usize
        ensures count { result ≡ length (sentences_in self.now.state.articles) }
        ensures few { result ≤ most_sentences }
    {
        sentence_count(self.articles.as_slice())
    }

    // The articles, in order of the numbers of their words.
    pub(crate) fn articles(&self) -> &[Article]
        ensures { result.now ≡ self.now.state.articles }
    {
        self.articles.as_slice()
    }

    // What the sentences of each article mean.
    pub(crate) fn senses(&self) -> &[Senses]
        ensures { MeanInEach self.now.state.grammar self.now.state.words self.now.state.articles result.now }
    {
        self.senses.as_slice()
    }

    // The axioms of the asserted sentences.
    pub(crate) fn asserted(&self) -> &Axioms
        ensures { Knows self.now.state (claims_of result.now) }
    {
        self.kept.axioms()
    }
}

// How many sentences the articles have.
fn sentence_count(articles: &[Article]) -> usize
    requires { length (sentences_in articles.now) ≤ most_sentences }
    ensures { result ≡ length (sentences_in articles.now) }
{
    let mut count = 0;
    for article in articles {
        count += article.sentences.len();
    }
    count
}
