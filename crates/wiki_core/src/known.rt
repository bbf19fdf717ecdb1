// What the wiki lends of itself.
ghost use Rattle.std.specs.Prelude.{◌≡◌, IsTrue, IfOk, IfSome, option_copied};

use crate::wiki::Wiki;
use articles::Sentence;
use codeco_checked::CheckedGrammar;
use lexicon::Lexicon;
use logic_terms::{Axioms, Names};
use wiki_base::{Memory, WordId};
use wiki_parts::live_names;

impl Wiki {
    ghost use Rattle.articles.specs.Articles.{sentence_at};
    ghost use Rattle.codeco_checked.specs.Sound.{is_labelled, IsSound};
    ghost use Rattle.lexicon.specs.Words.{IsLexicon};
    ghost use Rattle.logic_terms.specs.Shown.{claims_of};
    ghost use Rattle.wiki_parts.specs.Holding.{IsStored};
    ghost use Rattle.plain_wiki.specs.Knowledge.{Knows, live_names};

    /// The grammar of sentences, in which each rule has a label.
    pub fn grammar(&self) -> &CheckedGrammar
        ensures grammar { result.now ≡ self.now.state.stored.grammar }
        ensures labelled { IsTrue (is_labelled result.now) }
    {
        self.store.is_kept();
        self.store.grammar()
    }

    /// The live words.
    pub fn lexicon(&self) -> &Lexicon
        ensures { result.now ≡ self.now.state.stored.words }
    {
        self.store.lexicon()
    }

    /// What the wiki knows: the axioms of all asserted sentences, articles in order of word number, sentences in order.
    pub fn asserted(&self) -> &Axioms
        ensures { Knows self.now.state.stored (claims_of result.now) }
    {
        self.store.asserted()
    }

    /// The live words that are names, in order of number.
    pub fn names(&self) -> Result<Names, Memory>
        ensures { IfOk result (λ names. names ≡ live_names self.now.state.stored.words) }
    {
        live_names(self.alloc, self.store.lexicon())
    }

    /// The sentence at a place of a word's article, if there is one.
    pub fn sentence(&self, article: WordId, at: u32) -> Option<&Sentence>
        ensures found { option_copied result ≡ sentence_at self.now.state.stored.articles article at }
        ensures stored { IfSome result (λ sentence. IsStored self.now.state.stored sentence.now) }
    {
        self.store.is_kept();
        match self.store.article_of(article) {
            Some(article) => article.sentences.as_slice().get(at as usize),
            None => None,
        }
    }

    // The grammar is one without faults, and no two words share a form.
    pub(crate) fn is_fit(&self)
        ensures grammar { IsSound self.now.state.stored.grammar }
        ensures words { IsLexicon self.now.state.stored.words }
    {
        let _ = self.store.grammar().grammar();
        let _ = self.store.lexicon().len();
    }
}
