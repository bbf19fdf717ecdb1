// A word that goes.
ghost use Rattle.std.specs.Prelude.{◌≡◌, Some, IfOk, IfErr, OnOk, IsSomeAnd};
ghost use Rattle.articles.specs.Articles.{without_article};
ghost use Rattle.wiki_parts.specs.Faults.{IsFault};
ghost use Rattle.plain_wiki.specs.Places.{word_with, word_named};
ghost use Rattle.wiki_store.specs.Rewording.{IsGone};
ghost use Rattle.plain_wiki.specs.Against.{against_word, against_form};
ghost use Rattle.plain_wiki.specs.Causes.{FirstOf, NoneOf};
ghost use Rattle.plain_wiki.specs.Doing.{RemovesWord};

use crate::base::Base;
use lexicon::Lexicon;
use lists::Copied;
use wiki_base::{Text8, WordId};
use wiki_parts::Fault;
use wiki_talk::{Reply, WordRequest};

impl Base {
    // The word that has this form, and the words without it, if no sentence needs it. Refused are, in this order, a form that
    // no word has, and a word that a sentence needs.
    pub(crate) fn unwording(&self, form: &Text8) -> Result<(WordId, Lexicon), Fault>
        ensures named { IfOk result (λ gone. word_named self.now.state form.now ≡ Some gone.0) }
        ensures free { OnOk result (NoneOf (against_form self.now.state form.now (against_word self.now.state WordRequest.Unword))) }
        ensures removes { IfOk result (λ gone. IsSomeAnd (word_with self.now.state form.now) (λ word. RemovesWord word self.now.state Reply.Unword
            (record self.now.state { words = gone.1; articles = without_article self.now.state.articles gone.0 }))) }
        ensures gone { IfOk result (λ gone. IsGone self.now.state gone.0 gone.1) }
        ensures refused { IfErr result (IsFault (FirstOf (against_form self.now.state form.now (against_word self.now.state WordRequest.Unword)))) }
    {
        let word = self.named(form)?;
        match self.use_of(word) {
            Some(place) => Err(Fault::Refused(self.in_use(place)?)),
            None => {
                let mut lexicon = self.lexicon.copy()?;
                let _ = lexicon.remove(word);
                Ok((word, lexicon))
            }
        }
    }

    // Takes in the words without one that no sentence needs, and takes out its empty article.
    pub(crate) fn unworded(&mut self, word: WordId, lexicon: Lexicon)
        requires { IsGone self.old.state word lexicon }
        ensures { self.new ≡ record self.old { state = record self.old.state { words = lexicon; articles = without_article self.old.state.articles word } } }
    {
        let _ = self.lexicon.len();
        let _ = self.articles.len();
        let place = self.place(word);
        let _ = self.senses.remove(place);
        self.articles.end(word);
        self.lexicon = lexicon;
    }
}
