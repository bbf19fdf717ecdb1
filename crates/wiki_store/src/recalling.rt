// What an article has, kept and put back.
ghost use Rattle.std.specs.Prelude.{◌≡◌, ◌↔◌, ◌++◌, ◌+◌, ◌<◌, length, take, drop, true, false, None, IsTrue, IfOk, MatchOption};
ghost use Rattle.articles.specs.Articles.{article_of, CanChange};
ghost use Rattle.logic_terms.specs.Reading.{IsModel};
ghost use Rattle.owl_eval.specs.Checked.{kept_interp, kept_claims};
ghost use Rattle.wiki_parts.specs.Kept.{known_of, known_in, meanings_in};
ghost use Rattle.plain_wiki.specs.Knowledge.{Knows};
ghost use Rattle.wiki_store.specs.PuttingBack.{with_sentences, CanBePut, put_back, IsOfArticle};

use crate::base::Base;
use crate::keeping::Keeping;
use articles::Article;
use history::Kept;
use lexicon::LAST_NUMBER;
use lists::Copied;
use logic_terms::Axioms;
use owl_eval::CheckedModel;
use std::alloc::Global;
use wiki_base::{Memory, WordId};
use wiki_parts::{Senses, push_articles, push_sentences};

impl Base {
    // What the article of a word has now, if there is one, with the interpretation that is kept. All is shared.
    pub(crate) fn keep(&self, word: WordId) -> Result<Option<Kept>, Memory>
        ensures { IfOk result (λ kept. MatchOption kept (article_of self.now.state.articles word ≡ None) (IsOfArticle self.now word)) }
    {
        let _ = self.articles.len();
        match self.articles.sentences(word) {
            Some(sentences) => {
                let senses = self.senses_of(word);
                Ok(Some(Kept {
                    article: word,
                    sentences: sentences.copy()?,
                    senses: senses.copy()?,
                    interp: self.kept.shared()?,
                }))
            }
            None => Ok(None),
        }
    }

    // The interpretation that was kept as a model of what is known where it is put back.
    pub(crate) fn model_of(&self, kept: &Kept) -> Result<CheckedModel, Memory>
        requires { CanBePut self.now.state kept.now }
        ensures interp { IfOk result (λ model. kept_interp model ≡ kept.now.interp) }
        ensures known { IfOk result (λ model. Knows (with_sentences self.now.state kept.now.article kept.now.sentences) (kept_claims model)) }
    {
        let articles = self.articles.as_slice();
        let place = self.place(kept.article);
        model_with(self.alloc, articles, &self.senses, place, kept)
    }

    // Puts back what an article had, unless it was changed as often as may be. It takes no memory.
    pub(crate) fn put_back(&mut self, kept: Kept, model: CheckedModel) -> bool
        requires can { CanBePut self.old.state kept }
        requires interp { kept_interp model ≡ kept.interp }
        requires known { Knows (with_sentences self.old.state kept.article kept.sentences) (kept_claims model) }
        ensures exactly { IsTrue result ↔ CanChange self.old.state.articles kept.article }
        ensures done { result ≡ true → self.new ≡ put_back self.old kept }
        ensures refused { result ≡ false → self.new ≡ self.old }
    {
        let place = self.place(kept.article);
        if self.articles.as_slice()[place].revision.0 == LAST_NUMBER {
            return false;
        }
        let _ = self.articles.exchange(kept.article, kept.sentences);
        self.senses[place] = kept.senses;
        self.kept = Keeping::sharing(model, kept.interp);
        true
    }
}

// The interpretation that was kept as a model of what is known with the sentences that were kept in place of those of the article at a
// place.
fn model_with(
    alloc: Global,
    articles: &[Article],
    senses: &[Senses],
    place: usize,
    kept: &Kept,
) -> Result<CheckedModel, Memory>
    requires place { place < length articles.now }
    requires many { length senses.now ≡ length articles.now }
    requires model { IsModel kept.now.interp (known_in (take place articles.now) (take place senses.now)
        ++ (known_of kept.now.sentences (meanings_in kept.now.senses) ++ known_in (drop (place + 1) articles.now) (drop (place + 1) senses.now))) }
    ensures interp { IfOk result (λ model. kept_interp model ≡ kept.now.interp) }
    ensures claims { IfOk result (λ model. kept_claims model ≡ known_in (take place articles.now) (take place senses.now)
        ++ (known_of kept.now.sentences (meanings_in kept.now.senses) ++ known_in (drop (place + 1) articles.now) (drop (place + 1) senses.now))) }
{
    let mut known = Axioms::new(alloc);
    push_articles(alloc, &mut known, &articles[..place], &senses[..place])?;
    push_sentences(
        alloc,
        &mut known,
        kept.sentences.as_slice(),
        kept.senses.as_slice(),
    )?;
    push_articles(
        alloc,
        &mut known,
        &articles[place + 1..],
        &senses[place + 1..],
    )?;
    match CheckedModel::new(kept.interp.get().copy()?, known) {
        Ok(model) => Ok(model),
        Err(_) => unreachable!(),
    }
}
