// What stood before a change: kept, and put back.
ghost use Rattle.std.specs.Prelude.{◌≡◌, ◌↔◌, true, false, None, IsTrue, IfOk, MatchOption, option_map};
ghost use Rattle.articles.specs.Articles.{article_of, CanChange};
ghost use Rattle.owl_eval.specs.Checked.{kept_interp, kept_claims};
ghost use Rattle.plain_wiki.specs.Knowledge.{Knows};
ghost use Rattle.wiki_store.specs.PuttingBack.{with_sentences, CanBePut, IsOfArticle};

use crate::wiki::Wiki;
use history::Kept;
use owl_eval::CheckedModel;
use wiki_base::{Memory, Rev, SessionId, WordId};

impl Wiki {
    ghost use Rattle.plain_wiki.specs.Places.{session_numbered};
    ghost use Rattle.wiki_core.specs.Holding.{store_held, IsKept};
    ghost use Rattle.wiki_core.specs.PuttingBack.{put_back};

    /// The word whose article the session with the number edits. `None` exactly where there is no such session.
    pub fn article_of(&self, session: SessionId) -> Option<WordId>
        ensures { result ≡ option_map (λ found. found.article) (session_numbered self.now.state session.0) }
    {
        match self.sessions.session(session) {
            Some(found) => Some(found.article),
            None => None,
        }
    }

    /// How often the article of a word was changed. `None` exactly where it has none.
    pub fn revision(&self, article: WordId) -> Option<Rev>
        ensures { result ≡ option_map (λ found. found.revision) (article_of self.now.state.stored.articles article) }
    {
        match self.store.article_of(article) {
            Some(found) => Some(found.revision),
            None => None,
        }
    }

    /// What the article of a word has now, with a copy of the interpretation that is kept. `None` exactly where it has none.
    pub fn keep(&self, article: WordId) -> Result<Option<Kept>, Memory>
        ensures { IfOk result (λ kept. MatchOption kept (article_of self.now.state.stored.articles article ≡ None)
            (IsOfArticle (store_held self.now) article)) }
    {
        self.store.keep(article)
    }

    /// The interpretation that was kept with what an article had, as a model of what is known where that is put back.
    pub fn model_of(&self, kept: &Kept) -> Result<CheckedModel, Memory>
        requires { CanBePut self.now.state.stored kept.now }
        ensures interp { IfOk result (λ model. kept_interp model ≡ kept.now.interp) }
        ensures known { IfOk result (λ model. Knows (with_sentences self.now.state.stored kept.now.article kept.now.sentences) (kept_claims model)) }
    {
        self.store.model_of(kept)
    }

    /// Puts back what an article had: its sentences as they were, under its next revision, and the model of what is known with
    /// them, which `model_of` gives. It is false exactly where the article was changed as often as may be, and then nothing
    /// changes. It takes no memory.
    pub fn put_back(&mut self, kept: Kept, model: CheckedModel) -> bool
        requires can { CanBePut self.old.state.stored kept }
        requires interp { kept_interp model ≡ kept.interp }
        requires known { Knows (with_sentences self.old.state.stored kept.article kept.sentences) (kept_claims model) }
        ensures exactly { IsTrue result ↔ CanChange self.old.state.stored.articles kept.article }
        ensures done { result ≡ true → self.new ≡ put_back self.old kept }
        ensures refused { result ≡ false → self.new ≡ self.old }
        ensures kept { IsKept self.new }
    {
        let done = self.store_put_back(kept, model);
        self.is_kept();
        done
    }

    // Puts back what an article had, beside the sessions.
    fn store_put_back(&mut self, kept: Kept, model: CheckedModel) -> bool
        requires can { CanBePut self.old.state.stored kept }
        requires interp { kept_interp model ≡ kept.interp }
        requires known { Knows (with_sentences self.old.state.stored kept.article kept.sentences) (kept_claims model) }
        ensures exactly { IsTrue result ↔ CanChange self.old.state.stored.articles kept.article }
        ensures done { result ≡ true → self.new ≡ put_back self.old kept }
        ensures refused { result ≡ false → self.new ≡ self.old }
    {
        self.store.put_back(kept, model)
    }
}
