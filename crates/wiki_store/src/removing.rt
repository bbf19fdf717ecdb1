// Sentences that leave what is known.
ghost use Rattle.std.specs.Prelude.{◌≡◌, true, IfOk, IfErr, OnOk, OnErr, IsSomeAnd};
ghost use Rattle.articles.specs.Articles.{CanChange, HasSentence, sentence_at};
ghost use Rattle.plain_wiki.specs.Causes.{FirstOf, NoneOf, may_retract};
ghost use Rattle.plain_wiki.specs.Doing.{RemovesSentence, RetractsSentence};
ghost use Rattle.plain_wiki.specs.Places.{article_named};
ghost use Rattle.wiki_parts.specs.Faults.{IsFault};
ghost use Rattle.wiki_store.specs.Asking.{against};

use crate::base::Base;
use crate::causes::{can_change, retractable};
use crate::joining::{Stretch, leave};
use wiki_base::{Text8, WordId};
use wiki_parts::Fault;
use wiki_talk::{ArticleRequest, Reply, Status};

impl Base {
    // Takes the sentence at a place of an article out.
    pub(crate) fn remove(&mut self, form: &Text8, at: u32) -> Result<Reply, Fault>
        ensures free { OnOk result (NoneOf (against self.old.state form.now (ArticleRequest.Remove at))) }
        ensures does { IfOk result (λ reply. IsSomeAnd (article_named self.old.state form.now)
            (λ article. RemovesSentence at article self.old.state reply self.new.state)) }
        ensures budget { OnOk result (self.new.budget ≡ self.old.budget) }
        ensures interpretation { OnOk result (self.new.interpretation ≡ self.old.interpretation) }
        ensures refused { IfErr result (IsFault (FirstOf (against self.old.state form.now (ArticleRequest.Remove at)))) }
        ensures kept { OnErr result (self.new ≡ self.old) }
    {
        let word = self.removable(form, at)?;
        let place = self.place(word);
        let here = at as usize;
        let gone = Stretch {
            articles: self.articles.as_slice(),
            senses: &self.senses,
            place,
            from: here,
            to: here + 1,
        };
        leave(&mut self.kept, &gone);
        let _ = self.articles.take(word, at);
        let _ = self.senses[place].remove(here);
        Ok(Reply::Remove)
    }

    // Makes the sentence at a place of an article a retracted one.
    pub(crate) fn retract(&mut self, form: &Text8, at: u32) -> Result<Reply, Fault>
        ensures free { OnOk result (NoneOf (against self.old.state form.now (ArticleRequest.Retract at))) }
        ensures does { IfOk result (λ reply. IsSomeAnd (article_named self.old.state form.now)
            (λ article. RetractsSentence at article self.old.state reply self.new.state)) }
        ensures budget { OnOk result (self.new.budget ≡ self.old.budget) }
        ensures interpretation { OnOk result (self.new.interpretation ≡ self.old.interpretation) }
        ensures refused { IfErr result (IsFault (FirstOf (against self.old.state form.now (ArticleRequest.Retract at)))) }
        ensures kept { OnErr result (self.new ≡ self.old) }
    {
        let word = self.retracted(form, at)?;
        let place = self.place(word);
        let here = at as usize;
        let gone = Stretch {
            articles: self.articles.as_slice(),
            senses: &self.senses,
            place,
            from: here,
            to: here + 1,
        };
        leave(&mut self.kept, &gone);
        let status = Status::Retracted;
        self.articles.mark(word, at, status);
        Ok(Reply::Retract { status })
    }

    // The word of the article, if nothing stands against taking the sentence out.
    fn removable(&self, form: &Text8, at: u32) -> Result<WordId, Fault>
        ensures named { IfOk result (λ word. IsSomeAnd (article_named self.now.state form.now) (λ article. article.word ≡ word)) }
        ensures open { IfOk result (CanChange self.now.state.articles) }
        ensures place { IfOk result (λ word. HasSentence self.now.state.articles word at) }
        ensures free { OnOk result (NoneOf (against self.now.state form.now (ArticleRequest.Remove at))) }
        ensures refused { IfErr result (IsFault (FirstOf (against self.now.state form.now (ArticleRequest.Remove at)))) }
    {
        let article = self.article_with(form)?;
        let _ = self.sentence(article, at)?;
        can_change(article)?;
        Ok(article.word)
    }

    // The word of the article, if nothing stands against retracting the sentence.
    fn retracted(&self, form: &Text8, at: u32) -> Result<WordId, Fault>
        ensures named { IfOk result (λ word. IsSomeAnd (article_named self.now.state form.now) (λ article. article.word ≡ word)) }
        ensures open { IfOk result (CanChange self.now.state.articles) }
        ensures place { IfOk result (λ word. HasSentence self.now.state.articles word at) }
        ensures may { IfOk result (λ word. IsSomeAnd (sentence_at self.now.state.articles word at) (λ sentence. may_retract sentence.status ≡ true)) }
        ensures free { OnOk result (NoneOf (against self.now.state form.now (ArticleRequest.Retract at))) }
        ensures refused { IfErr result (IsFault (FirstOf (against self.now.state form.now (ArticleRequest.Retract at)))) }
    {
        let article = self.article_with(form)?;
        let sentence = self.sentence(article, at)?;
        can_change(article)?;
        retractable(article, at, sentence)?;
        Ok(article.word)
    }
}
