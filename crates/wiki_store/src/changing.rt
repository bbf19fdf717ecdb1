// Sentences that change in their places.
ghost use Rattle.std.specs.Prelude.{◌≡◌, ◌+◌, slice_get, Some, true, IsSomeAnd, IfOk, IfErr, OnOk, OnErr};
ghost use Rattle.articles.specs.Articles.{article_of};
ghost use Rattle.plain_wiki.specs.Causes.{FirstOf, NoneOf, may_reassert, has_bad_status};
ghost use Rattle.plain_wiki.specs.Doing.{EditsSentence, ReassertsSentence};
ghost use Rattle.plain_wiki.specs.Parsing.{tokens_of};
ghost use Rattle.plain_wiki.specs.Places.{article_named};
ghost use Rattle.wiki_parts.specs.Faults.{IsFault, IsAbsent};
ghost use Rattle.wiki_parts.specs.Spending.{IsCutOff};
ghost use Rattle.wiki_store.specs.Asking.{against, taken_by};
ghost use Rattle.wiki_store.specs.Putting.{CanBeMade};
ghost use Rattle.wiki_store.specs.Spending.{SpendsBeyond};

use crate::base::Base;
use crate::causes::can_change;
use crate::putting::Change;
use articles::{Article, Sentence, Shared};
use lists::Copied;
use wiki_base::Text8;
use wiki_parts::Fault;
use wiki_talk::{ArticleRequest, Refusal, Reply, Status};

impl Base {
    // Puts the sentence of a text in place of the one at a place of an article.
    pub(crate) fn edit(&mut self, form: &Text8, at: u32, text: &Text8) -> Result<Reply, Fault>
        ensures free { OnOk result (NoneOf (against self.old.state form.now (ArticleRequest.Edit at text.now))) }
        ensures does { IfOk result (λ reply. IsSomeAnd (article_named self.old.state form.now)
            (λ article. EditsSentence (IsCutOff self.old.budget) at text.now article self.old.state reply self.new.state)) }
        ensures budget { OnOk result (self.new.budget ≡ self.old.budget) }
        ensures spent { IfOk result (SpendsBeyond self.old (taken_by self.old.state form.now (ArticleRequest.Edit at text.now))) }
        ensures refused { IfErr result (IsFault (FirstOf (against self.old.state form.now (ArticleRequest.Edit at text.now)))) }
        ensures kept { OnErr result (self.new ≡ self.old) }
    {
        let change = self.edited(form, at, text)?;
        let shown = self.shown(change.tokens.get())?;
        self.is_kept();
        let status = self.put(change)?;
        Ok(Reply::Edit { status, shown })
    }

    // The sentence in place of another, if nothing stands against it.
    fn edited(&self, form: &Text8, at: u32, text: &Text8) -> Result<Change, Fault>
        ensures named { IfOk result (λ change. IsSomeAnd (article_named self.now.state form.now) (λ article. article.word ≡ change.word)) }
        ensures from { IfOk result (λ change. change.from ≡ at) }
        ensures to { IfOk result (λ change. change.to ≡ at + 1) }
        ensures tokens { IfOk result (λ change. change.tokens ≡ tokens_of self.now.state text.now) }
        ensures can { IfOk result (CanBeMade self.now.state) }
        ensures free { OnOk result (NoneOf (against self.now.state form.now (ArticleRequest.Edit at text.now))) }
        ensures refused { IfErr result (IsFault (FirstOf (against self.now.state form.now (ArticleRequest.Edit at text.now)))) }
    {
        let article = self.article_with(form)?;
        let _ = self.sentence(article, at)?;
        let tokens = self.tokens(text)?;
        can_change(article)?;
        let sense = self.sense(text, &tokens)?;
        Ok(Change {
            word: article.word,
            from: at,
            to: at + 1,
            tokens: Shared::new(self.alloc, tokens)?,
            sense: Shared::new(self.alloc, sense)?,
        })
    }

    // Gives a retracted or red sentence the status that it gets as a new one.
    pub(crate) fn reassert(&mut self, form: &Text8, at: u32) -> Result<Reply, Fault>
        ensures free { OnOk result (NoneOf (against self.old.state form.now (ArticleRequest.Reassert at))) }
        ensures does { IfOk result (λ reply. IsSomeAnd (article_named self.old.state form.now)
            (λ article. ReassertsSentence (IsCutOff self.old.budget) at article self.old.state reply self.new.state)) }
        ensures budget { OnOk result (self.new.budget ≡ self.old.budget) }
        ensures spent { IfOk result (SpendsBeyond self.old (taken_by self.old.state form.now (ArticleRequest.Reassert at))) }
        ensures refused { IfErr result (IsFault (FirstOf (against self.old.state form.now (ArticleRequest.Reassert at)))) }
        ensures kept { OnErr result (self.new ≡ self.old) }
    {
        let change = self.restated(form, at)?;
        self.is_kept();
        let status = self.put(change)?;
        Ok(Reply::Reassert { status })
    }

    // The sentence in its own place, if nothing stands against taking it up again.
    fn restated(&self, form: &Text8, at: u32) -> Result<Change, Fault>
        ensures from { IfOk result (λ change. change.from ≡ at) }
        ensures to { IfOk result (λ change. change.to ≡ at + 1) }
        ensures there { IfOk result (λ change. IsSomeAnd (article_named self.now.state form.now) (λ article. (article.word ≡ change.word)
            × (article_of self.now.state.articles article.word ≡ Some article)
            × IsSomeAnd (slice_get article.sentences at) (λ sentence. change.tokens ≡ sentence.tokens))) }
        ensures can { IfOk result (CanBeMade self.now.state) }
        ensures free { OnOk result (NoneOf (against self.now.state form.now (ArticleRequest.Reassert at))) }
        ensures refused { IfErr result (IsFault (FirstOf (against self.now.state form.now (ArticleRequest.Reassert at)))) }
    {
        let article = self.article_with(form)?;
        let sentence = self.sentence(article, at)?;
        can_change(article)?;
        may_return(article, at, sentence)?;
        let senses = self.senses_of(article.word);
        Ok(Change {
            word: article.word,
            from: at,
            to: at + 1,
            tokens: sentence.tokens.copy()?,
            sense: senses.get(at as usize).copy()?,
        })
    }
}

// Whether the sentence may be taken up again.
fn may_return(article: &Article, at: u32, sentence: &Sentence) -> Result<(), Fault>
    requires { slice_get article.now.sentences at ≡ Some sentence.now }
    ensures may { OnOk result (may_reassert sentence.now.status ≡ true) }
    ensures absent { OnOk result (IsAbsent (has_bad_status may_reassert article.now at)) }
    ensures refused { IfErr result (IsFault (has_bad_status may_reassert article.now at)) }
{
    if may_reassert(sentence.status) {
        Ok(())
    } else {
        Err(Fault::Refused(Refusal::BadStatus {
            status: sentence.status,
        }))
    }
}

fn may_reassert(status: Status) -> bool
    ensures { result ≡ may_reassert status }
{
    matches!(
        status,
        Status::Retracted | Status::RedContradiction | Status::RedBudget
    )
}
