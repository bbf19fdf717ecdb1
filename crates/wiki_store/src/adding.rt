// Sentences that are added.
ghost use Rattle.std.specs.Prelude.{◌≡◌, IsSomeAnd, IfOk, IfErr, OnOk, OnErr};
ghost use Rattle.derivation_trees.specs.Cutting.{shown};
ghost use Rattle.plain_wiki.specs.Causes.{FirstOf, NoneOf};
ghost use Rattle.plain_wiki.specs.Doing.{AddsSentence, place_for};
ghost use Rattle.plain_wiki.specs.Parsing.{tokens_of};
ghost use Rattle.plain_wiki.specs.Places.{article_named};
ghost use Rattle.wiki_parts.specs.Faults.{IsFault};
ghost use Rattle.wiki_parts.specs.Spending.{IsCutOff};
ghost use Rattle.wiki_store.specs.Asking.{against, taken_by};
ghost use Rattle.wiki_store.specs.Putting.{CanBeMade};
ghost use Rattle.wiki_store.specs.Spending.{SpendsBeyond};

use crate::base::Base;
use crate::causes::{can_change, place_given};
use crate::putting::Change;
use articles::Shared;
use derivation_trees::show;
use wiki_base::{Memory, Text8, Tokens};
use wiki_parts::Fault;
use wiki_talk::{ArticleRequest, Reply};

impl Base {
    // Inserts the sentence of a text at the place that is given, or at the end of the article.
    pub(crate) fn add_sentence(
        &mut self,
        form: &Text8,
        given: Option<u32>,
        text: &Text8,
    ) -> Result<Reply, Fault>
        ensures free { OnOk result (NoneOf (against self.old.state form.now (ArticleRequest.Add given text.now))) }
        ensures does { IfOk result (λ reply. IsSomeAnd (article_named self.old.state form.now)
            (λ article. AddsSentence (IsCutOff self.old.budget) given text.now article self.old.state reply self.new.state)) }
        ensures budget { OnOk result (self.new.budget ≡ self.old.budget) }
        ensures spent { IfOk result (SpendsBeyond self.old (taken_by self.old.state form.now (ArticleRequest.Add given text.now))) }
        ensures refused { IfErr result (IsFault (FirstOf (against self.old.state form.now (ArticleRequest.Add given text.now)))) }
        ensures kept { OnErr result (self.new ≡ self.old) }
    {
        let change = self.addition(form, given, text)?;
        let shown = self.shown(change.tokens.get())?;
        let status = self.put(change)?;
        Ok(Reply::Add { status, shown })
    }

    // What shows the tokens of a sentence.
    pub(crate) fn shown(&self, tokens: &Tokens) -> Result<Text8, Memory>
        ensures { IfOk result (λ text. text ≡ shown self.now.state.grammar.terminals tokens.now) }
    {
        show(self.alloc, self.grammar.grammar(), tokens)
    }

    // The new sentence at its place, if nothing stands against it.
    fn addition(&self, form: &Text8, given: Option<u32>, text: &Text8) -> Result<Change, Fault>
        ensures from { IfOk result (λ change. IsSomeAnd (article_named self.now.state form.now)
            (λ article. (article.word ≡ change.word) × (place_for article given ≡ change.from))) }
        ensures to { IfOk result (λ change. change.to ≡ change.from) }
        ensures tokens { IfOk result (λ change. change.tokens ≡ tokens_of self.now.state text.now) }
        ensures can { IfOk result (CanBeMade self.now.state) }
        ensures free { OnOk result (NoneOf (against self.now.state form.now (ArticleRequest.Add given text.now))) }
        ensures refused { IfErr result (IsFault (FirstOf (against self.now.state form.now (ArticleRequest.Add given text.now)))) }
    {
        let article = self.article_with(form)?;
        let at = place_given(article, given)?;
        self.has_room()?;
        let tokens = self.tokens(text)?;
        can_change(article)?;
        let sense = self.sense(text, &tokens)?;
        Ok(Change {
            word: article.word,
            from: at,
            to: at,
            tokens: Shared::new(self.alloc, tokens)?,
            sense: Shared::new(self.alloc, sense)?,
        })
    }
}
