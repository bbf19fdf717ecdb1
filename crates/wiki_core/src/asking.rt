// What is asked, family by family.
ghost use Rattle.std.specs.Prelude.{◌≡◌, IfOk, IfErr, OnErr};

use crate::wiki::Wiki;
use wiki_base::Text8;
use wiki_parts::Fault;
use wiki_talk::{ArticleRequest, Reply, Request, SessionRequest, WikiRequest, WordRequest};

impl Wiki {
    ghost use Rattle.wiki_parts.specs.Faults.{IsFault};
    ghost use Rattle.wiki_parts.specs.Spending.{IsCutOff};
    ghost use Rattle.plain_wiki.specs.Against.{Refuses};
    ghost use Rattle.plain_wiki.specs.Step.{Step};
    ghost use Rattle.wiki_core.specs.Spending.{SpendsBeyondKept, KeptHasEachUnknown};
    ghost use Rattle.wiki_core.specs.Unchanged.{KeepsInterpretation};

    // What is asked of the wiki as a whole.
    pub(crate) fn on_wiki(&mut self, asked: &WikiRequest) -> Result<Reply, Fault>
        ensures step { IfOk result (λ reply. Step (IsCutOff self.old.budget) self.old.state (Request.OnWiki asked.now) reply self.new.state) }
        ensures budget { self.new.budget ≡ self.old.budget }
        ensures spent { IfOk result (SpendsBeyondKept self.old (Request.OnWiki asked.now)) }
        ensures unknown { IfOk result (KeptHasEachUnknown self.old (Request.OnWiki asked.now)) }
        ensures interpretation { IfOk result (λ reply. KeepsInterpretation self.old reply self.new) }
        ensures refused { IfErr result (IsFault (Refuses self.old.state (Request.OnWiki asked.now))) }
        ensures kept { OnErr result (self.new ≡ self.old) }
    {
        match asked {
            WikiRequest::Word { kind, forms } => self.add_word(*kind, forms.as_slice()),
            WikiRequest::Words => Ok(self.store.words()?),
            WikiRequest::Parse { text } => self.store.parse(text),
            WikiRequest::Grammar { text } => self.reground(text),
        }
    }

    // What is asked of the word that has the form.
    pub(crate) fn on_word(&mut self, form: &Text8, asked: &WordRequest) -> Result<Reply, Fault>
        ensures step { IfOk result (λ reply. Step (IsCutOff self.old.budget) self.old.state (Request.OnWord form.now asked.now) reply self.new.state) }
        ensures budget { self.new.budget ≡ self.old.budget }
        ensures spent { IfOk result (SpendsBeyondKept self.old (Request.OnWord form.now asked.now)) }
        ensures unknown { IfOk result (KeptHasEachUnknown self.old (Request.OnWord form.now asked.now)) }
        ensures interpretation { IfOk result (λ reply. KeepsInterpretation self.old reply self.new) }
        ensures refused { IfErr result (IsFault (Refuses self.old.state (Request.OnWord form.now asked.now))) }
        ensures kept { OnErr result (self.new ≡ self.old) }
    {
        match asked {
            WordRequest::Find => self.store.find(form),
            WordRequest::Reword { forms } => self.reword(form, forms.as_slice()),
            WordRequest::Unword => self.unword(form),
        }
    }

    // What is asked of the article of the word that has the form.
    pub(crate) fn on_article(
        &mut self,
        form: &Text8,
        asked: &ArticleRequest,
    ) -> Result<Reply, Fault>
        ensures step { IfOk result (λ reply. Step (IsCutOff self.old.budget) self.old.state (Request.OnArticle form.now asked.now) reply self.new.state) }
        ensures budget { self.new.budget ≡ self.old.budget }
        ensures spent { IfOk result (SpendsBeyondKept self.old (Request.OnArticle form.now asked.now)) }
        ensures unknown { IfOk result (KeptHasEachUnknown self.old (Request.OnArticle form.now asked.now)) }
        ensures interpretation { IfOk result (λ reply. KeepsInterpretation self.old reply self.new) }
        ensures refused { IfErr result (IsFault (Refuses self.old.state (Request.OnArticle form.now asked.now))) }
        ensures kept { OnErr result (self.new ≡ self.old) }
    {
        match asked {
            ArticleRequest::Read => self.store.read(form),
            ArticleRequest::Add { at, text } => self.store.add(form, *at, text),
            ArticleRequest::Edit { at, text } => self.store.edit(form, *at, text),
            ArticleRequest::Remove { at } => self.store.remove(form, *at),
            ArticleRequest::Retract { at } => self.store.retract(form, *at),
            ArticleRequest::Reassert { at } => self.store.reassert(form, *at),
            ArticleRequest::Axioms { at } => self.store.axioms(form, *at),
            ArticleRequest::Open => self.open(form),
        }
    }

    // What is asked of the session with the number.
    pub(crate) fn on_session(
        &mut self,
        session: u32,
        asked: &SessionRequest,
    ) -> Result<Reply, Fault>
        ensures step { IfOk result (λ reply. Step (IsCutOff self.old.budget) self.old.state (Request.OnSession session asked.now) reply self.new.state) }
        ensures budget { self.new.budget ≡ self.old.budget }
        ensures spent { IfOk result (SpendsBeyondKept self.old (Request.OnSession session asked.now)) }
        ensures unknown { IfOk result (KeptHasEachUnknown self.old (Request.OnSession session asked.now)) }
        ensures interpretation { IfOk result (λ reply. KeepsInterpretation self.old reply self.new) }
        ensures refused { IfErr result (IsFault (Refuses self.old.state (Request.OnSession session asked.now))) }
        ensures kept { OnErr result (self.new ≡ self.old) }
    {
        match asked {
            SessionRequest::Type { text } => self.type_token(session, text),
            SessionRequest::Back => self.back(session),
            SessionRequest::Menu => self.menu(session),
            SessionRequest::Commit => self.commit(session),
            SessionRequest::Refresh => self.refresh(session),
            SessionRequest::Drop => self.drop_session(session),
        }
    }
}
