// Sessions that begin, take note of changes, and end.
ghost use Rattle.std.specs.Prelude.{◌≡◌, None, IfOk, IfErr, OnErr, IsSomeAnd};

use crate::wiki::Wiki;
use wiki_base::{Rev, SessionId, Text8, WordId};
use wiki_parts::Fault;
use wiki_talk::{ArticleRequest, Refusal, Reply, Request, SessionRequest};

impl Wiki {
    ghost use Rattle.wiki_parts.specs.Faults.{IsFault};
    ghost use Rattle.wiki_parts.specs.Spending.{IsCutOff};
    ghost use Rattle.plain_wiki.specs.Against.{Refuses};
    ghost use Rattle.plain_wiki.specs.Causes.{when};
    ghost use Rattle.plain_wiki.specs.Places.{article_named};
    ghost use Rattle.plain_wiki.specs.Step.{Step};
    ghost use Rattle.wiki_core.specs.Unchanged.{KeepsInterpretation};

    // Opens a session on the article of a word.
    pub(crate) fn open(&mut self, form: &Text8) -> Result<Reply, Fault>
        ensures step { IfOk result (λ reply. Step (IsCutOff self.old.budget) self.old.state (Request.OnArticle form.now ArticleRequest.Open) reply
            self.new.state) }
        ensures budget { self.new.budget ≡ self.old.budget }
        ensures interpretation { IfOk result (λ reply. KeepsInterpretation self.old reply self.new) }
        ensures refused { IfErr result (IsFault (Refuses self.old.state (Request.OnArticle form.now ArticleRequest.Open))) }
        ensures kept { OnErr result (self.new ≡ self.old) }
    {
        let (word, revision) = self.opened_on(form)?;
        self.has_room()?;
        let number = self.next_number()?;
        self.sessions
            .open(self.store.grammar(), SessionId(number), word, revision)?;
        self.last = number;
        Ok(Reply::Open { session: number })
    }

    // The live word that has the form, and the revision of its article.
    fn opened_on(&self, form: &Text8) -> Result<(WordId, Rev), Fault>
        ensures ok { IfOk result (λ found. IsSomeAnd (article_named self.now.state.stored form.now)
            (λ article. (article.word ≡ found.0) × (article.revision ≡ found.1))) }
        ensures refused { IfErr result (IsFault (when (article_named self.now.state.stored form.now ≡ None) (Refusal.NoWord form.now))) }
    {
        let article = self.store.article_with(form)?;
        Ok((article.word, article.revision))
    }

    // Lets a session take note of the changes of its article.
    pub(crate) fn refresh(&mut self, number: u32) -> Result<Reply, Fault>
        ensures step { IfOk result (λ reply. Step (IsCutOff self.old.budget) self.old.state (Request.OnSession number SessionRequest.Refresh) reply
            self.new.state) }
        ensures budget { self.new.budget ≡ self.old.budget }
        ensures interpretation { IfOk result (λ reply. KeepsInterpretation self.old reply self.new) }
        ensures refused { IfErr result (IsFault (Refuses self.old.state (Request.OnSession number SessionRequest.Refresh))) }
        ensures kept { OnErr result (self.new ≡ self.old) }
    {
        let _ = self.sessions.len();
        let session = self.session(number)?;
        let revision = self.article_edited(session, number).revision;
        self.sessions.set_revision(SessionId(number), revision);
        Ok(Reply::Refresh)
    }

    // Ends a session.
    pub(crate) fn drop_session(&mut self, number: u32) -> Result<Reply, Fault>
        ensures step { IfOk result (λ reply. Step (IsCutOff self.old.budget) self.old.state (Request.OnSession number SessionRequest.Drop) reply
            self.new.state) }
        ensures budget { self.new.budget ≡ self.old.budget }
        ensures interpretation { IfOk result (λ reply. KeepsInterpretation self.old reply self.new) }
        ensures refused { IfErr result (IsFault (Refuses self.old.state (Request.OnSession number SessionRequest.Drop))) }
        ensures kept { OnErr result (self.new ≡ self.old) }
    {
        self.session(number)?;
        self.sessions.end(SessionId(number));
        Ok(Reply::Drop)
    }
}
