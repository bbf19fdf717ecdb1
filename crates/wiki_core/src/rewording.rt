// Changes of words and of the grammar, over which sessions are carried.
ghost use Rattle.std.specs.Prelude.{◌≡◌, IfOk, IfErr, OnErr};

use crate::wiki::Wiki;
use lexicon::Kind;
use wiki_base::Text8;
use wiki_parts::Fault;
use wiki_talk::{Reply, Request, WikiRequest, WordRequest};

impl Wiki {
    ghost use Rattle.wiki_parts.specs.Spending.{IsCutOff};
    ghost use Rattle.plain_wiki.specs.Against.{Refuses};
    ghost use Rattle.plain_wiki.specs.Step.{Step};
    ghost use Rattle.wiki_core.specs.Unchanged.{KeepsInterpretation};
    ghost use Rattle.wiki_parts.specs.Faults.{IsFault};

    // Adds a word. By its forms, which were none of a live word, no session's tokens read otherwise than before.
    pub(crate) fn add_word(&mut self, kind: Kind, forms: &[Text8]) -> Result<Reply, Fault>
        ensures step { IfOk result (λ reply. Step (IsCutOff self.old.budget) self.old.state (Request.OnWiki (WikiRequest.Word kind forms.now)) reply
            self.new.state) }
        ensures budget { self.new.budget ≡ self.old.budget }
        ensures interpretation { IfOk result (λ reply. KeepsInterpretation self.old reply self.new) }
        ensures refused { IfErr result (IsFault (Refuses self.old.state (Request.OnWiki (WikiRequest.Word kind forms.now)))) }
        ensures kept { OnErr result (self.new ≡ self.old) }
    {
        let _ = self.sessions.len();
        self.store.is_kept();
        self.store.add_word(kind, forms)
    }

    // Gives a word other forms, and rebases the sessions to them.
    pub(crate) fn reword(&mut self, form: &Text8, forms: &[Text8]) -> Result<Reply, Fault>
        ensures step { IfOk result (λ reply. Step (IsCutOff self.old.budget) self.old.state (Request.OnWord form.now (WordRequest.Reword forms.now)) reply
            self.new.state) }
        ensures budget { self.new.budget ≡ self.old.budget }
        ensures interpretation { IfOk result (λ reply. KeepsInterpretation self.old reply self.new) }
        ensures refused { IfErr result (IsFault (Refuses self.old.state (Request.OnWord form.now (WordRequest.Reword forms.now)))) }
        ensures kept { OnErr result (self.new ≡ self.old) }
    {
        let lexicon = self.store.rewording(form, forms)?;
        let sessions = self.sessions.rebased(self.store.grammar(), &lexicon)?;
        self.store.reworded(lexicon);
        self.sessions = sessions;
        Ok(Reply::Reword)
    }

    // Takes a word out with its article, ends the sessions on that, and rebases the others.
    pub(crate) fn unword(&mut self, form: &Text8) -> Result<Reply, Fault>
        ensures step { IfOk result (λ reply. Step (IsCutOff self.old.budget) self.old.state (Request.OnWord form.now WordRequest.Unword) reply self.new.state) }
        ensures budget { self.new.budget ≡ self.old.budget }
        ensures interpretation { IfOk result (λ reply. KeepsInterpretation self.old reply self.new) }
        ensures refused { IfErr result (IsFault (Refuses self.old.state (Request.OnWord form.now WordRequest.Unword))) }
        ensures kept { OnErr result (self.new ≡ self.old) }
    {
        let gone = self.store.unwording(form)?;
        let mut sessions = self.sessions.rebased(self.store.grammar(), &gone.1)?;
        sessions.end_on(gone.0);
        self.store.unworded(gone.0, gone.1);
        self.sessions = sessions;
        Ok(Reply::Unword)
    }

    // Takes in another grammar, and rebases the sessions to it.
    pub(crate) fn reground(&mut self, text: &Text8) -> Result<Reply, Fault>
        ensures step { IfOk result (λ reply. Step (IsCutOff self.old.budget) self.old.state (Request.OnWiki (WikiRequest.Grammar text.now)) reply
            self.new.state) }
        ensures budget { self.new.budget ≡ self.old.budget }
        ensures interpretation { IfOk result (λ reply. KeepsInterpretation self.old reply self.new) }
        ensures refused { IfErr result (IsFault (Refuses self.old.state (Request.OnWiki (WikiRequest.Grammar text.now)))) }
        ensures kept { OnErr result (self.new ≡ self.old) }
    {
        let (grammar, lexicon) = self.store.regrounding(text)?;
        let sessions = self.sessions.regrounded(&grammar, &lexicon)?;
        self.store.regrounded(grammar, lexicon);
        self.sessions = sessions;
        Ok(Reply::Grammar)
    }
}
