// Tokens that become a sentence.
ghost use Rattle.std.specs.Prelude.{◌≡◌, ◌+◌, ◌<◌, ◌≤◌, [], length, Some, IfOk, IfErr, OnOk, OnErr, IsSome};
ghost use Rattle.lexicon.specs.declared.words.TheConstants.{LAST_NUMBER};
ghost use Rattle.wiki_talk.specs.declared.limits.TheConstants.{MOST_SENTENCES};
ghost use Rattle.derivation_trees.specs.Sentences.{IsSentence};
ghost use Rattle.plain_wiki.specs.Sessions.{with_change, with_revision, with_tokens, HasSession};
ghost use Rattle.sessions.specs.Sessions.{all_plain, AreKeptOn};

use crate::causes::{can_change, is_current};
use crate::wiki::Wiki;
use articles::Article;
use derivations::show;
use lists::Copied;
use sessions::{Session, Sessions};
use wiki_base::{Memory, Rev, SessionId, Text8, Tokens, WordId};
use wiki_parts::{Fault, told_text};
use wiki_talk::{Reply, Request, SessionRequest};

// What a session commits: the word of its article, the form that names it, the article's revision, the tokens and what shows them.
#[derive(Drop)]
pub(crate) struct Draft {
    pub(crate) word: WordId,
    pub(crate) form: Text8,
    pub(crate) revision: Rev,
    pub(crate) tokens: Tokens,
    pub(crate) shown: Text8,
}

impl Wiki {
    ghost use Rattle.lexicon.specs.Words.{canonical_form_of};
    ghost use Rattle.articles.specs.Articles.{article_of};
    ghost use Rattle.derivation_trees.specs.Cutting.{shown};
    ghost use Rattle.sessions.specs.Sessions.{plain, IsKept as IsKeptEditor};
    ghost use Rattle.wiki_parts.specs.Faults.{IsFault};
    ghost use Rattle.plain_wiki.specs.Knowledge.{sentences_in};
    ghost use Rattle.plain_wiki.specs.Places.{session_numbered};
    ghost use Rattle.wiki_core.specs.Drafts.{IsDraftOf};
    ghost use Rattle.wiki_core.specs.Spending.{SpendsBeyondKept};
    ghost use Rattle.wiki_parts.specs.Spending.{IsCutOff};
    ghost use Rattle.plain_wiki.specs.Against.{Refuses, IsFree};
    ghost use Rattle.plain_wiki.specs.Step.{Step};
    ghost use Rattle.wiki_core.specs.Unchanged.{KeepsInterpretation};

    // Makes the tokens of a session the last sentence of its article.
    pub(crate) fn commit(&mut self, number: u32) -> Result<Reply, Fault>
        ensures step { IfOk result (λ reply. Step (IsCutOff self.old.budget) self.old.state (Request.OnSession number SessionRequest.Commit) reply
            self.new.state) }
        ensures budget { self.new.budget ≡ self.old.budget }
        ensures interpretation { IfOk result (λ reply. KeepsInterpretation self.old reply self.new) }
        ensures spent { IfOk result (SpendsBeyondKept self.old (Request.OnSession number SessionRequest.Commit)) }
        ensures refused { IfErr result (IsFault (Refuses self.old.state (Request.OnSession number SessionRequest.Commit))) }
        ensures kept { OnErr result (self.new ≡ self.old) }
    {
        let _ = self.sessions.len();
        let draft = self.draft(number)?;
        let status = self.store.append(draft.word, &draft.tokens)?;
        let revision = Rev(draft.revision.0 + 1);
        begin_again(&mut self.sessions, SessionId(number), revision);
        Ok(Reply::Commit {
            article: draft.form,
            status,
            shown: draft.shown,
        })
    }

    // What the session commits, if nothing stands against it.
    fn draft(&self, number: u32) -> Result<Draft, Fault>
        ensures draft { IfOk result (IsDraftOf self.now.state number) }
        ensures free { OnOk result (IsFree self.now.state (Request.OnSession number SessionRequest.Commit)) }
        ensures refused { IfErr result (IsFault (Refuses self.now.state (Request.OnSession number SessionRequest.Commit))) }
    {
        let session = self.session(number)?;
        self.has_room_for_sentence()?;
        let article = self.article_edited(session, number);
        can_change(article)?;
        is_current(session, article)?;
        self.is_finished(session)?;
        Ok(self.drafted(session, article, number)?)
    }

    // What the session commits to its article.
    fn drafted(&self, session: &Session, article: &Article, number: u32) -> Result<Draft, Memory>
        requires named { session_numbered self.now.state number ≡ Some (plain session.now) }
        requires on { article_of self.now.state.stored.articles session.now.article ≡ Some article.now }
        requires open { article.now.revision.0 < LAST_NUMBER }
        requires room { length (sentences_in self.now.state.stored.articles) < MOST_SENTENCES }
        requires sentence { IsSentence self.now.state.stored.grammar self.now.state.stored.words session.now.editor.tokens }
        ensures { IfOk result (IsDraftOf self.now.state number) }
    {
        let tokens = session.editor.tokens();
        Ok(Draft {
            word: session.article,
            form: self.form_of(session.article)?,
            revision: article.revision,
            tokens: tokens.copy()?,
            shown: show(self.alloc, self.store.grammar().grammar(), tokens)?,
        })
    }

    /// The form that names the word of an article that is there.
    pub fn form_of(&self, word: WordId) -> Result<Text8, Memory>
        requires { IsSome (article_of self.now.state.stored.articles word) }
        ensures { IfOk result (λ form. canonical_form_of self.now.state.stored.words.live word ≡ Some form) }
    {
        let _ = self.store.article_of(word);
        match self.store.lexicon().word(word) {
            Some(forms) => told_text(self.alloc, forms.canonical()),
            None => unreachable!(),
        }
    }
}

// Empties a session, which is at this revision of its article then.
fn begin_again(sessions: &mut Sessions, number: SessionId, revision: Rev)
    requires { HasSession (all_plain sessions.old) number }
    ensures changed { all_plain sessions.new ≡ with_change (all_plain sessions.old) number (λ session. with_revision revision (with_tokens (λ _. []) session)) }
    ensures kept { AreKeptOn sessions.old sessions.new }
{
    sessions.clear(number);
    sessions.set_revision(number, revision);
}
