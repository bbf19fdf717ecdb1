// What stands against a request on a session, each cause in a call of its own.
ghost use Rattle.std.specs.Prelude.{◌≡◌, ◌+◌, ◌≤◌, ◌<◌, length, Some, None, IfOk, IfErr, OnOk};
ghost use Rattle.wiki_base.specs.declared.tokens.TheConstants.{MOST_TOKENS as most_tokens};
ghost use Rattle.lexicon.specs.declared.words.TheConstants.{LAST_NUMBER as the_last};
ghost use Rattle.wiki_talk.specs.declared.limits.TheConstants.{MOST_SENTENCES as most_sentences, MOST_SESSIONS as most_sessions};
ghost use Rattle.derivation_trees.specs.Sentences.{IsSentence};
ghost use Rattle.sessions.specs.Sessions.{plain};
ghost use Rattle.plain_wiki.specs.Causes.{when, is_full, has_no_room, is_at_last_revision, is_stale, is_unfinished};
ghost use Rattle.plain_wiki.specs.Words.{full_at};
ghost use Rattle.wiki_parts.specs.Faults.{IsFault, IsAbsent};

use crate::wiki::Wiki;
use articles::Article;
use lexicon::LAST_NUMBER;
use sessions::Session;
use wiki_base::{MOST_TOKENS, SessionId};
use wiki_parts::{Fault, told_menu};
use wiki_talk::{Limit, MOST_SENTENCES, Refusal};

impl Wiki {
    ghost use Rattle.articles.specs.Articles.{article_of};
    ghost use Rattle.sessions.specs.Sessions.{IsKept as IsKeptEditor};
    ghost use Rattle.plain_wiki.specs.Knowledge.{sentences_in};
    ghost use Rattle.plain_wiki.specs.Places.{session_numbered};

    // The session with the number.
    pub(crate) fn session(&self, number: u32) -> Result<&Session, Fault>
        ensures found { IfOk result (λ session. session_numbered self.now.state number ≡ Some (plain session.now)) }
        ensures kept { IfOk result (λ session. IsKeptEditor self.now.state.stored.grammar self.now.state.stored.words session.now) }
        ensures refused { IfErr result (IsFault (when (session_numbered self.now.state number ≡ None) (Refusal.NoSession number))) }
    {
        match self.sessions.session(SessionId(number)) {
            Some(session) => Ok(session),
            None => Err(Fault::Refused(Refusal::NoSession { session: number })),
        }
    }

    // Whether there may be one session more.
    pub(crate) fn has_room(&self) -> Result<(), Fault>
        ensures room { OnOk result (length self.now.state.sessions < most_sessions) }
        ensures absent { OnOk result (IsAbsent (is_full Limit.Sessions (length self.now.state.sessions))) }
        ensures refused { IfErr result (IsFault (is_full Limit.Sessions (length self.now.state.sessions))) }
    {
        if self.sessions.is_full() {
            Err(Fault::Refused(full(Limit::Sessions)))
        } else {
            Ok(())
        }
    }

    // The next number for a session.
    pub(crate) fn next_number(&self) -> Result<u32, Fault>
        ensures next { IfOk result (λ next. next ≡ self.now.state.last + 1) }
        ensures absent { OnOk result (IsAbsent (is_full Limit.Numbers self.now.state.last)) }
        ensures refused { IfErr result (IsFault (is_full Limit.Numbers self.now.state.last)) }
    {
        if self.last == LAST_NUMBER {
            Err(Fault::Refused(full(Limit::Numbers)))
        } else {
            Ok(self.last + 1)
        }
    }

    // The article that a session is on.
    pub(crate) fn article_edited(&self, session: &Session, number: u32) -> &Article
        requires { session_numbered self.now.state number ≡ Some (plain session.now) }
        ensures on { article_of self.now.state.stored.articles session.now.article ≡ Some result.now }
        ensures seen { session.now.revision.0 ≤ result.now.revision.0 }
    {
        match self.store.article_of(session.article) {
            Some(article) => article,
            None => unreachable!(),
        }
    }

    // Whether there may be one sentence more.
    pub(crate) fn has_room_for_sentence(&self) -> Result<(), Fault>
        ensures room { OnOk result (length (sentences_in self.now.state.stored.articles) < most_sentences) }
        ensures absent { OnOk result (IsAbsent (has_no_room self.now.state.stored)) }
        ensures refused { IfErr result (IsFault (has_no_room self.now.state.stored)) }
    {
        if self.store.sentence_count() >= MOST_SENTENCES as usize {
            Err(Fault::Refused(full(Limit::Sentences)))
        } else {
            Ok(())
        }
    }

    // Whether the session's tokens are a sentence.
    pub(crate) fn is_finished(&self, session: &Session) -> Result<(), Fault>
        requires kept { IsKeptEditor self.now.state.stored.grammar self.now.state.stored.words session.now }
        ensures sentence { OnOk result (IsSentence self.now.state.stored.grammar self.now.state.stored.words session.now.editor.tokens) }
        ensures absent { OnOk result (IsAbsent (is_unfinished self.now.state.stored (plain session.now))) }
        ensures refused { IfErr result (IsFault (is_unfinished self.now.state.stored (plain session.now))) }
    {
        if session.editor.complete() {
            return Ok(());
        }
        let menu = session
            .editor
            .menu(self.store.grammar(), self.store.lexicon())?;
        Err(Fault::Refused(Refusal::Unfinished {
            menu: told_menu(self.alloc, &menu)?,
        }))
    }
}

// Whether the session may have one token more, and how many it has.
pub(crate) fn has_place(session: &Session) -> Result<u32, Fault>
    ensures count { IfOk result (λ count. count ≡ length session.now.editor.tokens) }
    ensures place { IfOk result (λ count. count < most_tokens) }
    ensures absent { OnOk result (IsAbsent (is_full Limit.Tokens (length session.now.editor.tokens))) }
    ensures refused { IfErr result (IsFault (is_full Limit.Tokens (length session.now.editor.tokens))) }
{
    let count = session.editor.tokens().len();
    if count >= MOST_TOKENS {
        Err(Fault::Refused(full(Limit::Tokens)))
    } else {
        Ok(count as u32)
    }
}

// Whether the article can change once more.
pub(crate) fn can_change(article: &Article) -> Result<(), Fault>
    ensures open { OnOk result (article.now.revision.0 < the_last) }
    ensures absent { OnOk result (IsAbsent (is_at_last_revision article.now)) }
    ensures refused { IfErr result (IsFault (is_at_last_revision article.now)) }
{
    if article.revision.0 == LAST_NUMBER {
        Err(Fault::Refused(full(Limit::Numbers)))
    } else {
        Ok(())
    }
}

// Whether the session has taken note of all changes of its article.
pub(crate) fn is_current(session: &Session, article: &Article) -> Result<(), Fault>
    ensures absent { OnOk result (IsAbsent (is_stale (plain session.now) article.now)) }
    ensures refused { IfErr result (IsFault (is_stale (plain session.now) article.now)) }
{
    let revision = article.revision.0;
    if session.revision.0 < revision {
        Err(Fault::Refused(Refusal::Stale { revision }))
    } else {
        Ok(())
    }
}

// The limit is reached.
fn full(which: Limit) -> Refusal
    ensures { result ≡ full_at which }
{
    Refusal::Full {
        which,
        limit: which.amount(),
    }
}
