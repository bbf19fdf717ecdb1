// The sessions of a wiki.
ghost use Rattle.std.specs.Prelude.{◌≡◌, ◌+◌, ◌-◌, ◌<◌, ◌≤◌, ◌↔◌, [], ◌∷◌, ◌++◌, length, take, true, false, slice_get, option_map, IsTrue, IsSomeAnd, IfOk, IfSome, OnOk, OnErr, MatchOption, None, Some, Err, All};
ghost use Rattle.wiki_base.specs.declared.tokens.TheConstants.{MOST_TOKENS};
ghost use Rattle.codeco_terms.specs.GrammarParts.{GrammarParts};
ghost use Rattle.lexicon.specs.declared.kinds.Forms.{Forms};
ghost use Rattle.lexicon.specs.Words.{Listed, with_word, add_refusal};
ghost use Rattle.editor.specs.Editing.{typed, IsEdited, IsInMenu};

use crate::session::Session;
use codeco_checked::CheckedGrammar;
use editor::{Editor, TypeFault};
use lexicon::Lexicon;
use std::alloc::Global;
use std::marker::Model;
use wiki_base::{Memory, Rev, SessionId, WordId};
use wiki_talk::MOST_SESSIONS;

/// The sessions of a wiki, at most `MOST_SESSIONS`, in order of their numbers. They are seen as the list of them.
#[derive(Drop)]
pub struct Sessions {
    sessions: Vec<Session>,
}

impl Model for Sessions {
    ghost use Rattle.std.specs.Prelude.{List};
    ghost use Rattle.sessions.specs.declared.session.Session.{Session};
    ghost use Rattle.sessions.specs.Sessions.{AreSessions};

    ghost Value = { List Session };

    ghost view = { λ s. s.sessions.items };

    ghost invariant = { λ s. AreSessions s.sessions.items };
}

impl Sessions {
    ghost use Rattle.plain_wiki.specs.Sessions.{session_of, new_session, with_change, with_tokens, with_revision, without_session, without_article, HasSession, AreRebased, AreTypeable};
    ghost use Rattle.sessions.specs.Sessions.{all_plain, plain, AreSessions, AreOfGrammar, IsKept, AreKept, AreKeptOn};
    ghost use Rattle.sessions.specs.Places.{IsPlaceOf};

    /// No sessions. Takes no memory.
    pub fn new(alloc: Global) -> Sessions
        ensures { result ≡ [] }
    {
        Sessions {
            sessions: Vec::new(alloc),
        }
    }

    /// How many there are.
    pub fn len(&self) -> usize
        ensures count { result ≡ length self.now }
        ensures sessions { AreSessions self.now }
    {
        self.sessions.len()
    }

    /// Whether there is none.
    pub fn is_empty(&self) -> bool
        ensures { IsTrue result ↔ (self.now ≡ []) }
    {
        self.sessions.is_empty()
    }

    /// Whether there are as many as there can be.
    pub fn is_full(&self) -> bool
        ensures full { IsTrue result ↔ (length (all_plain self.now) ≡ MOST_SESSIONS) }
        ensures room { result ≡ false → length (all_plain self.now) < MOST_SESSIONS }
    {
        self.sessions.len() == MOST_SESSIONS as usize
    }

    /// The session at a place below the length.
    pub fn get(&self, place: usize) -> &Session
        requires { place < length self.now }
        ensures { slice_get self.now place ≡ Some result.now }
    {
        &self.sessions[place]
    }

    /// All of them, in order. By the grammar and the lexicon that their editors keep, their tokens are typeable; and where a
    /// word is added to the lexicon, they keep that one too, since no token that is typed gets another reading.
    pub fn as_slice(&self) -> &[Session]
        ensures sessions { result.now ≡ self.now }
        ensures order { AreSessions self.now }

        ensures typeable { (g : GrammarParts) (lexicon : Listed) → AreKept g lexicon self.now → AreTypeable g lexicon (all_plain self.now) }
        ensures word { (g : GrammarParts) (lexicon : Listed) (forms : Forms) → lexicon.terminals ≡ g.terminals → add_refusal lexicon forms ≡ None
            → AreKept g lexicon self.now → AreKept g (with_word lexicon forms) self.now }
    {
        self.sessions.as_slice()
    }

    /// The session with the number.
    pub fn session(&self, number: SessionId) -> Option<&Session>
        ensures found { option_map (λ session. plain session.now) result ≡ session_of (all_plain self.now) number }
        ensures kept { (g : GrammarParts) (lexicon : Listed) → AreKept g lexicon self.now → IfSome result (λ session. IsKept g lexicon session.now) }
        ensures edited { IfSome result (λ session. IsEdited session.now.editor) }
    {
        match self.place_of(number) {
            Some(place) => Some(&self.sessions[place]),
            None => None,
        }
    }

    /// Opens a session without tokens, whose number is greater than every other. Its editor keeps the grammar.
    pub fn open(
        &mut self,
        grammar: &CheckedGrammar,
        number: SessionId,
        article: WordId,
        revision: Rev,
    ) -> Result<(), Memory>
        requires next { All (λ other. other.number.0 < number.0) (all_plain self.old) }
        requires room { length (all_plain self.old) < MOST_SESSIONS }
        ensures opened { OnOk result (all_plain self.new ≡ all_plain self.old ++ new_session number article revision ∷ []) }
        ensures kept { OnOk result ((lexicon : Listed) → AreKept grammar.now lexicon self.old → AreKept grammar.now lexicon self.new) }
        ensures unchanged { OnErr result (self.new ≡ self.old) }
    {
        let editor = Editor::new(*self.sessions.allocator(), grammar)?;
        self.sessions.push(Session {
            number,
            article,
            revision,
            editor,
        })?;
        Ok(())
    }

    /// Adds the text as a token to the session with the number, if it is in the menu of the session's tokens. The grammar has
    /// to be the one that the editors keep, and the lexicon has to give the readings that they keep.
    pub fn type_token(
        &mut self,
        grammar: &CheckedGrammar,
        lexicon: &Lexicon,
        number: SessionId,
        text: &str,
    ) -> Result<(), TypeFault>
        requires kept { AreKept grammar.now lexicon.now self.old }
        requires room { IsSomeAnd (session_of (all_plain self.old) number) (λ session. length session.tokens < MOST_TOKENS) }

        ensures typed { OnOk result (all_plain self.new
            ≡ with_change (all_plain self.old) number (with_tokens (λ tokens. tokens ++ typed grammar.now.terminals tokens text.now ∷ []))) }
        ensures offered { OnOk result (IsSomeAnd (session_of (all_plain self.old) number)
            (λ session. IsInMenu grammar.now lexicon.now session.tokens (typed grammar.now.terminals session.tokens text.now))) }
        ensures refused { result ≡ Err TypeFault.NotOffered → IsSomeAnd (session_of (all_plain self.old) number)
            (λ session. ¬ IsInMenu grammar.now lexicon.now session.tokens (typed grammar.now.terminals session.tokens text.now)) }
        ensures kept { AreKept grammar.now lexicon.now self.new }
        ensures unchanged { OnErr result (self.new ≡ self.old) }
    {
        let place = self.place_there(number);
        self.sessions[place]
            .editor
            .type_token(grammar, lexicon, text)
    }

    /// Drops the last token of the session with the number; false where it has none. Takes no memory.
    pub fn back(&mut self, number: SessionId) -> bool
        requires { HasSession (all_plain self.old) number }

        ensures none { result ≡ false → IsSomeAnd (session_of (all_plain self.old) number) (λ session. session.tokens ≡ []) × (self.new ≡ self.old) }
        ensures some { result ≡ true → IsSomeAnd (session_of (all_plain self.old) number) (λ session. 0 < length session.tokens) }
        ensures last { result ≡ true → all_plain self.new
            ≡ with_change (all_plain self.old) number (with_tokens (λ tokens. take (length tokens - 1) tokens)) }
        ensures kept { AreKeptOn self.old self.new }
    {
        let place = self.place_there(number);
        self.sessions[place].editor.back()
    }

    /// Drops all tokens of the session with the number. Takes no memory.
    pub fn clear(&mut self, number: SessionId)
        requires { HasSession (all_plain self.old) number }
        ensures cleared { all_plain self.new ≡ with_change (all_plain self.old) number (with_tokens (λ _. [])) }
        ensures kept { AreKeptOn self.old self.new }
    {
        let place = self.place_there(number);
        self.sessions[place].editor.clear();
    }

    /// Sets the revision of the session with the number. Takes no memory.
    pub fn set_revision(&mut self, number: SessionId, revision: Rev)
        requires { HasSession (all_plain self.old) number }
        ensures set { all_plain self.new ≡ with_change (all_plain self.old) number (with_revision revision) }
        ensures kept { AreKeptOn self.old self.new }
    {
        let place = self.place_there(number);
        self.sessions[place].revision = revision;
    }

    /// Ends the session with the number. Takes no memory.
    pub fn end(&mut self, number: SessionId)
        requires { HasSession (all_plain self.old) number }
        ensures ended { all_plain self.new ≡ without_session (all_plain self.old) number }
        ensures kept { AreKeptOn self.old self.new }
    {
        let place = self.place_there(number);
        let _ = self.sessions.remove(place);
    }

    /// Ends the sessions on the article of the word. Takes no memory.
    pub fn end_on(&mut self, article: WordId)
        ensures ended { all_plain self.new ≡ without_article (all_plain self.old) article }
        ensures kept { AreKeptOn self.old self.new }
    {
        self.sessions
            .retain(|session| session.article.0 != article.0);
    }

    /// Each session with its tokens rebased to the lexicon. The grammar has to be the one that the sessions keep.
    pub fn rebased(&self, grammar: &CheckedGrammar, lexicon: &Lexicon) -> Result<Sessions, Memory>
        requires { AreOfGrammar grammar.now self.now }
        ensures rebased { IfOk result (λ rebased. AreRebased grammar.now lexicon.now (all_plain self.now) (all_plain rebased)) }
        ensures kept { IfOk result (AreKept grammar.now lexicon.now) }
    {
        let mut sessions = Vec::new(*self.sessions.allocator());
        for session in &self.sessions {
            let (editor, _) = session.editor.reread(grammar, lexicon)?;
            sessions.push(session.with_editor(editor))?;
        }
        Ok(Sessions { sessions })
    }

    /// Each session with its tokens rebased to a grammar, which may be another than the one that the sessions keep, and the
    /// lexicon.
    pub fn regrounded(
        &self,
        grammar: &CheckedGrammar,
        lexicon: &Lexicon,
    ) -> Result<Sessions, Memory>
        ensures rebased { IfOk result (λ rebased. AreRebased grammar.now lexicon.now (all_plain self.now) (all_plain rebased)) }
        ensures kept { IfOk result (AreKept grammar.now lexicon.now) }
    {
        let mut sessions = Vec::new(*self.sessions.allocator());
        for session in &self.sessions {
            let (editor, _) = session.editor.rebase(grammar, lexicon)?;
            sessions.push(session.with_editor(editor))?;
        }
        Ok(Sessions { sessions })
    }

    // Where the session with the number stands.
    fn place_of(&self, number: SessionId) -> Option<usize>
        ensures { MatchOption result (session_of (all_plain self.now) number ≡ None) (IsPlaceOf self.now number) }
    {
        self.sessions
            .binary_search_by_key(&number.0, |session| session.number.0)
            .ok()
    }

    // Where the session with the number stands, which is there.
    fn place_there(&self, number: SessionId) -> usize
        requires { HasSession (all_plain self.now) number }
        ensures { IsPlaceOf self.now number result }
    {
        match self.place_of(number) {
            Some(place) => place,
            None => unreachable!(),
        }
    }
}
