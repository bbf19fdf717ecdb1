// Tokens that are typed and dropped, and what may follow them.
ghost use Rattle.std.specs.Prelude.{◌≡◌, ◌<◌, length, true, All, IsUtf8, IsSomeAnd, IfOk, IfErr, OnOk, OnErr};
ghost use Rattle.wiki_base.specs.declared.tokens.TheConstants.{MOST_TOKENS};

use crate::causes::has_place;
use crate::wiki::Wiki;
use derivations::{Menu, show};
use editor::TypeFault;
use lists::Copied;
use wiki_base::{Memory, SessionId, Text8};
use wiki_parts::{Fault, told_menu};
use wiki_talk::{Refusal, Reply, Request, SessionRequest};

impl Wiki {
    ghost use Rattle.wiki_parts.specs.Faults.{IsFault, IsAbsent};
    ghost use Rattle.plain_wiki.specs.Places.{session_numbered};
    ghost use Rattle.plain_wiki.specs.Causes.{is_not_offered};
    ghost use Rattle.wiki_core.specs.Drafts.{with_typed};
    ghost use Rattle.wiki_parts.specs.Spending.{IsCutOff};
    ghost use Rattle.plain_wiki.specs.Against.{Refuses};
    ghost use Rattle.plain_wiki.specs.Step.{Step};
    ghost use Rattle.wiki_core.specs.Unchanged.{KeepsInterpretation};

    // Types one token more.
    pub(crate) fn type_token(&mut self, number: u32, text: &Text8) -> Result<Reply, Fault>
        ensures step { IfOk result (λ reply. Step (IsCutOff self.old.budget) self.old.state (Request.OnSession number (SessionRequest.Type text.now)) reply
            self.new.state) }
        ensures budget { self.new.budget ≡ self.old.budget }
        ensures interpretation { IfOk result (λ reply. KeepsInterpretation self.old reply self.new) }
        ensures refused { IfErr result (IsFault (Refuses self.old.state (Request.OnSession number (SessionRequest.Type text.now)))) }
        ensures kept { OnErr result (self.new ≡ self.old) }
    {
        let session = self.session(number)?;
        let count = has_place(session)?;
        self.put(number, text)?;
        Ok(Reply::Type { tokens: count + 1 })
    }

    // Adds the text as a token, if the menu of the session's tokens has it.
    fn put(&mut self, number: u32, text: &Text8) -> Result<(), Fault>
        requires { IsSomeAnd (session_numbered self.old.state number) (λ session. length session.tokens < MOST_TOKENS) }
        ensures typed { OnOk result (self.new ≡ with_typed self.old number text.now) }
        ensures absent { OnOk result (IsSomeAnd (session_numbered self.old.state number)
            (λ session. IsAbsent (is_not_offered self.old.state.stored session text.now))) }
        ensures refused { IfErr result (λ fault. IsSomeAnd (session_numbered self.old.state number)
            (λ session. IsFault (is_not_offered self.old.state.stored session text.now) fault)) }
        ensures kept { OnErr result (self.new ≡ self.old) }
    {
        let typed = self.sessions.type_token(
            self.store.grammar(),
            self.store.lexicon(),
            SessionId(number),
            text.as_str(),
        );
        match typed {
            Ok(()) => Ok(()),
            Err(TypeFault::NotOffered) => Err(Fault::Refused(Refusal::NotOffered {
                text: text.copy()?,
            })),
            Err(TypeFault::Memory) => Err(Fault::Memory),
        }
    }

    // Drops the last token.
    pub(crate) fn back(&mut self, number: u32) -> Result<Reply, Fault>
        ensures step { IfOk result (λ reply. Step (IsCutOff self.old.budget) self.old.state (Request.OnSession number SessionRequest.Back) reply
            self.new.state) }
        ensures budget { self.new.budget ≡ self.old.budget }
        ensures interpretation { IfOk result (λ reply. KeepsInterpretation self.old reply self.new) }
        ensures refused { IfErr result (IsFault (Refuses self.old.state (Request.OnSession number SessionRequest.Back))) }
        ensures kept { OnErr result (self.new ≡ self.old) }
    {
        let count = self.session(number)?.editor.tokens().len();
        if self.sessions.back(SessionId(number)) {
            Ok(Reply::Back {
                tokens: count as u32 - 1,
            })
        } else {
            Err(Fault::Refused(Refusal::Nothing))
        }
    }

    // Tells what may follow the tokens.
    pub(crate) fn menu(&self, number: u32) -> Result<Reply, Fault>
        ensures step { IfOk result (λ reply. Step (IsCutOff self.now.budget) self.now.state (Request.OnSession number SessionRequest.Menu) reply
            self.now.state) }
        ensures refused { IfErr result (IsFault (Refuses self.now.state (Request.OnSession number SessionRequest.Menu))) }
    {
        let editor = &self.session(number)?.editor;
        let menu = editor.menu(self.store.grammar(), self.store.lexicon())?;
        prove!(are_texts(&menu));
        Ok(Reply::Menu {
            menu: told_menu(self.alloc, &menu)?,
            whole: editor.complete(),
            shown: show(self.alloc, self.store.grammar().grammar(), editor.tokens())?,
        })
    }
}

// Whether each text of a menu is in UTF-8, as it always is.
fn are_texts(menu: &Menu<'_>) -> bool
    ensures yes { result ≡ true }
    ensures texts { All (λ entry. IsUtf8 entry.1) menu.now }
{
    for place in 0..menu.len() {
        let (_, text) = menu.get(place);
        let _ = text.as_bytes();
    }
    true
}
