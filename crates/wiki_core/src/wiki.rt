// The wiki and its step.
ghost use Rattle.std.specs.Prelude.{◌≡◌, Err, IsTrue, IfOk, IfErr, OnErr};
ghost use Rattle.wiki_parts.specs.Faults.{Tells};

use crate::held::is_held;
use codeco_checked::CheckedGrammar;
use sessions::Sessions;
use std::alloc::Global;
use std::marker::Model;
use wiki_base::Memory;
use wiki_parts::Fault;
use wiki_store::Store;
use wiki_talk::{Reply, Request};

/// A wiki: words, articles and sentences, and the sessions in which sentences are typed. It is seen as its state, the budget of a
/// search, and the interpretation that it keeps of what it knows.
#[derive(Drop)]
pub struct Wiki {
    pub(crate) alloc: Global,
    pub(crate) store: Store,
    pub(crate) sessions: Sessions,
    // The last number that was given to a session.
    pub(crate) last: u32,
}

impl Model for Wiki {
    ghost use Rattle.sessions.specs.Sessions.{all_plain};
    ghost use Rattle.wiki_core.specs.Holding.{Holding};
    ghost use Rattle.wiki_core.specs.Keeping.{AreHeld};

    ghost Value = { Holding };

    ghost view = { λ w. record {
      state = record { stored = w.store.state; sessions = all_plain w.sessions; last = w.last };
      budget = w.store.budget;
      interpretation = w.store.interpretation;
    } };

    ghost invariant = { λ w. AreHeld w.store.state w.sessions w.last };
}

impl Wiki {
    ghost use Rattle.codeco_checked.specs.Sound.{is_labelled};
    ghost use Rattle.wiki_core.specs.Apart.{MenuIsOwn, TokensAreOwn};
    ghost use Rattle.wiki_core.specs.Holding.{first_holding, IsKept};
    ghost use Rattle.wiki_core.specs.Journaled.{NoneIsRaised, AreUtf8, IsHeld, StandsAgain, ChangesFitLines};
    ghost use Rattle.wiki_core.specs.Spending.{SpendsBeyondKept, KeptHasEachUnknown};
    ghost use Rattle.plain_wiki.specs.Step.{Step};
    ghost use Rattle.wiki_parts.specs.Faults.{IsFault};
    ghost use Rattle.wiki_parts.specs.Spending.{IsCutOff};
    ghost use Rattle.plain_wiki.specs.Against.{Refuses};
    ghost use Rattle.wiki_core.specs.Unchanged.{KeepsInterpretation};

    /// A wiki without words and sessions, over a grammar in which each rule has a label. A search may take `budget` steps.
    pub fn new(alloc: Global, grammar: CheckedGrammar, budget: u64) -> Result<Wiki, Memory>
        requires { IsTrue (is_labelled grammar) }
        ensures first { IfOk result (λ wiki. wiki ≡ first_holding grammar budget) }
        ensures apart { TokensAreOwn grammar }
        ensures stands { NoneIsRaised grammar.terminals → StandsAgain grammar }
        ensures lines { NoneIsRaised grammar.terminals → AreUtf8 grammar.terminals → ChangesFitLines grammar }
    {
        // What is read again rests on a grammar without faults.
        let _ = grammar.grammar();
        let store = Store::new(alloc, grammar, budget)?;
        Ok(Wiki {
            alloc,
            store,
            sessions: Sessions::new(alloc),
            last: 0,
        })
    }

    /// Does one request, or refuses it, which changes nothing.
    pub fn step(&mut self, request: &Request) -> Result<Reply, Memory>
        ensures step { IfOk result (λ reply. Step (IsCutOff self.old.budget) self.old.state request.now reply self.new.state) }
        ensures budget { self.new.budget ≡ self.old.budget }
        ensures spent { IfOk result (SpendsBeyondKept self.old request.now) }
        ensures unknown { IfOk result (KeptHasEachUnknown self.old request.now) }
        ensures interpretation { IfOk result (λ reply. KeepsInterpretation self.old reply self.new) }
        ensures kept { IsKept self.new }
        ensures menu { IfOk result (MenuIsOwn self.old.state request.now) }
        ensures held { IsHeld request.now }
        ensures memory { OnErr result (self.new ≡ self.old) }
    {
        prove!(is_held(request));
        let reply = told(self.carry_out(request));
        self.is_kept();
        reply
    }

    /// What the wiki keeps fits its state.
    pub fn is_kept(&self)
        ensures { IsKept self.now }
    {
        self.store.is_kept();
        let _ = self.sessions.as_slice();
    }

    // Does one request, or tells why it is refused.
    fn carry_out(&mut self, request: &Request) -> Result<Reply, Fault>
        ensures step { IfOk result (λ reply. Step (IsCutOff self.old.budget) self.old.state request.now reply self.new.state) }
        ensures budget { self.new.budget ≡ self.old.budget }
        ensures spent { IfOk result (SpendsBeyondKept self.old request.now) }
        ensures unknown { IfOk result (KeptHasEachUnknown self.old request.now) }
        ensures interpretation { IfOk result (λ reply. KeepsInterpretation self.old reply self.new) }
        ensures refused { IfErr result (IsFault (Refuses self.old.state request.now)) }
        ensures kept { OnErr result (self.new ≡ self.old) }
    {
        match request {
            Request::OnWiki(asked) => self.on_wiki(asked),
            Request::OnWord { word, asked } => self.on_word(word, asked),
            Request::OnArticle { article, asked } => self.on_article(article, asked),
            Request::OnSession { session, asked } => self.on_session(*session, asked),
        }
    }
}

// The reply to a request that is done or refused.
fn told(done: Result<Reply, Fault>) -> Result<Reply, Memory>
    ensures told { IfOk result (λ reply. Tells done reply) }
    ensures memory { OnErr result (done ≡ Err Fault.Memory) }
{
    match done {
        Ok(reply) => Ok(reply),
        Err(Fault::Refused(refusal)) => Ok(Reply::Refused(refusal)),
        Err(Fault::Memory) => Err(Memory),
    }
}
