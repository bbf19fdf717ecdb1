// The wiki that the program begins with, beside its history.
ghost use Rattle.std.specs.Prelude.{◌≡◌, IfOk, OnErr};
ghost use Rattle.commands.specs.Wiki.{KeptTurn, new_wiki};

use crate::wiki::AceWiki;
use history::History;
use std::alloc::Global;
use std::marker::Model;
use wiki_base::Memory;
use wiki_core::Wiki;
use wiki_talk::{LineRequest, Reply};

/// A wiki over the built-in grammar, beside the history of its sentences. It is seen as both.
#[derive(Drop)]
pub struct RecallingWiki {
    alloc: Global,
    wiki: AceWiki,
    history: History,
}

impl Model for RecallingWiki {
    ghost use Rattle.commands.specs.Wiki.{Recalling};
    ghost use Rattle.turning.specs.Recalling.{recalling, FitsHistory};

    ghost Value = { Recalling };

    ghost view = { λ w. recalling w.wiki w.history };

    ghost invariant = { λ w. FitsHistory w.wiki.state.stored w.history };
}

impl RecallingWiki {
    /// The wiki without words and without a history. A search may take `budget` steps.
    pub fn new(alloc: Global, budget: u64) -> Result<RecallingWiki, Memory>
        ensures { IfOk result (λ wiki. wiki ≡ new_wiki budget) }
    {
        let wiki = AceWiki::new(alloc, budget)?;
        let history = History::new(alloc)?;
        Ok(RecallingWiki {
            alloc,
            wiki,
            history,
        })
    }

    /// Takes the turn of a line: does a request, or takes a change of sentences back, or does it again.
    pub fn turn(&mut self, request: &LineRequest) -> Result<Reply, Memory>
        ensures turn { IfOk result (λ reply. KeptTurn self.old request.now reply self.new) }
        ensures memory { OnErr result (self.new ≡ self.old) }
    {
        self.wiki.turn(self.alloc, &mut self.history, request)
    }

    /// The wiki itself.
    pub fn inner(&self) -> &Wiki
        ensures { result.now ≡ self.now.wiki }
    {
        self.wiki.inner()
    }

    /// The wiki, whose history is forgotten.
    pub fn into_wiki(self) -> AceWiki
        ensures { result ≡ self.wiki }
    {
        self.wiki
    }
}
