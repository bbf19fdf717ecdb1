// The wiki that the program begins with.
ghost use Rattle.std.specs.Prelude.{◌≡◌, IfOk, OnErr};
ghost use Rattle.commands.specs.Wiki.{KeptStep, KeptTurn, ace_wiki};
ghost use Rattle.turning.specs.Recalling.{recalling, FitsHistory};

use ace_grammar::built_in;
use history::History;
use serving::Machine;
use std::alloc::Global;
use std::marker::Model;
use wiki_base::Memory;
use wiki_core::Wiki;
use wiki_talk::{LineRequest, Reply, Request};

/// A wiki over the built-in grammar, seen as the state of a plain wiki.
#[derive(Drop)]
pub struct AceWiki {
    wiki: Wiki,
}

impl Model for AceWiki {
    ghost use Rattle.commands.specs.Wiki.{Holding};

    ghost Value = { Holding };

    ghost view = { λ w. w.wiki };
}

impl AceWiki {
    /// The wiki without words. A search may take `budget` steps.
    pub fn new(alloc: Global, budget: u64) -> Result<AceWiki, Memory>
        ensures { IfOk result (λ wiki. wiki ≡ ace_wiki budget) }
    {
        let wiki = Wiki::new(alloc, built_in(alloc)?, budget)?;
        Ok(AceWiki { wiki })
    }

    /// The wiki itself.
    pub fn inner(&self) -> &Wiki
        ensures { result.now ≡ self.now }
    {
        &self.wiki
    }

    /// Takes one turn of the wiki with a history that fits it.
    pub fn turn(
        &mut self,
        alloc: Global,
        history: &mut History,
        request: &LineRequest,
    ) -> Result<Reply, Memory>
        requires { FitsHistory self.old.state.stored history.old }
        ensures turn { IfOk result (λ reply. KeptTurn (recalling self.old history.old) request.now reply (recalling self.new history.new)) }
        ensures fits { FitsHistory self.new.state.stored history.new }
        ensures wiki { OnErr result (self.new ≡ self.old) }
        ensures history { OnErr result (history.new ≡ history.old) }
    {
        turning::turn(alloc, &mut self.wiki, history, request)
    }
}

impl Machine for AceWiki {
    ghost Steps = { KeptStep };

    fn step(&mut self, request: &Request) -> Result<Reply, Memory>
        ensures step { IfOk result (λ reply. KeptStep self.old request.now reply self.new) }
        ensures memory { OnErr result (self.new ≡ self.old) }
    {
        let reply = self.wiki.step(request)?;
        Ok(reply)
    }
}
