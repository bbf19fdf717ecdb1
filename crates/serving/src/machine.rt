// What answers requests.
ghost use Rattle.std.specs.Prelude.{◌≡◌, IfOk, OnErr};
ghost use Rattle.wiki_talk.specs.declared.requests.Request.{Request};
ghost use Rattle.wiki_talk.specs.declared.replies.Reply.{Reply};

use wiki_base::Memory;
use wiki_talk::{Reply, Request};

/// A machine that answers requests, one step for each, as the wiki does.
pub trait Machine {
    /// One step: from a state, at a request, with this reply, to a state.
    ghost Steps: { Self → Request → Reply → Self → Type 0 };

    /// Does one step. For want of memory it does none.
    fn step(&mut self, request: &Request) -> Result<Reply, Memory>
        ensures step { IfOk result (λ reply. Steps self.old request.now reply self.new) }
        ensures memory { OnErr result (self.new ≡ self.old) };
}
