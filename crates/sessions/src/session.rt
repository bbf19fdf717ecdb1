// One session.
ghost use Rattle.std.specs.Prelude.{◌≡◌, ◌+◌, ◌-◌, ◌<◌, [], ◌∷◌, ◌++◌, length, take, true, false, IfOk, OnOk, OnErr, Err};
ghost use Rattle.wiki_base.specs.declared.tokens.TheConstants.{MOST_TOKENS};
ghost use Rattle.derivation_trees.specs.Sentences.{setting_of};
ghost use Rattle.chart.specs.Charts as charting;
ghost use Rattle.editor.specs.Editing.{typed, IsInMenu};
ghost use Rattle.editor.specs.Rebasing.{IsRebased};

use codeco_checked::CheckedGrammar;
use editor::{Editor, TypeFault};
use lexicon::Lexicon;
use std::alloc::Global;
use wiki_base::{Memory, Rev, SessionId, WordId};

/// A session: its number, the word of its article, the revision of the article that it is at, and the editor of its tokens.
#[derive(Drop)]
pub struct Session {
    pub number: SessionId,
    pub article: WordId,
    pub revision: Rev,
    pub editor: Editor,
}

impl Session {
    // The session with another editor.
    pub(crate) fn with_editor(&self, editor: Editor) -> Session
        ensures { result ≡ record self.now { editor = editor } }
    {
        Session {
            number: self.number,
            article: self.article,
            revision: self.revision,
            editor,
        }
    }
}
