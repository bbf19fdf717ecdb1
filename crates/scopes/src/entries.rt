// The entries of an access list.
ghost use Rattle.std.specs.Prelude.{◌≡◌};

use codeco_terms::Ground;
use wiki_base::Copied;

/// An entry of an access list: the opener of a scope, or a referent with the position at which it was introduced
/// (the number of tokens before it). A weak referent is no longer found once its scope has closed; a strong one is.
#[derive(Drop)]
pub enum Entry {
    Opener,
    Weak(Ground, u16),
    Strong(Ground, u16),
}

impl Entry {
    /// An equal entry.
    pub fn copy(&self) -> Self
        ensures { result ≡ self.now }
    {
        match self {
            Entry::Opener => Entry::Opener,
            Entry::Weak(ground, pos) => Entry::Weak(ground.copy(), *pos),
            Entry::Strong(ground, pos) => Entry::Strong(ground.copy(), *pos),
        }
    }
}
