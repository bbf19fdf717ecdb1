// The numbers that name things of the wiki.
use lists::{Copied, Memory};

/// The number of a word, from 1 up. 0 stands for "no word".
#[derive(Clone, Copy, Debug, PartialEq, Eq, PartialOrd, Ord, Hash)]
pub struct WordId(pub u32);

impl Copied for WordId {
    fn copy(&self) -> Result<WordId, Memory> {
        Ok(*self)
    }
}

/// The number of a session, from 1 up.
#[derive(Clone, Copy, Debug, PartialEq, Eq, PartialOrd, Ord, Hash)]
pub struct SessionId(pub u32);

/// How often an article was changed, from 0 up.
#[derive(Clone, Copy, Debug, PartialEq, Eq, PartialOrd, Ord, Hash)]
pub struct Rev(pub u32);

/// A place in an article: the word that names the article, and the number of sentences before the place.
#[derive(Clone, Copy, Debug, PartialEq, Eq)]
pub struct Place {
    pub article: WordId,
    pub at: u32,
}
