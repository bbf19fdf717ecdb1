// Sentences as they are stored.
use crate::shared::Shared;
use lists::{Copied, List, Memory};
use wiki_base::Tokens;
use wiki_talk::Status;

/// A sentence: its tokens, which copies of it share, and what became of it.
#[derive(Drop)]
pub struct Sentence {
    pub tokens: Shared<Tokens>,
    pub status: Status,
}

impl Copied for Sentence {
    fn copy(&self) -> Result<Self, Memory> {
        Ok(Sentence {
            tokens: self.tokens.copy()?,
            status: self.status,
        })
    }
}

/// The sentences of an article, in order.
pub type Sentences = List<Sentence>;
