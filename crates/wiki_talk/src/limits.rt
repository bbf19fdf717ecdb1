// What is bounded, and by what.
ghost use Rattle.std.specs.Prelude.{◌≡◌};

use lexicon::{LAST_NUMBER, MOST_WORDS};
use wiki_base::MOST_TOKENS;

/// The greatest number of sentences in all articles.
pub const MOST_SENTENCES: u32 = 2_000;

/// The greatest number of sessions that are open.
pub const MOST_SESSIONS: u32 = 64;

/// What a limit bounds.
#[derive(Clone, Copy, Debug, PartialEq, Eq)]
pub enum Limit {
    /// The live words.
    Words,
    /// The sentences in all articles.
    Sentences,
    /// The sessions that are open.
    Sessions,
    /// The tokens of a sentence or of a session.
    Tokens,
    /// The numbers that are given, and the changes of an article.
    Numbers,
}

impl Limit {
    ghost use Rattle.wiki_talk.specs.Limits.{amount_of, name_of};

    /// The greatest number that is allowed.
    pub fn amount(self) -> u32
        ensures { result ≡ amount_of self }
    {
        match self {
            Limit::Words => MOST_WORDS as u32,
            Limit::Sentences => MOST_SENTENCES,
            Limit::Sessions => MOST_SESSIONS,
            Limit::Tokens => MOST_TOKENS as u32,
            Limit::Numbers => LAST_NUMBER,
        }
    }

    /// The name that a line tells.
    pub fn name(self) -> &'static str
        ensures { result.now ≡ name_of self }
    {
        match self {
            Limit::Words => "words",
            Limit::Sentences => "sentences",
            Limit::Sessions => "sessions",
            Limit::Tokens => "tokens",
            Limit::Numbers => "numbers",
        }
    }
}
