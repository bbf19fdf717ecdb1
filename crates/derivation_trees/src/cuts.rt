// What a text is cut into.
use wiki_base::Tokens;

/// The tokens of a text, if there are not too many.
#[derive(Drop)]
pub enum Cut {
    /// The tokens, at most 40.
    Tokens(Tokens),
    /// The text has more than 40 tokens.
    TooMany,
}
