// The symbols of the notation.
use codeco_terms::Symbol;

/// A sign: a symbol that is neither a word nor a terminal.
#[derive(Clone, Copy, Debug, PartialEq, Eq)]
pub enum Sign {
    /// `:`
    Colon,
    /// `,`
    Comma,
    /// `.`
    Stop,
    /// `{`
    OpenBrace,
    /// `}`
    CloseBrace,
    /// `(`
    OpenParen,
    /// `)`
    CloseParen,
    /// `-->`, the arrow of a normal rule
    Normal,
    /// `~~>`, the arrow of a scope-closing rule
    Closing,
    /// `$`
    Dollar,
    /// `#`
    Hash,
    /// `//`
    Scope,
    /// `>`
    Weak,
    /// `>>`
    Strong,
    /// `<`
    Back,
    /// `/<`
    NoBack,
    /// `+`
    Plus,
    /// `-`
    Minus,
    /// `?`
    Question,
}

/// A symbol, by what it stands for in the notation.
#[derive(Drop)]
pub enum Lexeme {
    /// A name: a lower-case letter, then letters, digits and `_`, but none of the keywords.
    Identifier(Symbol),
    /// An upper-case letter, then letters, digits and `_`.
    Variable(Symbol),
    /// `feature`, `word` or `position`.
    Keyword(Symbol),
    /// A label's name.
    Label(Symbol),
    /// A preterminal's name.
    Kind(Symbol),
    /// What stands between the brackets of a terminal.
    Terminal(Symbol),
    Sign(Sign),
}
