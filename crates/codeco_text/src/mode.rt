// In what a reading is.

/// In what a reading is: in white space, in a comment, or in a symbol. A word or a terminal has the place of its first
/// byte.
#[derive(Clone, Copy, Debug, PartialEq, Eq)]
pub enum Mode {
    Between,
    Comment,
    Word(usize),
    Terminal(usize),
    Dash,
    Dashes,
    Tilde,
    Tildes,
    Slash,
    Greater,
}
