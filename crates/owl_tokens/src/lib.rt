//! The tokens of a file in the functional-style syntax of OWL 2, each with its place.
#![tactic(auto)]

mod front;
mod laws;
mod tokens;

pub use front::{has_mark, utf8_front};
pub use laws::one_cut;
pub use tokens::{Next, Token, TokenKind, next_token};
