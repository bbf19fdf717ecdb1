//! The words of a wiki: their kinds and forms, and the lexicon that lists the live ones.
#![tactic(auto)]

mod endings;
mod index;
mod kinds;
mod readings;
mod suggest;
mod terminals;
mod words;

pub use kinds::{Forms, Kind, Texts};
pub use readings::{MOST_READINGS, Readings};
pub use suggest::{FormFault, forms};
pub use words::{LAST_NUMBER, LexFault, LexLimit, Lexicon, MOST_WORDS, Word};
