//! A generated wiki: its requests by a count and a seed, and what the replies to them add up to.
#![tactic(auto)]

mod drawn;
mod requests;
mod summary;

pub use drawn::next_draw;
pub use requests::{read_request, sentence_of_kind, word_request};
pub use summary::Summary;
