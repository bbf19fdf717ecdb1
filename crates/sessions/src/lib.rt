//! The editing sessions of a wiki: each is on the article of a word, at a revision of it, with an editor of its next sentence.
#![tactic(auto)]

mod session;
mod sessions;

pub use session::Session;
pub use sessions::Sessions;
