//! The articles of a wiki: for each word the list of its sentences, and how often it was changed.
#![tactic(auto)]

mod article;
mod articles;
mod sentences;
mod shared;

pub use article::Article;
pub use articles::Articles;
pub use sentences::{Sentence, Sentences};
pub use shared::Shared;
