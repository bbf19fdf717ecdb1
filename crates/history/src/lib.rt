//! What stood before each change of sentences, so that changes can be taken back and done again.
#![tactic(auto)]

mod history;
mod kept;
#[cfg(test)]
mod tests;

pub use history::{History, MOST_ENTRIES};
pub use kept::Kept;
