//! Questions on small knowledge bases with their answers, and models of finished branches, worked out by hand.
#![tactic(auto)]

mod asking;
mod pictures;
mod questions;
#[cfg(test)]
mod tests;

pub use asking::asked;
pub use pictures::{PICTURES, Picture};
pub use questions::{QUESTIONS, Question};
