//! Answers to questions: the names that are in a class in every model.
#![tactic(auto)]

mod asking;
mod asserting;
mod denying;
mod question;

pub use asking::{Answers, ask, ask_known};
