//! Verdicts: whether axioms, or knowledge, have a finite model.
#![tactic(auto)]

mod deciding;
mod judging;
mod refuting;

pub use deciding::decide;
pub use judging::{searched_verdict, verdict};
pub use tableau::Verdict;
