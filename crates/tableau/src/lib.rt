//! The search for a branch: a quick one whose finds are tested, and the systematic one. It ends with a finished branch, with a closed tree, or with a spent budget.
#![tactic(auto)]

mod quickly;
mod refuting;
mod searching;
mod turn;
mod verdict;
mod way;

pub use refuting::refute;
pub use searching::{search, systematic};
pub use verdict::Verdict;
