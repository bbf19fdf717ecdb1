//! An agenda of a search: it finds the first applicable step, and a clash, without looking over the whole branch.
#![tactic(auto)]

mod clashing;
mod edging;
mod keeping;
mod queue;
mod reading;
mod stepping;
mod waiting;

pub use clashing::clash_after;
pub use keeping::Agenda;
