//! The grammar notation: the faults of a grammar's text that are told before numbers are given.
#![tactic(auto)]

mod categories;
mod declarations;
mod early;
mod names;
mod pairs;
mod rules;
mod variables;

pub use early::first_early_fault;
