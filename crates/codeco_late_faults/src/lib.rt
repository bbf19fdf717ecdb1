//! The grammar notation: the first fault of a grammar whose numbers are given.
#![tactic(auto)]

mod bad_rules;
mod bodies;
mod doubles;
mod feature_table;
mod first;
mod recursion;
mod references;
mod writing;

pub use first::first_fault;
