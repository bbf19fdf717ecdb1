//! Absorption: axioms as knowledge that a search can use.
#![tactic(auto)]

mod hierarchy;
mod inclusions;
mod knowledge;
mod pieces;
mod representatives;
mod sorting;
mod transitive;

pub use knowledge::absorb;
