//! Models of finished branches.
#![tactic(auto)]

mod closing;
mod elements;
mod entries;
mod extents;
mod making;

pub use making::model;
