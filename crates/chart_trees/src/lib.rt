//! The least skeleton of tokens, by a table of least trees: no derivation is listed.
#![tactic(auto)]

mod charts;
mod codes;
mod earliest;
mod outcomes;
mod paths;
mod scene;
mod skeletons;
mod table;

pub use charts::least;
pub use skeletons::least_of;
