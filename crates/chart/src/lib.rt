//! The chart: whether a list of tokens that grows and shrinks at its end has a derivation, and which tokens may follow.
#![tactic(auto)]

mod charts;
mod classes;
mod entries;
mod menus;
mod offers;
mod used;

pub use chart_table::has_derivation;
pub use charts::Chart;
