//! The grammar notation: the first rule of a grammar whose label doesn't fit.
#![tactic(auto)]

mod allowed;
mod found;
mod kind_table;
mod misfits;
mod shapes;

pub use misfits::first_misfit;
