//! The grammar notation: numbers in place of names.
#![tactic(auto)]

mod atoms;
mod categories;
mod features;
mod gathering;
mod labels;
mod names;
mod rules;
mod tables;
mod variables;
mod whole;

pub use whole::number_items;
