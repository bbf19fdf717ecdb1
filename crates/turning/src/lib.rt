//! The wiki with a history: one turn for each line of the input.
#![tactic(auto)]

mod touching;
mod turning;

pub use turning::turn;
