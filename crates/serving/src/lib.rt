//! Serving: events on connections at a machine that answers requests, with its journal and its responses.
#![tactic(auto)]

mod events;
mod journal;
mod machine;
mod sending;
mod serving;

pub use events::{Handled, event};
pub use machine::Machine;
pub use serving::{Served, serve};
