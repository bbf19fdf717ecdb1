//! The structures of sentences: what the skeleton of a derivation by a grammar with labels means.
#![tactic(auto)]

mod building;
mod free;
mod meanings;
mod names;
mod nodes;
mod parts;

pub use building::{Built, build};
pub use free::first_free;
