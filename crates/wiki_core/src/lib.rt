//! The wiki: its state, and one step of it for each request.
#![tactic(auto)]

mod asking;
mod causes;
mod committing;
mod held;
mod known;
mod meaning;
mod opening;
mod parts;
mod recalling;
mod rewording;
mod typing;
mod wiki;

pub use meaning::Meaning;
pub use parts::Parts;
pub use wiki::Wiki;
