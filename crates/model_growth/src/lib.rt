//! An interpretation that grows until axioms are true in it, if that is easy. What comes out is a proposal: whoever asks has
//! to test it.
#![tactic(auto)]

mod draft;
mod growing;
mod mentions;

pub use growing::grow;
