//! What each model of knowledge has, as far as one branch shows it: the steps to it leave one choice each, so that each
//! model fits it.
#![tactic(auto)]

mod forcing;
mod known;
mod showing;

pub use known::Consequences;
