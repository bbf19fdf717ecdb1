//! The words and sentences of a wiki, with the model that is kept: what is asked of them, each in a call of its own.
#![tactic(auto)]

mod adding;
mod appending;
mod base;
mod causes;
mod changing;
mod joining;
mod keeping;
mod lending;
mod putting;
mod reading;
mod recalling;
mod regrounding;
mod remembered;
mod removing;
mod rewording;
mod sameness;
mod standing;
mod store;
mod telling;
mod unwording;

pub use store::Store;
