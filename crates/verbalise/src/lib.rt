//! Axioms said as sentences: a pattern for each shape of axiom, and the check that the sentence is read as exactly that axiom.
#![tactic(auto)]

mod axioms;
mod classes;
mod comparing;
mod phrases;
mod readings;
mod saying;
mod vocabulary;

pub use readings::Reading;
pub use saying::{Spoken, say};
