//! Words for the entities of an ontology: the forms that each one gets by its IRI.
#![tactic(auto)]

mod attempts;
mod bases;
mod counts;
mod naming;

pub use naming::Naming;
