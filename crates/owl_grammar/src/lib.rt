//! Ontologies read from files, by a grammar of whole files.
#![tactic(auto)]

mod reading;

pub use reading::read_owl;
