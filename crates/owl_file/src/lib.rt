//! Ontologies as files in the functional-style syntax of OWL 2.
#![tactic(auto)]

mod writing;

pub use writing::write_owl;
