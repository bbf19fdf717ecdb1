//! Ontologies that become wikis: the requests that make a wiki of an ontology's file.
#![tactic(auto)]

mod calling;
mod importing;
mod sentences;
mod words;

pub use importing::{Imported, import};
