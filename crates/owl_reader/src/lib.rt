//! Ontologies read from files in the functional-style syntax of OWL 2.
#![tactic(auto)]

mod claims;
mod entities;
mod faults;
mod frames;
mod keywords;
mod kinds;
mod prefixes;
mod reader;
mod reading;
mod stand;

pub use faults::OwlFault;
pub use kinds::{Entities, Entity, EntityKind};
pub use reading::{OwlDoc, read_owl};
