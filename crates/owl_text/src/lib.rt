//! Classes and axioms as texts, in the functional-style syntax of OWL 2.
#![tactic(auto)]

mod printing;

pub use printing::{print_axiom, print_class};
