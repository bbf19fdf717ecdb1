//! Files in the functional-style syntax of OWL 2, with their axioms worked out by hand: tests alone.
#![tactic(auto)]

#[cfg(test)]
mod axioms;
#[cfg(test)]
mod told;
