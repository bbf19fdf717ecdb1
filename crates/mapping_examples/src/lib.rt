//! Structures with the axioms that are worked out for them by hand.
#![tactic(auto)]

#[cfg(test)]
mod statements;
mod words;

pub use words::{BILL, CAT, DOG, Few, MAN, MARY, OWN, SEE};
