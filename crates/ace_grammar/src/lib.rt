//! The wiki's own grammar: a controlled English of statements and questions, as values.
#![tactic(auto)]

mod declarations;
mod names;
mod noun_phrases;
mod predicates;
mod quantifiers;
mod questions;
mod relative_clauses;
mod rows;
mod statements;
mod verb_phrases;
mod whole;

pub use whole::built_in;
