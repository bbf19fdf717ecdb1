//! From structures to axioms and classes, with the same truth.
#![tactic(auto)]

mod alone;
mod components;
mod fault;
mod graph;
mod mapping;
mod part;
mod rolling;
mod statement;
mod terms;
mod tree;

pub use mapping::{Asked, Mapped, map_question, map_statement};
