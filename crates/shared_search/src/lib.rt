//! A search for a small model, in which one node may stand for successors of many others, and for a small part of axioms that
//! have no model. What comes out is a proposal: whoever asks has to test it.
#![tactic(auto)]

mod drawing;
mod graph;
mod learning;
mod lessons;
mod models;
mod proposing;
mod rules;
mod searching;
mod sharing;
mod spreading;
mod table;
mod terms;

pub use proposing::{Part, Proposed, narrow, propose};
