//! Closed trees: a tree that is accepted shows that its knowledge has no finite model.
#![tactic(auto)]

mod accepting;

pub use accepting::accepts;
