//! Reasons: a least list of parts of knowledge that have no model together, with what shows that none can be left out.
#![tactic(auto)]

mod explaining;
mod gathering;
mod inquiry;
mod narrowing;
mod part;
mod showing;
mod sources;
mod tracing;
mod uses;
mod why;

pub use explaining::explain;
pub use part::Part;
pub use why::Why;
