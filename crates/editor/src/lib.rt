//! The predictive editor: tokens that are typed one after another, each from the menu of those before it (after T. Kuhn,
//! Controlled English for Knowledge Representation, 2010).
#![tactic(auto)]

mod editors;
mod faults;
mod typing;

pub use editors::Editor;
pub use faults::TypeFault;
