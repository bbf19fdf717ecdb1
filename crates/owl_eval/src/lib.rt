//! Finite interpretations, and which classes, axioms and structures are true in them.
#![tactic(auto)]

mod alike;
mod avoiding;
mod axioms;
mod beside;
mod changes;
mod checked;
mod extent;
mod interp;
mod membership;
mod relation;
mod sorted;
mod truth;

pub use axioms::{axiom_true, is_model};
pub use checked::CheckedModel;
pub use interp::Interp;
pub use membership::in_class;
pub use truth::drs_true;
