//! Structures, classes and axioms, and what each of them says of an interpretation.
#![tactic(auto)]

mod cause;
mod comparing;
mod complement;
mod expressions;
mod knowledge;
mod names;
mod opposing;
mod parts;
mod statements;
mod structures;

pub use cause::Cause;
pub use complement::negated;
pub use expressions::{Class, Classes, Role};
pub use knowledge::Knowledge;
pub use names::Names;
pub use statements::{Axiom, Axioms};
pub use structures::{Cond, Conds, Drs, Referents, Thing};
