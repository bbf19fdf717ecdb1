//! Which referents a reference may find: access lists with their scopes, and the closest referent that agrees
//! (after T. Kuhn, Controlled English for Knowledge Representation, 2010).
#![tactic(auto)]

mod access;
mod agreement;
mod entries;
mod sameness;

pub use access::{Access, Found};
pub use agreement::{Test, TestList, TestValues, Tests, agrees, has_value};
pub use entries::Entry;
