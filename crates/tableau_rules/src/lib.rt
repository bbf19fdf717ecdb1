//! Branches of knowledge, their clashes, and the rules by which a search makes them grow.
#![tactic(auto)]

mod blocking;
mod branch;
mod carrying;
mod changes;
mod clashes;
mod edges;
mod finder;
mod grown;
mod label;
mod names;
mod neighbour;
mod rows;
mod starting;
mod step;

pub use blocking::{is_blocked, is_directly_blocked, is_indirectly_blocked};
pub use branch::{Branch, Edge, Node};
pub use carrying::role_of_all;
pub use changes::{apply, choices};
pub use clashes::{clash, clash_at_node, is_clash};
pub use finder::{applicable, applies, first_at};
pub use label::same_set;
pub use names::{node_of, root_count};
pub use neighbour::{is_neighbour, makes_neighbour};
pub use starting::start;
pub use step::{Clash, Closed, Rule, Step};
