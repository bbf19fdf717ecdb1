//! Which tokens have a derivation, and which a partial one, by a table of where phrases end and where they are cut off.
#![tactic(auto)]

mod asks;
mod branches;
mod choices;
mod cuts;
mod ends;
mod features;
mod fits;
mod instances;
mod merging;
mod rows;
mod sameness;
mod scene;
mod sentences;
mod sizes;
mod states;
mod steps;
mod table;
mod told;

pub use asks::Ask;
pub use choices::{Plan, plan_for, plans_of};
pub use ends::{is_instance, tail_of};
pub use instances::{leading_instances, same_bound};
pub use rows::Rows;
pub use sameness::same_values;
pub use scene::Start;
pub use sentences::{Standing, begins, has_derivation, may_follow, standing_of};
pub use sizes::{Size, table_size};
pub use table::Row;
