//! Making a wiki by generated requests, and telling what it adds up to.
#![tactic(auto)]

mod making;

pub use making::{Made, make};
