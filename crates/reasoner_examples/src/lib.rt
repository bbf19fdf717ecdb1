//! Small knowledge bases with the ends of their searches, worked out by hand, and what is asked of them in tests.
#![tactic(auto)]

mod bases;
mod fitting;
mod leading;
mod models;
mod reading;
#[cfg(test)]
mod tests;

pub use bases::{BASES, Base, NESTED};
pub use fitting::are_fit;
pub use leading::{LEADING, Worked};
pub use models::has_small_model;
pub use reading::{first_names, names_of, read};
