//! A list, a box and a copy for every type: contracts see a list as the list of its items and a box as its value, so
//! that a tree of them is plain data.
#![tactic(auto)]

mod boxed;
mod copied;
mod list;
mod memory;

pub use boxed::Boxed;
pub use copied::Copied;
pub use list::List;
pub use memory::Memory;
