//! Ontologies that come in as files: the bytes of a whole input, and whether what they say has a finite model.
#![tactic(auto)]

mod checking;
mod individuals;
mod input;
mod lines;

pub use checking::check;
pub use input::{CutShort, MOST_BYTES, read_input};
pub use lines::fault_line;
