//! The files of the editor page by their names. tools/client --write wrote this crate from the files of client/.
#![tactic(auto)]

mod names;

pub use names::{EditorFile, file_named};
