//! The command line: its words, which of them are a command, what `help` tells, and how a run ends.
#![tactic(auto)]

mod arguments;
mod command;
mod forms;
mod help;
mod options;

pub use arguments::{CommandLine, ProcessLine, words};
pub use command::{Command, Outcome};
pub use help::help_text;
pub use options::{
    DEFAULT_BUDGET, MOST_BUDGET, MOST_EVENTS, MOST_MADE, MOST_PLACE, Options, number_within,
};
