//! The grammar notation: grammars in which no fault holds.
#![tactic(auto)]

mod checked;
mod fault;
mod labels;
mod numbers;

pub use checked::CheckedGrammar;
pub use fault::GrammarFault;
pub use labels::{Children, Heads, Kind, LabelRow, Words, label_row};
pub use numbers::{FIRST_PLAIN, NUMBERS};
