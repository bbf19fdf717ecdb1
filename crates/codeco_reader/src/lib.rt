//! The grammar notation: the grammar that a text makes, and the text of a grammar.
#![tactic(auto)]

mod reading;

pub use codeco_checked::{CheckedGrammar, GrammarFault};
pub use codeco_printer::print_grammar;
pub use reading::read_grammar;
