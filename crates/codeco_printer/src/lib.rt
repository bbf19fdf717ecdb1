//! The grammar notation: the text of a grammar.
#![tactic(auto)]

mod print_symbols;
mod printing;
mod unnumbered;

pub use printing::print_grammar;
