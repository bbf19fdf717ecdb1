// The names and terminals of a grammar.
use wiki_base::{Bytes, List};

/// The name of a feature, an atom or a category, or a terminal.
pub type Symbol = Bytes;

/// Names or terminals in order of number, from 0.
pub type Symbols = List<Symbol>;
