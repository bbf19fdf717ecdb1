//! Tests alone: the chart beside the listing of trees, on lists of four tokens of small grammars, and on the first tokens of sentences of
//! the built-in grammar. A menu by listing tries each token, and looks at as many trees as there are, so without an optimizer these
//! tests take hours.
#![tactic(auto)]

#[cfg(test)]
mod long_lists;
#[cfg(test)]
mod tests;
