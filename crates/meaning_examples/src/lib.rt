//! What sentences of the built-in grammar mean, from their text to their axioms: tests alone.
#![tactic(auto)]

#[cfg(test)]
mod interpretations;
#[cfg(test)]
mod meanings;
#[cfg(test)]
mod sentences;
#[cfg(test)]
mod structures;
#[cfg(test)]
mod tests;
