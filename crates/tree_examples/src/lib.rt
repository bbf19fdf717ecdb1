//! Derivation trees of the built-in grammar, and trees that break a rule; how texts are cut and shown, what references
//! find, lists of referents that are joined, and sentences that are generated: tests alone.
#![tactic(auto)]

#[cfg(test)]
mod generated;
#[cfg(test)]
mod referents;
#[cfg(test)]
mod ropes;
#[cfg(test)]
mod rows;
#[cfg(test)]
mod showing;
#[cfg(test)]
mod tests;
