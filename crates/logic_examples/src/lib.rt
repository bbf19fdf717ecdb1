//! Terms, knowledge and the calls of the reasoning crates, each by examples worked out by hand: tests alone.
#![tactic(auto)]

#[cfg(test)]
mod absorbed;
#[cfg(test)]
mod bounds;
#[cfg(test)]
mod closed_trees;
#[cfg(test)]
mod grown;
#[cfg(test)]
mod rules;
#[cfg(test)]
mod shown;
#[cfg(test)]
mod terms;
#[cfg(test)]
mod transitive;
#[cfg(test)]
mod truths;
