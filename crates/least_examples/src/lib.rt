//! Least skeletons of worked sentences: tests alone.
#![tactic(auto)]

#[cfg(test)]
mod tests;
