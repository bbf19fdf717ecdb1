//! Requests of the wiki in HTTP, whole, cut and refused: tests alone.
#![tactic(auto)]

#[cfg(test)]
mod tests;
#[cfg(test)]
mod told;
