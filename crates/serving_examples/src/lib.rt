//! Tests of serving: events on connections, at a small machine and over a link in memory.
#![tactic(auto)]

#[cfg(test)]
mod scripts;
#[cfg(test)]
mod tests;
