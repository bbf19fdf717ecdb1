//! Tests of faults: which call fails, what serving tells then, and what it leaves on the connections and in the journal.
#![tactic(auto)]

#[cfg(test)]
mod scripts;
#[cfg(test)]
mod tests;
