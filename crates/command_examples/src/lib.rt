//! The program over streams and a link in memory, which tell all that its theorem speaks of.
#![tactic(auto)]

#[cfg(test)]
mod over_sockets;
#[cfg(test)]
mod tests;
