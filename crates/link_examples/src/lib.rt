//! Connections over sockets in memory and over TCP: tests alone.
#![tactic(auto)]

#[cfg(test)]
mod links;
#[cfg(test)]
mod over_memory;
#[cfg(test)]
mod over_tcp;
