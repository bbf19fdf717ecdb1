//! Sockets in memory, for tests: what their clients do and when is told beforehand, one call may fail, and the clock stands
//! until it is set or waited for.
#![tactic(auto)]

mod clients;
mod sockets;

pub use clients::{Client, Does, got, is_shut, some_clients};
pub use sockets::MemorySockets;
