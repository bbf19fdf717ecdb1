//! Connections over TCP that are served side by side: the edge of the wiki to the network. The link itself runs over a trait
//! of sockets (`Sockets`); only `TcpSockets`, which calls the system, is trusted.
#![tactic(auto)]

mod head;
mod link;
mod numbers;
mod place;
mod places;
mod socket;
mod switchboard;
mod tcp;

pub use link::SocketLink;
pub use numbers::Numbers;
pub use place::Times;
pub use socket::{Accepted, Moved, Ready, Sockets};
pub use tcp::TcpSockets;
