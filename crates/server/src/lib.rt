//! The connections of the wiki: what has come over each, and what an event on one of them comes to.
#![tactic(auto)]

mod connections;
mod responses;
mod server;
mod turns;

pub use responses::response;
pub use server::Server;
pub use turns::Turn;
