//! Requests and replies as lines of JSON.
#![tactic(auto)]

mod line;
mod read;
mod refusals;
mod sentences;
mod sessions;
mod statuses;
mod values;
mod write;

pub use read::{read_line_request, read_request};
pub use write::{bad_request_line, gives_line, reply_line, request_line};
