//! Requests of the wiki in HTTP.
#![tactic(auto)]

mod asked;
mod fields;
mod forms;
mod front;
mod goals;
mod limits;
mod lines;
mod numbers;
mod routes;
mod seen;

pub use front::Front;
pub use goals::{Goal, InArticle, InSession, Verb};
pub use limits::{MOST_BODY, MOST_FIELDS, MOST_HEAD};
pub use numbers::number_of;
pub use seen::{Begun, Head, Own, Seen, Then};
