//! Tests of the chart, and of least skeletons by its table: against the listing of trees, and by worked cases.
#![tactic(auto)]

mod agreement;
mod cases;
mod odd;
#[cfg(test)]
mod short_lists;
#[cfg(test)]
mod sizes;
#[cfg(test)]
mod taken_back;
#[cfg(test)]
mod worked;

pub use agreement::difference;
pub use cases::words;
pub use odd::{ODD, Oddity, difference_on_lists};
