//! What a wiki knows, told again: each axiom as a sentence, all of them as a file, and why a sentence isn't asserted or a name
//! answers a question.
#![tactic(auto)]

mod cases;
mod files;
mod reasons;
mod saying;

pub use cases::why;
pub use files::file_of;
pub use saying::say_all;
