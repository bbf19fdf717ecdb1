//! What the program does: a command over its input, its output and a link. `run` carries the program's theorem.
#![tactic(auto)]

mod check;
mod help;
mod import;
mod lines;
mod make;
mod over_sockets;
mod recalling;
mod replay;
mod retell;
mod running;
mod serve;
mod wiki;

pub use lines::answer_line;
pub use over_sockets::program_over;
pub use recalling::RecallingWiki;
pub use running::{end, program, run};
pub use wiki::AceWiki;
