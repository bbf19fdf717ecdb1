//! The outside of the wiki: bytes that come in and go out, calls that may fail, and the lines of an input.
#![tactic(auto)]

mod limits;
mod links;
mod memory;
mod memory_link;
mod reader;
mod sinks;
mod sources;
mod streams;

pub use limits::{MAX_INPUT, MAX_LINE, MOST_OPEN, NEWLINE};
pub use links::{Event, Link, Listen, Next};
pub use memory::{MemorySink, MemorySource};
pub use memory_link::{Fails, MemoryLink};
pub use reader::{Line, LineReader};
pub use sinks::{Sink, Took, put};
pub use sources::{Got, Source};
pub use streams::{ReadSource, WriteSink};
