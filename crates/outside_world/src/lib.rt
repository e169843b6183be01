//! The outside as the run-time sees it: a shelf of named texts and a sink of bytes, each with a count of its faults;
//! the files of the current folder and standard output; and a shelf and a sink in memory for tests.
#![tactic(auto)]

mod host;
mod memory_shelf;
mod memory_sink;
mod shelf;
mod sink;

pub use host::{HostShelf, StdSink};
pub use memory_shelf::MemoryShelf;
pub use memory_sink::MemorySink;
pub use shelf::{Held, Shelf, ShelfFail};
pub use sink::{Sink, SinkFail, put_all};

#[cfg(test)]
mod tests;
