//! The outside as traits: files, input, output and a gate. Each has a meaning that contracts name, and a count of
//! faults that never falls, so that an answer that blames the outside can be held to its cause.
#![tactic(auto)]

mod calm;
mod dir;
mod files;
mod gate;
mod memory;
mod shelf;
mod sink;
mod source;
mod streams;
mod write;

pub use calm::{CalmShelf, CalmSink, CalmSource};
pub use dir::DirShelf;
pub use files::{File, FileList};
pub use gate::{Gate, OpenGate};
pub use memory::{MemShelf, MemSink};
pub use shelf::{Shelf, ShelfCall, ShelfFault};
pub use sink::Sink;
pub use source::{Failed, Source};
pub use streams::{StdSink, StdSource};
pub use write::{SinkFailed, write_all};
