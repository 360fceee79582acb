//! Input and output as the program sees them: a source that bytes are read from and a sink that
//! they are written to, each with a count of its faults.
//!
//! What a source has left and a sink holds is named by contracts wherever it is known: over memory
//! it is, and of a file, a pipe or a terminal nothing is.
#![tactic(auto)]

mod memory;
mod plain;
mod sink;
mod source;
mod standard;
#[cfg(test)]
mod tests;

pub use memory::{MemorySink, MemorySource};
pub use plain::{PlainSink, PlainSource};
pub use sink::Sink;
pub use source::{Failed, Source};
pub use standard::{StdSink, StdSource};
