//! What stands outside ThreadMentor: where bytes come from and where they go. Each source and each
//! sink counts its faults, so that a caller can prove that a failure came from outside.
#![tactic(auto)]

mod faults;
mod gates;
mod memory_sink;
mod memory_source;
mod reading;
mod sinks;
mod sources;
mod standard;
mod writing;

pub use faults::Failed;
pub use gates::{Gate, NoGate};
pub use memory_sink::MemorySink;
pub use memory_source::MemorySource;
pub use reading::{ReadFault, read_all};
pub use sinks::Sink;
pub use sources::Source;
pub use standard::{StdSink, StdSource};
pub use writing::write_all;

#[cfg(test)]
mod tests;
