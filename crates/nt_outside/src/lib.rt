// The outside world of the project, as traits: where the input comes from, where the text goes, and
// what stands before each turn of a worker. Contracts see the bytes that a source has left and a
// sink holds, where the object tells them, and counts of bytes and of faults.
#![tactic(auto)]

mod calls;
mod error;
mod gate;
mod memory_sink;
mod memory_source;
mod reading;
mod sink;
mod source;
mod streams;
mod writing;

pub use error::{Failed, ReadRefusal, WriteFault};
pub use gate::{Gate, OpenGate};
pub use memory_sink::MemorySink;
pub use memory_source::MemorySource;
pub use reading::read_all;
pub use sink::Sink;
pub use source::Source;
pub use streams::{StdSink, StdSource};
pub use writing::write_all;
