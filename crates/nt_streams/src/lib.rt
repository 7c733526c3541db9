//! Files and other streams of the system, as sources and sinks of nt_outside.
//!
//! A stream tells no bytes: what the system gives and takes is its own affair. Contracts see counts
//! of bytes and of faults alone.
#![tactic(auto)]

mod reading;
mod writing;

pub use reading::ReadSource;
pub use writing::WriteSink;
