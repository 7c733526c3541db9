//! One processor: what it has to do next, and how it does it over words and a floor.
//!
//! A [`Cpu`] keeps what its own events left: its frames, what it has seen and served of each
//! request class, whether it rests. From this alone it knows its next event, where that touches no
//! lane, or the job that a floor does for it under lanes. [`Cpu::turn`] takes the turn that a
//! schedule names; [`Cpu::advance`] chooses by itself, with one look at each request class before
//! each event.
//!
//! Contracts see a `Cpu` as a `CpuState`: the script, the processor, the turn limit and the record
//! `Own` of what it keeps.
//!
//! Sources: Windows Internals, "Trap dispatching", "Deferred procedure calls", "Asynchronous
//! procedure calls"; the driver documentation, "Managing Hardware Priorities".
#![tactic(auto)]

mod alone;
mod choice;
mod cpu;
mod due;
mod framing;
mod keeping;
mod looks;
mod next;
mod notice;
mod shared;
mod steps;
mod taking;
mod tasks;
mod turn;
mod values;
mod writing;

pub use choice::Choice;
pub use cpu::Cpu;
pub use steps::{Local, Turned};
pub use turn::TurnRefusal;
pub use writing::no_event;
