//! The data of the machine: scripts, commands, events, turns and histories.
//!
//! A [`Script`] says what a driver writer declares: processors, interrupt routines, DPC objects,
//! timers, threads, APC objects, spin locks and the routines that run. A run of a script is a
//! [`History`]: one [`Event`] for each atomic step of a processor, in order. A [`Turn`] says which
//! processor makes the next step, and where it has a choice, which one.
//!
//! Contracts see each `Items` as the list of its items, so a script or a history is a plain record
//! of numbers and lists there.
#![tactic(auto)]

mod acts;
mod asking;
pub mod class;
mod commands;
mod events;
mod fitting;
mod frames;
mod inserts;
mod jobs;
pub mod limits;
mod lists;
mod lookups;
mod numbers;
mod plans;
mod scripts;
pub mod status;
mod threads;

pub use acts::{ActRefusal, Acted, Made};
pub use class::Asked;
pub use commands::{ApcKind, Command, Importance, Mode, Refusal, Regions, Reply, TimerKey};
pub use events::{Begun, Event, History, Rises, ScheduleKind, Turn, What};
pub use frames::{Again, Body, Held, Region};
pub use inserts::{Insert, Part, Pick, Setting, Standing};
pub use jobs::{Job, Lane, Stand, Task};
pub use lists::Items;
pub use nt_level::Level;
pub use numbers::{ApcNo, CpuNo, DpcNo, LockNo, RoutineNo, ThreadNo, TimerNo};
pub use plans::Plan;
pub use scripts::{ApcDecl, DpcDecl, Isr, Routine, Script, ThreadDecl, TimerDecl};
pub use threads::{Doing, Waiting};
