//! The floor in memory, for one thread.
//!
//! A [`PlainFloor`] draws the numbers of events from 0 up, keeps for each processor and class the
//! greatest request, knows of each event for what it was marked, and keeps the states of all lanes
//! of a script with what they tell of requests. All room is taken when it is made.
//!
//! Contracts see it as one record of numbers and lists, and each value, mark and state as a
//! question about that record.
#![tactic(auto)]

mod floor;
mod locks;
mod making;
mod marks;
mod open;
mod places;
mod plain;
mod requests;
mod states;
mod told;

pub use plain::PlainFloor;
pub use states::States;
