//! What is left at the end of a run, and why.
//!
//! A settled run may leave threads that are blocked, timers that are set, regions that are open,
//! levels that are raised, locks that are held, inserts that no event used up, and processors that
//! are cut or that spin still. [`left`] lists all of it, each thing as a [`Left`], and says of each
//! pending insert what holds it back. [`print_left`] writes a line for each. [`setting_of`] tells
//! when a timer is due after any events.
//!
//! The history is made once more on the machine, whose calls answer what the definitions say of it;
//! when a timer is due and which event queued a DPC is read of the events.
#![tactic(auto)]

mod causes;
mod cpus;
mod ending;
mod finding;
mod frames;
mod gathering;
mod kinds;
mod listing;
mod naming;
mod numbers;
mod printing;
mod replaying;
mod settings;
mod threads;

pub use finding::left;
pub use kinds::{ApcCause, CpuCause, Left};
pub use printing::print_left;
pub use settings::setting_of;
