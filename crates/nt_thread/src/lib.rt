//! The state of a thread: its waits, alerts, APCs and rundown.
//!
//! A thread is ready, runs, is blocked in a wait or a delay, or is gone. A wait is of kernel or
//! user mode, alertable or plain. [`ThreadState::wait`] makes the tests at a wait in their order: a
//! deliverable kernel APC, the released mark or the due time, the alerted flag of its mode, a user
//! APC, the kernel alerted flag, the user-pending mark; where none holds, the thread blocks. A wait
//! that a kernel APC ends (STATUS_KERNEL_APC) is taken up again by the same call.
//!
//! What ends a blocked wait: [`ThreadState::release`], [`ThreadState::end_delay`],
//! [`ThreadState::alert`], and an APC that [`ThreadState::apc`] inserts. The thread is ready then,
//! and [`ThreadState::resume`] gives the status.
//!
//! Contracts see a [`ThreadState`] as the record of a thread's facts in the definitions of the
//! machine (`nt_event`, `Threads` and `Waits`), and each call answers and leaves what they say. One
//! fact holds whenever a value can be used (`NothingBehind`): a blocked thread has no deliverable
//! kernel APC, and in an alertable user wait no user APC queued.
//!
//! Sources: Windows Internals, "Asynchronous procedure calls" and "Dispatcher objects"; the driver
//! documentation, "Waits and APCs", "KeDelayExecutionThread", "KeAlertThread", "KeTestAlertThread".
//! Profile: the order of the tests, and what sets, clears and reads the user-pending mark and the
//! released mark.
#![tactic(auto)]

mod answers;
pub mod laws;
mod state;

pub use answers::{AlertAnswer, ApcAnswer, WaitAnswer, WaitSpec};
pub use nt_event::{ApcKind, ApcNo, Level, Mode, Pick, Regions};
pub use state::ThreadState;
