//! The APC queues of a thread: which asynchronous procedure call is delivered next.
//!
//! A thread has three kinds of APC. A *special kernel* APC runs at APC_LEVEL, a *normal kernel* APC
//! runs a kernel routine at APC_LEVEL and then a normal routine at PASSIVE_LEVEL, and a *user* APC
//! goes on in user mode. Special ones stand before normal ones, each by insertion; user APCs stand
//! by insertion. An object is inserted at most once at a time, and a thread whose *doors are
//! closed* takes no more.
//!
//! [`ApcQueues::deliverable`] answers the first kernel APC where the thread's level and regions let
//! it through: a guarded region holds back all of them, a critical region and a normal one in
//! progress hold back the normal ones.
//!
//! Contracts see an [`ApcQueues`] as the record of its pending inserts, the newest first, and its
//! doors: the state of a thread's APCs in the definitions of the machine (`nt_event`, `Apcs`). Each
//! call answers what they say.
//!
//! Sources: Windows Internals, "Asynchronous procedure calls"; the driver documentation, "Types of
//! APCs", "Disabling APCs".
#![tactic(auto)]

mod items;
pub mod laws;
mod queues;

pub use nt_event::{ApcKind, ApcNo, Level, Pick, Regions};
pub use queues::{ApcQueues, MOST_OBJECTS};
