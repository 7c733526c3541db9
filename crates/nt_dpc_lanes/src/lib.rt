//! The DPC objects and queues of a script, all in one place.
//!
//! [`Dpcs`] holds the object of each DPC that a script declares and the queue of each of its
//! processors, and keeps the fact that they agree: an object stands in a queue exactly where the
//! queue has an entry of it. Its calls tell what an event has to know before it is made: whether an
//! object is queued, where an insert goes and what it asks for, which entry of a part comes first.
//! [`Dpcs::leave`] makes of it what an event leaves. Only [`Dpcs::new`] and [`Dpcs::copy`] take
//! memory.
//!
//! Contracts see the script and two tables, the states of its objects and of its queues, in the
//! words of the machine's definitions. So what `leave` leaves is by definition what the machine's
//! event leaves of them.
//!
//! Sources: Windows Internals, "Deferred procedure call interrupts"; the driver documentation,
//! "Introduction to DPC Objects", "KeInsertQueueDpc", "KeRemoveQueueDpc".
#![tactic(auto)]

mod changes;
mod dpcs;
mod making;
mod pairs;

pub use changes::{Change, change_of};
pub use dpcs::Dpcs;
