//! DPC objects and the DPC queues of processors.
//!
//! A deferred procedure call (DPC) is a routine that an interrupt routine has run later, at
//! DISPATCH_LEVEL. A driver keeps a [`DpcObject`] for it and inserts it into the [`DpcQueue`] of a
//! processor. An object stands in at most one queue at a time: inserting it again answers no and
//! changes nothing. [`DpcQueue::first`] tells which entry of a part runs next: the High one that
//! was inserted last, else the one that was inserted first. [`DpcQueue::insert`] tells too which
//! interrupt the queue's processor is asked for, by the object's importance, the depth of the queue
//! and whether the processor is idle.
//!
//! Contracts see an object as its number, its part and the state of the machine's definitions:
//! importance, target and where its entry stands. They see a queue as its processor, its room, its
//! depth limit and the state of the same definitions: the pending inserts, the newest first, and
//! the idle mark.
//!
//! Sources: Windows Internals, "Deferred procedure call interrupts"; the driver documentation,
//! "Introduction to DPC Objects", "KeInsertQueueDpc", "KeRemoveQueueDpc", "KeSetImportanceDpc",
//! "KeSetTargetProcessorDpc", "KeInitializeThreadedDpc".
#![tactic(auto)]

mod entries;
mod laws;
mod objects;
mod queues;

pub use laws::{
    ask_is_the_events, first_by_number, object_calls_are_events, one_entry_each,
    queue_calls_are_events, removed_is_gone,
};
pub use objects::DpcObject;
pub use queues::{DpcQueue, Inserted};
