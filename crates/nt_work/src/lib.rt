//! Work items on a pool: each `note` of a history queues an item, workers take the items from one
//! bounded queue, and tell of each how many inserts were pending when it was queued.
#![tactic(auto)]

mod auditing;
mod change;
mod item;
mod passes;
mod queue;
mod rule;
mod view;
mod waiting;
mod worker;

pub use auditing::{WORKERS, audit};
pub use item::{Audited, Item, items};
pub use passes::{WorkPass, WorkQueue};
pub use queue::ROOM;
pub use view::{Hand, Move, View};
pub use waiting::{waiting_at, waiting_counts};
