//! The shade of a history in the lanes of DPC objects, DPC queues, timers and spin locks: what
//! stands there, without the numbers of events.
//!
//! Whoever goes through all schedules of a script meets many histories that differ in numbers
//! alone, and go on alike. A [`ShadeDpcs`] is plain data that two such histories share, as far as
//! these lanes go. [`ShadeDpcs::new`] makes that of no history, and [`ShadeDpcs::follow`] takes in
//! one event after another. Pending inserts stand in the order in which they came, and set timers
//! and delays by due time, those of one due time in the order in which they were set. So no number
//! is needed to tell which comes first.
//!
//! Contracts say what `IsShade` says: the data are what the machine's definitions have in these
//! lanes, with each number 0. Then equal shades are of histories that have the same there
//! ([`same_shades_tell_same_lanes`]).
#![tactic(auto)]

mod laws;
mod locks;
mod making;
mod objects;
mod queues;
mod shade;
mod timers;

pub use laws::same_shades_tell_same_lanes;
pub use locks::ShadeLock;
pub use objects::ShadeObject;
pub use queues::{ShadeInsert, ShadeQueue};
pub use shade::ShadeDpcs;
pub use timers::{ShadeKey, ShadeTimers};
