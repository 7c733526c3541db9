//! A list of turns that leads to something worth showing is completed to a settled run.
//!
//! A search through the states of a script ends at a history that shows what was looked for, and
//! tells the turns that lead there. Such a history is a beginning only. [`witness`] lets the robin
//! rule go on from there to the end, and answers the schedule of the whole run, which a replay
//! accepts. It chooses a turn limit that has room for the given turns.
#![tactic(auto)]

mod choosing;
mod completing;
mod counting;

pub use choosing::witness;
