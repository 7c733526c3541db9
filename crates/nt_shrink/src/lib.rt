//! A short list of turns that still delivers a request.
//!
//! [`trace`] takes a list of turns and gives their history, settled or not. [`shrink`] leaves out
//! turns of a list, one after another, as long as the others are taken and a routine of the object
//! still begins. What it answers can spare no single turn.
#![tactic(auto)]

mod goals;
mod laws;
mod leaving;
mod machine;
mod refusals;
mod searching;
mod shrinking;
mod tracing;
mod twins;

pub use goals::{Goal, delivers};
pub use laws::{a_shrunk_list_delivers, shrunk_by_the_greatest_spare_place, traces_are_runs};
pub use leaving::without;
pub use refusals::{ShrinkRefusal, TraceRefusal};
pub use shrinking::{MOST_TURNS, shrink};
pub use tracing::trace;
