//! Processors on threads: each stands in a worker with a pass of its own, and turns over lanes with
//! a lock each.
#![tactic(auto)]

mod board;
mod finishing;
mod gathering;
mod laws;
mod list;
mod merging;
mod rounds;
mod team;
mod worker;

pub use board::{Board, Opened, prepare};
pub use gathering::{Gathered, gather, gather_all};
pub use laws::{
    all_done_settles, an_advance_keeps_the_work, closed_events_are_one_run, looks_keep_the_work,
};
pub use rounds::live;
pub use worker::{Worker, work};
