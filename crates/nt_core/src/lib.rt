//! The pure machine: a history that grows by turns, the robin rule, runs, and replays of turns.
//!
//! A [`Core`] keeps the history of a script so far, and takes one [`Turn`](nt_event::Turn) after
//! another; [`Core::robin`] names the turn of the robin rule. [`run`] makes the run of that rule,
//! and [`replay`] the run that a list of turns stands for.
//!
//! Contracts see a `Core` as a `CoreState`: the script, the turn limit, and the history, its newest
//! event first.
#![tactic(auto)]

mod laws;
mod machine;
mod refusals;
mod replays;
mod robins;
mod runs;

pub use laws::{a_run_is_replayed_by_its_turns, one_robin_run, replays_are_runs};
pub use machine::Core;
pub use nt_cpus::CoreRefusal;
pub use refusals::ScheduleRefusal;
pub use replays::replay;
pub use runs::run;
