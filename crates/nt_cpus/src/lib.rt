//! The processors of a script over one floor: turns, the robin rule, and whether all is settled.
//!
//! A [`Processors`] keeps one `Cpu` for each processor of a script and keeps no history. It takes a
//! [`Turn`](nt_event::Turn) over a floor and names the turn of the robin rule. Who keeps the
//! history, or has it, puts it to use: the pure machine, and the checker.
//!
//! Contracts see a `Processors` as a `CpusState`: the script, the turn limit and the processors.
//! What a call does is said for each past after which the processors and the floor stand
//! (`AreAfter`): it is what the machine does after this past.
#![tactic(auto)]

mod asking;
mod processors;
mod refusals;
mod robins;

pub use processors::Processors;
pub use refusals::CoreRefusal;
