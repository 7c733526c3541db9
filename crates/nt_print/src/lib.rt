//! Reports: a history as text.
//!
//! [`report`] gives the one text of a history of a script: a line for each event but a look, a line
//! `cut pP` for each processor that made as many events as it may, a line `spins pP LOCK of N` for
//! each other one that has a call of `acquire` with reply spin and doesn't rest, a line
//! `waits N dpc D` or `waits N apc A` for each insert that no event uses up, and the schedule of
//! the history (`nt_log`). The definition of the text is in `specs::Report`; what waits is the
//! definition of the fate of inserts (`nt_event::specs::Fate`). The whole grammar is this project's
//! own (profile).
//!
//! Printing is linear in the history. One walk over the events adds their lines and notes what the
//! lines behind them need: how many events each processor made, for which lock it tried in vain
//! last, which inserts an event named, and what was removed last. A [`summary`] is printed from the
//! same notes.
#![tactic(auto)]

mod cuts;
mod events;
mod fields;
mod flags;
mod inserts;
mod laws;
mod numbers;
mod printing;
mod spins;
mod summaries;
mod tally;
mod waits;

pub use laws::{reports_are_histories, reports_have_no_version};
pub use printing::report;
pub use spins::Spun;
pub use summaries::summary;
