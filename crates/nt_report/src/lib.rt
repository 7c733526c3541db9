//! Reading reports: a text as the history whose report it is.
//!
//! [`read_report`] reads a report of a script that `nt_script` has read. It goes in three steps:
//! each line by its form, from the event lines to the schedule (whose lines `nt_log` reads); then
//! the history of the turns and the event lines; then the text of that history, which `nt_print`
//! gives and which has to be what was read. So the reader says nothing of its own on which `cut`,
//! `spins` and `waits` lines a history has. The grammar is `specs::Conditions::IsReportOf` of
//! `nt_print`; the reading, with each refusal, is a function of the bytes, `specs::Reading`. An
//! illegal history is read as well: legality is asked elsewhere. The whole grammar is this
//! project's own (profile).
//!
//! Reading is linear in the bytes.
#![tactic(auto)]

mod comparing;
mod events;
mod fields;
mod histories;
mod kept;
mod line_input;
mod places;
mod reading;
mod walk;
mod words;

pub use reading::read_report;
