//! Expectations: what shall never, or always, happen in the runs of a driver script, and their
//! text.
//!
//! An [`Expectation`] speaks of the runs of a script under any schedule, as that a DPC never runs
//! after a note. Its text is one line; a list of them stands between the lines `expect` and `done`,
//! with at most [`MOST`] of them. [`print_expectations`] gives the text of a list. To another text
//! [`put_expectation`] adds one line without its end, and [`put_watched`] an event as it stands in
//! a line. [`read_expectations`] answers the list of a text, or the least bad line and what is
//! wrong with it. The definition of the text is in `specs::Expectations`, that of the reading in
//! `specs::Reading`, and [`expectations_both_ways`] says that each undoes the other. What shows in
//! a history that an expectation fails is defined in `specs::Meaning`. The whole grammar is this
//! project's own (profile).
#![tactic(auto)]

mod expectations;
mod fields;
mod laws;
mod lines;
mod printing;
mod reading;
mod refusals;
mod replies;

pub use expectations::{Activity, Expectation, MOST, NamedReply, Watched};
pub use laws::{expectations_both_ways, replies_may_be_expected, texts_are_expectations};
pub use printing::{print_expectations, put_expectation, put_watched};
pub use reading::{Expectations, read_expectations};
pub use refusals::{ExpectKind, ExpectRefusal};
pub use replies::may_reply;
