//! The top call: from the words of the command line and the bytes of the input to the bytes of the
//! output and a status.
//!
//! `run` reads a script of driver calls and interrupts for one to 64 processors from a source, runs
//! it in a fixed order, and writes a report of every step and delivery to a sink, with the schedule
//! taken. `live` runs the script with a worker for each processor, on threads, and writes the
//! report of what they did. `replay` reads a script and after it a schedule, takes the turns of the
//! schedule, and writes the report of that run. `check` reads a script and after it a report, and
//! writes `legal` if the report's history is a settled run of the script, else the number at which
//! it goes wrong. `load --seed N` reads nothing: it makes a long script from the seed, runs it in
//! the fixed order, and writes how many events, calls, refusals and deliveries there were.
//! `migrate` reads a script and writes it in version 2. `verify` reads a script and writes which of
//! its commands are refused wherever they are reached, and whether it acquires its locks in rising
//! order. `shrink --goal NAME` reads a script and after it a schedule, and writes a shorter
//! schedule whose turns still deliver a DPC or an APC. `audit` runs the script in the fixed order,
//! and writes for each `note` how many inserts were pending then, which workers on threads work
//! out.
//!
//! [`ntrun`] is the whole program over a source, a sink and a gate; [`plain`] is the same for words
//! that need no threads. `nt_words` tells which form the words are. The bytes of the source are
//! read whole and are a task: a script (`nt_script`), and for `replay` a schedule (`nt_log`), for
//! `check` a report (`nt_report`) behind it. `nt_core` makes the history that a task asks for, by
//! the robin rule or by the schedule's turns, or `nt_live` on threads, and `nt_print` its text;
//! `nt_check` tests the history of a report. The script of a load is that of `nt_load`, and
//! `nt_print` sums up its history. What `verify` finds is that of `nt_verify`, the shorter schedule
//! that of `nt_shrink`, the audit that of `nt_work`. What is found is written at once.
//! `specs/Outcome.antt` says when each status comes and what is written, and `specs/Headline.antt`
//! what that promises.
#![tactic(auto)]

mod answer;
mod auditing;
mod headline;
mod shrinking;
mod status;
mod task;
mod threads;
mod top;
mod verifying;

pub use headline::{
    check_calls_the_report_legal, replaying_its_schedule_writes_the_report_again,
    the_report_is_that_of_the_actual_history,
};
pub use nt_words::is_live;
pub use status::Status;
pub use top::{ntrun, plain, starved};
