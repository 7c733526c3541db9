//! Which run a text shows: a script, and what stands behind it.
//!
//! [`shown_run`] reads the script of a strict text and answers a settled run of it. Where a report
//! stands behind the script it is the run of the report, which is checked; where a schedule does,
//! the replay of that, or a run that goes on behind its turns; else a run by the robin rule, or one
//! whose turns are drawn. What is answered is defined in `specs::Shown`. That expectations behind a
//! script are not read, and what is shown, is a choice of this project (profile).
#![tactic(auto)]

mod parts;
mod refusal;
mod showing;

pub use parts::{Behind, Part, behind_of, script_part};
pub use refusal::ShownRefusal;
pub use showing::{ShownRun, shown_run};
