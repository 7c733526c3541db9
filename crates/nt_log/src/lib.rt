//! Schedules: which processor makes which step, and their text.
//!
//! A [`Schedule`] is a turn limit and a list of turns; [`turns_of`] gives that of a history. Its
//! text is the line `schedule N`, a line for each turn, `next P`, `switch P THREAD` or
//! `look P C=V ..`, and the line `done`; [`print_schedule`] gives it, and [`put_schedule`] adds it
//! to another text, [`put_schedule_of`] that of a history. [`read_schedule`] answers the schedule
//! of a text, or the least bad line and what is wrong with it, and [`ScheduleWalk`] reads one line
//! by line within another text. The definition of the text is in `specs::Schedules`, that of the
//! reading in `specs::Reading`, and [`schedules_both_ways`] says that each undoes the other. The
//! whole grammar is this project's own (profile).
//!
//! [`put_field`] and [`put_number`] add fields of a line to a text.
#![tactic(auto)]

mod laws;
mod printing;
mod reading;
mod schedules;
mod turns;
mod walk;

pub use laws::{schedules_both_ways, texts_are_schedules};
pub use nt_text::{put_field, put_number};
pub use printing::{print_schedule, put_schedule, put_schedule_of};
pub use reading::read_schedule;
pub use schedules::{Schedule, turn_bound, turns_of};
pub use turns::count;
pub use walk::{SchedulePlace, ScheduleWalk};
