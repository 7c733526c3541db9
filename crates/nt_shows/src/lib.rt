//! What shows in a run of a script that an expectation fails.
//!
//! nt_expect defines what shows it: an event, by those before it, or a quiet end. Whoever goes
//! through runs keeps the machine and not the events. So here it is decided by what the machine
//! says and by one flag for each event that is watched for, which tells whether such an event came.
//! [`watch`] lists the events that expectations watch for, and [`is_watched`] tells which of them
//! an event is, by which the flags are kept. [`shows_at`] and [`shows_at_end`] decide whether an
//! event and a quiet end show that an expectation fails.
#![tactic(auto)]

mod ends;
mod showing;
mod watched;
mod watching;

pub use ends::shows_at_end;
pub use showing::shows_at;
pub use watched::{watch, watched_count};
pub use watching::is_watched;
