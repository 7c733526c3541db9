//! Words and floors: where a processor draws the numbers of its events, marks and looks at
//! requests, and makes the events that touch what several processors share. A [`Seen`] has what a
//! processor has seen of requests.
//!
//! The traits serve a floor in memory, for one thread, and a floor over locked lanes. So their
//! clauses speak of what a value knows: the states that an event was made in are told by `found`,
//! and where a floor tells its states, they are these.
#![tactic(auto)]

mod floor;
mod open;
mod seen;
mod words;

pub use floor::Floor;
pub use nt_event::{ActRefusal, Acted, Job, Made};
pub use nt_frame::StandView;
pub use open::OpenFloor;
pub use seen::Seen;
pub use words::Words;
