//! The events of a history and lists of turns in little memory.
//!
//! An [`Event`](nt_event::Event) takes the room of the values of a look, and most events are none.
//! [`Events`] keeps a [`Brief`] for each event, which is all of it but the values of a look, and
//! the values of the looks beside. Contracts see the list of the events. [`Turns`] keeps turns in
//! the same way, and [`Turns::walk`] goes through them in order.
#![tactic(auto)]

mod brief;
mod events;
mod history;
mod kept;
mod looks;
mod recorder;
mod turns;
mod walk;

pub use brief::{Brief, Did, Noticed};
pub use events::{Briefs, Events};
pub use history::History;
pub use recorder::Recorder;
pub use turns::Turns;
pub use walk::{TurnWalk, no_turn};
