//! Nested routines of one processor: which one runs, at which level, and which regions its thread
//! is in.
//!
//! Each running routine is a frame, named by the number of the event that began it. Interrupts,
//! DPCs and threaded DPCs stand on the processor's own part, threads, APCs and rundown routines on
//! a thread's. The innermost frame is the newest one of the own part, else the newest one of the
//! running thread. [`Frames`] keeps both, and tells the level ([`Frames::level`]), the regions of
//! the running thread ([`Frames::regions`]) and the innermost frame ([`Frames::innermost`]); a
//! routine begins by [`Frames::begin`] and ends by [`Frames::finish`], which gives back the level
//! below and the regions that it entered.
//!
//! Contracts see a [`Frames`] as the record of lists that the definitions of the machine keep, the
//! innermost frame first, so each call's clause is a word of those definitions. What is kept at any
//! time follows from the conditions of the calls alone: the frames of a part rise in rank and in
//! number, so that a processor has at most 13 frames and a thread at most 4, and no call but
//! [`Frames::new`] and [`Frames::copy`] takes memory. [`perform_all`] says the same of lists of
//! calls.
//!
//! Sources: Windows Internals, "Interrupt request levels (IRQLs)" and "Asynchronous procedure
//! calls"; the driver documentation, "Managing Hardware Priorities" and "Disabling APCs". Profile:
//! what a routine's end gives up.
#![tactic(auto)]

mod calls;
mod change;
mod frame;
mod frames;
mod laws;
mod part;
mod parts;
mod refusals;
mod stand;
mod view;

pub use calls::{FrameAnswer, FrameCall, perform, perform_all};
pub use frame::Frame;
pub use frames::Frames;
pub use laws::{events_are_calls, histories_are_calls};
pub use nt_event::{Again, Body, Region};
pub use refusals::refusal;
pub use stand::StandView;
pub use view::FrameView;
