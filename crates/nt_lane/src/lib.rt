//! The lanes of a script behind locks, one for each, and the seat of a processor over them.
//!
//! What several processors share is cut into lanes: each DPC object, each processor's DPC queue,
//! each processor's threads, the timers, and each spin lock of the script. [`Lanes`] has a lock of
//! its own for each of them. An act holds one of each kind at most, since `Locked` has a place for
//! one. It takes them in this order, which no clause says. Behind a lock stands a `Lane` of
//! `nt_lane_record`: the lane's state, the list of the numbers of its events, per processor and
//! class the greatest value asked on the lane, and the lane's keeper of `nt_mark`.
//!
//! The lock of a spin lock's lane is not that spin lock: it is held for the time of one act, as the
//! lock of any other lane. Which processor's frame holds the spin lock, and who spins on it, is the
//! lane's state.
//!
//! A [`LaneSeat`] draws, marks and looks by a pass of `nt_mark` without a lock (`Words`), and makes
//! an event under the locks of the lanes that the event reads and touches (`Floor`).
//! [`Lanes::close`] gives the lists and the keepers back.
//!
//! Whenever a lock is free, these facts hold of its lane: its numbers are those of its keeper's
//! list, place by place; its state is the one that was noted last, the opening one where its list
//! is empty; the keeper knows an event of each number as one that touches the lane; and what the
//! lane tells of requests, the keeper knows (`IsTied`, `IsLastNoted`). That the numbers of a
//! keeper's list rise is the rule of the words of `nt_mark`, which `Marks::close` shows.
#![tactic(auto)]

mod acting;
mod deciding;
mod floor;
mod foreseeing;
mod held;
mod lanes;
mod locks;
mod making;
mod marking;
mod needs;
mod noting;
mod planning;
mod reading;
mod seat;
mod standing;
mod touching;
mod tries;

pub use lanes::{Lanes, Pieces};
pub use seat::LaneSeat;
