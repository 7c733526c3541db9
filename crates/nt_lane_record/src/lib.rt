//! What one lane keeps behind its lock: its state, and its record.
//!
//! A lane is a state that several processors share: a DPC object, a processor's DPC queue, a
//! processor's threads, the timers, or a spin lock of the script. [`Lane`] is what is protected by
//! its lock: the state, by kind ([`Object`], [`Queue`], [`Group`], [`Clock`], [`Spin`]), and a
//! [`Record`], which has the numbers of the lane's events, per processor and class the greatest
//! value asked on the lane, and the lane's keeper of `nt_mark`. No call here takes a lock or waits.
//!
//! Of each [`Lane`] these facts hold: its numbers are those of its keeper's list, place by place;
//! its state is the one that was noted last, the opening one where its list is empty; the keeper
//! knows an event of each number as one that touches the lane; and what the lane tells of requests,
//! the keeper knows (`IsTied`, `IsLastNoted`).
#![tactic(auto)]

mod lane;
mod leaving;
mod numbers;
mod piece;
mod record;
mod states;

pub use lane::Lane;
pub use leaving::leave_both;
pub use numbers::{Numbers, touched_numbers};
pub use piece::Piece;
pub use record::{Holds, Record};
pub use states::{Clock, Group, Object, Queue, Spin};
