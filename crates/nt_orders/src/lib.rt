//! Which run of a script is shown: a random one, or one that begins with given turns.
//!
//! [`random`] makes a settled run in which each turn is drawn among those that may be taken; the
//! seed decides which. [`go_on`] takes given turns one by one, up to the first that is refused, and
//! goes on from there by the robin rule until the run is settled.
//!
//! What is drawn, and how the choice falls, is this project's own (profile).
#![tactic(auto)]

mod beginnings;
mod drawing;
mod draws;
mod machines;
mod randoms;

pub use beginnings::{GoneOn, Went, go_on};
pub use randoms::random;
