//! The shade of a history of a script: all that stands in it, without the numbers of its events.
//!
//! Whoever goes through all schedules of a script meets many histories that differ in numbers
//! alone, and go on alike. A [`Shade`] is plain data that two such histories share, and that can be
//! the key of a map. [`shade_of`] makes it of a machine that stands after the history, of
//! `ShadeDpcs` of nt_shade_dpcs, which followed the history's events beside it, and of `Unnoticed`
//! of nt_shade_asks, which [`unnoticed_of`] reads of the machine.
//!
//! Contracts say what `IsShadeOf` says: the data are what the machine's definitions have of the
//! history, with each number 0. Shades that are `==` say the same
//! ([`equal_shades_say_the_same`]), and histories whose shades say the same are alike
//! ([`same_shades_are_alike`]).
#![tactic(auto)]

mod asks;
mod cpus;
mod frames;
mod laws;
mod shade;
mod threads;

pub use asks::unnoticed_of;
pub use cpus::{ShadeCpu, cpus_of};
pub use frames::ShadeFrame;
pub use laws::{equal_shades_say_the_same, same_shades_are_alike};
pub use shade::{Shade, shade_of};
pub use threads::{ShadePick, ShadeThread, threads_of};
