//! The load: a script that is made from a seed, for long runs that anyone can make again.
//!
//! A generator keeps one number, at first the seed; each draw moves it and gives a value. The
//! declarations are the same for each seed: 4 processors with an interrupt routine, 32 DPC objects
//! of which 8 are threaded, 8 timers, 32 threads, 32 APC objects of each kind. Each thread has a
//! routine of 128 commands, and the commands are drawn: first a row of a table of sixteen, then its
//! fields. The whole load is this project's own (profile).
//!
//! `specs::Load` is the load as tables, `specs::Commands` says which command each number draws and
//! where the draws of each command begin, `specs::Draws` has the generator.
#![tactic(auto)]

mod commands;
mod declarations;
mod draws;
mod load;
mod names;
mod routines;

pub use load::{draw_script, load_script};
