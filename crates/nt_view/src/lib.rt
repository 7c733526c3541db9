//! The report of a history for people: a line for each event, in columns and in plain words.
//!
//! [`view`] shows what the strict report (`nt_print`) says by numbers: levels, routines and objects
//! stand by their names, and looks have a line too. Behind the events come the processors that are
//! cut, those that still spin, and the inserts that still wait. The wording is this project's own
//! (profile), and nothing reads it back.
#![tactic(auto)]

mod columns;
mod commands;
mod endings;
mod events;
mod frames;
mod names;
mod replies;
mod viewing;
mod words;

pub use viewing::view;
