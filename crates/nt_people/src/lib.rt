//! Errors for people: what is wrong with a line of a friendly text, where, and what to do.
//!
//! The strict readers refuse a line of a strict text by its number and a kind. [`refusal_message`]
//! makes a message of that: the place in the friendly text, the line itself with a mark below the
//! field that is wrong, the kind in words, its usual cause, and a name that may be meant. Which
//! field is marked is decided by the kind and the form of the line (`locating`): where it cannot be
//! told it is the first. Contracts see that a message begins with the place, that the line and the
//! mark stand in it, and that a name that it proposes is declared in the text (`specs::Messages`).
//! All else is wording, and tested.
#![tactic(auto)]

mod advice;
mod fault;
mod locating;
mod message;
mod near;
mod places;
mod quoting;
mod sorts;
mod titles;
mod walking;

pub use fault::Fault;
pub use message::refusal_message;
pub use quoting::shown_text;
