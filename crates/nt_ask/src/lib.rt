//! What is asked of a search through all runs of a script, and the text of its answer.
//!
//! [`form_of`] tells which form the words of the command line are: `ask`, or `witness` with the
//! number of an expectation, each with the greatest number of states. [`read_asked`] answers the
//! script of an input and the expectations behind it, or the least bad line and what is wrong with
//! it. [`print_answer`] gives the text of what a search says of each expectation, and
//! [`verdict_status`] says how the program ends. The definitions are in `specs::Words`,
//! `specs::Reading` and `specs::Answers`. All texts and statuses are this project's own (profile).
#![tactic(auto)]

mod answer;
mod reading;
mod words;

pub use answer::{Answer, Cut, Status, Verdict, print_answer, verdict_status};
pub use reading::{AskRefusal, Asked, read_asked};
pub use words::{Form, LEAST_STATES, MOST_NUMBER, MOST_STATES, USUAL_STATES, form_of};
