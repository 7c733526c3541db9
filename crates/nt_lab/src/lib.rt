//! What `ntlab` replies to `ask` and `witness`: a status, and the text that is written for it.
//!
//! [`reply_to`] searches the states that some schedule comes to, and says of each expectation
//! whether it holds under any schedule, where it fails, or that nothing is known; or it gives for
//! one of them a schedule that shows that it fails. What is said of an expectation is defined in
//! nt_findings, what a witness is in `specs::Witnesses`, and what is replied in `specs::Outcome`.
#![tactic(auto)]

mod asking;
mod looks;
mod reply;
mod witnessing;

pub use asking::reply_to;
pub use reply::{Reply, Text, line, no_memory};
