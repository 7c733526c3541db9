//! What searches find of expectations: whether they hold under any schedule, and turns that show
//! one that fails.
//!
//! [`ask`] says of each expectation whether it holds. It hunts first: only runs with at most 0,
//! then 1, then 2 preemptions are tried (`hunt` of nt_search), which shows most failures soon, by
//! turns that are easy to follow. Then it searches all states (`search`) for those of which none
//! was found. [`seek`] does the same for one of them, and answers turns that show that it fails.
#![tactic(auto)]

mod answering;
mod asking;
mod question;
mod seeking;
mod spoken;
mod unknown;

pub use asking::ask;
pub use seeking::{Sought, seek};
