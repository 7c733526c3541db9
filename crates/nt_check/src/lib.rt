//! The checker of one history: whether it is a settled run of its script, and if not, the first
//! event that is not the machine's.
//!
//! [`check`] takes the turn of each event over processors and a floor of its own, and compares the
//! event that comes with the one given. So it takes one turn an event, and never walks back.
#![tactic(auto)]

mod checking;
mod laws;

pub use checking::{Verdict, check};
pub use laws::one_verdict;
