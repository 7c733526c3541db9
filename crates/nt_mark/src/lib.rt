//! The words that processors on threads share, without a lock: the step word, the request words,
//! and a count for each lane.
//!
//! [`Marks`] owns the words. The step word counts the events: [`Marks::draw`] takes the next
//! number. Each processor has a request word for each of 16 classes: [`Marks::mark`] asks there,
//! [`Marks::look`] notices. A request is one more than the number of the event that asks, and a
//! word only rises: a look finds at least each request that its pass knows of.
//!
//! A thread steps with a [`Pass`]. A lane, behind its lock, has a [`Keeper`], which notes the
//! lane's events with the states after them, and by which passes tell each other what they know
//! ([`Marks::share`]). Contracts see what a pass or a keeper has and knows as a [`View`]: lists
//! that only grow. The program asks for none of them, and but for [`Marks::new`] no call takes
//! memory. No call waits.
//!
//! At the end [`Marks::close`] takes all passes and keepers, and its contract says what they show
//! together: each number below the count was drawn once, each looked value was asked, and the
//! numbers on each lane's list rise, each of an event that touches the lane.
#![tactic(auto)]

mod marks;
mod seats;
mod steps;
mod traits;
mod view;

pub use marks::{Drawn, Made, Marks};
pub use seats::{Keeper, Pass};
pub use traits::{Shared, Shows};
pub use view::{Entry, LaneList, Look, Mark, Note, Reached, Shown, View};
