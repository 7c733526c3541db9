//! What the processors of a script have been asked for and have not noticed yet.
//!
//! An event may ask a processor for a class: to run DPCs, to deliver an APC, to take an interrupt.
//! The processor notices it later, by a look or where a lane tells it. [`Unnoticed`] keeps of a
//! history, for each class of each processor, what was asked and not noticed, and, where there is
//! any, what each lane would tell. It keeps numbers of events, but what it tells are counts:
//! histories with the same counts are alike in what was asked.
#![tactic(auto)]

ghost use Rattle.nt_shade_asks.specs.Counts.{CountsAreOfTheHistory, CountsFit};
ghost use Rattle.nt_shade_asks.specs.Counts.{SameCountsAreAlike};

mod class_asks;
mod unnoticed;

pub use class_asks::ClassAsks;
pub use unnoticed::Unnoticed;

/// The counts are those of the history: of each class of each processor which asks were not
/// noticed, and would not be were the processor told by a lane.
pub fn counts_are_of_the_history()
    ensures { CountsAreOfTheHistory }
{}

/// In a history of fewer than 2^32 events each count has room in four bytes.
pub fn counts_fit()
    ensures { CountsFit }
{}

/// Where the counts are the same, the histories are alike in what was asked.
pub fn same_counts_are_alike()
    ensures { SameCountsAreAlike }
{}
