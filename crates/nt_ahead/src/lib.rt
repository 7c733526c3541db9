//! The turns to try after a history, for whoever goes through all schedules of a script.
//!
//! A turn is Next of a processor, Switch of a processor to a thread, or Look of a processor. A look
//! finds, for each of the 16 classes, nothing or one of the values by which the processor was asked
//! and which are above what it has seen. [`turns_ahead`] answers a list in which each turn that may
//! be taken stands. It may have others too, which the machine refuses.
//!
//! In the definitions a look may have fewer than 16 values. Such a look stands in the list with 0
//! for the other classes, and leaves a like history ([`whole_lists_tell_all`]).
#![tactic(auto)]

ghost use Rattle.nt_ahead.specs.Like.{WholeListsTellAll};

mod choices;
mod turns;

pub use turns::turns_ahead;

/// Where a list has each turn that may be taken after a history, each event that may come after it
/// has its turn there. The turn gives this event, or one that is the same but for the values of a
/// look, and leaves a history that is alike.
pub fn whole_lists_tell_all()
    ensures { WholeListsTellAll }
{}
