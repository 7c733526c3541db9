//! Why a list of turns is refused.
use nt_event::ScheduleKind;

/// Why a list of turns has no history.
#[derive(Clone, Copy, PartialEq, Eq, Debug)]
pub enum ScheduleRefusal {
    /// The turn at this place, from 0, is refused; or all turns were taken, and some processor has
    /// more to do.
    Bad { at: u32, kind: ScheduleKind },
    /// No memory was found.
    NoMemory,
}
