//! What a thread is doing.
use crate::{Mode, Regions};
use nt_level::Level;

/// The wait or delay in which a thread is blocked.
#[derive(Clone, Copy, PartialEq, Eq, Hash, Debug)]
pub struct Waiting {
    /// The number of the event that blocked.
    pub event: u64,
    pub mode: Mode,
    pub alertable: bool,
    /// Whether it is a delay.
    pub delay: bool,
    /// The level at which the thread blocked.
    pub level: Level,
    /// The regions in which it blocked.
    pub regions: Regions,
}

/// What a thread is doing.
#[derive(Clone, Copy, PartialEq, Eq, Hash, Debug)]
pub enum Doing {
    /// It may be taken up.
    Ready {
        /// The level at which it last blocked or gave way; 0 before its first run.
        level: Level,
        /// The status of the wait that ended, which its next Switch carries; None at the first run
        /// and after a yield.
        status: Option<u32>,
    },
    /// It runs on its processor.
    Running,
    /// It waits.
    Blocked(Waiting),
    /// It has ended and takes part in nothing.
    Gone,
}
