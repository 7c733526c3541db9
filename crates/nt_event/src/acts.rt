//! What one act makes, and why it makes none.
use crate::{Event, Rises};

/// All that one act made.
#[derive(Clone, Copy, PartialEq, Eq, Debug)]
pub struct Acted {
    /// The event's number.
    pub number: u64,
    pub event: Event,
    /// The due time of the delay that the event calls, below 2^51.
    pub due: Option<u64>,
    /// Per class, the greatest request for this processor that the touched lanes tell, the event's
    /// own among them; 0 is none.
    pub told: Rises,
}

/// What an act answers beside what it writes in its places.
#[derive(Clone, Copy, PartialEq, Eq, Debug)]
pub struct Made {
    /// The event's number.
    pub number: u64,
    /// The due time of the delay that the event calls, below 2^51.
    pub due: Option<u64>,
    /// Whether what was seen of interrupts may have risen.
    pub interrupts: bool,
}

/// Why no event was made.
#[derive(Clone, Copy, PartialEq, Eq, Debug)]
pub enum ActRefusal {
    /// Idle, with no ordinary DPC queued and a thread ready.
    NothingToDo,
    /// A switch to a thread that is not this processor's, or not ready.
    BadChoice,
    /// No memory was found.
    NoMemory,
}
