//! Where events are written.
use nt_event::{CpuNo, Event, Level, What};

/// What stands where an event is to be written: no event of any processor is meant by it.
pub fn no_event() -> Event {
    Event {
        cpu: CpuNo(0),
        thread: None,
        level: Level::PASSIVE,
        what: What::Rest,
    }
}
