//! The things of a script that are asked about.
use crate::fates::Object;
use nt_event::{CpuNo, Level, ThreadNo, TimerNo};

/// A thing that may not have run yet.
#[derive(Clone, Copy, PartialEq, Eq, Debug)]
pub enum Thing {
    /// A DPC or APC object.
    Object(Object),
    /// The interrupt of this level on this processor.
    Interrupt(CpuNo, Level),
    /// A thread.
    Thread(ThreadNo),
    /// A timer.
    Timer(TimerNo),
}
