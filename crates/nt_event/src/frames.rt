//! What runs in a frame, a routine that has begun on a processor or on one of its threads and has
//! not ended.
use crate::{ApcKind, ApcNo, DpcNo, LockNo, Mode, ThreadNo};
use nt_level::Level;

/// What runs in a frame. Interrupts, DPCs and threaded DPCs run on the processor's own part, the
/// others on a thread's.
#[derive(Clone, Copy, PartialEq, Eq, Hash, Debug)]
pub enum Body {
    /// The routine of the interrupt of this level.
    Int(Level),
    /// The routine of a DPC object at DISPATCH_LEVEL.
    Dpc(DpcNo),
    /// The routine of a threaded DPC at PASSIVE_LEVEL.
    Threaded(DpcNo),
    /// The routines of an APC object: first its kernel routine, then its normal routine, if it has
    /// one.
    Apc(ApcNo, ApcKind),
    /// The base routine of a thread.
    Base(ThreadNo),
    /// The rundown routine of a user APC whose thread ended first.
    Rundown(ApcNo),
}

/// A kind of region that a thread enters and leaves.
///
/// Windows Internals, "Asynchronous procedure calls"; driver documentation, "Disabling APCs".
#[derive(Clone, Copy, PartialEq, Eq, Debug)]
pub enum Region {
    /// A critical region: holds back normal kernel APCs.
    Crit,
    /// A guarded region: holds back all kernel APCs.
    Guard,
}

/// A wait that is to be taken up again once the kernel APC that interrupted it has run.
#[derive(Clone, Copy, PartialEq, Eq, Hash, Debug)]
pub struct Again {
    pub mode: Mode,
    pub alertable: bool,
    /// The due time of a delay; None for a wait.
    pub due: Option<u64>,
}

/// A lock that a routine holds or spins on.
#[derive(Clone, Copy, PartialEq, Eq, Hash, Debug)]
pub struct Held {
    pub lock: LockNo,
    /// The level of just before the first try.
    pub kept: Level,
}
