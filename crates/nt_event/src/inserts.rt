//! Pending inserts of DPC and APC objects, and settings of timers. Each is named by the number of
//! its event.
use crate::{ApcKind, ApcNo, CpuNo, DpcNo};

/// The two parts of a processor's DPC queue.
#[derive(Clone, Copy, PartialEq, Eq, Hash, Debug)]
pub enum Part {
    /// DPCs that run at DISPATCH_LEVEL.
    Ordinary,
    /// Threaded DPCs, which run at PASSIVE_LEVEL.
    Threaded,
}

/// A pending insert of a DPC object in a queue.
#[derive(Clone, Copy, PartialEq, Eq, Debug)]
pub struct Insert {
    pub dpc: DpcNo,
    /// The number of the inserting event.
    pub number: u64,
    pub part: Part,
    /// Whether the object's importance was High at the insert.
    pub high: bool,
}

/// Where the pending insert of a DPC object stands.
#[derive(Clone, Copy, PartialEq, Eq, Debug)]
pub struct Standing {
    /// The processor whose queue it is in.
    pub queue: CpuNo,
    /// The number of the inserting event.
    pub number: u64,
}

/// A pending insert of an APC object.
#[derive(Clone, Copy, PartialEq, Eq, Debug)]
pub struct Pick {
    pub apc: ApcNo,
    pub kind: ApcKind,
    /// The number of the inserting event.
    pub number: u64,
}

/// When a timer or a delay that is set is due.
#[derive(Clone, Copy, PartialEq, Eq, Debug)]
pub struct Setting {
    /// The time at which it is due.
    pub due: u64,
    /// The number of the event that set it.
    pub number: u64,
    /// The period with which a timer is set anew when it expires; 0 is none.
    pub period: u32,
}
