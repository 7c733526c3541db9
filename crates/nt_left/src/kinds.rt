//! What may be left.
use nt_event::{ApcNo, CpuNo, DpcNo, Level, LockNo, Region, Setting, ThreadNo, TimerNo, Waiting};

/// What a processor is that does nothing more and still has something to do.
#[derive(Clone, Copy, PartialEq, Eq, Debug)]
pub enum CpuCause {
    /// It made as many events as it may.
    Cut,
    /// It spins on a lock that another processor holds.
    Spins,
}

/// What holds back a pending insert of an APC object. Where several hold it back, it is the first
/// of these.
#[derive(Clone, Copy, PartialEq, Eq, Debug)]
pub enum ApcCause {
    /// The thread is gone.
    Gone,
    /// The thread is ready or runs, and its processor does nothing more.
    Stopped(CpuCause),
    /// It is a user APC, and the thread is blocked in a wait that takes none: not in user mode, or
    /// not alertable.
    Wait,
    /// The thread is blocked above PASSIVE_LEVEL.
    Level,
    /// The thread is blocked in a guarded region.
    Guarded,
    /// It is a normal kernel APC, and the thread is blocked in a critical region.
    Critical,
    /// It is a normal kernel APC, and the thread is blocked in another one.
    InProgress,
}

/// One thing that is left. A `frame` is the number of the event that began a routine which has not
/// ended; its `owner` is the thread on whose part it stands, None where that is the processor's
/// own.
#[derive(Clone, Copy, PartialEq, Eq, Debug)]
pub enum Left {
    /// The processor is cut: it made as many events as it may.
    Cut {
        cpu: CpuNo,
        /// The thread that runs on it.
        thread: Option<ThreadNo>,
        /// Its level.
        level: Level,
        /// Its innermost frame.
        frame: Option<u64>,
    },
    /// The processor isn't cut, and spins still on a lock.
    Spins {
        cpu: CpuNo,
        lock: LockNo,
    },
    /// The thread is blocked.
    Blocked {
        thread: ThreadNo,
        wait: Waiting,
        /// When its delay is due; None of a wait.
        due: Option<u64>,
    },
    /// The thread may be taken up and doesn't run.
    Ready {
        thread: ThreadNo,
        /// Whether it was ever taken up.
        begun: bool,
    },
    /// The timer is set.
    Timer {
        timer: TimerNo,
        setting: Setting,
    },
    /// The frame stands above the level with which its present routine began.
    Raised {
        cpu: CpuNo,
        owner: Option<ThreadNo>,
        frame: u64,
        level: Level,
        base: Level,
    },
    /// The frame's present routine has entered a region so many times more than it left it.
    Inside {
        cpu: CpuNo,
        owner: Option<ThreadNo>,
        frame: u64,
        region: Region,
        count: u32,
    },
    /// The frame holds the lock.
    Holds {
        cpu: CpuNo,
        owner: Option<ThreadNo>,
        frame: u64,
        lock: LockNo,
    },
    /// The insert of the DPC object by the event of this number is pending in the queue.
    Dpc {
        dpc: DpcNo,
        number: u64,
        queue: CpuNo,
        /// What the queue's processor is.
        cause: CpuCause,
    },
    /// The insert of the APC object by the event of this number is pending at its thread.
    Apc {
        apc: ApcNo,
        number: u64,
        thread: ThreadNo,
        cause: ApcCause,
    },
}
