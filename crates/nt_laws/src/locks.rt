//! Spin locks in a run: who holds one, and who spins on one.

ghost use Rattle.nt_laws.specs.Locks.{AtMostOneFrameHolds, LanesTellLocks, SpinsOnNoLockOfItsOwn};
ghost use Rattle.nt_laws.specs.Locks.{SpinsOnOneLock, StoppedThreadsHoldNone};

/// A lock is held by at most one frame: in every run, two open frames that hold a lock of the
/// script are one.
pub fn a_lock_is_held_by_at_most_one_frame()
    ensures { AtMostOneFrameHolds }
{}

/// A thread that doesn't run holds no lock: in every run, a frame of a thread that doesn't run
/// holds no lock, and spins on none.
pub fn a_thread_that_does_not_run_holds_no_lock()
    ensures { StoppedThreadsHoldNone }
{}

/// A processor spins on at most one lock: in every run, the locks on which its frames and those of
/// the thread that runs there spin are one, and none of these frames holds it.
pub fn a_processor_spins_on_at_most_one_lock()
    ensures one { SpinsOnOneLock }
    ensures other { SpinsOnNoLockOfItsOwn }
{}

/// The lane of a lock tells who holds it: in every run, it names as the holder of a lock of the
/// script the processor with a frame that holds it, on its own part or on that of the thread that
/// runs there, and none where there is none; and as spinning those with a frame that spins on it.
pub fn a_lane_tells_who_holds_and_spins()
    ensures { LanesTellLocks }
{}
