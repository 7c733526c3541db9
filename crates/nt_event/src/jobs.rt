//! What a processor has to do next, and where it stands when it does it.
use crate::{Again, Body, Command, CpuNo, DpcNo, LockNo, Regions, ThreadNo, What};
use nt_level::Level;

/// A state that several processors share. An event touches at most three of them.
#[derive(Clone, Copy, PartialEq, Eq, Debug)]
pub enum Lane {
    /// A DPC object.
    Object(DpcNo),
    /// The DPC queue of a processor.
    Queue(CpuNo),
    /// The threads of a processor.
    Threads(CpuNo),
    /// The time, the timers and the delays.
    Timers,
    /// A spin lock.
    Lock(LockNo),
}

/// A task for which a processor needs lanes.
#[derive(Clone, Copy, PartialEq, Eq, Debug)]
pub enum Job {
    /// Calls this command, which is not refused.
    Call(Command),
    /// Inserts the DPC object of the timer that expired.
    Fire(DpcNo),
    /// Frees the lock that the innermost frame acquired last.
    Free(LockNo),
    /// Expires the first due key, where a sweep is owed; else begins the first ordinary DPC; else
    /// has served class 2.
    Drain,
    /// Begins the first kernel APC where it is deliverable; else has served class 1.
    Apcs,
    /// Begins the first threaded DPC; else has served class 0.
    Threaded,
    /// Begins the first ordinary DPC, or rests where no thread is ready.
    Idle,
    /// Takes up the next ready thread after this one in a cycle; where none is ready, as Idle.
    Pick(Option<ThreadNo>),
    /// Takes up this thread.
    Switch(ThreadNo),
    /// Takes up an interrupted wait again.
    Rewait,
    /// Begins the first user APC where one is due; else goes to user mode.
    ToUser,
    /// Ends a user APC, with the test of an alert for user mode.
    UserEnd,
    /// Ends the base routine of a thread.
    Leave,
    /// Flushes the first user APC of a leaving thread; where there is none, the thread is gone.
    Rundown,
}

/// What a processor has to do next.
#[derive(Clone, Copy, PartialEq, Eq, Debug)]
pub enum Task {
    /// This event, which touches no lane.
    Alone(What),
    /// A job that needs lanes.
    Shared(Job),
}

/// Where a processor stands: what an event that touches lanes needs of what the processor alone
/// knows.
#[derive(Clone, Copy, PartialEq, Eq, Debug)]
pub struct Stand {
    pub cpu: CpuNo,
    /// The thread that runs on it.
    pub thread: Option<ThreadNo>,
    /// The number of the event that began the innermost frame; 0 where there is none.
    pub frame: u64,
    /// What runs in the innermost frame.
    pub body: Option<Body>,
    /// The processor's level.
    pub level: Level,
    /// What holds back the kernel APCs of the running thread.
    pub regions: Regions,
    /// The same once the innermost frame has ended.
    pub below: Regions,
    /// The level once the innermost frame has ended.
    pub ended_level: Level,
    /// The level after an unlock or a free of the innermost frame: the one kept with the lock that
    /// it acquired last. The level where it holds none.
    pub after: Level,
    /// The wait that the innermost frame has to take up again.
    pub again: Option<Again>,
    /// Whether the processor owes a sweep of the timers.
    pub sweep: bool,
}
