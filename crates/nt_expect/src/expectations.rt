//! What may be expected of the runs of a script.

use nt_event::{ApcNo, Command, CpuNo, DpcNo, Level, LockNo, ThreadNo, TimerNo};

/// As many expectations as a text may have.
pub const MOST: usize = 64;

/// What is begun and then stands on a processor.
#[derive(Clone, Copy, PartialEq, Eq, Debug)]
pub enum Activity {
    /// The routine of an interrupt of this level, on whichever processor.
    Int(Level),
    /// A DPC object, threaded or not.
    Dpc(DpcNo),
    /// An APC object of any kind.
    Apc(ApcNo),
    /// A thread.
    Thread(ThreadNo),
}

/// A reply as an expectation names it.
#[derive(Clone, Copy, PartialEq, Eq, Debug)]
pub enum NamedReply {
    /// The answer of a command that tells.
    Yes,
    /// The other answer.
    No,
    /// The command is done.
    Done,
    /// The thread waits and no longer runs.
    Blocked,
    /// The NTSTATUS of a wait that did not block.
    Status(u32),
    /// The command is refused, whatever the cause.
    Refused,
    /// Another routine holds the lock.
    Spin,
}

/// Events that an expectation watches for.
#[derive(Clone, Copy, PartialEq, Eq, Debug)]
pub enum Watched {
    /// The note of this number.
    Note(u32),
    /// A command that is refused, whatever the command and the cause.
    Refused,
    /// The begin of a routine; of a thread, its first switch.
    Begin(Activity),
    /// The expiry of a timer.
    Expire(TimerNo),
    /// The end of a thread.
    Gone(ThreadNo),
    /// A call of a command with a reply.
    Call(Command, NamedReply),
}

/// What is expected of the runs of a script.
#[derive(Clone, Copy, PartialEq, Eq, Debug)]
pub enum Expectation {
    /// No such event.
    Never(Watched),
    /// No event of the first kind behind one of the second.
    NeverAfter(Watched, Watched),
    /// No event of the first kind with none of the second before it.
    NeverBefore(Watched, Watched),
    /// No two such events.
    NeverTwice(Watched),
    /// No such event after which its processor is above this level.
    NeverAbove(Watched, Level),
    /// No such event on this processor.
    NeverOn(Watched, CpuNo),
    /// Never both on two processors at one time.
    NeverWith(Activity, Activity),
    /// The DPC object is in no queue when all is quiet.
    NeverWaitsDpc(DpcNo),
    /// The APC object is not pending when all is quiet.
    NeverWaitsApc(ApcNo),
    /// The thread is not blocked when all is quiet.
    NeverBlocked(ThreadNo),
    /// No processor spins on the lock when all is quiet.
    NeverSpins(LockNo),
    /// Such an event came before all is quiet.
    Always(Watched),
    /// Every run ends.
    AlwaysEnds,
}
