//! Commands of a routine, and what a call of one replies.
ghost use Rattle.std.specs.Prelude.{◌≡◌};
ghost use Rattle.nt_event.specs.Numbered.{refusal_number, refusal_name};

use crate::{ApcNo, CpuNo, DpcNo, LockNo, ThreadNo, TimerNo};
use nt_level::Level;

/// Where an insert puts a DPC object in its queue, and whether it asks for a dispatch interrupt.
///
/// Driver documentation, "KeSetImportanceDpc".
#[derive(Clone, Copy, PartialEq, Eq, Hash, Debug)]
pub enum Importance {
    /// At the back; asks only where the queue is deep or its processor idle.
    Low,
    /// At the back; asks where the queue is the inserting processor's own, is deep, or its
    /// processor is idle. The first setting.
    Medium,
    /// At the back; always asks.
    MediumHigh,
    /// At the front; always asks.
    High,
}

/// The processor mode of a wait or an alert. Kernel is below user.
#[derive(Clone, Copy, PartialEq, Eq, PartialOrd, Ord, Hash, Debug)]
pub enum Mode {
    /// Kernel mode.
    Kernel,
    /// User mode.
    User,
}

/// The kind of an APC object.
///
/// Windows Internals, "Asynchronous procedure calls".
#[derive(Clone, Copy, PartialEq, Eq, Hash, Debug)]
pub enum ApcKind {
    /// A special kernel APC: a kernel routine at APC_LEVEL.
    Special,
    /// A normal kernel APC: a kernel routine at APC_LEVEL, then a normal routine at PASSIVE_LEVEL.
    Normal,
    /// A user APC: a kernel routine at APC_LEVEL, then a normal routine in user mode.
    User,
}

/// What a due time belongs to.
#[derive(Clone, Copy, PartialEq, Eq, Hash, Debug)]
pub enum TimerKey {
    /// A timer object.
    Timer(TimerNo),
    /// The delay of a thread.
    Delay(ThreadNo),
}

/// A command of a routine. Due times, periods and clock steps count units of time.
#[derive(Clone, Copy, PartialEq, Eq, Debug)]
pub enum Command {
    /// Raises the level (KeRaiseIrql).
    Raise(Level),
    /// Lowers the level (KeLowerIrql).
    Lower(Level),
    /// Inserts a DPC object (KeInsertQueueDpc).
    Queue(DpcNo),
    /// Removes a DPC object (KeRemoveQueueDpc).
    Unqueue(DpcNo),
    /// Sets the importance of a DPC object (KeSetImportanceDpc).
    SetImportance(DpcNo, Importance),
    /// Sets the target processor of a DPC object (KeSetTargetProcessorDpc); None is no target.
    SetTarget(DpcNo, Option<CpuNo>),
    /// Sets a timer: due time from now, period (KeSetTimerEx); period 0 is none.
    SetTimer(TimerNo, u32, u32),
    /// Cancels a timer (KeCancelTimer).
    CancelTimer(TimerNo),
    /// Inserts an APC object.
    InsertApc(ApcNo),
    /// Removes an APC object.
    RemoveApc(ApcNo),
    /// Enters a critical region (KeEnterCriticalRegion).
    EnterCrit,
    /// Enters a guarded region (KeEnterGuardedRegion).
    EnterGuard,
    /// Leaves a critical region (KeLeaveCriticalRegion).
    LeaveCrit,
    /// Leaves a guarded region (KeLeaveGuardedRegion).
    LeaveGuard,
    /// Waits in this mode; true is alertable (KeWaitForSingleObject).
    StartWait(Mode, bool),
    /// Waits in this mode for this time; true is alertable (KeDelayExecutionThread).
    Delay(Mode, bool, u32),
    /// Satisfies the wait of a thread, or marks the thread as released.
    Release(ThreadNo),
    /// Alerts a thread in a mode.
    Alert(ThreadNo, Mode),
    /// Tests and clears the running thread's alert in a mode (KeTestAlertThread).
    TestAlert(Mode),
    /// Requests an interrupt of a level on a processor.
    Interrupt(CpuNo, Level),
    /// Advances time by these units and requests the clock interrupt on the calling processor.
    Clock(u32),
    /// Goes to user mode, where user APCs are delivered.
    ToUser,
    /// Gives way to the other ready threads of the processor.
    Yield,
    /// Acquires a spin lock, or spins on it and is tried again (KeAcquireSpinLock).
    Acquire(LockNo),
    /// Releases a spin lock (KeReleaseSpinLock).
    Unlock(LockNo),
    /// Does nothing but stand in the report with this number.
    Note(u32),
}

/// Why a command is refused, in the order of the tests. A refused command changes nothing but the
/// place in its routine.
#[derive(Clone, Copy, PartialEq, Eq, Debug)]
pub enum Refusal {
    /// The innermost routine runs in no thread.
    NotThread,
    /// The innermost routine is not the thread's base routine.
    NotBase,
    /// The level is above the highest one at which the command may be called.
    TooHigh,
    /// The thread is in a critical or guarded region.
    RegionsOpen,
    /// A raise to a level below the present one.
    NotGreater,
    /// A lower to a level above the present one.
    NotLess,
    /// A lower below the level at which the routine was begun.
    BelowBase,
    /// The routine leaves a region that it did not enter.
    NotEntered,
    /// A lower below DISPATCH_LEVEL while the routine holds a lock.
    LockHeld,
    /// The routine holds the lock already.
    HeldHere,
    /// The lock is not the one that the routine acquired last.
    NotLast,
}

impl Refusal {
    /// Its number in the report, 1 to 11.
    pub fn number(self) -> u8
        ensures { result ≡ refusal_number self }
    {
        match self {
            Refusal::NotThread => 1,
            Refusal::NotBase => 2,
            Refusal::TooHigh => 3,
            Refusal::RegionsOpen => 4,
            Refusal::NotGreater => 5,
            Refusal::NotLess => 6,
            Refusal::BelowBase => 7,
            Refusal::NotEntered => 8,
            Refusal::LockHeld => 9,
            Refusal::HeldHere => 10,
            Refusal::NotLast => 11,
        }
    }

    /// Its name in the report.
    pub fn name(self) -> &'static str
        ensures { result.now ≡ refusal_name self }
    {
        match self {
            Refusal::NotThread => "NotThread",
            Refusal::NotBase => "NotBase",
            Refusal::TooHigh => "TooHigh",
            Refusal::RegionsOpen => "RegionsOpen",
            Refusal::NotGreater => "NotGreater",
            Refusal::NotLess => "NotLess",
            Refusal::BelowBase => "BelowBase",
            Refusal::NotEntered => "NotEntered",
            Refusal::LockHeld => "LockHeld",
            Refusal::HeldHere => "HeldHere",
            Refusal::NotLast => "NotLast",
        }
    }
}

/// What a call of a command replies.
#[derive(Clone, Copy, PartialEq, Eq, Debug)]
pub enum Reply {
    /// The command is done.
    Done,
    /// The answer of a command that tells, as of an insert.
    Yes,
    /// The other answer.
    No,
    /// The NTSTATUS of a wait that did not block: 0, 0xC0, 0x100 or 0x101.
    Status(u32),
    /// The thread waits and no longer runs.
    Blocked,
    /// Another routine holds the lock; the command is tried again.
    Spin,
    /// The command is refused and changed nothing.
    Refused(Refusal),
}

/// What holds back the kernel APCs of a thread.
#[derive(Clone, Copy, PartialEq, Eq, Hash, Debug)]
pub struct Regions {
    /// How often a critical region is entered and not left.
    pub crit: u32,
    /// How often a guarded region is entered and not left.
    pub guard: u32,
    /// Whether a normal kernel APC is in progress.
    pub busy: bool,
}
