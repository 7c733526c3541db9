//! Events, turns and histories.
ghost use Rattle.std.specs.Prelude.{◌≡◌};
ghost use Rattle.nt_event.specs.Numbered.{schedule_number, schedule_name};
ghost use Rattle.nt_event.specs.Step.{cpu_at, turn_of};

use crate::{ApcNo, Command, CpuNo, DpcNo, Items, LockNo, Reply, ThreadNo, TimerKey};
use nt_level::Level;

/// What a look at a processor's request words found, by class: the value, or 0 where it did not
/// rise. A value is one more than the number of the event that asked.
#[derive(Clone, Copy, PartialEq, Eq, Debug)]
pub struct Rises {
    pub value: [u64; 16],
}

/// What a Begin begins.
#[derive(Clone, Copy, PartialEq, Eq, Debug)]
pub enum Begun {
    /// The interrupt of this level.
    Int(Level),
    /// A DPC at DISPATCH_LEVEL.
    Dpc(DpcNo),
    /// A threaded DPC at PASSIVE_LEVEL.
    Threaded(DpcNo),
    /// The kernel routine of an APC.
    Apc(ApcNo),
}

/// What an event does. A `frame` is the number of the event that began the routine; a `from` is the
/// number of the insert, ask or setting that is used up.
#[derive(Clone, Copy, PartialEq, Eq, Debug)]
pub enum What {
    /// A routine calls a command.
    Call {
        frame: u64,
        command: Command,
        reply: Reply,
    },
    /// The processor notices requests.
    Look {
        rises: Rises,
    },
    /// A routine begins.
    Begin {
        begun: Begun,
        from: u64,
    },
    /// An APC goes on from its kernel routine to its normal routine.
    Normal {
        frame: u64,
    },
    /// A routine ends.
    End {
        frame: u64,
    },
    /// A timer or delay expires.
    Expire {
        key: TimerKey,
        from: u64,
    },
    /// An expired timer inserts its DPC object.
    Fire {
        dpc: DpcNo,
        reply: Reply,
    },
    /// The processor has served a class: 0 threaded DPCs, 1 kernel APCs, 2 dispatch.
    Clean {
        class: u8,
    },
    /// A thread is taken up, with the status of the wait that ended, if any.
    Switch {
        thread: ThreadNo,
        status: Option<u32>,
    },
    /// A wait that a kernel APC interrupted is taken up again.
    Rewait {
        frame: u64,
        reply: Reply,
    },
    /// A thread that ends gives up a user APC.
    Flush {
        apc: ApcNo,
        from: u64,
    },
    /// A thread is gone.
    Gone {
        thread: ThreadNo,
    },
    /// A routine that ends frees a lock that it holds.
    Free {
        frame: u64,
        lock: LockNo,
    },
    /// The processor has nothing to do.
    Rest,
}

/// One atomic step of a processor. Its number is its place in the history.
#[derive(Clone, Copy, PartialEq, Eq, Debug)]
pub struct Event {
    /// The processor that made it.
    pub cpu: CpuNo,
    /// The thread that ran on the processor before it; for a Switch the thread that is taken; none
    /// for a Look.
    pub thread: Option<ThreadNo>,
    /// The processor's level after it; 0 for a Look.
    pub level: Level,
    /// What it did.
    pub what: What,
}

impl Event {
    /// The turn that makes it.
    pub fn turn(&self) -> Turn
        ensures { result ≡ turn_of self.now }
    {
        match self.what {
            What::Look { rises } => Turn::Look(self.cpu, rises),
            What::Switch { thread, .. } => Turn::Switch(self.cpu, thread),
            What::Call { .. }
            | What::Begin { .. }
            | What::Normal { .. }
            | What::End { .. }
            | What::Expire { .. }
            | What::Fire { .. }
            | What::Clean { .. }
            | What::Rewait { .. }
            | What::Flush { .. }
            | What::Gone { .. }
            | What::Free { .. }
            | What::Rest => Turn::Next(self.cpu),
        }
    }
}

/// Whose step is next.
#[derive(Clone, Copy, PartialEq, Eq, Debug)]
pub enum Turn {
    /// The processor's next event.
    Next(CpuNo),
    /// The processor notices these requests.
    Look(CpuNo, Rises),
    /// The processor takes up this thread.
    Switch(CpuNo, ThreadNo),
}

impl Turn {
    /// Whose turn it is.
    pub fn cpu(&self) -> CpuNo
        ensures { result ≡ cpu_at self.now }
    {
        match self {
            Turn::Next(cpu) | Turn::Look(cpu, _) | Turn::Switch(cpu, _) => *cpu,
        }
    }
}

/// The events of a run so far and the turn limit: how many events each processor may make.
#[derive(Drop, Debug)]
pub struct History {
    pub turns: u32,
    pub events: Items<Event>,
}

/// Why a list of turns is refused.
#[derive(Clone, Copy, PartialEq, Eq, Debug)]
pub enum ScheduleKind {
    /// The turn's processor is not one of the script's.
    NoSuchCpu,
    /// The processor has no next event, or has made as many as it may.
    NothingToDo,
    /// A look in which no value rises, or one that no earlier event asked for.
    BadLook,
    /// A switch to a thread that cannot be taken, or where none can.
    BadChoice,
    /// All turns were taken and some processor has more to do.
    Unfinished,
}

impl ScheduleKind {
    /// Its number, 1 to 5.
    pub fn number(self) -> u8
        ensures { result ≡ schedule_number self }
    {
        match self {
            ScheduleKind::NoSuchCpu => 1,
            ScheduleKind::NothingToDo => 2,
            ScheduleKind::BadLook => 3,
            ScheduleKind::BadChoice => 4,
            ScheduleKind::Unfinished => 5,
        }
    }

    /// Its name.
    pub fn name(self) -> &'static str
        ensures { result.now ≡ schedule_name self }
    {
        match self {
            ScheduleKind::NoSuchCpu => "NoSuchCpu",
            ScheduleKind::NothingToDo => "NothingToDo",
            ScheduleKind::BadLook => "BadLook",
            ScheduleKind::BadChoice => "BadChoice",
            ScheduleKind::Unfinished => "Unfinished",
        }
    }
}
