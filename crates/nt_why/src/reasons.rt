//! What is told of a thing: one variant for each sentence.
ghost use Rattle.std.specs.Prelude.{◌≡◌, ◌++◌, ◌∷◌, [], OnOk};
ghost use Rattle.nt_why.specs.Says.{holds_back};

use crate::fates::{Fate, Object};
use nt_event::{
    ApcKind, Body, CpuNo, Importance, Level, Mode, Regions, ScheduleKind, Setting, ThreadNo,
    TimerKey, TimerNo, What,
};
use std::alloc::AllocError;

/// The innermost frame of a processor: what runs in it, and the number of the event that began it.
#[derive(Clone, Copy, PartialEq, Eq, Debug)]
pub struct Top {
    pub body: Body,
    pub number: u64,
}

/// How a processor stands.
#[derive(Clone, Copy, PartialEq, Eq, Debug)]
pub struct Stood {
    pub cpu: CpuNo,
    pub level: Level,
    /// Its innermost frame, if there is one.
    pub top: Option<Top>,
    /// The number of the event by which this became its innermost frame and level; None where it
    /// was so from the start.
    pub since: Option<u64>,
}

/// A request of a class of a processor.
#[derive(Clone, Copy, PartialEq, Eq, Debug)]
pub struct Request {
    pub cpu: CpuNo,
    pub class: u8,
}

/// What kind of insert it is.
#[derive(Clone, Copy, PartialEq, Eq, Debug)]
pub enum Sort {
    /// Of a DPC object, with its importance at the insert.
    Dpc(Importance),
    /// Of an APC object of this thread and kind.
    Apc(ThreadNo, ApcKind),
}

/// A pending insert.
#[derive(Clone, Copy, PartialEq, Eq, Debug)]
pub struct Pending {
    /// The processor in whose queue it stands, or to which its thread is bound.
    pub cpu: CpuNo,
    /// The number of the event that inserted it.
    pub at: u64,
    /// The processor that inserted it.
    pub by: CpuNo,
    pub sort: Sort,
}

/// What a thread does.
#[derive(Clone, Copy, PartialEq, Eq, Debug)]
pub enum Does {
    /// It may be taken up.
    IsReady,
    /// It runs on its processor.
    IsRunning,
    /// It waits since the event of this number.
    IsBlocked {
        at: u64,
        /// Whether it is a delay.
        delay: bool,
        mode: Mode,
        alertable: bool,
        /// The level at which it blocked.
        level: Level,
    },
    /// It has ended and takes part in nothing.
    IsGone,
}

/// A thread that doesn't run on its processor.
#[derive(Clone, Copy, PartialEq, Eq, Debug)]
pub struct Away {
    pub cpu: CpuNo,
    pub thread: ThreadNo,
    pub does: Does,
    /// The number of the event that made it ready, blocked or gone; None where it was so from the
    /// start.
    pub since: Option<u64>,
    /// The thread that runs there.
    pub runs: Option<ThreadNo>,
}

/// What is told of a thing after the first events of a history, one sentence each. The sentences
/// that say what holds it back are those of [`Reason::holds_back`].
#[derive(Clone, Copy, PartialEq, Eq, Debug)]
pub enum Reason {
    /// No event inserted it.
    NeverInserted,
    /// Its last insert is the one of this number, which is used up.
    Ended {
        insert: u64,
        fate: Fate,
    },
    /// Its last insert is this one, and waits.
    Waits(Pending),
    /// It is the first: of its part of the processor's queue, or of its thread's kernel or user
    /// APCs.
    First {
        cpu: CpuNo,
    },
    /// Another object is the first there, by its insert of this number.
    Behind {
        cpu: CpuNo,
        first: Object,
        at: u64,
    },
    /// The APC object's thread runs on its processor.
    Runs(ThreadNo),
    /// The APC object's thread doesn't run on its processor.
    NotRunning(Away),
    /// The APC object's thread is in regions, or a normal APC of it is in progress, that don't let
    /// an APC of its kind through.
    InRegions {
        thread: ThreadNo,
        regions: Regions,
    },
    /// The processor stands so, and the level lets it through.
    Stands(Stood),
    /// The processor stands so, and the level does not let it through.
    TooHigh(Stood),
    /// Its class was asked for last by the event of this number, and the processor has noticed and
    /// not served it; `since` is the number of the event that noticed the last request.
    Noticed {
        request: Request,
        at: u64,
        since: Option<u64>,
    },
    /// Its class was asked for last by the event of this number, and the processor has not noticed
    /// it.
    Unnoticed {
        request: Request,
        at: u64,
    },
    /// Its class is not asked for: the processor has served all that it was asked for.
    NotAsked(Request),
    /// Its insert of this number asked for nothing of its class.
    AskedNothing {
        request: Request,
        at: u64,
    },
    /// The processor is cut: it made as many events as it may.
    Cut(CpuNo),
    /// The processor's next event does this, and does not deliver it.
    Next {
        cpu: CpuNo,
        what: What,
    },
    /// The processor has no next event, for this cause.
    NoNext {
        cpu: CpuNo,
        kind: ScheduleKind,
    },
    /// What became of its last insert in the whole history, or which event begins it next.
    Then(Fate),
    /// The thread is ready since then, and no other thread runs there.
    Ready(Away),
    /// The round-robin rule takes up this ready thread before it.
    TakenFirst {
        cpu: CpuNo,
        first: ThreadNo,
    },
    /// The processor stands so, with a frame on its own part.
    OnOwn(Stood),
    /// The processor has to do something else before it takes up a thread.
    MustFirst(CpuNo),
    /// The turn that takes up the thread is refused, for this cause.
    NotTaken {
        cpu: CpuNo,
        kind: ScheduleKind,
    },
    /// The timer isn't set; `expired` is the number of the last event that expired it.
    NotSet {
        timer: TimerNo,
        expired: Option<u64>,
    },
    /// The timer is set, by this event and to this time.
    IsSet {
        timer: TimerNo,
        setting: Setting,
    },
    /// The time has come to that at which the timer is due.
    IsDue {
        due: u64,
        time: u64,
    },
    /// The time is before that at which the timer is due.
    NotDue {
        due: u64,
        time: u64,
    },
    /// Another timer or delay, set by this event, expires before it.
    ExpiresFirst {
        key: TimerKey,
        at: u64,
    },
    /// The processor owes a sweep of the timers.
    OwesSweep(CpuNo),
    /// No processor owes a sweep of the timers: none has begun a clock interrupt since its last
    /// sweep, or set a timer that was due already.
    NoSweep,
}

impl Reason {
    /// Whether it says what holds the thing back.
    pub fn holds_back(&self) -> bool
        ensures { result ≡ holds_back self.now }
    {
        match self {
            Reason::Behind { .. }
            | Reason::NotRunning(_)
            | Reason::InRegions { .. }
            | Reason::TooHigh(_)
            | Reason::Unnoticed { .. }
            | Reason::NotAsked(_)
            | Reason::Cut(_)
            | Reason::Next { .. }
            | Reason::NoNext { .. }
            | Reason::OnOwn(_)
            | Reason::MustFirst(_)
            | Reason::NotTaken { .. }
            | Reason::NotDue { .. }
            | Reason::ExpiresFirst { .. }
            | Reason::NoSweep => true,
            Reason::NeverInserted
            | Reason::Ended { .. }
            | Reason::Waits(_)
            | Reason::Runs(_)
            | Reason::First { .. }
            | Reason::Stands(_)
            | Reason::Noticed { .. }
            | Reason::AskedNothing { .. }
            | Reason::Then(_)
            | Reason::Ready(_)
            | Reason::TakenFirst { .. }
            | Reason::NotSet { .. }
            | Reason::IsSet { .. }
            | Reason::IsDue { .. }
            | Reason::OwesSweep(_) => false,
        }
    }
}

/// Puts one more at the end.
pub(crate) fn add<T: Copy>(items: &mut Vec<T>, item: T) -> Result<(), AllocError>
    ensures { OnOk result (items.new.items ≡ items.old.items ++ item ∷ []) }
{
    items.reserve(1)?;
    items.push_reserved(item);
    Ok(())
}
