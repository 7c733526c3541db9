//! What stands in a lane, of each kind.
ghost use Rattle.std.specs.Prelude.{◌≡◌, ◌&&◌, IfOk, IsTrue, length, slice_get};
ghost use Rattle.nt_event.specs.Locks.{free_lock};
ghost use Rattle.nt_event.specs.Routines.{depth_limit, is_declared_threaded, part_of, threaded_on};
ghost use Rattle.nt_event.specs.Script.{fits, has_cpu, has_dpc};
ghost use Rattle.nt_dpc.specs.Objects.{new_object};
ghost use Rattle.nt_dpc.specs.Queues.{new_queue};
ghost use Rattle.nt_states.specs.ThreadLanes.{start};
ghost use Rattle.nt_timer.specs.Settings.{new_timers};

use crate::record::Holds;
use nt_dpc::{DpcObject, DpcQueue};
use nt_event::{CpuNo, DpcNo, LockNo, Script};
use nt_states::SpinLock;
use nt_thread_lanes::Threads;
use nt_timer::TimerQueue;
use std::alloc::{AllocError, Global};
use std::marker::Model;

/// A DPC object of a script.
#[derive(Drop)]
pub struct Object {
    pub(crate) dpc: DpcNo,
    pub(crate) state: DpcObject,
}

impl Model for Object {
    ghost use Rattle.std.specs.Prelude.{◌≡◌};
    ghost use Rattle.nt_dpc.specs.Objects.{ObjectFacts};

    ghost Value = { ObjectFacts };

    ghost view = { λ a. a.state };

    ghost invariant = { λ a. a.dpc ≡ a.state.dpc };
}

impl Holds for Object {
    ghost use Rattle.nt_event.specs.declared.jobs.Lane.TheVariants.{Object as ObjectLane};
    ghost use Rattle.nt_event.specs.LaneStates.{OfObject};
    ghost use Rattle.std.proofs.Props.{props};
    ghost use Rattle.nt_lane_record.specs.Held.{IsObjectThere};

    ghost name = { λ o. ObjectLane o.dpc };

    ghost content = { λ o. OfObject o.state };

    ghost time = { λ o. 0 };

    ghost fits = { IsObjectThere };

    ghost fits_prop = { λ s x. Prim.hlevel props };
}

/// The DPC queue of a processor of a script.
#[derive(Drop)]
pub struct Queue {
    pub(crate) cpu: CpuNo,
    pub(crate) state: DpcQueue,
}

impl Model for Queue {
    ghost use Rattle.std.specs.Prelude.{◌≡◌};
    ghost use Rattle.nt_dpc.specs.Queues.{QueueFacts};

    ghost Value = { QueueFacts };

    ghost view = { λ a. a.state };

    ghost invariant = { λ a. a.cpu ≡ a.state.cpu };
}

impl Holds for Queue {
    ghost use Rattle.nt_event.specs.declared.jobs.Lane.TheVariants.{Queue as QueueLane};
    ghost use Rattle.nt_event.specs.LaneStates.{OfQueue};
    ghost use Rattle.std.proofs.Props.{props};
    ghost use Rattle.nt_lane_record.specs.Held.{IsQueueThere};

    ghost name = { λ q. QueueLane q.cpu };

    ghost content = { λ q. OfQueue q.state };

    ghost time = { λ q. 0 };

    ghost fits = { IsQueueThere };

    ghost fits_prop = { λ s x. Prim.hlevel props };
}

/// The threads of a processor of a script: the states of all threads, of which those of other
/// processors tell nothing.
#[derive(Drop)]
pub struct Group<'s> {
    pub(crate) cpu: CpuNo,
    pub(crate) state: Threads<'s>,
}

impl<'s> Model for Group<'s> {
    ghost use Rattle.nt_lane_record.specs.Held.{GroupState};

    ghost Value = { GroupState };

    ghost view = { λ a. record { threads = a.state; cpu = a.cpu } };
}

impl Holds for Group<'_> {
    ghost use Rattle.nt_event.specs.declared.jobs.Lane.TheVariants.{Threads as ThreadsLane};
    ghost use Rattle.nt_lane_record.specs.Held.{group_content};
    ghost use Rattle.std.proofs.Props.{props};
    ghost use Rattle.nt_lane_record.specs.Held.{IsGroupThere};

    ghost name = { λ g. ThreadsLane g.cpu };

    ghost content = { group_content };

    ghost time = { λ g. 0 };

    ghost fits = { IsGroupThere };

    ghost fits_prop = { λ s x. Prim.hlevel props };
}

/// The time, the timers and the delays of a script.
#[derive(Drop)]
pub struct Clock {
    pub(crate) state: TimerQueue,
}

impl Model for Clock {
    ghost use Rattle.nt_event.specs.Timers.{Timers};

    ghost Value = { Timers };

    ghost view = { λ a. a.state };
}

impl Holds for Clock {
    ghost use Rattle.nt_event.specs.declared.jobs.Lane.TheVariants.{Timers as TimersLane};
    ghost use Rattle.nt_event.specs.LaneStates.{OfTimers};
    ghost use Rattle.std.proofs.Props.{props};
    ghost use Rattle.nt_timer.specs.Laws.{IsSized};

    ghost name = { λ t. TimersLane };

    ghost content = { λ t. OfTimers t };

    ghost time = { λ t. t.now };

    ghost fits = { IsSized };

    ghost fits_prop = { λ s x. Prim.hlevel props };
}

/// A spin lock of a script.
#[derive(Drop)]
pub struct Spin {
    pub(crate) lock: LockNo,
    pub(crate) state: SpinLock,
}

impl Model for Spin {
    ghost use Rattle.nt_lane_record.specs.Held.{SpinFacts};

    ghost Value = { SpinFacts };

    ghost view = { λ a. record { lock = a.lock; state = a.state } };
}

impl Holds for Spin {
    ghost use Rattle.nt_event.specs.declared.jobs.Lane.TheVariants.{Lock as LockLane};
    ghost use Rattle.nt_event.specs.LaneStates.{OfLock};
    ghost use Rattle.std.proofs.Props.{props};
    ghost use Rattle.nt_lane_record.specs.Held.{IsSpinThere};

    ghost name = { λ x. LockLane x.lock };

    ghost content = { λ x. OfLock x.state };

    ghost time = { λ x. 0 };

    ghost fits = { IsSpinThere };

    ghost fits_prop = { λ s x. Prim.hlevel props };
}

impl Object {
    /// Which object it is.
    pub fn dpc(&self) -> DpcNo
        ensures { result ≡ self.now.dpc }
    {
        self.dpc
    }

    /// The state itself.
    pub fn inner(&self) -> &DpcObject
        ensures { result.now ≡ self.now }
    {
        &self.state
    }

    /// The object before any event.
    pub fn new(script: &Script, dpc: DpcNo) -> Object
        requires object { IsTrue (has_dpc script.now dpc) }
        ensures { result ≡ new_object dpc
            (threaded_on script.now && is_declared_threaded (slice_get script.now.dpcs dpc.0)) }
    {
        Object {
            dpc,
            state: DpcObject::new(dpc, script.is_threaded(dpc)),
        }
    }
}

impl Queue {
    /// The processor whose queue it is.
    pub fn cpu(&self) -> CpuNo
        ensures { result ≡ self.now.cpu }
    {
        self.cpu
    }

    /// The state itself.
    pub fn inner(&self) -> &DpcQueue
        ensures { result.now ≡ self.now }
    {
        &self.state
    }

    /// The queue before any event.
    pub fn new(alloc: Global, script: &Script, cpu: CpuNo) -> Result<Queue, AllocError>
        requires fits { IsTrue (fits script.now) }
        requires cpu { IsTrue (has_cpu script.now cpu) }
        ensures { IfOk result
            (λ q. q ≡ new_queue cpu (length script.now.dpcs) (depth_limit script.now)) }
    {
        let count = script.dpcs.len() as u32;
        let state = DpcQueue::new(alloc, cpu, count, script.depth_limit())?;
        Ok(Queue { cpu, state })
    }
}

impl<'s> Group<'s> {
    /// The processor whose threads they are.
    pub fn cpu(&self) -> CpuNo
        ensures { result ≡ self.now.cpu }
    {
        self.cpu
    }

    /// The threads.
    pub fn inner(&self) -> &Threads<'s>
        ensures { result.now ≡ self.now.threads }
    {
        &self.state
    }

    /// The threads before any event.
    pub fn new(alloc: Global, script: &'s Script, cpu: CpuNo) -> Result<Group<'s>, AllocError>
        requires fits { IsTrue (fits script.now) }
        requires cpu { IsTrue (has_cpu script.now cpu) }
        ensures { IfOk result (λ g. g ≡ record { threads = start script.now; cpu = cpu }) }
    {
        let state = Threads::new(alloc, script)?;
        Ok(Group { cpu, state })
    }
}

impl Clock {
    /// The state itself.
    pub fn inner(&self) -> &TimerQueue
        ensures { result.now ≡ self.now }
    {
        &self.state
    }

    /// The timers before any event.
    pub fn new(alloc: Global, script: &Script) -> Result<Clock, AllocError>
        requires fits { IsTrue (fits script.now) }
        ensures { IfOk result
            (λ t. t ≡ new_timers (length script.now.timers) (length script.now.threads)) }
    {
        let timers = script.timers.len() as u32;
        let state = TimerQueue::new(alloc, timers, script.thread_count())?;
        Ok(Clock { state })
    }
}

impl Spin {
    /// Which spin lock it is.
    pub fn lock(&self) -> LockNo
        ensures { result ≡ self.now.lock }
    {
        self.lock
    }

    /// The state itself.
    pub fn inner(&self) -> &SpinLock
        ensures { result.now ≡ self.now.state }
    {
        &self.state
    }

    /// The lock before any event.
    pub fn new(alloc: Global, script: &Script, lock: LockNo) -> Result<Spin, AllocError>
        ensures { IfOk result (λ x. x ≡ record { lock = lock; state = free_lock script.now }) }
    {
        let state = SpinLock::new(alloc, script)?;
        Ok(Spin { lock, state })
    }
}
