//! What a few held lanes answer.
ghost use Rattle.std.specs.Prelude.{◌↔◌, ◌≡◌, IfSome, IsSome, IsTrue, Some, length, option_map};
ghost use Rattle.nt_event.specs.declared.jobs.Lane.TheVariants.{Lock as LockLane};
ghost use Rattle.nt_event.specs.declared.jobs.Lane.TheVariants.{Object as ObjectLane};
ghost use Rattle.nt_event.specs.declared.jobs.Lane.TheVariants.{Queue as QueueLane};
ghost use Rattle.nt_event.specs.Lanes.{lock_at, object_at, queue_at};
ghost use Rattle.nt_event.specs.Queues.{is_queue};
ghost use Rattle.nt_event.specs.Script.{fits, has_cpu, has_dpc, has_lock};
ghost use Rattle.nt_dpc.specs.Queues.{holds_dpc};
ghost use Rattle.nt_lane.specs.Answers.{AreThere, BothAgree, IsHeld, held_lanes};
ghost use Rattle.nt_lane_record.specs.Held.{IsGroupThere, IsObjectThere, IsQueueThere, IsSpinThere};
ghost use Rattle.nt_timer.specs.Laws.{IsSized};

use crate::needs::Needs;
use nt_dpc::{DpcObject, DpcQueue};
use nt_event::{CpuNo, DpcNo, Lane, LockNo, Part, Script, TimerKey, TimerNo};
use nt_lane_record::{Clock, Group, Object, Queue, Spin};
use nt_states::{LaneAnswers, SpinLock};
use nt_thread_lanes::Threads;
use nt_timer::TimerQueue;
use std::marker::Model;

/// Whether the object stands in the queue of this processor.
fn stands_in(object: &Object, p: CpuNo) -> bool
    ensures { result ≡ is_queue (option_map (λ at. at.queue) object.now.state.standing) p }
{
    match object.inner().standing() {
        Some(queue) => queue.0 == p.0,
        None => false,
    }
}

/// Whether the queue has an entry of the object exactly where the object stands in it.
fn agree(object: &Object, queue: &Queue) -> bool
    ensures { IsTrue result ↔
        (holds_dpc object.now.dpc queue.now.state.pending
        ≡ is_queue (option_map (λ at. at.queue) object.now.state.standing) queue.now.cpu) }
{
    queue.inner().holds(object.dpc()) == stands_in(object, queue.cpu())
}

/// The same, where both are held.
fn both_agree(object: Option<&Object>, queue: Option<&Queue>) -> bool
    ensures { IsTrue result ↔
        BothAgree (option_map (λ o. o.now) object.entry) (option_map (λ q. q.now) queue.entry) }
{
    match object {
        Some(object) => match queue {
            Some(queue) => agree(object, queue),
            None => true,
        },
        None => true,
    }
}

/// The states of up to five lanes that are held by their locks, at most one of each kind.
///
/// Of a lane that isn't held it tells any state: an object, a queue or a spin lock like the held
/// one.
#[derive(Drop)]
pub(crate) struct Held<'h, 's> {
    script: &'h Script,
    object: Option<&'h Object>,
    queue: Option<&'h Queue>,
    group: Option<&'h Group<'s>>,
    timers: Option<&'h Clock>,
    spin_lock: Option<&'h Spin>,
}

impl<'h, 's> Model for Held<'h, 's> {
    ghost use Rattle.nt_lane.specs.Answers.{HeldStates};
    ghost use Rattle.nt_lane.specs.Inside.{AreThereInside, held_in};

    ghost Value = { HeldStates };

    ghost view = { held_in };

    ghost invariant = { AreThereInside };
}

impl<'h, 's> Held<'h, 's> {
    /// The states of held lanes of the script; None where a held object and a held queue don't
    /// agree on where the object stands, which no history makes.
    pub(crate) fn new(
        script: &'h Script,
        object: Option<&'h Object>,
        queue: Option<&'h Queue>,
        group: Option<&'h Group<'s>>,
        timers: Option<&'h Clock>,
        spin_lock: Option<&'h Spin>,
    ) -> Option<Held<'h, 's>>
        requires fits { IsTrue (fits script.now) }
        requires object { IfSome object (λ o. IsObjectThere script.now o.now) }
        requires queue { IfSome queue (λ q. IsQueueThere script.now q.now) }
        requires group { IfSome group (λ g. IsGroupThere script.now g.now) }
        requires timers { IfSome timers (λ t. IsSized script.now t.now) }
        requires spin_lock { IfSome spin_lock (λ x. IsSpinThere script.now x.now) }
        ensures { IfSome result (λ h.
            h ≡ record {
              script = script.now;
              object = option_map (λ o. o.now) object.entry;
              queue = option_map (λ q. q.now) queue.entry;
              group = option_map (λ g. g.now) group.entry;
              timers = option_map (λ t. t.now) timers.entry;
              spin_lock = option_map (λ x. x.now) spin_lock.entry;
            }) }
    {
        if both_agree(object, queue) {
            Some(Held {
                script,
                object,
                queue,
                group,
                timers,
                spin_lock,
            })
        } else {
            None
        }
    }

    /// What holds of them at any time.
    pub(crate) fn there(&self)
        ensures { AreThere self.now }
    {
        let _script = self.script;
    }

    /// Whether this lane is held.
    pub(crate) fn holds(&self, lane: Lane) -> bool
        ensures { IsTrue result ↔ IsHeld self.now lane }
    {
        match lane {
            Lane::Object(d) => match self.object {
                Some(object) => object.dpc().0 == d.0,
                None => false,
            },
            Lane::Queue(p) => match self.queue {
                Some(queue) => queue.cpu().0 == p.0,
                None => false,
            },
            Lane::Threads(p) => match self.group {
                Some(group) => group.cpu().0 == p.0,
                None => false,
            },
            Lane::Timers => self.timers.is_some(),
            Lane::Lock(k) => match self.spin_lock {
                Some(spin) => spin.lock().0 == k.0,
                None => false,
            },
        }
    }

    /// The locks by which they are held.
    pub(crate) fn needs(&self) -> Needs {
        let object = match self.object {
            Some(object) => Some(object.dpc()),
            None => None,
        };
        let queue = match self.queue {
            Some(queue) => Some(queue.cpu()),
            None => None,
        };
        let group = match self.group {
            Some(group) => Some(group.cpu()),
            None => None,
        };
        let spin_lock = match self.spin_lock {
            Some(spin) => Some(spin.lock()),
            None => None,
        };
        Needs {
            object,
            queue,
            group,
            timers: self.timers.is_some(),
            spin_lock,
        }
    }

    /// The object, which is held.
    fn object(&self, d: DpcNo) -> &DpcObject
        requires object { IsTrue (has_dpc self.now.script d) }
        requires held { IsHeld self.now (ObjectLane d) }
        ensures same { self.now.object ≡ Some result.now }
        ensures there { IsObjectThere self.now.script result.now }
        ensures dpc { result.now.dpc ≡ d }
        ensures state { result.now.state ≡ object_at (held_lanes self.now) d }
    {
        let _dpc = d;
        match self.object {
            Some(object) => object.inner(),
            None => unreachable!(),
        }
    }

    /// The queue, which is held.
    fn queue(&self, p: CpuNo) -> &DpcQueue
        requires cpu { IsTrue (has_cpu self.now.script p) }
        requires held { IsHeld self.now (QueueLane p) }
        ensures same { self.now.queue ≡ Some result.now }
        ensures there { IsQueueThere self.now.script result.now }
        ensures cpu { result.now.cpu ≡ p }
        ensures state { result.now.state ≡ queue_at (held_lanes self.now) p }
    {
        let _cpu = p;
        match self.queue {
            Some(queue) => queue.inner(),
            None => unreachable!(),
        }
    }

    /// The timers, which are held.
    fn timers(&self) -> &TimerQueue
        requires { IsSome self.now.timers }
        ensures { result.now ≡ (held_lanes self.now).timers }
    {
        match self.timers {
            Some(timers) => timers.inner(),
            None => unreachable!(),
        }
    }

    /// The spin lock, which is held.
    fn spin_lock(&self, k: LockNo) -> &SpinLock
        requires lock { IsTrue (has_lock self.now.script k) }
        requires held { IsHeld self.now (LockLane k) }
        ensures state { result.now ≡ lock_at (held_lanes self.now) k }
        ensures flags { length result.now.spinners ≡ self.now.script.cpus }
    {
        let _lock = k;
        match self.spin_lock {
            Some(spin) => spin.inner(),
            None => unreachable!(),
        }
    }
}

impl<'h, 's> LaneAnswers for Held<'h, 's> {
    ghost use Rattle.nt_lane.specs.Answers.{IsHeld, held_lanes};

    type Threads = Threads<'s>;

    ghost script_of = { λ h. h.script };

    ghost lanes = { held_lanes };

    ghost holds = { IsHeld };

    fn script(&self) -> &Script {
        self.there();
        self.script
    }

    fn is_queued(&self, d: DpcNo) -> bool {
        self.object(d).standing().is_some()
    }

    fn queue_for(&self, d: DpcNo, by: CpuNo) -> CpuNo {
        self.object(d).queue_for(by)
    }

    fn standing(&self, d: DpcNo) -> Option<CpuNo> {
        self.object(d).standing()
    }

    fn first(&self, part: Part, p: CpuNo) -> Option<(DpcNo, u64)> {
        self.queue(p).first(part)
    }

    fn ask(&self, d: DpcNo, by: CpuNo) -> Option<u8> {
        self.there();
        let p = self.queue_for(d, by);
        self.queue(p).answer(self.object(d), by).ask
    }

    fn threads(&self) -> &Threads<'s> {
        match self.group {
            Some(group) => group.inner(),
            None => unreachable!(),
        }
    }

    fn now(&self) -> u64 {
        self.timers().now()
    }

    fn is_set(&self, t: TimerNo) -> bool {
        self.timers().is_set(t)
    }

    fn first_due(&self) -> Option<(TimerKey, u64)> {
        self.there();
        self.timers().first_due()
    }

    fn is_free(&self, k: LockNo) -> bool {
        self.spin_lock(k).is_free()
    }

    fn spinners(&self, k: LockNo) -> &[bool] {
        self.spin_lock(k).spinners()
    }
}
