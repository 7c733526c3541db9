//! The questions.
use crate::thread_answers::ThreadAnswers;
use nt_event::{CpuNo, DpcNo, LockNo, Part, Script, TimerKey, TimerNo};

/// What the states of lanes answer, each of a lane that is held.
///
/// The whole states of a script hold each lane. A value over a few locked lanes holds those; the
/// states that it tells of other lanes may be any.
pub trait LaneAnswers {
    ghost use Rattle.std.specs.Prelude.{◌≡◌, ◌<◌, ◌^◌, IfSome, IsTrue, false, is_none, length};
    ghost use Rattle.std.specs.Prelude.{option_map};
    ghost use Rattle.nt_event.specs.declared.jobs.Lane.{Lane};
    ghost use Rattle.nt_event.specs.declared.jobs.Lane.TheVariants.{Lock as LockLane};
    ghost use Rattle.nt_event.specs.declared.jobs.Lane.TheVariants.{Object as ObjectLane};
    ghost use Rattle.nt_event.specs.declared.jobs.Lane.TheVariants.{Queue as QueueLane};
    ghost use Rattle.nt_event.specs.declared.jobs.Lane.TheVariants.{Threads as ThreadsLane};
    ghost use Rattle.nt_event.specs.declared.jobs.Lane.TheVariants.{Timers as TimersLane};
    ghost use Rattle.nt_event.specs.declared.numbers.CpuNo.{CpuNo};
    ghost use Rattle.nt_event.specs.declared.scripts.Script.{Script};
    ghost use Rattle.nt_event.specs.Lanes.{Lanes, lock_at, object_at, queue_at};
    ghost use Rattle.nt_event.specs.Objects as objects;
    ghost use Rattle.nt_event.specs.Queues.{first_dpc};
    ghost use Rattle.nt_event.specs.Requests.{queue_asks};
    ghost use Rattle.nt_event.specs.Script.{fits, has_cpu, has_dpc, has_lock};
    ghost use Rattle.nt_event.specs.Timers as timers;
    ghost use Rattle.nt_dpc.specs.Laws.{asks_on};
    ghost use Rattle.nt_event.specs.Fitting.{key_fits};
    ghost use Rattle.nt_states.specs.Reads.{HoldsThreads};

    /// The states of the threads, which answer the questions about them.
    type Threads: ThreadAnswers;

    /// The script.
    ghost script_of: { Self → Script };

    /// The states of the lanes that it tells.
    ghost lanes: { Self → Lanes };

    /// It holds this lane: the state that it tells of it is the lane's own.
    ghost holds: { Self → Lane → Type 0 };

    /// The script, which fits.
    fn script(&self) -> &Script
        ensures script { result.now ≡ script_of self.now }
        ensures fits { IsTrue (fits result.now) };

    // ---- DPC objects and queues

    /// Whether the object is queued.
    fn is_queued(&self, d: DpcNo) -> bool
        requires object { IsTrue (has_dpc (script_of self.now) d) }
        requires held { holds self.now (ObjectLane d) }
        ensures { result ≡ objects.is_queued (object_at (lanes self.now) d) };

    /// The processor whose queue an insert by the processor `by` goes to.
    fn queue_for(&self, d: DpcNo, by: CpuNo) -> CpuNo
        requires object { IsTrue (has_dpc (script_of self.now) d) }
        requires cpu { IsTrue (has_cpu (script_of self.now) by) }
        requires held { holds self.now (ObjectLane d) }
        ensures value { result ≡ objects.queue_for (object_at (lanes self.now) d).target by }
        ensures named { IsTrue (has_cpu (script_of self.now) result) };

    /// The processor in whose queue the object stands; None exactly where it isn't queued.
    fn standing(&self, d: DpcNo) -> Option<CpuNo>
        requires object { IsTrue (has_dpc (script_of self.now) d) }
        requires held { holds self.now (ObjectLane d) }
        ensures value { result ≡ option_map (λ x. x.queue) (object_at (lanes self.now) d).standing }
        ensures named { IfSome result (λ p. IsTrue (has_cpu (script_of self.now) p)) };

    /// The first entry of the part of the processor's queue, by its object and the number of its
    /// event; None exactly where the part is empty.
    fn first(&self, part: Part, p: CpuNo) -> Option<(DpcNo, u64)>
        requires cpu { IsTrue (has_cpu (script_of self.now) p) }
        requires held { holds self.now (QueueLane p) }
        ensures value { result ≡ option_map (λ x. (x.dpc, x.number))
            (first_dpc part (queue_at (lanes self.now) p).pending) }
        ensures named { IfSome result (λ x. IsTrue (has_dpc (script_of self.now) x.0)) };

    /// The request class that an insert of the object, which isn't queued, by the processor `by`
    /// asks for on the processor of its queue, by the object's importance and the queue's depth and
    /// idleness; None where it asks for none.
    fn ask(&self, d: DpcNo, by: CpuNo) -> Option<u8>
        requires object { IsTrue (has_dpc (script_of self.now) d) }
        requires cpu { IsTrue (has_cpu (script_of self.now) by) }
        requires free { objects.is_queued (object_at (lanes self.now) d) ≡ false }
        requires held_object { holds self.now (ObjectLane d) }
        requires held_queue { holds self.now
            (QueueLane (objects.queue_for (object_at (lanes self.now) d).target by)) }
        ensures asks { queue_asks (script_of self.now) d by (lanes self.now)
            ≡ asks_on (objects.queue_for (object_at (lanes self.now) d).target by) result }
        ensures class { IfSome result (λ c. c < 16) };

    // ---- threads

    /// The states of the threads, where some of their lanes are held: they may be asked of the
    /// threads of each that is.
    fn threads(&self) -> &Self::Threads
        requires held { HoldsThreads (holds self.now) }
        ensures script { Self.Threads.script_of result.now ≡ script_of self.now }
        ensures facts { Self.Threads.facts result.now ≡ (lanes self.now).threads }
        ensures tells { (p : CpuNo) → holds self.now (ThreadsLane p) →
            Self.Threads.tells result.now p };

    // ---- timers

    /// The time.
    fn now(&self) -> u64
        requires { holds self.now TimersLane }
        ensures time { result ≡ (lanes self.now).timers.now }
        ensures bound { result < 2 ^ 50 };

    /// Whether the timer is set.
    fn is_set(&self, t: TimerNo) -> bool
        requires { holds self.now TimersLane }
        ensures { result ≡ timers.is_set_timer (lanes self.now).timers t };

    /// The first due key, with the number of the event that set it; None exactly where none is due.
    fn first_due(&self) -> Option<(TimerKey, u64)>
        requires { holds self.now TimersLane }
        ensures value { result ≡ option_map (λ x. (x.key, x.setting.number))
            (timers.first_due (lanes self.now).timers) }
        ensures named { IfSome result (λ k. IsTrue (key_fits (script_of self.now) k.0)) };

    // ---- spin locks

    /// Whether no processor holds the lock.
    fn is_free(&self, k: LockNo) -> bool
        requires lock { IsTrue (has_lock (script_of self.now) k) }
        requires held { holds self.now (LockLane k) }
        ensures { result ≡ is_none (lock_at (lanes self.now) k).holder };

    /// For each processor whether it spins on the lock.
    fn spinners(&self, k: LockNo) -> &[bool]
        requires lock { IsTrue (has_lock (script_of self.now) k) }
        requires held { holds self.now (LockLane k) }
        ensures value { result.now ≡ (lock_at (lanes self.now) k).spinners }
        ensures count { length result.now ≡ (script_of self.now).cpus };
}
