//! What an event leaves of the state of a held lane.
ghost use Rattle.std.specs.Prelude.{◌≡◌, ◌+◌, ◌-◌, ◌<◌, ◌≤◌, ◌^◌, IfSome, IsTrue, List, None, Some};
ghost use Rattle.std.specs.Prelude.{length, option_map, ℕ};
ghost use Rattle.nt_dpc.specs.Laws.{IsObject};
ghost use Rattle.nt_dpc.specs.Objects.{entry_of, queued_at, unqueued};
ghost use Rattle.nt_dpc.specs.Queues.{StandsHereOrNowhere, first_entry, with_entry, without_entry};
ghost use Rattle.nt_dpc_lanes.specs.Changes.{change_of as change_in};
ghost use Rattle.nt_event.specs.declared.numbers.CpuNo.{CpuNo as Cpu};
ghost use Rattle.nt_event.specs.declared.scripts.Script.{Script as Declared};
ghost use Rattle.nt_event.specs.Locks.{lock_move, lock_moved};
ghost use Rattle.nt_event.specs.Objects.{ObjectState, object_after};
ghost use Rattle.nt_event.specs.Queues.{queue_after};
ghost use Rattle.nt_event.specs.Script.{fits};
ghost use Rattle.nt_event.specs.Step.{thread_field};
ghost use Rattle.nt_event.specs.Timers.{timers_after};
ghost use Rattle.nt_lane_record.specs.Changed.{MayChangeBoth, MayChangeObject, MayChangeQueue};
ghost use Rattle.nt_lane_record.specs.Changed.{MayEnter};
ghost use Rattle.nt_lane_record.specs.Changed.{object_moved, object_set, queue_idle, queue_moved};
ghost use Rattle.nt_states.specs.Timed.{MayTime};
ghost use Rattle.nt_states.specs.ThreadFits.{RunsHere, WhatFits, named_thread as thread_of};
ghost use Rattle.nt_states.specs.ThreadLanes.{left};
ghost use Rattle.nt_timer.specs.Laws.{IsSized};

use crate::states::{Clock, Group, Object, Queue, Spin};
use nt_dpc_lanes::{Change, change_of};
use nt_event::{CpuNo, Event, Part, Script, What};
use nt_frame::StandView;
use nt_states::{leave_timers, moved_lock};
use nt_thread_lanes::named_thread;

/// Inserts the object into the queue, by this processor in the event of this number.
fn insert(object: &mut Object, queue: &mut Queue, n: u64, by: CpuNo)
    requires { MayEnter object.old queue.old by }
    ensures object { object.new
        ≡ queued_at (record { queue = queue.old.cpu; number = n }) object.old }
    ensures queue { queue.new ≡ with_entry (entry_of n object.old) queue.old }
{
    let _ = queue.state.insert(&mut object.state, by, n);
}

/// Removes the object from the queue.
fn remove(object: &mut Object, queue: &mut Queue)
    requires { StandsHereOrNowhere queue.old object.old }
    ensures object { object.new ≡ unqueued object.old }
    ensures queue { queue.new ≡ without_entry object.old.dpc queue.old }
{
    let _ = queue.state.remove(&mut object.state);
}

/// Takes the object, which is the first one of the part, from the queue.
fn take(object: &mut Object, queue: &mut Queue, part: Part)
    requires { option_map (λ x. x.0) (first_entry part queue.old) ≡ Some object.old.dpc }
    ensures object { object.new ≡ unqueued object.old }
    ensures queue { queue.new ≡ without_entry object.old.dpc queue.old }
{
    let _ = queue.state.take(part, &mut object.state);
}

/// Makes the change, by this processor in the event of this number.
fn change_both(object: &mut Object, queue: &mut Queue, n: u64, by: CpuNo, change: Change)
    requires { MayChangeBoth object.old queue.old by change }
    ensures object { object.new ≡ object_moved n queue.old.cpu change object.old }
    ensures queue { queue.new ≡ queue_moved n change object.old queue.old }
{
    match change {
        Change::Insert(_) => insert(object, queue, n, by),
        Change::Remove(_) => remove(object, queue),
        Change::Take(part, _) => take(object, queue, part),
        Change::Nothing
        | Change::SetImportance(_, _)
        | Change::SetTarget(_, _)
        | Change::Rest
        | Change::Run => {}
    }
}

/// Takes in the event of this number, by this processor, of an object and of the queue that it is
/// inserted into, removed from or taken from.
pub fn leave_both(object: &mut Object, queue: &mut Queue, n: u64, by: CpuNo, what: &What)
    requires { MayChangeBoth object.old queue.old by (change_in what.now) }
    ensures object { object.new
        ≡ record object.old { state = object_after object.old.dpc n by what.now object.old.state } }
    ensures queue { (s : Declared) (objects : List ObjectState) → IsObject s objects object.old →
        queue.new ≡ record queue.old {
          state = queue_after s queue.old.cpu n by what.now objects queue.old.state;
        } }
{
    let change = change_of(what);
    change_both(object, queue, n, by, change);
}

impl Object {
    /// Takes in an event that touches the object, and no queue: it is set, or stays as it is.
    pub fn leave(&mut self, what: &What)
        requires { MayChangeObject self.old (change_in what.now) }
        ensures { (n : ℕ) (by : Cpu) →
            self.new
            ≡ record self.old { state = object_after self.old.dpc n by what.now self.old.state } }
    {
        let change = change_of(what);
        self.set(change);
    }

    /// The object is set as the change says. Another change leaves it as it is.
    fn set(&mut self, change: Change)
        ensures { self.new ≡ object_set change self.old }
    {
        match change {
            Change::SetImportance(_, importance) => self.state.set_importance(importance),
            Change::SetTarget(_, target) => self.state.set_target(target),
            Change::Nothing
            | Change::Insert(_)
            | Change::Remove(_)
            | Change::Take(_, _)
            | Change::Rest
            | Change::Run => {}
        }
    }
}

impl Queue {
    /// Takes in an event of the queue's processor that touches the queue, and no object: the
    /// processor rests or runs from now on, or the queue stays as it is.
    pub fn leave(&mut self, what: &What)
        requires { MayChangeQueue (change_in what.now) }
        ensures { (s : Declared) (objects : List ObjectState) (n : ℕ) →
            self.new ≡ record self.old {
              state = queue_after s self.old.cpu n self.old.cpu what.now objects self.old.state;
            } }
    {
        let change = change_of(what);
        self.rest_or_run(change);
    }

    /// The processor rests or runs from now on, as the change says. Another change leaves the queue
    /// as it is.
    fn rest_or_run(&mut self, change: Change)
        ensures { self.new ≡ queue_idle change self.old }
    {
        match change {
            Change::Rest => self.state.rest(),
            Change::Run => self.state.run(),
            Change::Nothing
            | Change::Insert(_)
            | Change::Remove(_)
            | Change::Take(_, _)
            | Change::SetImportance(_, _)
            | Change::SetTarget(_, _) => {}
        }
    }
}

impl Group<'_> {
    /// Takes in the event of this number, of a processor that stood so: the thread that it names
    /// changes, or else the one that makes it.
    ///
    /// The event is one that a job gives in these states. Only where it names no thread has its
    /// maker to run in them, so the threads of another processor take it too.
    pub fn leave(&mut self, script: &Script, n: u64, stand: &StandView, event: &Event)
        requires script { self.old.threads.script ≡ script.now }
        requires fits { IsTrue (fits script.now) }
        requires cpu { event.now.cpu ≡ stand.now.cpu }
        requires thread { event.now.thread ≡ thread_field event.now.what stand.now.thread }
        requires what { WhatFits self.old.threads stand.now event.now.what }
        requires runs { thread_of script.now event.now.what ≡ None →
            IfSome stand.now.thread (RunsHere self.old.threads stand.now) }
        ensures { self.new
            ≡ record self.old { threads = left n stand.now event.now self.old.threads } }
    {
        match named_thread(script, &event.what) {
            Some(thread) => self.state.tell(thread, n, &event.what),
            None => self.state.leave(n, stand, event),
        }
    }
}

impl Clock {
    /// Takes in the event of this number, of a processor that stood so. The event is one that a job
    /// gives in these states.
    pub fn leave(&mut self, script: &Script, n: u64, stand: &StandView, event: &Event)
        requires sized { IsSized script.now self.old }
        requires may { MayTime script.now self.old event.now event.now.what }
        requires time { self.old.now + 2 ^ 32 ≤ 2 ^ 50 }
        ensures timers { self.new ≡ timers_after script.now n stand.now event.now self.old }
        ensures sized { IsSized script.now self.new }
        ensures time { self.new.now ≤ self.old.now + (2 ^ 32 - 1) }
    {
        let _script = script;
        leave_timers(&mut self.state, n, stand, event);
    }
}

impl Spin {
    /// Takes in an event of this processor: what it does to the lock, if it moves this one.
    pub fn leave(&mut self, p: CpuNo, what: &What)
        requires { p.0 < length self.old.state.spinners }
        ensures { (s : Declared) → s.cpus ≡ length self.old.state.spinners →
            self.new ≡ record self.old {
              state = lock_moved s self.old.lock p (lock_move what.now) self.old.state;
            } }
    {
        if let Some((k, by)) = moved_lock(what) {
            if k.0 == self.lock.0 {
                self.state.leave(k, p, by);
            }
        }
    }
}
