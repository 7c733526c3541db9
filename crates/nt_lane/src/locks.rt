//! The lanes that an act holds by their locks.
ghost use Rattle.std.specs.Prelude.{◌≡◌, ◌*◌, ◌<◌, ◌≤◌, ◌^◌, IfSome, IsSome, IsTrue, OnOk, max};
ghost use Rattle.std.specs.Prelude.{option_map};
ghost use Rattle.std.specs.Sync.Mutex.{mutex_guard_value};
ghost use Rattle.nt_event.specs.LaneStates.{told_at};
ghost use Rattle.nt_event.specs.Lists.{table, value_at};
ghost use Rattle.nt_event.specs.Acts.{told_over};
ghost use Rattle.nt_lane.specs.Answers.{IsHeld};
ghost use Rattle.nt_lane.specs.Locks.{AreKnownBy, AreLanes, AreLongest, AreRoomy, IsKnownBy};
ghost use Rattle.nt_lane.specs.Locks.{IsLane, in_each, kept, states_of, told_in, told_of};
ghost use Rattle.nt_lane_record.specs.Passes.{Learns};
ghost use Rattle.nt_mark.specs.Names.{pass_table, pass_view, table_of};
ghost use Rattle.nt_mark.specs.Rule.{IsLongest};
ghost use Rattle.nt_states.specs.Reads.{AreHeld};

use crate::lanes::Lanes;
use crate::needs::Needs;
use crate::planning::{Planned, plan_job};
use nt_event::{CpuNo, DpcNo, Job, Lane as LaneName, LockNo, Plan, Script};
use nt_frame::StandView;
use nt_lane_record::{Clock, Group, Holds, Lane, Object, Queue, Spin};
use nt_mark::{Marks, Pass, Shared};
use std::alloc::AllocError;
use std::marker::Model;
use std::sync::{Mutex, MutexGuard, Wait};

/// The lanes that are held by their locks, at most one of each kind.
#[derive(Drop)]
pub(crate) struct Locked<'l, 's, N: Plan + Shared> {
    pub(crate) object: Option<MutexGuard<'l, Lane<N, Object>>>,
    pub(crate) queue: Option<MutexGuard<'l, Lane<N, Queue>>>,
    pub(crate) group: Option<MutexGuard<'l, Lane<N, Group<'s>>>>,
    pub(crate) timers: Option<MutexGuard<'l, Lane<N, Clock>>>,
    pub(crate) spin_lock: Option<MutexGuard<'l, Lane<N, Spin>>>,
}

impl<'l, 's, N: Plan + Shared> Model for Locked<'l, 's, N> {
    ghost use Rattle.std.specs.Sync.Mutex.{mutex_guard_value};
    ghost use Rattle.nt_lane.specs.Locks.{HeldLanes, in_each, kept};

    ghost Value = { HeldLanes };

    ghost view = { λ a. record {
      object = in_each a.object (λ g. kept (mutex_guard_value g).state (mutex_guard_value g).log);
      queue = in_each a.queue (λ g. kept (mutex_guard_value g).state (mutex_guard_value g).log);
      group = in_each a.group (λ g. kept (mutex_guard_value g).state (mutex_guard_value g).log);
      timers = in_each a.timers (λ g. kept (mutex_guard_value g).state (mutex_guard_value g).log);
      spin_lock =
          in_each a.spin_lock (λ g. kept (mutex_guard_value g).state (mutex_guard_value g).log);
    } };
}

/// The lock of one of these lanes, where it is asked for and there. It may wait.
fn lock_one<'l, N: Plan + Shared, S: Holds, R: Wait>(
    rt: &R,
    lanes: &'l [Mutex<Lane<N, S>>],
    place: Option<usize>,
) -> Option<MutexGuard<'l, Lane<N, S>>> {
    match place {
        Some(place) => match lanes.get(place) {
            Some(lane) => Some(lane.lock(rt)),
            None => None,
        },
        None => None,
    }
}

/// The place of an object.
fn object_place(object: Option<DpcNo>) -> Option<usize> {
    match object {
        Some(d) => Some(d.0 as usize),
        None => None,
    }
}

/// The place of a processor's lane.
fn cpu_place(cpu: Option<CpuNo>) -> Option<usize> {
    match cpu {
        Some(p) => Some(p.0 as usize),
        None => None,
    }
}

/// The place of a spin lock.
fn spin_place(lock: Option<LockNo>) -> Option<usize> {
    match lock {
        Some(k) => Some(k.0 as usize),
        None => None,
    }
}

/// The locks of these lanes, taken in their order: object, queue, threads, timers, spin lock. It
/// may wait.
pub(crate) fn lock<'l, 's, N: Plan + Shared, R: Wait>(
    rt: &R,
    lanes: &'l Lanes<'s, N>,
    needs: &Needs,
) -> Locked<'l, 's, N> {
    let object = lock_one::<N, Object, R>(rt, lanes.objects.as_slice(), object_place(needs.object));
    let queue = lock_one::<N, Queue, R>(rt, lanes.queues.as_slice(), cpu_place(needs.queue));
    let group = lock_one::<N, Group<'s>, R>(rt, lanes.groups.as_slice(), cpu_place(needs.group));
    let timers = if needs.timers {
        Some(lanes.timers.lock(rt))
    } else {
        None
    };
    let spin_lock = lock_one::<N, Spin, R>(
        rt,
        lanes.spin_locks.as_slice(),
        spin_place(needs.spin_lock),
    );
    Locked {
        object,
        queue,
        group,
        timers,
        spin_lock,
    }
}

/// What holds of a lane that is held.
fn there_one<N: Plan + Shared, S: Holds>(lane: &Option<MutexGuard<Lane<N, S>>>)
    ensures { IfSome
        (in_each lane.now (λ g. kept (mutex_guard_value g).state (mutex_guard_value g).log)) (λ k.
        IsLane N.script (S.name k.state) (S.content k.state) (S.time k.state)
        (S.fits N.script k.state) k.log) }
{
    match lane {
        Some(lane) => {
            let _log = &lane.log;
        }
        None => {}
    }
}

/// The state of a lane that is held.
fn state_of<'x, N: Plan + Shared, S: Holds>(
    lane: &'x Option<MutexGuard<Lane<N, S>>>,
) -> Option<&'x S>
    ensures { option_map (λ s. s.now) result
        ≡ in_each
        (in_each lane.now (λ g. kept (mutex_guard_value g).state (mutex_guard_value g).log))
        (λ k. k.state) }
{
    match lane {
        Some(lane) => Some(&lane.state),
        None => None,
    }
}

/// Room for one event more on a lane that is held.
fn reserve_one<N: Plan + Shared, S: Holds>(
    lane: &mut Option<MutexGuard<Lane<N, S>>>,
) -> Result<(), AllocError>
    ensures { OnOk result (IfSome
        (in_each lane.new (λ g. kept (mutex_guard_value g).state (mutex_guard_value g).log))
        (λ k. 1 ≤ k.log.room)) }
{
    if let Some(lane) = lane {
        let lane = &mut **lane;
        lane.log.reserve()?;
    }
    Ok(())
}

/// A lane, if it is held, and a pass tell each other what they know.
fn meet_one<N: Plan + Shared, S: Holds>(
    lane: &mut Option<MutexGuard<Lane<N, S>>>,
    marks: &Marks,
    pass: &mut Pass,
)
    requires table { (table_of marks.now ≡ N.table) × (pass_table pass.old ≡ N.table) }
    ensures table { pass_table pass.new ≡ N.table }
    ensures known { IfSome
        (in_each lane.new (λ g. kept (mutex_guard_value g).state (mutex_guard_value g).log))
        (λ k. IsKnownBy k.log (pass_view pass.new)) }
    ensures room { IfSome
        (in_each lane.old (λ g. kept (mutex_guard_value g).state (mutex_guard_value g).log))
        (λ k. 1 ≤ k.log.room) →
        IfSome (in_each lane.new (λ g. kept (mutex_guard_value g).state (mutex_guard_value g).log))
        (λ k. 1 ≤ k.log.room) }
    ensures learns { Learns (pass_view pass.old) (pass_view pass.new) }
{
    if let Some(lane) = lane {
        let lane = &mut **lane;
        lane.log.meet(marks, pass);
    }
}

/// A lane, if it is held, takes in what a pass knows.
fn compare_one<N: Plan + Shared, S: Holds>(
    lane: &mut Option<MutexGuard<Lane<N, S>>>,
    marks: &Marks,
    pass: &mut Pass,
)
    requires table { (table_of marks.now ≡ N.table) × (pass_table pass.old ≡ N.table) }
    ensures table { pass_table pass.new ≡ N.table }
    ensures pass { pass_view pass.new ≡ pass_view pass.old }
    ensures longest { IfSome
        (in_each lane.old (λ g. kept (mutex_guard_value g).state (mutex_guard_value g).log))
        (λ k. IsLongest k.log.lane k.log.notes (pass_view pass.new)) }
{
    if let Some(lane) = lane {
        let lane = &mut **lane;
        lane.log.compare(marks, pass);
    }
}

/// The greater ones of these values and those that a lane, which is held, tells for a processor.
fn raise_one<N: Plan + Shared, S: Holds>(
    lane: &Option<MutexGuard<Lane<N, S>>>,
    p: CpuNo,
    values: &mut [u64; 16],
)
    requires held { IsSome lane.now }
    requires cpu { p.0 < N.script.cpus }
    ensures { values.new ≡ table 16 (λ c.
        max (told_at (told_of
        (in_each lane.now (λ g. kept (mutex_guard_value g).state (mutex_guard_value g).log)))
        p c)
        (value_at values.old c)) }
{
    match lane {
        Some(lane) => lane.log.raise(p, values),
        None => unreachable!(),
    }
}

impl<'l, 's, N: Plan + Shared> Locked<'l, 's, N> {
    /// What holds of the held lanes.
    pub(crate) fn there(&self)
        ensures { AreLanes N.script self.now }
    {
        there_one::<N, Object>(&self.object);
        there_one::<N, Queue>(&self.queue);
        there_one::<N, Group<'s>>(&self.group);
        there_one::<N, Clock>(&self.timers);
        there_one::<N, Spin>(&self.spin_lock);
    }

    /// Room for one event more on each of them.
    fn reserve(&mut self) -> Result<(), AllocError>
        ensures { OnOk result (AreRoomy self.new) }
    {
        reserve_one::<N, Object>(&mut self.object)?;
        reserve_one::<N, Queue>(&mut self.queue)?;
        reserve_one::<N, Group<'s>>(&mut self.group)?;
        reserve_one::<N, Clock>(&mut self.timers)?;
        reserve_one::<N, Spin>(&mut self.spin_lock)?;
        Ok(())
    }

    /// Each of them and the pass tell each other what they know.
    fn meet(&mut self, marks: &Marks, pass: &mut Pass)
        requires table { (table_of marks.now ≡ N.table) × (pass_table pass.old ≡ N.table) }
        ensures table { pass_table pass.new ≡ N.table }
        ensures known { AreKnownBy self.new (pass_view pass.new) }
        ensures room { AreRoomy self.old → AreRoomy self.new }
        ensures learns { Learns (pass_view pass.old) (pass_view pass.new) }
    {
        meet_one::<N, Object>(&mut self.object, marks, pass);
        meet_one::<N, Queue>(&mut self.queue, marks, pass);
        meet_one::<N, Group<'s>>(&mut self.group, marks, pass);
        meet_one::<N, Clock>(&mut self.timers, marks, pass);
        meet_one::<N, Spin>(&mut self.spin_lock, marks, pass);
    }

    /// Each of them and the pass tell each other what they know; whether each has room for one
    /// event more.
    pub(crate) fn prepare(&mut self, marks: &Marks, pass: &mut Pass) -> bool
        requires table { (table_of marks.now ≡ N.table) × (pass_table pass.old ≡ N.table) }
        ensures table { pass_table pass.new ≡ N.table }
        ensures known { AreKnownBy self.new (pass_view pass.new) }
        ensures room { IsTrue result → AreRoomy self.new }
        ensures learns { Learns (pass_view pass.old) (pass_view pass.new) }
    {
        let roomy = match self.reserve() {
            Ok(()) => true,
            Err(_) => false,
        };
        self.meet(marks, pass);
        roomy
    }

    /// Each of them takes in what the pass knows, which tells that their lists are the longest ones
    /// that the pass knows.
    pub(crate) fn compare(&mut self, marks: &Marks, pass: &mut Pass)
        requires table { (table_of marks.now ≡ N.table) × (pass_table pass.old ≡ N.table) }
        ensures table { pass_table pass.new ≡ N.table }
        ensures pass { pass_view pass.new ≡ pass_view pass.old }
        ensures longest { AreLongest self.old (pass_view pass.new) }
    {
        compare_one::<N, Object>(&mut self.object, marks, pass);
        compare_one::<N, Queue>(&mut self.queue, marks, pass);
        compare_one::<N, Group<'s>>(&mut self.group, marks, pass);
        compare_one::<N, Clock>(&mut self.timers, marks, pass);
        compare_one::<N, Spin>(&mut self.spin_lock, marks, pass);
    }

    /// The greater ones of these values and those that one of the lanes, which is held, tells for a
    /// processor.
    fn raise(&self, lane: LaneName, p: CpuNo, values: &mut [u64; 16])
        requires cpu { p.0 < N.script.cpus }
        requires held { IsHeld (states_of N.script self.now) lane }
        ensures { values.new
            ≡ table 16 (λ c. max (told_in self.now lane p c) (value_at values.old c)) }
    {
        match lane {
            LaneName::Object(_) => raise_one::<N, Object>(&self.object, p, values),
            LaneName::Queue(_) => raise_one::<N, Queue>(&self.queue, p, values),
            LaneName::Threads(_) => raise_one::<N, Group<'s>>(&self.group, p, values),
            LaneName::Timers => raise_one::<N, Clock>(&self.timers, p, values),
            LaneName::Lock(_) => raise_one::<N, Spin>(&self.spin_lock, p, values),
        }
    }

    /// What these lanes, which are held, tell for a processor: for each class the greatest value.
    pub(crate) fn told(&self, lanes: &[LaneName], p: CpuNo) -> [u64; 16]
        requires cpu { p.0 < N.script.cpus }
        requires held { AreHeld (IsHeld (states_of N.script self.now)) lanes.now }
        ensures { result ≡ table 16 (λ c. told_over (told_in self.now) lanes.now p c) }
    {
        let mut values = [0; 16];
        for lane in lanes {
            self.raise(*lane, p, &mut values);
        }
        values
    }
}

impl<'l, 's, N: Plan + Shared> Locked<'l, 's, N> {
    ghost use Rattle.nt_event.specs.Script.{fits};
    ghost use Rattle.nt_event.specs.Acts.{StandFits, job_fits};
    ghost use Rattle.nt_lane.specs.Plans.{IsPlanned};

    /// Writes what a job of a processor that stands so comes to in the states of the held lanes.
    pub(crate) fn plan(&self, script: &Script, job: &Job, stand: &StandView, planned: &mut Planned)
        requires script { (script.now ≡ N.script) × IsTrue (fits N.script) }
        requires job { IsTrue (job_fits N.script job.now) }
        requires stand { StandFits N.script stand.now }
        ensures { IsPlanned (states_of N.script self.now) stand.now job.now planned.new }
    {
        self.there();
        plan_job(
            script,
            state_of::<N, Object>(&self.object),
            state_of::<N, Queue>(&self.queue),
            state_of::<N, Group<'s>>(&self.group),
            state_of::<N, Clock>(&self.timers),
            state_of::<N, Spin>(&self.spin_lock),
            job,
            stand,
            planned,
        )
    }
}
