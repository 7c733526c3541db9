//! An event on those of the held lanes that it touches.
ghost use Rattle.std.specs.Prelude.{◌≡◌, IfSome, IsTrue, List, true};
ghost use Rattle.std.specs.Sync.Mutex.{mutex_guard_value};
ghost use Rattle.nt_event.specs.Lanes.{same_lane};
ghost use Rattle.nt_event.specs.Objects.{ObjectState};
ghost use Rattle.nt_event.specs.Script.{fits};
ghost use Rattle.nt_event.specs.Acts.{is_among};
ghost use Rattle.nt_lane.specs.Locks.{in_each, kept};
ghost use Rattle.nt_lane.specs.Steps.{AreLeftBy, AreReadyFor, DpcsLeft, DpcsReady, IsReady, IsStep};
ghost use Rattle.nt_lane.specs.Steps.{LeavesGroup, LeavesObject, LeavesQueue, LeavesSpin};
ghost use Rattle.nt_lane.specs.Steps.{LeavesTimers, MayLeaveGroup, MayLeaveObject, MayLeaveQueue};
ghost use Rattle.nt_lane.specs.Steps.{MayLeaveSpin, MayLeaveTimers, is_touched, object_name};
ghost use Rattle.nt_lane.specs.Steps.{queue_name};
ghost use Rattle.nt_lane_record.specs.Passes.{Learns};
ghost use Rattle.nt_mark.specs.Names.{pass_table, pass_view, table_of};

use crate::locks::Locked;
use crate::noting::{Step, note_both, note_group, note_object, note_queue, note_spin, note_timers};
use nt_event::{Lane as LaneName, Plan};
use nt_lane_record::{Clock, Group, Lane, Object, Queue, Spin};
use nt_mark::{Marks, Pass, Shared};
use std::sync::MutexGuard;

/// Whether the two are one lane.
fn same(a: LaneName, b: LaneName) -> bool
    ensures { result ≡ same_lane a b }
{
    match a {
        LaneName::Object(d) => match b {
            LaneName::Object(e) => e.0 == d.0,
            LaneName::Queue(_) | LaneName::Threads(_) | LaneName::Timers | LaneName::Lock(_) => {
                false
            }
        },
        LaneName::Queue(p) => match b {
            LaneName::Queue(q) => q.0 == p.0,
            LaneName::Object(_) | LaneName::Threads(_) | LaneName::Timers | LaneName::Lock(_) => {
                false
            }
        },
        LaneName::Threads(p) => match b {
            LaneName::Threads(q) => q.0 == p.0,
            LaneName::Object(_) | LaneName::Queue(_) | LaneName::Timers | LaneName::Lock(_) => {
                false
            }
        },
        LaneName::Timers => match b {
            LaneName::Timers => true,
            LaneName::Object(_) | LaneName::Queue(_) | LaneName::Threads(_) | LaneName::Lock(_) => {
                false
            }
        },
        LaneName::Lock(k) => match b {
            LaneName::Lock(j) => j.0 == k.0,
            LaneName::Object(_) | LaneName::Queue(_) | LaneName::Threads(_) | LaneName::Timers => {
                false
            }
        },
    }
}

/// Whether the lane is one of these.
fn touches(lane: LaneName, lanes: &[LaneName]) -> bool
    ensures { result ≡ is_among lane lanes.now }
{
    lanes.iter().any(|other| same(lane, *other))
}

/// The threads, if they are held and touched, take in the event and note it.
fn touch_group<'s, N: Plan + Shared>(
    lane: &mut Option<MutexGuard<Lane<N, Group<'s>>>>,
    marks: &Marks,
    pass: &mut Pass,
    step: &Step,
)
    requires table { (table_of marks.now ≡ N.table) × (pass_table pass.old ≡ N.table) }
    requires script { (step.now.script.now ≡ N.script) × IsTrue (fits N.script) }
    requires step { IsStep N.script (pass_view pass.old) step.now.number step.now.plan.now.event
        step.now.numbers.now step.now.plan.now.asks }
    requires ready { IfSome
        (in_each lane.old (λ g. kept (mutex_guard_value g).state (mutex_guard_value g).log)) (λ k.
        IsTrue (is_among (LaneName.Threads k.state.cpu) step.now.plan.now.lanes) →
        IsReady step.now.number step.now.numbers.now k.log ×
        MayLeaveGroup N.script step.now.stand.now step.now.plan.now.event k.state) }
    ensures table { pass_table pass.new ≡ N.table }
    ensures learns { Learns (pass_view pass.old) (pass_view pass.new) }
    ensures noted { IfSome
        (in_each lane.old (λ g. kept (mutex_guard_value g).state (mutex_guard_value g).log)) (λ k.
        IsTrue (is_among (LaneName.Threads k.state.cpu) step.now.plan.now.lanes) →
        LeavesGroup N.script step.now.number step.now.stand.now step.now.plan.now.event
        step.now.plan.now.asks k (pass_view pass.new)) }
{
    if let Some(lane) = lane {
        let lane = &mut **lane;
        if touches(
            LaneName::Threads(lane.state.cpu()),
            step.plan.lanes.as_slice(),
        ) {
            note_group::<N>(lane, marks, pass, step);
        }
    }
}

/// The timers, if they are held and touched, take in the event and note it.
fn touch_timers<N: Plan + Shared>(
    lane: &mut Option<MutexGuard<Lane<N, Clock>>>,
    marks: &Marks,
    pass: &mut Pass,
    step: &Step,
)
    requires table { (table_of marks.now ≡ N.table) × (pass_table pass.old ≡ N.table) }
    requires script { step.now.script.now ≡ N.script }
    requires step { IsStep N.script (pass_view pass.old) step.now.number step.now.plan.now.event
        step.now.numbers.now step.now.plan.now.asks }
    requires ready { IfSome
        (in_each lane.old (λ g. kept (mutex_guard_value g).state (mutex_guard_value g).log)) (λ k.
        IsTrue (is_among LaneName.Timers step.now.plan.now.lanes) →
        IsReady step.now.number step.now.numbers.now k.log ×
        MayLeaveTimers N.script step.now.plan.now.event k.state) }
    ensures table { pass_table pass.new ≡ N.table }
    ensures learns { Learns (pass_view pass.old) (pass_view pass.new) }
    ensures noted { IfSome
        (in_each lane.old (λ g. kept (mutex_guard_value g).state (mutex_guard_value g).log)) (λ k.
        IsTrue (is_among LaneName.Timers step.now.plan.now.lanes) →
        LeavesTimers N.script step.now.number step.now.stand.now step.now.plan.now.event
        step.now.plan.now.asks k (pass_view pass.new)) }
{
    if let Some(lane) = lane {
        let lane = &mut **lane;
        if touches(LaneName::Timers, step.plan.lanes.as_slice()) {
            note_timers::<N>(lane, marks, pass, step);
        }
    }
}

/// The spin lock, if it is held and touched, takes in the event and notes it.
fn touch_spin<N: Plan + Shared>(
    lane: &mut Option<MutexGuard<Lane<N, Spin>>>,
    marks: &Marks,
    pass: &mut Pass,
    step: &Step,
)
    requires table { (table_of marks.now ≡ N.table) × (pass_table pass.old ≡ N.table) }
    requires step { IsStep N.script (pass_view pass.old) step.now.number step.now.plan.now.event
        step.now.numbers.now step.now.plan.now.asks }
    requires ready { IfSome
        (in_each lane.old (λ g. kept (mutex_guard_value g).state (mutex_guard_value g).log)) (λ k.
        IsTrue (is_among (LaneName.Lock k.state.lock) step.now.plan.now.lanes) →
        IsReady step.now.number step.now.numbers.now k.log ×
        MayLeaveSpin N.script step.now.stand.now step.now.plan.now.event) }
    ensures table { pass_table pass.new ≡ N.table }
    ensures learns { Learns (pass_view pass.old) (pass_view pass.new) }
    ensures noted { IfSome
        (in_each lane.old (λ g. kept (mutex_guard_value g).state (mutex_guard_value g).log)) (λ k.
        IsTrue (is_among (LaneName.Lock k.state.lock) step.now.plan.now.lanes) →
        LeavesSpin N.script step.now.number step.now.plan.now.event step.now.plan.now.asks k
        (pass_view pass.new)) }
{
    if let Some(lane) = lane {
        let lane = &mut **lane;
        if touches(
            LaneName::Lock(lane.state.lock()),
            step.plan.lanes.as_slice(),
        ) {
            note_spin::<N>(lane, marks, pass, step);
        }
    }
}

/// Whether the object is held and touched.
fn object_touched<N: Plan + Shared>(
    lane: &Option<MutexGuard<Lane<N, Object>>>,
    lanes: &[LaneName],
) -> bool
    ensures { result ≡ is_touched (in_each
        (in_each lane.now (λ g. kept (mutex_guard_value g).state (mutex_guard_value g).log))
        object_name)
        lanes.now }
{
    match lane {
        Some(lane) => touches(LaneName::Object(lane.state.dpc()), lanes),
        None => false,
    }
}

/// Whether the queue is held and touched.
fn queue_touched<N: Plan + Shared>(
    lane: &Option<MutexGuard<Lane<N, Queue>>>,
    lanes: &[LaneName],
) -> bool
    ensures { result ≡ is_touched (in_each
        (in_each lane.now (λ g. kept (mutex_guard_value g).state (mutex_guard_value g).log))
        queue_name)
        lanes.now }
{
    match lane {
        Some(lane) => touches(LaneName::Queue(lane.state.cpu()), lanes),
        None => false,
    }
}

/// The object, if it is held, takes in the event alone and notes it.
fn touch_object<N: Plan + Shared>(
    lane: &mut Option<MutexGuard<Lane<N, Object>>>,
    marks: &Marks,
    pass: &mut Pass,
    step: &Step,
)
    requires table { (table_of marks.now ≡ N.table) × (pass_table pass.old ≡ N.table) }
    requires step { IsStep N.script (pass_view pass.old) step.now.number step.now.plan.now.event
        step.now.numbers.now step.now.plan.now.asks }
    requires ready { IfSome
        (in_each lane.old (λ g. kept (mutex_guard_value g).state (mutex_guard_value g).log)) (λ k.
        IsReady step.now.number step.now.numbers.now k.log ×
        MayLeaveObject N.script step.now.number step.now.plan.now.event k.state) }
    ensures table { pass_table pass.new ≡ N.table }
    ensures learns { Learns (pass_view pass.old) (pass_view pass.new) }
    ensures noted { IfSome
        (in_each lane.old (λ g. kept (mutex_guard_value g).state (mutex_guard_value g).log)) (λ k.
        LeavesObject N.script step.now.number step.now.plan.now.event step.now.plan.now.asks k
        (pass_view pass.new)) }
{
    if let Some(lane) = lane {
        note_object::<N>(&mut **lane, marks, pass, step);
    }
}

/// The queue, if it is held, takes in the event alone and notes it.
fn touch_queue<N: Plan + Shared>(
    lane: &mut Option<MutexGuard<Lane<N, Queue>>>,
    marks: &Marks,
    pass: &mut Pass,
    step: &Step,
)
    requires table { (table_of marks.now ≡ N.table) × (pass_table pass.old ≡ N.table) }
    requires step { IsStep N.script (pass_view pass.old) step.now.number step.now.plan.now.event
        step.now.numbers.now step.now.plan.now.asks }
    requires ready { IfSome
        (in_each lane.old (λ g. kept (mutex_guard_value g).state (mutex_guard_value g).log)) (λ k.
        IsReady step.now.number step.now.numbers.now k.log ×
        MayLeaveQueue N.script step.now.number step.now.plan.now.event k.state) }
    ensures table { pass_table pass.new ≡ N.table }
    ensures learns { Learns (pass_view pass.old) (pass_view pass.new) }
    ensures noted { (objects : List ObjectState) →
        IfSome (in_each lane.old (λ g. kept (mutex_guard_value g).state (mutex_guard_value g).log))
        (λ k.
        LeavesQueue N.script step.now.number step.now.plan.now.event objects step.now.plan.now.asks
        k (pass_view pass.new)) }
{
    if let Some(lane) = lane {
        note_queue::<N>(&mut **lane, marks, pass, step);
    }
}

/// The object and the queue, if they are held, take in the event together and note it.
fn touch_both<N: Plan + Shared>(
    object: &mut Option<MutexGuard<Lane<N, Object>>>,
    queue: &mut Option<MutexGuard<Lane<N, Queue>>>,
    marks: &Marks,
    pass: &mut Pass,
    step: &Step,
)
    requires table { (table_of marks.now ≡ N.table) × (pass_table pass.old ≡ N.table) }
    requires cpu { step.now.stand.now.cpu ≡ step.now.plan.now.event.cpu }
    requires step { IsStep N.script (pass_view pass.old) step.now.number step.now.plan.now.event
        step.now.numbers.now step.now.plan.now.asks }
    requires ready { DpcsReady N.script step.now.number step.now.plan.now.event step.now.numbers.now
        true true
        (in_each object.old (λ g. kept (mutex_guard_value g).state (mutex_guard_value g).log))
        (in_each queue.old (λ g. kept (mutex_guard_value g).state (mutex_guard_value g).log)) }
    ensures table { pass_table pass.new ≡ N.table }
    ensures learns { Learns (pass_view pass.old) (pass_view pass.new) }
    ensures noted { DpcsLeft N.script step.now.number step.now.plan.now.event step.now.plan.now.asks
        (pass_view pass.new) true true
        (in_each object.old (λ g. kept (mutex_guard_value g).state (mutex_guard_value g).log))
        (in_each queue.old (λ g. kept (mutex_guard_value g).state (mutex_guard_value g).log)) }
{
    if let Some(object) = object {
        if let Some(queue) = queue {
            note_both::<N>(&mut **object, &mut **queue, marks, pass, step);
        }
    }
}

/// The object and the queue, each if it is held and touched, take in the event and note it.
fn touch_dpcs<N: Plan + Shared>(
    object: &mut Option<MutexGuard<Lane<N, Object>>>,
    queue: &mut Option<MutexGuard<Lane<N, Queue>>>,
    marks: &Marks,
    pass: &mut Pass,
    step: &Step,
)
    requires table { (table_of marks.now ≡ N.table) × (pass_table pass.old ≡ N.table) }
    requires cpu { step.now.stand.now.cpu ≡ step.now.plan.now.event.cpu }
    requires step { IsStep N.script (pass_view pass.old) step.now.number step.now.plan.now.event
        step.now.numbers.now step.now.plan.now.asks }
    requires ready { DpcsReady N.script step.now.number step.now.plan.now.event step.now.numbers.now
        (is_touched (in_each
        (in_each object.old (λ g. kept (mutex_guard_value g).state (mutex_guard_value g).log))
        object_name)
        step.now.plan.now.lanes)
        (is_touched (in_each
        (in_each queue.old (λ g. kept (mutex_guard_value g).state (mutex_guard_value g).log))
        queue_name)
        step.now.plan.now.lanes)
        (in_each object.old (λ g. kept (mutex_guard_value g).state (mutex_guard_value g).log))
        (in_each queue.old (λ g. kept (mutex_guard_value g).state (mutex_guard_value g).log)) }
    ensures table { pass_table pass.new ≡ N.table }
    ensures learns { Learns (pass_view pass.old) (pass_view pass.new) }
    ensures noted { DpcsLeft N.script step.now.number step.now.plan.now.event step.now.plan.now.asks
        (pass_view pass.new)
        (is_touched (in_each
        (in_each object.old (λ g. kept (mutex_guard_value g).state (mutex_guard_value g).log))
        object_name)
        step.now.plan.now.lanes)
        (is_touched (in_each
        (in_each queue.old (λ g. kept (mutex_guard_value g).state (mutex_guard_value g).log))
        queue_name)
        step.now.plan.now.lanes)
        (in_each object.old (λ g. kept (mutex_guard_value g).state (mutex_guard_value g).log))
        (in_each queue.old (λ g. kept (mutex_guard_value g).state (mutex_guard_value g).log)) }
{
    let lanes = step.plan.lanes.as_slice();
    let with_object = object_touched::<N>(object, lanes);
    let with_queue = queue_touched::<N>(queue, lanes);
    if with_object {
        if with_queue {
            touch_both::<N>(object, queue, marks, pass, step);
        } else {
            touch_object::<N>(object, marks, pass, step);
        }
    } else if with_queue {
        touch_queue::<N>(queue, marks, pass, step);
    }
}

impl<'l, 's, N: Plan + Shared> Locked<'l, 's, N> {
    /// Each of the held lanes that the event touches takes it in, and notes it.
    pub(crate) fn note(&mut self, marks: &Marks, pass: &mut Pass, step: &Step)
        requires table { (table_of marks.now ≡ N.table) × (pass_table pass.old ≡ N.table) }
        requires script { (step.now.script.now ≡ N.script) × IsTrue (fits N.script) }
        requires cpu { step.now.stand.now.cpu ≡ step.now.plan.now.event.cpu }
        requires step { IsStep N.script (pass_view pass.old) step.now.number step.now.plan.now.event
            step.now.numbers.now step.now.plan.now.asks }
        requires ready { AreReadyFor N.script step.now.number step.now.stand.now
            step.now.plan.now.event step.now.plan.now.lanes step.now.numbers.now self.old }
        ensures table { pass_table pass.new ≡ N.table }
        ensures learns { Learns (pass_view pass.old) (pass_view pass.new) }
        ensures left { AreLeftBy N.script step.now.number step.now.stand.now step.now.plan.now.event
            step.now.plan.now.lanes step.now.plan.now.asks self.old (pass_view pass.new) }
    {
        touch_dpcs::<N>(&mut self.object, &mut self.queue, marks, pass, step);
        touch_group::<N>(&mut self.group, marks, pass, step);
        touch_timers::<N>(&mut self.timers, marks, pass, step);
        touch_spin::<N>(&mut self.spin_lock, marks, pass, step);
    }
}
