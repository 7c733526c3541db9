//! An event on the lanes that it touches: each takes it in, and notes it.
ghost use Rattle.std.specs.Prelude.{◌≡◌, ◌<◌, ◌≤◌, IsTrue, List};
ghost use Rattle.nt_dpc.specs.Laws.{IsObject};
ghost use Rattle.nt_event.specs.LaneStates.{OfLock, OfObject, OfQueue, OfTimers};
ghost use Rattle.nt_event.specs.Objects.{ObjectState};
ghost use Rattle.nt_event.specs.Script.{fits};
ghost use Rattle.nt_event.specs.Timers.{timers_after};
ghost use Rattle.nt_lane_record.specs.Held.{group_content};
ghost use Rattle.nt_lane_record.specs.Records.{IsNoted, told_then};
ghost use Rattle.nt_lane.specs.Steps.{IsReady, IsStep, KnowsLeft, MayLeaveBoth, MayLeaveGroup};
ghost use Rattle.nt_lane.specs.Steps.{MayLeaveObject, MayLeaveQueue, MayLeaveSpin, MayLeaveTimers};
ghost use Rattle.nt_lane.specs.Steps.{note_left, object_left, queue_left, spin_left};
ghost use Rattle.nt_lane_record.specs.Passes.{Learns};
ghost use Rattle.nt_mark.specs.Names.{pass_table, pass_view, table_of};
ghost use Rattle.nt_states.specs.ThreadLanes.{left};

use crate::planning::Plan;
use nt_event::Script;
use nt_frame::StandView;
use nt_lane_record::{Clock, Group, Holds, Lane, Numbers, Object, Queue, Record, Spin, leave_both};
use nt_mark::{Marks, Pass, Shared};

/// An event that was drawn, of a processor that stands so, with the numbers of its lanes.
#[derive(Clone, Copy)]
pub(crate) struct Step<'p> {
    pub(crate) script: &'p Script,
    pub(crate) number: u64,
    pub(crate) stand: &'p StandView<'p>,
    pub(crate) plan: &'p Plan,
    pub(crate) numbers: &'p Numbers,
}

/// A lane's record notes the event of a step, with the content that the event leaves.
fn note_step<N: nt_event::Plan + Shared, S: Holds>(
    log: &mut Record<N>,
    marks: &Marks,
    pass: &mut Pass,
    step: &Step,
    content: &S,
)
    requires table { (table_of marks.now ≡ N.table) × (pass_table pass.old ≡ N.table) }
    requires step { IsStep N.script (pass_view pass.old) step.now.number step.now.plan.now.event
        step.now.numbers.now step.now.plan.now.asks }
    requires ready { IsReady step.now.number step.now.numbers.now log.old }
    ensures table { pass_table pass.new ≡ N.table }
    ensures noted { IsNoted log.old log.new (pass_view pass.old) (pass_view pass.new)
        (note_left N.script step.now.number step.now.plan.now.asks (S.content content.now) log.old)
        (told_then N.script.cpus step.now.number step.now.plan.now.asks log.old.told) }
{
    log.note::<S>(
        marks,
        pass,
        step.number,
        &step.plan.event,
        step.numbers.as_slice(),
        step.plan.asks.as_slice(),
        content,
    );
}

/// The threads of a processor take in the event, and note it.
pub(crate) fn note_group<'s, N: nt_event::Plan + Shared>(
    lane: &mut Lane<N, Group<'s>>,
    marks: &Marks,
    pass: &mut Pass,
    step: &Step,
)
    requires table { (table_of marks.now ≡ N.table) × (pass_table pass.old ≡ N.table) }
    requires script { (step.now.script.now ≡ N.script) × IsTrue (fits N.script) }
    requires step { IsStep N.script (pass_view pass.old) step.now.number step.now.plan.now.event
        step.now.numbers.now step.now.plan.now.asks }
    requires ready { IsReady step.now.number step.now.numbers.now lane.old.log }
    requires may { MayLeaveGroup N.script step.now.stand.now
        step.now.plan.now.event lane.old.state }
    ensures table { pass_table pass.new ≡ N.table }
    ensures learns { Learns (pass_view pass.old) (pass_view pass.new) }
    ensures noted { KnowsLeft N.script step.now.number step.now.plan.now.asks
        (group_content (record lane.old.state {
          threads =
              left step.now.number step.now.stand.now step.now.plan.now.event
              lane.old.state.threads;
        }))
        lane.old.log (pass_view pass.new) }
{
    lane.state
        .leave(step.script, step.number, step.stand, &step.plan.event);
    note_step::<N, Group<'s>>(&mut lane.log, marks, pass, step, &lane.state);
}

/// The timers take in the event, and note it.
pub(crate) fn note_timers<N: nt_event::Plan + Shared>(
    lane: &mut Lane<N, Clock>,
    marks: &Marks,
    pass: &mut Pass,
    step: &Step,
)
    requires table { (table_of marks.now ≡ N.table) × (pass_table pass.old ≡ N.table) }
    requires script { step.now.script.now ≡ N.script }
    requires step { IsStep N.script (pass_view pass.old) step.now.number step.now.plan.now.event
        step.now.numbers.now step.now.plan.now.asks }
    requires ready { IsReady step.now.number step.now.numbers.now lane.old.log }
    requires may { MayLeaveTimers N.script step.now.plan.now.event lane.old.state }
    ensures table { pass_table pass.new ≡ N.table }
    ensures learns { Learns (pass_view pass.old) (pass_view pass.new) }
    ensures noted { KnowsLeft N.script step.now.number step.now.plan.now.asks
        (OfTimers (timers_after N.script step.now.number step.now.stand.now
        step.now.plan.now.event lane.old.state))
        lane.old.log (pass_view pass.new) }
{
    lane.state
        .leave(step.script, step.number, step.stand, &step.plan.event);
    note_step::<N, Clock>(&mut lane.log, marks, pass, step, &lane.state);
}

/// A spin lock takes in the event, and notes it.
pub(crate) fn note_spin<N: nt_event::Plan + Shared>(
    lane: &mut Lane<N, Spin>,
    marks: &Marks,
    pass: &mut Pass,
    step: &Step,
)
    requires table { (table_of marks.now ≡ N.table) × (pass_table pass.old ≡ N.table) }
    requires step { IsStep N.script (pass_view pass.old) step.now.number step.now.plan.now.event
        step.now.numbers.now step.now.plan.now.asks }
    requires ready { IsReady step.now.number step.now.numbers.now lane.old.log }
    requires may { MayLeaveSpin N.script step.now.stand.now step.now.plan.now.event }
    ensures table { pass_table pass.new ≡ N.table }
    ensures learns { Learns (pass_view pass.old) (pass_view pass.new) }
    ensures noted { KnowsLeft N.script step.now.number step.now.plan.now.asks
        (OfLock (spin_left N.script step.now.plan.now.event lane.old.state).state) lane.old.log
        (pass_view pass.new) }
{
    lane.state.leave(step.stand.cpu(), &step.plan.event.what);
    note_step::<N, Spin>(&mut lane.log, marks, pass, step, &lane.state);
}

/// A DPC object takes in the event, which touches no queue, and notes it.
pub(crate) fn note_object<N: nt_event::Plan + Shared>(
    lane: &mut Lane<N, Object>,
    marks: &Marks,
    pass: &mut Pass,
    step: &Step,
)
    requires table { (table_of marks.now ≡ N.table) × (pass_table pass.old ≡ N.table) }
    requires step { IsStep N.script (pass_view pass.old) step.now.number step.now.plan.now.event
        step.now.numbers.now step.now.plan.now.asks }
    requires ready { IsReady step.now.number step.now.numbers.now lane.old.log }
    requires may { MayLeaveObject N.script step.now.number step.now.plan.now.event lane.old.state }
    ensures table { pass_table pass.new ≡ N.table }
    ensures learns { Learns (pass_view pass.old) (pass_view pass.new) }
    ensures noted { KnowsLeft N.script step.now.number step.now.plan.now.asks
        (OfObject (object_left step.now.number step.now.plan.now.event lane.old.state).state)
        lane.old.log (pass_view pass.new) }
{
    lane.state.leave(&step.plan.event.what);
    note_step::<N, Object>(&mut lane.log, marks, pass, step, &lane.state);
}

/// A DPC queue takes in the event of its processor, which touches no object, and notes it.
pub(crate) fn note_queue<N: nt_event::Plan + Shared>(
    lane: &mut Lane<N, Queue>,
    marks: &Marks,
    pass: &mut Pass,
    step: &Step,
)
    requires table { (table_of marks.now ≡ N.table) × (pass_table pass.old ≡ N.table) }
    requires step { IsStep N.script (pass_view pass.old) step.now.number step.now.plan.now.event
        step.now.numbers.now step.now.plan.now.asks }
    requires ready { IsReady step.now.number step.now.numbers.now lane.old.log }
    requires may { MayLeaveQueue N.script step.now.number step.now.plan.now.event lane.old.state }
    ensures table { pass_table pass.new ≡ N.table }
    ensures learns { Learns (pass_view pass.old) (pass_view pass.new) }
    ensures noted { (objects : List ObjectState) →
        KnowsLeft N.script step.now.number step.now.plan.now.asks
        (OfQueue
        (queue_left N.script step.now.number step.now.plan.now.event objects lane.old.state).state)
        lane.old.log (pass_view pass.new) }
{
    lane.state.leave(&step.plan.event.what);
    note_step::<N, Queue>(&mut lane.log, marks, pass, step, &lane.state);
}

/// A DPC object and the queue that it is inserted into, removed from or taken from take in the
/// event, and note it.
pub(crate) fn note_both<N: nt_event::Plan + Shared>(
    object: &mut Lane<N, Object>,
    queue: &mut Lane<N, Queue>,
    marks: &Marks,
    pass: &mut Pass,
    step: &Step,
)
    requires table { (table_of marks.now ≡ N.table) × (pass_table pass.old ≡ N.table) }
    requires cpu { step.now.stand.now.cpu ≡ step.now.plan.now.event.cpu }
    requires step { IsStep N.script (pass_view pass.old) step.now.number step.now.plan.now.event
        step.now.numbers.now step.now.plan.now.asks }
    requires ready_object { IsReady step.now.number step.now.numbers.now object.old.log }
    requires ready_queue { IsReady step.now.number step.now.numbers.now queue.old.log }
    requires known { (objects : List ObjectState) × IsObject N.script objects object.old.state }
    requires may { MayLeaveBoth N.script step.now.number step.now.plan.now.event object.old.state
        queue.old.state }
    ensures table { pass_table pass.new ≡ N.table }
    ensures learns { Learns (pass_view pass.old) (pass_view pass.new) }
    ensures object { KnowsLeft N.script step.now.number step.now.plan.now.asks
        (OfObject (object_left step.now.number step.now.plan.now.event object.old.state).state)
        object.old.log (pass_view pass.new) }
    ensures queue { (objects : List ObjectState) → IsObject N.script objects object.old.state →
        KnowsLeft N.script step.now.number step.now.plan.now.asks
        (OfQueue
        (queue_left N.script step.now.number step.now.plan.now.event objects queue.old.state).state)
        queue.old.log (pass_view pass.new) }
{
    leave_both(
        &mut object.state,
        &mut queue.state,
        step.number,
        step.stand.cpu(),
        &step.plan.event.what,
    );
    note_step::<N, Object>(&mut object.log, marks, pass, step, &object.state);
    note_step::<N, Queue>(&mut queue.log, marks, pass, step, &queue.state);
}
