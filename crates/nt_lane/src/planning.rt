//! What an act is to make in the states of held lanes.
ghost use Rattle.std.specs.Prelude.{◌≡◌, ◌<◌, ◌^◌, All, IfSome, IsSome, IsTrue, option_map};
ghost use Rattle.nt_event.specs.Acting.{acted_event};
ghost use Rattle.nt_event.specs.Frames.{due_of};
ghost use Rattle.nt_event.specs.Lanes.{what_lanes};
ghost use Rattle.nt_event.specs.Requests.{what_asks};
ghost use Rattle.nt_event.specs.Routines.{kind_of};
ghost use Rattle.nt_event.specs.Script.{fits};
ghost use Rattle.nt_event.specs.declared.jobs.Lane.TheVariants.{Timers as TimersLane};
ghost use Rattle.nt_event.specs.Acts.{KindsFit, StandFits, job_fits};
ghost use Rattle.nt_lane.specs.Answers.{IsHeld, held_lanes, threads_told};
ghost use Rattle.nt_lane.specs.Decided.{IsEvent};
ghost use Rattle.nt_lane_record.specs.Held.{IsGroupThere, IsObjectThere, IsQueueThere, IsSpinThere};
ghost use Rattle.nt_lane.specs.Leaving.{Leaves, MakerRuns};
ghost use Rattle.nt_lane.specs.Plans.{IsPlanned};
ghost use Rattle.nt_states.specs.Given.{IsGiven, RunsOwn};
ghost use Rattle.nt_states.specs.LaneLists.{LaneFits};
ghost use Rattle.nt_states.specs.Reads.{AreHeld};
ghost use Rattle.nt_timer.specs.Laws.{IsSized};
ghost use Rattle.nt_states.specs.ThreadFits.{RunsHere};

use crate::deciding::{Decided, decide};
use crate::held::Held;
use crate::needs::{Needs, needs_of_job};
use crate::reading::{holds_all, reads_event};
use nt_event::{Command, Event, Job, Lane, Script, What};
use nt_floor::ActRefusal;
use nt_frame::StandView;
use nt_lane_record::{Clock, Group, Object, Queue, Spin};
use nt_states::{Asks, LaneAnswers, Touched};
use nt_thread_lanes::named_thread;

/// An event to be made, with the lanes that it touches, which are held, and what it asks for.
#[derive(Drop)]
pub(crate) struct Plan {
    pub(crate) event: Event,
    pub(crate) due: Option<u64>,
    pub(crate) lanes: Touched,
    pub(crate) asks: Asks,
}

/// What came of a job in the states of held lanes. It is written in place, since a plan is
/// expensive to move.
#[derive(Drop)]
pub(crate) enum Planned {
    /// This event is to be made.
    Event(Plan),
    /// There is none.
    Refused(ActRefusal),
    /// It takes these locks.
    Again(Needs),
}

impl Planned {
    ghost use Rattle.nt_lane.specs.declared.planning.Planned.TheVariants as planned;

    /// Leaves that it takes these locks.
    fn set_again(&mut self, needs: Needs)
        ensures { self.new ≡ planned.Again needs }
    {
        *self = Planned::Again(needs);
    }

    /// Leaves that there is no event, for this reason.
    fn set_refused(&mut self, refusal: ActRefusal)
        ensures { self.new ≡ planned.Refused refusal }
    {
        *self = Planned::Refused(refusal);
    }
}

/// Pending APCs are of their objects' kinds, where a group is held; where none is, none is pending.
fn kinds(script: &Script, group: Option<&Group>)
    requires { IfSome group (λ g. IsGroupThere script.now g.now) }
    ensures { All (λ x. All (λ pick. pick.kind ≡ kind_of script.now pick.apc) x.apcs.pending)
        (threads_told script.now (option_map (λ g. g.now) group.entry)) }
{
    let _script = script;
    match group {
        Some(group) => group.inner().kinds(),
        None => {}
    }
}

/// Whether the processor's thread, if there is one, runs in the group.
fn runs_in(group: &Group, stand: &StandView) -> bool
    requires stand { StandFits group.now.threads.script stand.now }
    requires own { RunsOwn group.now.threads.script stand.now }
    ensures { IsTrue result → IfSome stand.now.thread (RunsHere group.now.threads stand.now) }
{
    match stand.thread() {
        Some(thread) => group.inner().is_running(thread),
        None => true,
    }
}

/// Whether the maker of an event that names no thread runs in the group, where one is held.
fn maker_runs(script: &Script, group: Option<&Group>, stand: &StandView, what: &What) -> bool
    requires group { IfSome group (λ g. IsGroupThere script.now g.now) }
    requires stand { StandFits script.now stand.now }
    requires own { RunsOwn script.now stand.now }
    ensures { IsTrue result →
        MakerRuns script.now (option_map (λ g. g.now) group.entry) stand.now what.now }
{
    match group {
        Some(group) => match named_thread(script, what) {
            Some(_) => true,
            None => runs_in(group, stand),
        },
        None => true,
    }
}

/// Whether the thread of a Rundown leaves.
fn leaves(script: &Script, group: Option<&Group>, stand: &StandView, job: &Job) -> bool
    requires group { IfSome group (λ g. IsGroupThere script.now g.now) }
    requires stand { StandFits script.now stand.now }
    ensures { IsTrue result →
        Leaves (threads_told script.now (option_map (λ g. g.now) group.entry)) stand.now job.now }
{
    let _script = script;
    match job {
        Job::Rundown => match stand.thread() {
            Some(thread) => match group {
                Some(group) => group.inner().is_leaving(thread),
                None => false,
            },
            None => true,
        },
        Job::Call(_)
        | Job::Fire(_)
        | Job::Free(_)
        | Job::Drain
        | Job::Apcs
        | Job::Threaded
        | Job::Idle
        | Job::Pick(_)
        | Job::Switch(_)
        | Job::Rewait
        | Job::ToUser
        | Job::UserEnd
        | Job::Leave => true,
    }
}

/// Whether the timers are held where the event calls a delay.
fn reads_due(held: &Held, what: &What) -> bool
    ensures { IsTrue result → IsSome (due_of what.now 0) → IsHeld held.now TimersLane }
{
    match what {
        What::Call {
            command: Command::Delay(_, _, _),
            ..
        } => held.holds(Lane::Timers),
        What::Call { .. }
        | What::Look { .. }
        | What::Begin { .. }
        | What::Normal { .. }
        | What::End { .. }
        | What::Expire { .. }
        | What::Fire { .. }
        | What::Clean { .. }
        | What::Switch { .. }
        | What::Rewait { .. }
        | What::Flush { .. }
        | What::Gone { .. }
        | What::Free { .. }
        | What::Rest => true,
    }
}

/// Plans the event of a job, whose lanes are held, with what it asks for.
fn plan_held(
    held: &Held,
    stand: &StandView,
    job: &Job,
    what: &What,
    lanes: Touched,
    planned: &mut Planned,
)
    requires event { IsEvent held.now stand.now job.now what.now }
    requires lanes { lanes ≡ what_lanes held.now.script stand.now what.now (held_lanes held.now) }
    requires named { All (LaneFits held.now.script) lanes }
    requires held { AreHeld (IsHeld held.now) lanes }
    requires due { IsSome (due_of what.now 0) → IsHeld held.now TimersLane }
    requires kinds { KindsFit held.now.script (held_lanes held.now) }
    requires runs { MakerRuns held.now.script held.now.group stand.now what.now }
    requires leaves { Leaves (held_lanes held.now).threads stand.now job.now }
    ensures { IsPlanned held.now stand.now job.now planned.new }
{
    let _job = job;
    held.there();
    let event = nt_states::event(held, stand, what);
    let due = nt_states::due(held, what);
    let mut asks = Asks::none();
    nt_states::event_asks(held, stand, what, &mut asks);
    *planned = Planned::Event(Plan {
        event,
        due,
        lanes,
        asks,
    });
}

/// Writes what becomes of an event that is decided: it is made where the lanes that are held are
/// exactly those that its job reads and those that it touches, so that it is never made under a
/// lock that it doesn't need.
fn plan_event(
    script: &Script,
    held: &Held,
    group: Option<&Group>,
    job: &Job,
    stand: &StandView,
    what: &What,
    planned: &mut Planned,
)
    requires script { script.now ≡ held.now.script }
    requires group { held.now.group ≡ option_map (λ g. g.now) group }
    requires there { IfSome group (λ g. IsGroupThere script.now g.now) }
    requires stand { StandFits script.now stand.now }
    requires kinds { KindsFit held.now.script (held_lanes held.now) }
    requires event { IsEvent held.now stand.now job.now what.now }
    ensures { IsPlanned held.now stand.now job.now planned.new }
{
    held.there();
    let first = needs_of_job(script, job, stand);
    if !leaves(script, group, stand, job) || !maker_runs(script, group, stand, what) {
        planned.set_again(first);
        return;
    }
    if !reads_due(held, what) || !reads_event(held, what) {
        planned.set_again(first);
        return;
    }
    let lanes = nt_states::event_lanes(held, stand, what);
    let needs = first.with_all(lanes.as_slice());
    if held.needs() == needs && holds_all(held, lanes.as_slice()) {
        plan_held(held, stand, job, what, lanes, planned);
    } else {
        planned.set_again(needs);
    }
}

/// Writes what a job of a processor that stands so comes to in the states of held lanes.
pub(crate) fn plan_job(
    script: &Script,
    object: Option<&Object>,
    queue: Option<&Queue>,
    group: Option<&Group>,
    timers: Option<&Clock>,
    spin_lock: Option<&Spin>,
    job: &Job,
    stand: &StandView,
    planned: &mut Planned,
)
    requires fits { IsTrue (fits script.now) }
    requires object { IfSome object (λ o. IsObjectThere script.now o.now) }
    requires queue { IfSome queue (λ q. IsQueueThere script.now q.now) }
    requires group { IfSome group (λ g. IsGroupThere script.now g.now) }
    requires timers { IfSome timers (λ t. IsSized script.now t.now) }
    requires spin_lock { IfSome spin_lock (λ x. IsSpinThere script.now x.now) }
    requires job { IsTrue (job_fits script.now job.now) }
    requires stand { StandFits script.now stand.now }
    ensures { IsPlanned (record {
      script = script.now;
      object = option_map (λ o. o.now) object.entry;
      queue = option_map (λ q. q.now) queue.entry;
      group = option_map (λ g. g.now) group.entry;
      timers = option_map (λ t. t.now) timers.entry;
      spin_lock = option_map (λ x. x.now) spin_lock.entry;
    })
        stand.now job.now planned.new }
{
    kinds(script, group);
    match Held::new(script, object, queue, group, timers, spin_lock) {
        Some(held) => match decide(&held, job, stand) {
            Decided::Event(what) => plan_event(script, &held, group, job, stand, &what, planned),
            Decided::Refused(refusal) => planned.set_refused(refusal),
            Decided::Unknown => planned.set_again(needs_of_job(script, job, stand)),
        },
        None => planned.set_again(needs_of_job(script, job, stand)),
    }
}
