//! A try to make the event of a job under the locks that are held.
ghost use Rattle.std.specs.List.Sorted.{IsStrictlyIncreasing};
ghost use Rattle.std.specs.Prelude.{◌≡◌, ◌≤◌, ◌<◌, All, IsTrue};
ghost use Rattle.nt_event.specs.Lanes.{lane_count};
ghost use Rattle.nt_event.specs.Script.{fits};
ghost use Rattle.nt_event.specs.Acts.{StandFits, job_fits};
ghost use Rattle.nt_lane.specs.Locks.{AreKnownBy, AreRoomy, states_of};
ghost use Rattle.nt_lane.specs.Plans.{IsPlan, IsPlanned};
ghost use Rattle.nt_lane.specs.Steps.{IsStep};
ghost use Rattle.nt_lane.specs.Tries.{HasMade, IsMade, IsTried};
ghost use Rattle.nt_lane.specs.Views.{drawable_of};
ghost use Rattle.nt_mark.specs.Names.{cpus_of, lanes_of, pass_table, pass_view, table_of};
ghost use Rattle.nt_states.specs.LaneLists.{AskFits};

use crate::locks::Locked;
use crate::marking::mark_all;
use crate::needs::Needs;
use crate::noting::Step;
use crate::planning::{Plan, Planned};
use nt_event::{Event, Job, Script};
use nt_floor::{ActRefusal, Made, Seen};
use nt_frame::StandView;
use nt_lane_record::{Numbers, touched_numbers};
use nt_mark::{Marks, Pass, Shared};
use nt_states::tell_own;

/// What came of a try under locks.
pub(crate) enum Tried {
    /// The event was made, and is written.
    Done(Made),
    /// There is none to be made, or no memory.
    Refused(ActRefusal),
    /// It takes these locks.
    Again(Needs),
}

/// Draws the number of a plan's event, as touching the lanes of these numbers, and marks it for
/// what it asks.
fn draw_plan<N: nt_event::Plan + Shared>(
    marks: &Marks,
    pass: &mut Pass,
    plan: &Plan,
    numbers: &Numbers,
) -> u64
    requires table { (table_of marks.now ≡ N.table) × (pass_table pass.old ≡ N.table) }
    requires cpus { cpus_of marks.now ≡ N.script.cpus }
    requires lanes { IsStrictlyIncreasing numbers.now ×
        All (λ x. x < lanes_of marks.now) numbers.now }
    requires room { 1 ≤ drawable_of marks.now (pass_view pass.old) }
    requires asks { All (AskFits N.script) plan.now.asks }
    ensures table { pass_table pass.new ≡ N.table }
    ensures step { IsStep N.script (pass_view pass.new) result plan.now.event
        numbers.now plan.now.asks }
    ensures made { HasMade result plan.now.event numbers.now plan.now.asks (pass_view pass.old)
        (pass_view pass.new) }
{
    let n = marks.draw(pass, &plan.event, numbers.as_slice());
    mark_all(marks, pass, n, plan.asks.as_slice());
    n
}

/// Makes the event of a plan, whose lanes are held and have room. It writes the event, and raises
/// what the processor has seen to what the touched lanes tell.
fn make<'s, N: nt_event::Plan + Shared>(
    locked: &mut Locked<'_, 's, N>,
    script: &Script,
    marks: &Marks,
    pass: &mut Pass,
    plan: &Plan,
    job: &Job,
    stand: &StandView,
    seen: &mut Seen,
    event: &mut Event,
) -> Made
    requires script { (script.now ≡ N.script) × IsTrue (fits N.script) }
    requires table { (table_of marks.now ≡ N.table) × (pass_table pass.old ≡ N.table) }
    requires marks { (cpus_of marks.now ≡ N.script.cpus) ×
        (lanes_of marks.now ≡ lane_count N.script) }
    requires room { 1 ≤ drawable_of marks.now (pass_view pass.old) }
    requires job { IsTrue (job_fits N.script job.now) }
    requires stand { StandFits N.script stand.now }
    requires planned { IsPlan (states_of N.script locked.old) stand.now job.now plan.now }
    requires known { AreKnownBy locked.old (pass_view pass.old) }
    requires roomy { AreRoomy locked.old }
    ensures table { pass_table pass.new ≡ N.table }
    ensures done { IsMade N.script stand.now job.now (pass_view pass.old) (pass_view pass.new)
        seen.old seen.new event.new result }
{
    let _job = job;
    locked.there();
    let numbers = touched_numbers(script, stand, &plan.event.what, &plan.lanes);
    let mut value = locked.told(plan.lanes.as_slice(), stand.cpu());
    let number = draw_plan::<N>(marks, pass, plan, &numbers);
    tell_own(&mut value, plan.asks.as_slice(), stand.cpu(), number + 1);
    let step = Step {
        script,
        number,
        stand,
        plan,
        numbers: &numbers,
    };
    locked.note(marks, pass, &step);
    *event = plan.event;
    Made {
        number,
        due: plan.due,
        interrupts: seen.raise_all(&value),
    }
}

/// Makes the event of the job in the states of the lanes that are held, or says which others it
/// takes.
///
/// The event is decided under the locks, and made only where each lane that it touches is held.
/// Where none is made, nothing is written.
pub(crate) fn try_under<'s, N: nt_event::Plan + Shared>(
    locked: &mut Locked<'_, 's, N>,
    script: &Script,
    marks: &Marks,
    pass: &mut Pass,
    job: &Job,
    stand: &StandView,
    seen: &mut Seen,
    event: &mut Event,
) -> Tried
    requires script { (script.now ≡ N.script) × IsTrue (fits N.script) }
    requires table { (table_of marks.now ≡ N.table) × (pass_table pass.old ≡ N.table) }
    requires marks { (cpus_of marks.now ≡ N.script.cpus) ×
        (lanes_of marks.now ≡ lane_count N.script) }
    requires room { 1 ≤ drawable_of marks.now (pass_view pass.old) }
    requires job { IsTrue (job_fits N.script job.now) }
    requires stand { StandFits N.script stand.now }
    ensures table { pass_table pass.new ≡ N.table }
    ensures tried { IsTried N.script stand.now job.now (pass_view pass.old)
        (pass_view pass.new) seen.old seen.new event.old event.new result }
{
    let roomy = locked.prepare(marks, pass);
    locked.there();
    let mut planned = Planned::Again(Needs::none());
    locked.plan(script, job, stand, &mut planned);
    match &planned {
        Planned::Event(plan) => {
            if roomy {
                Tried::Done(make::<N>(locked, script, marks, pass, plan, job, stand, seen, event))
            } else {
                locked.compare(marks, pass);
                Tried::Refused(ActRefusal::NoMemory)
            }
        }
        Planned::Refused(refusal) => {
            locked.compare(marks, pass);
            Tried::Refused(*refusal)
        }
        Planned::Again(needs) => Tried::Again(*needs),
    }
}
