//! An act over locked lanes.
ghost use Rattle.std.specs.Prelude.{◌≡◌, ◌≤◌, IfErr, IfOk, IsTrue, OnErr};
ghost use Rattle.nt_event.specs.Lanes.{lane_count};
ghost use Rattle.nt_event.specs.Acts.{StandFits, job_fits};
ghost use Rattle.nt_lane.specs.Tries.{IsMade, IsNotDone};
ghost use Rattle.nt_lane.specs.Views.{drawable_of};
ghost use Rattle.nt_mark.specs.Names.{cpus_of, lanes_of, pass_table, pass_view, table_of};

use crate::foreseeing::foresee;
use crate::lanes::Lanes;
use crate::locks::lock;
use crate::tries::{Tried, try_under};
use nt_event::{Event, Job, Plan};
use nt_floor::{ActRefusal, Made, Seen};
use nt_frame::StandView;
use nt_mark::{Marks, Pass, Shared};
use std::sync::Wait;

/// Makes the event of a job for a processor that stands so: takes the locks that it foresees, in
/// order, and tries under them; with other needs again, until it is done. It writes the event, and
/// raises what the processor has seen to what the touched lanes tell. It may wait.
pub(crate) fn act_under<'s, N: Plan + Shared, R: Wait>(
    rt: &R,
    lanes: &Lanes<'s, N>,
    marks: &Marks,
    pass: &mut Pass,
    job: &Job,
    stand: &StandView,
    seen: &mut Seen,
    event: &mut Event,
) -> Result<Made, ActRefusal>
    requires table { (table_of marks.now ≡ N.table) × (pass_table pass.old ≡ N.table) }
    requires marks { (cpus_of marks.now ≡ N.script.cpus) ×
        (lanes_of marks.now ≡ lane_count N.script) }
    requires room { 1 ≤ drawable_of marks.now (pass_view pass.old) }
    requires job { IsTrue (job_fits N.script job.now) }
    requires stand { StandFits N.script stand.now }
    ensures table { pass_table pass.new ≡ N.table }
    ensures done { IfOk result (λ m. IsMade N.script stand.now job.now (pass_view pass.old)
        (pass_view pass.new) seen.old seen.new event.new m) }
    ensures refused { IfErr result
        (λ r. IsNotDone N.script stand.now job.now (pass_view pass.old) (pass_view pass.new) r) }
    ensures unwritten { OnErr result (event.new ≡ event.old) }
    ensures unseen { OnErr result (seen.new ≡ seen.old) }
{
    let script = lanes.script;
    let mut needs = foresee(rt, lanes, job, stand);
    for _ in rt.forever() {
        let mut locked = lock(rt, lanes, &needs);
        match try_under(&mut locked, script, marks, pass, job, stand, seen, event) {
            Tried::Done(made) => return Ok(made),
            Tried::Refused(refusal) => return Err(refusal),
            Tried::Again(more) => needs = more,
        }
    }
    unreachable!()
}
