//! The event of a job, in the states of held lanes.
ghost use Rattle.std.specs.Prelude.{IsTrue};
ghost use Rattle.nt_event.specs.Acts.{StandFits, job_fits};
ghost use Rattle.nt_lane.specs.Decided.{IsDecided};

use crate::held::Held;
use crate::reading::reads_job;
use crate::standing::can_do;
use nt_event::{Job, What};
use nt_floor::ActRefusal;
use nt_frame::StandView;
use nt_states::LaneAnswers;

/// What came of a job in the states of held lanes.
#[derive(Drop)]
pub(crate) enum Decided {
    /// The event is this.
    Event(What),
    /// There is no event.
    Refused(ActRefusal),
    /// It can't be said: not each lane that the job reads is held, or the processor stands as it
    /// can't stand.
    Unknown,
}

/// Decides the job of a processor that stands so. The decision is that of `nt_states`, over the
/// states of the held lanes.
pub(crate) fn decide(held: &Held, job: &Job, stand: &StandView) -> Decided
    requires job { IsTrue (job_fits held.now.script job.now) }
    requires stand { StandFits held.now.script stand.now }
    ensures { IsDecided held.now stand.now job.now result }
{
    if !can_do(held.script(), job, stand) || !reads_job(held, stand, job) {
        return Decided::Unknown;
    }
    match nt_states::decide(held, job, stand) {
        Ok(what) => Decided::Event(what),
        Err(refusal) => Decided::Refused(refusal),
    }
}
