//! The thread that runs.
ghost use Rattle.std.specs.Prelude.{◌≡◌, IsSome, IsTrue, Some};
ghost use Rattle.nt_event.specs.Routines as routines;
ghost use Rattle.nt_event.specs.Script.{has_thread};
ghost use Rattle.nt_event.specs.declared.jobs.Lane.TheVariants.{Threads as ThreadsLane};
ghost use Rattle.nt_event.specs.Acts.{StandFits};
ghost use Rattle.nt_states.specs.Given.{RunsOwn};

use crate::answers::LaneAnswers;
use nt_event::ThreadNo;
use nt_frame::StandView;

/// The thread that runs, where one does: its lane is the one of the processor's threads.
pub(crate) fn runner<S: LaneAnswers>(states: &S, stand: &StandView) -> ThreadNo
    requires stand { StandFits (S.script_of states.now) stand.now }
    requires own { RunsOwn (S.script_of states.now) stand.now }
    requires runs { IsSome stand.now.thread }
    requires held { S.holds states.now (ThreadsLane stand.now.cpu) }
    ensures thread { stand.now.thread ≡ Some result }
    ensures named { IsTrue (has_thread (S.script_of states.now) result) }
    ensures held { S.holds states.now
        (ThreadsLane (routines.cpu_of (S.script_of states.now) result)) }
{
    let _states = states;
    match stand.thread() {
        Some(t) => t,
        None => unreachable!(),
    }
}
