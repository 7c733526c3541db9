//! Whether a job may be done where its processor stands, as far as no lane says it.
ghost use Rattle.std.specs.Prelude.{◌↔◌, IsTrue};
ghost use Rattle.nt_event.specs.Acting.{InThread, IsCallable};
ghost use Rattle.nt_event.specs.Acts.{StandFits};
ghost use Rattle.nt_lane.specs.Standing.{StandsFor};
ghost use Rattle.nt_states.specs.Given.{RunsOwn};

use nt_event::{Command, Job, Script};
use nt_frame::StandView;

/// Whether the thread that runs, if there is one, is bound to the processor.
fn runs_own(script: &Script, stand: &StandView) -> bool
    ensures { IsTrue result ↔ RunsOwn script.now stand.now }
{
    match stand.thread() {
        Some(thread) => script.cpu_of(thread).0 == stand.cpu().0,
        None => true,
    }
}

/// Whether a thread runs, at a level of at most this number.
fn in_thread(stand: &StandView, most: u8) -> bool
    ensures { IsTrue result ↔ InThread most stand.now }
{
    stand.thread().is_some() && stand.level().number() <= most
}

/// Whether the command may be called there: a wait, a delay, the test of an alert and a yield are
/// called in a thread.
fn is_callable(stand: &StandView, command: &Command) -> bool
    ensures { IsTrue result ↔ IsCallable stand.now command.now }
{
    match command {
        Command::StartWait(_, _) | Command::Delay(_, _, _) | Command::Yield => in_thread(stand, 1),
        Command::TestAlert(_) => in_thread(stand, 2),
        Command::Raise(_)
        | Command::Lower(_)
        | Command::Queue(_)
        | Command::Unqueue(_)
        | Command::SetImportance(_, _)
        | Command::SetTarget(_, _)
        | Command::SetTimer(_, _, _)
        | Command::CancelTimer(_)
        | Command::InsertApc(_)
        | Command::RemoveApc(_)
        | Command::EnterCrit
        | Command::EnterGuard
        | Command::LeaveCrit
        | Command::LeaveGuard
        | Command::Release(_)
        | Command::Alert(_, _)
        | Command::Interrupt(_, _)
        | Command::Clock(_)
        | Command::ToUser
        | Command::Acquire(_)
        | Command::Unlock(_)
        | Command::Note(_) => true,
    }
}

/// Whether the processor stands as the job wants it.
fn stands_for(stand: &StandView, job: &Job) -> bool
    ensures { IsTrue result ↔ StandsFor stand.now job.now }
{
    match job {
        Job::Call(command) => command.needs_lane() && is_callable(stand, command),
        Job::Apcs | Job::ToUser => in_thread(stand, 0),
        Job::Rewait => in_thread(stand, 1) && stand.again().is_some(),
        Job::UserEnd | Job::Leave | Job::Rundown => stand.thread().is_some(),
        Job::Fire(_)
        | Job::Free(_)
        | Job::Drain
        | Job::Threaded
        | Job::Idle
        | Job::Pick(_)
        | Job::Switch(_) => true,
    }
}

/// Whether the job may be done by a processor that stands so: its thread is its own, and the stand
/// serves the job. Of the states of lanes it asks nothing, so no lock is needed for it.
pub(crate) fn can_do(script: &Script, job: &Job, stand: &StandView) -> bool
    ensures { IsTrue result ↔ (RunsOwn script.now stand.now × StandsFor stand.now job.now) }
{
    runs_own(script, stand) && stands_for(stand, job)
}
