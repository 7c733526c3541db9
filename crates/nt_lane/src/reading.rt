//! Whether the lanes that a job reads are held.
ghost use Rattle.std.specs.Prelude.{◌↔◌, ◌≡◌, IsTrue, ℕ};
ghost use Rattle.nt_event.specs.declared.commands.Reply.{Reply as Answer};
ghost use Rattle.nt_event.specs.declared.events.What.TheVariants.{Call};
ghost use Rattle.nt_lane.specs.Answers.{IsHeld};
ghost use Rattle.nt_states.specs.Reads.{AreHeld, found_lanes, job_lanes, reply_lanes};

use crate::held::Held;
use nt_event::{Command, CpuNo, Job, Lane, What};
use nt_frame::StandView;
use nt_states::LaneAnswers;

/// Whether the lanes are held that are read to find what a command of a routine on the processor
/// replies.
fn reads_reply(held: &Held, cpu: CpuNo, command: &Command) -> bool
    ensures { IsTrue result ↔
        AreHeld (IsHeld held.now) (reply_lanes held.now.script cpu command.now) }
{
    let script = held.script();
    match command {
        Command::Queue(d) | Command::Unqueue(d) => held.holds(Lane::Object(*d)),
        Command::SetTimer(_, _, _) | Command::CancelTimer(_) => held.holds(Lane::Timers),
        Command::InsertApc(a) | Command::RemoveApc(a) => {
            held.holds(Lane::Threads(script.cpu_of(script.owner_of(*a))))
        }
        Command::Release(t) | Command::Alert(t, _) => {
            held.holds(Lane::Threads(script.cpu_of(*t)))
        }
        Command::StartWait(_, _) | Command::TestAlert(_) => held.holds(Lane::Threads(cpu)),
        Command::Delay(_, _, _) => held.holds(Lane::Threads(cpu)) && held.holds(Lane::Timers),
        Command::Acquire(k) => held.holds(Lane::Lock(*k)),
        Command::Raise(_)
        | Command::Lower(_)
        | Command::SetImportance(_, _)
        | Command::SetTarget(_, _)
        | Command::EnterCrit
        | Command::LeaveCrit
        | Command::EnterGuard
        | Command::LeaveGuard
        | Command::Interrupt(_, _)
        | Command::Clock(_)
        | Command::ToUser
        | Command::Yield
        | Command::Unlock(_)
        | Command::Note(_) => true,
    }
}

/// Whether the lanes are held that are read to find the event of a job of a processor that stands
/// so.
pub(crate) fn reads_job(held: &Held, stand: &StandView, job: &Job) -> bool
    ensures { IsTrue result ↔
        AreHeld (IsHeld held.now) (job_lanes held.now.script stand.now job.now) }
{
    let queue = Lane::Queue(stand.cpu());
    let threads = Lane::Threads(stand.cpu());
    match job {
        Job::Call(command) => reads_reply(held, stand.cpu(), command),
        Job::Fire(d) => held.holds(Lane::Object(*d)),
        Job::Drain => held.holds(queue) && (!stand.sweep() || held.holds(Lane::Timers)),
        Job::Threaded => held.holds(queue),
        Job::Idle | Job::Pick(_) => held.holds(queue) && held.holds(threads),
        Job::Rewait => held.holds(threads) && (!stand.has_due() || held.holds(Lane::Timers)),
        Job::Apcs | Job::Switch(_) | Job::ToUser | Job::Rundown => held.holds(threads),
        Job::Free(_) | Job::UserEnd | Job::Leave => true,
    }
}

/// Whether the lane is held that is read to find which lanes a command touches.
fn reads_target(held: &Held, command: &Command) -> bool
    ensures { (f : ℕ) (y : Answer) →
        IsTrue result ↔ AreHeld (IsHeld held.now) (found_lanes (Call f command.now y)) }
{
    match command {
        Command::Queue(d) | Command::Unqueue(d) => held.holds(Lane::Object(*d)),
        Command::Raise(_)
        | Command::Lower(_)
        | Command::SetImportance(_, _)
        | Command::SetTarget(_, _)
        | Command::SetTimer(_, _, _)
        | Command::CancelTimer(_)
        | Command::InsertApc(_)
        | Command::RemoveApc(_)
        | Command::EnterCrit
        | Command::LeaveCrit
        | Command::EnterGuard
        | Command::LeaveGuard
        | Command::StartWait(_, _)
        | Command::Delay(_, _, _)
        | Command::Release(_)
        | Command::Alert(_, _)
        | Command::TestAlert(_)
        | Command::Interrupt(_, _)
        | Command::Clock(_)
        | Command::ToUser
        | Command::Yield
        | Command::Acquire(_)
        | Command::Unlock(_)
        | Command::Note(_) => true,
    }
}

/// Whether the lane is held that is read to find which lanes an event touches: the object of an
/// insert or a removal.
pub(crate) fn reads_event(held: &Held, what: &What) -> bool
    ensures { IsTrue result ↔ AreHeld (IsHeld held.now) (found_lanes what.now) }
{
    match what {
        What::Call { command, .. } => reads_target(held, command),
        What::Fire { dpc, .. } => held.holds(Lane::Object(*dpc)),
        What::Look { .. }
        | What::Begin { .. }
        | What::Normal { .. }
        | What::End { .. }
        | What::Expire { .. }
        | What::Clean { .. }
        | What::Switch { .. }
        | What::Rewait { .. }
        | What::Flush { .. }
        | What::Gone { .. }
        | What::Free { .. }
        | What::Rest => true,
    }
}

/// Whether each of these lanes is held.
pub(crate) fn holds_all(held: &Held, lanes: &[Lane]) -> bool
    ensures { IsTrue result → AreHeld (IsHeld held.now) lanes.now }
{
    for lane in lanes {
        if !held.holds(*lane) {
            return false;
        }
    }
    true
}
