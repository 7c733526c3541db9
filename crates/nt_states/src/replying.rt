//! What a command replies.
ghost use Rattle.std.specs.Prelude.{◌≡◌, ◌&&◌, ◌+◌, IsSome, IsTrue, if◌then◌else◌, is_none, not};
ghost use Rattle.nt_event.specs.Acting.{IsCallable};
ghost use Rattle.nt_event.specs.Commands.{is_reached, reply as reply_to};
ghost use Rattle.nt_event.specs.Lanes.{facts_at, facts_of, lock_at};
ghost use Rattle.nt_event.specs.Routines.{cpu_of};
ghost use Rattle.nt_event.specs.Script.{command_fits, has_lock, has_thread};
ghost use Rattle.nt_event.specs.Threads.{is_alerted, is_gone};
ghost use Rattle.nt_event.specs.Waits.{wait_reply};
ghost use Rattle.nt_event.specs.declared.jobs.Lane.TheVariants.{Lock as LockLane};
ghost use Rattle.nt_event.specs.declared.jobs.Lane.TheVariants.{Threads as ThreadsLane};
ghost use Rattle.nt_event.specs.declared.jobs.Lane.TheVariants.{Timers as TimersLane};
ghost use Rattle.nt_event.specs.Acts.{StandFits};
ghost use Rattle.nt_states.specs.Given.{RunsOwn};
ghost use Rattle.nt_states.specs.Reads.{AreHeld, reply_lanes};

use crate::answers::LaneAnswers;
use crate::running::runner;
use crate::thread_answers::ThreadAnswers;
use nt_event::{Command, LockNo, Mode, Reply, ThreadNo};
use nt_frame::StandView;

/// What a command that is not refused replies.
pub(crate) fn reply<S: LaneAnswers>(states: &S, stand: &StandView, command: &Command) -> Reply
    requires command { IsTrue (command_fits (S.script_of states.now) command.now) }
    requires stand { StandFits (S.script_of states.now) stand.now }
    requires own { RunsOwn (S.script_of states.now) stand.now }
    requires callable { IsCallable stand.now command.now }
    requires held { AreHeld (S.holds states.now)
        (reply_lanes (S.script_of states.now) stand.now.cpu command.now) }
    ensures { result
        ≡ reply_to (S.script_of states.now) stand.now (S.lanes states.now) command.now }
{
    match command {
        Command::Queue(d) => Reply::yes_if(!states.is_queued(*d)),
        Command::Unqueue(d) => Reply::yes_if(states.is_queued(*d)),
        Command::SetTimer(t, _, _) => Reply::yes_if(states.is_set(*t)),
        Command::CancelTimer(t) => Reply::yes_if(states.is_set(*t)),
        Command::InsertApc(a) => Reply::yes_if(states.threads().takes(*a)),
        Command::RemoveApc(a) => Reply::yes_if(states.threads().is_inserted(*a)),
        Command::StartWait(mode, alertable) => wait_reply(states, stand, *mode, *alertable, None),
        Command::Delay(mode, alertable, units) => {
            wait_reply(
                states,
                stand,
                *mode,
                *alertable,
                Some(is_over(states, *units)),
            )
        }
        Command::Release(t) => Reply::yes_if(states.threads().ends_by_release(*t)),
        Command::Alert(t, mode) => Reply::yes_if(was_alerted(states, *t, *mode)),
        Command::TestAlert(mode) => Reply::yes_if(is_alerted(states, stand, *mode)),
        Command::Acquire(k) => acquire_reply(states, *k),
        Command::Raise(_)
        | Command::Lower(_)
        | Command::SetImportance(_, _)
        | Command::SetTarget(_, _)
        | Command::EnterCrit
        | Command::LeaveCrit
        | Command::EnterGuard
        | Command::LeaveGuard
        | Command::Interrupt(_, _)
        | Command::Clock(_)
        | Command::ToUser
        | Command::Yield
        | Command::Unlock(_)
        | Command::Note(_) => Reply::Done,
    }
}

/// What an acquire of the lock replies: it gets it where it is free, and else spins.
fn acquire_reply<S: LaneAnswers>(states: &S, k: LockNo) -> Reply
    requires lock { IsTrue (has_lock (S.script_of states.now) k) }
    requires held { S.holds states.now (LockLane k) }
    ensures { result
        ≡ (if is_none (lock_at (S.lanes states.now) k).holder then Reply.Done else Reply.Spin) }
{
    if states.is_free(k) {
        Reply::Done
    } else {
        Reply::Spin
    }
}

/// What a wait of the running thread replies; of a delay, its due time is reached or not.
pub(crate) fn wait_reply<S: LaneAnswers>(
    states: &S,
    stand: &StandView,
    mode: Mode,
    alertable: bool,
    reached: Option<bool>,
) -> Reply
    requires stand { StandFits (S.script_of states.now) stand.now }
    requires own { RunsOwn (S.script_of states.now) stand.now }
    requires runs { IsSome stand.now.thread }
    requires held { S.holds states.now (ThreadsLane stand.now.cpu) }
    ensures { result ≡ wait_reply (facts_of (S.lanes states.now) stand.now.thread) stand.now.regions
        stand.now.level mode alertable reached }
{
    states.threads().wait_reply(
        runner(states, stand),
        stand.regions(),
        stand.level(),
        mode,
        alertable,
        reached,
    )
}

/// Whether a delay of so many units is over at once.
fn is_over<S: LaneAnswers>(states: &S, units: u32) -> bool
    requires { S.holds states.now TimersLane }
    ensures { result
        ≡ is_reached (S.lanes states.now).timers.now ((S.lanes states.now).timers.now + units) }
{
    let now = states.now();
    now + u64::from(units) <= now
}

/// Whether an alert finds the thread's flag set.
fn was_alerted<S: LaneAnswers>(states: &S, t: ThreadNo, mode: Mode) -> bool
    requires thread { IsTrue (has_thread (S.script_of states.now) t) }
    requires held { S.holds states.now (ThreadsLane (cpu_of (S.script_of states.now) t)) }
    ensures { result ≡ (not (is_gone (facts_at (S.lanes states.now) t))
        && is_alerted mode (facts_at (S.lanes states.now) t)) }
{
    !states.threads().is_gone(t) && states.threads().is_alerted(t, mode)
}

/// Whether the running thread's flag is set.
fn is_alerted<S: LaneAnswers>(states: &S, stand: &StandView, mode: Mode) -> bool
    requires stand { StandFits (S.script_of states.now) stand.now }
    requires own { RunsOwn (S.script_of states.now) stand.now }
    requires runs { IsSome stand.now.thread }
    requires held { S.holds states.now (ThreadsLane stand.now.cpu) }
    ensures { result ≡ is_alerted mode (facts_of (S.lanes states.now) stand.now.thread) }
{
    states.threads().is_alerted(runner(states, stand), mode)
}
