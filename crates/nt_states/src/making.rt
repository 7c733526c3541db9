//! The event of a processor, and the due time that it sets.
ghost use Rattle.std.specs.Prelude.{◌≡◌, ◌<◌, ◌^◌, IfSome, IsSome, if◌then◌else◌, ℕ};
ghost use Rattle.nt_event.specs.Acting as acting;
ghost use Rattle.nt_event.specs.Frames as frames;
ghost use Rattle.nt_event.specs.Lanes.{Lanes, facts_at, what_lanes};
ghost use Rattle.nt_event.specs.Step.{thread_field};
ghost use Rattle.nt_event.specs.Threads.{doing_level};
ghost use Rattle.nt_event.specs.Replies.{is_blocked as blocks};
ghost use Rattle.nt_event.specs.declared.events.What.{What};
ghost use Rattle.nt_event.specs.declared.jobs.Stand.{Stand};
ghost use Rattle.nt_event.specs.declared.jobs.Lane.TheVariants.{Threads as ThreadsLane};
ghost use Rattle.nt_event.specs.declared.jobs.Lane.TheVariants.{Timers as TimersLane};
ghost use Rattle.nt_states.specs.Given.{IsGiven, IsTaken};
ghost use Rattle.nt_states.specs.Reads.{AreHeld};

use crate::answers::LaneAnswers;
use crate::thread_answers::ThreadAnswers;
use nt_event::{Begun, Command, CpuNo, Event, Level, Reply, ThreadNo, What};
use nt_frame::StandView;

/// The level after the call of a command.
#[inline(always)]
fn call_level(stand: &StandView, command: &Command, reply: &Reply) -> Level
    ensures { (f : ℕ) (l : Lanes) →
        result ≡ acting.acted_level stand.now l (What.Call f command.now reply.now) }
{
    let old = stand.level();
    match command {
        Command::Yield => match reply {
            Reply::Done | Reply::Blocked => Level::PASSIVE,
            Reply::Yes | Reply::No | Reply::Status(_) | Reply::Spin | Reply::Refused(_) => old,
        },
        Command::Acquire(_) => match reply {
            Reply::Done | Reply::Spin => Level::DISPATCH,
            Reply::Yes | Reply::No | Reply::Status(_) | Reply::Blocked | Reply::Refused(_) => {
                rewait_level(reply, old)
            }
        },
        Command::Unlock(_) => match reply {
            Reply::Done => stand.after(),
            Reply::Yes
            | Reply::No
            | Reply::Status(_)
            | Reply::Blocked
            | Reply::Spin
            | Reply::Refused(_) => rewait_level(reply, old),
        },
        Command::Raise(_)
        | Command::Lower(_)
        | Command::Queue(_)
        | Command::Unqueue(_)
        | Command::SetImportance(_, _)
        | Command::SetTarget(_, _)
        | Command::SetTimer(_, _, _)
        | Command::CancelTimer(_)
        | Command::InsertApc(_)
        | Command::RemoveApc(_)
        | Command::EnterCrit
        | Command::EnterGuard
        | Command::LeaveCrit
        | Command::LeaveGuard
        | Command::StartWait(_, _)
        | Command::Delay(_, _, _)
        | Command::Release(_)
        | Command::Alert(_, _)
        | Command::TestAlert(_)
        | Command::Interrupt(_, _)
        | Command::Clock(_)
        | Command::ToUser
        | Command::Note(_) => rewait_level(reply, old),
    }
}

/// The level after a reply, of a wait that is taken up again or of a call by which no thread gives
/// way.
fn rewait_level(reply: &Reply, old: Level) -> Level
    ensures { result ≡ (if blocks reply.now then 0 else old) }
{
    if reply.is_blocked() {
        Level::PASSIVE
    } else {
        old
    }
}

/// The level after the begin of a routine.
fn begin_level(begun: &Begun) -> Level
    ensures { (from : ℕ) (st : Stand) (l : Lanes) →
        result ≡ acting.acted_level st l (What.Begin begun.now from) }
{
    match begun {
        Begun::Int(level) => *level,
        Begun::Dpc(_) => Level::DISPATCH,
        Begun::Threaded(_) => Level::PASSIVE,
        Begun::Apc(_) => Level::APC,
    }
}

/// The thread that an event names.
fn thread(what: &What, running: Option<ThreadNo>) -> Option<ThreadNo>
    ensures { result ≡ thread_field what.now running }
{
    match what {
        What::Switch { thread, .. } => Some(*thread),
        What::Look { .. } => None,
        What::Call { .. }
        | What::Begin { .. }
        | What::Normal { .. }
        | What::End { .. }
        | What::Expire { .. }
        | What::Fire { .. }
        | What::Clean { .. }
        | What::Rewait { .. }
        | What::Flush { .. }
        | What::Gone { .. }
        | What::Free { .. }
        | What::Rest => running,
    }
}

/// The event that does this, of a processor that stands so.
pub fn event<S: LaneAnswers>(states: &S, stand: &StandView, what: &What) -> Event
    requires given { IsGiven (S.script_of states.now) (S.lanes states.now) stand.now what.now }
    requires held { AreHeld (S.holds states.now)
        (what_lanes (S.script_of states.now) stand.now what.now (S.lanes states.now)) }
    ensures { result ≡ acting.acted_event stand.now (S.lanes states.now) what.now }
{
    Event {
        cpu: stand.cpu(),
        thread: thread(what, stand.thread()),
        level: level(states, stand, what),
        what: *what,
    }
}

/// Writes what an event of a processor that stands so has beside what it does, which stands in its
/// place already.
pub fn complete<S: LaneAnswers>(states: &S, stand: &StandView, event: &mut Event)
    requires given { IsGiven (S.script_of states.now) (S.lanes states.now)
        stand.now event.old.what }
    requires held { AreHeld (S.holds states.now)
        (what_lanes (S.script_of states.now) stand.now event.old.what (S.lanes states.now)) }
    ensures { event.new ≡ acting.acted_event stand.now (S.lanes states.now) event.old.what }
{
    let thread = thread(&event.what, stand.thread());
    let level = level(states, stand, &event.what);
    event.cpu = stand.cpu();
    event.thread = thread;
    event.level = level;
}

/// The level after it.
fn level<S: LaneAnswers>(states: &S, stand: &StandView, what: &What) -> Level
    requires given { IsGiven (S.script_of states.now) (S.lanes states.now) stand.now what.now }
    requires held { AreHeld (S.holds states.now)
        (what_lanes (S.script_of states.now) stand.now what.now (S.lanes states.now)) }
    ensures { result ≡ acting.acted_level stand.now (S.lanes states.now) what.now }
{
    match what {
        What::Call { command, reply, .. } => call_level(stand, command, reply),
        What::Begin { begun, .. } => begin_level(begun),
        What::Switch { thread, .. } => thread_level(states, stand.cpu(), *thread),
        What::Rewait { reply, .. } => rewait_level(reply, stand.level()),
        What::End { .. } => stand.ended_level(),
        What::Free { .. } => stand.after(),
        What::Flush { .. } | What::Gone { .. } => Level::PASSIVE,
        What::Look { .. }
        | What::Normal { .. }
        | What::Expire { .. }
        | What::Fire { .. }
        | What::Clean { .. }
        | What::Rest => stand.level(),
    }
}

/// The level at which a thread is taken up.
fn thread_level<S: LaneAnswers>(states: &S, p: CpuNo, t: ThreadNo) -> Level
    requires taken { IsTaken (S.script_of states.now) p t }
    requires held { S.holds states.now (ThreadsLane p) }
    ensures { result ≡ doing_level (facts_at (S.lanes states.now) t).doing }
{
    states.threads().level(t)
}

/// The due time of the delay that the event calls.
pub fn due<S: LaneAnswers>(states: &S, what: &What) -> Option<u64>
    requires held { IsSome (frames.due_of what.now 0) → S.holds states.now TimersLane }
    ensures due { result ≡ frames.due_of what.now (S.lanes states.now).timers.now }
    ensures fits { IfSome result (λ due. due < 2 ^ 51) }
{
    match what {
        What::Call {
            command: Command::Delay(_, _, units),
            ..
        } => Some(states.now() + u64::from(*units)),
        What::Call { .. }
        | What::Look { .. }
        | What::Begin { .. }
        | What::Normal { .. }
        | What::End { .. }
        | What::Expire { .. }
        | What::Fire { .. }
        | What::Clean { .. }
        | What::Switch { .. }
        | What::Rewait { .. }
        | What::Flush { .. }
        | What::Gone { .. }
        | What::Free { .. }
        | What::Rest => None,
    }
}
