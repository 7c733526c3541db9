//! What an event leaves of the timers.
ghost use Rattle.std.specs.Prelude.{◌≡◌, ◌+◌, ◌-◌, ◌≤◌, ◌<◌, ◌^◌, IfSome, length, option_and_then};
ghost use Rattle.nt_event.specs.declared.scripts.Script.{Script};
ghost use Rattle.nt_states.specs.Timed.{CallMayTime, MayTime, call_timed, delayed, timed};

use nt_event::{Again, Command, Event, Reply, ThreadNo, What};
use nt_frame::StandView;
use nt_timer::TimerQueue;

/// Takes in the event of this number, of a processor that stood so: the timers are then as it
/// leaves them.
///
/// The event is one that a job gives in these timers. The time stays below 2^50, and grows by less
/// than 2^32.
#[inline(always)]
pub fn leave_timers(timers: &mut TimerQueue, n: u64, stand: &StandView, event: &Event)
    requires may { (s : Script) × MayTime s timers.old event.now event.now.what }
    requires time { timers.old.now + 2 ^ 32 ≤ 2 ^ 50 }
    ensures timers { timers.new ≡ timed n stand.now event.now.thread event.now.what timers.old }
    ensures time { timers.new.now ≤ timers.old.now + (2 ^ 32 - 1) }
{
    match &event.what {
        What::Call { command, reply, .. } => leave_call(timers, n, event, command, reply),
        What::Rewait {
            reply: Reply::Blocked,
            ..
        } => leave_delay(timers, n, event.thread, due(stand.again())),
        What::Expire { key, .. } => {
            timers.expire(*key, n);
        }
        What::Look { .. }
        | What::Begin { .. }
        | What::Normal { .. }
        | What::End { .. }
        | What::Fire { .. }
        | What::Clean { .. }
        | What::Switch { .. }
        | What::Rewait { .. }
        | What::Flush { .. }
        | What::Gone { .. }
        | What::Free { .. }
        | What::Rest => {}
    }
}

/// The due time of a wait that is taken up again.
fn due(again: Option<Again>) -> Option<u64>
    ensures { result ≡ option_and_then (λ w. w.due) again }
{
    match again {
        Some(wait) => wait.due,
        None => None,
    }
}

/// What a call in this thread leaves.
#[inline(always)]
fn leave_call(timers: &mut TimerQueue, n: u64, event: &Event, command: &Command, reply: &Reply)
    requires may { (s : Script) × CallMayTime s timers.old event.now command.now reply.now }
    requires time { timers.old.now + 2 ^ 32 ≤ 2 ^ 50 }
    ensures timers { timers.new ≡ call_timed n event.now.thread command.now reply.now timers.old }
    ensures time { timers.new.now ≤ timers.old.now + (2 ^ 32 - 1) }
{
    match (command, reply) {
        (Command::SetTimer(t, due, period), Reply::Yes | Reply::No) => {
            timers.set(*t, *due, *period, n);
        }
        (Command::CancelTimer(t), Reply::Yes) => {
            timers.cancel(*t);
        }
        (Command::Clock(units), Reply::Done) => timers.advance(*units),
        (Command::Delay(_, _, units), Reply::Blocked) => {
            let due = timers.now() + u64::from(*units);
            leave_delay(timers, n, event.thread, Some(due));
        }
        (Command::Raise(_), _)
        | (Command::Lower(_), _)
        | (Command::Queue(_), _)
        | (Command::Unqueue(_), _)
        | (Command::SetImportance(_, _), _)
        | (Command::SetTarget(_, _), _)
        | (Command::SetTimer(_, _, _), _)
        | (Command::CancelTimer(_), _)
        | (Command::InsertApc(_), _)
        | (Command::RemoveApc(_), _)
        | (Command::EnterCrit, _)
        | (Command::EnterGuard, _)
        | (Command::LeaveCrit, _)
        | (Command::LeaveGuard, _)
        | (Command::StartWait(_, _), _)
        | (Command::Delay(_, _, _), _)
        | (Command::Release(_), _)
        | (Command::Alert(_, _), _)
        | (Command::TestAlert(_), _)
        | (Command::Interrupt(_, _), _)
        | (Command::Clock(_), _)
        | (Command::ToUser, _)
        | (Command::Yield, _)
        | (Command::Acquire(_), _)
        | (Command::Unlock(_), _)
        | (Command::Note(_), _) => {}
    }
}

/// The delay of the thread is set, where it has a due time.
fn leave_delay(timers: &mut TimerQueue, n: u64, thread: Option<ThreadNo>, due: Option<u64>)
    requires { IfSome thread (λ t. t.0 < length timers.old.delays) }
    ensures timers { timers.new ≡ delayed n thread due timers.old }
    ensures time { timers.new.now ≡ timers.old.now }
{
    if let (Some(t), Some(due)) = (thread, due) {
        timers.set_delay(t, due, n);
    }
}
