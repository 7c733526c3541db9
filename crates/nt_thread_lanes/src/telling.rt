//! What an event leaves of the thread that it names.
ghost use Rattle.std.specs.Prelude.{◌≡◌, ◌≤◌, IsTrue, length, ℕ};
ghost use Rattle.nt_event.specs.declared.events.What.TheVariants.{Call};
ghost use Rattle.nt_states.specs.ThreadFits.{CanTell, named_thread as thread_of, told_facts};

use nt_event::{Command, Reply, Script, ThreadNo, TimerKey, What};
use nt_thread::ThreadState;

/// The thread that the event names: the one that is released or alerted, the APC object's, or the
/// one whose delay expires.
pub fn named_thread(script: &Script, what: &What) -> Option<ThreadNo>
    ensures { result ≡ thread_of script.now what.now }
{
    match what {
        What::Call { command, .. } => match command {
            Command::Release(t) | Command::Alert(t, _) => Some(*t),
            Command::InsertApc(a) | Command::RemoveApc(a) => Some(script.owner_of(*a)),
            Command::Raise(_)
            | Command::Lower(_)
            | Command::Queue(_)
            | Command::Unqueue(_)
            | Command::SetImportance(_, _)
            | Command::SetTarget(_, _)
            | Command::SetTimer(_, _, _)
            | Command::CancelTimer(_)
            | Command::EnterCrit
            | Command::EnterGuard
            | Command::LeaveCrit
            | Command::LeaveGuard
            | Command::StartWait(_, _)
            | Command::Delay(_, _, _)
            | Command::TestAlert(_)
            | Command::Interrupt(_, _)
            | Command::Clock(_)
            | Command::ToUser
            | Command::Yield
            | Command::Acquire(_)
            | Command::Unlock(_)
            | Command::Note(_) => None,
        },
        What::Expire {
            key: TimerKey::Delay(t),
            ..
        } => Some(*t),
        What::Expire {
            key: TimerKey::Timer(_),
            ..
        }
        | What::Look { .. }
        | What::Begin { .. }
        | What::Normal { .. }
        | What::End { .. }
        | What::Fire { .. }
        | What::Clean { .. }
        | What::Switch { .. }
        | What::Rewait { .. }
        | What::Flush { .. }
        | What::Gone { .. }
        | What::Free { .. }
        | What::Rest => None,
    }
}

/// Changes the state of the thread that the event names, by the event's number.
pub fn tell(state: &mut ThreadState, script: &Script, n: u64, what: &What)
    requires apcs { length script.now.apcs ≤ 256 }
    requires may { CanTell script.now what.now state.old }
    ensures { state.new ≡ told_facts script.now n what.now state.old }
{
    match what {
        What::Call { command, reply, .. } => tell_call(state, script, n, command, reply),
        What::Expire {
            key: TimerKey::Delay(_),
            from,
        } => {
            let _ = state.end_delay(*from);
        }
        What::Expire {
            key: TimerKey::Timer(_),
            ..
        }
        | What::Look { .. }
        | What::Begin { .. }
        | What::Normal { .. }
        | What::End { .. }
        | What::Fire { .. }
        | What::Clean { .. }
        | What::Switch { .. }
        | What::Rewait { .. }
        | What::Flush { .. }
        | What::Gone { .. }
        | What::Free { .. }
        | What::Rest => {}
    }
}

fn tell_call(state: &mut ThreadState, script: &Script, n: u64, command: &Command, reply: &Reply)
    requires apcs { length script.now.apcs ≤ 256 }
    requires may { CanTell script.now (Call 0 command.now reply.now) state.old }
    ensures { (f : ℕ) →
        state.new ≡ told_facts script.now n (Call f command.now reply.now) state.old }
{
    match command {
        Command::Release(_) => {
            let _ = state.release();
        }
        Command::Alert(_, mode) => {
            let _ = state.alert(*mode);
        }
        Command::InsertApc(a) => {
            if reply.is_yes() {
                let _ = state.apc(*a, script.kind_of(*a), n);
            }
        }
        Command::RemoveApc(a) => {
            if reply.is_yes() {
                let _ = state.unapc(*a);
            }
        }
        Command::Raise(_)
        | Command::Lower(_)
        | Command::Queue(_)
        | Command::Unqueue(_)
        | Command::SetImportance(_, _)
        | Command::SetTarget(_, _)
        | Command::SetTimer(_, _, _)
        | Command::CancelTimer(_)
        | Command::EnterCrit
        | Command::EnterGuard
        | Command::LeaveCrit
        | Command::LeaveGuard
        | Command::StartWait(_, _)
        | Command::Delay(_, _, _)
        | Command::TestAlert(_)
        | Command::Interrupt(_, _)
        | Command::Clock(_)
        | Command::ToUser
        | Command::Yield
        | Command::Acquire(_)
        | Command::Unlock(_)
        | Command::Note(_) => {}
    }
}
