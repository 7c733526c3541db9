//! What an event leaves of the thread that makes it.
ghost use Rattle.std.specs.Prelude.{◌≡◌, Some, ℕ};
ghost use Rattle.nt_event.specs.declared.events.What.TheVariants.{Begin, Call, Rewait};
ghost use Rattle.nt_event.specs.declared.jobs.Stand.{Stand as Place};
ghost use Rattle.nt_event.specs.declared.scripts.Script.{Script as Declared};
ghost use Rattle.nt_event.specs.Waits.{frame_ended, made_facts};
ghost use Rattle.nt_states.specs.ThreadFits.{CanMake, TakesUp, is_over as over, over_if};

use nt_event::{ApcKind, Begun, Body, Command, Mode, Pick, Reply, Script, What};
use nt_frame::StandView;
use nt_thread::{ThreadState, WaitSpec};

/// Changes the state of the thread that makes the event, by the event's number and where its
/// processor stood.
pub fn make(state: &mut ThreadState, script: &Script, n: u64, stand: &StandView, what: &What)
    requires { CanMake stand.now what.now state.old }
    ensures { state.new ≡ made_facts script.now n stand.now what.now state.old }
{
    match what {
        What::Switch { .. } => {
            let _ = state.resume();
        }
        What::Call { command, reply, .. } => call(state, n, stand, command, reply),
        What::Rewait { reply, .. } => rewait(state, n, stand, reply),
        What::Begin { begun, from } => begin(state, script, begun, *from),
        What::End { .. } => end(state, &stand.body()),
        What::Flush { .. } => {
            let _ = state.flush();
        }
        What::Gone { .. } => state.gone(),
        What::Look { .. }
        | What::Normal { .. }
        | What::Expire { .. }
        | What::Fire { .. }
        | What::Clean { .. }
        | What::Free { .. }
        | What::Rest => {}
    }
}

fn call(state: &mut ThreadState, n: u64, stand: &StandView, command: &Command, reply: &Reply)
    requires { CanMake stand.now (Call 0 command.now reply.now) state.old }
    ensures { (s : Declared) (f : ℕ) →
        state.new ≡ made_facts s n stand.now (Call f command.now reply.now) state.old }
{
    match command {
        Command::StartWait(mode, alertable) => {
            let spec = WaitSpec {
                mode: *mode,
                alertable: *alertable,
                reached: None,
                set: n,
            };
            let _ = state.wait(spec, stand.regions(), stand.level());
        }
        Command::Delay(mode, alertable, _) => {
            let spec = WaitSpec {
                mode: *mode,
                alertable: *alertable,
                reached: Some(is_over(reply)),
                set: n,
            };
            let _ = state.wait(spec, stand.regions(), stand.level());
        }
        Command::TestAlert(mode) => {
            let _ = state.test_alert(*mode);
        }
        Command::Yield => state.give_way(stand.level()),
        Command::Raise(_)
        | Command::Lower(_)
        | Command::Queue(_)
        | Command::Unqueue(_)
        | Command::SetImportance(_, _)
        | Command::SetTarget(_, _)
        | Command::SetTimer(_, _, _)
        | Command::CancelTimer(_)
        | Command::InsertApc(_)
        | Command::RemoveApc(_)
        | Command::EnterCrit
        | Command::EnterGuard
        | Command::LeaveCrit
        | Command::LeaveGuard
        | Command::Release(_)
        | Command::Alert(_, _)
        | Command::Interrupt(_, _)
        | Command::Clock(_)
        | Command::ToUser
        | Command::Acquire(_)
        | Command::Unlock(_)
        | Command::Note(_) => {}
    }
}

/// The reply of a delay whose due time is reached, where no kernel APC stood in the way.
fn is_over(reply: &Reply) -> bool
    ensures { result ≡ over reply.now }
{
    match reply {
        Reply::Status(status) => *status == nt_event::status::SUCCESS,
        Reply::Done | Reply::Yes | Reply::No | Reply::Blocked | Reply::Spin | Reply::Refused(_) =>
            false,
    }
}

/// Whether the due time is reached, of a delay.
fn reached(delay: bool, reply: &Reply) -> Option<bool>
    ensures { result ≡ over_if delay reply.now }
{
    if delay { Some(is_over(reply)) } else { None }
}

fn rewait(state: &mut ThreadState, n: u64, stand: &StandView, reply: &Reply)
    requires { TakesUp stand.now reply.now state.old }
    ensures { (s : Declared) (f : ℕ) →
        state.new ≡ made_facts s n stand.now (Rewait f reply.now) state.old }
{
    if let Some(wait) = stand.again() {
        let spec = WaitSpec {
            mode: wait.mode,
            alertable: wait.alertable,
            reached: reached(wait.due.is_some(), reply),
            set: n,
        };
        let _ = state.wait(spec, stand.regions(), stand.level());
    }
}

fn begin(state: &mut ThreadState, script: &Script, begun: &Begun, from: u64)
    ensures { (st : Place) (n : ℕ) →
        state.new ≡ made_facts script.now n st (Begin begun.now from) state.old }
{
    match begun {
        Begun::Apc(apc) => state.take(Pick {
            apc: *apc,
            kind: script.kind_of(*apc),
            number: from,
        }),
        Begun::Int(_) | Begun::Dpc(_) | Begun::Threaded(_) => {}
    }
}

/// The innermost frame, in which this runs, ends.
fn end(state: &mut ThreadState, body: &Option<Body>)
    ensures { state.new ≡ frame_ended body.now state.old }
{
    match body {
        Some(Body::Base(_)) => state.leave(),
        Some(Body::Apc(_, ApcKind::User)) => {
            let _ = state.test_alert(Mode::User);
        }
        Some(Body::Int(_))
        | Some(Body::Dpc(_))
        | Some(Body::Threaded(_))
        | Some(Body::Apc(_, ApcKind::Special | ApcKind::Normal))
        | Some(Body::Rundown(_))
        | None => {}
    }
}
