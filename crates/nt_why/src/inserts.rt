//! What an insert was, and where it went, by a walk over the events before it.
ghost use Rattle.std.specs.Prelude.{◌≡◌, ◌≤◌, ◌<◌, length};
ghost use Rattle.nt_event.specs.Objects.{importance_after as importance_left, importance_of};
ghost use Rattle.nt_event.specs.Objects.{importance_by as importance_given, target_of};
ghost use Rattle.nt_event.specs.Objects.{target_after as target_left};
ghost use Rattle.nt_event.specs.Families.{by_dpc_call};
ghost use Rattle.nt_event.specs.Objects.{target_by as target_given};
ghost use Rattle.nt_history.specs.Briefs.{events_in};
ghost use Rattle.nt_why.specs.Past.{past_at};
ghost use Rattle.nt_why.specs.Says.{maker_of, place_of, sort_of};

use crate::fates::Object;
use crate::reasons::{Pending, Sort};
use nt_event::{Command, CpuNo, DpcNo, Importance, Reply, Script, What};
use nt_history::Briefs;

/// What a call leaves of the object's importance.
fn importance_by(dpc: DpcNo, command: &Command, reply: &Reply, old: Importance) -> Importance
    ensures { result ≡ by_dpc_call (λ k. importance_given dpc k reply.now old) old command.now }
{
    match command {
        Command::SetImportance(given, importance) => {
            if reply.is_done() && given.0 == dpc.0 {
                *importance
            } else {
                old
            }
        }
        Command::Raise(_)
        | Command::Lower(_)
        | Command::Queue(_)
        | Command::Unqueue(_)
        | Command::SetTarget(_, _)
        | Command::SetTimer(_, _, _)
        | Command::CancelTimer(_)
        | Command::InsertApc(_)
        | Command::RemoveApc(_)
        | Command::EnterCrit
        | Command::EnterGuard
        | Command::LeaveCrit
        | Command::LeaveGuard
        | Command::StartWait(_, _)
        | Command::Delay(_, _, _)
        | Command::Release(_)
        | Command::Alert(_, _)
        | Command::TestAlert(_)
        | Command::Interrupt(_, _)
        | Command::Clock(_)
        | Command::ToUser
        | Command::Yield
        | Command::Acquire(_)
        | Command::Unlock(_)
        | Command::Note(_) => old,
    }
}

/// What a call leaves of the object's target.
fn target_by(dpc: DpcNo, command: &Command, reply: &Reply, old: Option<CpuNo>) -> Option<CpuNo>
    ensures { result ≡ by_dpc_call (λ k. target_given dpc k reply.now old) old command.now }
{
    match command {
        Command::SetTarget(given, target) => {
            if reply.is_done() && given.0 == dpc.0 {
                *target
            } else {
                old
            }
        }
        Command::Raise(_)
        | Command::Lower(_)
        | Command::Queue(_)
        | Command::Unqueue(_)
        | Command::SetImportance(_, _)
        | Command::SetTimer(_, _, _)
        | Command::CancelTimer(_)
        | Command::InsertApc(_)
        | Command::RemoveApc(_)
        | Command::EnterCrit
        | Command::EnterGuard
        | Command::LeaveCrit
        | Command::LeaveGuard
        | Command::StartWait(_, _)
        | Command::Delay(_, _, _)
        | Command::Release(_)
        | Command::Alert(_, _)
        | Command::TestAlert(_)
        | Command::Interrupt(_, _)
        | Command::Clock(_)
        | Command::ToUser
        | Command::Yield
        | Command::Acquire(_)
        | Command::Unlock(_)
        | Command::Note(_) => old,
    }
}

/// What an event leaves of the object's importance.
fn importance_after(dpc: DpcNo, what: &What, old: Importance) -> Importance
    ensures { result ≡ importance_left dpc what.now old }
{
    match what {
        What::Call { command, reply, .. } => importance_by(dpc, command, reply, old),
        What::Look { .. }
        | What::Begin { .. }
        | What::Normal { .. }
        | What::End { .. }
        | What::Expire { .. }
        | What::Fire { .. }
        | What::Clean { .. }
        | What::Switch { .. }
        | What::Rewait { .. }
        | What::Flush { .. }
        | What::Gone { .. }
        | What::Free { .. }
        | What::Rest => old,
    }
}

/// What an event leaves of the object's target.
fn target_after(dpc: DpcNo, what: &What, old: Option<CpuNo>) -> Option<CpuNo>
    ensures { result ≡ target_left dpc what.now old }
{
    match what {
        What::Call { command, reply, .. } => target_by(dpc, command, reply, old),
        What::Look { .. }
        | What::Begin { .. }
        | What::Normal { .. }
        | What::End { .. }
        | What::Expire { .. }
        | What::Fire { .. }
        | What::Clean { .. }
        | What::Switch { .. }
        | What::Rewait { .. }
        | What::Flush { .. }
        | What::Gone { .. }
        | What::Free { .. }
        | What::Rest => old,
    }
}

/// The object's importance after the first `end` events.
fn importance_at(events: &Briefs<'_>, dpc: DpcNo, end: usize) -> Importance
    requires { end ≤ length events.now.briefs.now }
    ensures { result ≡ importance_of dpc
        (past_at end (events_in events.now.briefs.now events.now.rises.now)) }
{
    let mut importance = Importance::Medium;
    for at in 0..end {
        let event = events.event(at);
        importance = importance_after(dpc, &event.what, importance);
    }
    importance
}

/// The object's target after the first `end` events.
fn target_at(events: &Briefs<'_>, dpc: DpcNo, end: usize) -> Option<CpuNo>
    requires { end ≤ length events.now.briefs.now }
    ensures { result ≡ target_of dpc
        (past_at end (events_in events.now.briefs.now events.now.rises.now)) }
{
    let mut target = None;
    for at in 0..end {
        let event = events.event(at);
        target = target_after(dpc, &event.what, target);
    }
    target
}

/// The processor that made the event of this number.
fn maker_of(events: &Briefs<'_>, at: usize) -> CpuNo
    requires { at < length events.now.briefs.now }
    ensures { result ≡ maker_of (events_in events.now.briefs.now events.now.rises.now) at }
{
    let event = events.event(at);
    event.cpu
}

/// Where the object goes by the event of this number, which inserts it.
fn place_of(script: &Script, events: &Briefs<'_>, at: usize, object: Object) -> CpuNo
    requires { at < length events.now.briefs.now }
    ensures { result
        ≡ place_of script.now (events_in events.now.briefs.now events.now.rises.now) at object }
{
    match object {
        Object::Dpc(dpc) => target_at(events, dpc, at).unwrap_or(maker_of(events, at)),
        Object::Apc(apc) => script.cpu_of(script.owner_of(apc)),
    }
}

/// What kind of insert the event of this number made of the object.
fn sort_of(script: &Script, events: &Briefs<'_>, at: usize, object: Object) -> Sort
    requires { at < length events.now.briefs.now }
    ensures { result
        ≡ sort_of script.now (events_in events.now.briefs.now events.now.rises.now) at object }
{
    match object {
        Object::Dpc(dpc) => Sort::Dpc(importance_at(events, dpc, at)),
        Object::Apc(apc) => Sort::Apc(script.owner_of(apc), script.kind_of(apc)),
    }
}

/// The insert of the object by the event of this number.
pub(crate) fn insert_of(script: &Script, events: &Briefs<'_>, at: usize, object: Object) -> Pending
    requires { at < length events.now.briefs.now }
    ensures at { result.at ≡ at }
    ensures cpu { result.cpu
        ≡ place_of script.now (events_in events.now.briefs.now events.now.rises.now) at object }
    ensures by { result.by
        ≡ maker_of (events_in events.now.briefs.now events.now.rises.now) at }
    ensures sort { result.sort
        ≡ sort_of script.now (events_in events.now.briefs.now events.now.rises.now) at object }
{
    Pending {
        cpu: place_of(script, events, at, object),
        at: at as u64,
        by: maker_of(events, at),
        sort: sort_of(script, events, at, object),
    }
}
