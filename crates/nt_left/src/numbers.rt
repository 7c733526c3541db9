//! The number of a pending insert of a DPC object, read of the events.
ghost use Rattle.std.specs.Prelude.{◌≡◌};
ghost use Rattle.nt_left.specs.Walks.{number_after, number_begun, number_called, number_of};
ghost use Rattle.nt_left.specs.Walks.{past_of};

use nt_event::{Begun, Command, DpcNo, Reply, What};
use nt_history::Briefs;

/// The number of the object's pending insert behind a call, by the one before it.
fn number_called(
    dpc: DpcNo,
    number: u64,
    command: &Command,
    reply: &Reply,
    old: Option<u64>,
) -> Option<u64>
    ensures { result ≡ number_called dpc number command.now reply.now old }
{
    match command {
        Command::Queue(other) => if reply.is_yes() && other.0 == dpc.0 {
            Some(number)
        } else {
            old
        },
        Command::Unqueue(other) => if reply.is_yes() && other.0 == dpc.0 {
            None
        } else {
            old
        },
        Command::Raise(_)
        | Command::Lower(_)
        | Command::SetImportance(_, _)
        | Command::SetTarget(_, _)
        | Command::SetTimer(_, _, _)
        | Command::CancelTimer(_)
        | Command::InsertApc(_)
        | Command::RemoveApc(_)
        | Command::EnterCrit
        | Command::EnterGuard
        | Command::LeaveCrit
        | Command::LeaveGuard
        | Command::StartWait(_, _)
        | Command::Delay(_, _, _)
        | Command::Release(_)
        | Command::Alert(_, _)
        | Command::TestAlert(_)
        | Command::Interrupt(_, _)
        | Command::Clock(_)
        | Command::ToUser
        | Command::Yield
        | Command::Acquire(_)
        | Command::Unlock(_)
        | Command::Note(_) => old,
    }
}

/// The number of the object's pending insert behind a begin, by the one before it.
fn number_begun(dpc: DpcNo, begun: &Begun, old: Option<u64>) -> Option<u64>
    ensures { result ≡ number_begun dpc begun.now old }
{
    match begun {
        Begun::Dpc(other) | Begun::Threaded(other) => if other.0 == dpc.0 { None } else { old },
        Begun::Int(_) | Begun::Apc(_) => old,
    }
}

/// The number of the object's pending insert behind an event, by the one before it.
fn number_after(dpc: DpcNo, number: u64, what: &What, old: Option<u64>) -> Option<u64>
    ensures { result ≡ number_after dpc number what.now old }
{
    match what {
        What::Call { command, reply, .. } => number_called(dpc, number, command, reply, old),
        What::Begin { begun, .. } => number_begun(dpc, begun, old),
        What::Fire { dpc: other, reply } => if reply.is_yes() && other.0 == dpc.0 {
            Some(number)
        } else {
            old
        },
        What::Look { .. }
        | What::Normal { .. }
        | What::End { .. }
        | What::Expire { .. }
        | What::Clean { .. }
        | What::Switch { .. }
        | What::Rewait { .. }
        | What::Flush { .. }
        | What::Gone { .. }
        | What::Free { .. }
        | What::Rest => old,
    }
}

/// The number of the event that made the pending insert of the object.
pub(crate) fn number_of(events: &Briefs, dpc: DpcNo) -> Option<u64>
    ensures { result ≡ number_of dpc (past_of events.now) }
{
    let mut found = None;
    for number in 0..events.briefs.len() {
        let event = events.event(number);
        found = number_after(dpc, number as u64, &event.what, found);
    }
    found
}
