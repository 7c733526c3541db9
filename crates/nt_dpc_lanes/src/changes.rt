//! What an event changes of objects and queues.
ghost use Rattle.std.specs.Prelude.{◌≡◌};
ghost use Rattle.nt_dpc_lanes.specs.Changes.{begin_change, call_change, change_of as change_in};
ghost use Rattle.nt_dpc_lanes.specs.Changes.{change_where as change_if};

use nt_event::{Begun, Command, CpuNo, DpcNo, Importance, Part, Reply, What};

/// A change of an object, of a queue, or of both.
#[derive(Clone, Copy, PartialEq, Eq, Debug)]
pub enum Change {
    /// None.
    Nothing,
    /// The object is inserted.
    Insert(DpcNo),
    /// The object is removed.
    Remove(DpcNo),
    /// The object, which is the first one of the part, is taken from the processor's own queue.
    Take(Part, DpcNo),
    /// The object has this importance.
    SetImportance(DpcNo, Importance),
    /// The object has this target.
    SetTarget(DpcNo, Option<CpuNo>),
    /// The processor is idle.
    Rest,
    /// The processor isn't idle.
    Run,
}

/// What an event changes.
#[inline(always)]
pub fn change_of(what: &What) -> Change
    ensures { result ≡ change_in what.now }
{
    match what {
        What::Call { command, reply, .. } => of_call(command, reply),
        What::Begin { begun, .. } => of_begin(begun),
        What::Fire { dpc, reply } => change_where(reply.is_yes(), Change::Insert(*dpc)),
        What::Switch { .. } => Change::Run,
        What::Rest => Change::Rest,
        What::Look { .. }
        | What::Normal { .. }
        | What::End { .. }
        | What::Expire { .. }
        | What::Clean { .. }
        | What::Rewait { .. }
        | What::Flush { .. }
        | What::Gone { .. }
        | What::Free { .. } => Change::Nothing,
    }
}

/// The change where the test holds, else none.
fn change_where(holds: bool, change: Change) -> Change
    ensures { result ≡ change_if holds change }
{
    if holds { change } else { Change::Nothing }
}

fn of_call(command: &Command, reply: &Reply) -> Change
    ensures { result ≡ call_change command.now reply.now }
{
    match command {
        Command::Queue(d) => change_where(reply.is_yes(), Change::Insert(*d)),
        Command::Unqueue(d) => change_where(reply.is_yes(), Change::Remove(*d)),
        Command::SetImportance(d, i) => change_where(
            reply.is_done(),
            Change::SetImportance(*d, *i),
        ),
        Command::SetTarget(d, t) => change_where(reply.is_done(), Change::SetTarget(*d, *t)),
        Command::Raise(_)
        | Command::Lower(_)
        | Command::SetTimer(_, _, _)
        | Command::CancelTimer(_)
        | Command::InsertApc(_)
        | Command::RemoveApc(_)
        | Command::EnterCrit
        | Command::EnterGuard
        | Command::LeaveCrit
        | Command::LeaveGuard
        | Command::StartWait(_, _)
        | Command::Delay(_, _, _)
        | Command::Release(_)
        | Command::Alert(_, _)
        | Command::TestAlert(_)
        | Command::Interrupt(_, _)
        | Command::Clock(_)
        | Command::ToUser
        | Command::Yield
        | Command::Acquire(_)
        | Command::Unlock(_)
        | Command::Note(_) => Change::Nothing,
    }
}

fn of_begin(begun: &Begun) -> Change
    ensures { result ≡ begin_change begun.now }
{
    match begun {
        Begun::Dpc(d) => Change::Take(Part::Ordinary, *d),
        Begun::Threaded(d) => Change::Take(Part::Threaded, *d),
        Begun::Int(_) | Begun::Apc(_) => Change::Nothing,
    }
}
