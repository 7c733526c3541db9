//! Objects that can be inserted, and what an event does to them.
ghost use Rattle.std.specs.Prelude.{ℕ, ◌≡◌, option_map};
ghost use Rattle.nt_event.specs.Fate.{inserted_thing};
ghost use Rattle.nt_event.specs.declared.events.What.TheVariants as what;
ghost use Rattle.nt_event.specs.declared.events.Rises.{Rises};
ghost use Rattle.nt_history.specs.Briefs.{what_of};
ghost use Rattle.nt_print.specs.Uses.{thing_of, same_thing, is_it};

use nt_event::{ApcNo, Command, DpcNo, Reply};
use nt_history::Did;

/// An object that can be inserted.
#[derive(Clone, Copy)]
pub(crate) enum Object {
    Dpc(DpcNo),
    Apc(ApcNo),
}

/// An insert: the number of its event and what it inserts.
#[derive(Clone, Copy)]
pub(crate) struct Insert {
    pub number: u64,
    pub object: Object,
}

fn is_same(x: Object, y: Object) -> bool
    ensures { result ≡ same_thing (thing_of x) (thing_of y) }
{
    match (x, y) {
        (Object::Dpc(x), Object::Dpc(y)) => x.0 == y.0,
        (Object::Apc(x), Object::Apc(y)) => x.0 == y.0,
        (Object::Dpc(_), Object::Apc(_)) | (Object::Apc(_), Object::Dpc(_)) => false,
    }
}

/// The object that a call inserts.
fn inserted_by(command: &Command, reply: &Reply) -> Option<Object>
    ensures { (f : ℕ) →
        option_map thing_of result ≡ inserted_thing (what.Call f command.now reply.now) }
{
    match (command, reply) {
        (Command::Queue(dpc), Reply::Yes) => Some(Object::Dpc(*dpc)),
        (Command::InsertApc(apc), Reply::Yes) => Some(Object::Apc(*apc)),
        (Command::Raise(_), _)
        | (Command::Lower(_), _)
        | (Command::Queue(_), _)
        | (Command::Unqueue(_), _)
        | (Command::SetImportance(_, _), _)
        | (Command::SetTarget(_, _), _)
        | (Command::SetTimer(_, _, _), _)
        | (Command::CancelTimer(_), _)
        | (Command::InsertApc(_), _)
        | (Command::RemoveApc(_), _)
        | (Command::EnterCrit, _)
        | (Command::EnterGuard, _)
        | (Command::LeaveCrit, _)
        | (Command::LeaveGuard, _)
        | (Command::StartWait(_, _), _)
        | (Command::Delay(_, _, _), _)
        | (Command::Release(_), _)
        | (Command::Alert(_, _), _)
        | (Command::TestAlert(_), _)
        | (Command::Interrupt(_, _), _)
        | (Command::Clock(_), _)
        | (Command::ToUser, _)
        | (Command::Yield, _)
        | (Command::Acquire(_), _)
        | (Command::Unlock(_), _)
        | (Command::Note(_), _) => None,
    }
}

/// The object that an event inserts.
pub(crate) fn inserted(did: &Did) -> Option<Object>
    ensures { (r : Rises) → option_map thing_of result ≡ inserted_thing (what_of r did.now) }
{
    match did {
        Did::Call { command, reply, .. } => inserted_by(command, reply),
        Did::Fire { dpc, reply } => match reply {
            Reply::Yes => Some(Object::Dpc(*dpc)),
            Reply::Done
            | Reply::No
            | Reply::Status(_)
            | Reply::Blocked
            | Reply::Spin
            | Reply::Refused(_) => None,
        },
        Did::Look { .. }
        | Did::Begin { .. }
        | Did::Normal { .. }
        | Did::End { .. }
        | Did::Expire { .. }
        | Did::Clean { .. }
        | Did::Switch { .. }
        | Did::Rewait { .. }
        | Did::Flush { .. }
        | Did::Gone { .. }
        | Did::Free { .. }
        | Did::Rest => None,
    }
}

/// Whether an event inserts the object.
pub(crate) fn inserts(object: Object, did: &Did) -> bool
    ensures { (r : Rises) → result ≡ is_it (thing_of object) (inserted_thing (what_of r did.now)) }
{
    match inserted(did) {
        Some(found) => is_same(object, found),
        None => false,
    }
}
