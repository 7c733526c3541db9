//! What an event does to the inserts that wait.
ghost use Rattle.std.specs.Prelude.{◌≡◌, ◌<◌, ℕ, length};
ghost use Rattle.nt_event.specs.declared.commands.Reply.TheVariants.{Yes};
ghost use Rattle.nt_event.specs.declared.events.Rises.{Rises};
ghost use Rattle.nt_event.specs.declared.events.What.TheVariants as what;
ghost use Rattle.nt_history.specs.Briefs.{what_of};
ghost use Rattle.nt_work.specs.Audits.{lent};
ghost use Rattle.nt_work.specs.Changes.{change_at, change_in, same_thing, thing_of};

use nt_event::{ApcNo, Begun, Command, DpcNo, Reply};
use nt_history::{Briefs, Did};

/// An object that can be inserted.
#[derive(Clone, Copy)]
pub(crate) enum Object {
    Dpc(DpcNo),
    Apc(ApcNo),
}

/// An insert: the number of its event and what it inserts.
#[derive(Clone, Copy)]
pub(crate) struct Insert {
    pub(crate) number: u64,
    pub(crate) object: Object,
}

/// What an event does to the inserts.
#[derive(Clone, Copy)]
pub(crate) enum Change {
    /// It inserts the object.
    Inserts(Object),
    /// It removes the object: it uses up each insert of it.
    Removes(Object),
    /// It uses up this insert.
    Takes(Insert),
    /// It inserts nothing and uses up nothing.
    Nothing,
}

fn is_same(x: Object, y: Object) -> bool
    ensures { result ≡ same_thing (thing_of x) (thing_of y) }
{
    match (x, y) {
        (Object::Dpc(x), Object::Dpc(y)) => x.0 == y.0,
        (Object::Apc(x), Object::Apc(y)) => x.0 == y.0,
        (Object::Dpc(_), Object::Apc(_)) | (Object::Apc(_), Object::Dpc(_)) => false,
    }
}

impl Change {
    ghost use Rattle.std.specs.Prelude.{◌≡◌};
    ghost use Rattle.nt_work.specs.Changes.{thing_of, uses};

    /// Whether it uses up this insert, where that is an earlier one.
    pub(crate) fn uses_up(&self, insert: &Insert) -> bool
        ensures { result ≡ uses self.now (thing_of insert.now.object) insert.now.number }
    {
        match self {
            Change::Removes(object) => is_same(*object, insert.object),
            Change::Takes(taken) => {
                is_same(taken.object, insert.object) && taken.number == insert.number
            }
            Change::Inserts(_) | Change::Nothing => false,
        }
    }
}

/// What a call with reply yes does.
fn change_by(command: &Command) -> Change
    ensures { (f : ℕ) → result ≡ change_in (what.Call f command.now Yes) }
{
    match command {
        Command::Queue(dpc) => Change::Inserts(Object::Dpc(*dpc)),
        Command::InsertApc(apc) => Change::Inserts(Object::Apc(*apc)),
        Command::Unqueue(dpc) => Change::Removes(Object::Dpc(*dpc)),
        Command::RemoveApc(apc) => Change::Removes(Object::Apc(*apc)),
        Command::Raise(_)
        | Command::Lower(_)
        | Command::SetImportance(_, _)
        | Command::SetTarget(_, _)
        | Command::SetTimer(_, _, _)
        | Command::CancelTimer(_)
        | Command::EnterCrit
        | Command::EnterGuard
        | Command::LeaveCrit
        | Command::LeaveGuard
        | Command::StartWait(_, _)
        | Command::Delay(_, _, _)
        | Command::Release(_)
        | Command::Alert(_, _)
        | Command::TestAlert(_)
        | Command::Interrupt(_, _)
        | Command::Clock(_)
        | Command::ToUser
        | Command::Yield
        | Command::Acquire(_)
        | Command::Unlock(_)
        | Command::Note(_) => Change::Nothing,
    }
}

/// What a call does.
fn change_of_call(command: &Command, reply: &Reply) -> Change
    ensures { (f : ℕ) → result ≡ change_in (what.Call f command.now reply.now) }
{
    match reply {
        Reply::Yes => change_by(command),
        Reply::Done
        | Reply::No
        | Reply::Status(_)
        | Reply::Blocked
        | Reply::Spin
        | Reply::Refused(_) => Change::Nothing,
    }
}

/// What the expiry of a timer does that inserts a DPC object.
fn change_of_fire(dpc: DpcNo, reply: &Reply) -> Change
    ensures { result ≡ change_in (what.Fire dpc reply.now) }
{
    match reply {
        Reply::Yes => Change::Inserts(Object::Dpc(dpc)),
        Reply::Done
        | Reply::No
        | Reply::Status(_)
        | Reply::Blocked
        | Reply::Spin
        | Reply::Refused(_) => Change::Nothing,
    }
}

/// What a begin does.
fn change_of_begin(begun: &Begun, number: u64) -> Change
    ensures { result ≡ change_in (what.Begin begun.now number) }
{
    match begun {
        Begun::Dpc(dpc) | Begun::Threaded(dpc) => Change::Takes(Insert {
            number,
            object: Object::Dpc(*dpc),
        }),
        Begun::Apc(apc) => Change::Takes(Insert {
            number,
            object: Object::Apc(*apc),
        }),
        Begun::Int(_) => Change::Nothing,
    }
}

/// What an event does.
fn change_of(did: &Did) -> Change
    ensures { (r : Rises) → result ≡ change_in (what_of r did.now) }
{
    match did {
        Did::Call { command, reply, .. } => change_of_call(command, reply),
        Did::Fire { dpc, reply } => change_of_fire(*dpc, reply),
        Did::Begin { begun, from } => change_of_begin(begun, *from),
        Did::Flush { apc, from } => Change::Takes(Insert {
            number: *from,
            object: Object::Apc(*apc),
        }),
        Did::Look { .. }
        | Did::Normal { .. }
        | Did::End { .. }
        | Did::Expire { .. }
        | Did::Clean { .. }
        | Did::Switch { .. }
        | Did::Rewait { .. }
        | Did::Gone { .. }
        | Did::Free { .. }
        | Did::Rest => Change::Nothing,
    }
}

/// What the event of this number does.
pub(crate) fn change_at(events: &Briefs, number: usize) -> Change
    requires { number < length events.now.briefs.now }
    ensures { result ≡ change_at (lent events.now) number }
{
    change_of(&events.briefs[number].did)
}
