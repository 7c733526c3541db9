//! The last insert of an object, and what became of it, by a walk over the events.
ghost use Rattle.std.specs.Prelude.{◌≡◌, ◌≤◌, ◌<◌, ◌&&◌, ℕ, IfSome, if◌then◌else◌, length, nat_lt};
ghost use Rattle.std.specs.Prelude.{Some, not, option_map};
ghost use Rattle.nt_event.specs.Fate.{StillWaits, fate_by, fate_of as fate_in, first_fate};
ghost use Rattle.nt_event.specs.Fate.{inserted_thing};
ghost use Rattle.nt_event.specs.Fate.{still_waits};
ghost use Rattle.nt_event.specs.Fate.{thing_removed, uses_up as uses_up_of};
ghost use Rattle.nt_event.specs.declared.events.What.TheVariants as what;
ghost use Rattle.nt_history.specs.Briefs.{events_in};
ghost use Rattle.nt_why.specs.Past.{past_at};
ghost use Rattle.nt_why.specs.Fates.{begun_thing, delivers as delivers_it, fate_as, is_it};
ghost use Rattle.nt_why.specs.Fates.{last_insert, same_thing, thing_of};

use nt_event::{ApcNo, Begun, Command, DpcNo, Reply, What};
use nt_history::Briefs;

/// An object that can be inserted.
#[derive(Clone, Copy, PartialEq, Eq, Debug)]
pub enum Object {
    /// A DPC object.
    Dpc(DpcNo),
    /// An APC object.
    Apc(ApcNo),
}

/// What became of an insert, with the number of the event that used it up.
#[derive(Clone, Copy, PartialEq, Eq, Debug)]
pub enum Fate {
    /// This event began it.
    Begun(u64),
    /// This call removed it.
    Removed(u64),
    /// This event flushed it: its thread ended first.
    Flushed(u64),
    /// No event used it up.
    Waits,
}

fn is_same(x: Object, y: Object) -> bool
    ensures { result ≡ same_thing (thing_of x) (thing_of y) }
{
    match (x, y) {
        (Object::Dpc(x), Object::Dpc(y)) => x.0 == y.0,
        (Object::Apc(x), Object::Apc(y)) => x.0 == y.0,
        (Object::Dpc(_), Object::Apc(_)) | (Object::Apc(_), Object::Dpc(_)) => false,
    }
}

/// Whether the object is the one that was found.
pub(crate) fn is_found(object: Object, found: Option<Object>) -> bool
    ensures { result ≡ is_it (thing_of object) (option_map thing_of found) }
{
    match found {
        Some(found) => is_same(found, object),
        None => false,
    }
}

/// The object that a call inserts.
fn inserted_by(command: &Command, reply: &Reply) -> Option<Object>
    ensures { (f : ℕ) →
        option_map thing_of result ≡ inserted_thing (what.Call f command.now reply.now) }
{
    match (command, reply) {
        (Command::Queue(dpc), Reply::Yes) => Some(Object::Dpc(*dpc)),
        (Command::InsertApc(apc), Reply::Yes) => Some(Object::Apc(*apc)),
        (Command::Raise(_), _)
        | (Command::Lower(_), _)
        | (Command::Queue(_), _)
        | (Command::Unqueue(_), _)
        | (Command::SetImportance(_, _), _)
        | (Command::SetTarget(_, _), _)
        | (Command::SetTimer(_, _, _), _)
        | (Command::CancelTimer(_), _)
        | (Command::InsertApc(_), _)
        | (Command::RemoveApc(_), _)
        | (Command::EnterCrit, _)
        | (Command::EnterGuard, _)
        | (Command::LeaveCrit, _)
        | (Command::LeaveGuard, _)
        | (Command::StartWait(_, _), _)
        | (Command::Delay(_, _, _), _)
        | (Command::Release(_), _)
        | (Command::Alert(_, _), _)
        | (Command::TestAlert(_), _)
        | (Command::Interrupt(_, _), _)
        | (Command::Clock(_), _)
        | (Command::ToUser, _)
        | (Command::Yield, _)
        | (Command::Acquire(_), _)
        | (Command::Unlock(_), _)
        | (Command::Note(_), _) => None,
    }
}

/// The object that a call removes.
fn removed_by(command: &Command, reply: &Reply) -> Option<Object>
    ensures { option_map thing_of result ≡ thing_removed command.now reply.now }
{
    match (command, reply) {
        (Command::Unqueue(dpc), Reply::Yes) => Some(Object::Dpc(*dpc)),
        (Command::RemoveApc(apc), Reply::Yes) => Some(Object::Apc(*apc)),
        (Command::Raise(_), _)
        | (Command::Lower(_), _)
        | (Command::Queue(_), _)
        | (Command::Unqueue(_), _)
        | (Command::SetImportance(_, _), _)
        | (Command::SetTarget(_, _), _)
        | (Command::SetTimer(_, _, _), _)
        | (Command::CancelTimer(_), _)
        | (Command::InsertApc(_), _)
        | (Command::RemoveApc(_), _)
        | (Command::EnterCrit, _)
        | (Command::EnterGuard, _)
        | (Command::LeaveCrit, _)
        | (Command::LeaveGuard, _)
        | (Command::StartWait(_, _), _)
        | (Command::Delay(_, _, _), _)
        | (Command::Release(_), _)
        | (Command::Alert(_, _), _)
        | (Command::TestAlert(_), _)
        | (Command::Interrupt(_, _), _)
        | (Command::Clock(_), _)
        | (Command::ToUser, _)
        | (Command::Yield, _)
        | (Command::Acquire(_), _)
        | (Command::Unlock(_), _)
        | (Command::Note(_), _) => None,
    }
}

/// The object that an event inserts.
fn inserted(what: &What) -> Option<Object>
    ensures { option_map thing_of result ≡ inserted_thing what.now }
{
    match what {
        What::Call { command, reply, .. } => inserted_by(command, reply),
        What::Fire { dpc, reply } => match reply {
            Reply::Yes => Some(Object::Dpc(*dpc)),
            Reply::Done
            | Reply::No
            | Reply::Status(_)
            | Reply::Blocked
            | Reply::Spin
            | Reply::Refused(_) => None,
        },
        What::Look { .. }
        | What::Begin { .. }
        | What::Normal { .. }
        | What::End { .. }
        | What::Expire { .. }
        | What::Clean { .. }
        | What::Switch { .. }
        | What::Rewait { .. }
        | What::Flush { .. }
        | What::Gone { .. }
        | What::Free { .. }
        | What::Rest => None,
    }
}

/// The object whose insert begins.
fn begun_of(begun: &Begun) -> Option<Object>
    ensures { option_map thing_of result ≡ begun_thing begun.now }
{
    match begun {
        Begun::Dpc(dpc) | Begun::Threaded(dpc) => Some(Object::Dpc(*dpc)),
        Begun::Apc(apc) => Some(Object::Apc(*apc)),
        Begun::Int(_) => None,
    }
}

/// Whether an event begins or flushes the insert of this number.
pub(crate) fn delivers(object: Object, number: u64, what: &What) -> bool
    ensures { result ≡ delivers_it (thing_of object) number what.now }
{
    match what {
        What::Begin { begun, from } => is_found(object, begun_of(begun)) && *from == number,
        What::Flush { apc, from } => {
            is_found(object, Some(Object::Apc(*apc))) && *from == number
        }
        What::Call { .. }
        | What::Fire { .. }
        | What::Look { .. }
        | What::Normal { .. }
        | What::End { .. }
        | What::Expire { .. }
        | What::Clean { .. }
        | What::Switch { .. }
        | What::Rewait { .. }
        | What::Gone { .. }
        | What::Free { .. }
        | What::Rest => false,
    }
}

/// Whether an event uses up the insert of this number: it begins or flushes it, or removes the
/// object.
fn uses_up(object: Object, number: u64, what: &What) -> bool
    ensures { result ≡ uses_up_of (thing_of object) number what.now }
{
    match what {
        What::Call { command, reply, .. } => is_found(object, removed_by(command, reply)),
        What::Begin { .. }
        | What::Flush { .. }
        | What::Fire { .. }
        | What::Look { .. }
        | What::Normal { .. }
        | What::End { .. }
        | What::Expire { .. }
        | What::Clean { .. }
        | What::Switch { .. }
        | What::Rewait { .. }
        | What::Gone { .. }
        | What::Free { .. }
        | What::Rest => delivers(object, number, what),
    }
}

/// What becomes of an insert by the event of this number, which uses it up.
fn fate_by(what: &What, number: u64) -> Fate
    ensures { fate_as result ≡ fate_by what.now number }
{
    match what {
        What::Begin { .. } => Fate::Begun(number),
        What::Flush { .. } => Fate::Flushed(number),
        What::Call { .. }
        | What::Fire { .. }
        | What::Look { .. }
        | What::Normal { .. }
        | What::End { .. }
        | What::Expire { .. }
        | What::Clean { .. }
        | What::Switch { .. }
        | What::Rewait { .. }
        | What::Gone { .. }
        | What::Free { .. }
        | What::Rest => Fate::Removed(number),
    }
}

/// The fate of the insert of this number after the event at `at`, where it had this one before.
fn fate_after(fate: Fate, object: Object, number: u64, at: u64, what: &What) -> Fate
    ensures { fate_as result ≡ first_fate (fate_as fate)
        (if nat_lt number at && uses_up_of (thing_of object) number what.now
        then fate_by what.now at else StillWaits) }
{
    match fate {
        Fate::Waits => {
            if number < at && uses_up(object, number, what) {
                fate_by(what, at)
            } else {
                Fate::Waits
            }
        }
        Fate::Begun(_) | Fate::Removed(_) | Fate::Flushed(_) => fate,
    }
}

/// Whether the insert is used up.
pub(crate) fn is_over(fate: Fate) -> bool
    ensures { result ≡ not (still_waits (fate_as fate)) }
{
    match fate {
        Fate::Waits => false,
        Fate::Begun(_) | Fate::Removed(_) | Fate::Flushed(_) => true,
    }
}

/// What became of the insert of this number by the first `end` events.
pub(crate) fn fate_of(events: &Briefs<'_>, object: Object, number: u64, end: usize) -> Fate
    requires { end ≤ length events.now.briefs.now }
    ensures { fate_as result ≡ fate_in (thing_of object) number
        (past_at end (events_in events.now.briefs.now events.now.rises.now)) }
{
    let mut fate = Fate::Waits;
    for at in 0..end {
        let event = events.event(at);
        fate = fate_after(fate, object, number, at as u64, &event.what);
    }
    fate
}

/// The number of the last insert after the event of this number, where this was it before.
fn last_after(object: Object, at: u64, what: &What, last: Option<u64>) -> Option<u64>
    ensures { result
        ≡ (if is_it (thing_of object) (inserted_thing what.now) then Some at else last) }
{
    if is_found(object, inserted(what)) {
        Some(at)
    } else {
        last
    }
}

/// The number of the last of the first `end` events that inserts the object.
pub(crate) fn last_insert(events: &Briefs<'_>, object: Object, end: usize) -> Option<u64>
    requires { end ≤ length events.now.briefs.now }
    ensures value { result ≡ last_insert (thing_of object)
        (past_at end (events_in events.now.briefs.now events.now.rises.now)) }
    ensures before { IfSome result (λ n. n < end) }
{
    let mut last = None;
    for at in 0..end {
        let event = events.event(at);
        last = last_after(object, at as u64, &event.what, last);
    }
    last
}
