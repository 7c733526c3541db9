//! Which APC objects are inserted: a mark for each, since a thread's state tells of the first ones
//! alone.
ghost use Rattle.std.specs.Prelude.{◌≡◌, set};
ghost use Rattle.nt_thread_lanes.specs.Marks.{changed_apc as changed_by, marks_after};

use nt_event::{ApcNo, Begun, Command, Reply, What};

/// The APC object that the event inserts or takes out, and whether it is inserted afterwards.
fn changed_apc(what: &What) -> Option<(ApcNo, bool)>
    ensures { result ≡ changed_by what.now }
{
    match what {
        What::Call { command, reply, .. } => match (command, reply) {
            (Command::InsertApc(a), Reply::Yes) => Some((*a, true)),
            (Command::RemoveApc(a), Reply::Yes) => Some((*a, false)),
            (Command::Raise(_), _)
            | (Command::Lower(_), _)
            | (Command::Queue(_), _)
            | (Command::Unqueue(_), _)
            | (Command::SetImportance(_, _), _)
            | (Command::SetTarget(_, _), _)
            | (Command::SetTimer(_, _, _), _)
            | (Command::CancelTimer(_), _)
            | (Command::InsertApc(_), _)
            | (Command::RemoveApc(_), _)
            | (Command::EnterCrit, _)
            | (Command::EnterGuard, _)
            | (Command::LeaveCrit, _)
            | (Command::LeaveGuard, _)
            | (Command::StartWait(_, _), _)
            | (Command::Delay(_, _, _), _)
            | (Command::Release(_), _)
            | (Command::Alert(_, _), _)
            | (Command::TestAlert(_), _)
            | (Command::Interrupt(_, _), _)
            | (Command::Clock(_), _)
            | (Command::ToUser, _)
            | (Command::Yield, _)
            | (Command::Acquire(_), _)
            | (Command::Unlock(_), _)
            | (Command::Note(_), _) => None,
        },
        What::Begin {
            begun: Begun::Apc(a),
            ..
        } => Some((*a, false)),
        What::Flush { apc, .. } => Some((*apc, false)),
        What::Look { .. }
        | What::Begin {
            begun: Begun::Int(_) | Begun::Dpc(_) | Begun::Threaded(_),
            ..
        }
        | What::Normal { .. }
        | What::End { .. }
        | What::Expire { .. }
        | What::Fire { .. }
        | What::Clean { .. }
        | What::Switch { .. }
        | What::Rewait { .. }
        | What::Gone { .. }
        | What::Free { .. }
        | What::Rest => None,
    }
}

/// Changes the mark of the APC object that the event inserts or takes out.
pub fn mark(inserted: &mut Vec<bool>, what: &What)
    ensures { inserted.new.items ≡ marks_after what.now inserted.old.items }
{
    if let Some((a, flag)) = changed_apc(what) {
        set_mark(inserted, a, flag);
    }
}

fn set_mark(inserted: &mut Vec<bool>, a: ApcNo, flag: bool)
    ensures { inserted.new.items ≡ set inserted.old.items a.0 flag }
{
    let place = a.0 as usize;
    if place < inserted.len() {
        inserted[place] = flag;
    }
}
