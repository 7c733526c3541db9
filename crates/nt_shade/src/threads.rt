//! Threads, without the numbers of their waits and of their APCs' inserts.
ghost use Rattle.std.specs.Prelude.{◌≡◌, IfOk, map};
ghost use Rattle.nt_alike.specs.Bare.{bare_doing, bare_facts, bare_pick};
ghost use Rattle.nt_shade.specs.Threads.{pick_said, thread_said};

use nt_event::{ApcKind, ApcNo, Doing, Mode, Pick, Waiting};
use nt_thread::ThreadState;
use std::alloc::{AllocError, Global};

/// A pending insert of an APC object.
#[derive(Clone, Copy, PartialEq, Eq, Hash, Debug)]
pub struct ShadePick {
    pub apc: ApcNo,
    pub kind: ApcKind,
}

/// What stands of a thread.
#[derive(Clone, PartialEq, Eq, Hash, Drop, Debug)]
pub struct ShadeThread {
    /// What it is doing; the number of the event that blocked it is 0.
    pub doing: Doing,
    pub alerted_kernel: bool,
    pub alerted_user: bool,
    /// Whether its user-pending mark is set.
    pub user_pending: bool,
    /// Whether its released mark is set.
    pub released: bool,
    /// Whether its base routine has ended and it is not gone.
    pub leaving: bool,
    /// The pending inserts of its APCs in the order in which they came.
    pub apcs: Vec<ShadePick>,
    /// Whether it takes no APC any more.
    pub closed: bool,
}

/// What a thread is doing, without the number of the event that blocked it.
fn bare_doing(doing: &Doing) -> Doing
    ensures { result ≡ bare_doing doing.now }
{
    match doing {
        Doing::Blocked(waiting) => Doing::Blocked(Waiting {
            event: 0,
            ..*waiting
        }),
        Doing::Ready { .. } | Doing::Running | Doing::Gone => *doing,
    }
}

/// These pending inserts, without their numbers.
fn picks_of(alloc: Global, pending: &[Pick]) -> Result<Vec<ShadePick>, AllocError>
    ensures { IfOk result (λ v. map pick_said v.items ≡ map bare_pick pending.now) }
{
    let mut picks = Vec::with_capacity(alloc, pending.len())?;
    for pick in pending {
        picks.push(ShadePick {
            apc: pick.apc,
            kind: pick.kind,
        })?;
    }
    Ok(picks)
}

/// What stands of a thread.
fn thread_of(alloc: Global, state: &ThreadState) -> Result<ShadeThread, AllocError>
    ensures { IfOk result (λ x. thread_said x ≡ bare_facts state.now) }
{
    let apcs = state.apcs();
    Ok(ShadeThread {
        doing: bare_doing(state.doing()),
        alerted_kernel: state.was_alerted(Mode::Kernel),
        alerted_user: state.was_alerted(Mode::User),
        user_pending: state.user_pending(),
        released: state.was_released(),
        leaving: state.is_leaving(),
        apcs: picks_of(alloc, apcs.pending())?,
        closed: apcs.is_closed(),
    })
}

/// What stands of threads, in their order.
pub fn threads_of(alloc: Global, states: &[ThreadState]) -> Result<Vec<ShadeThread>, AllocError>
    ensures { IfOk result (λ v. map thread_said v.items ≡ map bare_facts states.now) }
{
    let mut threads = Vec::with_capacity(alloc, states.len())?;
    for state in states {
        threads.push(thread_of(alloc, state)?)?;
    }
    Ok(threads)
}
