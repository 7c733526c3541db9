//! Whether a quiet end shows that an expectation fails.
ghost use Rattle.std.specs.List.{list_any};
ghost use Rattle.std.specs.Prelude.{◌≡◌, IsTrue, List, is_some, reverse};
ghost use Rattle.nt_event.specs.declared.events.Event.{Event};
ghost use Rattle.nt_event.specs.Apcs.{is_inserted, is_of_apc};
ghost use Rattle.nt_event.specs.Lanes.{facts_at, lanes_at, lock_at, object_at};
ghost use Rattle.nt_event.specs.Objects.{is_queued};
ghost use Rattle.nt_event.specs.Script.{has_dpc, has_lock};
ghost use Rattle.nt_event.specs.Threads.{waiting};
ghost use Rattle.nt_expect.specs.Expectations.{expectation_fits};
ghost use Rattle.nt_expect.specs.Meaning.{ShowsAtEnd};
ghost use Rattle.nt_verdict.specs.Closed.{watched_by};
ghost use Rattle.nt_shows.specs.Tells.{AreCame, Tells};

use crate::showing::has_come;
use nt_event::{ApcNo, Doing, DpcNo, LockNo, Pick, Script, ThreadNo};
use nt_expect::Expectation;
use nt_plain::PlainFloor;
use nt_states::LaneAnswers;

/// Whether the DPC object is in a queue.
fn dpc_waits(floor: &PlainFloor, dpc: DpcNo) -> bool
    requires { IsTrue (has_dpc floor.now.script dpc) }
    ensures { result ≡ is_queued (object_at floor.now.lanes dpc) }
{
    floor.states().is_queued(dpc)
}

/// Whether an insert of the APC object is among these, the oldest first.
fn is_pending(pending: &[Pick], apc: ApcNo) -> bool
    ensures { result ≡ list_any (is_of_apc apc) (reverse pending.now) }
{
    pending.iter().rev().any(|pick| pick.apc.0 == apc.0)
}

/// Whether the APC object of this thread is pending.
fn apc_waits(floor: &PlainFloor, owner: ThreadNo, apc: ApcNo) -> bool
    ensures { result ≡ is_inserted apc (facts_at floor.now.lanes owner).apcs }
{
    match floor.threads().states().get(usize::from(owner.0)) {
        Some(state) => is_pending(state.apcs().pending(), apc),
        None => false,
    }
}

/// Whether the thread is blocked.
fn is_blocked(floor: &PlainFloor, thread: ThreadNo) -> bool
    ensures { result ≡ is_some (waiting (facts_at floor.now.lanes thread)) }
{
    match floor.threads().states().get(usize::from(thread.0)) {
        Some(state) => matches!(state.doing(), Doing::Blocked(_)),
        None => false,
    }
}

/// Whether a processor spins on the lock.
fn is_spun_on(floor: &PlainFloor, lock: LockNo) -> bool
    requires { IsTrue (has_lock floor.now.script lock) }
    ensures { result ≡ list_any (λ b. b) (lock_at floor.now.lanes lock).spinners }
{
    floor.states().spinners(lock).iter().any(|spins| *spins)
}

/// Whether the history shows that the expectation fails, where all is quiet behind it.
///
/// The flags tell, of the events that the expectation watches for, whether such an event came. The
/// floor is that of the script, which the expectation fits, and stands behind the history.
pub fn shows_at_end(
    expectation: &Expectation,
    came: &[bool],
    script: &Script,
    floor: &PlainFloor,
) -> bool
    requires named { IsTrue (expectation_fits script.now expectation.now) }
    requires floor { floor.now.script ≡ script.now }
    ensures { (past : List Event) →
        AreCame (watched_by expectation.now) past came.now →
        floor.now.lanes ≡ lanes_at script.now past →
        Tells result (ShowsAtEnd script.now expectation.now past) }
{
    match expectation {
        Expectation::NeverWaitsDpc(dpc) => dpc_waits(floor, *dpc),
        Expectation::NeverWaitsApc(apc) => apc_waits(floor, script.owner_of(*apc), *apc),
        Expectation::NeverBlocked(thread) => is_blocked(floor, *thread),
        Expectation::NeverSpins(lock) => is_spun_on(floor, *lock),
        Expectation::Always(_) => !has_come(came, 0),
        Expectation::Never(_)
        | Expectation::NeverAfter(_, _)
        | Expectation::NeverBefore(_, _)
        | Expectation::NeverTwice(_)
        | Expectation::NeverAbove(_, _)
        | Expectation::NeverOn(_, _)
        | Expectation::NeverWith(_, _)
        | Expectation::AlwaysEnds => false,
    }
}
