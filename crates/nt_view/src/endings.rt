//! What is left at the end: processors that are cut or still spin, and inserts that still wait.
ghost use Rattle.nt_script.specs.Sound.{IsSound};

use crate::names::{apc, dpc, lock};
use crate::words::{put, put_numbered};
use nt_event::{ApcNo, Begun, Command, DpcNo, LockNo, Reply};
use nt_history::{Brief, Did, History};
use nt_script::Input;
use std::alloc::AllocError;

/// An object that is queued or inserted.
#[derive(Clone, Copy, PartialEq, Eq)]
enum Object {
    Dpc(DpcNo),
    Apc(ApcNo),
}

/// The object that a call with reply yes of this command inserts.
fn inserted_by(command: &Command) -> Option<Object> {
    match command {
        Command::Queue(dpc) => Some(Object::Dpc(*dpc)),
        Command::InsertApc(apc) => Some(Object::Apc(*apc)),
        Command::Raise(_)
        | Command::Lower(_)
        | Command::Unqueue(_)
        | Command::SetImportance(_, _)
        | Command::SetTarget(_, _)
        | Command::SetTimer(_, _, _)
        | Command::CancelTimer(_)
        | Command::RemoveApc(_)
        | Command::EnterCrit
        | Command::EnterGuard
        | Command::LeaveCrit
        | Command::LeaveGuard
        | Command::StartWait(_, _)
        | Command::Delay(_, _, _)
        | Command::Release(_)
        | Command::Alert(_, _)
        | Command::TestAlert(_)
        | Command::Interrupt(_, _)
        | Command::Clock(_)
        | Command::ToUser
        | Command::Yield
        | Command::Acquire(_)
        | Command::Unlock(_)
        | Command::Note(_) => None,
    }
}

/// The object that a call with reply yes of this command removes.
fn removed_by(command: &Command) -> Option<Object> {
    match command {
        Command::Unqueue(dpc) => Some(Object::Dpc(*dpc)),
        Command::RemoveApc(apc) => Some(Object::Apc(*apc)),
        Command::Raise(_)
        | Command::Lower(_)
        | Command::Queue(_)
        | Command::SetImportance(_, _)
        | Command::SetTarget(_, _)
        | Command::SetTimer(_, _, _)
        | Command::CancelTimer(_)
        | Command::InsertApc(_)
        | Command::EnterCrit
        | Command::EnterGuard
        | Command::LeaveCrit
        | Command::LeaveGuard
        | Command::StartWait(_, _)
        | Command::Delay(_, _, _)
        | Command::Release(_)
        | Command::Alert(_, _)
        | Command::TestAlert(_)
        | Command::Interrupt(_, _)
        | Command::Clock(_)
        | Command::ToUser
        | Command::Yield
        | Command::Acquire(_)
        | Command::Unlock(_)
        | Command::Note(_) => None,
    }
}

/// The lock that a command tries to acquire.
fn tried_by(command: &Command) -> Option<LockNo> {
    match command {
        Command::Acquire(lock) => Some(*lock),
        Command::Raise(_)
        | Command::Lower(_)
        | Command::Queue(_)
        | Command::Unqueue(_)
        | Command::SetImportance(_, _)
        | Command::SetTarget(_, _)
        | Command::SetTimer(_, _, _)
        | Command::CancelTimer(_)
        | Command::InsertApc(_)
        | Command::RemoveApc(_)
        | Command::EnterCrit
        | Command::EnterGuard
        | Command::LeaveCrit
        | Command::LeaveGuard
        | Command::StartWait(_, _)
        | Command::Delay(_, _, _)
        | Command::Release(_)
        | Command::Alert(_, _)
        | Command::TestAlert(_)
        | Command::Interrupt(_, _)
        | Command::Clock(_)
        | Command::ToUser
        | Command::Yield
        | Command::Unlock(_)
        | Command::Note(_) => None,
    }
}

/// The object that an event inserts.
fn inserted(did: &Did) -> Option<Object> {
    match did {
        Did::Call {
            command,
            reply: Reply::Yes,
            ..
        } => inserted_by(command),
        Did::Fire {
            dpc,
            reply: Reply::Yes,
        } => Some(Object::Dpc(*dpc)),
        Did::Call { .. }
        | Did::Look { .. }
        | Did::Begin { .. }
        | Did::Normal { .. }
        | Did::End { .. }
        | Did::Expire { .. }
        | Did::Fire { .. }
        | Did::Clean { .. }
        | Did::Switch { .. }
        | Did::Rewait { .. }
        | Did::Flush { .. }
        | Did::Gone { .. }
        | Did::Free { .. }
        | Did::Rest => None,
    }
}

/// The object that an event takes from where it waits.
fn used(did: &Did) -> Option<Object> {
    match did {
        Did::Call {
            command,
            reply: Reply::Yes,
            ..
        } => removed_by(command),
        Did::Begin { begun, .. } => match begun {
            Begun::Dpc(dpc) | Begun::Threaded(dpc) => Some(Object::Dpc(*dpc)),
            Begun::Apc(apc) => Some(Object::Apc(*apc)),
            Begun::Int(_) => None,
        },
        Did::Flush { apc, .. } => Some(Object::Apc(*apc)),
        Did::Call { .. }
        | Did::Look { .. }
        | Did::Normal { .. }
        | Did::End { .. }
        | Did::Expire { .. }
        | Did::Fire { .. }
        | Did::Clean { .. }
        | Did::Switch { .. }
        | Did::Rewait { .. }
        | Did::Gone { .. }
        | Did::Free { .. }
        | Did::Rest => None,
    }
}

/// The lock that an event tries in vain to acquire; None where it does not try, or not in
/// vain.
fn spun(did: &Did) -> Option<LockNo> {
    match did {
        Did::Call {
            command,
            reply: Reply::Spin,
            ..
        } => tried_by(command),
        Did::Call { .. }
        | Did::Look { .. }
        | Did::Begin { .. }
        | Did::Normal { .. }
        | Did::End { .. }
        | Did::Expire { .. }
        | Did::Fire { .. }
        | Did::Clean { .. }
        | Did::Switch { .. }
        | Did::Rewait { .. }
        | Did::Flush { .. }
        | Did::Gone { .. }
        | Did::Free { .. }
        | Did::Rest => None,
    }
}

/// What the events of a processor tell of how it stands at the end.
#[derive(Clone, Copy)]
struct Standing {
    /// How many there are.
    made: usize,
    /// Whether the last one is a Rest.
    rests: bool,
    /// The last try of a lock in vain: its number and the lock.
    spin: Option<(usize, LockNo)>,
}

impl Standing {
    /// Whether the processor made as many events as it may.
    fn is_cut(&self, limit: u32) -> bool {
        self.made == limit as usize
    }
}

/// How a processor stands at the end.
fn standing_of(events: &[Brief], cpu: u8) -> Standing {
    let mut standing = Standing {
        made: 0,
        rests: false,
        spin: None,
    };
    for (number, event) in events.iter().enumerate() {
        if event.cpu.0 == cpu {
            standing.made = standing.made.saturating_add(1);
            standing.rests = event.did == Did::Rest;
            if let Some(lock) = spun(&event.did) {
                standing.spin = Some((number, lock));
            }
        }
    }
    standing
}

/// Whether the object that an event of this number inserts is taken by none behind it.
fn still_waits(events: &[Brief], number: usize, object: Object) -> bool {
    for later in number.saturating_add(1)..events.len() {
        if used(&events[later].did) == Some(object) {
            return false;
        }
    }
    true
}

/// Adds that a processor is cut.
fn put_cut(out: &mut Vec<u8>, cpu: u8) -> Result<(), AllocError> {
    put_numbered(out, "p", u64::from(cpu))?;
    put(out, &[" is cut: it made as many events as it may\n"])
}

/// Adds that a processor still spins, and which event is its last try.
fn put_spin(out: &mut Vec<u8>, cpu: u8, number: usize, name: &str) -> Result<(), AllocError> {
    put_numbered(out, "p", u64::from(cpu))?;
    put(out, &[" still spins on lock ", name])?;
    put_numbered(out, ", last tried at ", number as u64)?;
    put(out, &["\n"])
}

/// The last try of a lock in vain by a processor that still spins: it is not cut and does not rest.
fn spin_left(history: &History, cpu: u8) -> Option<(usize, LockNo)> {
    let standing = standing_of(history.lend().briefs, cpu);
    if standing.is_cut(history.turns()) || standing.rests {
        return None;
    }
    standing.spin
}

/// Adds the lines of the processors that are cut.
fn put_cuts(out: &mut Vec<u8>, input: &Input, history: &History) -> Result<(), AllocError> {
    for cpu in 0..input.script.cpus {
        if standing_of(history.lend().briefs, cpu).is_cut(history.turns()) {
            put_cut(out, cpu)?;
        }
    }
    Ok(())
}

/// Adds the lines of the processors that still spin.
fn put_spins(out: &mut Vec<u8>, input: &Input, history: &History) -> Result<(), AllocError>
    requires { IsSound input.now }
{
    for cpu in 0..input.script.cpus {
        if let Some((number, tried)) = spin_left(history, cpu) {
            put_spin(out, cpu, number, lock(input, tried))?;
        }
    }
    Ok(())
}

/// Adds that an object still waits.
fn put_wait(
    out: &mut Vec<u8>,
    input: &Input,
    number: usize,
    object: Object,
) -> Result<(), AllocError>
    requires { IsSound input.now }
{
    match object {
        Object::Dpc(d) => put(out, &["dpc ", dpc(input, d), " still waits, queued"])?,
        Object::Apc(a) => put(out, &["apc ", apc(input, a), " still waits, inserted"])?,
    }
    put_numbered(out, " at ", number as u64)?;
    put(out, &["\n"])
}

/// Adds the lines of the inserts that still wait.
fn put_waits(out: &mut Vec<u8>, input: &Input, events: &[Brief]) -> Result<(), AllocError>
    requires { IsSound input.now }
{
    for (number, event) in events.iter().enumerate() {
        if let Some(object) = inserted(&event.did) {
            if still_waits(events, number, object) {
                put_wait(out, input, number, object)?;
            }
        }
    }
    Ok(())
}

/// Adds the lines of what is left at the end: first the processors that are cut, then those that
/// still spin, then the inserts that still wait.
pub(crate) fn put_endings(
    out: &mut Vec<u8>,
    input: &Input,
    history: &History,
) -> Result<(), AllocError>
    requires { IsSound input.now }
{
    put_cuts(out, input, history)?;
    put_spins(out, input, history)?;
    put_waits(out, input, history.lend().briefs)
}
