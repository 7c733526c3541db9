//! The states of spin locks.
ghost use Rattle.std.specs.Prelude.{◌≡◌, ◌<◌, IfOk, is_none, length};
ghost use Rattle.nt_event.specs.Locks as locks;
ghost use Rattle.nt_event.specs.declared.scripts.Script.{Script};
ghost use Rattle.nt_states.specs.LockMoves.{move_in, move_of};

use nt_event::{Command, CpuNo, LockNo, Reply, Script, What};
use std::alloc::{AllocError, Global};
use std::marker::Model;

/// What an event does to a spin lock.
#[derive(Clone, Copy, PartialEq, Eq, Debug)]
pub enum Move {
    /// The processor's frame holds the lock, and the processor spins on it no more.
    Gets,
    /// The processor spins on the lock.
    Spins,
    /// No frame holds the lock.
    Frees,
}

/// The lock that the event moves, and how; None where it moves none.
pub fn moved_lock(what: &What) -> Option<(LockNo, Move)>
    ensures { move_in result ≡ locks.lock_move what.now }
{
    match what {
        What::Call { command, reply, .. } => lock_of_call(command, reply),
        What::Free { lock, .. } => Some((*lock, Move::Frees)),
        What::Look { .. }
        | What::Begin { .. }
        | What::Normal { .. }
        | What::End { .. }
        | What::Expire { .. }
        | What::Fire { .. }
        | What::Clean { .. }
        | What::Switch { .. }
        | What::Rewait { .. }
        | What::Flush { .. }
        | What::Gone { .. }
        | What::Rest => None,
    }
}

/// The lock that a call moves, and how.
fn lock_of_call(command: &Command, reply: &Reply) -> Option<(LockNo, Move)>
    ensures { move_in result ≡ locks.call_move command.now reply.now }
{
    match (command, reply) {
        (Command::Acquire(k), Reply::Done) => Some((*k, Move::Gets)),
        (Command::Acquire(k), Reply::Spin) => Some((*k, Move::Spins)),
        (Command::Unlock(k), Reply::Done) => Some((*k, Move::Frees)),
        (Command::Acquire(_), _)
        | (Command::Unlock(_), _)
        | (Command::Raise(_), _)
        | (Command::Lower(_), _)
        | (Command::Queue(_), _)
        | (Command::Unqueue(_), _)
        | (Command::SetImportance(_, _), _)
        | (Command::SetTarget(_, _), _)
        | (Command::SetTimer(_, _, _), _)
        | (Command::CancelTimer(_), _)
        | (Command::InsertApc(_), _)
        | (Command::RemoveApc(_), _)
        | (Command::EnterCrit, _)
        | (Command::EnterGuard, _)
        | (Command::LeaveCrit, _)
        | (Command::LeaveGuard, _)
        | (Command::StartWait(_, _), _)
        | (Command::Delay(_, _, _), _)
        | (Command::Release(_), _)
        | (Command::Alert(_, _), _)
        | (Command::TestAlert(_), _)
        | (Command::Interrupt(_, _), _)
        | (Command::Clock(_), _)
        | (Command::ToUser, _)
        | (Command::Yield, _)
        | (Command::Note(_), _) => None,
    }
}

/// The state of a spin lock: the processor whose frame holds it, and for each processor whether it
/// spins on it.
#[derive(Drop, Debug)]
pub struct SpinLock {
    holder: Option<CpuNo>,
    spinners: Vec<bool>,
}

impl Model for SpinLock {
    ghost use Rattle.nt_event.specs.Locks.{LockState};

    ghost Value = { LockState };

    ghost view = { λ a. record { holder = a.holder; spinners = a.spinners.items } };
}

impl SpinLock {
    /// A lock of the script that nobody holds.
    pub fn new(alloc: Global, script: &Script) -> Result<SpinLock, AllocError>
        ensures { IfOk result (λ x. x ≡ locks.free_lock script.now) }
    {
        let spinners = vec![in alloc; false; usize::from(script.cpus)]?;
        Ok(SpinLock {
            holder: None,
            spinners,
        })
    }

    /// A copy of it.
    pub fn copy(&self, alloc: Global) -> Result<SpinLock, AllocError>
        ensures { IfOk result (λ x. x ≡ self.now) }
    {
        Ok(SpinLock {
            holder: self.holder,
            spinners: self.spinners.to_vec(alloc)?,
        })
    }

    /// Whether no processor holds it.
    pub fn is_free(&self) -> bool
        ensures { result ≡ is_none self.now.holder }
    {
        self.holder.is_none()
    }

    /// For each processor whether it spins on it.
    pub fn spinners(&self) -> &[bool]
        ensures { result.now ≡ self.now.spinners }
    {
        self.spinners.as_slice()
    }

    /// Takes in what an event of the processor does to it. Its number is k.
    pub fn leave(&mut self, k: LockNo, p: CpuNo, by: Move)
        requires { p.0 < length self.old.spinners }
        ensures { (s : Script) → s.cpus ≡ length self.old.spinners →
            self.new ≡ locks.lock_moved s k p (move_of k by) self.old }
    {
        let _lock = k;
        match by {
            Move::Gets => {
                self.holder = Some(p);
                self.spinners[usize::from(p.0)] = false;
            }
            Move::Spins => self.spinners[usize::from(p.0)] = true,
            Move::Frees => self.holder = None,
        }
    }
}
