//! The states of the spin locks in memory.
ghost use Rattle.std.specs.Prelude.{◌≡◌, ◌<◌, IfOk, get_or, length};
ghost use Rattle.nt_event.specs.Lists.{table};
ghost use Rattle.nt_event.specs.Locks.{free_lock, start_lock};
ghost use Rattle.nt_event.specs.declared.scripts.Script.{Script};
ghost use Rattle.nt_plain.specs.Locks.{MayMove, locks_left};

use nt_event::{CpuNo, LockNo, Script, What};
use nt_states::{SpinLock, moved_lock};
use std::alloc::{AllocError, Global};
use std::marker::Model;

/// The state of each spin lock of a script.
#[derive(Drop, Debug)]
pub(crate) struct Locks {
    locks: Vec<SpinLock>,
}

impl Model for Locks {
    ghost use Rattle.std.specs.Prelude.{List};
    ghost use Rattle.nt_event.specs.Locks.{LockState};

    ghost Value = { List LockState };

    ghost view = { λ a. a.locks.items };
}

impl Locks {
    /// The locks of the script, which nobody holds.
    pub(crate) fn new(alloc: Global, script: &Script) -> Result<Locks, AllocError>
        ensures { IfOk result (λ x. x ≡ table script.now.locks (λ k. free_lock script.now)) }
    {
        let mut locks = Vec::with_capacity(alloc, usize::from(script.locks))?;
        for _ in 0..script.locks {
            locks.push(SpinLock::new(alloc, script)?)?;
        }
        Ok(Locks { locks })
    }

    /// A copy of them.
    pub(crate) fn copy(&self, alloc: Global) -> Result<Locks, AllocError>
        ensures { IfOk result (λ x. x ≡ self.now) }
    {
        let mut locks = Vec::with_capacity(alloc, self.locks.len())?;
        for lock in &self.locks {
            locks.push(lock.copy(alloc)?)?;
        }
        Ok(Locks { locks })
    }

    /// The state of a lock.
    pub(crate) fn get(&self, k: LockNo) -> &SpinLock
        requires { k.0 < length self.now }
        ensures { result.now ≡ get_or self.now k.0 start_lock }
    {
        &self.locks[usize::from(k.0)]
    }

    /// Takes in what an event of the processor does to a lock, if it does.
    pub(crate) fn leave(&mut self, p: CpuNo, what: &What)
        requires may { (s : Script) × MayMove s self.old p what.now }
        ensures { (s : Script) → MayMove s self.old p what.now →
            self.new ≡ locks_left s p what.now self.old }
    {
        if let Some((k, by)) = moved_lock(what) {
            self.locks[usize::from(k.0)].leave(k, p, by);
        }
    }
}
