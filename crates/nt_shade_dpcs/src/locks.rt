//! Spin locks.
ghost use Rattle.std.specs.Prelude.{◌≡◌, ◌<◌, ◌≤◌, IfOk, List, length, map};
ghost use Rattle.nt_event.specs.declared.numbers.LockNo.{LockNo};
ghost use Rattle.nt_event.specs.declared.scripts.Script.{Script};
ghost use Rattle.nt_event.specs.Locks.{free_lock, lock_move, lock_moved};
ghost use Rattle.nt_states.specs.LockMoves.{move_in, move_of};
ghost use Rattle.nt_shade_dpcs.specs.Changed.{HaveFlags, locks_moved};
ghost use Rattle.nt_shade_dpcs.specs.Shades.{lock_said};

use nt_event::{CpuNo, LockNo, Script, What};
use nt_states::{Move, moved_lock};
use std::alloc::{AllocError, Global};

/// What stands of a spin lock.
#[derive(Clone, PartialEq, Eq, Hash, Drop, Debug)]
pub struct ShadeLock {
    /// The processor whose frame holds it.
    pub holder: Option<CpuNo>,
    /// For each processor whether it spins on it.
    pub spinners: Vec<bool>,
}

impl ShadeLock {
    /// A lock of the script before any event.
    pub fn new(alloc: Global, script: &Script) -> Result<ShadeLock, AllocError>
        ensures { IfOk result (λ x. lock_said x ≡ free_lock script.now) }
    {
        let spinners = vec![in alloc; false; usize::from(script.cpus)]?;
        Ok(ShadeLock {
            holder: None,
            spinners,
        })
    }

    /// Takes in what an event of the processor p does to a lock. This is the lock k.
    pub(crate) fn follow(&mut self, k: LockNo, p: CpuNo, moved: Option<(LockNo, Move)>)
        requires { p.0 < length self.old.spinners.items }
        ensures { (s : Script) → s.cpus ≡ length self.old.spinners.items →
            lock_said self.new ≡ lock_moved s k p (move_in moved) (lock_said self.old) }
    {
        match moved {
            Some((x, by)) if x == k => self.leave(p, by),
            Some(_) | None => {}
        }
    }

    /// Takes in what an event of the processor p does to this lock.
    fn leave(&mut self, p: CpuNo, by: Move)
        requires { p.0 < length self.old.spinners.items }
        ensures { (s : Script) (k : LockNo) → s.cpus ≡ length self.old.spinners.items →
            lock_said self.new ≡ lock_moved s k p (move_of k by) (lock_said self.old) }
    {
        match by {
            Move::Gets => {
                self.holder = Some(p);
                self.spinners[usize::from(p.0)] = false;
            }
            Move::Spins => self.spinners[usize::from(p.0)] = true,
            Move::Frees => self.holder = None,
        }
    }
}

/// Each lock takes in an event of the processor p.
pub(crate) fn follow_locks(locks: &mut Vec<ShadeLock>, p: CpuNo, what: &What)
    requires count { length locks.old.items ≤ 64 }
    requires flags { (s : Script) × (p.0 < s.cpus) × HaveFlags s (map lock_said locks.old.items) }
    ensures { (s : Script) → HaveFlags s (map lock_said locks.old.items) →
        map lock_said locks.new.items
        ≡ locks_moved s p (lock_move what.now) (map lock_said locks.old.items) }
{
    let moved = moved_lock(what);
    let count = locks.len() as u16;
    for k in 0..count {
        locks[usize::from(k)].follow(LockNo(k), p, moved);
    }
}
