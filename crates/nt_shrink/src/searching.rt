//! The search for the greatest spare place of a list.
//!
//! A list without the turn at a place begins as the list itself. So the search goes by halves, from
//! the back: a copy of the machine takes the turns up to the middle and serves all later places,
//! and only then the machine itself serves those before the middle.
ghost use Rattle.std.specs.Prelude.{◌≡◌, ◌<◌, ◌≤◌, ◌*◌, IfOk, IsTrue, ℕ, length};
ghost use Rattle.nt_event.specs.declared.scripts.Script.{Script as TheScript};
ghost use Rattle.nt_event.specs.Script.{fits};
ghost use Rattle.nt_shrink.specs.Machines.{HasTaken, IsSound};
ghost use Rattle.nt_shrink.specs.Searches.{IsAnswer, IsMissed};
ghost use Rattle.nt_shrink.specs.Spare.{greatest_spare as greatest_spare_in, is_spare};
ghost use Rattle.nt_shrink.specs.Twins.{AreTwins, IsTwin};

use crate::goals::Goal;
use crate::machine::Machine;
use crate::twins::Twins;
use nt_event::limits::{EVENTS, TURNS};
use nt_event::{Script, Turn};
use std::alloc::{AllocError, Global};

/// A list of turns of which the places are searched, and its twins.
#[derive(Drop)]
pub(crate) struct Places<'l> {
    pub(crate) turns: &'l [Turn],
    pub(crate) twins: &'l Twins,
    pub(crate) goal: Goal,
}

impl<'l> Places<'l> {
    /// The least number from `low` on from which to `high` each place is a twin of the next one.
    fn before_twins(&self, low: u32, high: u32) -> u32
        requires { low ≤ high }
        ensures from { low ≤ result }
        ensures to { result ≤ high }
        ensures twins { (k : ℕ) → result < k → k ≤ high → IsTwin self.now.twins.now.flags.items k }
    {
        let mut count = high;
        while low < count && self.twins.has(count as usize) {
            count -= 1;
        }
        count
    }

    /// The greatest spare place of the list, where it is one from `low` on and no place from `high`
    /// on is spare. The machine took the turns before `low`; it is of no use afterwards. An error
    /// is want of memory.
    pub(crate) fn greatest_spare(
        &self,
        alloc: Global,
        machine: &mut Machine,
        low: u32,
        high: u32,
    ) -> Result<Option<u32>, AllocError>
        requires twins { AreTwins self.now.turns.now self.now.twins.now.flags.items }
        requires order { low ≤ high }
        requires places { high ≤ length self.now.turns.now }
        requires machine { IsSound self.now.goal machine.old }
        ensures { (s : TheScript) (limit : ℕ) →
            HasTaken s limit self.now.goal self.now.turns.now low machine.old →
            IsMissed (is_spare s limit self.now.goal self.now.turns.now)
            (length self.now.turns.now) self.now.twins.now.flags.items high →
            IfOk result (IsAnswer (is_spare s limit self.now.goal self.now.turns.now)
            (length self.now.turns.now) self.now.twins.now.flags.items low) }
    {
        // A twin of the place after it isn't spare, since that one isn't.
        let high = self.before_twins(low, high);
        if high == low {
            return Ok(None);
        }
        let last = high - 1;
        if low == last {
            let later = &self.turns[high as usize..];
            let is_spare = machine.delivers_without(later, last, self.goal);
            return Ok(is_spare.then_some(last));
        }
        let middle = low + (high - low) / 2;
        let mut later = machine.copy(alloc)?;
        let tried = if later.take_all(&self.turns[low as usize..middle as usize], self.goal) {
            self.greatest_spare(alloc, &mut later, middle, high)
        } else {
            Ok(None)
        };
        drop(later);
        let found = tried?;
        if found.is_some() {
            return Ok(found);
        }
        self.greatest_spare(alloc, machine, low, middle)
    }

    /// The greatest spare place of the list. An error is want of memory.
    pub(crate) fn search(
        &self,
        alloc: Global,
        script: &Script,
        turns: u32,
    ) -> Result<Option<u32>, AllocError>
        requires script { IsTrue (fits script.now) }
        requires turns { (1 ≤ turns) × (turns ≤ TURNS) }
        requires all { script.now.cpus * turns ≤ EVENTS }
        requires twins { AreTwins self.now.turns.now self.now.twins.now.flags.items }
        requires length { length self.now.twins.now.flags.items ≡ length self.now.turns.now }
        requires few { length self.now.turns.now ≤ 1000 }
        ensures { IfOk result (λ at. at
            ≡ greatest_spare_in script.now turns self.now.goal self.now.turns.now) }
    {
        let mut machine = Machine::new(alloc, script, turns)?;
        let place = self.greatest_spare(alloc, &mut machine, 0, self.turns.len() as u32);
        drop(machine);
        place
    }
}
