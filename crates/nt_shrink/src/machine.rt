//! Processors and a floor that take the turns of a list.
ghost use Rattle.std.specs.Prelude.{◌≡◌, ◌≤◌, ◌*◌, [], IfOk, IsTrue, List, ℕ, false, map};
ghost use Rattle.nt_event.specs.declared.events.Event.{Event};
ghost use Rattle.nt_event.specs.declared.scripts.Script.{Script as TheScript};
ghost use Rattle.nt_event.specs.Script.{fits};
ghost use Rattle.nt_shrink.specs.declared.goals.Goal.{Goal as TheGoal};
ghost use Rattle.nt_shrink.specs.Machines.{AreTaken, IsSound, IsTaken, Refuses, RefusesOne, Took};
ghost use Rattle.nt_shrink.specs.Shorter.{turn_without};
ghost use Rattle.nt_shrink.specs.Traces.{is_delivered, traced_from};

use crate::goals::Goal;
use crate::leaving::lessen;
use nt_cpu::no_event;
use nt_cpus::Processors;
use nt_event::limits::{EVENTS, TURNS};
use nt_event::{Script, Turn};
use nt_plain::PlainFloor;
use std::alloc::{AllocError, Global};

/// Processors and a floor that took some turns, and whether one of these began a routine of the
/// object.
#[derive(Drop)]
pub(crate) struct Machine<'s> {
    processors: Processors<'s>,
    floor: PlainFloor<'s>,
    is_met: bool,
}

impl<'s> Machine<'s> {
    /// One that took no turn. An error is want of memory.
    pub(crate) fn new(
        alloc: Global,
        script: &'s Script,
        turns: u32,
    ) -> Result<Machine<'s>, AllocError>
        requires script { IsTrue (fits script.now) }
        requires turns { (1 ≤ turns) × (turns ≤ TURNS) }
        requires all { script.now.cpus * turns ≤ EVENTS }
        ensures { IfOk result (λ m. (g : TheGoal) → Took script.now turns g [] m) }
    {
        Ok(Machine {
            processors: Processors::new(alloc, script, turns)?,
            floor: PlainFloor::new(alloc, script, turns)?,
            is_met: false,
        })
    }

    /// A copy of it. An error is want of memory.
    pub(crate) fn copy(&self, alloc: Global) -> Result<Machine<'s>, AllocError>
        ensures { IfOk result (λ m. m ≡ self.now) }
    {
        Ok(Machine {
            processors: self.processors.copy(alloc)?,
            floor: self.floor.copy(alloc)?,
            is_met: self.is_met,
        })
    }

    /// Takes the turn. False where it is refused.
    fn take(&mut self, turn: &Turn, goal: Goal) -> bool
        requires { IsSound goal self.old }
        ensures taken { IsTrue result → (s : TheScript) (limit : ℕ) (past : List Event) →
            Took s limit goal past self.old → IsTaken s limit goal turn.now past self.new }
        ensures refused { result ≡ false → (s : TheScript) (limit : ℕ) (past : List Event) →
            Took s limit goal past self.old → RefusesOne s limit turn.now past }
    {
        let mut event = no_event();
        match self.processors.turn(&mut self.floor, turn, &mut event) {
            Ok(()) => {
                self.is_met |= goal.is_begun_by(&event);
                true
            }
            Err(_) => false,
        }
    }

    /// Takes these turns, up to the first that is refused. Whether all were taken.
    pub(crate) fn take_all(&mut self, turns: &[Turn], goal: Goal) -> bool
        requires { IsSound goal self.old }
        ensures taken { IsTrue result → (s : TheScript) (limit : ℕ) (past : List Event) →
            Took s limit goal past self.old → AreTaken s limit goal turns.now past self.new }
        ensures refused { result ≡ false → (s : TheScript) (limit : ℕ) (past : List Event) →
            Took s limit goal past self.old → Refuses s limit turns.now past }
    {
        for turn in turns {
            if !self.take(turn, goal) {
                return false;
            }
        }
        true
    }

    /// Takes these later turns of a list without the turn at this place, up to the first that is
    /// refused. Whether all were taken, and a routine of the object has begun.
    pub(crate) fn delivers_without(&mut self, later: &[Turn], at: u32, goal: Goal) -> bool
        requires { IsSound goal self.old }
        ensures { (s : TheScript) (limit : ℕ) (past : List Event) →
            Took s limit goal past self.old →
            result
            ≡ is_delivered goal (traced_from s limit past (map (turn_without at) later.now)) }
    {
        for turn in later {
            let mut lessened = *turn;
            lessen(&mut lessened, at);
            if !self.take(&lessened, goal) {
                return false;
            }
        }
        self.is_met
    }
}
