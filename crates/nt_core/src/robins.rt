//! The robin rule: which processor goes on, and by which turn.
ghost use Rattle.std.specs.Prelude.{◌≡◌, ◌||◌, IfSome, Ok, is_none, not};
ghost use Rattle.nt_event.specs.declared.events.Event.{Event};
ghost use Rattle.nt_event.specs.Lists.{when};
ghost use Rattle.nt_event.specs.Robin.{is_done_with, is_settled, robin as robin_in};
ghost use Rattle.nt_event.specs.Robin.{robin_of as robin_turn_of};
ghost use Rattle.nt_event.specs.Script.{has_cpu};
ghost use Rattle.nt_event.specs.Step.{step};

use crate::machine::Core;
use nt_event::{CpuNo, Turn};

impl<'s> Core<'s> {
    /// The turn of the robin rule (profile); None exactly where the history is settled.
    ///
    /// The processors are tried in a cycle from the one after that of the last event: one that is
    /// cut has no turn; else it looks at what was asked for and not seen; else it has no turn where
    /// it rests or spins still; else it takes up the next ready thread, where it may take one up
    /// and one is ready; else it makes its next event.
    pub fn robin(&self) -> Option<Turn>
        ensures { result ≡ robin_in self.now.script self.now.limit self.now.past }
    {
        self.processors.robin(&self.floor, self.last_cpu())
    }

    /// The turn of the robin rule for this processor alone (profile): [`Core::robin`] is the first
    /// one in its cycle. It is never refused.
    ///
    /// None comes exactly where the script has no such processor, or it is cut, or rests or spins
    /// still and has seen what was asked for in each class. Else it looks at what was asked for and
    /// not seen; else it takes up the next ready thread, where it may take one up and one is ready;
    /// else it makes its next event.
    pub fn robin_of(&self, p: CpuNo) -> Option<Turn>
        ensures turn { result ≡ when (has_cpu self.now.script p)
            (robin_turn_of self.now.script self.now.limit p self.now.past) }
        ensures none { is_none result ≡ (not (has_cpu self.now.script p)
            || is_done_with self.now.script self.now.limit p self.now.past) }
        ensures taken { IfSome result
            (λ t. (e : Event) × (step self.now.script self.now.limit t self.now.past ≡ Ok e)) }
    {
        self.is_run();
        self.processors.robin_of(&self.floor, p)
    }

    /// Whether the history is settled: each processor is cut, or rests or spins still and has seen
    /// what was asked for.
    pub fn settled(&self) -> bool
        ensures { result ≡ is_settled self.now.script self.now.limit self.now.past }
    {
        self.processors.settled(&self.floor)
    }
}
