//! The run of the robin rule.
ghost use Rattle.std.specs.Prelude.{◌≡◌, ◌≤◌, ◌*◌, [], IfOk, IsTrue, None, Some, false, reverse};
ghost use Rattle.std.specs.Prelude.{true};
ghost use Rattle.nt_event.specs.Robin.{IsRobin, is_settled, robin as robin_in};
ghost use Rattle.nt_event.specs.Script.{fits};
ghost use Rattle.nt_event.specs.Step.{IsRun, turn_of};
ghost use Rattle.nt_cpus.specs.Cycles.{last_cpu};
ghost use Rattle.nt_core.specs.States.{with_event};

use crate::machine::Core;
use nt_cpu::no_event;
use nt_event::limits::{EVENTS, TURNS};
use nt_event::{CpuNo, Event, Script};
use nt_history::History;
use std::alloc::{AllocError, Global};

impl<'s> Core<'s> {
    /// Makes the event of the robin rule, where the last event is that of this processor, and
    /// writes it; false where the rule has no turn, and then nothing changed.
    #[inline(always)]
    fn go_on(&mut self, last: Option<CpuNo>, event: &mut Event) -> bool
        requires { last ≡ last_cpu self.old.past }
        ensures event { result ≡ true →
            (robin_in self.old.script self.old.limit self.old.past ≡ Some (turn_of event.new)) ×
            (self.new ≡ with_event event.new self.old) }
        ensures none { result ≡ false →
            (robin_in self.old.script self.old.limit self.old.past ≡ None) × (self.new ≡ self.old) }
    {
        if !self.processors.go_on(&mut self.floor, last, event) {
            return false;
        }
        self.events.put(event);
        true
    }

    /// Makes the events of the robin rule to the end, where none was made before.
    fn go_on_to_the_end(&mut self)
        requires { self.old.past ≡ [] }
        ensures limit { self.new.limit ≡ self.old.limit }
        ensures run { IsRun self.old.script self.old.limit self.new.past }
        ensures robin { IsRobin self.old.script self.old.limit self.new.past }
        ensures settled { is_settled self.old.script self.old.limit self.new.past ≡ true }
    {
        let mut event = no_event();
        let mut last = None;
        while self.go_on(last, &mut event) {
            last = Some(event.cpu);
            self.is_run();
        }
        self.is_run();
    }
}

/// The run of the script by the robin rule, to its end, where each processor may make this many
/// events.
///
/// The script fits, and `turns` is 1 to 20,000 and at most 160,000 in all processors together.
/// Memory is taken before the first event.
pub fn run(alloc: Global, script: &Script, turns: u32) -> Result<History, AllocError>
    requires script { IsTrue (fits script.now) }
    requires turns { (1 ≤ turns) × (turns ≤ TURNS) }
    requires all { script.now.cpus * turns ≤ EVENTS }
    ensures turns { IfOk result (λ h. h.turns ≡ turns) }
    ensures run { IfOk result (λ h. IsRun script.now turns (reverse h.events)) }
    ensures robin { IfOk result (λ h. IsRobin script.now turns (reverse h.events)) }
    ensures settled { IfOk result (λ h. is_settled script.now turns (reverse h.events) ≡ true) }
{
    let mut core = Core::new(alloc, script, turns)?;
    core.go_on_to_the_end();
    Ok(core.finish())
}
