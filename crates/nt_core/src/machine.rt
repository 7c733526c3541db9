//! The machine.
ghost use Rattle.std.specs.Prelude.{◌≡◌, ◌≤◌, ◌*◌, [], Err, IfErr, IfOk, IsTrue, Ok, OnErr, OnOk};
ghost use Rattle.std.specs.Prelude.{length, reverse};
ghost use Rattle.nt_event.specs.Script.{fits};
ghost use Rattle.nt_event.specs.Step.{IsRun, step};
ghost use Rattle.nt_cpus.specs.Cycles.{last_cpu};
ghost use Rattle.nt_cpus.specs.Refusals.{kind_of};
ghost use Rattle.nt_core.specs.States.{with_event};

use nt_cpu::no_event;
use nt_cpus::{CoreRefusal, Processors};
use nt_event::limits::{EVENTS, TURNS};
use nt_event::{CpuNo, Event, Script, Turn};
use nt_history::{History, Recorder};
use nt_plain::PlainFloor;
use std::alloc::{AllocError, Global};
use std::marker::Model;

/// A machine that runs a script by turns, with a limit on the events of each processor.
#[derive(Drop)]
pub struct Core<'s> {
    pub(crate) processors: Processors<'s>,
    pub(crate) floor: PlainFloor<'s>,
    pub(crate) events: Recorder,
}

impl<'s> Model for Core<'s> {
    ghost use Rattle.nt_core.specs.States.{CoreState};

    ghost Value = { CoreState };

    ghost use Rattle.nt_core.specs.Insides.{IsSoundInside, state_in};

    ghost view = { state_in };

    ghost invariant = { IsSoundInside };
}

impl<'s> Core<'s> {
    /// A machine of the script with an empty history, where each processor may make this many
    /// events. All memory is taken here.
    ///
    /// The script fits, and `turns` is 1 to 20,000 and at most 160,000 in all processors together.
    pub fn new(alloc: Global, script: &'s Script, turns: u32) -> Result<Core<'s>, AllocError>
        requires script { IsTrue (fits script.now) }
        requires turns { (1 ≤ turns) × (turns ≤ TURNS) }
        requires all { script.now.cpus * turns ≤ EVENTS }
        ensures { IfOk result (λ c. c ≡ record { script = script.now; limit = turns; past = [] }) }
    {
        let count = u32::from(script.cpus) * turns;
        let events = Recorder::new(alloc, count as usize)?;
        let processors = Processors::new(alloc, script, turns)?;
        let floor = PlainFloor::new(alloc, script, turns)?;
        Ok(Core {
            processors,
            floor,
            events,
        })
    }

    /// What holds of it at any time: its history is a run of the script.
    pub fn is_run(&self)
        ensures run { IsRun self.now.script self.now.limit self.now.past }
        ensures bound { length self.now.past ≤ self.now.script.cpus * self.now.limit }
    {
        let _events = self.events.len();
    }

    /// Takes the turn: makes its event, or answers why there is none; then nothing changed. No
    /// memory is taken.
    ///
    /// NoSuchCpu comes where the script does not have the processor. NothingToDo comes where the
    /// processor made as many events as it may, and for a turn Next where it rests, spins still or
    /// has to choose a thread; BadLook where no value rises, or one is not above what was seen or
    /// was not asked for; BadChoice where the thread cannot be taken up or no choice may be made.
    pub fn turn(&mut self, turn: Turn) -> Result<Event, CoreRefusal>
        ensures ok { IfOk result (λ e.
            (step self.old.script self.old.limit turn self.old.past ≡ Ok e) ×
            (self.new ≡ with_event e self.old)) }
        ensures err { IfErr result
            (λ r. step self.old.script self.old.limit turn self.old.past ≡ Err (kind_of r)) }
        ensures same { OnErr result (self.new ≡ self.old) }
    {
        let mut event = no_event();
        match self.make(&turn, &mut event) {
            Ok(()) => Ok(event),
            Err(refusal) => Err(refusal),
        }
    }

    /// Takes the turn as [`Core::turn`] does, and writes its event where the caller keeps it too.
    #[inline(always)]
    pub(crate) fn make(&mut self, turn: &Turn, event: &mut Event) -> Result<(), CoreRefusal>
        ensures ok { OnOk result
            ((step self.old.script self.old.limit turn.now self.old.past ≡ Ok event.new) ×
            (self.new ≡ with_event event.new self.old)) }
        ensures err { IfErr result
            (λ r. step self.old.script self.old.limit turn.now self.old.past ≡ Err (kind_of r)) }
        ensures same { OnErr result (self.new ≡ self.old) }
    {
        match self.processors.turn(&mut self.floor, turn, event) {
            Ok(()) => {}
            Err(refusal) => return Err(refusal),
        }
        self.events.put(event);
        Ok(())
    }

    /// The processor of the last event; None of the empty history.
    pub(crate) fn last_cpu(&self) -> Option<CpuNo>
        ensures { result ≡ last_cpu self.now.past }
    {
        self.events.last_cpu()
    }

    /// The history, with the turn limit.
    pub fn finish(self) -> History
        ensures turns { result.turns ≡ self.entry.limit }
        ensures events { result.events ≡ reverse self.entry.past }
    {
        let Core {
            processors,
            floor: _,
            events,
        } = self;
        History::new(processors.limit(), events.finish())
    }
}
