//! The processors, and their turns.
ghost use Rattle.std.specs.Prelude.{◌≡◌, ◌≤◌, ◌<◌, ◌*◌, ◌∷◌, [], Err, IfErr, IfOk, IsTrue, List};
ghost use Rattle.std.specs.Prelude.{Ok, OnErr, OnOk, true};
ghost use Rattle.nt_event.specs.declared.events.Event.{Event};
ghost use Rattle.nt_event.specs.declared.scripts.Script.{Script};
ghost use Rattle.nt_event.specs.Own.{own_of};
ghost use Rattle.nt_event.specs.Script.{fits};
ghost use Rattle.nt_event.specs.Step.{cpu_at, is_cut as is_cut_in, step};
ghost use Rattle.nt_floor.specs.Views.{IsUnmoved};
ghost use Rattle.nt_cpu.specs.Choices.{turn_by};
ghost use Rattle.nt_cpu.specs.Runs.{Follows, is_asked as was_asked_for};
ghost use Rattle.nt_cpus.specs.Following.{AreAfter, AreSound, cpus_of};
ghost use Rattle.nt_cpus.specs.Refusals.{kind_of};

use crate::asking::were_asked;
use crate::refusals::{CoreRefusal, core_refusal};
use nt_cpu::{Choice, Cpu};
use nt_event::limits::TURNS;
use nt_event::{CpuNo, Event, Rises, Script, Turn};
use nt_floor::{Floor, OpenFloor};
use std::alloc::{AllocError, Global};
use std::marker::Model;

/// The processors of a script, with a limit on the events of each.
#[derive(Drop)]
pub struct Processors<'s> {
    pub(crate) script: &'s Script,
    pub(crate) limit: u32,
    pub(crate) cpus: Vec<Cpu<'s>>,
}

impl<'s> Model for Processors<'s> {
    ghost use Rattle.nt_cpus.specs.States.{CpusState};

    ghost Value = { CpusState };

    ghost view = { λ a. record { script = a.script.now; limit = a.limit; cpus = a.cpus.items } };
}

impl<'s> Processors<'s> {
    /// The processors of the script, none of which made an event; each may make this many. All
    /// memory is taken here.
    ///
    /// The script fits, and `turns` is at most 20,000.
    pub fn new(alloc: Global, script: &'s Script, turns: u32) -> Result<Processors<'s>, AllocError>
        requires script { IsTrue (fits script.now) }
        requires turns { turns ≤ TURNS }
        ensures { IfOk result (λ c.
            c ≡ record { script = script.now; limit = turns; cpus = cpus_of script.now turns [] }) }
    {
        let mut cpus = Vec::with_capacity(alloc, script.cpus as usize)?;
        for cpu in 0..script.cpus {
            cpus.push_reserved(Cpu::new(alloc, script, CpuNo(cpu), turns)?);
        }
        Ok(Processors {
            script,
            limit: turns,
            cpus,
        })
    }

    /// A copy of them, with room for all that there may be.
    pub fn copy(&self, alloc: Global) -> Result<Processors<'s>, AllocError>
        ensures { IfOk result (λ c. c ≡ self.now) }
    {
        let mut cpus = Vec::with_capacity(alloc, self.cpus.len())?;
        for cpu in &self.cpus {
            cpus.push(cpu.copy(alloc)?)?;
        }
        Ok(Processors {
            script: self.script,
            limit: self.limit,
            cpus,
        })
    }

    /// The processors, in the order of their numbers.
    pub fn cpus(&self) -> &[Cpu<'s>]
        ensures { result.now ≡ self.now.cpus }
    {
        self.cpus.as_slice()
    }

    /// How many events each processor may make.
    pub fn limit(&self) -> u32
        ensures { result ≡ self.now.limit }
    {
        self.limit
    }

    /// Takes the turn over the floor: makes its event, or answers why there is none; then nothing
    /// changed and nothing was written. No memory is taken.
    ///
    /// The processors and the floor stand after some run; what comes is what the turn gives after
    /// it, and they stand after its event then. The event is written where the caller keeps it.
    /// NoSuchCpu comes where the script does not have the processor. NothingToDo comes where the
    /// processor made as many events as it may, and for a turn Next where it rests, spins still or
    /// has to choose a thread; BadLook where no value rises, or one is not above what was seen or
    /// was not asked for; BadChoice where the thread cannot be taken up or no choice may be made.
    pub fn turn<F: OpenFloor>(
        &mut self,
        floor: &mut F,
        turn: &Turn,
        event: &mut Event,
    ) -> Result<(), CoreRefusal>
        requires { AreSound self.old (F.script floor.old) (F.view floor.old) }
        ensures ok { OnOk result ((past : List Event) →
            AreAfter past self.old (F.script floor.old) (F.view floor.old) →
            (step self.old.script self.old.limit turn.now past ≡ Ok event.new) ×
            AreAfter (event.new ∷ past) self.new (F.script floor.new) (F.view floor.new)) }
        ensures err { IfErr result (λ r.
            (past : List Event) → AreAfter past self.old (F.script floor.old) (F.view floor.old) →
            step self.old.script self.old.limit turn.now past ≡ Err (kind_of r)) }
        ensures same { OnErr result
            ((self.new ≡ self.old) × IsUnmoved (F.view floor.old) (F.view floor.new)) }
        ensures unwritten { OnErr result (event.new ≡ event.old) }
        ensures floor { F.script floor.new ≡ F.script floor.old }
        ensures kept { (self.new.script ≡ self.old.script) × (self.new.limit ≡ self.old.limit) }
    {
        let cpu = turn.cpu();
        if self.script.cpus <= cpu.0 {
            return Err(CoreRefusal::NoSuchCpu);
        }
        if self.is_cut(cpu) {
            return Err(CoreRefusal::NothingToDo);
        }
        if !is_asked(floor, turn) {
            return Err(CoreRefusal::BadLook);
        }
        self.take(floor, cpu, &Choice::of(turn), event)
    }

    /// Whether the processor made as many events as it may.
    pub(crate) fn is_cut(&self, cpu: CpuNo) -> bool
        requires every { (past : List Event) ×
            (self.now.cpus ≡ cpus_of self.now.script self.now.limit past) }
        requires cpu { cpu.0 < self.now.script.cpus }
        ensures { (past : List Event) →
            self.now.cpus ≡ cpus_of self.now.script self.now.limit past →
            result ≡ is_cut_in self.now.limit (own_of self.now.script cpu past) }
    {
        self.limit <= self.cpus[cpu.0 as usize].made()
    }

    /// Takes the turn of this choice of a processor, the values of which were asked for.
    pub(crate) fn take<F: OpenFloor>(
        &mut self,
        floor: &mut F,
        cpu: CpuNo,
        choice: &Choice<&Rises>,
        event: &mut Event,
    ) -> Result<(), CoreRefusal>
        requires after { AreSound self.old (F.script floor.old) (F.view floor.old) }
        requires asked { (past : List Event) →
            AreAfter past self.old (F.script floor.old) (F.view floor.old) →
            was_asked_for self.old.script (turn_by cpu choice.now) past ≡ true }
        requires cpu { cpu.0 < self.old.script.cpus }
        ensures ok { OnOk result ((past : List Event) →
            AreAfter past self.old (F.script floor.old) (F.view floor.old) →
            (step self.old.script self.old.limit (turn_by cpu choice.now) past ≡ Ok event.new) ×
            AreAfter (event.new ∷ past) self.new (F.script floor.new) (F.view floor.new)) }
        ensures err { IfErr result (λ r.
            (past : List Event) → AreAfter past self.old (F.script floor.old) (F.view floor.old) →
            step self.old.script self.old.limit (turn_by cpu choice.now) past ≡ Err (kind_of r)) }
        ensures same { OnErr result
            ((self.new ≡ self.old) × IsUnmoved (F.view floor.old) (F.view floor.new)) }
        ensures unwritten { OnErr result (event.new ≡ event.old) }
        ensures floor { F.script floor.new ≡ F.script floor.old }
        ensures kept { (self.new.script ≡ self.old.script) × (self.new.limit ≡ self.old.limit) }
    {
        let place = cpu.0 as usize;
        if let Err(refusal) = self.cpus[place].choose_into(floor, choice, event) {
            return Err(core_refusal(refusal));
        }
        Ok(())
    }
}

/// Whether the values of a look were asked for.
fn is_asked<F: OpenFloor>(floor: &F, turn: &Turn) -> bool
    requires { (cpu_at turn.now).0 < (F.view floor.now).cpus }
    ensures { (s : Script) → (past : List Event) → Follows s past (F.view floor.now) →
        (cpu_at turn.now).0 < s.cpus →
        result ≡ was_asked_for s turn.now past }
{
    match turn {
        Turn::Look(cpu, rises) => were_asked(floor, *cpu, rises),
        Turn::Next(_) | Turn::Switch(_, _) => true,
    }
}
