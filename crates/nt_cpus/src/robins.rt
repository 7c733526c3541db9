//! The robin rule: which processor goes on, and by which turn; and whether all is settled.
ghost use Rattle.std.specs.Prelude.{◌≡◌, ◌<◌, ◌∷◌, ℕ, IfSome, List, None, Ok, Some, false};
ghost use Rattle.std.specs.Prelude.{option_map, true};
ghost use Rattle.nt_event.specs.declared.events.Event.{Event};
ghost use Rattle.nt_event.specs.Lists.{when};
ghost use Rattle.nt_event.specs.Robin.{first_cpu as first_of, go_on_turn, is_settled, look_values};
ghost use Rattle.nt_event.specs.Robin.{robin as robin_in, robin_at, robin_of as robin_turn_of};
ghost use Rattle.nt_event.specs.Script.{has_cpu};
ghost use Rattle.nt_event.specs.Step.{is_cut, step, turn_of};
ghost use Rattle.nt_cpu.specs.Choices.{turn_by};
ghost use Rattle.nt_cpu.specs.Steps.{SeenWithin};
ghost use Rattle.nt_cpus.specs.Cycles.{last_cpu, next_cpu};
ghost use Rattle.nt_cpus.specs.Following.{AreAfter, AreSound};
ghost use Rattle.nt_cpus.specs.Steps.{chosen_turn, found_values, look_of, step_turn};

use crate::processors::Processors;
use nt_cpu::{Choice, Cpu};
use nt_event::{CpuNo, Event, Rises, Turn};
use nt_floor::OpenFloor;

/// The next ready thread is taken up where a thread may be and one is ready; else the next event is
/// made.
#[inline(always)]
fn going_on<F: OpenFloor>(cpu: &Cpu, floor: &F, p: CpuNo) -> Choice<()>
    requires { is_cut cpu.now.limit cpu.now.own ≡ false }
    ensures { IfSome (F.view floor.now).states (λ l.
        (values : List ℕ) →
        step_turn p values result ≡ go_on_turn (F.script floor.now) p cpu.now.own l) }
{
    if cpu.may_switch() {
        match floor.next_ready(p, cpu.took()) {
            Some(thread) => Choice::Switch(thread),
            None => Choice::Next,
        }
    } else {
        Choice::Next
    }
}

/// What a processor does that is not cut: it looks at what was asked for, does nothing where it
/// rests or spins still, else it goes on. It has seen no more than was asked for.
#[inline(always)]
fn uncut_step<F: OpenFloor>(cpu: &Cpu, floor: &F, p: CpuNo) -> Option<Choice<()>>
    requires cpu { p.0 < (F.view floor.now).cpus }
    requires uncut { is_cut cpu.now.limit cpu.now.own ≡ false }
    requires seen { SeenWithin cpu.now.own ((F.view floor.now).value p) }
    ensures { IfSome (F.view floor.now).states (λ l.
        option_map (step_turn p (look_values cpu.now.own ((F.view floor.now).value p))) result
        ≡ robin_at (F.script floor.now) p cpu.now.own l ((F.view floor.now).value p)) }
{
    if cpu.is_behind_on(floor, p) {
        return Some(Choice::Look(()));
    }
    if cpu.is_still() {
        return None;
    }
    Some(going_on(cpu, floor, p))
}

impl<'s> Processors<'s> {
    /// The turn of the robin rule (profile), where the last event is that of this processor; None
    /// exactly where all is settled.
    ///
    /// The processors are tried in a cycle from the one after that of the last event: one that is
    /// cut has no turn; else it looks at what was asked for and not seen; else it has no turn where
    /// it rests or spins still; else it takes up the next ready thread, where it may take one up
    /// and one is ready; else it makes its next event.
    pub fn robin<F: OpenFloor>(&self, floor: &F, last: Option<CpuNo>) -> Option<Turn>
        requires after { (past : List Event) ×
            (AreAfter past self.now (F.script floor.now) (F.view floor.now) ×
            (last ≡ last_cpu past)) }
        ensures { (past : List Event) →
            AreAfter past self.now (F.script floor.now) (F.view floor.now) → last ≡ last_cpu past →
            result ≡ robin_in self.now.script self.now.limit past }
    {
        match self.first_chosen(floor, last) {
            Some(chosen) => Some(self.turn_of(floor, chosen)),
            None => None,
        }
    }

    /// The turn of the robin rule for this processor alone; None where the script has no such
    /// processor.
    ///
    /// One that is cut has no turn; else it looks at what was asked for and not seen; else it has
    /// no turn where it rests or spins still; else it takes up the next ready thread, where it may
    /// take one up and one is ready; else it makes its next event.
    pub fn robin_of<F: OpenFloor>(&self, floor: &F, p: CpuNo) -> Option<Turn>
        requires { AreSound self.now (F.script floor.now) (F.view floor.now) }
        ensures { (past : List Event) →
            AreAfter past self.now (F.script floor.now) (F.view floor.now) →
            result ≡ when (has_cpu self.now.script p)
            (robin_turn_of self.now.script self.now.limit p past) }
    {
        if self.script.cpus <= p.0 {
            return None;
        }
        match self.step_of(floor, p) {
            Some(choice) => Some(self.turn_of(floor, (p, choice))),
            None => None,
        }
    }

    /// Makes the event of the robin rule, where the last event is that of this processor; false
    /// exactly where all is settled, and then nothing changed and nothing was written. No memory is
    /// taken.
    ///
    /// It is the event of the turn that [`Processors::robin`] names, made with no turn between, and
    /// is written where the caller keeps it.
    #[inline(always)]
    pub fn go_on<F: OpenFloor>(
        &mut self,
        floor: &mut F,
        last: Option<CpuNo>,
        event: &mut Event,
    ) -> bool
        requires after { (past : List Event) ×
            (AreAfter past self.old (F.script floor.old) (F.view floor.old) ×
            (last ≡ last_cpu past)) }
        ensures event { result ≡ true → (past : List Event) →
            AreAfter past self.old (F.script floor.old) (F.view floor.old) → last ≡ last_cpu past →
            (robin_in self.old.script self.old.limit past ≡ Some (turn_of event.new)) ×
            (step self.old.script self.old.limit (turn_of event.new) past ≡ Ok event.new) ×
            AreAfter (event.new ∷ past) self.new (F.script floor.new) (F.view floor.new) }
        ensures none { result ≡ false → (past : List Event) →
            AreAfter past self.old (F.script floor.old) (F.view floor.old) → last ≡ last_cpu past →
            robin_in self.old.script self.old.limit past ≡ None }
        ensures same { result ≡ false →
            (self.new ≡ self.old) × (floor.new ≡ floor.old) × (event.new ≡ event.old) }
        ensures floor { F.script floor.new ≡ F.script floor.old }
        ensures kept { (self.new.script ≡ self.old.script) × (self.new.limit ≡ self.old.limit) }
    {
        match self.first_chosen(floor, last) {
            Some(chosen) => {
                self.follow(floor, chosen, event);
                true
            }
            None => false,
        }
    }

    /// The first processor in the cycle that has something to do, where the last event is that of
    /// this one.
    #[inline(always)]
    fn first_chosen<F: OpenFloor>(
        &self,
        floor: &F,
        last: Option<CpuNo>,
    ) -> Option<(CpuNo, Choice<()>)>
        requires after { (past : List Event) ×
            (AreAfter past self.now (F.script floor.now) (F.view floor.now) ×
            (last ≡ last_cpu past)) }
        ensures turn { (past : List Event) →
            AreAfter past self.now (F.script floor.now) (F.view floor.now) → last ≡ last_cpu past →
            option_map (chosen_turn self.now.script past) result
            ≡ robin_in self.now.script self.now.limit past }
        ensures own { IfSome result (λ c.
            (past : List Event) → AreAfter past self.now (F.script floor.now) (F.view floor.now) →
            robin_turn_of self.now.script self.now.limit c.0 past
            ≡ Some (chosen_turn self.now.script past c)) }
        ensures below { IfSome result (λ c. c.0.0 < self.now.script.cpus) }
    {
        let mut p = self.first_cpu(last);
        for _ in 0..self.script.cpus {
            let cpu = CpuNo(p);
            if let Some(choice) = self.step_of(floor, cpu) {
                return Some((cpu, choice));
            }
            p = self.after(p);
        }
        None
    }

    /// What this processor does by the robin rule; None where it is cut, or rests or spins still
    /// and has seen all that was asked for.
    #[inline(always)]
    fn step_of<F: OpenFloor>(&self, floor: &F, p: CpuNo) -> Option<Choice<()>>
        requires sound { AreSound self.now (F.script floor.now) (F.view floor.now) }
        requires below { p.0 < self.now.script.cpus }
        ensures { (past : List Event) →
            AreAfter past self.now (F.script floor.now) (F.view floor.now) →
            option_map (step_turn p (found_values self.now.script p past)) result
            ≡ robin_turn_of self.now.script self.now.limit p past }
    {
        if self.is_cut(p) {
            return None;
        }
        uncut_step(&self.cpus[p.0 as usize], floor, p)
    }

    /// What a look of this processor finds now.
    fn rises_of<F: OpenFloor>(&self, floor: &F, p: CpuNo) -> Rises
        requires sound { AreSound self.now (F.script floor.now) (F.view floor.now) }
        requires below { p.0 < self.now.script.cpus }
        ensures { (past : List Event) →
            AreAfter past self.now (F.script floor.now) (F.view floor.now) →
            result.value ≡ found_values self.now.script p past }
    {
        self.cpus[p.0 as usize].rises(floor.asked(p))
    }

    /// The turn of a processor that goes on so.
    fn turn_of<F: OpenFloor>(&self, floor: &F, chosen: (CpuNo, Choice<()>)) -> Turn
        requires sound { AreSound self.now (F.script floor.now) (F.view floor.now) }
        requires below { chosen.0.0 < self.now.script.cpus }
        ensures { (past : List Event) →
            AreAfter past self.now (F.script floor.now) (F.view floor.now) →
            result ≡ chosen_turn self.now.script past chosen }
    {
        let (cpu, choice) = chosen;
        match choice {
            Choice::Look(()) => Turn::Look(cpu, self.rises_of(floor, cpu)),
            Choice::Switch(thread) => Turn::Switch(cpu, thread),
            Choice::Next => Turn::Next(cpu),
        }
    }

    /// Makes the event of the processor that the robin rule has go on.
    #[inline(always)]
    fn follow<F: OpenFloor>(
        &mut self,
        floor: &mut F,
        chosen: (CpuNo, Choice<()>),
        event: &mut Event,
    )
        requires sound { AreSound self.old (F.script floor.old) (F.view floor.old) }
        requires below { chosen.0.0 < self.old.script.cpus }
        requires own { (past : List Event) →
            AreAfter past self.old (F.script floor.old) (F.view floor.old) →
            robin_turn_of self.old.script self.old.limit chosen.0 past
            ≡ Some (chosen_turn self.old.script past chosen) }
        ensures event { (past : List Event) →
            AreAfter past self.old (F.script floor.old) (F.view floor.old) →
            (step self.old.script self.old.limit (chosen_turn self.old.script past chosen) past
            ≡ Ok event.new) ×
            AreAfter (event.new ∷ past) self.new (F.script floor.new) (F.view floor.new) }
        ensures floor { F.script floor.new ≡ F.script floor.old }
        ensures kept { (self.new.script ≡ self.old.script) × (self.new.limit ≡ self.old.limit) }
    {
        let (cpu, choice) = chosen;
        match choice {
            Choice::Look(()) => self.look(floor, cpu, event),
            Choice::Switch(thread) => self.make(floor, cpu, &Choice::Switch(thread), event),
            Choice::Next => self.make(floor, cpu, &Choice::Next, event),
        }
    }

    /// Has this processor look at what was asked for and not seen.
    fn look<F: OpenFloor>(&mut self, floor: &mut F, cpu: CpuNo, event: &mut Event)
        requires sound { AreSound self.old (F.script floor.old) (F.view floor.old) }
        requires below { cpu.0 < self.old.script.cpus }
        requires own { (past : List Event) →
            AreAfter past self.old (F.script floor.old) (F.view floor.old) →
            robin_turn_of self.old.script self.old.limit cpu past
            ≡ Some (look_of self.old.script cpu past) }
        ensures event { (past : List Event) →
            AreAfter past self.old (F.script floor.old) (F.view floor.old) →
            (step self.old.script self.old.limit (look_of self.old.script cpu past) past
            ≡ Ok event.new) ×
            AreAfter (event.new ∷ past) self.new (F.script floor.new) (F.view floor.new) }
        ensures floor { F.script floor.new ≡ F.script floor.old }
        ensures kept { (self.new.script ≡ self.old.script) × (self.new.limit ≡ self.old.limit) }
    {
        self.cpus[cpu.0 as usize].look_into(floor, event);
    }

    /// Takes the turn of this choice, which is the robin rule's for the processor and so is never
    /// refused.
    #[inline(always)]
    fn make<F: OpenFloor>(
        &mut self,
        floor: &mut F,
        cpu: CpuNo,
        choice: &Choice<&Rises>,
        event: &mut Event,
    )
        requires sound { AreSound self.old (F.script floor.old) (F.view floor.old) }
        requires below { cpu.0 < self.old.script.cpus }
        requires own { (past : List Event) →
            AreAfter past self.old (F.script floor.old) (F.view floor.old) →
            robin_turn_of self.old.script self.old.limit cpu past ≡ Some (turn_by cpu choice.now) }
        ensures event { (past : List Event) →
            AreAfter past self.old (F.script floor.old) (F.view floor.old) →
            (step self.old.script self.old.limit (turn_by cpu choice.now) past ≡ Ok event.new) ×
            AreAfter (event.new ∷ past) self.new (F.script floor.new) (F.view floor.new) }
        ensures floor { F.script floor.new ≡ F.script floor.old }
        ensures kept { (self.new.script ≡ self.old.script) × (self.new.limit ≡ self.old.limit) }
    {
        match self.take(floor, cpu, choice, event) {
            Ok(()) => {}
            Err(_) => unreachable!(),
        }
    }

    /// Whether all is settled: each processor is cut, or rests or spins still and has seen what was
    /// asked for.
    pub fn settled<F: OpenFloor>(&self, floor: &F) -> bool
        requires { AreSound self.now (F.script floor.now) (F.view floor.now) }
        ensures { (past : List Event) →
            AreAfter past self.now (F.script floor.now) (F.view floor.now) →
            result ≡ is_settled self.now.script self.now.limit past }
    {
        for p in 0..self.script.cpus {
            if self.robin_of(floor, CpuNo(p)).is_some() {
                return false;
            }
        }
        true
    }

    /// The processor after this one in the cycle.
    fn after(&self, p: u8) -> u8
        requires { p < self.now.script.cpus }
        ensures next { result ≡ next_cpu self.now.script p }
        ensures below { result < self.now.script.cpus }
    {
        if p < self.script.cpus - 1 { p + 1 } else { 0 }
    }

    /// The processor that is tried first, where the last event is that of this one.
    fn first_cpu(&self, last: Option<CpuNo>) -> u8
        requires some { 0 < self.now.script.cpus }
        requires below { IfSome last (λ p. p.0 < self.now.script.cpus) }
        ensures first { (past : List Event) → last ≡ last_cpu past →
            result ≡ first_of self.now.script past }
        ensures below { result < self.now.script.cpus }
    {
        match last {
            Some(p) => self.after(p.0),
            None => 0,
        }
    }
}
