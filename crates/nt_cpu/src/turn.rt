//! Turns.
ghost use Rattle.std.specs.Prelude.{◌≡◌, ◌&&◌, ◌<◌, ℕ, false, true, IfErr, IfOk, IsErrOf, OnErr};
ghost use Rattle.std.specs.Prelude.{OnOk, Some};
ghost use Rattle.nt_event.specs.Own.{stand_in};
ghost use Rattle.nt_event.specs.Robin.{is_behind, look_values};
ghost use Rattle.nt_event.specs.Step.{cpu_at, is_cut};
ghost use Rattle.nt_event.specs.Acts.{Found};
ghost use Rattle.nt_floor.specs.Views.{IsUnmoved};
ghost use Rattle.nt_event.specs.declared.events.Event.{Event};
ghost use Rattle.nt_event.specs.declared.events.What.{What};
ghost use Rattle.nt_event.specs.declared.events.Turn.TheVariants.{Look as LookTurn};
ghost use Rattle.nt_event.specs.declared.jobs.Job.{Job};
ghost use Rattle.nt_event.specs.declared.jobs.Task.{Task};
ghost use Rattle.nt_event.specs.Jobs.{may_switch as switch_in};
ghost use Rattle.nt_event.specs.Script.{has_thread};
ghost use Rattle.nt_event.specs.Lists.{when};
ghost use Rattle.nt_cpu.specs.declared.turn.TurnRefusal.{TurnRefusal};
ghost use Rattle.nt_event.specs.declared.numbers.CpuNo.{CpuNo};
ghost use Rattle.nt_cpu.specs.Choices.{turn_by};
ghost use Rattle.nt_cpu.specs.Plans.{IsWritten, planned};
ghost use Rattle.nt_cpu.specs.Turns.{IsTurned, IsTurnRefused, Serves, acts, rises as rises_in};
ghost use Rattle.nt_cpu.specs.Turns.{turn_refusal as refusal_of, turn_task as task_of};

use crate::choice::Choice;
use crate::cpu::Cpu;
use crate::looks::rise;
use crate::next::Next;
use crate::writing::no_event;
use nt_event::{Event, Job, Rises, ThreadNo, Turn};
use nt_floor::{ActRefusal, Floor, OpenFloor};

/// Why a turn made no event.
#[derive(Clone, Copy, PartialEq, Eq, Debug)]
pub enum TurnRefusal {
    /// The processor has no next event, or made as many as it may.
    NothingToDo,
    /// A look in which no value rises, or one that is not above what was seen.
    BadLook,
    /// A switch to a thread that cannot be taken up, or where none can.
    BadChoice,
    /// No memory was found.
    NoMemory,
}

/// The refusal of a turn that gives no event.
fn turn_refusal(choice: &Choice<&Rises>) -> TurnRefusal
    ensures { (p : CpuNo) → result ≡ refusal_of (turn_by p choice.now) }
{
    match choice {
        Choice::Next => TurnRefusal::NothingToDo,
        Choice::Look(_) => TurnRefusal::BadLook,
        Choice::Switch(_) => TurnRefusal::BadChoice,
    }
}

impl<'s> Cpu<'s> {
    /// Whether it made as many events as it may.
    pub(crate) fn is_cut(&self) -> bool
        ensures { result ≡ is_cut self.now.limit self.now.own }
    {
        self.limit <= self.made
    }

    /// What a turn has it do, or None where the turn is refused. An event that touches no lane is
    /// written.
    fn turn_task(&self, choice: &Choice<&Rises>, event: &mut Event) -> Option<Next>
        ensures task { planned event.new result
            ≡ task_of self.now.script self.now.cpu self.now.own (turn_by self.now.cpu choice.now) }
        ensures written { IsWritten self.now event.old event.new result }
    {
        match choice {
            Choice::Next => self.task(event),
            Choice::Look(rises) => self.look_task(rises, event),
            Choice::Switch(thread) => self.switch_task(*thread),
        }
    }

    /// A look, where some value rises and each that does is above what was seen.
    fn look_task(&self, rises: &Rises, event: &mut Event) -> Option<Next>
        ensures task { planned event.new result
            ≡ when (rises_in rises.now.value self.now.own.seen)
            (Some (Task.Alone (What.Look rises.now))) }
        ensures written { IsWritten self.now event.old event.new result }
    {
        if rise(rises, &self.seen) {
            self.write_look(rises, event);
            Some(Next::Alone)
        } else {
            None
        }
    }

    /// A switch, where one may be made and the script has the thread.
    fn switch_task(&self, thread: ThreadNo) -> Option<Next>
        ensures task { (event : Event) →
            planned event result
            ≡ when (switch_in self.now.own && has_thread self.now.script thread)
            (Some (Task.Shared (Job.Switch thread))) }
        ensures unwritten { (event : Event) → IsWritten self.now event event result }
    {
        if self.is_free() && (thread.0 as usize) < self.script.threads.len() {
            Some(Next::Shared(Job::Switch(thread)))
        } else {
            None
        }
    }

    /// Takes the turn: makes its event, or answers why there is none; then nothing changed but what
    /// the floor learned.
    ///
    /// The turn names this processor, and the values of a look were asked for. The floor is of this
    /// script, and serves the processor: a number may be drawn unless the processor is cut, and
    /// where the floor tells its states, the processor stands in them. NothingToDo comes where the
    /// processor is cut, and for a turn Next where it rests or has to choose a thread; BadLook
    /// where no value rises or one is not above what was seen; BadChoice where the thread cannot be
    /// taken or no choice may be made. NoMemory comes from a floor that is not alone.
    pub fn turn<F: Floor>(&mut self, floor: &mut F, choice: &Turn) -> Result<Event, TurnRefusal>
        requires names { cpu_at choice.now ≡ self.old.cpu }
        requires script { F.script floor.old ≡ self.old.script }
        requires serves { Serves self.old (F.view floor.old) }
        ensures ok { IfOk result (λ e.
            (f : Found) × (n : ℕ) ×
            (IsTurned self.old self.new choice.now f n e (F.view floor.old) (F.view floor.new) ×
            (acts self.old choice.now ≡ true →
            F.found floor.new n e (stand_in self.old.cpu self.old.own) f))) }
        ensures err { IfErr result (λ r.
            (f : Found) ×
            (IsTurnRefused self.old choice.now f r (F.view floor.old) ×
            (acts self.old choice.now ≡ true → (job : Job) →
            task_of self.old.script self.old.cpu self.old.own choice.now ≡ Some (Task.Shared job) →
            F.shows floor.new (stand_in self.old.cpu self.old.own) job f))) }
        ensures same { OnErr result
            ((self.new ≡ self.old) × IsUnmoved (F.view floor.old) (F.view floor.new)) }
        ensures memory { (F.view floor.old).alone ≡ true → IsErrOf result TurnRefusal.NoMemory → ⊥ }
        ensures script { F.script floor.new ≡ F.script floor.old }
        ensures grows { F.grows floor.old floor.new }
    {
        let mut event = no_event();
        match self.turn_into(floor, choice, &mut event) {
            Ok(()) => Ok(event),
            Err(refusal) => Err(refusal),
        }
    }

    /// Takes the turn as [`Cpu::turn`] does, and writes its event where the caller keeps it; after
    /// a refusal nothing was written.
    pub fn turn_into<F: Floor>(
        &mut self,
        floor: &mut F,
        choice: &Turn,
        event: &mut Event,
    ) -> Result<(), TurnRefusal>
        requires names { cpu_at choice.now ≡ self.old.cpu }
        requires script { F.script floor.old ≡ self.old.script }
        requires serves { Serves self.old (F.view floor.old) }
        ensures ok { OnOk result ((f : Found) × (n : ℕ) ×
            (IsTurned self.old self.new choice.now f n event.new (F.view floor.old)
            (F.view floor.new) ×
            (acts self.old choice.now ≡ true →
            F.found floor.new n event.new (stand_in self.old.cpu self.old.own) f))) }
        ensures err { IfErr result (λ r.
            (f : Found) ×
            (IsTurnRefused self.old choice.now f r (F.view floor.old) ×
            (acts self.old choice.now ≡ true → (job : Job) →
            task_of self.old.script self.old.cpu self.old.own choice.now ≡ Some (Task.Shared job) →
            F.shows floor.new (stand_in self.old.cpu self.old.own) job f))) }
        ensures same { OnErr result
            ((self.new ≡ self.old) × IsUnmoved (F.view floor.old) (F.view floor.new)) }
        ensures unwritten { OnErr result (event.new ≡ event.old) }
        ensures memory { (F.view floor.old).alone ≡ true → IsErrOf result TurnRefusal.NoMemory → ⊥ }
        ensures script { F.script floor.new ≡ F.script floor.old }
        ensures grows { F.grows floor.old floor.new }
    {
        self.choose_into(floor, &Choice::of(choice), event)
    }

    /// Looks at what was asked for, where that is above what was seen: the turn of this look, which
    /// is not refused.
    pub fn look_into<F: OpenFloor>(&mut self, floor: &mut F, event: &mut Event)
        requires script { F.script floor.old ≡ self.old.script }
        requires serves { Serves self.old (F.view floor.old) }
        requires cpu { self.old.cpu.0 < (F.view floor.old).cpus }
        requires uncut { is_cut self.old.limit self.old.own ≡ false }
        requires behind { is_behind self.old.own ((F.view floor.old).value self.old.cpu) ≡ true }
        ensures ok { (f : Found) × (n : ℕ) ×
            IsTurned self.old self.new
            (LookTurn self.old.cpu
            (record { value = look_values self.old.own ((F.view floor.old).value self.old.cpu) }))
            f n event.new (F.view floor.old) (F.view floor.new) }
        ensures script { F.script floor.new ≡ F.script floor.old }
        ensures grows { F.grows floor.old floor.new }
    {
        self.sound();
        self.write_asked(floor.asked(self.cpu), event);
        self.make_alone(floor, event);
    }

    /// Takes its turn of this choice as [`Cpu::turn_into`] does.
    pub fn choose_into<F: Floor>(
        &mut self,
        floor: &mut F,
        choice: &Choice<&Rises>,
        event: &mut Event,
    ) -> Result<(), TurnRefusal>
        requires script { F.script floor.old ≡ self.old.script }
        requires serves { Serves self.old (F.view floor.old) }
        ensures ok { OnOk result ((f : Found) × (n : ℕ) ×
            (IsTurned self.old self.new (turn_by self.old.cpu choice.now) f n event.new
            (F.view floor.old) (F.view floor.new) ×
            (acts self.old (turn_by self.old.cpu choice.now) ≡ true →
            F.found floor.new n event.new (stand_in self.old.cpu self.old.own) f))) }
        ensures err { IfErr result (λ r.
            (f : Found) ×
            (IsTurnRefused self.old (turn_by self.old.cpu choice.now) f r (F.view floor.old) ×
            (acts self.old (turn_by self.old.cpu choice.now) ≡ true → (job : Job) →
            task_of self.old.script self.old.cpu self.old.own (turn_by self.old.cpu choice.now)
            ≡ Some (Task.Shared job) →
            F.shows floor.new (stand_in self.old.cpu self.old.own) job f))) }
        ensures same { OnErr result
            ((self.new ≡ self.old) × IsUnmoved (F.view floor.old) (F.view floor.new)) }
        ensures unwritten { OnErr result (event.new ≡ event.old) }
        ensures memory { (F.view floor.old).alone ≡ true → IsErrOf result TurnRefusal.NoMemory → ⊥ }
        ensures script { F.script floor.new ≡ F.script floor.old }
        ensures grows { F.grows floor.old floor.new }
    {
        self.sound();
        if self.is_cut() {
            return Err(TurnRefusal::NothingToDo);
        }
        match self.turn_task(choice, event) {
            Some(Next::Alone) => {
                self.make_alone(floor, event);
                Ok(())
            }
            Some(Next::Shared(job)) => match self.make_shared(floor, job, event) {
                Ok(()) => Ok(()),
                Err(ActRefusal::NoMemory) => Err(TurnRefusal::NoMemory),
                Err(_) => Err(turn_refusal(choice)),
            },
            None => Err(turn_refusal(choice)),
        }
    }
}
