//! Steps that a processor chooses by itself.
ghost use Rattle.std.specs.Prelude.{◌≡◌, ◌<◌, ◌≤◌, ℕ, List, false, true, IfOk, IfErr, OnErr, IsErr};
ghost use Rattle.std.specs.Prelude.{Some, if◌then◌else◌, length, nat_lt};
ghost use Rattle.nt_event.specs.Jobs.{chosen_task as chosen_of};
ghost use Rattle.std.specs.List.{list_any};
ghost use Rattle.nt_event.specs.Robin.{is_behind, look_values};
ghost use Rattle.nt_event.specs.declared.events.What.{What};
ghost use Rattle.nt_cpu.specs.Plans.{IsWritten, planned};
ghost use Rattle.nt_event.specs.Own.{stand_in};
ghost use Rattle.nt_event.specs.Step.{is_cut};
ghost use Rattle.nt_event.specs.Lists.{value_at};
ghost use Rattle.nt_event.specs.declared.jobs.Job.{Job};
ghost use Rattle.nt_event.specs.declared.jobs.Task.{Task};
ghost use Rattle.nt_event.specs.Acts.{Found};
ghost use Rattle.nt_floor.specs.Views.{IsUnmoved, View};
ghost use Rattle.nt_cpu.specs.declared.steps.Local.{Local};
ghost use Rattle.nt_cpu.specs.Steps.{Advanced, AllLooked, AreLooked, IsStepped, Knows, SeenWithin};
ghost use Rattle.nt_cpu.specs.Turns.{IsShared, Serves};

use crate::cpu::Cpu;
use crate::looks::some_rises;
use crate::next::Next;
use crate::writing::no_event;
use nt_event::class::{COUNT, is_used};
use nt_event::{CpuNo, Event, Job, Rises};
use nt_floor::{Floor, OpenFloor, Words};
use std::alloc::AllocError;

/// The classes of requests that are used are below this number.
const CLASSES: u8 = 15;

/// What a step did without a floor.
#[derive(Clone, Copy, PartialEq, Eq, Debug)]
pub enum Local {
    /// It made this event.
    Did(Event),
    /// The next event needs a floor, for this job.
    NeedsLane(Job),
    /// The processor rests or spins still, and no request rose.
    Quiet,
    /// The processor made as many events as it may.
    Cut,
}

/// What a step did.
#[derive(Clone, Copy, PartialEq, Eq, Debug)]
pub enum Turned {
    /// It made this event.
    Did(Event),
    /// The processor rests or spins still, and no request rose.
    Quiet,
    /// The processor made as many events as it may.
    Cut,
}

/// Looks once at each used class of the processor, in order. The answers by class; 0 for a class
/// that is not used.
fn look_all<W: Words>(words: &mut W, cpu: CpuNo) -> [u64; COUNT]
    requires { cpu.0 < (W.view words.old).cpus }
    ensures looks { AllLooked cpu result (W.view words.old) (W.view words.new) }
    ensures grows { W.grows words.old words.new }
{
    let mut answers = [0; COUNT];
    for class in 0..CLASSES {
        if is_used(class) {
            answers[class as usize] = words.look(cpu, class);
        }
    }
    answers
}

impl<'s> Cpu<'s> {
    /// Whether one of these values, one for each of the 16 classes, is above what was seen.
    #[inline(always)]
    pub fn is_behind(&self, answers: &[u64]) -> bool
        requires { length answers.now ≡ 16 }
        ensures { result ≡ is_behind self.now.own (value_at answers.now) }
    {
        self.seen.is_below(answers)
    }

    /// Whether the floor has a request for this processor that it has not seen. It has seen nothing
    /// that the floor has no request for.
    #[inline(always)]
    pub fn is_behind_on<F: OpenFloor>(&self, floor: &F, p: CpuNo) -> bool
        requires cpu { p.0 < (F.view floor.now).cpus }
        requires seen { SeenWithin self.now.own ((F.view floor.now).value p) }
        ensures { result ≡ is_behind self.now.own ((F.view floor.now).value p) }
    {
        floor.asks_more(p, &self.seen)
    }

    /// Those of these values, one for each of the 16 classes, that are above what was seen; 0 for
    /// the other classes.
    pub fn rises(&self, answers: &[u64]) -> Rises
        requires { length answers.now ≡ 16 }
        ensures { result.value ≡ look_values self.now.own (value_at answers.now) }
    {
        self.seen.below(answers)
    }

    /// What it chooses to do: nothing where it rests or spins still; a ready thread where one may
    /// be taken up; else what is next.
    fn chosen_task(&self, event: &mut Event) -> Option<Next>
        ensures task { planned event.new result
            ≡ chosen_of self.now.script self.now.cpu self.now.own }
        ensures written { IsWritten self.now event.old event.new result }
    {
        if self.is_still() {
            None
        } else if self.is_free() {
            Some(Next::Shared(Job::Pick(self.kept.took)))
        } else {
            self.task(event)
        }
    }

    /// What it has to do after looks that found these values risen.
    fn local_task(&self, rises: &Rises, event: &mut Event) -> Option<Next>
        ensures task { planned event.new result
            ≡ (if list_any (λ v. nat_lt 0 v) rises.now.value
            then Some (Task.Alone (What.Look rises.now))
            else chosen_of self.now.script self.now.cpu self.now.own) }
        ensures written { IsWritten self.now event.old event.new result }
    {
        if some_rises(&rises.value) {
            self.write_look(rises, event);
            Some(Next::Alone)
        } else {
            self.chosen_task(event)
        }
    }

    /// Makes its next event where that touches no lane, and else tells what it needs; it waits for
    /// nobody.
    ///
    /// Unless the processor is cut, it first looks once at each used class of requests. Where a
    /// look gave more than the value seen, the event is a Look with exactly these values. Else,
    /// where it rests or spins still, the answer is Quiet.
    pub fn step_local<W: Words>(&mut self, words: &mut W) -> Local
        requires serves { Serves self.old (W.view words.old) }
        ensures step { (answers : List ℕ) × (u : View) ×
            IsStepped self.old self.new answers result (W.view words.old) u (W.view words.new) }
        ensures lane { (job : Job) → result ≡ Local.NeedsLane job →
            Serves self.new (W.view words.new) }
        ensures knows { Knows self.new (W.view words.new) }
        ensures grows { W.grows words.old words.new }
    {
        self.sound();
        if self.is_cut() {
            return Local::Cut;
        }
        let answers = look_all(words, self.cpu);
        let rises = self.rises(&answers);
        let mut event = no_event();
        match self.local_task(&rises, &mut event) {
            None => Local::Quiet,
            Some(Next::Alone) => {
                self.make_alone(words, &event);
                Local::Did(event)
            }
            Some(Next::Shared(job)) => Local::NeedsLane(job),
        }
    }

    /// Has the floor make the event of the job that [`Cpu::step_local`] told.
    ///
    /// A floor that is alone finds memory. After NoMemory no event was made and the processor is as
    /// before.
    pub fn step_lane<F: Floor>(&mut self, floor: &mut F, job: Job) -> Result<Event, AllocError>
        requires uncut { is_cut self.old.limit self.old.own ≡ false }
        requires job { chosen_of self.old.script self.old.cpu self.old.own
            ≡ Some (Task.Shared job) }
        requires script { F.script floor.old ≡ self.old.script }
        requires serves { Serves self.old (F.view floor.old) }
        ensures ok { IfOk result (λ e.
            (f : Found) × (n : ℕ) ×
            (IsShared self.old self.new job f n e (F.view floor.old) (F.view floor.new) ×
            F.found floor.new n e (stand_in self.old.cpu self.old.own) f)) }
        ensures same { OnErr result
            ((self.new ≡ self.old) × IsUnmoved (F.view floor.old) (F.view floor.new)) }
        ensures memory { (F.view floor.old).alone ≡ true → IsErr result → ⊥ }
        ensures script { F.script floor.new ≡ F.script floor.old }
        ensures knows { Knows self.new (F.view floor.new) }
        ensures grows { F.grows floor.old floor.new }
    {
        self.sound();
        let mut event = no_event();
        match self.make_shared(floor, job, &mut event) {
            Ok(()) => Ok(event),
            Err(_) => Err(AllocError),
        }
    }

    /// Makes its next event: looks, and then the event alone or with the floor; it takes up a ready
    /// thread where one may be taken.
    ///
    /// Quiet comes where the processor rests or spins still and no look gave more than the value
    /// seen; Cut where it made as many events as it may. After NoMemory no event was made and the
    /// processor is as before; the floor has the looks more.
    pub fn advance<F: Floor>(&mut self, floor: &mut F) -> Result<Turned, AllocError>
        requires script { F.script floor.old ≡ self.old.script }
        requires serves { Serves self.old (F.view floor.old) }
        ensures ok { IfOk result (λ r.
            (answers : List ℕ) × (u : View) ×
            (AreLooked self.old answers (F.view floor.old) u ×
            Advanced self.old self.new answers (F.found floor.new) r u (F.view floor.new))) }
        ensures same { OnErr result ((self.new ≡ self.old) ×
            ((answers : List ℕ) × (u : View) ×
            (AreLooked self.old answers (F.view floor.old) u × IsUnmoved u (F.view floor.new)))) }
        ensures memory { (F.view floor.old).alone ≡ true → IsErr result → ⊥ }
        ensures script { F.script floor.new ≡ F.script floor.old }
        ensures knows { Knows self.new (F.view floor.new) }
        ensures grows { F.grows floor.old floor.new }
    {
        match self.step_local(floor) {
            Local::Did(event) => Ok(Turned::Did(event)),
            Local::NeedsLane(job) => match self.step_lane(floor, job) {
                Ok(event) => Ok(Turned::Did(event)),
                Err(error) => Err(error),
            },
            Local::Quiet => Ok(Turned::Quiet),
            Local::Cut => Ok(Turned::Cut),
        }
    }
}
