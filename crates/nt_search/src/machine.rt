//! A machine that took some turns, and what follows its events beside it.
ghost use Rattle.std.specs.Prelude.{◌≡◌, ◌+◌, ◌*◌, ◌<◌, ◌≤◌, ◌^◌, ◌∷◌, [], IfOk};
ghost use Rattle.std.specs.Prelude.{IsTrue, List, None, false, OnOk, length, option_and_then, ℕ};
ghost use Rattle.nt_event.specs.declared.events.Event.{Event as TheEvent};
ghost use Rattle.nt_event.specs.declared.scripts.Script.{Script as TheScript};
ghost use Rattle.nt_event.specs.Families.{in_rewait};
ghost use Rattle.nt_event.specs.Regions.{stand_at, stand_of};
ghost use Rattle.nt_event.specs.Script.{fits, has_cpu};
ghost use Rattle.nt_event.specs.Step.{cpu_at};
ghost use Rattle.nt_alike.specs.Free.{LookIsShort};
ghost use Rattle.nt_expect.specs.declared.expectations.Watched.{Watched as TheWatched};
ghost use Rattle.nt_shade.specs.Shade.{IsShadeOf};
ghost use Rattle.nt_shade_asks.specs.Follows.{IsAsked, IsOf};
ghost use Rattle.nt_shade_dpcs.specs.Shade.{IsShade, due_again};
ghost use Rattle.nt_shows.specs.Tells.{AreCame};
ghost use Rattle.nt_search.specs.Keys.{IsKeyOf};
ghost use Rattle.nt_search.specs.States.{HasGrown};
ghost use Rattle.nt_search.specs.Machines.{IsRefused, IsTaken, IsUncut, Stands};

use crate::flags::note;
use crate::states::{Key, States};
use nt_cpu::{Cpu, no_event};
use nt_cpus::Processors;
use nt_event::limits::{EVENTS, TURNS};
use nt_event::{CpuNo, Event, Script, Turn, What, class};
use nt_expect::Watched;
use nt_frame::StandView;
use nt_plain::PlainFloor;
use nt_shade::{Shade, shade_of, unnoticed_of};
use nt_shade_asks::Unnoticed;
use nt_shade_dpcs::ShadeDpcs;
use std::alloc::{AllocError, Global};

/// A machine that took some turns, with what stands in its lanes, and which of the events that are
/// watched for came.
#[derive(Drop)]
pub(crate) struct Machine<'s> {
    pub(crate) script: &'s Script,
    pub(crate) processors: Processors<'s>,
    pub(crate) floor: PlainFloor<'s>,
    pub(crate) dpcs: ShadeDpcs,
    /// For each event that is watched for whether it came.
    pub(crate) came: Vec<bool>,
    /// How many turns it took.
    pub(crate) took: u32,
    /// The event of the last one; any event where it took none.
    pub(crate) event: Event,
}

/// When the wait that the event takes up again is due, where its processor has to take up one that
/// is due then.
fn due_by(what: &What, due: Option<u64>) -> Option<u64>
    ensures { result ≡ in_rewait (λ f y. due) None what.now }
{
    if let What::Rewait { .. } = what {
        return due;
    }
    None
}

/// An array has as many values as its type says.
fn has_all(values: &[u64; class::COUNT])
    ensures { length values.now ≡ 16 }
{
    let _values = values;
}

/// A look has at most 16 values, as many as its type.
fn look_is_short(what: &What)
    ensures { LookIsShort what.now }
{
    if let What::Look { rises } = what {
        has_all(&rises.value);
    }
}

/// When the wait is due that the innermost frame of the processor of this number has to take up
/// again.
fn due_of(number: CpuNo, cpu: &Cpu) -> Option<u64>
    ensures { result ≡ option_and_then (λ w. w.due)
        (stand_of number cpu.now.own.frames cpu.now.own.sweep).again }
{
    let stand = StandView::new(number, cpu.frames(), cpu.owes_sweep());
    match stand.again() {
        Some(wait) => wait.due,
        None => None,
    }
}

/// Puts the value there. The old one ends.
#[inline(always)]
fn put<T: Drop>(place: &mut T, value: T)
    ensures { place.new ≡ value }
{
    *place = value;
}

impl<'s> Machine<'s> {
    /// One that took no turn.
    pub(crate) fn new(
        alloc: Global,
        script: &'s Script,
        limit: u32,
        watched: &[Watched],
    ) -> Result<Machine<'s>, AllocError>
        requires script { IsTrue (fits script.now) }
        requires turns { (1 ≤ limit) × (limit ≤ TURNS) }
        requires all { script.now.cpus * limit ≤ EVENTS }
        ensures { IfOk result (Stands script.now limit watched.now []) }
    {
        Ok(Machine {
            script,
            came: vec![in alloc; false; watched.len()]?,
            processors: Processors::new(alloc, script, limit)?,
            dpcs: ShadeDpcs::new(alloc, script)?,
            floor: PlainFloor::new(alloc, script, limit)?,
            took: 0,
            event: no_event(),
        })
    }

    /// A copy of it.
    pub(crate) fn copy(&self, alloc: Global) -> Result<Machine<'s>, AllocError>
        ensures { IfOk result (λ m.
            (s : TheScript) (limit : ℕ) (watched : List TheWatched) (past : List TheEvent) →
            Stands s limit watched past self.now → Stands s limit watched past m) }
    {
        Ok(Machine {
            script: self.script,
            came: self.came.to_vec(alloc)?,
            processors: self.processors.copy(alloc)?,
            dpcs: self.dpcs.clone()?,
            floor: self.floor.copy(alloc)?,
            took: self.took,
            event: self.event,
        })
    }

    /// Makes it a copy of this one. After an error it stands where it stood.
    pub(crate) fn renew(&mut self, alloc: Global, from: &Machine<'s>) -> Result<(), AllocError>
        ensures { OnOk result (
            (s : TheScript) (limit : ℕ) (watched : List TheWatched) (past : List TheEvent) →
            Stands s limit watched past from.now → Stands s limit watched past self.new) }
    {
        let copy = from.copy(alloc)?;
        put(self, copy);
        Ok(())
    }

    /// When the wait is due that the innermost frame of the turn's processor has to take up again.
    fn due_again(&self, turn: &Turn) -> Option<u64>
        ensures { (s : TheScript) (limit : ℕ) (watched : List TheWatched) (past : List TheEvent) →
            Stands s limit watched past self.now → IsTrue (has_cpu s (cpu_at turn.now)) →
            result ≡ option_and_then (λ w. w.due) (stand_at s (cpu_at turn.now) past).again }
    {
        let number = turn.cpu();
        match self.processors.cpus().get(usize::from(number.0)) {
            Some(cpu) => due_of(number, cpu),
            None => None,
        }
    }

    /// What follows the machine's events takes in this one; a wait that it takes up again is due
    /// then.
    fn follow(
        &mut self,
        event: &Event,
        due: Option<u64>,
        watched: &[Watched],
    ) -> Result<(), AllocError>
        requires script { IsTrue (fits self.old.script.now) }
        requires cpu { IsTrue (has_cpu self.old.script.now event.now.cpu) }
        requires time { self.old.dpcs.timers.now + 2 ^ 32 ≤ 2 ^ 64 }
        requires shade { (past : List TheEvent) × IsShade self.old.script.now past self.old.dpcs }
        requires flags { length self.old.came.items ≡ length watched.now }
        ensures dpcs { OnOk result ((past : List TheEvent) →
            IsShade self.old.script.now past self.old.dpcs →
            in_rewait (λ f y. due) None event.now.what
            ≡ due_again self.old.script.now event.now past →
            IsShade self.old.script.now (event.now ∷ past) self.new.dpcs) }
        ensures came { OnOk result ((past : List TheEvent) →
            AreCame watched.now past self.old.came.items →
            AreCame watched.now (event.now ∷ past) self.new.came.items) }
        ensures others { self.new
            ≡ record self.old { dpcs = self.new.dpcs; came = self.new.came } }
    {
        self.dpcs
            .follow(self.script, event, due_by(&event.what, due))?;
        note(&mut self.came, watched, event);
        Ok(())
    }

    /// Takes the turn, and keeps its event. False where it is refused.
    pub(crate) fn take(&mut self, turn: &Turn, watched: &[Watched]) -> Result<bool, AllocError>
        requires { IsUncut watched.now self.old }
        ensures taken { IfOk result (λ b. IsTrue b →
            (s : TheScript) (limit : ℕ) (past : List TheEvent) →
            Stands s limit watched.now past self.old → length past < limit →
            IsTaken s limit watched.now turn.now past self.new.event self.new) }
        ensures refused { IfOk result (λ b. b ≡ false →
            (s : TheScript) (limit : ℕ) (past : List TheEvent) →
            Stands s limit watched.now past self.old → length past < limit →
            IsRefused s limit watched.now turn.now past self.new) }
    {
        let due = self.due_again(turn);
        self.floor.time_fits();
        let mut event = no_event();
        match self.processors.turn(&mut self.floor, turn, &mut event) {
            Ok(()) => {}
            Err(_) => return Ok(false),
        }
        look_is_short(&event.what);
        self.follow(&event, due, watched)?;
        self.took += 1;
        self.event = event;
        Ok(true)
    }

    /// What its processors were asked for and have not noticed.
    pub(crate) fn unnoticed(&self, alloc: Global) -> Result<Unnoticed, AllocError>
        requires { (s : TheScript) × (limit : ℕ) × (watched : List TheWatched) ×
            (past : List TheEvent) × Stands s limit watched past self.now }
        ensures of { IfOk result (IsOf self.now.script.now) }
        ensures asked { IfOk result (λ x.
            (s : TheScript) (limit : ℕ) (watched : List TheWatched) (past : List TheEvent) →
            Stands s limit watched past self.now → IsAsked s past x) }
    {
        let unnoticed = unnoticed_of(alloc, &self.processors, &self.floor)?;
        Ok(unnoticed)
    }

    /// The shade of the history after which it stands.
    pub(crate) fn shade(&self, alloc: Global) -> Result<Shade, AllocError>
        requires { (s : TheScript) × (limit : ℕ) × (watched : List TheWatched) ×
            (past : List TheEvent) × Stands s limit watched past self.now }
        ensures { IfOk result (λ x.
            (s : TheScript) (limit : ℕ) (watched : List TheWatched) (past : List TheEvent) →
            Stands s limit watched past self.now → IsShadeOf s past x) }
    {
        let unnoticed = self.unnoticed(alloc)?;
        let shade = shade_of(alloc, &self.processors, &self.floor, &self.dpcs, &unnoticed)?;
        Ok(shade)
    }

    /// The key of the state in which it stands, with this mark. The states keep its parts; after an
    /// error some of them.
    pub(crate) fn key(
        &self,
        alloc: Global,
        states: &mut States,
        mark: u32,
    ) -> Result<Key, AllocError>
        requires { (s : TheScript) × (limit : ℕ) × (watched : List TheWatched) ×
            (past : List TheEvent) × Stands s limit watched past self.now }
        ensures grown { HasGrown states.old states.new }
        ensures key { IfOk result (λ key.
            (s : TheScript) (limit : ℕ) (watched : List TheWatched) (past : List TheEvent) →
            Stands s limit watched past self.now →
            IsKeyOf s watched past states.new.parts key) }
    {
        let came = self.came.to_vec(alloc)?;
        let shade = self.shade(alloc)?;
        states.number(shade, came, mark)
    }
}
