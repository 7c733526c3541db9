//! A hunt: only runs with few preemptions are tried. Most failures are found soon so, and with
//! turns that are easy to follow.
ghost use Rattle.std.specs.Prelude.{◌≡◌, ◌≤◌, ◌<◌, ◌*◌, [], IfErr, IfOk, IsTrue, List, None};
ghost use Rattle.std.specs.Prelude.{OnOk, Some, get_or, length, true, ℕ};
ghost use Rattle.nt_event.specs.declared.events.Event.{Event as TheEvent};
ghost use Rattle.nt_event.specs.Script.{fits};
ghost use Rattle.nt_expect.specs.declared.expectations.Expectation.{Expectation as Expected};
ghost use Rattle.nt_expect.specs.Expectations.{expectations_fit};
ghost use Rattle.nt_search.specs.declared.failures.Failure.{Failure as TheFailure};
ghost use Rattle.nt_search.specs.Failures.{FailsAt};
ghost use Rattle.nt_search.specs.Hunts.{AreMore, IsHunted};
ghost use Rattle.nt_search.specs.Searches.{AreFound, IsAt, IsPlan, IsStart, IsStopped};
ghost use Rattle.nt_search.specs.Stations.{AreMoreBy, AreStations, IsTrial};

use crate::expanding::{Trial, is_wide};
use crate::failures::Failure;
use crate::found::Found;
use crate::machine::Machine;
use crate::plan::Plan;
use crate::stations::Stations;
use crate::stop::Stop;
use nt_ahead::turns_ahead;
use nt_event::limits::{EVENTS, TURNS};
use nt_event::{CpuNo, Script, Turn};
use nt_expect::Expectation;
use nt_shows::watch;
use std::alloc::{AllocError, Global};

/// Where a hunt is, and how it came there.
#[derive(Clone, Copy)]
struct Place {
    /// The number of the state.
    state: u32,
    /// The processor whose turn led there; None where no turn did.
    last: Option<CpuNo>,
    /// How many preemptions there were: turns of another processor than the last one, where that
    /// one could go on.
    preemptions: u8,
}

/// What a hunt found, and whether it ended early: the next one would then end no later.
#[derive(Drop)]
pub struct Hunted {
    pub found: Found,
    pub is_cut: bool,
}

/// The mark of a state to which a turn of this processor led, after so many preemptions.
fn mark_of(last: CpuNo, preemptions: u8) -> u32 {
    u32::from_le_bytes([preemptions, last.0, 1, 0])
}

impl Place {
    /// The state of this number, by its mark.
    fn new(state: u32, mark: u32) -> Place
        ensures { result.state ≡ state }
    {
        let [preemptions, last, is_some, _] = mark.to_le_bytes();
        Place {
            state,
            last: if is_some == 0 {
                None
            } else {
                Some(CpuNo(last))
            },
            preemptions,
        }
    }

    /// Whether the turn is one of the processor whose turn led there.
    fn goes_on_by(&self, turn: &Turn) -> bool {
        match self.last {
            Some(cpu) => cpu.0 == turn.cpu().0,
            None => false,
        }
    }

    /// The same state, where it is left by a turn of another processor.
    fn left(&self, could_go_on: bool) -> Place
        ensures { result.state ≡ self.now.state }
    {
        Place {
            state: self.state,
            last: self.last,
            preemptions: self.preemptions.saturating_add(u8::from(could_go_on)),
        }
    }
}

/// Whether a failure is noted of each of these expectations but `always ends`, which no single run
/// shows to fail.
fn all_failed(expectations: &[Expectation], failures: &[Option<Failure>]) -> bool
    requires { length failures.now ≡ length expectations.now }
{
    for place in 0..expectations.len() {
        let expectation = &expectations[place];
        if failures[place].is_none() && !matches!(expectation, Expectation::AlwaysEnds) {
            return false;
        }
    }
    true
}

impl<'s> Plan<'s> {
    /// Tries the turn, where it looks at one class at most and is one of the last processor or of
    /// another one, as is wanted. The machine stands in the state. False where the turn is not
    /// wanted or refused.
    fn hunt_turn(
        &self,
        alloc: Global,
        machine: &Machine<'s>,
        next: &mut Trial<'s>,
        place: &Place,
        goes_on: bool,
        turn: &Turn,
        found: &mut Found,
    ) -> Result<bool, Stop>
        requires plan { IsPlan self.now }
        requires at { (all : List (List TheEvent)) × AreFound self.now all found.old ×
            IsAt self.now all place.now.state machine.now ×
            IsTrial self.now all place.now.state next.old }
        ensures more { OnOk result ((all : List (List TheEvent)) →
            AreFound self.now all found.old → IsAt self.now all place.now.state machine.now →
            IsTrial self.now all place.now.state next.old → AreMore self.now all found.new) }
        ensures next { OnOk result ((all : List (List TheEvent)) →
            IsAt self.now all place.now.state machine.now →
            IsTrial self.now all place.now.state next.old →
            IsTrial self.now all place.now.state next.new) }
        ensures stopped { IfErr result (λ stop. (all : List (List TheEvent)) →
            AreFound self.now all found.old → IsAt self.now all place.now.state machine.now →
            IsTrial self.now all place.now.state next.old → IsStopped self.now all stop found.new) }
    {
        if is_wide(turn) || place.goes_on_by(turn) != goes_on {
            return Ok(false);
        }
        let mark = mark_of(turn.cpu(), place.preemptions);
        let taken = self.try_turn(alloc, machine, next, place.state, turn, mark, found)?;
        Ok(taken)
    }

    /// Tries those of these turns that are wanted. The machine stands in the state. False where
    /// none was taken.
    fn hunt_turns(
        &self,
        alloc: Global,
        machine: &Machine<'s>,
        next: &mut Trial<'s>,
        place: &Place,
        goes_on: bool,
        turns: &[Turn],
        found: &mut Found,
    ) -> Result<bool, Stop>
        requires plan { IsPlan self.now }
        requires at { (all : List (List TheEvent)) × AreFound self.now all found.old ×
            IsAt self.now all place.now.state machine.now ×
            IsTrial self.now all place.now.state next.old }
        ensures more { OnOk result ((all : List (List TheEvent)) →
            AreFound self.now all found.old → IsAt self.now all place.now.state machine.now →
            IsTrial self.now all place.now.state next.old → AreMore self.now all found.new) }
        ensures next { OnOk result ((all : List (List TheEvent)) →
            IsAt self.now all place.now.state machine.now →
            IsTrial self.now all place.now.state next.old →
            IsTrial self.now all place.now.state next.new) }
        ensures stopped { IfErr result (λ stop. (all : List (List TheEvent)) →
            AreFound self.now all found.old → IsAt self.now all place.now.state machine.now →
            IsTrial self.now all place.now.state next.old → IsStopped self.now all stop found.new) }
    {
        let mut some = false;
        for index in 0..turns.len() {
            let turn = &turns[index];
            let taken = self.hunt_turn(alloc, machine, next, place, goes_on, turn, found)?;
            some = some || taken;
        }
        Ok(some)
    }

    /// Tries those of these turns that are of another processor than the last one, where that is
    /// no preemption too many. The machine stands in the state.
    fn hunt_others(
        &self,
        alloc: Global,
        machine: &Machine<'s>,
        next: &mut Trial<'s>,
        place: &Place,
        preemptions: u8,
        turns: &[Turn],
        found: &mut Found,
    ) -> Result<(), Stop>
        requires plan { IsPlan self.now }
        requires at { (all : List (List TheEvent)) × AreFound self.now all found.old ×
            IsAt self.now all place.now.state machine.now ×
            IsTrial self.now all place.now.state next.old }
        ensures more { OnOk result ((all : List (List TheEvent)) →
            AreFound self.now all found.old → IsAt self.now all place.now.state machine.now →
            IsTrial self.now all place.now.state next.old → AreMore self.now all found.new) }
        ensures stopped { IfErr result (λ stop. (all : List (List TheEvent)) →
            AreFound self.now all found.old → IsAt self.now all place.now.state machine.now →
            IsTrial self.now all place.now.state next.old → IsStopped self.now all stop found.new) }
    {
        if preemptions < place.preemptions {
            return Ok(());
        }
        let _taken = self.hunt_turns(alloc, machine, next, place, false, turns, found)?;
        Ok(())
    }

    /// Tries those of these turns that may be taken with no more preemptions than this. The
    /// machine stands in the state.
    fn hunt_within(
        &self,
        alloc: Global,
        machine: &Machine<'s>,
        next: &mut Trial<'s>,
        place: &Place,
        preemptions: u8,
        turns: &[Turn],
        found: &mut Found,
    ) -> Result<(), Stop>
        requires plan { IsPlan self.now }
        requires at { (all : List (List TheEvent)) × AreFound self.now all found.old ×
            IsAt self.now all place.now.state machine.now ×
            IsTrial self.now all place.now.state next.old }
        ensures more { OnOk result ((all : List (List TheEvent)) →
            AreFound self.now all found.old → IsAt self.now all place.now.state machine.now →
            IsTrial self.now all place.now.state next.old → AreMore self.now all found.new) }
        ensures stopped { IfErr result (λ stop. (all : List (List TheEvent)) →
            AreFound self.now all found.old → IsAt self.now all place.now.state machine.now →
            IsTrial self.now all place.now.state next.old → IsStopped self.now all stop found.new) }
    {
        let could_go_on = self.hunt_turns(alloc, machine, next, place, true, turns, found)?;
        let left = place.left(could_go_on);
        self.hunt_others(alloc, machine, next, &left, preemptions, turns, found)?;
        Ok(())
    }

    /// Tries the turns that may be taken from the state, in which the machine stands, with no more
    /// preemptions than this.
    fn hunt_ahead(
        &self,
        alloc: Global,
        machine: &Machine<'s>,
        place: &Place,
        preemptions: u8,
        found: &mut Found,
    ) -> Result<(), Stop>
        requires plan { IsPlan self.now }
        requires at { (all : List (List TheEvent)) × AreFound self.now all found.old ×
            IsAt self.now all place.now.state machine.now }
        ensures more { OnOk result ((all : List (List TheEvent)) →
            AreFound self.now all found.old → IsAt self.now all place.now.state machine.now →
            AreMore self.now all found.new) }
        ensures stopped { IfErr result (λ stop. (all : List (List TheEvent)) →
            AreFound self.now all found.old → IsAt self.now all place.now.state machine.now →
            IsStopped self.now all stop found.new) }
    {
        let unnoticed = machine.unnoticed(alloc)?;
        let turns = turns_ahead(alloc, self.script, &unnoticed)?;
        let mut next = Trial::new(alloc, machine)?;
        let turns = turns.as_slice();
        let hunted = self.hunt_within(alloc, machine, &mut next, place, preemptions, turns, found);
        drop(next);
        hunted
    }

    /// Tries the turns that may be taken from the state of this number with no more preemptions
    /// than this, and notes what it shows where all is quiet there. The machine in it is kept.
    fn hunt_at(
        &self,
        alloc: Global,
        number: u32,
        preemptions: u8,
        stations: &mut Stations<'s>,
        found: &mut Found,
    ) -> Result<(), Stop>
        requires plan { IsPlan self.now }
        requires number { number < length found.old.states.ways }
        requires found { (all : List (List TheEvent)) × AreFound self.now all found.old ×
            AreStations self.now all stations.old }
        ensures more { OnOk result ((all : List (List TheEvent)) →
            AreFound self.now all found.old → AreStations self.now all stations.old →
            AreMoreBy self.now all found.new stations.new) }
        ensures stopped { IfErr result (λ stop. (all : List (List TheEvent)) →
            AreFound self.now all found.old → AreStations self.now all stations.old →
            IsStopped self.now all stop found.new) }
    {
        let machine = self.machine_at(alloc, &found.states, stations, number)?;
        let place = Place::new(number, found.states.mark_of(number));
        self.note_end(&machine, number, found);
        match self.hunt_ahead(alloc, &machine, &place, preemptions, found) {
            Ok(()) => {
                let room = self.room(found.states.len());
                stations.keep(alloc, number, machine, room);
                Ok(())
            }
            Err(stop) => {
                drop(machine);
                Err(stop)
            }
        }
    }

    /// Hunts from each state, and each that is found by this, until all failed that can. No machine
    /// is kept yet.
    fn hunt_each(
        &self,
        alloc: Global,
        preemptions: u8,
        stations: &mut Stations<'s>,
        found: &mut Found,
    ) -> Result<(), Stop>
        requires plan { IsPlan self.now }
        requires start { IsStart self.now found.old }
        requires kept { stations.old.kept.items ≡ [] }
        requires next { stations.old.next.items ≡ [] }
        ensures more { OnOk result (AreMore self.now [] found.new) }
        ensures stopped { IfErr result (λ stop. IsStopped self.now [] stop found.new) }
    {
        for number in 0..self.most {
            if found.states.len() <= number as usize
                || all_failed(self.expectations, found.failures.as_slice())
            {
                return Ok(());
            }
            self.hunt_at(alloc, number, preemptions, stations, found)?;
            found.forget_leads(alloc);
        }
        Ok(())
    }

    /// Hunts from each state, and each that is found by this, until all failed that can.
    fn hunt_all(&self, alloc: Global, preemptions: u8, found: &mut Found) -> Result<(), Stop>
        requires plan { IsPlan self.now }
        requires start { IsStart self.now found.old }
        ensures more { OnOk result (AreMore self.now [] found.new) }
        ensures stopped { IfErr result (λ stop. IsStopped self.now [] stop found.new) }
    {
        let mut stations = Stations::new(alloc);
        let hunted = self.hunt_each(alloc, preemptions, &mut stations, found);
        drop(stations);
        hunted
    }
}

/// Looks for failures of these expectations in the runs with at most so many preemptions: turns of
/// another processor than the last one, where that one could go on. The states are gone through by
/// the number of their events, so what it finds first needs as few as any such run. A look is at
/// one class.
///
/// The script and the expectations fit. On the way to a state each processor makes fewer events
/// than `limit`, which is 1 to 20,000, and at most 160,000 in all processors together; `most` is
/// the greatest number of states. An error comes where no memory is found for the first state or
/// for the list of what the expectations watch for.
pub fn hunt(
    alloc: Global,
    script: &Script,
    expectations: &[Expectation],
    limit: u32,
    most: u32,
    preemptions: u8,
) -> Result<Hunted, AllocError>
    requires fit { IsTrue (fits script.now) }
    requires named { expectations_fit script.now expectations.now ≡ true }
    requires turns { (1 ≤ limit) × (limit ≤ TURNS) }
    requires all { script.now.cpus * limit ≤ EVENTS }
    requires most { 1 ≤ most }

    // The turns of the ways lead to the states, and a failure shows in its state, by its turn and
    // at its number.
    ensures hunted { IfOk result (λ x. IsHunted script.now expectations.now x.found) }

    // An expectation of which a failure is noted fails in some run of the script, and the failure's
    // number is that of the event that shows it there, or of the events before a quiet end.
    ensures fails { IfOk result (λ x. (j : ℕ) (d : Expected) (f : TheFailure) →
        j < length expectations.now → get_or x.found.failures.items j None ≡ Some f →
        FailsAt script.now (get_or expectations.now j d) f.at) }
{
    let plan = Plan {
        script,
        limit,
        most,
        expectations,
        watched: watch(alloc, expectations)?,
    };
    let mut found = plan.start(alloc)?;
    let hunted = plan.hunt_all(alloc, preemptions, &mut found);
    Ok(Hunted {
        found,
        is_cut: hunted.is_err(),
    })
}
