//! The search: each state is expanded once.
ghost use Rattle.std.specs.Prelude.{◌≡◌, ◌≤◌, ◌<◌, ◌*◌, [], IfErr, IfOk, IsTrue, List, None};
ghost use Rattle.std.specs.Prelude.{OnOk, Some, get_or, length, true, ℕ, ◌^◌};
ghost use Rattle.nt_event.specs.declared.events.Event.{Event as TheEvent};
ghost use Rattle.nt_event.specs.Script.{fits};
ghost use Rattle.nt_expect.specs.declared.expectations.Expectation.{Expectation as Expected};
ghost use Rattle.nt_expect.specs.declared.expectations.Expectation.TheVariants.{AlwaysEnds};
ghost use Rattle.nt_expect.specs.Expectations.{expectations_fit};
ghost use Rattle.nt_verdict.specs.Fails.{Fails};
ghost use Rattle.nt_search.specs.Ends.{IsEndOf, TellsOfEnds, is_whole};
ghost use Rattle.nt_search.specs.declared.failures.Failure.{Failure as TheFailure};
ghost use Rattle.nt_search.specs.Failures.{EachUnnoted, FailsAt};
ghost use Rattle.nt_search.specs.Searches.{AreFound, IsAt, IsPlan, IsSearched};
ghost use Rattle.nt_search.specs.Searches.{IsShownIn, IsStart, IsStopped, IsWayStop};
ghost use Rattle.nt_rounds.specs.Depths.{IsInside};
ghost use Rattle.nt_search.specs.Machines.{Stands};
ghost use Rattle.nt_search.specs.Stations.{AreStations, BeginsAt, IsExpandedBy, IsPathStop};
ghost use Rattle.nt_search.specs.Ways.{AreWays, Lead};

use crate::found::{End, Found, Searched};
use crate::machine::Machine;
use crate::plan::Plan;
use crate::states::{States, Way};
use crate::stations::Stations;
use crate::stop::Stop;
use nt_event::limits::{EVENTS, TURNS};
use nt_event::{CpuNo, Script, Turn};
use nt_expect::Expectation;
use nt_rounds::{Graph, depths};
use nt_shows::watch;
use std::alloc::{AllocError, Global};

impl<'s> Plan<'s> {
    /// The state of no event, alone.
    pub(crate) fn start(&self, alloc: Global) -> Result<Found, AllocError>
        requires plan { IsPlan self.now }
        ensures { IfOk result (IsStart self.now) }
    {
        let machine = Machine::new(alloc, self.script, self.limit, self.watched.as_slice())?;
        let mut states = States::new(alloc);
        let key = machine.key(alloc, &mut states, 0);
        drop(machine);
        let way = Way {
            from: 0,
            turn: Turn::Next(CpuNo(0)),
        };
        match key {
            Ok(key) => {
                let found = Found::new(alloc, states, key, way, self.expectations.len())?;
                Ok(found)
            }
            Err(error) => {
                drop(states);
                Err(error)
            }
        }
    }

    /// The machine that begins there: as the one at this place, or with no event.
    fn machine_from(
        &self,
        alloc: Global,
        stations: &Stations<'s>,
        place: Option<usize>,
    ) -> Result<Machine<'s>, AllocError>
        requires plan { IsPlan self.now }
        requires begins { (state : ℕ) × BeginsAt stations.now place state }
        ensures { IfOk result (λ m. (all : List (List TheEvent)) (state : ℕ) →
            get_or all 0 [] ≡ [] → AreStations self.now all stations.now →
            BeginsAt stations.now place state → Stands self.now.script.now self.now.limit
            self.now.watched.items (get_or all state []) m) }
    {
        match place {
            Some(place) => stations.kept[place].machine.copy(alloc),
            None => Machine::new(alloc, self.script, self.limit, self.watched.as_slice()),
        }
    }

    /// The machine behind these turns, which may be taken where it stands.
    fn gone_on(&self, mut machine: Machine<'s>, turns: &[Turn]) -> Result<Machine<'s>, Stop>
        requires plan { IsPlan self.now }
        requires at { (from : List TheEvent) × (h : List TheEvent) ×
            Lead self.now.script.now turns.now from h ×
            Stands self.now.script.now self.now.limit self.now.watched.items from machine }
        ensures at { IfOk result (λ m. (from : List TheEvent) (h : List TheEvent) →
            Lead self.now.script.now turns.now from h →
            Stands self.now.script.now self.now.limit self.now.watched.items from machine.entry →
            Stands self.now.script.now self.now.limit self.now.watched.items h m ×
            (length h < self.now.limit)) }
        ensures cause { IfErr result (λ stop. (from : List TheEvent) (h : List TheEvent) →
            Lead self.now.script.now turns.now from h →
            Stands self.now.script.now self.now.limit self.now.watched.items from machine.entry →
            IsPathStop self.now.limit h stop) }
    {
        if self.limit.saturating_sub(machine.took) as usize <= turns.len() {
            drop(machine);
            return Err(Stop::Turns);
        }
        match self.walk(&mut machine, turns) {
            Ok(()) => Ok(machine),
            Err(_) => {
                drop(machine);
                Err(Stop::NoMemory)
            }
        }
    }

    /// A machine in the state of this number. It goes on from one of these machines, if one is in
    /// an earlier state of its way.
    pub(crate) fn machine_at(
        &self,
        alloc: Global,
        states: &States,
        stations: &Stations<'s>,
        number: u32,
    ) -> Result<Machine<'s>, Stop>
        requires plan { IsPlan self.now }
        requires number { number < length states.now.ways }
        requires ways { (all : List (List TheEvent)) ×
            AreWays self.now.script.now all states.now.ways ×
            AreStations self.now all stations.now }
        ensures at { IfOk result (λ m. (all : List (List TheEvent)) →
            AreWays self.now.script.now all states.now.ways →
            AreStations self.now all stations.now → IsAt self.now all number m) }
        ensures cause { IfErr result (λ stop. (all : List (List TheEvent)) →
            AreWays self.now.script.now all states.now.ways →
            AreStations self.now all stations.now → IsWayStop self.now all stop) }
    {
        let path = states.path_to(alloc, stations, number)?;
        let machine = self.machine_from(alloc, stations, path.station)?;
        self.gone_on(machine, path.turns.as_slice())
    }

    /// Expands the state of this number, and keeps the machine in it.
    fn expand_at(
        &self,
        alloc: Global,
        number: u32,
        stations: &mut Stations<'s>,
        found: &mut Found,
    ) -> Result<(), Stop>
        requires plan { IsPlan self.now }
        requires number { number < length found.old.states.ways }
        requires at { (all : List (List TheEvent)) × AreFound self.now all found.old ×
            AreStations self.now all stations.old }
        requires opened { found.old.graph.opened ≡ [] }
        ensures expanded { OnOk result ((all : List (List TheEvent)) →
            AreFound self.now all found.old → AreStations self.now all stations.old →
            IsExpandedBy self.now all (get_or all number []) found.old found.new stations.new) }
        ensures stopped { IfErr result (λ stop. (all : List (List TheEvent)) →
            AreFound self.now all found.old → AreStations self.now all stations.old →
            IsStopped self.now all stop found.new) }
    {
        let machine = self.machine_at(alloc, &found.states, stations, number)?;
        match self.expand(alloc, &machine, number, found) {
            Ok(()) => {
                let room = self.room(found.states.len());
                stations.keep(alloc, number, machine, room);
                Ok(())
            }
            Err(stop) => {
                drop(machine);
                Err(stop)
            }
        }
    }

    /// Expands each state, and each that is found by this. No machine is kept yet.
    fn expand_each(
        &self,
        alloc: Global,
        stations: &mut Stations<'s>,
        found: &mut Found,
    ) -> Result<(), Stop>
        requires plan { IsPlan self.now }
        requires start { IsStart self.now found.old }
        requires kept { stations.old.kept.items ≡ [] }
        requires next { stations.old.next.items ≡ [] }
        ensures searched { OnOk result (IsSearched self.now found.new) }
        ensures stopped { IfErr result (λ stop. IsStopped self.now [] stop found.new) }
    {
        for number in 0..self.most {
            if found.states.len() <= number as usize {
                return Ok(());
            }
            self.expand_at(alloc, number, stations, found)?;
        }
        Ok(())
    }

    /// Expands each state, and each that is found by this.
    fn expand_all(&self, alloc: Global, found: &mut Found) -> Result<(), Stop>
        requires plan { IsPlan self.now }
        requires start { IsStart self.now found.old }
        ensures searched { OnOk result (IsSearched self.now found.new) }
        ensures stopped { IfErr result (λ stop. IsStopped self.now [] stop found.new) }
    {
        let mut stations = Stations::new(alloc);
        let expanded = self.expand_each(alloc, &mut stations, found);
        drop(stations);
        expanded
    }
}

/// How a search ended whose states lead so, by whether all of them were expanded.
fn end_of(alloc: Global, expanded: Result<(), Stop>, graph: &Graph) -> End
    requires inside { OnOk expanded (IsInside graph.now.closed) }
    requires few { OnOk expanded (length graph.now.closed < 2 ^ 32) }
    ensures { IsEndOf expanded graph.now result }
{
    match expanded {
        Ok(()) => match depths(alloc, graph) {
            Ok(depths) => End::Whole(depths),
            Err(_) => End::Stopped(Stop::NoMemory),
        },
        Err(stop) => End::Stopped(stop),
    }
}

/// Searches the states of the script that some schedule comes to, and tells of which of these
/// expectations it shows in some state that they fail.
///
/// The script and the expectations fit. On the way to a state each processor makes fewer events
/// than `limit`, which is 1 to 20,000, and at most 160,000 in all processors together; `most` is
/// the greatest number of states. An error comes only where no memory is found for the first state.
pub fn search(
    alloc: Global,
    script: &Script,
    expectations: &[Expectation],
    limit: u32,
    most: u32,
) -> Result<Searched, AllocError>
    requires fit { IsTrue (fits script.now) }
    requires named { expectations_fit script.now expectations.now ≡ true }
    requires turns { (1 ≤ limit) × (limit ≤ TURNS) }
    requires all { script.now.cpus * limit ≤ EVENTS }
    requires most { 1 ≤ most }

    // The turns of the ways lead to the states, and a failure shows in its state, by its turn and
    // at its number. A search that ended early had a cause.
    ensures shown { IfOk result (λ x. IsShownIn script.now expectations.now limit most x) }

    // An expectation of which a failure is noted fails in some run of the script, and the failure's
    // number is that of the event that shows it there, or of the events before a quiet end.
    ensures fails { IfOk result (λ x. (j : ℕ) (d : Expected) (f : TheFailure) →
        j < length expectations.now → get_or x.found.failures.items j None ≡ Some f →
        FailsAt script.now (get_or expectations.now j d) f.at) }

    // Where all states were found, every other one but `always ends` fails in none, under any
    // schedule and any turn limit.
    ensures holds { IfOk result (λ x. is_whole x.end ≡ true →
        EachUnnoted (λ e. (e ≡ AlwaysEnds → ⊥) → Fails script.now e → ⊥) expectations.now
        x.found.failures.items) }

    // And then no run is longer than the first depth, or there are runs of every length.
    ensures ends { IfOk result (λ x. TellsOfEnds script.now x.end) }
{
    let plan = Plan {
        script,
        limit,
        most,
        expectations,
        watched: watch(alloc, expectations)?,
    };
    let mut found = plan.start(alloc)?;
    let expanded = plan.expand_all(alloc, &mut found);
    let end = end_of(alloc, expanded, &found.graph);
    Ok(Searched { found, end })
}
