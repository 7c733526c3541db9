//! Machines that are kept in states which were expanded before.
//!
//! The ways tell by which turns a machine comes to a state. It need not begin with no event: it
//! goes on from a machine in an earlier state of its way. States are expanded by the number of
//! their events. So all machines behind as many events are kept, of the greatest such number of
//! which there is room for all: each state that is expanded later has one of them on its way.
ghost use Rattle.std.specs.Prelude.{◌≡◌, [], IfSome, IsTrue, List};
ghost use Rattle.nt_event.specs.declared.events.Event.{Event as TheEvent};
ghost use Rattle.nt_search.specs.declared.plan.Plan.{Plan as ThePlan};
ghost use Rattle.nt_search.specs.Searches.{IsAt};
ghost use Rattle.nt_search.specs.Stations.{AreStations, IsPlaceOf};

use crate::machine::Machine;
use nt_event::Turn;
use std::alloc::Global;
use std::mem;

/// A machine in a state.
#[derive(Drop)]
pub(crate) struct Station<'s> {
    /// The number of the state.
    pub(crate) state: u32,
    pub(crate) machine: Machine<'s>,
}

/// Machines in states that were expanded, in the order of the states' numbers.
#[derive(Drop)]
pub(crate) struct Stations<'s> {
    /// All those behind so many events.
    pub(crate) kept: Vec<Station<'s>>,
    /// Those behind as many events as the last one that was expanded; none where there was no room
    /// for all.
    pub(crate) next: Vec<Station<'s>>,
    /// How many events that one has.
    depth: u32,
    /// Whether there was no room for all.
    is_over: bool,
}

/// How a machine comes to a state.
#[derive(Drop)]
pub(crate) struct Path {
    /// The place among those that are kept of the machine that it begins as; where there is none it
    /// begins with no event.
    pub(crate) station: Option<usize>,
    /// The turns that lead on from there.
    pub(crate) turns: Vec<Turn>,
}

impl<'s> Stations<'s> {
    /// None.
    pub(crate) fn new(alloc: Global) -> Stations<'s>
        ensures kept { result.kept.items ≡ [] }
        ensures next { result.next.items ≡ [] }
    {
        Stations {
            kept: Vec::new(alloc),
            next: Vec::new(alloc),
            depth: 0,
            is_over: false,
        }
    }

    /// Whether the machine at this place is in the state of this number.
    fn is_at(&self, place: usize, state: u32) -> bool
        ensures { IsTrue result → IsPlaceOf self.now state place }
    {
        match self.kept.get(place) {
            Some(station) => station.state == state,
            None => false,
        }
    }

    /// The place among those that are kept of the machine in the state of this number, if one is.
    pub(crate) fn place_of(&self, state: u32) -> Option<usize>
        ensures { IfSome result (IsPlaceOf self.now state) }
    {
        let Some(first) = self.kept.first() else {
            return None;
        };
        // states are expanded one after another, so their places follow one another too
        let place = state.saturating_sub(first.state) as usize;
        if self.is_at(place, state) {
            Some(place)
        } else {
            None
        }
    }

    /// No machine behind as many events as the last one is kept: there is no room for all.
    fn give_up(&mut self, alloc: Global)
        ensures { (x : ThePlan) (all : List (List TheEvent)) → AreStations x all self.old →
            AreStations x all self.new }
    {
        self.next = Vec::new(alloc);
        self.is_over = true;
    }

    /// All states of as many events as the last one were expanded: the machines in them are those
    /// that are kept, if there was room for all.
    fn shift(&mut self, alloc: Global)
        ensures { (x : ThePlan) (all : List (List TheEvent)) → AreStations x all self.old →
            AreStations x all self.new }
    {
        if self.is_over {
            self.is_over = false;
        } else {
            self.kept = mem::replace(&mut self.next, Vec::new(alloc));
        }
    }

    /// A state of so many events was expanded, which may be the first one of as many.
    fn deepen(&mut self, alloc: Global, depth: u32)
        ensures { (x : ThePlan) (all : List (List TheEvent)) → AreStations x all self.old →
            AreStations x all self.new }
    {
        if self.depth < depth {
            self.depth = depth;
            self.shift(alloc);
        }
    }

    /// Adds the machine in the state of this number.
    fn add(&mut self, alloc: Global, state: u32, machine: Machine<'s>)
        ensures { (x : ThePlan) (all : List (List TheEvent)) → AreStations x all self.old →
            IsAt x all state machine.entry → AreStations x all self.new }
    {
        if self.next.push(Station { state, machine }).is_err() {
            self.give_up(alloc);
        }
    }

    /// The machine in the state of this number was expanded. It is kept for the time when all of as
    /// many events are, if these are not more than there is room for.
    pub(crate) fn keep(&mut self, alloc: Global, state: u32, machine: Machine<'s>, room: usize)
        ensures { (x : ThePlan) (all : List (List TheEvent)) → AreStations x all self.old →
            IsAt x all state machine.entry → AreStations x all self.new }
    {
        self.deepen(alloc, machine.took);
        if self.is_over || room <= self.next.len() {
            drop(machine);
            self.give_up(alloc);
        } else {
            self.add(alloc, state, machine);
        }
    }
}
