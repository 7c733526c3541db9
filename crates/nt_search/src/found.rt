//! What a search found.
ghost use Rattle.std.specs.Prelude.{◌≡◌, ◌≤◌, ◌∷◌, [], IfErr, IfOk, None, OnOk, get_or, length};
ghost use Rattle.std.specs.Prelude.{ℕ};
ghost use Rattle.nt_search.specs.Leads.{IsHalfLed, led};

use crate::failures::{Failure, no_failures};
use crate::states::{Key, States, Way};
use crate::stop::Stop;
use nt_rounds::{Depths, Graph};
use std::alloc::{AllocError, Global};

/// What a search found so far.
#[derive(Drop)]
pub struct Found {
    pub states: States,
    /// Of each state that was expanded to which ones it leads.
    pub graph: Graph,
    /// How many turns were taken from the states, but for looks at several classes at once: those
    /// lead where single looks lead one after another.
    pub edges: u64,
    /// Of each expectation where it shows that it fails, if it was found.
    pub failures: Vec<Option<Failure>>,
}

impl Found {
    /// What is found at first: the state of no event alone, with this key, and no failure of any of
    /// so many expectations. The states have no state yet but its parts.
    pub(crate) fn new(
        alloc: Global,
        mut states: States,
        key: Key,
        way: Way,
        count: usize,
    ) -> Result<Found, AllocError>
        requires keys { states.keys ≡ [] }
        requires ways { states.ways ≡ [] }
        ensures states { IfOk result
            (λ f. f.states ≡ record states { keys = key ∷ []; ways = way ∷ [] }) }
        ensures graph { IfOk result (λ f. f.graph ≡ record { closed = []; opened = [] }) }
        ensures count { IfOk result (λ f. length f.failures.items ≡ count) }
        ensures none { IfOk result (λ f. (j : ℕ) → get_or f.failures.items j None ≡ None) }
    {
        match states.add(key, way) {
            Ok(()) => Found::of(alloc, states, count),
            Err(error) => {
                drop(states);
                Err(error)
            }
        }
    }

    /// What is found so far where these states are, and no failure of any of so many expectations.
    fn of(alloc: Global, states: States, count: usize) -> Result<Found, AllocError>
        ensures states { IfOk result (λ f. f.states ≡ states) }
        ensures graph { IfOk result (λ f. f.graph ≡ record { closed = []; opened = [] }) }
        ensures count { IfOk result (λ f. length f.failures.items ≡ count) }
        ensures none { IfOk result (λ f. (j : ℕ) → get_or f.failures.items j None ≡ None) }
    {
        match no_failures(alloc, count) {
            Ok(failures) => Ok(Found {
                states,
                graph: Graph::new(alloc),
                edges: 0,
                failures,
            }),
            Err(error) => {
                drop(states);
                Err(error)
            }
        }
    }

    /// Notes that the state that is being expanded leads to the one with this key, to which the way
    /// leads. After an error the failures are as they were, and the states or one more.
    pub(crate) fn lead(&mut self, key: Key, way: Way, most: u32) -> Result<(), Stop>
        requires few { length self.old.states.ways ≤ most }
        requires count { length self.old.states.keys ≡ length self.old.states.ways }
        ensures led { OnOk result (self.new ≡ led key way self.old) }
        ensures few { length self.new.states.ways ≤ most }
        ensures err { IfErr result (λ stop. IsHalfLed key way most stop self.old self.new) }
    {
        let number = self.states.put(key, way, most)?;
        self.graph.push(number)?;
        Ok(())
    }

    /// Forgets where states lead.
    pub(crate) fn forget_leads(&mut self, alloc: Global)
        ensures { self.new ≡ record self.old { graph = record { closed = []; opened = [] } } }
    {
        self.graph = Graph::new(alloc);
    }
}

/// How a search ended.
#[derive(Drop)]
pub enum End {
    /// All states were found and expanded: how far each of them can go, or a round.
    Whole(Depths),
    /// It ended early.
    Stopped(Stop),
}

/// What a search found, and how it ended.
#[derive(Drop)]
pub struct Searched {
    pub found: Found,
    pub end: End,
}
