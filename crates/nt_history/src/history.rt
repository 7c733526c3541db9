//! Histories.
use crate::events::{Briefs, Events};
use std::marker::Model;

/// The events of a run so far and the turn limit: how many events each processor may make.
/// Contracts see it as the record of both.
#[derive(Drop, Debug)]
pub struct History {
    turns: u32,
    events: Events,
}

impl Model for History {
    ghost use Rattle.nt_event.specs.declared.events.History.{History};

    ghost Value = { History };

    ghost view = { λ a. record { turns = a.turns; events = a.events } };
}

impl History {
    ghost use Rattle.std.specs.Prelude.{◌≡◌, length};
    ghost use Rattle.nt_history.specs.Briefs.{HasEach, events_in};

    /// The history of these events with this turn limit.
    pub fn new(turns: u32, events: Events) -> History
        ensures { result ≡ record { turns = turns; events = events } }
    {
        History { turns, events }
    }

    /// The turn limit.
    pub fn turns(&self) -> u32
        ensures { result ≡ self.now.turns }
    {
        self.turns
    }

    /// How many events there are.
    pub fn len(&self) -> usize
        ensures { result ≡ length self.now.events }
    {
        self.events.len()
    }

    /// The events to be read.
    pub fn lend(&self) -> Briefs<'_>
        ensures events { events_in result.briefs.now result.rises.now ≡ self.now.events }
        ensures each { HasEach result.briefs.now result.rises.now }
    {
        self.events.lend()
    }
}
