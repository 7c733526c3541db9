//! The list of the events that a worker made.
ghost use Rattle.std.specs.Prelude.{◌≡◌, ◌<◌, ◌++◌, ◌∷◌, [], ℕ, IfOk, OnOk, get_or, length};
ghost use Rattle.nt_event.specs.declared.events.Event.{Event};
ghost use Rattle.nt_history.specs.Briefs.{events_in};

use nt_event::Event;
use nt_history::{Briefs, Did, Events, Recorder};
use std::alloc::{AllocError, Global};
use std::marker::Model;

/// The events of a worker while it makes them, with their numbers, and with room for so many:
/// putting one takes no memory. Contracts see the numbers and events, and the room.
#[derive(Drop)]
pub(crate) struct OwnList {
    numbers: Vec<u64>,
    events: Recorder,
}

impl Model for OwnList {
    ghost use Rattle.nt_live.specs.OwnLists.{OwnEvents};

    ghost Value = { OwnEvents };

    ghost use Rattle.nt_live.specs.OwnListInsides.{IsSoundInside, own_events_in};

    ghost view = { own_events_in };

    ghost invariant = { IsSoundInside };
}

impl OwnList {
    /// No event, and room for so many. All memory is taken here.
    pub(crate) fn new(alloc: Global, room: usize) -> Result<OwnList, AllocError>
        ensures { IfOk result (λ list. list ≡ record { pairs = []; room = room }) }
    {
        Ok(OwnList {
            numbers: Vec::with_capacity(alloc, room)?,
            events: Recorder::new(alloc, room)?,
        })
    }

    /// Puts an event with its number at the end. There is room for it.
    pub(crate) fn put(&mut self, number: u64, event: &Event)
        requires { length self.old.pairs < self.old.room }
        ensures { self.new
            ≡ record self.old { pairs = self.old.pairs ++ (number, event.now) ∷ [] } }
    {
        self.numbers.push_reserved(number);
        self.events.put(event);
    }

    /// How many events there are.
    pub(crate) fn len(&self) -> usize
        ensures { result ≡ length self.now.pairs }
    {
        self.numbers.len()
    }

    /// The events with their numbers.
    pub(crate) fn finish(self) -> MadeList
        ensures { result ≡ self.pairs }
    {
        let OwnList { numbers, events } = self;
        MadeList {
            numbers,
            events: events.finish(),
        }
    }
}

/// Puts the event of this number of a list behind these. Where no memory is found, they are as
/// before.
///
/// What is no look is put as the brief that it is kept as.
fn put_behind(list: &Briefs<'_>, number: usize, events: &mut Events) -> Result<(), AllocError>
    requires { number < length list.now.briefs.now }
    ensures { OnOk result ((e : Event) → events.new ≡ events.old ++
        get_or (events_in list.now.briefs.now list.now.rises.now) number e ∷ []) }
{
    let brief = &list.briefs[number];
    if let Did::Look { .. } = brief.did {
        events.push(&list.event(number))
    } else {
        events.push_brief(brief)
    }
}

/// The events that a worker made, with their numbers. Contracts see the list of both.
#[derive(Drop)]
pub(crate) struct MadeList {
    numbers: Vec<u64>,
    events: Events,
}

impl Model for MadeList {
    ghost use Rattle.std.specs.List.{zip};
    ghost use Rattle.std.specs.Prelude.{◌≡◌, List, ℕ, length};
    ghost use Rattle.nt_event.specs.declared.events.Event.{Event};

    ghost Value = { List (ℕ × Event) };

    ghost view = { λ a. zip a.numbers.items a.events };

    ghost invariant = { λ a. length a.events ≡ length a.numbers.items };
}

impl MadeList {
    /// How many events there are.
    pub(crate) fn len(&self) -> usize
        ensures { result ≡ length self.now }
    {
        self.numbers.len()
    }

    /// The number of the event at this place.
    pub(crate) fn number(&self, at: usize) -> u64
        requires { at < length self.now }
        ensures { (x : ℕ × Event) → (get_or self.now at x).0 ≡ result }
    {
        self.numbers[at]
    }

    /// Puts the event at this place behind these. Where no memory is found, they are as before.
    pub(crate) fn put_behind(&self, at: usize, events: &mut Events) -> Result<(), AllocError>
        requires { at < length self.now }
        ensures { OnOk result ((x : ℕ × Event) →
            events.new ≡ events.old ++ (get_or self.now at x).1 ∷ []) }
    {
        put_behind(&self.events.lend(), at, events)
    }
}
