//! The list of events.
ghost use Rattle.std.specs.Prelude.{◌≡◌, ◌+◌, ◌<◌, ◌≤◌, ◌++◌, ◌∷◌, [], length, vec_capacity};
ghost use Rattle.nt_event.specs.declared.events.What.{What};
ghost use Rattle.nt_history.specs.Briefs.{HasEach, beside, brief_of, events_in};

use crate::brief::{Brief, Did, NO_RISES, Noticed};
use nt_event::{Event, Rises, Turn, What};
use std::alloc::{AllocError, Global};
use std::marker::Model;

/// A list of events. Contracts see it as the list of them.
#[derive(Drop, Debug)]
pub struct Events {
    /// A brief for each event.
    pub(crate) briefs: Vec<Brief>,
    /// The values of the looks in which several classes rose, in their order.
    pub(crate) rises: Vec<Rises>,
}

impl Model for Events {
    ghost use Rattle.std.specs.Prelude.{List};
    ghost use Rattle.nt_event.specs.declared.events.Event.{Event};

    ghost Value = { List Event };

    ghost use Rattle.nt_history.specs.Briefs.{HasEach, events_in};

    ghost view = { λ a. events_in a.briefs.items a.rises.items };

    ghost invariant = { λ a. HasEach a.briefs.items a.rises.items };
}

/// The events of a list to be read: a brief for each event, and the values of the looks in which
/// several classes rose.
#[derive(Clone, Copy)]
pub struct Briefs<'a> {
    pub briefs: &'a [Brief],
    pub rises: &'a [Rises],
}

impl<'a> Briefs<'a> {
    ghost use Rattle.std.specs.Prelude.{◌≡◌, ◌<◌, ◌↔◌, IsTrue, Some, length, option_map};
    ghost use Rattle.std.specs.List.{slice_get};
    ghost use Rattle.nt_event.specs.Step.{turn_of};
    ghost use Rattle.nt_history.specs.Briefs.{HasValues, event_in, events_in, values_of};

    /// The values of the look of a brief, one of these; 0 for each class where it is no look.
    pub fn values(&self, brief: &Brief) -> Rises
        ensures { result ≡ values_of self.now.rises.now brief.now }
    {
        let mut rises = NO_RISES;
        brief.did.noticed().write_values(self.rises, &mut rises);
        rises
    }

    /// The turn that makes the event of a brief, one of these.
    pub fn turn_of(&self, brief: &Brief) -> Turn
        ensures { result ≡ turn_of (event_in self.now.rises.now brief.now) }
    {
        match brief.did {
            Did::Look { .. } => Turn::Look(brief.cpu, self.values(brief)),
            Did::Switch { thread, .. } => Turn::Switch(brief.cpu, thread),
            Did::Call { .. }
            | Did::Begin { .. }
            | Did::Normal { .. }
            | Did::End { .. }
            | Did::Expire { .. }
            | Did::Fire { .. }
            | Did::Clean { .. }
            | Did::Rewait { .. }
            | Did::Flush { .. }
            | Did::Gone { .. }
            | Did::Free { .. }
            | Did::Rest => Turn::Next(brief.cpu),
        }
    }

    /// The turn that makes the event of this number.
    pub fn turn(&self, number: usize) -> Turn
        requires { number < length self.now.briefs.now }
        ensures { option_map turn_of
            (slice_get (events_in self.now.briefs.now self.now.rises.now) number)
            ≡ Some result }
    {
        self.turn_of(&self.briefs[number])
    }

    /// Whether this is the event of this number.
    pub fn is_event(&self, number: usize, event: &Event) -> bool
        requires { number < length self.now.briefs.now }
        ensures { IsTrue result ↔
            (slice_get (events_in self.now.briefs.now self.now.rises.now) number ≡ Some event.now) }
    {
        self.stands_for(&self.briefs[number], event)
    }

    /// Whether a brief stands for this event.
    fn stands_for(&self, brief: &Brief, event: &Event) -> bool
        ensures { IsTrue result ↔ (event_in self.now.rises.now brief.now ≡ event.now) }
    {
        Brief::of(event, brief.did.noticed()).is_same(brief) && self.has_values(brief, &event.what)
    }

    /// Whether the values that a brief refers to are those of a look; what is no look has none.
    fn has_values(&self, brief: &Brief, what: &What) -> bool
        ensures { IsTrue result ↔ HasValues (values_of self.now.rises.now brief.now) what.now }
    {
        match what {
            What::Look { rises } => self.values(brief) == *rises,
            What::Call { .. }
            | What::Begin { .. }
            | What::Normal { .. }
            | What::End { .. }
            | What::Expire { .. }
            | What::Fire { .. }
            | What::Clean { .. }
            | What::Switch { .. }
            | What::Rewait { .. }
            | What::Flush { .. }
            | What::Gone { .. }
            | What::Free { .. }
            | What::Rest => true,
        }
    }

    /// The event of this number.
    pub fn event(&self, number: usize) -> Event
        requires { number < length self.now.briefs.now }
        ensures { slice_get (events_in self.now.briefs.now self.now.rises.now) number
            ≡ Some result }
    {
        let brief = &self.briefs[number];
        brief.event(&self.values(brief))
    }
}

/// Puts a brief of the event at the end, where the values of a look are kept so. There is room for
/// it.
///
/// It is written where it is kept: made first and put then, it would be copied once more.
#[inline(always)]
pub(crate) fn put_brief(briefs: &mut Vec<Brief>, event: &Event, noticed: Noticed)
    requires { length briefs.old.items < vec_capacity briefs.old }
    ensures items { briefs.new.items ≡ briefs.old.items ++ brief_of noticed event.now ∷ [] }
    ensures room { vec_capacity briefs.old ≤ vec_capacity briefs.new }
{
    let last = briefs.len();
    briefs.push_reserved(Brief::BLANK);
    briefs[last].write(event, noticed);
}

/// Puts the item at the end. There is room for it.
#[inline(always)]
pub(crate) fn put<T: Copy>(items: &mut Vec<T>, item: T)
    requires { length items.old.items < vec_capacity items.old }
    ensures items { items.new.items ≡ items.old.items ++ item ∷ [] }
    ensures room { vec_capacity items.old ≤ vec_capacity items.new }
{
    items.push_reserved(item);
}

/// Puts the values of a look that is kept so at the end, where several classes rose in it. There is
/// room for them.
fn put_beside(rises: &mut Vec<Rises>, noticed: &Noticed, values: &Rises)
    requires { length rises.old.items < vec_capacity rises.old }
    ensures items { rises.new.items ≡ rises.old.items ++ beside noticed.now values.now }
    ensures room { vec_capacity rises.old ≤ vec_capacity rises.new }
{
    if let Noticed::Several { .. } = noticed {
        put(rises, *values);
    }
}

/// Puts a look with these values at the end. There is room for it, and for its values.
pub(crate) fn put_look(
    briefs: &mut Vec<Brief>,
    rises: &mut Vec<Rises>,
    event: &Event,
    values: &Rises,
)
    requires look { event.now.what ≡ What.Look values.now }
    requires briefs { length briefs.old.items < vec_capacity briefs.old }
    requires rises { length rises.old.items < vec_capacity rises.old }
    requires each { HasEach briefs.old.items rises.old.items }
    ensures events { events_in briefs.new.items rises.new.items
        ≡ events_in briefs.old.items rises.old.items ++ event.now ∷ [] }
    ensures each { HasEach briefs.new.items rises.new.items }
    ensures one { length briefs.new.items ≡ 1 + length briefs.old.items }
    ensures more { length rises.new.items ≤ 1 + length rises.old.items }
    ensures room_for_briefs { vec_capacity briefs.old ≤ vec_capacity briefs.new }
    ensures room_for_rises { vec_capacity rises.old ≤ vec_capacity rises.new }
{
    let noticed = Noticed::of_look(values, rises.len());
    put_beside(rises, &noticed, values);
    put_brief(briefs, event, noticed);
}

impl Events {
    ghost use Rattle.std.specs.Prelude.{◌≡◌, ◌↔◌, ◌++◌, ◌∷◌, [], length, IfOk, IsTrue, OnErr, OnOk};
    ghost use Rattle.nt_history.specs.Briefs.{event_of, no_rises};

    /// An empty list, which keeps the allocator for its growth.
    pub fn new(alloc: Global) -> Events
        ensures { result ≡ [] }
    {
        Events {
            briefs: Vec::new(alloc),
            rises: Vec::new(alloc),
        }
    }

    /// The list of these events. An error is want of memory.
    pub fn of(alloc: Global, events: &[Event]) -> Result<Events, AllocError>
        ensures { IfOk result (λ list. list ≡ events.now) }
    {
        let mut list = Events::new(alloc);
        for event in events {
            list.push(event)?;
        }
        Ok(list)
    }

    /// Puts an event at the end. Where no memory is found, the list is as before.
    pub fn push(&mut self, event: &Event) -> Result<(), AllocError>
        ensures ok { OnOk result (self.new ≡ self.old ++ event.now ∷ []) }
        ensures err { OnErr result (self.new ≡ self.old) }
    {
        self.briefs.reserve(1)?;
        if let What::Look { rises } = &event.what {
            self.rises.reserve(1)?;
            put_look(&mut self.briefs, &mut self.rises, event, rises);
        } else {
            put_brief(&mut self.briefs, event, Noticed::NOTHING);
        }
        Ok(())
    }

    /// Puts the event of a brief at the end, where a look noticed nothing. Where no memory is
    /// found, the list is as before.
    pub fn push_brief(&mut self, brief: &Brief) -> Result<(), AllocError>
        ensures ok { OnOk result (self.new ≡ self.old ++ event_of no_rises brief.now ∷ []) }
        ensures err { OnErr result (self.new ≡ self.old) }
    {
        self.briefs.reserve(1)?;
        put(&mut self.briefs, brief.with_nothing());
        Ok(())
    }

    /// How many events there are.
    pub fn len(&self) -> usize
        ensures { result ≡ length self.now }
    {
        self.briefs.len()
    }

    /// Whether there is no event.
    pub fn is_empty(&self) -> bool
        ensures { IsTrue result ↔ (self.now ≡ []) }
    {
        self.len() == 0
    }

    /// The events to be read.
    pub fn lend(&self) -> Briefs<'_>
        ensures events { events_in result.briefs.now result.rises.now ≡ self.now }
        ensures each { HasEach result.briefs.now result.rises.now }
    {
        Briefs {
            briefs: self.briefs.as_slice(),
            rises: self.rises.as_slice(),
        }
    }
}
