//! A list of events that has its room from the start.
ghost use Rattle.std.specs.Prelude.{◌≡◌, ◌++◌, ◌∷◌, ◌<◌, ◌≤◌, [], IfOk, length, reverse};
ghost use Rattle.std.specs.Prelude.{vec_capacity};
ghost use Rattle.nt_history.specs.Recorded.{cpu_of_first};

use crate::brief::{Brief, Noticed};
use crate::events::{Events, put_brief, put_look};
use nt_event::{CpuNo, Event, Rises, What};
use std::alloc::{AllocError, Global};
use std::marker::Model;

/// The events of a run while it is made, with room for so many: putting one takes no memory.
/// Contracts see the events and the room.
#[derive(Drop)]
pub struct Recorder {
    room: usize,
    briefs: Vec<Brief>,
    rises: Vec<Rises>,
}

impl Model for Recorder {
    ghost use Rattle.nt_history.specs.Recorded.{Recorded};

    ghost Value = { Recorded };

    ghost use Rattle.nt_history.specs.RecorderInsides.{IsSoundInside, recorded_in};

    ghost view = { recorded_in };

    ghost invariant = { IsSoundInside };
}

impl Recorder {
    /// No event, and room for so many. All memory is taken here.
    pub fn new(alloc: Global, room: usize) -> Result<Recorder, AllocError>
        ensures { IfOk result (λ r. r ≡ record { events = []; room = room }) }
    {
        Ok(Recorder {
            room,
            briefs: Vec::with_capacity(alloc, room)?,
            rises: Vec::with_capacity(alloc, room)?,
        })
    }

    /// Puts an event at the end. There is room for it.
    #[inline(always)]
    pub fn put(&mut self, event: &Event)
        requires { length self.old.events < self.old.room }
        ensures { self.new ≡ record self.old { events = self.old.events ++ event.now ∷ [] } }
    {
        if let What::Look { rises } = &event.what {
            put_look(&mut self.briefs, &mut self.rises, event, rises);
        } else {
            put_brief(&mut self.briefs, event, Noticed::NOTHING);
        }
    }

    /// How many events there are.
    pub fn len(&self) -> usize
        ensures { result ≡ length self.now.events }
    {
        self.briefs.len()
    }

    /// The processor of the last event; None where there is none.
    pub fn last_cpu(&self) -> Option<CpuNo>
        ensures { result ≡ cpu_of_first (reverse self.now.events) }
    {
        let count = self.briefs.len();
        if count == 0 {
            return None;
        }
        Some(self.briefs[count - 1].cpu)
    }

    /// The events.
    pub fn finish(self) -> Events
        ensures { result ≡ self.events }
    {
        let Recorder {
            room: _,
            briefs,
            rises,
        } = self;
        Events { briefs, rises }
    }
}
