//! The floor in memory, and the calls on its parts.
ghost use Rattle.std.specs.Prelude.{◌≡◌, ◌*◌, ◌+◌, ◌<◌, ◌≤◌, ◌^◌, ℕ, IfOk, IsTrue, false};
ghost use Rattle.std.specs.Prelude.{length, ◌↔◌};
ghost use Rattle.nt_event.specs.Lanes.{lane_count};
ghost use Rattle.nt_event.specs.Lists.{value_at};
ghost use Rattle.nt_event.specs.Jobs.{next_ready};
ghost use Rattle.nt_event.specs.Script.{fits};
ghost use Rattle.nt_floor.specs.Sums.{sum_of};
ghost use Rattle.nt_floor.specs.Views.{HasWord};
ghost use Rattle.nt_plain.specs.Made.{IsKept, drawn, marked, states_of};
ghost use Rattle.nt_plain.specs.Places.{told_at};
ghost use Rattle.nt_plain.specs.States.{IsFresh, view_of};

use crate::marks::Marks;
use crate::places::row_of;
use crate::requests::RequestWords;
use crate::states::States;
use crate::told::ToldValues;
use nt_event::limits::{EVENTS, TURNS};
use nt_event::{CpuNo, Script, ThreadNo};
use nt_states::{LaneAnswers, ThreadAnswers};
use nt_thread_lanes::Threads;
use std::alloc::{AllocError, Global};
use std::marker::Model;

/// The floor of a script in memory, for one thread: the next number, the request words, the marks
/// of each event, the states of all lanes, and what each lane tells of requests. It has its room
/// from the start: no call but [`PlainFloor::new`] and [`PlainFloor::copy`] takes memory.
#[derive(Drop)]
pub struct PlainFloor<'s> {
    /// How many numbers may be drawn in all.
    pub(crate) limit: u64,
    pub(crate) next: u64,
    pub(crate) asked: RequestWords,
    pub(crate) marks: Marks,
    pub(crate) states: States<'s>,
    pub(crate) told: ToldValues,
}

impl<'s> Model for PlainFloor<'s> {
    ghost use Rattle.nt_plain.specs.States.{PlainState};

    ghost Value = { PlainState };

    ghost use Rattle.nt_plain.specs.Insides.{IsKeptInside, state_in};

    ghost view = { state_in };

    ghost invariant = { IsKeptInside };
}

impl<'s> PlainFloor<'s> {
    /// A floor of the script on which nothing happened, where each processor may make this many
    /// events.
    ///
    /// The script fits, there are at most 20,000 turns, and at most 160,000 numbers in all.
    pub fn new(alloc: Global, script: &'s Script, turns: u32) -> Result<PlainFloor<'s>, AllocError>
        requires script { IsTrue (fits script.now) }
        requires turns { turns ≤ TURNS }
        requires limit { script.now.cpus * turns ≤ EVENTS }
        ensures { IfOk result (λ f. IsFresh script.now turns f) }
    {
        let cpus = usize::from(script.cpus);
        let limit = u64::from(script.cpus) * u64::from(turns);
        let asked = RequestWords::new(alloc, script.cpus)?;
        let marks = Marks::new(alloc, limit as usize * cpus)?;
        let told = ToldValues::new(alloc, script.lane_count() * cpus)?;
        let states = States::new(alloc, script)?;
        Ok(PlainFloor {
            limit,
            next: 0,
            asked,
            marks,
            states,
            told,
        })
    }

    /// A copy of it, with room for as many numbers.
    pub fn copy(&self, alloc: Global) -> Result<PlainFloor<'s>, AllocError>
        ensures { IfOk result (λ f. f ≡ self.now) }
    {
        Ok(PlainFloor {
            limit: self.limit,
            next: self.next,
            asked: self.asked.copy(alloc)?,
            marks: self.marks.copy(alloc)?,
            told: self.told.copy(alloc)?,
            states: self.states.copy(alloc)?,
        })
    }

    /// The states of the threads.
    pub fn threads(&self) -> &Threads<'s>
        ensures { result.now.facts ≡ self.now.lanes.threads }
    {
        self.states.threads()
    }

    /// The states of all lanes, which answer what an event asks for and which lanes it touches.
    pub fn states(&self) -> &States<'s>
        ensures { result.now ≡ states_of self.now }
    {
        &self.states
    }

    /// What holds of its time: an event advances it by less than 2^32 units, and as many numbers
    /// may be drawn as a run may have events.
    pub fn time_fits(&self)
        ensures { self.now.lanes.timers.now ≤ EVENTS * 2 ^ 32 }
    {
        self.kept();
    }

    /// What holds of it at any time, for the calls that speak of its parts.
    pub(crate) fn kept(&self)
        ensures { IsKept self.now }
    {
        let _next = self.next;
    }

    /// The greatest request for a class of a processor; 0 where there is none, or the script has no
    /// such processor or class.
    pub fn asked(&self, p: CpuNo, class: u8) -> u64
        ensures known { HasWord (view_of self.now) p class →
            result ≡ (view_of self.now).value p class }
        ensures otherwise { (HasWord (view_of self.now) p class → ⊥) → result ≡ 0 }
    {
        if self.has_word(p, class) {
            self.asked.get(p, class)
        } else {
            0
        }
    }

    /// Whether the event of this number was marked as asking for a class of a processor.
    pub fn asks(&self, n: u64, p: CpuNo, class: u8) -> bool
        ensures known { HasWord (view_of self.now) p class →
            result ≡ (view_of self.now).marked n p class }
        ensures otherwise { (HasWord (view_of self.now) p class → ⊥) → result ≡ false }
    {
        if self.has_word(p, class) {
            self.has_mark(n, p, class)
        } else {
            false
        }
    }

    /// The greatest request for a class of a processor that the lane of this number tells of; 0
    /// where it tells of none.
    pub fn told(&self, number: usize, p: CpuNo, class: u8) -> u64
        requires lane { number < lane_count self.now.script }
        requires word { HasWord (view_of self.now) p class }
        ensures { result ≡ told_at self.now.script.cpus self.now.told number p class }
    {
        self.kept();
        let row = row_of(self.states.whole_script().cpus, number, p);
        self.told.get(row, class)
    }

    /// The thread of the processor that is taken up next, after this one in a cycle; None exactly
    /// where none is ready.
    pub fn next_ready(&self, p: CpuNo, after: Option<ThreadNo>) -> Option<ThreadNo>
        ensures { result ≡ next_ready self.now.script p after self.now.lanes }
    {
        self.ready_after(p, after)
    }

    /// The thread of the processor that is taken up next, by the states of the lanes.
    pub(crate) fn ready_after(&self, p: CpuNo, after: Option<ThreadNo>) -> Option<ThreadNo>
        ensures { result ≡ next_ready self.now.script p after self.now.lanes }
    {
        self.states.threads().next_ready(p, after)
    }

    /// Whether the script has such a processor, and a class this number.
    fn has_word(&self, p: CpuNo, class: u8) -> bool
        ensures { IsTrue result ↔ HasWord (view_of self.now) p class }
    {
        p.0 < self.states.whole_script().cpus && class < 16
    }

    /// The words of a processor, one for each class.
    pub(crate) fn words_of(&self, p: CpuNo) -> &[u64]
        requires { p.0 < (view_of self.now).cpus }
        ensures classes { length result.now ≡ 16 }
        ensures values { (c : ℕ) → c < 16 → value_at result.now c ≡ (view_of self.now).value p c }
    {
        self.asked.row(p)
    }

    /// The sum of the words of a processor.
    pub(crate) fn sum_of_words(&self, p: CpuNo) -> u128
        requires { p.0 < (view_of self.now).cpus }
        ensures { result ≡ sum_of ((view_of self.now).value p) }
    {
        self.asked.sum(p)
    }

    /// Whether the event of this number has the mark; one that may not be drawn has none.
    pub(crate) fn has_mark(&self, n: u64, p: CpuNo, class: u8) -> bool
        requires { HasWord (view_of self.now) p class }
        ensures { result ≡ (view_of self.now).marked n p class }
    {
        if n < self.limit {
            let row = row_of(self.states.whole_script().cpus, n as usize, p);
            self.marks.has(row, class)
        } else {
            false
        }
    }

    /// Draws the next number.
    pub(crate) fn draw_number(&mut self) -> u64
        requires { self.old.next < self.old.limit }
        ensures number { result ≡ self.old.next }
        ensures state { self.new ≡ drawn self.old }
    {
        let number = self.next;
        self.next = number + 1;
        number
    }

    /// Marks the event of a number as asking for a class of a processor.
    pub(crate) fn note(&mut self, p: CpuNo, class: u8, n: u64)
        requires word { HasWord (view_of self.old) p class }
        requires number { n < self.old.next }
        ensures { self.new ≡ marked p class n self.old }
    {
        let row = row_of(self.states.whole_script().cpus, n as usize, p);
        self.asked.raise(p, class, n + 1);
        self.marks.mark(row, class);
    }

    /// The word of a class of a processor.
    pub(crate) fn word(&self, p: CpuNo, class: u8) -> u64
        requires { HasWord (view_of self.now) p class }
        ensures { result ≡ (view_of self.now).value p class }
    {
        self.asked.get(p, class)
    }
}
