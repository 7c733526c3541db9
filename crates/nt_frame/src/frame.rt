//! One frame, and what becomes of it.
ghost use Rattle.std.specs.List.{list_any};
ghost use Rattle.std.specs.Prelude.{◌≡◌, ◌<◌, ◌==◌, None, false, get_or, length, not, option_map};
ghost use Rattle.std.specs.Prelude.{reverse};
ghost use Rattle.nt_event.specs.Commands.{holds as holds_lock, is_last as is_last_lock};
ghost use Rattle.nt_event.specs.declared.frames.Held.{Held as HeldLock};
ghost use Rattle.nt_event.specs.Frames.{base_level as base_level_of, base_of};
ghost use Rattle.nt_event.specs.Frames.{freed_level as level_freed, is_apc_body, is_base_body};
ghost use Rattle.nt_event.specs.Frames.{kept_in, new_frame as made_frame};
ghost use Rattle.nt_event.specs.Lists.{head_of, is_null};
ghost use Rattle.nt_frame.specs.Changes.{MayChange, changed, entered as entered_of};
ghost use Rattle.nt_frame.specs.Changes.{is_own as is_own_body};

use crate::change::Change;
use nt_event::{Again, Body, Held, LockNo, Region};
use nt_level::Level;
use std::marker::Model;

/// Locks of a script at most.
const LOCKS: usize = 64;

/// A frame: a routine that has begun and has not ended.
///
/// Contracts see the record `Frame` of the definitions.
#[derive(Drop, Debug)]
pub struct Frame {
    name: u64,
    body: Body,
    level: Level,
    place: u32,
    crit: u32,
    guard: u32,
    kernel_phase: bool,
    leaving: bool,
    again: Option<Again>,
    spin: Option<Held>,
    /// How many locks it holds.
    count: usize,
    /// The locks that it holds, in the order in which it acquired them.
    locks: [u8; LOCKS],
    /// The level that is kept with each.
    kept: [Level; LOCKS],
}

impl Model for Frame {
    ghost use Rattle.nt_event.specs.Frame.{Frame as Record};
    ghost use Rattle.nt_frame.specs.HeldLocks.{AreArrays, held_in};

    ghost Value = { Record };

    ghost view = { λ a. record {
      name = a.name;
      body = a.body;
      level = a.level;
      place = a.place;
      crit = a.crit;
      guard = a.guard;
      kernel_phase = a.kernel_phase;
      leaving = a.leaving;
      again = a.again;
      spin = a.spin;
      held = held_in a.count a.locks a.kept;
    } };

    ghost invariant = { λ a. AreArrays a.count a.locks a.kept };
}

impl Frame {
    /// The frame that an event of this number begins.
    #[inline(always)]
    pub(crate) fn new(name: u64, body: Body) -> Frame
        ensures { result ≡ made_frame name body }
    {
        let kernel_phase = is_apc(&body);
        let level = base_level(&body, kernel_phase);
        Frame {
            name,
            body,
            level,
            place: 0,
            crit: 0,
            guard: 0,
            kernel_phase,
            leaving: false,
            again: None,
            spin: None,
            count: 0,
            locks: [0; LOCKS],
            kept: [Level::PASSIVE; LOCKS],
        }
    }

    /// A copy of it.
    pub(crate) fn copy(&self) -> Frame
        ensures { result ≡ self.now }
    {
        Frame {
            name: self.name,
            body: self.body,
            level: self.level,
            place: self.place,
            crit: self.crit,
            guard: self.guard,
            kernel_phase: self.kernel_phase,
            leaving: self.leaving,
            again: self.again,
            spin: self.spin,
            count: self.count,
            locks: self.locks,
            kept: self.kept,
        }
    }

    /// The number of the event that began it.
    #[inline(always)]
    pub fn name(&self) -> u64
        ensures { result ≡ self.now.name }
    {
        self.name
    }

    /// What runs in it.
    #[inline(always)]
    pub fn body(&self) -> &Body
        ensures { result.now ≡ self.now.body }
    {
        &self.body
    }

    /// Its level.
    #[inline(always)]
    pub fn level(&self) -> Level
        ensures { result ≡ self.now.level }
    {
        self.level
    }

    /// How many commands its present routine has called.
    #[inline(always)]
    pub fn place(&self) -> u32
        ensures { result ≡ self.now.place }
    {
        self.place
    }

    /// How often its present routine has entered a critical region and not left it.
    #[inline(always)]
    pub fn crit(&self) -> u32
        ensures { result ≡ self.now.crit }
    {
        self.crit
    }

    /// How often its present routine has entered a guarded region and not left it.
    #[inline(always)]
    pub fn guard(&self) -> u32
        ensures { result ≡ self.now.guard }
    {
        self.guard
    }

    /// How often its present routine has entered a region of the kind and not left it.
    #[inline(always)]
    pub(crate) fn entered(&self, r: Region) -> u32
        ensures { result ≡ entered_of r self.now }
    {
        match r {
            Region::Crit => self.crit,
            Region::Guard => self.guard,
        }
    }

    /// Whether it is an APC in its kernel routine.
    #[inline(always)]
    pub fn kernel_phase(&self) -> bool
        ensures { result ≡ self.now.kernel_phase }
    {
        self.kernel_phase
    }

    /// Whether it is the base of a thread whose base routine has ended.
    #[inline(always)]
    pub fn leaving(&self) -> bool
        ensures { result ≡ self.now.leaving }
    {
        self.leaving
    }

    /// The wait that it has to take up again, or in which its thread is blocked.
    #[inline(always)]
    pub fn again(&self) -> Option<Again>
        ensures { result ≡ self.now.again }
    {
        self.again
    }

    /// The lock on which it spins, and the level kept with it.
    #[inline(always)]
    pub fn spin(&self) -> Option<Held>
        ensures { result ≡ self.now.spin }
    {
        self.spin
    }

    /// How many locks it holds.
    pub fn held_count(&self) -> usize
        ensures { result ≡ length self.now.held }
    {
        self.count
    }

    /// The lock at this place among those that it holds, in the order in which it acquired them,
    /// from 0, and the level kept with it.
    pub fn held(&self, place: usize) -> Held
        requires { place < length self.now.held }
        ensures { (other : HeldLock) → result ≡ get_or (reverse self.now.held) place other }
    {
        Held {
            lock: LockNo(u16::from(self.locks[place])),
            kept: self.kept[place],
        }
    }

    /// Whether it holds a lock.
    #[inline(always)]
    pub fn holds_any(&self) -> bool
        ensures { result ≡ not (is_null self.now.held) }
    {
        self.count != 0
    }

    /// The lock that it acquired last among those that it holds.
    #[inline(always)]
    pub fn last_held(&self) -> Option<LockNo>
        ensures { result ≡ option_map (λ h. h.lock) (head_of self.now.held) }
    {
        if self.count == 0 {
            return None;
        }
        Some(LockNo(u16::from(self.locks[self.count - 1])))
    }

    /// Whether it holds the lock.
    pub(crate) fn holds(&self, lock: LockNo) -> bool
        ensures { result ≡ holds_lock lock self.now }
    {
        has(&self.locks[..self.count], lock)
    }

    /// Whether the lock is the one that it acquired last among those that it holds.
    pub(crate) fn is_last(&self, lock: LockNo) -> bool
        ensures { result ≡ is_last_lock lock self.now }
    {
        match self.last_held() {
            Some(last) => last.0 == lock.0,
            None => false,
        }
    }

    /// Its level once the lock that it acquired last is free; its level where it holds none.
    pub(crate) fn freed_level(&self) -> Level
        ensures { result ≡ level_freed self.now }
    {
        if self.count == 0 {
            return self.level;
        }
        self.kept[self.count - 1]
    }

    /// The level that is kept with a lock: that of just before the first try.
    fn kept_level(&self) -> Level
        ensures { result ≡ kept_in self.now }
    {
        match self.spin {
            Some(held) => held.kept,
            None => self.level,
        }
    }

    /// The base level in its present phase.
    #[inline(always)]
    pub(crate) fn base(&self) -> Level
        ensures { result ≡ base_of self.now }
    {
        base_level(&self.body, self.kernel_phase)
    }

    /// Whether it is the base routine of a thread.
    #[inline(always)]
    pub(crate) fn is_base(&self) -> bool
        ensures { result ≡ is_base_body self.now.body }
    {
        matches!(self.body, Body::Base(_))
    }

    /// Makes the change.
    #[inline(always)]
    pub(crate) fn change(&mut self, change: &Change)
        requires { MayChange change.now self.old }
        ensures { self.new ≡ changed change.now self.old }
    {
        match change {
            Change::SetLevel(level) => self.level = *level,
            Change::SetAgain(again) => self.again = *again,
            Change::AdvancePlace => {
                self.place += 1;
                self.spin = None;
            }
            Change::SetEntered(Region::Crit, n) => self.crit = *n,
            Change::SetEntered(Region::Guard, n) => self.guard = *n,
            Change::GoOn => {
                self.kernel_phase = false;
                self.begin_anew();
            }
            Change::EndBase => {
                self.leaving = true;
                self.begin_anew();
            }
            Change::Acquire(lock) => self.acquire(*lock),
            Change::SpinOn(lock) => self.spin_on(*lock),
            Change::Free => self.free(),
        }
    }

    /// Its phase begins anew at PASSIVE_LEVEL, and its regions are given up.
    #[inline(always)]
    fn begin_anew(&mut self)
        ensures { self.new ≡ record self.old {
          level = 0;
          place = 0;
          crit = 0;
          guard = 0;
          again = None;
          spin = None;
        } }
    {
        self.level = Level::PASSIVE;
        self.place = 0;
        self.crit = 0;
        self.guard = 0;
        self.again = None;
        self.spin = None;
    }

    /// It gets the lock.
    fn acquire(&mut self, lock: LockNo)
        requires lock { lock.0 < 64 }
        requires free { holds_lock lock self.old ≡ false }
        ensures { self.new ≡ changed (Change.Acquire lock) self.old }
    {
        let kept = self.kept_level();
        self.locks[self.count] = lock.0 as u8;
        self.kept[self.count] = kept;
        self.count += 1;
        self.level = Level::DISPATCH;
        self.spin = None;
    }

    /// It spins on the lock.
    fn spin_on(&mut self, lock: LockNo)
        ensures { self.new ≡ changed (Change.SpinOn lock) self.old }
    {
        let kept = self.kept_level();
        self.spin = Some(Held { lock, kept });
        self.level = Level::DISPATCH;
    }

    /// It frees the lock that it acquired last, if it holds one.
    fn free(&mut self)
        ensures { self.new ≡ changed Change.Free self.old }
    {
        let level = self.freed_level();
        if self.count > 0 {
            self.count -= 1;
        }
        self.level = level;
    }
}

/// Whether the lock is one of these.
fn has(locks: &[u8], lock: LockNo) -> bool
    ensures { result ≡ list_any (λ l. l == lock.0) (reverse locks.now) }
{
    locks.iter().rev().any(|l| u16::from(*l) == lock.0)
}

/// Whether it runs on the processor's own part.
#[inline(always)]
pub fn is_own(body: &Body) -> bool
    ensures { result ≡ is_own_body body.now }
{
    matches!(body, Body::Int(_) | Body::Dpc(_) | Body::Threaded(_))
}

fn is_apc(body: &Body) -> bool
    ensures { result ≡ is_apc_body body.now }
{
    matches!(body, Body::Apc(_, _))
}

/// The level at which a body begins, in this phase.
fn base_level(body: &Body, kernel_phase: bool) -> Level
    ensures { result ≡ base_level_of body.now kernel_phase }
{
    match body {
        Body::Int(level) => *level,
        Body::Dpc(_) => Level::DISPATCH,
        Body::Apc(_, _) if kernel_phase => Level::APC,
        Body::Threaded(_) | Body::Apc(_, _) | Body::Rundown(_) | Body::Base(_) => Level::PASSIVE,
    }
}
