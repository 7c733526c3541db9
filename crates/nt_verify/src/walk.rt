//! A walk: one frame of a site alone, in which the commands of its routine are called in order.
ghost use Rattle.std.specs.Prelude.{◌≡◌, ◌<◌, ◌==◌, ◌∷◌, IsTrue, false, nat_lt, not, reverse};
ghost use Rattle.std.specs.List.{list_all, list_any};
ghost use Rattle.nt_event.specs.Commands.{holds as holds_lock, is_last as is_last_lock};
ghost use Rattle.nt_event.specs.Frames.{base_level as base_level_of, base_of, freed};
ghost use Rattle.nt_event.specs.Frames.{is_base_body};
ghost use Rattle.nt_event.specs.Lists.{is_null};
ghost use Rattle.nt_verify.specs.Findings.{is_above as is_above_all};
ghost use Rattle.nt_verify.specs.Sites.{first_frame};
ghost use Rattle.nt_verify.specs.Steps.{done_in, has_lock_below, is_lock_free};
ghost use Rattle.nt_verify.specs.Walks.{called_in, is_own as is_own_body};

use crate::Site;
use nt_event::{Body, Command, Level, LockNo, Script};
use std::marker::Model;

/// Locks of a script at most.
const LOCKS: usize = 64;

/// A frame of a site that is alone: its level, the regions that it entered, and the locks that it
/// holds with the level kept with each.
///
/// Contracts see the record `Frame` of the definitions.
#[derive(Drop, Debug)]
pub(crate) struct Walk {
    body: Body,
    /// Whether it is an APC in its kernel routine.
    kernel_phase: bool,
    level: Level,
    /// How many commands it has called.
    place: u32,
    crit: u32,
    guard: u32,
    /// How many locks it holds.
    count: usize,
    /// The locks that it holds, in the order in which it acquired them.
    locks: [u8; LOCKS],
    /// The level that is kept with each.
    kept: [Level; LOCKS],
}

impl Model for Walk {
    ghost use Rattle.std.specs.Prelude.{◌≤◌, None, false};
    ghost use Rattle.nt_event.specs.Frame.{Frame};
    ghost use Rattle.nt_frame.specs.HeldLocks.{held_in};
    ghost use Rattle.nt_verify.specs.Steps.{IsWalk};

    ghost Value = { Frame };

    ghost view = { λ a. record {
      name = 0;
      body = a.body;
      level = a.level;
      place = a.place;
      crit = a.crit;
      guard = a.guard;
      kernel_phase = a.kernel_phase;
      leaving = false;
      again = None;
      spin = None;
      held = held_in a.count a.locks a.kept;
    } };

    ghost invariant = { λ a. IsWalk a.place a.crit a.guard a.count a.locks a.kept };
}

impl Walk {
    /// A frame of the site before its first command.
    pub fn begin(script: &Script, site: &Site) -> Walk
        ensures { result ≡ first_frame script.now site.now }
    {
        let body = site.body(script);
        let kernel_phase = site.is_kernel();
        Walk {
            body,
            kernel_phase,
            level: base_level(&body, kernel_phase),
            place: 0,
            crit: 0,
            guard: 0,
            count: 0,
            locks: [0; LOCKS],
            kept: [Level::PASSIVE; LOCKS],
        }
    }

    /// Its level.
    pub fn level(&self) -> Level
        ensures { result ≡ self.now.level }
    {
        self.level
    }

    /// How many commands it has called.
    pub fn place(&self) -> u32
        ensures { result ≡ self.now.place }
    {
        self.place
    }

    /// How often it has entered a critical region and not left it.
    pub fn crit(&self) -> u32
        ensures { result ≡ self.now.crit }
    {
        self.crit
    }

    /// How often it has entered a guarded region and not left it.
    pub fn guard(&self) -> u32
        ensures { result ≡ self.now.guard }
    {
        self.guard
    }

    /// Its base level.
    pub fn base(&self) -> Level
        ensures { result ≡ base_of self.now }
    {
        base_level(&self.body, self.kernel_phase)
    }

    /// Whether it runs on the processor's own part, and so in no thread.
    pub fn is_own(&self) -> bool
        ensures { result ≡ is_own_body self.now.body }
    {
        matches!(self.body, Body::Int(_) | Body::Dpc(_) | Body::Threaded(_))
    }

    /// Whether it is the base routine of a thread.
    pub fn is_base(&self) -> bool
        ensures { result ≡ is_base_body self.now.body }
    {
        matches!(self.body, Body::Base(_))
    }

    /// Whether it holds a lock.
    pub fn holds_any(&self) -> bool
        ensures { result ≡ not (is_null self.now.held) }
    {
        self.count != 0
    }

    /// Whether it holds the lock.
    pub fn holds(&self, lock: LockNo) -> bool
        ensures { result ≡ holds_lock lock self.now }
    {
        has(&self.locks[..self.count], lock)
    }

    /// Whether the lock is the one that it acquired last among those that it holds.
    pub fn is_last(&self, lock: LockNo) -> bool
        ensures { result ≡ is_last_lock lock self.now }
    {
        self.count != 0 && u16::from(self.locks[self.count - 1]) == lock.0
    }

    /// Whether the lock has a greater number than each lock that it holds.
    pub fn is_above(&self, lock: LockNo) -> bool
        ensures { result ≡ is_above_all lock self.now.held }
    {
        are_below(&self.locks[..self.count], lock)
    }

    /// Calls the command: where it isn't refused, it is done.
    pub fn call(&mut self, command: &Command)
        requires place { self.old.place < 8192 }
        requires lock { IsTrue (has_lock_below 64 command.now) }
        ensures { self.new ≡ called_in self.old command.now }
    {
        let refused = self.refusal(command).is_some();
        self.place += 1;
        if refused {
            return;
        }
        self.take(command);
    }

    /// What the command does where it isn't refused, beside the place.
    fn take(&mut self, command: &Command)
        requires room { self.old.crit < self.old.place }
        requires space { self.old.guard < self.old.place }
        requires lock { IsTrue (has_lock_below 64 command.now) }
        requires accepted { IsTrue (is_lock_free self.old command.now) }
        ensures { self.new ≡ done_in self.old command.now }
    {
        match command {
            Command::Raise(level) | Command::Lower(level) => self.level = *level,
            Command::EnterCrit => self.crit += 1,
            Command::EnterGuard => self.guard += 1,
            Command::LeaveCrit => self.crit = self.crit.saturating_sub(1),
            Command::LeaveGuard => self.guard = self.guard.saturating_sub(1),
            Command::Acquire(lock) => self.acquire(*lock),
            Command::Unlock(_) => self.free(),
            Command::Queue(_)
            | Command::Unqueue(_)
            | Command::SetImportance(_, _)
            | Command::SetTarget(_, _)
            | Command::SetTimer(_, _, _)
            | Command::CancelTimer(_)
            | Command::InsertApc(_)
            | Command::RemoveApc(_)
            | Command::StartWait(_, _)
            | Command::Delay(_, _, _)
            | Command::Release(_)
            | Command::Alert(_, _)
            | Command::TestAlert(_)
            | Command::Interrupt(_, _)
            | Command::Clock(_)
            | Command::ToUser
            | Command::Yield
            | Command::Note(_) => {}
        }
    }

    /// It gets the lock.
    fn acquire(&mut self, lock: LockNo)
        requires lock { lock.0 < 64 }
        requires free { holds_lock lock self.old ≡ false }
        ensures { self.new ≡ record self.old {
          level = 2;
          held = record { lock = lock; kept = self.old.level } ∷ self.old.held;
        } }
    {
        self.locks[self.count] = lock.0 as u8;
        self.kept[self.count] = self.level;
        self.count += 1;
        self.level = Level::DISPATCH;
    }

    /// It frees the lock that it acquired last, if it holds one.
    fn free(&mut self)
        ensures { self.new ≡ freed self.old }
    {
        if self.count > 0 {
            self.level = self.kept[self.count - 1];
            self.count -= 1;
        }
    }
}

/// Whether the lock is one of these.
fn has(locks: &[u8], lock: LockNo) -> bool
    ensures { result ≡ list_any (λ l. l == lock.0) (reverse locks.now) }
{
    locks.iter().rev().any(|l| u16::from(*l) == lock.0)
}

/// Whether each of these locks has a number below this one's.
fn are_below(locks: &[u8], lock: LockNo) -> bool
    ensures { result ≡ list_all (λ l. nat_lt l lock.0) (reverse locks.now) }
{
    locks.iter().rev().all(|l| u16::from(*l) < lock.0)
}

/// The level at which a body begins, in this phase.
fn base_level(body: &Body, kernel_phase: bool) -> Level
    ensures { result ≡ base_level_of body.now kernel_phase }
{
    match body {
        Body::Int(level) => *level,
        Body::Dpc(_) => Level::DISPATCH,
        Body::Apc(_, _) if kernel_phase => Level::APC,
        Body::Threaded(_) | Body::Apc(_, _) | Body::Rundown(_) | Body::Base(_) => Level::PASSIVE,
    }
}
