//! The names of a script's things.
use crate::column::Column;
use nt_event::{ApcNo, DpcNo, LockNo, RoutineNo, ThreadNo, TimerNo};
use std::alloc::{AllocError, Global};
use std::marker::Model;

/// Of what a name is the name.
#[derive(Clone, Copy, PartialEq, Eq, Debug)]
pub enum Kind {
    /// A DPC object.
    Dpc,
    /// A timer.
    Timer,
    /// A thread.
    Thread,
    /// An APC object.
    Apc,
    /// A spin lock.
    Lock,
    /// A routine.
    Routine,
}

/// The thing that a name names.
#[derive(Clone, Copy, PartialEq, Eq, Debug)]
pub enum Named {
    /// A DPC object.
    Dpc(DpcNo),
    /// A timer.
    Timer(TimerNo),
    /// A thread.
    Thread(ThreadNo),
    /// An APC object.
    Apc(ApcNo),
    /// A spin lock.
    Lock(LockNo),
    /// A routine.
    Routine(RoutineNo),
}

/// The names of a script: for each kind of thing the list of them in order of declaration, so that
/// the name of a thing stands at its number. Contracts see a record of six lists of names, each
/// name a list of bytes.
#[derive(Drop)]
pub struct Names {
    dpcs: Column,
    timers: Column,
    threads: Column,
    apcs: Column,
    locks: Column,
    routines: Column,
}

impl Model for Names {
    ghost use Rattle.nt_line.specs.NameLists.{NameLists};

    ghost Value = { NameLists };

    ghost view = { λ a. record {
      dpcs = a.dpcs;
      timers = a.timers;
      threads = a.threads;
      apcs = a.apcs;
      locks = a.locks;
      routines = a.routines;
    } };
}

ghost use Rattle.std.specs.Prelude.{◌≡◌};
ghost use Rattle.nt_line.specs.NameLists.{number};

/// A place as a number of its kind. No script has so many things of a kind that this is another
/// number.
fn number(place: usize) -> u16
    ensures { result ≡ number place }
{
    if place < 65535 { place as u16 } else { 65535 }
}

impl Names {
    ghost use Rattle.std.specs.Prelude.{◌≡◌, ◌<◌, length, option_map, OnOk, None};
    ghost use Rattle.nt_line.specs.Places.{place};
    ghost use Rattle.nt_line.specs.NameLists.{show_dpc, show_timer, show_thread, show_apc};
    ghost use Rattle.nt_line.specs.NameLists.{show_lock, show_routine};
    ghost use Rattle.nt_line.specs.NameLists.{no_names, routine_at, meaning, timer_or_later};
    ghost use Rattle.nt_line.specs.NameLists.{thread_or_later, apc_or_later, lock_or_routine};
    ghost use Rattle.nt_line.specs.NameLists.{declared, with_name};

    /// No names.
    pub fn new(alloc: Global) -> Names
        ensures { result ≡ no_names }
    {
        Names {
            dpcs: Column::new(alloc),
            timers: Column::new(alloc),
            threads: Column::new(alloc),
            apcs: Column::new(alloc),
            locks: Column::new(alloc),
            routines: Column::new(alloc),
        }
    }

    /// The thing that a name names. None exactly where nothing has this name.
    pub fn find(&self, name: &str) -> Option<Named>
        ensures { result ≡ meaning name.now self.now }
    {
        match self.dpcs.place(name) {
            Some(at) => Some(Named::Dpc(DpcNo(number(at)))),
            None => self.timer_or_later(name),
        }
    }

    fn timer_or_later(&self, name: &str) -> Option<Named>
        ensures { result ≡ timer_or_later name.now self.now }
    {
        match self.timers.place(name) {
            Some(at) => Some(Named::Timer(TimerNo(number(at)))),
            None => self.thread_or_later(name),
        }
    }

    fn thread_or_later(&self, name: &str) -> Option<Named>
        ensures { result ≡ thread_or_later name.now self.now }
    {
        match self.threads.place(name) {
            Some(at) => Some(Named::Thread(ThreadNo(number(at)))),
            None => self.apc_or_later(name),
        }
    }

    fn apc_or_later(&self, name: &str) -> Option<Named>
        ensures { result ≡ apc_or_later name.now self.now }
    {
        match self.apcs.place(name) {
            Some(at) => Some(Named::Apc(ApcNo(number(at)))),
            None => self.lock_or_routine(name),
        }
    }

    fn lock_or_routine(&self, name: &str) -> Option<Named>
        ensures { result ≡ lock_or_routine name.now self.now }
    {
        match self.locks.place(name) {
            Some(at) => Some(Named::Lock(LockNo(number(at)))),
            None => self.named_routine(name),
        }
    }

    fn named_routine(&self, name: &str) -> Option<Named>
        ensures { result ≡ option_map routine_at (place name.now self.now.routines) }
    {
        match self.routines.place(name) {
            Some(at) => Some(Named::Routine(RoutineNo(number(at)))),
            None => None,
        }
    }

    /// Adds a name, which nothing has yet, behind those of its kind.
    pub fn add(&mut self, alloc: Global, kind: Kind, name: &str) -> Result<(), AllocError>
        requires { meaning name.now self.old ≡ None }
        ensures { OnOk result (self.new ≡ with_name kind name.now self.old) }
    {
        match kind {
            Kind::Dpc => self.dpcs.push(alloc, name),
            Kind::Timer => self.timers.push(alloc, name),
            Kind::Thread => self.threads.push(alloc, name),
            Kind::Apc => self.apcs.push(alloc, name),
            Kind::Lock => self.locks.push(alloc, name),
            Kind::Routine => self.routines.push(alloc, name),
        }
    }

    /// Adds a name behind those of its kind, unless something of any kind has it already.
    pub fn declare(&mut self, alloc: Global, kind: Kind, name: &str) -> Result<(), AllocError>
        ensures { OnOk result (self.new ≡ declared kind name.now self.old) }
    {
        if self.find(name).is_some() {
            return Ok(());
        }
        self.add(alloc, kind, name)
    }

    /// The name of a DPC object.
    pub fn dpc(&self, d: DpcNo) -> &str
        requires { d.0 < length self.now.dpcs }
        ensures { result.now ≡ show_dpc self.now d }
    {
        self.dpcs.at(d.0 as usize)
    }

    /// The name of a timer.
    pub fn timer(&self, t: TimerNo) -> &str
        requires { t.0 < length self.now.timers }
        ensures { result.now ≡ show_timer self.now t }
    {
        self.timers.at(t.0 as usize)
    }

    /// The name of a thread.
    pub fn thread(&self, t: ThreadNo) -> &str
        requires { t.0 < length self.now.threads }
        ensures { result.now ≡ show_thread self.now t }
    {
        self.threads.at(t.0 as usize)
    }

    /// The name of an APC object.
    pub fn apc(&self, a: ApcNo) -> &str
        requires { a.0 < length self.now.apcs }
        ensures { result.now ≡ show_apc self.now a }
    {
        self.apcs.at(a.0 as usize)
    }

    /// The name of a spin lock.
    pub fn lock(&self, l: LockNo) -> &str
        requires { l.0 < length self.now.locks }
        ensures { result.now ≡ show_lock self.now l }
    {
        self.locks.at(l.0 as usize)
    }

    /// The name of a routine.
    pub fn routine(&self, r: RoutineNo) -> &str
        requires { r.0 < length self.now.routines }
        ensures { result.now ≡ show_routine self.now r }
    {
        self.routines.at(r.0 as usize)
    }
}
