//! The states of all lanes in memory: DPC objects and queues, threads, timers, and spin locks.
ghost use Rattle.std.specs.Prelude.{◌≡◌, [], IfOk, IsTrue, length};
ghost use Rattle.nt_event.specs.Lanes.{lanes_at, lock_at};
ghost use Rattle.nt_event.specs.Script.{fits, has_lock};
ghost use Rattle.nt_event.specs.Acts.{KindsFit};
ghost use Rattle.nt_states.specs.AllStates.{dpcs_of};
ghost use Rattle.nt_states.specs.Sound.{IsSound};

mod answering;
mod leaving;

use crate::locks::Locks;
use nt_dpc_lanes::Dpcs;
use nt_event::{LockNo, Script};
use nt_states::{LaneAnswers, SpinLock};
use nt_thread_lanes::Threads;
use nt_timer::TimerQueue;
use std::alloc::{AllocError, Global};
use std::marker::Model;

/// The states of all lanes of a script. They have their room from the start: no call but
/// [`States::new`] and [`States::copy`] takes memory.
#[derive(Drop)]
pub struct States<'s> {
    script: &'s Script,
    dpcs: Dpcs<'s>,
    threads: Threads<'s>,
    timers: TimerQueue,
    locks: Locks,
}

impl<'s> Model for States<'s> {
    ghost use Rattle.nt_states.specs.AllStates.{AllStates};

    ghost Value = { AllStates };

    ghost use Rattle.nt_plain.specs.Kept.{IsKept, states_in};

    ghost view = { states_in };

    ghost invariant = { IsKept };
}

impl<'s> States<'s> {
    /// The states before any event. The script fits.
    pub(crate) fn new(alloc: Global, script: &'s Script) -> Result<States<'s>, AllocError>
        requires { IsTrue (fits script.now) }
        ensures { IfOk result
            (λ x. x ≡ record { script = script.now; lanes = lanes_at script.now [] }) }
    {
        let locks = Locks::new(alloc, script)?;
        let dpcs = Dpcs::new(alloc, script)?;
        let threads = Threads::new(alloc, script)?;
        let timers = TimerQueue::new(alloc, timer_count(script), script.thread_count())?;
        Ok(States {
            script,
            dpcs,
            threads,
            timers,
            locks,
        })
    }

    /// A copy of them, with room for all that there may be.
    pub(crate) fn copy(&self, alloc: Global) -> Result<States<'s>, AllocError>
        ensures { IfOk result (λ x. x ≡ self.now) }
    {
        Ok(States {
            script: self.script,
            locks: self.locks.copy(alloc)?,
            dpcs: self.dpcs.copy(alloc)?,
            threads: self.threads.copy(alloc)?,
            timers: self.timers.copy(alloc)?,
        })
    }

    /// What holds of them at any time, for the calls that speak of their parts.
    fn sound(&self)
        ensures { IsSound self.now }
    {
        let _script = self.script;
    }

    /// The script.
    pub(crate) fn whole_script(&self) -> &'s Script
        ensures { result.now ≡ self.now.script }
    {
        self.script
    }

    /// The DPC objects and queues.
    fn dpcs(&self) -> &Dpcs<'s>
        ensures { result.now ≡ dpcs_of self.now }
    {
        &self.dpcs
    }

    /// The time, the timers and the delays.
    fn timers(&self) -> &TimerQueue
        ensures { result.now ≡ self.now.lanes.timers }
    {
        &self.timers
    }

    /// The state of a spin lock.
    fn lock(&self, k: LockNo) -> &SpinLock
        requires { IsTrue (has_lock self.now.script k) }
        ensures lock { result.now ≡ lock_at self.now.lanes k }
        ensures flags { length result.now.spinners ≡ self.now.script.cpus }
    {
        self.locks.get(k)
    }

    /// The APCs that are pending are of their objects' kinds.
    pub(crate) fn kinds(&self)
        ensures { KindsFit self.now.script self.now.lanes }
    {
        self.threads().kinds();
    }
}

/// How many timers the script has.
fn timer_count(script: &Script) -> u32
    requires { IsTrue (fits script.now) }
    ensures { result ≡ length script.now.timers }
{
    script.timers.len() as u32
}
