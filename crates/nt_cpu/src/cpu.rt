//! What a processor keeps.
ghost use Rattle.std.specs.Prelude.{◌≡◌, ◌<◌, ◌≤◌, ◌&&◌, [], IfOk, IsTrue, length, not};
ghost use Rattle.nt_event.specs.Jobs.{is_still as is_still_in, may_switch as switch_in};
ghost use Rattle.nt_event.specs.Jobs.{rests as rests_in, spins_still as spins_still_in};
ghost use Rattle.nt_event.specs.Own.{own_of};
ghost use Rattle.nt_event.specs.Script.{fits, has_cpu};
ghost use Rattle.nt_event.specs.Step.{is_cut};
ghost use Rattle.nt_cpu.specs.Sound.{IsSound};

use crate::keeping::Kept;
use nt_event::limits::TURNS;
use nt_event::{CpuNo, DpcNo, Rises, Script, ThreadNo};
use nt_floor::Seen;
use nt_frame::Frames;
use std::alloc::{AllocError, Global};
use std::marker::Model;

/// One processor of a script, with a limit on the events that it makes.
#[derive(Drop, Debug)]
pub struct Cpu<'s> {
    pub(crate) script: &'s Script,
    pub(crate) cpu: CpuNo,
    pub(crate) limit: u32,
    pub(crate) made: u32,
    pub(crate) frames: Frames,
    pub(crate) seen: Seen,
    pub(crate) kept: Kept,
    /// The greatest class of an interrupt that was noticed and not served.
    pub(crate) due: Option<u8>,
}

impl<'s> Model for Cpu<'s> {
    ghost use Rattle.nt_cpu.specs.States.{CpuState};

    ghost Value = { CpuState };

    ghost use Rattle.nt_cpu.specs.Insides.{IsSoundInside, state_in};

    ghost view = { state_in };

    ghost invariant = { IsSoundInside };
}

impl<'s> Cpu<'s> {
    /// A processor of the script that has made no event and may make this many.
    ///
    /// The script fits, the processor is one of its, and the limit is at most 20,000.
    pub fn new(
        alloc: Global,
        script: &'s Script,
        cpu: CpuNo,
        turns: u32,
    ) -> Result<Cpu<'s>, AllocError>
        requires script { IsTrue (fits script.now) }
        requires cpu { IsTrue (has_cpu script.now cpu) }
        requires turns { turns ≤ TURNS }
        ensures { IfOk result (λ c.
            c ≡ record {
              script = script.now;
              cpu = cpu;
              limit = turns;
              own = own_of script.now cpu [];
            }) }
    {
        Ok(Cpu {
            script,
            cpu,
            limit: turns,
            made: 0,
            frames: Frames::new(alloc, cpu, script.thread_count())?,
            seen: Seen::new(),
            kept: Kept::new(),
            due: None,
        })
    }

    /// A copy of it, with room for all that there may be.
    pub fn copy(&self, alloc: Global) -> Result<Cpu<'s>, AllocError>
        ensures { IfOk result (λ c. c ≡ self.now) }
    {
        Ok(Cpu {
            script: self.script,
            cpu: self.cpu,
            limit: self.limit,
            made: self.made,
            frames: self.frames.copy(alloc)?,
            seen: self.seen.copy(),
            kept: self.kept.copy(),
            due: self.due,
        })
    }

    /// What holds of it at any time, for the calls that make a step of it.
    pub(crate) fn sound(&self)
        ensures { IsSound self.now }
    {
        let _script = self.script;
    }

    /// How many events it made.
    pub fn made(&self) -> u32
        ensures { result ≡ self.now.own.made }
    {
        self.made
    }

    /// Per class, the greatest request that it has noticed; a request is one more than the number
    /// of the event that asked.
    pub fn seen(&self) -> Rises
        ensures { result.value ≡ self.now.own.seen }
    {
        self.seen.rises()
    }

    /// Per class, what it had noticed when it served the class last.
    pub fn served(&self) -> Rises
        ensures { result.value ≡ self.now.own.served }
    {
        self.kept.served.rises()
    }

    /// Its frames and those of its threads.
    pub fn frames(&self) -> &Frames
        ensures { result.now ≡ self.now.own.frames }
    {
        &self.frames
    }

    /// Whether its last event is Rest.
    pub fn rested(&self) -> bool
        ensures { result ≡ self.now.own.rested }
    {
        self.kept.rested
    }

    /// The DPC that it has to fire, by an expiry that it made.
    pub fn fire(&self) -> Option<DpcNo>
        ensures { result ≡ self.now.own.fire }
    {
        self.kept.fire
    }

    /// Whether it owes a sweep of the timers.
    pub fn owes_sweep(&self) -> bool
        ensures { result ≡ self.now.own.sweep }
    {
        self.kept.sweep
    }

    /// The thread that it took up last.
    pub fn took(&self) -> Option<ThreadNo>
        ensures { result ≡ self.now.own.took }
    {
        self.kept.took
    }

    /// Whether its last event is Rest and nothing must be done.
    pub fn rests(&self) -> bool
        ensures { result ≡ rests_in self.now.own }
    {
        self.kept.rested && !self.must()
    }

    /// Whether its innermost frame spins, no release was noticed since its last try, and nothing
    /// must be done.
    pub fn spins_still(&self) -> bool
        ensures { result ≡ spins_still_in self.now.own }
    {
        self.waits_for_lock() && !self.must()
    }

    /// Whether it has nothing to do: it rests, or spins still.
    pub fn is_still(&self) -> bool
        ensures { result ≡ is_still_in self.now.own }
    {
        (self.kept.rested || self.waits_for_lock()) && !self.must()
    }

    /// Whether it may take up a thread: it is not cut, no thread runs, no frame stands on its own
    /// part, and nothing must be done.
    pub fn may_switch(&self) -> bool
        ensures { result ≡ (not (is_cut self.now.limit self.now.own) && switch_in self.now.own) }
    {
        !self.is_cut() && self.is_free()
    }
}
