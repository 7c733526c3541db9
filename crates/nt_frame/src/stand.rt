//! Where a processor stands.
ghost use Rattle.std.specs.Prelude.{◌≡◌, is_some, option_and_then};
ghost use Rattle.nt_event.specs.Regions.{some_came_to_0, stand_of};

use crate::Frames;
use nt_event::{Again, Body, CpuNo, Regions, ThreadNo};
use nt_level::Level;
use std::marker::Model;

/// Where a processor stands: what an event that touches lanes needs of what the processor alone
/// knows. Each question is answered from its frames when it is asked.
///
/// Contracts see the record `Stand` of all answers.
#[derive(Drop)]
pub struct StandView<'f> {
    cpu: CpuNo,
    frames: &'f Frames,
    sweep: bool,
}

impl<'f> Model for StandView<'f> {
    ghost use Rattle.nt_event.specs.declared.jobs.Stand.{Stand};
    ghost use Rattle.nt_event.specs.Regions.{stand_of};

    ghost Value = { Stand };

    ghost view = { λ a. stand_of a.cpu a.frames.now a.sweep };
}

impl<'f> StandView<'f> {
    /// Where the processor of this number and these frames stands, by whether it owes a sweep of
    /// the timers.
    #[inline(always)]
    pub fn new(cpu: CpuNo, frames: &'f Frames, sweep: bool) -> StandView<'f>
        ensures { result ≡ stand_of cpu frames.now sweep }
    {
        StandView { cpu, frames, sweep }
    }

    /// The processor.
    #[inline(always)]
    pub fn cpu(&self) -> CpuNo
        ensures { result ≡ self.now.cpu }
    {
        self.cpu
    }

    /// The thread that runs on it.
    #[inline(always)]
    pub fn thread(&self) -> Option<ThreadNo>
        ensures { result ≡ self.now.thread }
    {
        self.frames.running()
    }

    /// The number of the event that began the innermost frame; 0 where there is none.
    #[inline(always)]
    pub fn frame(&self) -> u64
        ensures { result ≡ self.now.frame }
    {
        match self.frames.top() {
            Some(frame) => frame.name(),
            None => 0,
        }
    }

    /// What runs in the innermost frame.
    #[inline(always)]
    pub fn body(&self) -> Option<Body>
        ensures { result ≡ self.now.body }
    {
        match self.frames.top() {
            Some(frame) => Some(*frame.body()),
            None => None,
        }
    }

    /// The processor's level.
    #[inline(always)]
    pub fn level(&self) -> Level
        ensures { result ≡ self.now.level }
    {
        self.frames.level()
    }

    /// What holds back the kernel APCs of the running thread.
    #[inline(always)]
    pub fn regions(&self) -> Regions
        ensures { result ≡ self.now.regions }
    {
        self.frames.regions()
    }

    /// The same once the innermost frame has ended.
    #[inline(always)]
    pub fn below(&self) -> Regions
        ensures { result ≡ self.now.below }
    {
        self.frames.below()
    }

    /// Whether a count of the running thread's regions comes to 0 once the innermost frame has
    /// ended.
    #[inline(always)]
    pub fn gives_up(&self) -> bool
        ensures { result ≡ some_came_to_0 self.now.regions self.now.below }
    {
        self.frames.gives_up()
    }

    /// The level once the innermost frame has ended.
    #[inline(always)]
    pub fn ended_level(&self) -> Level
        ensures { result ≡ self.now.ended_level }
    {
        self.frames.ended_level()
    }

    /// The level after an unlock or a free of the innermost frame: the one kept with the lock that
    /// it acquired last. The level where it holds none.
    pub fn after(&self) -> Level
        ensures { result ≡ self.now.after }
    {
        self.frames.level_after()
    }

    /// The wait that the innermost frame has to take up again.
    #[inline(always)]
    pub fn again(&self) -> Option<Again>
        ensures { result ≡ self.now.again }
    {
        self.frames.top()?.again()
    }

    /// Whether the wait that the innermost frame has to take up again has a due time.
    pub fn has_due(&self) -> bool
        ensures { result ≡ is_some (option_and_then (λ w. w.due) self.now.again) }
    {
        match self.again() {
            Some(wait) => wait.due.is_some(),
            None => false,
        }
    }

    /// Whether the processor owes a sweep of the timers.
    #[inline(always)]
    pub fn sweep(&self) -> bool
        ensures { result ≡ self.now.sweep }
    {
        self.sweep
    }
}
