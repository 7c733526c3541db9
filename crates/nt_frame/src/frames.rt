//! The frames of one processor and its threads.
ghost use Rattle.std.specs.Prelude.{◌≡◌, ◌<◌, ◌≤◌, ◌↔◌, ◌+◌, ◌==◌, ℕ, false, not, length};
ghost use Rattle.std.specs.Prelude.{option_copied, option_map, IsTrue, IsSome, IsOk, IfSome, IfOk};
ghost use Rattle.std.specs.Prelude.{IfErr, OnOk, OnErr, reverse};
ghost use Rattle.std.specs.Option.{ForSome, option_map_or, option_or};
ghost use Rattle.nt_event.specs.Frames.{thread_part, done_to, frames_in, freed, innermost};
ghost use Rattle.nt_event.specs.Frames.{is_on_thread as on_thread_part, ended_base, level_in};
ghost use Rattle.nt_event.specs.Frames.{normal_of};
ghost use Rattle.nt_event.specs.Regions.{ended_level_in, below_in, freed_in, some_came_to_0};
ghost use Rattle.nt_event.specs.Lists.{is_null, head_of};
ghost use Rattle.nt_frame.specs.Changes.{MayChange, acquired as frame_acquired, advanced};
ghost use Rattle.nt_frame.specs.Changes.{at_innermost, begun, changed, closed, no_frames};
ghost use Rattle.nt_frame.specs.Changes.{without_innermost};
ghost use Rattle.nt_frame.specs.Nesting.{AreNamedBelow, AreNested, IsThreadPart, frame_count};
ghost use Rattle.nt_frame.specs.Rules.{KeepsNested, count_of, end_asks_apc, enter_of, is_at_base};
ghost use Rattle.nt_frame.specs.Rules.{is_leaving, last_held_in, leave_of, may_begin, may_go_on};
ghost use Rattle.nt_frame.specs.Rules.{refusal_in, regions_in, spinning_in};
ghost use Rattle.nt_frame.specs.Views.{view_of};

use crate::change::Change;
use crate::frame::is_own;
use crate::part::{NO_REGIONS, Part, is_normal_apc};
use crate::refusals::refusal;
use crate::{Frame, FrameView, parts};
use nt_event::{Again, Body, Command, CpuNo, LockNo, Refusal, Region, Regions, ThreadNo};
use nt_level::Level;
use std::alloc::{AllocError, Global};
use std::marker::Model;

/// The frames of one processor: those on its own part, and those of each thread.
///
/// Contracts see the lists of frames, the innermost first, and the running thread. Profile: at most
/// 13 frames stand on the own part and 4 on a thread's; the conditions of [`Frames::begin`] see to
/// it.
#[derive(Drop, Debug)]
pub struct Frames {
    /// Whose frames these are, for `Debug` alone.
    cpu: CpuNo,
    own: Part<13>,
    running: Option<ThreadNo>,
    threads: Vec<Part<4>>,
}

impl Model for Frames {
    ghost use Rattle.nt_event.specs.Frames.{Frames as Record};
    ghost use Rattle.nt_frame.specs.Nesting.{AreNested};

    ghost Value = { Record };

    ghost view = { λ a. record { own = a.own; running = a.running; threads = a.threads.items } };

    ghost invariant = { λ a.
        AreNested (record { own = a.own; running = a.running; threads = a.threads.items }) };
}

impl Frames {
    /// No frames on the processor and on this many threads, with room for all that there may be.
    pub fn new(alloc: Global, cpu: CpuNo, threads: u32) -> Result<Frames, AllocError>
        ensures none { IfOk result (λ x. x ≡ no_frames threads) }
        ensures named { IfOk result (λ x. AreNamedBelow 0 x) }
    {
        let mut parts = Vec::with_capacity(alloc, threads as usize)?;
        for _thread in 0..threads {
            parts.push(Part::new(alloc)?)?;
        }
        Ok(Frames {
            cpu,
            own: Part::new(alloc)?,
            running: None,
            threads: parts,
        })
    }

    /// A copy of them, with room for all that there may be.
    pub fn copy(&self, alloc: Global) -> Result<Frames, AllocError>
        ensures { IfOk result (λ x. x ≡ self.now) }
    {
        let mut threads = Vec::with_capacity(alloc, self.threads.len())?;
        for part in &self.threads {
            threads.push(part.copy(alloc)?)?;
        }
        Ok(Frames {
            cpu: self.cpu,
            own: self.own.copy(alloc)?,
            running: self.running,
            threads,
        })
    }

    /// The frames on the processor's own part, the outermost first.
    pub fn own(&self) -> &[Frame]
        ensures { reverse result.now ≡ self.now.own }
    {
        self.own.frames()
    }

    /// How many threads there are.
    pub fn thread_count(&self) -> usize
        ensures { result ≡ length self.now.threads }
    {
        self.threads.len()
    }

    /// The frames of a thread, the outermost first.
    pub fn of_thread(&self, t: ThreadNo) -> &[Frame]
        requires { t.0 < length self.now.threads }
        ensures { reverse result.now ≡ frames_in self.now.threads t }
    {
        self.threads[t.0 as usize].frames()
    }

    /// The thread that runs.
    pub fn running(&self) -> Option<ThreadNo>
        ensures { result ≡ self.now.running }
    {
        self.running
    }

    /// The level of the innermost frame; PASSIVE_LEVEL where there is none.
    pub fn level(&self) -> Level
        ensures { result ≡ level_in self.now }
    {
        match self.top() {
            Some(frame) => frame.level(),
            None => Level::PASSIVE,
        }
    }

    /// The regions of the running thread, in all its frames.
    #[inline(always)]
    pub fn regions(&self) -> Regions
        ensures { result ≡ regions_in self.now }
    {
        match self.running_part() {
            Some(part) => part.regions(),
            None => NO_REGIONS,
        }
    }

    /// The regions of the running thread once the innermost frame has ended.
    pub fn below(&self) -> Regions
        ensures { result ≡ below_in self.now }
    {
        if !self.own.is_empty() {
            return self.regions();
        }
        match self.running_part() {
            Some(part) => part.regions_below(),
            None => NO_REGIONS,
        }
    }

    /// Whether a count of the running thread's regions comes to 0 once the innermost frame has
    /// ended.
    pub fn gives_up(&self) -> bool
        ensures { result ≡ some_came_to_0 (regions_in self.now) (below_in self.now) }
    {
        self.own.is_empty() && self.below().came_to_0(&self.regions())
    }

    /// The level once the innermost frame has ended.
    pub fn ended_level(&self) -> Level
        ensures { result ≡ ended_level_in self.now }
    {
        if !self.own.is_empty() {
            return first_level(self.own.second(), self.outermost_running());
        }
        match self.running_part() {
            Some(part) => first_level(None, part.second()),
            None => Level::PASSIVE,
        }
    }

    /// The level once the lock that the innermost frame acquired last is free; the level where it
    /// holds none.
    pub fn level_after(&self) -> Level
        ensures { result ≡ freed_in self.now }
    {
        match self.top() {
            Some(frame) => frame.freed_level(),
            None => Level::PASSIVE,
        }
    }

    /// The lock that the innermost frame acquired last among those that it holds.
    #[inline(always)]
    pub fn last_held(&self) -> Option<LockNo>
        ensures { result ≡ last_held_in self.now }
    {
        self.top()?.last_held()
    }

    /// The lock on which the innermost frame spins.
    #[inline(always)]
    pub fn spinning(&self) -> Option<LockNo>
        ensures { result ≡ spinning_in self.now }
    {
        let held = self.top()?.spin()?;
        Some(held.lock)
    }

    /// Whether a frame stands on the processor's own part.
    pub fn has_own(&self) -> bool
        ensures { result ≡ not (is_null self.now.own) }
    {
        !self.own.is_empty()
    }

    /// Whether the innermost frame stands on the running thread's part.
    pub fn is_on_thread(&self) -> bool
        ensures { result ≡ on_thread_part self.now }
    {
        self.own.is_empty() && self.top().is_some()
    }

    /// Why this command would be refused in the innermost frame, if it would: the first test that
    /// fails, in the order of the refusals' numbers. Where there is no frame, no thread calls it.
    #[inline(always)]
    pub fn refusal(&self, command: &Command) -> Option<Refusal>
        ensures { result ≡ refusal_in command.now self.now }
    {
        let Some(frame) = self.top() else {
            return Some(Refusal::NotThread);
        };
        refusal(
            frame.level(),
            !self.own.is_empty(),
            &self.regions(),
            frame,
            command,
        )
    }

    /// The newest frame of the own part, else that of the running thread. `nested` is what every
    /// value keeps: how its frames stand over each other.
    pub fn innermost(&self) -> Option<FrameView>
        ensures view { result ≡ option_map view_of (innermost self.now) }
        ensures nested { AreNested self.now }
    {
        let frame = self.top()?;
        Some(FrameView {
            frame: frame.name(),
            body: *frame.body(),
            place: frame.place(),
            kernel_phase: frame.kernel_phase(),
            leaving: frame.leaving(),
            again: frame.again(),
        })
    }

    /// A routine begins, in a frame that this number names: that of the event which begins it.
    ///
    /// The rules let such a routine begin here (`may_begin`): an interrupt above the level; a DPC
    /// below DISPATCH_LEVEL; a threaded DPC at PASSIVE_LEVEL with no frame on the own part; a
    /// kernel APC at PASSIVE_LEVEL in a thread whose regions let it through; a user APC where
    /// `touser` would be accepted; the base of a thread that was just taken up and has no frame; a
    /// rundown routine in a leaving thread. The number is above the names of all frames.
    #[inline(always)]
    pub fn begin(&mut self, body: Body, n: u64)
        requires rules { IsTrue (may_begin body self.old) }
        requires number { AreNamedBelow n self.old }
        ensures begun { self.new ≡ begun n body self.old }
        ensures named { AreNamedBelow (n + 1) self.new }
    {
        let own = is_own(&body);
        if own {
            self.own.begin(n, body);
        } else if let Some(t) = self.running {
            parts::begin(&mut self.threads, t, n, body);
        }
    }

    /// An APC goes on from its kernel routine to its normal routine, and gives up the regions that
    /// its kernel routine entered. True exactly where this asks for kernel APCs: a count of the
    /// thread's regions came to 0.
    pub fn normal(&mut self) -> bool
        requires { IsTrue (may_go_on self.old) }
        ensures asks { result ≡ some_came_to_0 (regions_in self.old) (below_in self.old) }
        ensures phase { self.new ≡ at_innermost normal_of self.old }
    {
        let asks = self.gives_up();
        self.change(&Change::GoOn);
        asks
    }

    /// The innermost routine ends, and its frame with it: the level below comes back, and the
    /// regions that it entered are given up. True exactly where this asks for kernel APCs: a normal
    /// kernel APC ended, or a count of the thread's regions came to 0.
    pub fn finish(&mut self) -> bool
        requires frame { IsSome (innermost self.old) }
        requires no_base { is_at_base self.old ≡ false }
        ensures asks { result ≡ end_asks_apc self.old }
        ensures ended { self.new ≡ without_innermost self.old }
        ensures fewer { frame_count self.new < frame_count self.old }
        ensures named { (n : ℕ) → AreNamedBelow n self.old → AreNamedBelow n self.new }
    {
        let Some(frame) = self.top() else {
            unreachable!()
        };
        let asks = is_normal_apc(frame.body()) || self.gives_up();
        self.end_routine();
        asks
    }

    /// The innermost routine ends as by [`Frames::finish`], for a caller who knows by itself
    /// whether this asks for kernel APCs.
    pub fn end_routine(&mut self)
        requires frame { IsSome (innermost self.old) }
        requires no_base { is_at_base self.old ≡ false }
        ensures ended { self.new ≡ without_innermost self.old }
        ensures fewer { frame_count self.new < frame_count self.old }
        ensures named { (n : ℕ) → AreNamedBelow n self.old → AreNamedBelow n self.new }
    {
        self.drop_innermost();
    }

    /// Raises the level of the innermost frame. NotGreater exactly where it is above `l`.
    pub fn raise(&mut self, l: Level) -> Result<(), Refusal>
        requires { IsSome (innermost self.old) }
        ensures when { IsOk result ↔ (refusal_in (Command.Raise l) self.old ≡ None) }
        ensures why { IfErr result (λ r. refusal_in (Command.Raise l) self.old ≡ Some r) }
        ensures ok { OnOk result (self.new ≡ at_innermost (done_to (Command.Raise l)) self.old) }
        ensures same { OnErr result (self.new ≡ self.old) }
    {
        self.accepted(&Command::Raise(l))?;
        self.change(&Change::SetLevel(l));
        Ok(())
    }

    /// Lowers the level of the innermost frame. NotLess exactly where it is below `l`, else
    /// BelowBase exactly where `l` is below the level at which the present routine began, else
    /// LockHeld exactly where the frame holds a lock and `l` is below DISPATCH_LEVEL.
    pub fn lower(&mut self, l: Level) -> Result<(), Refusal>
        requires { IsSome (innermost self.old) }
        ensures when { IsOk result ↔ (refusal_in (Command.Lower l) self.old ≡ None) }
        ensures why { IfErr result (λ r. refusal_in (Command.Lower l) self.old ≡ Some r) }
        ensures ok { OnOk result (self.new ≡ at_innermost (done_to (Command.Lower l)) self.old) }
        ensures same { OnErr result (self.new ≡ self.old) }
    {
        self.accepted(&Command::Lower(l))?;
        self.change(&Change::SetLevel(l));
        Ok(())
    }

    /// The running thread enters a region, which counts for its innermost frame. NotThread exactly
    /// where that stands on no thread's part, else TooHigh exactly above APC_LEVEL.
    pub fn enter(&mut self, r: Region) -> Result<(), Refusal>
        requires { count_of r (regions_in self.old) < 4294967295 }
        ensures when { IsOk result ↔ (refusal_in (enter_of r) self.old ≡ None) }
        ensures why { IfErr result (λ why. refusal_in (enter_of r) self.old ≡ Some why) }
        ensures ok { OnOk result (self.new ≡ at_innermost (done_to (enter_of r)) self.old) }
        ensures same { OnErr result (self.new ≡ self.old) }
    {
        let entered = self.accepted(&enter_command(r))?.entered(r);
        self.change(&Change::SetEntered(r, entered + 1));
        Ok(())
    }

    /// The running thread leaves a region that its innermost frame entered. NotThread exactly where
    /// that stands on no thread's part, else TooHigh exactly above APC_LEVEL, else NotEntered
    /// exactly where the frame has no open entry of the kind. True exactly where the thread's count
    /// of the kind came to 0, which asks for kernel APCs.
    pub fn leave(&mut self, r: Region) -> Result<bool, Refusal>
        ensures when { IsOk result ↔ (refusal_in (leave_of r) self.old ≡ None) }
        ensures why { IfErr result (λ why. refusal_in (leave_of r) self.old ≡ Some why) }
        ensures asks { IfOk result (λ asks. asks ≡ (count_of r (regions_in self.old) == 1)) }
        ensures ok { OnOk result (self.new ≡ at_innermost (done_to (leave_of r)) self.old) }
        ensures same { OnErr result (self.new ≡ self.old) }
    {
        let entered = self.accepted(&leave_command(r))?.entered(r);
        let before = self.regions();
        self.change(&Change::SetEntered(r, entered - 1));
        Ok(count(r, &before) == 1)
    }

    /// The thread runs from here on.
    pub fn switch_to(&mut self, t: ThreadNo)
        requires idle { self.old.running ≡ None }
        requires thread { t.0 < length self.old.threads }
        ensures { self.new ≡ record self.old { running = Some t } }
    {
        self.running = Some(t);
    }

    /// The running thread runs no more: it blocks or gives way. Its frames stay.
    pub fn switch_away(&mut self)
        requires { IsSome self.old.running }
        ensures { self.new ≡ record self.old { running = None } }
    {
        self.running = None;
    }

    /// The base routine of the running thread ends: the frame stays until [`Frames::gone`], at
    /// PASSIVE_LEVEL and with its regions given up.
    pub fn end_base(&mut self)
        requires base { IsTrue (is_at_base self.old) }
        requires runs { is_leaving self.old ≡ false }
        ensures { self.new ≡ at_innermost ended_base self.old }
    {
        self.change(&Change::EndBase);
    }

    /// The running thread is gone: its base frame is closed, and no thread runs.
    pub fn gone(&mut self)
        requires { IsTrue (is_leaving self.old) }
        ensures { self.new ≡ closed self.old }
    {
        if let Some(t) = self.running.take() {
            parts::clear(&mut self.threads, t);
        }
    }

    /// Sets the wait that the innermost frame has to take up again.
    pub fn set_again(&mut self, a: Option<Again>)
        requires { IsSome (innermost self.old) }
        ensures { self.new ≡ at_innermost (λ f. record f { again = a }) self.old }
    {
        self.change(&Change::SetAgain(a));
    }

    /// The innermost frame's routine has called one more command, and spins on no lock.
    #[inline(always)]
    pub fn advance_place(&mut self)
        requires frame { IsSome (innermost self.old) }
        requires place { ForSome (innermost self.old) (λ f. f.place < 4294967295) }
        ensures { self.new ≡ at_innermost advanced self.old }
    {
        self.change(&Change::AdvancePlace);
    }

    /// Whether the innermost frame may try the lock: TooHigh exactly above DISPATCH_LEVEL, else
    /// HeldHere exactly where the frame holds it.
    pub fn may_acquire(&self, l: LockNo) -> Result<(), Refusal>
        ensures when { IsOk result ↔ (refusal_in (Command.Acquire l) self.now ≡ None) }
        ensures why { IfErr result (λ why. refusal_in (Command.Acquire l) self.now ≡ Some why) }
    {
        self.accepted(&Command::Acquire(l))?;
        Ok(())
    }

    /// The innermost frame tried the lock, as it may, and got it or spins on it. Either way it is
    /// at DISPATCH_LEVEL from here on, and the level of just before the first try is kept with the
    /// lock.
    pub fn acquired(&mut self, l: LockNo, done: bool)
        requires lock { l.0 < 64 }
        requires frame { IsSome (innermost self.old) }
        requires accepted { refusal_in (Command.Acquire l) self.old ≡ None }
        ensures { self.new ≡ at_innermost (frame_acquired l done) self.old }
    {
        if done {
            self.change(&Change::Acquire(l));
        } else {
            self.change(&Change::SpinOn(l));
        }
    }

    /// The innermost frame frees the lock that it acquired last: it is at the level kept with it
    /// from here on. TooHigh exactly above DISPATCH_LEVEL, else NotLast exactly where the lock is
    /// not that one.
    pub fn unlock(&mut self, l: LockNo) -> Result<(), Refusal>
        ensures when { IsOk result ↔ (refusal_in (Command.Unlock l) self.old ≡ None) }
        ensures why { IfErr result (λ why. refusal_in (Command.Unlock l) self.old ≡ Some why) }
        ensures ok { OnOk result (self.new ≡ at_innermost freed self.old) }
        ensures same { OnErr result (self.new ≡ self.old) }
    {
        self.accepted(&Command::Unlock(l))?;
        self.change(&Change::Free);
        Ok(())
    }

    /// The lock that the innermost frame acquired last is freed at the end of its routine: it is at
    /// the level kept with it from here on. Tells which lock; None, and nothing is changed, exactly
    /// where it holds none.
    pub fn free(&mut self) -> Option<LockNo>
        ensures lock { result ≡ last_held_in self.old }
        ensures freed { self.new ≡ at_innermost freed self.old }
    {
        let lock = self.last_held();
        self.change(&Change::Free);
        lock
    }

    /// The innermost frame.
    #[inline(always)]
    pub fn top(&self) -> Option<&Frame>
        ensures value { option_copied result ≡ innermost self.now }
        ensures nested { AreNested self.now }
    {
        match self.own.innermost() {
            Some(frame) => Some(frame),
            None => self.running_part()?.innermost(),
        }
    }

    /// The innermost frame of the running thread's part.
    fn outermost_running(&self) -> Option<&Frame>
        ensures { option_copied result ≡ head_of (thread_part self.now) }
    {
        self.running_part()?.innermost()
    }

    /// The part of the running thread.
    fn running_part(&self) -> Option<&Part<4>>
        ensures value { option_copied result
            ≡ option_map (frames_in self.now.threads) self.now.running }
        ensures part { IfSome result (λ part. IsThreadPart part.now) }
    {
        match self.running {
            Some(t) => self.threads.get(t.0 as usize),
            None => None,
        }
    }

    /// The innermost frame, where it may call the command.
    #[inline(always)]
    fn accepted(&self, command: &Command) -> Result<&Frame, Refusal>
        ensures frame { IfOk result (λ f. innermost self.now ≡ Some f.now) }
        ensures when { OnOk result (refusal_in command.now self.now ≡ None) }
        ensures why { IfErr result (λ why. refusal_in command.now self.now ≡ Some why) }
        ensures nested { AreNested self.now }
    {
        let frame = self.top().ok_or(Refusal::NotThread)?;
        match self.refusal(command) {
            Some(why) => Err(why),
            None => Ok(frame),
        }
    }

    /// Makes the change of the innermost frame.
    #[inline(always)]
    fn change(&mut self, change: &Change)
        requires room { ForSome (innermost self.old) (MayChange change.now) }
        requires nested { KeepsNested change.now self.old }
        ensures { self.new ≡ at_innermost (changed change.now) self.old }
    {
        if !self.own.is_empty() {
            self.own.change(change);
        } else if let Some(t) = self.running {
            parts::change(&mut self.threads, t, change);
        }
    }

    fn drop_innermost(&mut self)
        ensures ended { self.new ≡ without_innermost self.old }
        ensures nested { AreNested self.old }
    {
        if !self.own.is_empty() {
            self.own.pop();
        } else if let Some(t) = self.running {
            parts::pop(&mut self.threads, t);
        }
    }
}

/// How often regions of the kind are entered.
fn count(r: Region, regions: &Regions) -> u32
    ensures { result ≡ count_of r regions.now }
{
    match r {
        Region::Crit => regions.crit,
        Region::Guard => regions.guard,
    }
}

fn enter_command(r: Region) -> Command
    ensures { result ≡ enter_of r }
{
    match r {
        Region::Crit => Command::EnterCrit,
        Region::Guard => Command::EnterGuard,
    }
}

fn leave_command(r: Region) -> Command
    ensures { result ≡ leave_of r }
{
    match r {
        Region::Crit => Command::LeaveCrit,
        Region::Guard => Command::LeaveGuard,
    }
}

/// The level of the first of these frames, else of the second; PASSIVE_LEVEL where there is
/// neither.
fn first_level(first: Option<&Frame>, second: Option<&Frame>) -> Level
    ensures { result ≡ option_map_or (λ f. f.level)
        (option_or (option_copied first.entry) (option_copied second.entry)) 0 }
{
    match first {
        Some(frame) => frame.level(),
        None => match second {
            Some(frame) => frame.level(),
            None => Level::PASSIVE,
        },
    }
}
