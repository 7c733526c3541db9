//! What a processor has to do next, as far as it knows alone.
ghost use Rattle.std.specs.Prelude.{◌≡◌, ◌<◌, ◌-◌, ◌&&◌, IfSome, Some, find, is_some, not};
ghost use Rattle.std.specs.Prelude.{option_copied};
ghost use Rattle.std.specs.Option.{option_map_or};
ghost use Rattle.nt_event.specs.declared.events.Begun.{Begun};
ghost use Rattle.nt_event.specs.declared.events.Event.{Event};
ghost use Rattle.nt_event.specs.declared.events.What.{What};
ghost use Rattle.nt_event.specs.Commands.{refusal as refusal_of};
ghost use Rattle.nt_event.specs.Frames.{innermost, thread_part};
ghost use Rattle.nt_event.specs.Jobs.{call_task as call_of, command_task as command_of};
ghost use Rattle.nt_event.specs.Jobs.{end_task as end_of, frame_task as frame_of};
ghost use Rattle.nt_event.specs.Jobs.{has_normal as goes_on, idle_task as idle_of};
ghost use Rattle.nt_event.specs.Jobs.{is_due as due_in, level_at, may_apcs as apcs_in};
ghost use Rattle.nt_event.specs.Jobs.{may_drain as drain_in, may_interrupt};
ghost use Rattle.nt_event.specs.Jobs.{may_switch as switch_in, may_threaded as threaded_in};
ghost use Rattle.nt_event.specs.Jobs.{must as must_in, must_task as must_of, task as task_of};
ghost use Rattle.nt_event.specs.Jobs.{waits_for_lock as waits_in_own};
ghost use Rattle.nt_event.specs.Classes.{interrupt_classes};
ghost use Rattle.nt_event.specs.Routines.{next_command as next_of};
ghost use Rattle.nt_event.specs.Regions.{regions_of};
ghost use Rattle.nt_event.specs.Lists.{is_null, value_at};
ghost use Rattle.nt_cpu.specs.Alone.{alone_event};
ghost use Rattle.nt_cpu.specs.Plans.{IsWritten, ServeFor, planned, task_in};

use crate::cpu::Cpu;
use crate::due::{above_level, is_due};
use crate::next::Next;
use nt_event::{ApcKind, Body, Command, Event, Job, Level, Refusal, Regions, Reply, class};
use nt_frame::{Frame, Frames, refusal};

impl<'s> Cpu<'s> {
    fn level(&self) -> Level
        ensures { result ≡ level_at self.now.own }
    {
        self.frames.level()
    }

    fn is_due(&self, class: u8) -> bool
        requires { class < 16 }
        ensures { result ≡ due_in self.now.own class }
    {
        is_due(&self.seen, &self.kept.served, class)
    }

    /// The greatest class of an interrupt that is due above this level, which is the processor's.
    fn due_interrupt(&self, level: Level) -> Option<u8>
        requires { level ≡ level_at self.now.own }
        ensures value { result ≡ find (may_interrupt self.now.own) interrupt_classes }
        ensures class { IfSome result (λ c. c < 16) }
        ensures asked { IfSome result (λ c. 0 < value_at self.now.own.seen c) }
    {
        above_level(level.number(), self.due)
    }

    /// Writes that the interrupt of this class begins, with the number of the ask that it serves.
    fn interrupt(&self, class: u8, event: &mut Event)
        requires level { class < 16 }
        requires asked { 0 < value_at self.now.own.seen class }
        ensures { event.new ≡ alone_event self.now.cpu
            (What.Begin (Begun.Int class) (value_at self.now.own.seen class - 1))
            self.now.own.frames }
    {
        match Level::new(class) {
            Some(level) => self.write_interrupt(level, self.seen.get(class) - 1, event),
            None => unreachable!(),
        }
    }

    /// DPCs and timers, below DISPATCH_LEVEL, where this is the level.
    fn may_drain(&self, level: Level) -> bool
        requires { level ≡ level_at self.now.own }
        ensures { result ≡ drain_in self.now.own }
    {
        level.number() < 2 && (self.is_due(class::DISPATCH) || self.kept.sweep)
    }

    /// Kernel APCs, at PASSIVE_LEVEL in a thread, where this is the level.
    fn may_apcs(&self, level: Level) -> bool
        requires { level ≡ level_at self.now.own }
        ensures { result ≡ apcs_in self.now.own }
    {
        level.number() == 0 && (self.frames.is_on_thread() && self.is_due(class::APC))
    }

    /// Threaded DPCs, at PASSIVE_LEVEL with no frame on the own part (profile), where this is the
    /// level.
    fn may_threaded(&self, level: Level) -> bool
        requires { level ≡ level_at self.now.own }
        ensures { result ≡ threaded_in self.now.own }
    {
        level.number() == 0 && (!self.frames.has_own() && self.is_due(class::THREADED))
    }

    /// What it must do before it goes on, at this level.
    fn must_task(&self, level: Level, event: &mut Event) -> Option<Next>
        requires { level ≡ level_at self.now.own }
        ensures task { planned event.new result ≡ must_of self.now.own }
        ensures written { IsWritten self.now event.old event.new result }
    {
        if let Some(dpc) = self.kept.fire {
            return Some(Next::Shared(Job::Fire(dpc)));
        }
        if let Some(class) = self.due_interrupt(level) {
            self.interrupt(class, event);
            return Some(Next::Alone);
        }
        if self.may_drain(level) {
            return Some(Next::Shared(Job::Drain));
        }
        if self.may_apcs(level) {
            return Some(Next::Shared(Job::Apcs));
        }
        if self.may_threaded(level) {
            return Some(Next::Shared(Job::Threaded));
        }
        None
    }

    /// Whether there is something that it must do before it goes on.
    pub(crate) fn must(&self) -> bool
        ensures { result ≡ must_in self.now.own }
    {
        let level = self.level();
        if self.kept.fire.is_some() || self.due_interrupt(level).is_some() {
            return true;
        }
        self.may_drain(level) || self.may_apcs(level) || self.may_threaded(level)
    }

    /// Whether this innermost frame spins, and no release was noticed since its last try. In a
    /// script without locks none does.
    fn waits_in(&self, frame: &Frame) -> bool
        requires { innermost self.now.own.frames ≡ Some frame.now }
        ensures { result ≡ (is_some frame.now.spin && not (due_in self.now.own 12)) }
    {
        if self.script.locks == 0 {
            return false;
        }
        frame.spin().is_some() && !self.is_due(class::LOCK)
    }

    /// Whether the innermost frame spins, and no release was noticed since its last try.
    pub(crate) fn waits_for_lock(&self) -> bool
        ensures { result ≡ waits_in_own self.now.own }
    {
        if self.script.locks == 0 {
            return false;
        }
        match self.frames.top() {
            Some(frame) => self.waits_in(frame),
            None => false,
        }
    }

    /// Whether no thread runs, no frame stands on the own part and nothing must be done.
    pub(crate) fn is_free(&self) -> bool
        ensures { result ≡ switch_in self.now.own }
    {
        self.frames.running().is_none() && (!self.frames.has_own() && !self.must())
    }

    /// The next command of a frame; a leaving base has none.
    fn next_command(&self, frame: &Frame) -> Option<Command>
        ensures { result ≡ next_of self.now.script self.now.cpu frame.now }
    {
        if frame.leaving() {
            return None;
        }
        self.script.command_at(self.cpu, frame.body(), frame.kernel_phase(), frame.place())
    }

    /// The next command of the innermost frame is refused, called alone, or a job.
    fn command_task(&self, frame: &Frame, event: &mut Event) -> Option<Next>
        requires { frame.now.level ≡ level_at self.now.own }
        ensures task { planned event.new result
            ≡ command_of self.now.own frame.now (next_of self.now.script self.now.cpu frame.now) }
        ensures written { IsWritten self.now event.old event.new result }
    {
        match self.next_command(frame) {
            Some(command) => Some(self.call_in(frame, &command, event)),
            None => None,
        }
    }

    /// The call of this command in this innermost frame.
    fn call_in(&self, frame: &Frame, command: &Command, event: &mut Event) -> Next
        requires { frame.now.level ≡ level_at self.now.own }
        ensures task { task_in event.new result
            ≡ call_of frame.now command.now (refusal_of (level_at self.now.own)
            (not (is_null self.now.own.frames.own)) (regions_of (thread_part self.now.own.frames))
            frame.now command.now) }
        ensures written { IsWritten self.now event.old event.new (Some result) }
    {
        let regions = regions_for(&self.frames, command);
        let refused = refusal(
            frame.level(),
            self.frames.has_own(),
            &regions,
            frame,
            command,
        );
        self.call_task(frame, command, refused, event)
    }

    /// The call is refused, begins a user APC at `touser`, needs lanes, or is done alone.
    fn call_task(
        &self,
        frame: &Frame,
        command: &Command,
        refusal: Option<Refusal>,
        event: &mut Event,
    ) -> Next
        requires { frame.now.level ≡ level_at self.now.own }
        ensures task { task_in event.new result ≡ call_of frame.now command.now refusal }
        ensures written { IsWritten self.now event.old event.new (Some result) }
    {
        let reply = match refusal {
            Some(refusal) => Reply::Refused(refusal),
            None => {
                if matches!(command, Command::ToUser) {
                    return Next::Shared(Job::ToUser);
                }
                if command.needs_lane() {
                    return Next::Shared(Job::Call(*command));
                }
                Reply::Done
            }
        };
        self.write_call(frame, command, reply, event);
        Next::Alone
    }

    /// What the innermost frame has to do.
    fn frame_task(&self, frame: &Frame, event: &mut Event) -> Option<Next>
        requires { frame.now.level ≡ level_at self.now.own }
        ensures task { planned event.new result
            ≡ frame_of self.now.script self.now.cpu self.now.own frame.now }
        ensures written { IsWritten self.now event.old event.new result }
    {
        if frame.again().is_some() {
            return Some(Next::Shared(Job::Rewait));
        }
        if frame.leaving() {
            return Some(Next::Shared(Job::Rundown));
        }
        let command = self.command_task(frame, event);
        if command.is_some() {
            return command;
        }
        if let Some(lock) = frame.last_held() {
            return Some(Next::Shared(Job::Free(lock)));
        }
        if frame.kernel_phase() && has_normal(frame.body()) {
            self.write_normal(frame.name(), event);
            return Some(Next::Alone);
        }
        Some(self.end_task(frame, event))
    }

    /// The frame ends.
    fn end_task(&self, frame: &Frame, event: &mut Event) -> Next
        ensures task { task_in event.new result ≡ end_of frame.now.name frame.now.body }
        ensures written { IsWritten self.now event.old event.new (Some result) }
    {
        match frame.body() {
            Body::Base(_) => Next::Shared(Job::Leave),
            Body::Apc(_, ApcKind::User) => Next::Shared(Job::UserEnd),
            Body::Int(_) | Body::Dpc(_) | Body::Threaded(_) | Body::Rundown(_) => {
                self.write_end(frame.name(), event);
                Next::Alone
            }
            Body::Apc(_, ApcKind::Special) | Body::Apc(_, ApcKind::Normal) => {
                self.write_end(frame.name(), event);
                Next::Alone
            }
        }
    }

    /// At rest with no running thread there is nothing to do; else ordinary DPCs, a needed Switch,
    /// or Rest.
    fn idle_task(&self) -> Option<Next>
        ensures task { (event : Event) → planned event result ≡ idle_of self.now.own }
        ensures unwritten { (event : Event) → IsWritten self.now event event result }
    {
        if !(self.kept.rested && self.frames.running().is_none()) {
            Some(Next::Shared(Job::Idle))
        } else {
            None
        }
    }

    /// What it has to do next, or None where there is nothing. An event that touches no lane is
    /// written.
    pub(crate) fn task(&self, event: &mut Event) -> Option<Next>
        ensures task { planned event.new result
            ≡ task_of self.now.script self.now.cpu self.now.own }
        ensures written { IsWritten self.now event.old event.new result }
    {
        let top = self.frames.top();
        let must = self.must_task(level_of(top), event);
        if must.is_some() {
            return must;
        }
        match top {
            Some(frame) => {
                if self.waits_in(frame) {
                    None
                } else {
                    self.frame_task(frame, event)
                }
            }
            None => self.idle_task(),
        }
    }
}

/// The level of this innermost frame; PASSIVE_LEVEL where there is none.
fn level_of(top: Option<&Frame>) -> Level
    ensures { result ≡ option_map_or (λ f. f.level) (option_copied top.entry) 0 }
{
    match top {
        Some(frame) => frame.level(),
        None => Level::PASSIVE,
    }
}

/// The regions of the running thread where the refusal of the command depends on them; else none.
fn regions_for(frames: &Frames, command: &Command) -> Regions
    ensures { ServeFor result command.now frames.now }
{
    if let Command::ToUser = command {
        return frames.regions();
    }
    Regions {
        crit: 0,
        guard: 0,
        busy: false,
    }
}

/// Whether it is an APC that goes on to a normal routine.
fn has_normal(body: &Body) -> bool
    ensures { result ≡ goes_on body.now }
{
    matches!(
        body,
        Body::Apc(_, ApcKind::Normal) | Body::Apc(_, ApcKind::User)
    )
}
