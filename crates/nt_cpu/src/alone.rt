//! Events that touch no lane.
ghost use Rattle.std.specs.Prelude.{◌≡◌, ◌<◌, ◌≤◌, ◌+◌, ◌^◌, ◌||◌, ℕ, IfSome, length};
ghost use Rattle.nt_event.specs.declared.events.Begun.{Begun};
ghost use Rattle.nt_event.specs.declared.events.What.{What};
ghost use Rattle.nt_event.specs.Frames.{level_in};
ghost use Rattle.nt_event.specs.Own.{stand_in};
ghost use Rattle.nt_event.specs.Robin.{look_values};
ghost use Rattle.nt_event.specs.Regions.{some_came_to_0};
ghost use Rattle.nt_event.specs.Lists.{value_at};
ghost use Rattle.nt_floor.specs.Views.{HasWord, View};
ghost use Rattle.nt_frame.specs.Nesting.{AreNamedBelow};
ghost use Rattle.nt_cpu.specs.Notices.{HasClass, notice_of};
ghost use Rattle.nt_cpu.specs.Alone.{IsAlone, IsMarkedFor, MayBe, alone_asks, alone_event};
ghost use Rattle.nt_cpu.specs.Alone.{ask_when as asked_when, call_asks as call_asks_of};
ghost use Rattle.nt_cpu.specs.Alone.{call_level as call_level_of, is_normal_end as ends_normal};
ghost use Rattle.nt_cpu.specs.Alone.{noticed as noticed_of};

use crate::cpu::Cpu;
use crate::notice::Notice;
use nt_event::{
    ApcKind, Asked, Begun, Body, Command, CpuNo, Event, Level, Reply, Rises, What, class,
};
use nt_floor::Words;
use nt_frame::Frame;

fn ask_when(test: bool, cpu: CpuNo, class: u8) -> Option<Asked>
    requires { class < 16 }
    ensures asks { result ≡ asked_when test cpu class }
    ensures class { IfSome result (λ a. a.class < 16) }
{
    if test {
        Some(Asked { cpu, class })
    } else {
        None
    }
}

/// The level after the call of a command.
fn call_level(command: &Command, reply: &Reply, old: Level) -> Level
    ensures { result ≡ call_level_of command.now reply.now old }
{
    if !matches!(reply, Reply::Done) {
        return old;
    }
    match command {
        Command::Raise(level) | Command::Lower(level) => *level,
        Command::EnterCrit | Command::EnterGuard => old,
        Command::LeaveCrit | Command::LeaveGuard => old,
        Command::Interrupt(_, _) | Command::Note(_) => old,
        Command::Queue(_) | Command::Unqueue(_) => old,
        Command::SetImportance(_, _) | Command::SetTarget(_, _) => old,
        Command::SetTimer(_, _, _) | Command::CancelTimer(_) | Command::Clock(_) => old,
        Command::InsertApc(_) | Command::RemoveApc(_) => old,
        Command::StartWait(_, _) | Command::Delay(_, _, _) | Command::Release(_) => old,
        Command::Alert(_, _) | Command::TestAlert(_) => old,
        Command::ToUser | Command::Yield => old,
        Command::Acquire(_) | Command::Unlock(_) => old,
    }
}

/// What is noticed beside what was seen: the values of a look, and the processor's own ask.
fn noticed<'w>(cpu: CpuNo, what: &'w What, asked: Option<Asked>, n: u64) -> Notice<'w>
    requires fits { n + 1 < 2 ^ 64 }
    requires class { IfSome asked (λ a. a.class < 16) }
    ensures value { (k : ℕ) → k < 16 → notice_of result k ≡ noticed_of cpu what.now asked n k }
    ensures class { HasClass result }
{
    if let What::Look { rises } = what {
        return Notice::Values(rises);
    }
    if let Some(asked) = asked {
        if asked.cpu.0 == cpu.0 {
            return Notice::Own {
                class: asked.class,
                value: n + 1,
            };
        }
    }
    Notice::Nothing
}

/// Marks the event of this number as asking for this.
fn mark<W: Words>(words: &mut W, asked: Option<Asked>, n: u64)
    requires word { IfSome asked (λ a. HasWord (W.view words.old) a.cpu a.class) }
    requires mine { W.drew words.old n }
    ensures marked { IsMarkedFor asked n (W.view words.old) (W.view words.new) }
    ensures grows { W.grows words.old words.new }
{
    if let Some(asked) = asked {
        words.mark(asked.cpu, asked.class, n);
    }
}

impl<'s> Cpu<'s> {
    /// What the call of a command asks for.
    #[inline(always)]
    fn call_asks(&self, command: &Command, reply: &Reply) -> Option<Asked>
        ensures asks { result
            ≡ call_asks_of (stand_in self.now.cpu self.now.own) command.now reply.now }
        ensures class { IfSome result (λ a. a.class < 16) }
    {
        if !reply.is_done() {
            return None;
        }
        match command {
            Command::LeaveCrit => ask_when(self.frames.regions().crit == 1, self.cpu, class::APC),
            Command::LeaveGuard => ask_when(self.frames.regions().guard == 1, self.cpu, class::APC),
            Command::Interrupt(cpu, level) => Some(Asked {
                cpu: *cpu,
                class: level.number(),
            }),
            Command::Raise(_) | Command::Lower(_) => None,
            Command::EnterCrit | Command::EnterGuard => None,
            Command::Queue(_) | Command::Unqueue(_) => None,
            Command::SetImportance(_, _) | Command::SetTarget(_, _) => None,
            Command::SetTimer(_, _, _) | Command::CancelTimer(_) | Command::Clock(_) => None,
            Command::InsertApc(_) | Command::RemoveApc(_) => None,
            Command::StartWait(_, _) | Command::Delay(_, _, _) | Command::Release(_) => None,
            Command::Alert(_, _) | Command::TestAlert(_) => None,
            Command::ToUser | Command::Yield | Command::Note(_) => None,
            Command::Acquire(_) | Command::Unlock(_) => None,
        }
    }

    /// Whether a normal kernel APC ends, where the innermost frame ends.
    #[inline(always)]
    fn ends_normal(&self) -> bool
        ensures { result ≡ ends_normal (stand_in self.now.cpu self.now.own).body }
    {
        match self.frames.top() {
            Some(frame) => matches!(frame.body(), Body::Apc(_, ApcKind::Normal)),
            None => false,
        }
    }

    /// Whether a normal kernel APC ends, or the running thread gives up its last region of a kind,
    /// where the innermost frame ends.
    #[inline(always)]
    fn end_asks(&self) -> bool
        ensures { result ≡ (ends_normal (stand_in self.now.cpu self.now.own).body
            || some_came_to_0 (stand_in self.now.cpu self.now.own).regions
            (stand_in self.now.cpu self.now.own).below) }
    {
        self.ends_normal() || self.frames.gives_up()
    }

    /// What an event that touches no lane asks for.
    #[inline(always)]
    fn asks(&self, what: &What) -> Option<Asked>
        ensures asks { result ≡ alone_asks (stand_in self.now.cpu self.now.own) what.now }
        ensures class { IfSome result (λ a. a.class < 16) }
    {
        match what {
            What::Call { command, reply, .. } => self.call_asks(command, reply),
            What::Normal { .. } => ask_when(self.frames.gives_up(), self.cpu, class::APC),
            What::End { .. } => ask_when(self.end_asks(), self.cpu, class::APC),
            What::Look { .. }
            | What::Begin { .. }
            | What::Expire { .. }
            | What::Fire { .. }
            | What::Clean { .. }
            | What::Switch { .. }
            | What::Rewait { .. }
            | What::Flush { .. }
            | What::Gone { .. }
            | What::Free { .. }
            | What::Rest => None,
        }
    }

    /// Makes the event that stands in its place and touches no lane: draws its number, marks what
    /// it asks for, and takes it up.
    #[inline(always)]
    pub(crate) fn make_alone<W: Words>(&mut self, words: &mut W, event: &Event)
        requires room { self.old.own.made < self.old.limit }
        requires drawable { 1 ≤ (W.view words.old).drawable }
        requires cpus { (W.view words.old).cpus ≡ self.old.script.cpus }
        requires named { AreNamedBelow (W.view words.old).next self.old.own.frames }
        requires event { event.now ≡ alone_event self.old.cpu event.now.what self.old.own.frames }
        requires may { MayBe self.old event.now.what }
        ensures made { (n : ℕ) × (u : View) ×
            IsAlone self.old self.new event.now.what n (W.view words.old) u (W.view words.new) }
        ensures grows { W.grows words.old words.new }
    {
        let asked = self.asks(&event.what);
        let n = words.draw(event);
        mark(words, asked, n);
        self.notice(&noticed(self.cpu, &event.what, asked, n));
        self.take_up(event, n, None);
    }

    /// Writes the event that notices these values.
    pub(crate) fn write_look(&self, rises: &Rises, event: &mut Event)
        ensures { event.new ≡ alone_event self.now.cpu (What.Look rises.now) self.now.own.frames }
    {
        *event = Event {
            cpu: self.cpu,
            thread: None,
            level: Level::PASSIVE,
            what: What::Look { rises: *rises },
        };
    }

    /// Writes the event that notices those of these values that are above what was seen. They are
    /// written where they are kept: made first and put then, all 16 would be copied twice.
    pub(crate) fn write_asked(&self, answers: &[u64], event: &mut Event)
        requires { length answers.now ≡ 16 }
        ensures { event.new ≡ alone_event self.now.cpu
            (What.Look (record { value = look_values self.now.own (value_at answers.now) }))
            self.now.own.frames }
    {
        self.write_look(
            &Rises {
                value: [0; class::COUNT],
            },
            event,
        );
        if let What::Look { rises } = &mut event.what {
            self.seen.write_below(answers, rises);
        }
    }

    /// Writes the event that calls this command in the innermost frame, which is refused or done at
    /// once.
    pub(crate) fn write_call(
        &self,
        frame: &Frame,
        command: &Command,
        reply: Reply,
        event: &mut Event,
    )
        requires { frame.now.level ≡ level_in self.now.own.frames }
        ensures { event.new ≡ alone_event self.now.cpu (What.Call frame.now.name command.now reply)
            self.now.own.frames }
    {
        *event = Event {
            cpu: self.cpu,
            thread: self.frames.running(),
            level: call_level(command, &reply, frame.level()),
            what: What::Call {
                frame: frame.name(),
                command: *command,
                reply,
            },
        };
    }

    /// Writes the event that begins the routine of an interrupt, for the ask of this number.
    pub(crate) fn write_interrupt(&self, level: Level, from: u64, event: &mut Event)
        ensures { event.new
            ≡ alone_event self.now.cpu (What.Begin (Begun.Int level) from) self.now.own.frames }
    {
        *event = Event {
            cpu: self.cpu,
            thread: self.frames.running(),
            level,
            what: What::Begin {
                begun: Begun::Int(level),
                from,
            },
        };
    }

    /// Writes the event that goes on to the normal routine.
    pub(crate) fn write_normal(&self, frame: u64, event: &mut Event)
        ensures { event.new ≡ alone_event self.now.cpu (What.Normal frame) self.now.own.frames }
    {
        *event = Event {
            cpu: self.cpu,
            thread: self.frames.running(),
            level: Level::PASSIVE,
            what: What::Normal { frame },
        };
    }

    /// Writes the event that ends the routine.
    pub(crate) fn write_end(&self, frame: u64, event: &mut Event)
        ensures { event.new ≡ alone_event self.now.cpu (What.End frame) self.now.own.frames }
    {
        *event = Event {
            cpu: self.cpu,
            thread: self.frames.running(),
            level: self.frames.ended_level(),
            what: What::End { frame },
        };
    }
}
