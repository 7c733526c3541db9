//! Lines of reasons, and the line of the next event of a processor.
ghost use Rattle.std.specs.Prelude.{◌≡◌, List, OnOk};
ghost use Rattle.nt_event.specs.declared.events.Event.{Event};
ghost use Rattle.nt_event.specs.declared.events.Turn.{Turn};
ghost use Rattle.nt_event.specs.Step.{step};
ghost use Rattle.nt_plain.specs.States.{view_of};
ghost use Rattle.nt_cpus.specs.Following.{AreAfter};
ghost use Rattle.nt_why.specs.Lined.{IsWhat, next_reason, put_to, with_all, with_each, with_place};
ghost use Rattle.nt_why.specs.Lined.{with_processor};

use crate::reasons::{Reason, add};
use nt_cpu::no_event;
use nt_cpus::Processors;
use nt_event::{CpuNo, ScheduleKind, Turn, What};
use nt_plain::PlainFloor;
use std::alloc::AllocError;

/// What the processor's next event does, or why it has none.
pub(crate) fn next_of(
    processors: &mut Processors<'_>,
    floor: &mut PlainFloor<'_>,
    p: CpuNo,
) -> Result<What, ScheduleKind>
    requires { (past : List Event) ×
        AreAfter past processors.old floor.old.script (view_of floor.old) }
    ensures { (past : List Event) →
        AreAfter past processors.old floor.old.script (view_of floor.old) →
        IsWhat (step processors.old.script processors.old.limit (Turn.Next p) past) result }
{
    let mut event = no_event();
    match processors.turn(floor, &Turn::Next(p), &mut event) {
        Ok(()) => Ok(event.what),
        Err(refusal) => Err(refusal.kind()),
    }
}

/// The line of the next event.
pub(crate) fn next_line(p: CpuNo, next: &Result<What, ScheduleKind>) -> Reason
    ensures { result ≡ next_reason p next.now }
{
    match next {
        Ok(what) => Reason::Next {
            cpu: p,
            what: *what,
        },
        Err(kind) => Reason::NoNext {
            cpu: p,
            kind: *kind,
        },
    }
}

/// What lies ahead on a processor.
#[derive(Clone, Copy)]
pub(crate) struct Ahead {
    /// The number of the event that noticed the last request of a class; None where it was so from
    /// the start.
    pub noticed: Option<u64>,
    /// What its next event does, or why it has none.
    pub next: Result<What, ScheduleKind>,
}

/// The lines of the tests of a thing, where there is something to say.
#[derive(Clone, Copy)]
pub(crate) struct Lines {
    pub first: Option<Reason>,
    pub runs: Option<Reason>,
    pub regions: Option<Reason>,
    pub level: Option<Reason>,
    pub cut: Option<Reason>,
    pub insert: Option<Reason>,
    pub asked: Option<Reason>,
}

/// Puts a line at the end; where the thing is free, none that says what holds it back.
fn put(reasons: &mut Vec<Reason>, free: bool, line: Option<Reason>) -> Result<(), AllocError>
    ensures { OnOk result (reasons.new.items ≡ put_to free line reasons.old.items) }
{
    match line {
        Some(reason) => {
            if free && reason.holds_back() {
                return Ok(());
            }
            add(reasons, reason)
        }
        None => Ok(()),
    }
}

/// Puts the lines of the thing's own place at the end.
fn put_place(reasons: &mut Vec<Reason>, free: bool, lines: &Lines) -> Result<(), AllocError>
    ensures { OnOk result (reasons.new.items ≡ with_place free lines.now reasons.old.items) }
{
    put(reasons, free, lines.first)?;
    put(reasons, free, lines.runs)?;
    put(reasons, free, lines.regions)
}

/// Puts the lines of its processor at the end.
fn put_processor(reasons: &mut Vec<Reason>, free: bool, lines: &Lines) -> Result<(), AllocError>
    ensures { OnOk result (reasons.new.items ≡ with_processor free lines.now reasons.old.items) }
{
    put(reasons, free, lines.level)?;
    put(reasons, free, lines.cut)?;
    put(reasons, free, lines.insert)?;
    put(reasons, free, lines.asked)
}

/// Puts the lines at the end; where the thing is free, none that says what holds it back.
pub(crate) fn put_each(
    reasons: &mut Vec<Reason>,
    free: bool,
    lines: &Lines,
) -> Result<(), AllocError>
    ensures { OnOk result (reasons.new.items ≡ with_each free lines.now reasons.old.items) }
{
    put_place(reasons, free, lines)?;
    put_processor(reasons, free, lines)
}

/// Puts the lines at the end; where the thing is free, none that says what holds it back. Else the
/// line of the next event comes behind them.
pub(crate) fn put_all(
    reasons: &mut Vec<Reason>,
    free: bool,
    lines: &Lines,
    next: Reason,
) -> Result<(), AllocError>
    ensures { OnOk result
        (reasons.new.items ≡ with_all free lines.now next reasons.old.items) }
{
    put_place(reasons, free, lines)?;
    put_processor(reasons, free, lines)?;
    if free {
        return Ok(());
    }
    add(reasons, next)
}
