//! Why a thread doesn't run.
ghost use Rattle.std.specs.List.{All};
ghost use Rattle.std.specs.Prelude.{◌≡◌, ◌<◌, [], IfSome, List, OnOk, false, true};
ghost use Rattle.nt_event.specs.declared.events.Event.{Event};
ghost use Rattle.nt_event.specs.declared.events.Turn.{Turn};
ghost use Rattle.nt_event.specs.Routines.{cpu_of as cpu_of_in};
ghost use Rattle.nt_event.specs.Step.{step};
ghost use Rattle.nt_event.specs.Threads.{ready_doing};
ghost use Rattle.nt_plain.specs.States.{view_of};
ghost use Rattle.nt_cpus.specs.Following.{AreAfter};
ghost use Rattle.nt_why.specs.Courses.{AreWholeOf, IsCourse, IsOn, IsTrueOf, past_on};
ghost use Rattle.nt_why.specs.Lined.{AreTrue};
ghost use Rattle.nt_why.specs.Threads.{refusal_of, runs_there, taken_line};
ghost use Rattle.nt_why.specs.Watches.{since as since_in};
ghost use Rattle.nt_why.specs.declared.things.Thing.{Thing};
ghost use Rattle.nt_why.specs.declared.watch.Watch.{Watch as Watched};

use crate::apcs::{does_of, is_thread};
use crate::lines::{Lines, put_each};
use crate::question::Course;
use crate::reasons::{Away, Reason, add};
use crate::sought::{Sought, begun_by, first_from};
use crate::standing::stood;
use crate::watch::{Watch, cpu_of, doing, follow};
use nt_cpu::{Cpu, no_event};
use nt_cpus::Processors;
use nt_event::{CpuNo, Doing, ScheduleKind, ThreadNo, Turn};
use nt_plain::PlainFloor;
use std::alloc::{AllocError, Global};

/// What lies ahead of a thread.
#[derive(Clone, Copy)]
pub(crate) struct Taking {
    /// The number of the event since which it does what it does; None where it was so from the
    /// start.
    pub since: Option<u64>,
    /// Why the turn that takes it up is refused, where it is.
    pub refused: Option<ScheduleKind>,
}

fn is_ready(doing: &Doing) -> bool
    ensures { result ≡ ready_doing doing.now }
{
    match doing {
        Doing::Ready { .. } => true,
        Doing::Running | Doing::Blocked(_) | Doing::Gone => false,
    }
}

/// Why the turn that takes up the thread on the processor is refused, where it is.
fn refused_of(
    processors: &mut Processors<'_>,
    floor: &mut PlainFloor<'_>,
    p: CpuNo,
    t: ThreadNo,
) -> Option<ScheduleKind>
    requires { (past : List Event) ×
        AreAfter past processors.old floor.old.script (view_of floor.old) }
    ensures { (past : List Event) →
        AreAfter past processors.old floor.old.script (view_of floor.old) → result
        ≡ refusal_of (step processors.old.script processors.old.limit (Turn.Switch p t) past) }
{
    let mut event = no_event();
    match processors.turn(floor, &Turn::Switch(p, t), &mut event) {
        Ok(()) => None,
        Err(refusal) => Some(refusal.kind()),
    }
}

/// What the thread does since this event, where it doesn't run.
fn state_line(
    course: &Course<'_>,
    p: CpuNo,
    t: ThreadNo,
    cpu: &Cpu<'_>,
    floor: &PlainFloor<'_>,
    since: Option<u64>,
) -> Option<Reason>
    ensures { IfSome result (λ r. IsOn course.now p cpu.now floor.now →
        cpu_of_in course.now.script.now t ≡ p →
        since ≡ since_in course.now.script.now (Watched.Doing t) (past_on course.now) →
        IsTrueOf course.now (Thing.Thread t) r) }
{
    let _course = course;
    let runs = cpu.frames().running();
    if is_thread(runs, t) {
        return None;
    }
    let doing = doing(floor, t);
    let away = Away {
        cpu: p,
        thread: t,
        does: does_of(&doing),
        since,
        runs,
    };
    if is_ready(&doing) && runs.is_none() {
        Some(Reason::Ready(away))
    } else {
        Some(Reason::NotRunning(away))
    }
}

/// The ready thread that the round-robin rule takes up before it, where there is one.
fn robin_line(
    course: &Course<'_>,
    p: CpuNo,
    t: ThreadNo,
    cpu: &Cpu<'_>,
    floor: &PlainFloor<'_>,
) -> Option<Reason>
    ensures { IfSome result (λ r. IsOn course.now p cpu.now floor.now →
        cpu_of_in course.now.script.now t ≡ p → IsTrueOf course.now (Thing.Thread t) r) }
{
    let _course = course;
    let first = floor.next_ready(p, cpu.took())?;
    if first.0 == t.0 {
        return None;
    }
    Some(Reason::TakenFirst { cpu: p, first })
}

/// How the processor stands since this event, and whether a frame stands on its own part.
fn own_line(
    course: &Course<'_>,
    p: CpuNo,
    t: ThreadNo,
    cpu: &Cpu<'_>,
    floor: &PlainFloor<'_>,
    since: Option<u64>,
) -> Option<Reason>
    ensures { IfSome result (λ r. IsOn course.now p cpu.now floor.now →
        cpu_of_in course.now.script.now t ≡ p →
        since ≡ since_in course.now.script.now (Watched.Stand p) (past_on course.now) →
        IsTrueOf course.now (Thing.Thread t) r) }
{
    let _course = course;
    let _thread = t;
    let _floor = floor;
    let stood = stood(p, cpu, since);
    if cpu.frames().has_own() {
        Some(Reason::OnOwn(stood))
    } else {
        Some(Reason::Stands(stood))
    }
}

/// That the processor is cut, where it is.
fn cut_line(
    course: &Course<'_>,
    p: CpuNo,
    t: ThreadNo,
    cpu: &Cpu<'_>,
    floor: &PlainFloor<'_>,
) -> Option<Reason>
    ensures { IfSome result (λ r. IsOn course.now p cpu.now floor.now →
        cpu_of_in course.now.script.now t ≡ p → IsTrueOf course.now (Thing.Thread t) r) }
{
    let _thread = t;
    let _floor = floor;
    if course.turns <= cpu.made() {
        Some(Reason::Cut(p))
    } else {
        None
    }
}

/// That the processor has to do something else first, where this alone keeps it from taking up a
/// thread.
fn must_line(
    course: &Course<'_>,
    p: CpuNo,
    t: ThreadNo,
    cpu: &Cpu<'_>,
    floor: &PlainFloor<'_>,
) -> Option<Reason>
    ensures { IfSome result (λ r. IsOn course.now p cpu.now floor.now →
        cpu_of_in course.now.script.now t ≡ p → IsTrueOf course.now (Thing.Thread t) r) }
{
    let _thread = t;
    let _floor = floor;
    let may = cpu.may_switch();
    let cut = course.turns <= cpu.made();
    if may || cut || cpu.frames().running().is_some() || cpu.frames().has_own() {
        None
    } else {
        Some(Reason::MustFirst(p))
    }
}

/// That the turn that takes up the thread is refused, where it is.
fn refused_line(
    course: &Course<'_>,
    p: CpuNo,
    t: ThreadNo,
    refused: Option<ScheduleKind>,
) -> Option<Reason>
    ensures told { IfSome result (λ r. cpu_of_in course.now.script.now t ≡ p →
        refused ≡ refusal_of
        (step course.now.script.now course.now.turns (Turn.Switch p t) (past_on course.now)) →
        IsTrueOf course.now (Thing.Thread t) r) }
    ensures last { result ≡ taken_line p refused }
{
    let _course = course;
    let _thread = t;
    match refused {
        Some(kind) => Some(Reason::NotTaken { cpu: p, kind }),
        None => None,
    }
}

/// The lines of the tests, where the processor stands as it does since this event.
fn lines_of(
    course: &Course<'_>,
    p: CpuNo,
    t: ThreadNo,
    cpu: &Cpu<'_>,
    floor: &PlainFloor<'_>,
    since: Option<u64>,
    ahead: &Taking,
) -> Lines
    requires on { IsOn course.now p cpu.now floor.now }
    requires place { cpu_of_in course.now.script.now t ≡ p }
    requires stood { since ≡
        since_in course.now.script.now (Watched.Stand p) (past_on course.now) }
    requires since { ahead.now.since ≡
        since_in course.now.script.now (Watched.Doing t) (past_on course.now) }
    requires refused { ahead.now.refused ≡ refusal_of
        (step course.now.script.now course.now.turns (Turn.Switch p t) (past_on course.now)) }
    ensures told { AreTrue (IsTrueOf course.now (Thing.Thread t)) result }
    ensures last { result.asked ≡ taken_line p ahead.now.refused }
{
    Lines {
        first: None,
        runs: state_line(course, p, t, cpu, floor, ahead.since),
        regions: robin_line(course, p, t, cpu, floor),
        level: own_line(course, p, t, cpu, floor, since),
        cut: cut_line(course, p, t, cpu, floor),
        insert: must_line(course, p, t, cpu, floor),
        asked: refused_line(course, p, t, ahead.refused),
    }
}

/// Puts what is told of a thread that runs at the end of an empty list.
fn put_running(
    course: &Course<'_>,
    p: CpuNo,
    t: ThreadNo,
    cpu: &Cpu<'_>,
    floor: &PlainFloor<'_>,
    reasons: &mut Vec<Reason>,
) -> Result<(), AllocError>
    requires on { IsOn course.now p cpu.now floor.now }
    requires place { cpu_of_in course.now.script.now t ≡ p }
    requires none { reasons.old.items ≡ [] }
    requires runs { runs_there course.now.script.now (past_on course.now) t ≡ true }
    ensures told { OnOk result (All (IsTrueOf course.now (Thing.Thread t)) reasons.new.items) }
    ensures whole { OnOk result (AreWholeOf course.now (Thing.Thread t) reasons.new.items) }
{
    let _course = course;
    let _p = p;
    let _cpu = cpu;
    let _floor = floor;
    add(reasons, Reason::Runs(t))
}

/// Puts the lines of a thread that doesn't run at the end of an empty list.
fn put_waiting(
    course: &Course<'_>,
    p: CpuNo,
    t: ThreadNo,
    cpu: &Cpu<'_>,
    floor: &PlainFloor<'_>,
    since: Option<u64>,
    ahead: &Taking,
    reasons: &mut Vec<Reason>,
) -> Result<(), AllocError>
    requires on { IsOn course.now p cpu.now floor.now }
    requires place { cpu_of_in course.now.script.now t ≡ p }
    requires stood { since ≡
        since_in course.now.script.now (Watched.Stand p) (past_on course.now) }
    requires since { ahead.now.since ≡
        since_in course.now.script.now (Watched.Doing t) (past_on course.now) }
    requires refused { ahead.now.refused ≡ refusal_of
        (step course.now.script.now course.now.turns (Turn.Switch p t) (past_on course.now)) }
    requires none { reasons.old.items ≡ [] }
    requires waits { runs_there course.now.script.now (past_on course.now) t ≡ false }
    ensures told { OnOk result (All (IsTrueOf course.now (Thing.Thread t)) reasons.new.items) }
    ensures whole { OnOk result (AreWholeOf course.now (Thing.Thread t) reasons.new.items) }
{
    let free = ahead.refused.is_none();
    let lines = lines_of(course, p, t, cpu, floor, since, ahead);
    put_each(reasons, free, &lines)
}

/// Puts the lines of a thread at the end of an empty list, where its processor stands as it does
/// since this event.
fn put_lines(
    course: &Course<'_>,
    p: CpuNo,
    t: ThreadNo,
    cpu: &Cpu<'_>,
    floor: &PlainFloor<'_>,
    since: Option<u64>,
    ahead: &Taking,
    reasons: &mut Vec<Reason>,
) -> Result<(), AllocError>
    requires on { IsOn course.now p cpu.now floor.now }
    requires place { cpu_of_in course.now.script.now t ≡ p }
    requires stood { since ≡
        since_in course.now.script.now (Watched.Stand p) (past_on course.now) }
    requires since { ahead.now.since ≡
        since_in course.now.script.now (Watched.Doing t) (past_on course.now) }
    requires refused { ahead.now.refused ≡ refusal_of
        (step course.now.script.now course.now.turns (Turn.Switch p t) (past_on course.now)) }
    requires none { reasons.old.items ≡ [] }
    ensures told { OnOk result (All (IsTrueOf course.now (Thing.Thread t)) reasons.new.items) }
    ensures whole { OnOk result (AreWholeOf course.now (Thing.Thread t) reasons.new.items) }
{
    if is_thread(cpu.frames().running(), t) {
        return put_running(course, p, t, cpu, floor, reasons);
    }
    put_waiting(course, p, t, cpu, floor, since, ahead, reasons)
}

/// Takes the turns of the events that count over processors and a floor that made none, and tries
/// the one that takes up the thread.
fn look_ahead(
    processors: &mut Processors<'_>,
    floor: &mut PlainFloor<'_>,
    course: &Course<'_>,
    p: CpuNo,
    t: ThreadNo,
) -> Taking
    requires start { AreAfter [] processors.old floor.old.script (view_of floor.old) }
    requires course { IsCourse course.now }
    requires script { processors.old.script ≡ course.now.script.now }
    requires limit { processors.old.limit ≡ course.now.turns }
    requires cpu { p.0 < course.now.script.now.cpus }
    ensures since { result.since ≡
        since_in course.now.script.now (Watched.Doing t) (past_on course.now) }
    ensures refused { result.refused ≡ refusal_of
        (step course.now.script.now course.now.turns (Turn.Switch p t) (past_on course.now)) }
{
    let since = follow(
        processors,
        floor,
        &course.events,
        course.end,
        &Watch::Doing(t),
    );
    Taking {
        since,
        refused: refused_of(processors, floor, p, t),
    }
}

/// Takes the turns of the events that count over processors and a floor that made none, and puts
/// the lines of a thread at the end of an empty list.
fn tell(
    processors: &mut Processors<'_>,
    floor: &mut PlainFloor<'_>,
    course: &Course<'_>,
    p: CpuNo,
    t: ThreadNo,
    ahead: &Taking,
    reasons: &mut Vec<Reason>,
) -> Result<(), AllocError>
    requires start { AreAfter [] processors.old floor.old.script (view_of floor.old) }
    requires course { IsCourse course.now }
    requires script { processors.old.script ≡ course.now.script.now }
    requires limit { processors.old.limit ≡ course.now.turns }
    requires cpu { p.0 < course.now.script.now.cpus }
    requires place { cpu_of_in course.now.script.now t ≡ p }
    requires since { ahead.now.since ≡
        since_in course.now.script.now (Watched.Doing t) (past_on course.now) }
    requires refused { ahead.now.refused ≡ refusal_of
        (step course.now.script.now course.now.turns (Turn.Switch p t) (past_on course.now)) }
    requires none { reasons.old.items ≡ [] }
    ensures told { OnOk result (All (IsTrueOf course.now (Thing.Thread t)) reasons.new.items) }
    ensures whole { OnOk result (AreWholeOf course.now (Thing.Thread t) reasons.new.items) }
{
    let since = follow(
        processors,
        floor,
        &course.events,
        course.end,
        &Watch::Stand(p),
    );
    let cpu = cpu_of(processors, p);
    put_lines(course, p, t, cpu, floor, since, ahead, reasons)
}

/// Puts the lines of a thread at the end of an empty list, where this lies ahead of it.
fn put_with(
    alloc: Global,
    course: &Course<'_>,
    p: CpuNo,
    t: ThreadNo,
    ahead: &Taking,
    reasons: &mut Vec<Reason>,
) -> Result<(), AllocError>
    requires course { IsCourse course.now }
    requires cpu { p.0 < course.now.script.now.cpus }
    requires place { cpu_of_in course.now.script.now t ≡ p }
    requires since { ahead.now.since ≡
        since_in course.now.script.now (Watched.Doing t) (past_on course.now) }
    requires refused { ahead.now.refused ≡ refusal_of
        (step course.now.script.now course.now.turns (Turn.Switch p t) (past_on course.now)) }
    requires none { reasons.old.items ≡ [] }
    ensures told { OnOk result (All (IsTrueOf course.now (Thing.Thread t)) reasons.new.items) }
    ensures whole { OnOk result (AreWholeOf course.now (Thing.Thread t) reasons.new.items) }
{
    let mut processors = Processors::new(alloc, course.script, course.turns)?;
    let mut floor = PlainFloor::new(alloc, course.script, course.turns)?;
    tell(&mut processors, &mut floor, course, p, t, ahead, reasons)
}

/// Finds what lies ahead over processors and a floor that made no event, and puts the lines of a
/// thread at the end of an empty list.
fn put_ahead(
    alloc: Global,
    processors: &mut Processors<'_>,
    floor: &mut PlainFloor<'_>,
    course: &Course<'_>,
    p: CpuNo,
    t: ThreadNo,
    reasons: &mut Vec<Reason>,
) -> Result<(), AllocError>
    requires start { AreAfter [] processors.old floor.old.script (view_of floor.old) }
    requires course { IsCourse course.now }
    requires script { processors.old.script ≡ course.now.script.now }
    requires limit { processors.old.limit ≡ course.now.turns }
    requires cpu { p.0 < course.now.script.now.cpus }
    requires place { cpu_of_in course.now.script.now t ≡ p }
    requires none { reasons.old.items ≡ [] }
    ensures told { OnOk result (All (IsTrueOf course.now (Thing.Thread t)) reasons.new.items) }
    ensures whole { OnOk result (AreWholeOf course.now (Thing.Thread t) reasons.new.items) }
{
    let ahead = look_ahead(processors, floor, course, p, t);
    put_with(alloc, course, p, t, &ahead, reasons)
}

/// Puts the lines of a thread of a processor of the script at the end of an empty list.
fn put_there(
    alloc: Global,
    course: &Course<'_>,
    p: CpuNo,
    t: ThreadNo,
    reasons: &mut Vec<Reason>,
) -> Result<(), AllocError>
    requires course { IsCourse course.now }
    requires cpu { p.0 < course.now.script.now.cpus }
    requires place { cpu_of_in course.now.script.now t ≡ p }
    requires none { reasons.old.items ≡ [] }
    ensures told { OnOk result (All (IsTrueOf course.now (Thing.Thread t)) reasons.new.items) }
    ensures whole { OnOk result (AreWholeOf course.now (Thing.Thread t) reasons.new.items) }
{
    let mut processors = Processors::new(alloc, course.script, course.turns)?;
    let mut floor = PlainFloor::new(alloc, course.script, course.turns)?;
    put_ahead(alloc, &mut processors, &mut floor, course, p, t, reasons)
}

/// Puts the lines of a thread at the end of an empty list; that the script lacks its processor,
/// where it does.
fn put_where(
    alloc: Global,
    course: &Course<'_>,
    p: CpuNo,
    t: ThreadNo,
    reasons: &mut Vec<Reason>,
) -> Result<(), AllocError>
    requires course { IsCourse course.now }
    requires place { cpu_of_in course.now.script.now t ≡ p }
    requires none { reasons.old.items ≡ [] }
    ensures told { OnOk result (All (IsTrueOf course.now (Thing.Thread t)) reasons.new.items) }
    ensures whole { OnOk result (AreWholeOf course.now (Thing.Thread t) reasons.new.items) }
{
    if p.0 < course.script.cpus {
        return put_there(alloc, course, p, t, reasons);
    }
    let none = Reason::NotTaken {
        cpu: p,
        kind: ScheduleKind::NoSuchCpu,
    };
    add(reasons, none)
}

/// Puts which event takes up the thread next, or that none does, at the end.
fn put_then(course: &Course<'_>, t: ThreadNo, reasons: &mut Vec<Reason>) -> Result<(), AllocError>
    requires told { All (IsTrueOf course.now (Thing.Thread t)) reasons.old.items }
    requires whole { AreWholeOf course.now (Thing.Thread t) reasons.old.items }
    ensures told { OnOk result (All (IsTrueOf course.now (Thing.Thread t)) reasons.new.items) }
    ensures whole { OnOk result (AreWholeOf course.now (Thing.Thread t) reasons.new.items) }
{
    let sought = Sought::Thread(t);
    let all = course.events.briefs.len();
    let first = first_from(&course.events, &sought, course.end, all);
    add(reasons, Reason::Then(begun_by(first)))
}

/// Puts what is told of the thread at the end of an empty list.
pub(crate) fn explain_thread(
    alloc: Global,
    course: &Course<'_>,
    t: ThreadNo,
    reasons: &mut Vec<Reason>,
) -> Result<(), AllocError>
    requires course { IsCourse course.now }
    requires none { reasons.old.items ≡ [] }
    ensures told { OnOk result (All (IsTrueOf course.now (Thing.Thread t)) reasons.new.items) }
    ensures whole { OnOk result (AreWholeOf course.now (Thing.Thread t) reasons.new.items) }
{
    let p = course.script.cpu_of(t);
    put_where(alloc, course, p, t, reasons)?;
    put_then(course, t, reasons)
}
