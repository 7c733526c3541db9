//! Why an interrupt has not begun on a processor.
ghost use Rattle.std.specs.List.{All};
ghost use Rattle.std.specs.Prelude.{◌≡◌, ◌<◌, [], IfSome, OnOk, false, true};
ghost use Rattle.nt_event.specs.declared.events.Turn.{Turn};
ghost use Rattle.nt_event.specs.Step.{step};
ghost use Rattle.nt_plain.specs.States.{view_of};
ghost use Rattle.nt_cpus.specs.Following.{AreAfter};
ghost use Rattle.nt_why.specs.Courses.{AreWholeOf, IsCourse, IsOn, IsTrueOf, past_on};
ghost use Rattle.nt_why.specs.Interrupts.{gives_begin_what, is_below as below_in};
ghost use Rattle.nt_why.specs.Interrupts.{is_wanted as wanted_in};
ghost use Rattle.nt_why.specs.Lined.{AreTrue, IsWhat};
ghost use Rattle.nt_why.specs.Watches.{since as since_in};
ghost use Rattle.nt_why.specs.declared.things.Thing.{Thing};
ghost use Rattle.nt_why.specs.declared.watch.Watch.{Watch as Watched};

use crate::lines::{Ahead, Lines, next_line, next_of, put_all};
use crate::question::Course;
use crate::reasons::{Reason, Request, add};
use crate::sought::{Sought, begins, begun_by, first_from};
use crate::standing::stood;
use crate::watch::{Watch, cpu_of, follow};
use nt_cpu::Cpu;
use nt_cpus::Processors;
use nt_event::{CpuNo, Level, ScheduleKind, What};
use nt_plain::PlainFloor;
use std::alloc::{AllocError, Global};

/// Whether that begins the interrupt of this level.
fn gives_begin(level: Level, next: &Result<What, ScheduleKind>) -> bool
    ensures { result ≡ gives_begin_what level next.now }
{
    match next {
        Ok(what) => begins(level, what),
        Err(_) => false,
    }
}

/// Whether the interrupt is asked for and not served.
fn is_wanted(
    course: &Course<'_>,
    p: CpuNo,
    level: Level,
    cpu: &Cpu<'_>,
    floor: &PlainFloor<'_>,
) -> bool
    requires on { IsOn course.now p cpu.now floor.now }
    ensures { result ≡ wanted_in course.now.script.now (past_on course.now) p level }
{
    let _course = course;
    let class = level.number();
    let seen = cpu.seen().value[usize::from(class)];
    seen < floor.asked(p, class) || cpu.served().value[usize::from(class)] < seen
}

/// Whether the interrupt was asked for and noticed, where the last request was noticed by this
/// event.
fn asked_line(
    course: &Course<'_>,
    p: CpuNo,
    level: Level,
    cpu: &Cpu<'_>,
    floor: &PlainFloor<'_>,
    since: Option<u64>,
) -> Option<Reason>
    ensures { IfSome result (λ r. IsOn course.now p cpu.now floor.now →
        since ≡ since_in course.now.script.now (Watched.Seen p level) (past_on course.now) →
        IsTrueOf course.now (Thing.Interrupt p level) r) }
{
    let _course = course;
    let class = level.number();
    let request = Request { cpu: p, class };
    let asked = floor.asked(p, class);
    let seen = cpu.seen().value[usize::from(class)];
    let served = cpu.served().value[usize::from(class)];
    if seen < asked {
        return Some(Reason::Unnoticed {
            request,
            at: asked - 1,
        });
    }
    if seen <= served {
        return Some(Reason::NotAsked(request));
    }
    if asked == 0 {
        return None;
    }
    Some(Reason::Noticed {
        request,
        at: asked - 1,
        since,
    })
}

/// Whether the level of the processor, as it stands since this event, lets the interrupt through.
fn level_line(
    course: &Course<'_>,
    p: CpuNo,
    level: Level,
    cpu: &Cpu<'_>,
    floor: &PlainFloor<'_>,
    since: Option<u64>,
) -> Reason
    ensures { IsOn course.now p cpu.now floor.now →
        since ≡ since_in course.now.script.now (Watched.Stand p) (past_on course.now) →
        IsTrueOf course.now (Thing.Interrupt p level) result }
{
    let _course = course;
    let _floor = floor;
    let stood = stood(p, cpu, since);
    if cpu.frames().level().number() < level.number() {
        Reason::Stands(stood)
    } else {
        Reason::TooHigh(stood)
    }
}

/// That the processor is cut, where it is.
fn cut_line(
    course: &Course<'_>,
    p: CpuNo,
    level: Level,
    cpu: &Cpu<'_>,
    floor: &PlainFloor<'_>,
) -> Option<Reason>
    ensures { IfSome result (λ r. IsOn course.now p cpu.now floor.now →
        IsTrueOf course.now (Thing.Interrupt p level) r) }
{
    let _level = level;
    let _floor = floor;
    if course.turns <= cpu.made() {
        Some(Reason::Cut(p))
    } else {
        None
    }
}

/// The lines of the tests, where the processor stands as it does since this event.
fn lines_of(
    course: &Course<'_>,
    p: CpuNo,
    level: Level,
    cpu: &Cpu<'_>,
    floor: &PlainFloor<'_>,
    since: Option<u64>,
    noticed: Option<u64>,
) -> Lines
    requires on { IsOn course.now p cpu.now floor.now }
    requires stood { since ≡
        since_in course.now.script.now (Watched.Stand p) (past_on course.now) }
    requires noticed { noticed ≡
        since_in course.now.script.now (Watched.Seen p level) (past_on course.now) }
    ensures { AreTrue (IsTrueOf course.now (Thing.Interrupt p level)) result }
{
    Lines {
        first: None,
        runs: None,
        regions: None,
        level: Some(level_line(course, p, level, cpu, floor, since)),
        cut: cut_line(course, p, level, cpu, floor),
        insert: None,
        asked: asked_line(course, p, level, cpu, floor, noticed),
    }
}

/// Puts what is told of an interrupt that isn't wanted at the end of an empty list.
fn put_unwanted(
    course: &Course<'_>,
    p: CpuNo,
    level: Level,
    cpu: &Cpu<'_>,
    floor: &PlainFloor<'_>,
    reasons: &mut Vec<Reason>,
) -> Result<(), AllocError>
    requires on { IsOn course.now p cpu.now floor.now }
    requires none { reasons.old.items ≡ [] }
    requires unwanted { wanted_in course.now.script.now (past_on course.now) p level ≡ false }
    ensures told { OnOk result
        (All (IsTrueOf course.now (Thing.Interrupt p level)) reasons.new.items) }
    ensures whole { OnOk result
        (AreWholeOf course.now (Thing.Interrupt p level) reasons.new.items) }
{
    let _course = course;
    let _cpu = cpu;
    let _floor = floor;
    let request = Request {
        cpu: p,
        class: level.number(),
    };
    add(reasons, Reason::NotAsked(request))
}

/// Puts the lines of an interrupt that is wanted at the end of an empty list, where this lies ahead
/// on its processor, which stands as it does since this event.
fn put_wanted(
    course: &Course<'_>,
    p: CpuNo,
    level: Level,
    cpu: &Cpu<'_>,
    floor: &PlainFloor<'_>,
    since: Option<u64>,
    ahead: &Ahead,
    reasons: &mut Vec<Reason>,
) -> Result<(), AllocError>
    requires on { IsOn course.now p cpu.now floor.now }
    requires stood { since ≡
        since_in course.now.script.now (Watched.Stand p) (past_on course.now) }
    requires noticed { ahead.now.noticed ≡
        since_in course.now.script.now (Watched.Seen p level) (past_on course.now) }
    requires next { IsWhat
        (step course.now.script.now course.now.turns (Turn.Next p) (past_on course.now))
        ahead.now.next }
    requires none { reasons.old.items ≡ [] }
    requires wanted { wanted_in course.now.script.now (past_on course.now) p level ≡ true }
    ensures told { OnOk result
        (All (IsTrueOf course.now (Thing.Interrupt p level)) reasons.new.items) }
    ensures whole { OnOk result
        (AreWholeOf course.now (Thing.Interrupt p level) reasons.new.items) }
{
    let free = gives_begin(level, &ahead.next);
    let lines = lines_of(course, p, level, cpu, floor, since, ahead.noticed);
    put_all(reasons, free, &lines, next_line(p, &ahead.next))
}

/// Puts the lines of an interrupt at the end of an empty list, where this lies ahead on its
/// processor, which stands as it does since this event.
fn put_lines(
    course: &Course<'_>,
    p: CpuNo,
    level: Level,
    cpu: &Cpu<'_>,
    floor: &PlainFloor<'_>,
    since: Option<u64>,
    ahead: &Ahead,
    reasons: &mut Vec<Reason>,
) -> Result<(), AllocError>
    requires on { IsOn course.now p cpu.now floor.now }
    requires stood { since ≡
        since_in course.now.script.now (Watched.Stand p) (past_on course.now) }
    requires noticed { ahead.now.noticed ≡
        since_in course.now.script.now (Watched.Seen p level) (past_on course.now) }
    requires next { IsWhat
        (step course.now.script.now course.now.turns (Turn.Next p) (past_on course.now))
        ahead.now.next }
    requires none { reasons.old.items ≡ [] }
    ensures told { OnOk result
        (All (IsTrueOf course.now (Thing.Interrupt p level)) reasons.new.items) }
    ensures whole { OnOk result
        (AreWholeOf course.now (Thing.Interrupt p level) reasons.new.items) }
{
    if is_wanted(course, p, level, cpu, floor) {
        return put_wanted(course, p, level, cpu, floor, since, ahead, reasons);
    }
    put_unwanted(course, p, level, cpu, floor, reasons)
}

/// Takes the turns of the events that count over processors and a floor that made none, and one
/// more.
fn look_ahead(
    processors: &mut Processors<'_>,
    floor: &mut PlainFloor<'_>,
    course: &Course<'_>,
    p: CpuNo,
    level: Level,
) -> Ahead
    requires start { AreAfter [] processors.old floor.old.script (view_of floor.old) }
    requires course { IsCourse course.now }
    requires script { processors.old.script ≡ course.now.script.now }
    requires limit { processors.old.limit ≡ course.now.turns }
    requires cpu { p.0 < course.now.script.now.cpus }
    ensures noticed { result.noticed ≡
        since_in course.now.script.now (Watched.Seen p level) (past_on course.now) }
    ensures next { IsWhat
        (step course.now.script.now course.now.turns (Turn.Next p) (past_on course.now))
        result.next }
{
    let noticed = follow(
        processors,
        floor,
        &course.events,
        course.end,
        &Watch::Seen(p, level.number()),
    );
    Ahead {
        noticed,
        next: next_of(processors, floor, p),
    }
}

/// Takes the turns of the events that count over processors and a floor that made none, and puts
/// the lines of an interrupt at the end of an empty list.
fn tell(
    processors: &mut Processors<'_>,
    floor: &mut PlainFloor<'_>,
    course: &Course<'_>,
    p: CpuNo,
    level: Level,
    ahead: &Ahead,
    reasons: &mut Vec<Reason>,
) -> Result<(), AllocError>
    requires start { AreAfter [] processors.old floor.old.script (view_of floor.old) }
    requires course { IsCourse course.now }
    requires script { processors.old.script ≡ course.now.script.now }
    requires limit { processors.old.limit ≡ course.now.turns }
    requires cpu { p.0 < course.now.script.now.cpus }
    requires noticed { ahead.now.noticed ≡
        since_in course.now.script.now (Watched.Seen p level) (past_on course.now) }
    requires next { IsWhat
        (step course.now.script.now course.now.turns (Turn.Next p) (past_on course.now))
        ahead.now.next }
    requires none { reasons.old.items ≡ [] }
    ensures told { OnOk result
        (All (IsTrueOf course.now (Thing.Interrupt p level)) reasons.new.items) }
    ensures whole { OnOk result
        (AreWholeOf course.now (Thing.Interrupt p level) reasons.new.items) }
{
    let since = follow(
        processors,
        floor,
        &course.events,
        course.end,
        &Watch::Stand(p),
    );
    let cpu = cpu_of(processors, p);
    put_lines(course, p, level, cpu, floor, since, ahead, reasons)
}

/// Puts the lines of an interrupt at the end of an empty list, where this lies ahead on its
/// processor.
fn put_with(
    alloc: Global,
    course: &Course<'_>,
    p: CpuNo,
    level: Level,
    ahead: &Ahead,
    reasons: &mut Vec<Reason>,
) -> Result<(), AllocError>
    requires course { IsCourse course.now }
    requires cpu { p.0 < course.now.script.now.cpus }
    requires noticed { ahead.now.noticed ≡
        since_in course.now.script.now (Watched.Seen p level) (past_on course.now) }
    requires next { IsWhat
        (step course.now.script.now course.now.turns (Turn.Next p) (past_on course.now))
        ahead.now.next }
    requires none { reasons.old.items ≡ [] }
    ensures told { OnOk result
        (All (IsTrueOf course.now (Thing.Interrupt p level)) reasons.new.items) }
    ensures whole { OnOk result
        (AreWholeOf course.now (Thing.Interrupt p level) reasons.new.items) }
{
    let mut processors = Processors::new(alloc, course.script, course.turns)?;
    let mut floor = PlainFloor::new(alloc, course.script, course.turns)?;
    tell(
        &mut processors,
        &mut floor,
        course,
        p,
        level,
        ahead,
        reasons,
    )
}

/// Finds what lies ahead over processors and a floor that made no event, and puts the lines of an
/// interrupt at the end of an empty list.
fn put_ahead(
    alloc: Global,
    processors: &mut Processors<'_>,
    floor: &mut PlainFloor<'_>,
    course: &Course<'_>,
    p: CpuNo,
    level: Level,
    reasons: &mut Vec<Reason>,
) -> Result<(), AllocError>
    requires start { AreAfter [] processors.old floor.old.script (view_of floor.old) }
    requires course { IsCourse course.now }
    requires script { processors.old.script ≡ course.now.script.now }
    requires limit { processors.old.limit ≡ course.now.turns }
    requires cpu { p.0 < course.now.script.now.cpus }
    requires none { reasons.old.items ≡ [] }
    ensures told { OnOk result
        (All (IsTrueOf course.now (Thing.Interrupt p level)) reasons.new.items) }
    ensures whole { OnOk result
        (AreWholeOf course.now (Thing.Interrupt p level) reasons.new.items) }
{
    let ahead = look_ahead(processors, floor, course, p, level);
    put_with(alloc, course, p, level, &ahead, reasons)
}

/// Puts the lines of an interrupt of a processor of the script at the end of an empty list.
fn put_there(
    alloc: Global,
    course: &Course<'_>,
    p: CpuNo,
    level: Level,
    reasons: &mut Vec<Reason>,
) -> Result<(), AllocError>
    requires course { IsCourse course.now }
    requires cpu { p.0 < course.now.script.now.cpus }
    requires none { reasons.old.items ≡ [] }
    ensures told { OnOk result
        (All (IsTrueOf course.now (Thing.Interrupt p level)) reasons.new.items) }
    ensures whole { OnOk result
        (AreWholeOf course.now (Thing.Interrupt p level) reasons.new.items) }
{
    let mut processors = Processors::new(alloc, course.script, course.turns)?;
    let mut floor = PlainFloor::new(alloc, course.script, course.turns)?;
    put_ahead(
        alloc,
        &mut processors,
        &mut floor,
        course,
        p,
        level,
        reasons,
    )
}

/// Puts the lines of an interrupt at the end of an empty list; that the script lacks the
/// processor, where it does.
fn put_where(
    alloc: Global,
    course: &Course<'_>,
    p: CpuNo,
    level: Level,
    reasons: &mut Vec<Reason>,
) -> Result<(), AllocError>
    requires course { IsCourse course.now }
    requires none { reasons.old.items ≡ [] }
    ensures told { OnOk result
        (All (IsTrueOf course.now (Thing.Interrupt p level)) reasons.new.items) }
    ensures whole { OnOk result
        (AreWholeOf course.now (Thing.Interrupt p level) reasons.new.items) }
{
    if p.0 < course.script.cpus {
        return put_there(alloc, course, p, level, reasons);
    }
    let none = Reason::NoNext {
        cpu: p,
        kind: ScheduleKind::NoSuchCpu,
    };
    add(reasons, none)
}

/// Puts which event begins the interrupt next, or that none does, at the end.
fn put_then(
    course: &Course<'_>,
    p: CpuNo,
    level: Level,
    reasons: &mut Vec<Reason>,
) -> Result<(), AllocError>
    requires told { All (IsTrueOf course.now (Thing.Interrupt p level)) reasons.old.items }
    requires whole { AreWholeOf course.now (Thing.Interrupt p level) reasons.old.items }
    ensures told { OnOk result
        (All (IsTrueOf course.now (Thing.Interrupt p level)) reasons.new.items) }
    ensures whole { OnOk result
        (AreWholeOf course.now (Thing.Interrupt p level) reasons.new.items) }
{
    let sought = Sought::Interrupt(p, level);
    let all = course.events.briefs.len();
    let first = first_from(&course.events, &sought, course.end, all);
    add(reasons, Reason::Then(begun_by(first)))
}

/// Puts what is told of the interrupt of this level on the processor at the end of an empty list.
pub(crate) fn explain_interrupt(
    alloc: Global,
    course: &Course<'_>,
    p: CpuNo,
    level: Level,
    reasons: &mut Vec<Reason>,
) -> Result<(), AllocError>
    requires course { IsCourse course.now }
    requires none { reasons.old.items ≡ [] }
    ensures told { OnOk result
        (All (IsTrueOf course.now (Thing.Interrupt p level)) reasons.new.items) }
    ensures whole { OnOk result
        (AreWholeOf course.now (Thing.Interrupt p level) reasons.new.items) }
{
    put_where(alloc, course, p, level, reasons)?;
    put_then(course, p, level, reasons)
}
