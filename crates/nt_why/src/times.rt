//! What bears on the expiry of a timer after the first events of a run.
ghost use Rattle.std.specs.Option.{option_or};
ghost use Rattle.std.specs.Prelude.{◌≡◌, ◌<◌, [], IfOk, None, Some, if◌then◌else◌};
ghost use Rattle.nt_event.specs.Timers.{timer_setting};
ghost use Rattle.nt_plain.specs.States.{view_of};
ghost use Rattle.nt_cpus.specs.Following.{AreAfter, cpus_of};
ghost use Rattle.nt_why.specs.Courses.{IsCourse, past_on};
ghost use Rattle.nt_why.specs.Expiries.{AreTimes, IsPlace};
ghost use Rattle.nt_why.specs.Timers.{first_expiring as first_expiring_in};
ghost use Rattle.nt_why.specs.Timers.{expires_next as expires_next_in, gives_expiry_what};
ghost use Rattle.nt_why.specs.Timers.{first_sweeping as first_sweeping_in};

use crate::lines::next_of;
use crate::question::Course;
use crate::reasons::Stood;
use crate::sought::expires;
use crate::standing::stood;
use crate::watch::{Watch, cpu_of, follow};
use nt_cpus::Processors;
use nt_event::{CpuNo, ScheduleKind, Setting, ThreadNo, TimerKey, TimerNo, What};
use nt_history::Briefs;
use nt_left::setting_of;
use nt_plain::PlainFloor;
use nt_states::LaneAnswers;
use std::alloc::{AllocError, Global};

/// The time, and what is due.
#[derive(Clone, Copy)]
pub(crate) struct Times {
    pub time: u64,
    /// The first due key, with the number of the event that set it.
    pub first: Option<(TimerKey, u64)>,
    /// The first processor that owes a sweep of the timers.
    pub sweeping: Option<CpuNo>,
}

/// A processor on which a timer may expire.
#[derive(Clone, Copy)]
pub(crate) struct Place {
    pub stood: Stood,
    /// Whether it owes a sweep of the timers.
    pub owes: bool,
    /// Whether it made as many events as it may.
    pub cut: bool,
    /// What its next event does, or why it has none.
    pub next: Result<What, ScheduleKind>,
}

/// The first processor of which something is so: this one, where none was found before.
fn first_with(first: Option<CpuNo>, p: CpuNo, is_so: bool) -> Option<CpuNo>
    ensures { result ≡ option_or first (if is_so then Some p else None) }
{
    match first {
        Some(found) => Some(found),
        None => if is_so { Some(p) } else { None },
    }
}

/// The first processor that owes a sweep of the timers.
fn first_sweeping(processors: &Processors<'_>, course: &Course<'_>) -> Option<CpuNo>
    requires every { processors.now.cpus
        ≡ cpus_of processors.now.script processors.now.limit (past_on course.now) }
    requires script { processors.now.script ≡ course.now.script.now }
    ensures { result ≡ first_sweeping_in course.now.script.now (past_on course.now) }
{
    let mut first = None;
    for n in 0..course.script.cpus {
        let p = CpuNo(n);
        let owes = cpu_of(processors, p).owes_sweep();
        first = first_with(first, p, owes);
    }
    first
}

/// Takes the turns of the events that count over processors and a floor that made none, and says
/// what the time is then and what is due.
fn times_of(
    processors: &mut Processors<'_>,
    floor: &mut PlainFloor<'_>,
    course: &Course<'_>,
) -> Times
    requires start { AreAfter [] processors.old floor.old.script (view_of floor.old) }
    requires course { IsCourse course.now }
    requires script { processors.old.script ≡ course.now.script.now }
    requires limit { processors.old.limit ≡ course.now.turns }
    ensures { AreTimes course.now result }
{
    let watch = Watch::Doing(ThreadNo(0));
    follow(processors, floor, &course.events, course.end, &watch);
    Times {
        time: floor.states().now(),
        first: floor.states().first_due(),
        sweeping: first_sweeping(processors, course),
    }
}

/// The time after the events that count, and what is due then.
pub(crate) fn find_times(alloc: Global, course: &Course<'_>) -> Result<Times, AllocError>
    requires { IsCourse course.now }
    ensures { IfOk result (AreTimes course.now) }
{
    let mut processors = Processors::new(alloc, course.script, course.turns)?;
    let mut floor = PlainFloor::new(alloc, course.script, course.turns)?;
    Ok(times_of(&mut processors, &mut floor, course))
}

/// Takes the turns of the events that count over processors and a floor that made none, and one
/// more, and says how the processor stood before that.
fn place_of(
    processors: &mut Processors<'_>,
    floor: &mut PlainFloor<'_>,
    course: &Course<'_>,
    p: CpuNo,
) -> Place
    requires start { AreAfter [] processors.old floor.old.script (view_of floor.old) }
    requires course { IsCourse course.now }
    requires script { processors.old.script ≡ course.now.script.now }
    requires limit { processors.old.limit ≡ course.now.turns }
    requires cpu { p.0 < course.now.script.now.cpus }
    ensures { IsPlace course.now p result }
{
    let watch = Watch::Stand(p);
    let since = follow(processors, floor, &course.events, course.end, &watch);
    let cpu = cpu_of(processors, p);
    let stood = stood(p, cpu, since);
    let owes = cpu.owes_sweep();
    let cut = course.turns <= cpu.made();
    Place {
        stood,
        owes,
        cut,
        next: next_of(processors, floor, p),
    }
}

/// How the processor stands after the events that count, and what it does next.
pub(crate) fn find_place(alloc: Global, course: &Course<'_>, p: CpuNo) -> Result<Place, AllocError>
    requires course { IsCourse course.now }
    requires cpu { p.0 < course.now.script.now.cpus }
    ensures { IfOk result (IsPlace course.now p) }
{
    let mut processors = Processors::new(alloc, course.script, course.turns)?;
    let mut floor = PlainFloor::new(alloc, course.script, course.turns)?;
    Ok(place_of(&mut processors, &mut floor, course, p))
}

/// Whether that expires the timer.
fn gives_expiry(t: TimerNo, next: &Result<What, ScheduleKind>) -> bool
    ensures { result ≡ gives_expiry_what t next.now }
{
    match next {
        Ok(what) => expires(t, what),
        Err(_) => false,
    }
}

/// Whether the processor's next event expires the timer.
fn expires_next(
    alloc: Global,
    course: &Course<'_>,
    t: TimerNo,
    p: CpuNo,
) -> Result<bool, AllocError>
    requires course { IsCourse course.now }
    requires cpu { p.0 < course.now.script.now.cpus }
    ensures { IfOk result (λ b. b
        ≡ expires_next_in course.now.script.now course.now.turns (past_on course.now) t p) }
{
    match find_place(alloc, course, p) {
        Ok(place) => Ok(gives_expiry(t, &place.next)),
        Err(error) => Err(error),
    }
}

/// The first processor whose next event expires the timer.
pub(crate) fn first_expiring(
    alloc: Global,
    course: &Course<'_>,
    t: TimerNo,
) -> Result<Option<CpuNo>, AllocError>
    requires { IsCourse course.now }
    ensures { IfOk result (λ x. x
        ≡ first_expiring_in course.now.script.now course.now.turns (past_on course.now) t) }
{
    let mut first = None;
    for n in 0..course.script.cpus {
        let p = CpuNo(n);
        let is_so = expires_next(alloc, course, t, p)?;
        first = first_with(first, p, is_so);
    }
    Ok(first)
}

/// When the timer is due after the events that count, where it is set.
pub(crate) fn setting_then(course: &Course<'_>, t: TimerNo) -> Option<Setting>
    requires { IsCourse course.now }
    ensures { result ≡ timer_setting t (past_on course.now) }
{
    let events = Briefs {
        briefs: &course.events.briefs[..course.end],
        rises: course.events.rises,
    };
    setting_of(&events, t)
}
