//! Why a timer has not expired.
ghost use Rattle.std.specs.List.{All};
ghost use Rattle.std.specs.Prelude.{◌≡◌, ◌<◌, [], IfSome, None, OnOk, Some, is_some};
ghost use Rattle.nt_event.specs.Timers.{timer_setting};
ghost use Rattle.nt_why.specs.Courses.{AreWholeOf, IsCourse, IsTrueOf, past_on};
ghost use Rattle.nt_why.specs.Expiries.{AreTimes, IsPlace};
ghost use Rattle.nt_why.specs.Lined.{AreTrue};
ghost use Rattle.nt_why.specs.Timers.{first_expiring as expiring_in, spoken};
ghost use Rattle.nt_why.specs.declared.reasons.Reason.{Reason};
ghost use Rattle.nt_why.specs.declared.things.Thing.{Thing};

use crate::lines::{Lines, next_line, put_all, put_each};
use crate::question::Course;
use crate::reasons::{Reason, add};
use crate::sought::{Sought, begun_by, first_from, is_of_timer, last_in};
use crate::times::{Place, Times, find_place, find_times, first_expiring, setting_then};
use nt_event::{CpuNo, Setting, TimerNo};
use std::alloc::{AllocError, Global};

/// Whether the time has come at which the timer is due.
fn time_line(course: &Course<'_>, t: TimerNo, setting: &Setting, times: &Times) -> Reason
    ensures { AreTimes course.now times.now →
        timer_setting t (past_on course.now) ≡ Some setting.now →
        IsTrueOf course.now (Thing.Timer t) result }
{
    let _course = course;
    let _timer = t;
    let due = setting.due;
    let time = times.time;
    if time < due {
        Reason::NotDue { due, time }
    } else {
        Reason::IsDue { due, time }
    }
}

/// The timer or delay that expires before the timer, where there is one.
fn first_line(course: &Course<'_>, t: TimerNo, times: &Times) -> Option<Reason>
    ensures { IfSome result (λ r. AreTimes course.now times.now →
        IsTrueOf course.now (Thing.Timer t) r) }
{
    let _course = course;
    match times.first {
        Some((key, at)) => {
            if is_of_timer(t, &key) {
                None
            } else {
                Some(Reason::ExpiresFirst { key, at })
            }
        }
        None => None,
    }
}

/// How the processor stands, and whether its level lets a timer expire.
fn level_line(course: &Course<'_>, t: TimerNo, p: CpuNo, place: &Place) -> Reason
    ensures { IsPlace course.now p place.now →
        spoken course.now.script.now course.now.turns (past_on course.now) t ≡ Some p →
        IsTrueOf course.now (Thing.Timer t) result }
{
    let _course = course;
    let _timer = t;
    let _cpu = p;
    if place.stood.level.number() < 2 {
        Reason::Stands(place.stood)
    } else {
        Reason::TooHigh(place.stood)
    }
}

/// That the processor is cut, where it is.
fn cut_line(course: &Course<'_>, t: TimerNo, p: CpuNo, place: &Place) -> Option<Reason>
    ensures { IfSome result (λ r. IsPlace course.now p place.now →
        spoken course.now.script.now course.now.turns (past_on course.now) t ≡ Some p →
        IsTrueOf course.now (Thing.Timer t) r) }
{
    let _course = course;
    let _timer = t;
    if place.cut {
        Some(Reason::Cut(p))
    } else {
        None
    }
}

/// That the processor owes a sweep of the timers, where it does.
fn sweep_line(course: &Course<'_>, t: TimerNo, p: CpuNo, place: &Place) -> Option<Reason>
    ensures { IfSome result (λ r. IsPlace course.now p place.now →
        spoken course.now.script.now course.now.turns (past_on course.now) t ≡ Some p →
        IsTrueOf course.now (Thing.Timer t) r) }
{
    let _course = course;
    let _timer = t;
    if place.owes {
        Some(Reason::OwesSweep(p))
    } else {
        None
    }
}

/// The lines of the timer alone; where no processor owes a sweep, that too.
fn own_lines(course: &Course<'_>, t: TimerNo, setting: &Setting, times: &Times) -> Lines
    requires times { AreTimes course.now times.now }
    requires set { timer_setting t (past_on course.now) ≡ Some setting.now }
    requires none { times.now.sweeping ≡ None }
    ensures told { AreTrue (IsTrueOf course.now (Thing.Timer t)) result }
    ensures last { result.asked ≡ Some Reason.NoSweep }
{
    Lines {
        first: Some(Reason::IsSet {
            timer: t,
            setting: *setting,
        }),
        runs: Some(time_line(course, t, setting, times)),
        regions: first_line(course, t, times),
        level: None,
        cut: None,
        insert: None,
        asked: Some(Reason::NoSweep),
    }
}

/// The lines of the timer and of the processor on which it may expire.
fn lines_on(
    course: &Course<'_>,
    t: TimerNo,
    setting: &Setting,
    times: &Times,
    p: CpuNo,
    place: &Place,
) -> Lines
    requires times { AreTimes course.now times.now }
    requires set { timer_setting t (past_on course.now) ≡ Some setting.now }
    requires place { IsPlace course.now p place.now }
    requires said { spoken course.now.script.now course.now.turns (past_on course.now) t ≡ Some p }
    ensures { AreTrue (IsTrueOf course.now (Thing.Timer t)) result }
{
    Lines {
        first: Some(Reason::IsSet {
            timer: t,
            setting: *setting,
        }),
        runs: Some(time_line(course, t, setting, times)),
        regions: first_line(course, t, times),
        level: Some(level_line(course, t, p, place)),
        cut: cut_line(course, t, p, place),
        insert: None,
        asked: sweep_line(course, t, p, place),
    }
}

/// Puts the lines of a timer that is set at the end of an empty list, where no processor owes a
/// sweep, and the next event of none expires it.
fn put_alone(
    course: &Course<'_>,
    t: TimerNo,
    setting: &Setting,
    times: &Times,
    reasons: &mut Vec<Reason>,
) -> Result<(), AllocError>
    requires times { AreTimes course.now times.now }
    requires set { timer_setting t (past_on course.now) ≡ Some setting.now }
    requires none { times.now.sweeping ≡ None }
    requires no { expiring_in course.now.script.now course.now.turns (past_on course.now) t ≡ None }
    requires empty { reasons.old.items ≡ [] }
    ensures told { OnOk result (All (IsTrueOf course.now (Thing.Timer t)) reasons.new.items) }
    ensures whole { OnOk result (AreWholeOf course.now (Thing.Timer t) reasons.new.items) }
{
    let lines = own_lines(course, t, setting, times);
    put_each(reasons, false, &lines)
}

/// Puts the lines of a timer that is set at the end of an empty list, where the reasons speak of
/// this processor.
fn put_on(
    course: &Course<'_>,
    t: TimerNo,
    setting: &Setting,
    times: &Times,
    p: CpuNo,
    place: &Place,
    free: bool,
    reasons: &mut Vec<Reason>,
) -> Result<(), AllocError>
    requires times { AreTimes course.now times.now }
    requires set { timer_setting t (past_on course.now) ≡ Some setting.now }
    requires place { IsPlace course.now p place.now }
    requires said { spoken course.now.script.now course.now.turns (past_on course.now) t ≡ Some p }
    requires free { free ≡ is_some
        (expiring_in course.now.script.now course.now.turns (past_on course.now) t) }
    requires empty { reasons.old.items ≡ [] }
    ensures told { OnOk result (All (IsTrueOf course.now (Thing.Timer t)) reasons.new.items) }
    ensures whole { OnOk result (AreWholeOf course.now (Thing.Timer t) reasons.new.items) }
{
    let lines = lines_on(course, t, setting, times, p, place);
    put_all(reasons, free, &lines, next_line(p, &place.next))
}

/// Puts the lines of a timer that is set at the end of an empty list, where the reasons speak of
/// this processor.
fn put_spoken(
    alloc: Global,
    course: &Course<'_>,
    t: TimerNo,
    setting: &Setting,
    times: &Times,
    p: CpuNo,
    free: bool,
    reasons: &mut Vec<Reason>,
) -> Result<(), AllocError>
    requires course { IsCourse course.now }
    requires cpu { p.0 < course.now.script.now.cpus }
    requires times { AreTimes course.now times.now }
    requires set { timer_setting t (past_on course.now) ≡ Some setting.now }
    requires said { spoken course.now.script.now course.now.turns (past_on course.now) t ≡ Some p }
    requires free { free ≡ is_some
        (expiring_in course.now.script.now course.now.turns (past_on course.now) t) }
    requires empty { reasons.old.items ≡ [] }
    ensures told { OnOk result (All (IsTrueOf course.now (Thing.Timer t)) reasons.new.items) }
    ensures whole { OnOk result (AreWholeOf course.now (Thing.Timer t) reasons.new.items) }
{
    match find_place(alloc, course, p) {
        Ok(place) => put_on(course, t, setting, times, p, &place, free, reasons),
        Err(error) => Err(error),
    }
}

/// Puts the lines of a timer that is set at the end of an empty list, where this is the first
/// processor whose next event expires it.
fn put_found(
    alloc: Global,
    course: &Course<'_>,
    t: TimerNo,
    setting: &Setting,
    times: &Times,
    expiring: Option<CpuNo>,
    reasons: &mut Vec<Reason>,
) -> Result<(), AllocError>
    requires course { IsCourse course.now }
    requires times { AreTimes course.now times.now }
    requires set { timer_setting t (past_on course.now) ≡ Some setting.now }
    requires expiring { expiring
        ≡ expiring_in course.now.script.now course.now.turns (past_on course.now) t }
    requires empty { reasons.old.items ≡ [] }
    ensures told { OnOk result (All (IsTrueOf course.now (Thing.Timer t)) reasons.new.items) }
    ensures whole { OnOk result (AreWholeOf course.now (Thing.Timer t) reasons.new.items) }
{
    if let Some(p) = expiring {
        return put_spoken(alloc, course, t, setting, times, p, true, reasons);
    }
    match times.sweeping {
        Some(p) => put_spoken(alloc, course, t, setting, times, p, false, reasons),
        None => put_alone(course, t, setting, times, reasons),
    }
}

/// Puts the lines of a timer that is set at the end of an empty list.
fn put_set(
    alloc: Global,
    course: &Course<'_>,
    t: TimerNo,
    setting: &Setting,
    reasons: &mut Vec<Reason>,
) -> Result<(), AllocError>
    requires course { IsCourse course.now }
    requires set { timer_setting t (past_on course.now) ≡ Some setting.now }
    requires empty { reasons.old.items ≡ [] }
    ensures told { OnOk result (All (IsTrueOf course.now (Thing.Timer t)) reasons.new.items) }
    ensures whole { OnOk result (AreWholeOf course.now (Thing.Timer t) reasons.new.items) }
{
    let expiring = first_expiring(alloc, course, t)?;
    let times = find_times(alloc, course)?;
    put_found(alloc, course, t, setting, &times, expiring, reasons)
}

/// Puts that the timer isn't set at the end of an empty list.
fn put_unset(course: &Course<'_>, t: TimerNo, reasons: &mut Vec<Reason>) -> Result<(), AllocError>
    requires course { IsCourse course.now }
    requires set { timer_setting t (past_on course.now) ≡ None }
    requires empty { reasons.old.items ≡ [] }
    ensures told { OnOk result (All (IsTrueOf course.now (Thing.Timer t)) reasons.new.items) }
    ensures whole { OnOk result (AreWholeOf course.now (Thing.Timer t) reasons.new.items) }
{
    let expired = last_in(&course.events, &Sought::Timer(t), course.end);
    add(reasons, Reason::NotSet { timer: t, expired })
}

/// Puts which event expires the timer next, or that none does, at the end.
fn put_then(course: &Course<'_>, t: TimerNo, reasons: &mut Vec<Reason>) -> Result<(), AllocError>
    requires told { All (IsTrueOf course.now (Thing.Timer t)) reasons.old.items }
    requires whole { AreWholeOf course.now (Thing.Timer t) reasons.old.items }
    ensures told { OnOk result (All (IsTrueOf course.now (Thing.Timer t)) reasons.new.items) }
    ensures whole { OnOk result (AreWholeOf course.now (Thing.Timer t) reasons.new.items) }
{
    let sought = Sought::Timer(t);
    let all = course.events.briefs.len();
    let first = first_from(&course.events, &sought, course.end, all);
    add(reasons, Reason::Then(begun_by(first)))
}

/// Puts the lines of the timer at the end of an empty list.
fn put_lines(
    alloc: Global,
    course: &Course<'_>,
    t: TimerNo,
    reasons: &mut Vec<Reason>,
) -> Result<(), AllocError>
    requires course { IsCourse course.now }
    requires empty { reasons.old.items ≡ [] }
    ensures told { OnOk result (All (IsTrueOf course.now (Thing.Timer t)) reasons.new.items) }
    ensures whole { OnOk result (AreWholeOf course.now (Thing.Timer t) reasons.new.items) }
{
    match setting_then(course, t) {
        Some(setting) => put_set(alloc, course, t, &setting, reasons),
        None => put_unset(course, t, reasons),
    }
}

/// Puts what is told of the timer at the end of an empty list.
pub(crate) fn explain_timer(
    alloc: Global,
    course: &Course<'_>,
    t: TimerNo,
    reasons: &mut Vec<Reason>,
) -> Result<(), AllocError>
    requires course { IsCourse course.now }
    requires empty { reasons.old.items ≡ [] }
    ensures told { OnOk result (All (IsTrueOf course.now (Thing.Timer t)) reasons.new.items) }
    ensures whole { OnOk result (AreWholeOf course.now (Thing.Timer t) reasons.new.items) }
{
    put_lines(alloc, course, t, reasons)?;
    put_then(course, t, reasons)
}
