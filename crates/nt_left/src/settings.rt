//! What a timer is set to, read of the events.
ghost use Rattle.std.specs.Prelude.{◌≡◌, ◌+◌, ◌<◌, ◌≤◌, ◌^◌, length};
ghost use Rattle.nt_event.specs.declared.limits.TheConstants.{EVENTS};
ghost use Rattle.nt_event.specs.Families.{by_plain_call, by_timer_call};
ghost use Rattle.nt_event.specs.Frames as spec;
ghost use Rattle.nt_event.specs.Timers as timers;
ghost use Rattle.nt_left.specs.Items.{timer_item};
ghost use Rattle.nt_left.specs.Walks.{lent, past_of};

use crate::kinds::Left;
use nt_event::{Command, Reply, Setting, TimerKey, TimerNo, What};
use nt_history::Briefs;

/// The time behind a call, by the time before it.
fn time_called(command: &Command, reply: &Reply, now: u64) -> u64
    requires { now < 2 ^ 63 }
    ensures time { result ≡ by_plain_call (λ k. spec.time_by k reply.now now) now command.now }
    ensures bound { result ≤ now + 2 ^ 32 }
{
    match command {
        Command::Clock(units) => if reply.is_done() {
            now + u64::from(*units)
        } else {
            now
        },
        Command::Raise(_)
        | Command::Lower(_)
        | Command::Queue(_)
        | Command::Unqueue(_)
        | Command::SetImportance(_, _)
        | Command::SetTarget(_, _)
        | Command::SetTimer(_, _, _)
        | Command::CancelTimer(_)
        | Command::InsertApc(_)
        | Command::RemoveApc(_)
        | Command::EnterCrit
        | Command::EnterGuard
        | Command::LeaveCrit
        | Command::LeaveGuard
        | Command::StartWait(_, _)
        | Command::Delay(_, _, _)
        | Command::Release(_)
        | Command::Alert(_, _)
        | Command::TestAlert(_)
        | Command::Interrupt(_, _)
        | Command::ToUser
        | Command::Yield
        | Command::Acquire(_)
        | Command::Unlock(_)
        | Command::Note(_) => now,
    }
}

/// The time behind an event, by the time before it.
fn time_after(what: &What, now: u64) -> u64
    requires { now < 2 ^ 63 }
    ensures time { result ≡ spec.time_after what.now now }
    ensures bound { result ≤ now + 2 ^ 32 }
{
    match what {
        What::Call { command, reply, .. } => time_called(command, reply, now),
        What::Look { .. }
        | What::Begin { .. }
        | What::Normal { .. }
        | What::End { .. }
        | What::Expire { .. }
        | What::Fire { .. }
        | What::Clean { .. }
        | What::Switch { .. }
        | What::Rewait { .. }
        | What::Flush { .. }
        | What::Gone { .. }
        | What::Free { .. }
        | What::Rest => now,
    }
}

/// What a timer is set to that expires now and has this setting.
fn renewed(number: u64, now: u64, old: Option<Setting>) -> Option<Setting>
    requires { now < 2 ^ 63 }
    ensures { result ≡ timers.renewed number now old }
{
    let old = old?;
    if old.period == 0 {
        return None;
    }
    Some(Setting {
        due: now + u64::from(old.period),
        number,
        period: old.period,
    })
}

/// What a call with this reply leaves of the timer.
fn timer_called(
    timer: TimerNo,
    number: u64,
    now: u64,
    command: &Command,
    reply: &Reply,
    old: Option<Setting>,
) -> Option<Setting>
    requires { now < 2 ^ 63 }
    ensures { result ≡ by_timer_call
        (λ k. timers.timer_called timer number now k reply.now old) old command.now }
{
    match command {
        Command::SetTimer(set, due, period) => if reply.is_answer() && set.0 == timer.0 {
            Some(Setting {
                due: now + u64::from(*due),
                number,
                period: *period,
            })
        } else {
            old
        },
        Command::CancelTimer(set) => if reply.is_yes() && set.0 == timer.0 {
            None
        } else {
            old
        },
        Command::Raise(_)
        | Command::Lower(_)
        | Command::Queue(_)
        | Command::Unqueue(_)
        | Command::SetImportance(_, _)
        | Command::SetTarget(_, _)
        | Command::InsertApc(_)
        | Command::RemoveApc(_)
        | Command::EnterCrit
        | Command::EnterGuard
        | Command::LeaveCrit
        | Command::LeaveGuard
        | Command::StartWait(_, _)
        | Command::Delay(_, _, _)
        | Command::Release(_)
        | Command::Alert(_, _)
        | Command::TestAlert(_)
        | Command::Interrupt(_, _)
        | Command::Clock(_)
        | Command::ToUser
        | Command::Yield
        | Command::Acquire(_)
        | Command::Unlock(_)
        | Command::Note(_) => old,
    }
}

/// What an expiry of this key leaves of the timer.
fn timer_expired(
    timer: TimerNo,
    number: u64,
    now: u64,
    key: &TimerKey,
    old: Option<Setting>,
) -> Option<Setting>
    requires { now < 2 ^ 63 }
    ensures { result ≡ timers.timer_expired timer number now key.now old }
{
    match key {
        TimerKey::Timer(set) => if set.0 == timer.0 {
            renewed(number, now, old)
        } else {
            old
        },
        TimerKey::Delay(_) => old,
    }
}

/// What the event of this number leaves of the timer, at this time.
fn timer_after(
    timer: TimerNo,
    number: u64,
    now: u64,
    what: &What,
    old: Option<Setting>,
) -> Option<Setting>
    requires { now < 2 ^ 63 }
    ensures { result ≡ timers.timer_after timer number now what.now old }
{
    match what {
        What::Call { command, reply, .. } => timer_called(timer, number, now, command, reply, old),
        What::Expire { key, .. } => timer_expired(timer, number, now, key, old),
        What::Look { .. }
        | What::Begin { .. }
        | What::Normal { .. }
        | What::End { .. }
        | What::Fire { .. }
        | What::Clean { .. }
        | What::Switch { .. }
        | What::Rewait { .. }
        | What::Flush { .. }
        | What::Gone { .. }
        | What::Free { .. }
        | What::Rest => old,
    }
}

/// When the timer is due after these events, at most 160,000, where it is set then: the time at
/// which it is due, the event that set it, and its period.
pub fn setting_of(events: &Briefs, timer: TimerNo) -> Option<Setting>
    requires { length (lent events.now) ≤ EVENTS }
    ensures { result ≡ timers.timer_setting timer (past_of events.now) }
{
    let mut now: u64 = 0;
    let mut setting = None;
    for number in 0..events.briefs.len() {
        let event = events.event(number);
        setting = timer_after(timer, number as u64, now, &event.what, setting);
        now = time_after(&event.what, now);
    }
    setting
}

/// What is left of a timer that is set so.
pub(crate) fn timer_left(timer: TimerNo, setting: Option<Setting>) -> Option<Left>
    ensures { result ≡ timer_item timer setting }
{
    let setting = setting?;
    Some(Left::Timer { timer, setting })
}
