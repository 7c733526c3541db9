//! The first event from some number on that is sought, by a walk over the events.
ghost use Rattle.std.specs.Option.{option_or};
ghost use Rattle.std.specs.Prelude.{◌≡◌, ◌≤◌, ◌==◌, ◌&&◌, None, Some, false, if◌then◌else◌, length};
ghost use Rattle.std.specs.Prelude.{nat_le};
ghost use Rattle.nt_event.specs.declared.commands.TimerKey.{TimerKey};
ghost use Rattle.nt_event.specs.Eligible.{same_key};
ghost use Rattle.nt_event.specs.Families.{in_begin, in_switch};
ghost use Rattle.nt_event.specs.Requests.{begins_class};
ghost use Rattle.nt_history.specs.Briefs.{events_in};
ghost use Rattle.nt_why.specs.Past.{past_at};
ghost use Rattle.nt_why.specs.Sought.{begun_by as begun_in, first_from as first_in};
ghost use Rattle.nt_why.specs.Sought.{expires as expires_in, is_sought as sought_in};
ghost use Rattle.nt_why.specs.Sought.{last_in as last_sought};

use crate::fates::Fate;
use nt_event::{Begun, CpuNo, Event, Level, ThreadNo, TimerKey, TimerNo, What};
use nt_history::Briefs;

/// What is sought among events.
#[derive(Clone, Copy)]
pub(crate) enum Sought {
    /// The begin of the interrupt of this level on the processor.
    Interrupt(CpuNo, Level),
    /// The switch to the thread.
    Thread(ThreadNo),
    /// The expiry of the timer.
    Timer(TimerNo),
}

/// Whether the interrupt of this level begins.
fn is_of_level(level: Level, begun: &Begun) -> bool
    ensures { result ≡ begins_class level begun.now }
{
    match begun {
        Begun::Int(of) => of.number() == level.number(),
        Begun::Dpc(_) | Begun::Threaded(_) | Begun::Apc(_) => false,
    }
}

/// Whether an event begins the interrupt of this level.
pub(crate) fn begins(level: Level, what: &What) -> bool
    ensures { result ≡ in_begin (λ b from. begins_class level b) false what.now }
{
    match what {
        What::Begin { begun, .. } => is_of_level(level, begun),
        What::Call { .. }
        | What::Look { .. }
        | What::Normal { .. }
        | What::End { .. }
        | What::Expire { .. }
        | What::Fire { .. }
        | What::Clean { .. }
        | What::Switch { .. }
        | What::Rewait { .. }
        | What::Flush { .. }
        | What::Gone { .. }
        | What::Free { .. }
        | What::Rest => false,
    }
}

/// Whether an event takes up the thread.
fn takes_up(sought: ThreadNo, what: &What) -> bool
    ensures { result ≡ in_switch (λ t status. t.0 == sought.0) false what.now }
{
    match what {
        What::Switch { thread, .. } => thread.0 == sought.0,
        What::Call { .. }
        | What::Look { .. }
        | What::Begin { .. }
        | What::Normal { .. }
        | What::End { .. }
        | What::Expire { .. }
        | What::Fire { .. }
        | What::Clean { .. }
        | What::Rewait { .. }
        | What::Flush { .. }
        | What::Gone { .. }
        | What::Free { .. }
        | What::Rest => false,
    }
}

/// Whether the key is that of the timer.
pub(crate) fn is_of_timer(sought: TimerNo, key: &TimerKey) -> bool
    ensures { result ≡ same_key key.now (TimerKey.Timer sought) }
{
    match key {
        TimerKey::Timer(timer) => timer.0 == sought.0,
        TimerKey::Delay(_) => false,
    }
}

/// Whether an event expires the timer.
pub(crate) fn expires(sought: TimerNo, what: &What) -> bool
    ensures { result ≡ expires_in sought what.now }
{
    match what {
        What::Expire { key, .. } => is_of_timer(sought, key),
        What::Call { .. }
        | What::Look { .. }
        | What::Begin { .. }
        | What::Normal { .. }
        | What::End { .. }
        | What::Fire { .. }
        | What::Clean { .. }
        | What::Switch { .. }
        | What::Rewait { .. }
        | What::Flush { .. }
        | What::Gone { .. }
        | What::Free { .. }
        | What::Rest => false,
    }
}

/// Whether the event is sought.
fn is_sought(sought: &Sought, event: &Event) -> bool
    ensures { result ≡ sought_in sought.now event.now }
{
    match sought {
        Sought::Interrupt(p, level) => event.cpu.0 == p.0 && begins(*level, &event.what),
        Sought::Thread(thread) => takes_up(*thread, &event.what),
        Sought::Timer(timer) => expires(*timer, &event.what),
    }
}

/// The number of the first event that is sought after the event of this number, where it was this
/// one before.
fn first_after(
    first: Option<u64>,
    sought: &Sought,
    from: usize,
    at: usize,
    event: &Event,
) -> Option<u64>
    ensures { result ≡ option_or first
        (if nat_le from at && sought_in sought.now event.now then Some at else None) }
{
    match first {
        Some(number) => Some(number),
        None => {
            if from <= at && is_sought(sought, event) {
                Some(at as u64)
            } else {
                None
            }
        }
    }
}

/// The number of the first of `end` events, from the number `from` on, that is sought.
pub(crate) fn first_from(
    events: &Briefs<'_>,
    sought: &Sought,
    from: usize,
    end: usize,
) -> Option<u64>
    requires { end ≤ length events.now.briefs.now }
    ensures { result ≡ first_in sought.now from
        (past_at end (events_in events.now.briefs.now events.now.rises.now)) }
{
    let mut first = None;
    for at in 0..end {
        let event = events.event(at);
        first = first_after(first, sought, from, at, &event);
    }
    first
}

/// The number of the last event that is sought after the event of this number, where it was this
/// one before.
fn last_after(last: Option<u64>, sought: &Sought, at: usize, event: &Event) -> Option<u64>
    ensures { result ≡ (if sought_in sought.now event.now then Some at else last) }
{
    if is_sought(sought, event) {
        Some(at as u64)
    } else {
        last
    }
}

/// The number of the last of `end` events that is sought.
pub(crate) fn last_in(events: &Briefs<'_>, sought: &Sought, end: usize) -> Option<u64>
    requires { end ≤ length events.now.briefs.now }
    ensures { result ≡ last_sought sought.now
        (past_at end (events_in events.now.briefs.now events.now.rises.now)) }
{
    let mut last = None;
    for at in 0..end {
        let event = events.event(at);
        last = last_after(last, sought, at, &event);
    }
    last
}

/// What became of the thing: the event of this number began it, or it waits.
pub(crate) fn begun_by(first: Option<u64>) -> Fate
    ensures { result ≡ begun_in first }
{
    match first {
        Some(number) => Fate::Begun(number),
        None => Fate::Waits,
    }
}
