//! The queue of timers and delays.
ghost use Rattle.std.specs.Bool.{OnFalse};
ghost use Rattle.std.specs.List.{list_any};
ghost use Rattle.std.specs.Prelude.{◌≡◌, ◌==◌, ◌+◌, ◌-◌, ◌<◌, ◌≤◌, ◌^◌, ◌↔◌, IfNone, IfOk, IfSome};
ghost use Rattle.std.specs.Prelude.{IsSome};
ghost use Rattle.std.specs.Prelude.{MatchOption, IsTrue, None, Some, is_some, option_map, length};
ghost use Rattle.nt_event.specs.declared.commands.TimerKey.TheVariants.{Delay as OfDelay};
ghost use Rattle.nt_event.specs.declared.commands.TimerKey.TheVariants.{Timer as OfTimer};
ghost use Rattle.nt_event.specs.Timers.{is_due_key, is_set_timer, renewed, set_keys, setting_in};
ghost use Rattle.nt_timer.specs.Keys.{key_of};
ghost use Rattle.nt_timer.specs.Place.{HasNoPlace, IsPlace};
ghost use Rattle.nt_timer.specs.Settings.{IsKey, due_at, due_count, due_entry, expired, new_timers};
ghost use Rattle.nt_timer.specs.Settings.{setting_after, setting_at, with_setting};

use crate::slots::{Slot, slot_of};
use crate::wheel::Wheel;
use nt_event::{Setting, ThreadNo, TimerKey, TimerNo};
use std::alloc::{AllocError, Global};
use std::marker::Model;

/// What setting a timer answers.
#[derive(Clone, Copy, PartialEq, Eq, Debug)]
pub struct SetAnswer {
    /// Whether it was set.
    pub was: bool,
    /// Whether it is due already.
    pub due_now: bool,
}

/// What an expiry answers.
#[derive(Clone, Copy, PartialEq, Eq, Debug)]
pub struct Expired {
    /// The number of the event that had set the key.
    pub from: u64,
    /// The new due time of a periodic timer.
    pub again: Option<u64>,
}

/// The time, and when timers and delays are due. It has room for all of them from the start: no
/// call but [`TimerQueue::new`] and [`TimerQueue::copy`] takes memory. What isn't due stands in a
/// wheel of nine levels of 64 slots, so no call but [`TimerQueue::advance`] looks at keys other
/// than its own and those that are due.
#[derive(Drop, Debug)]
pub struct TimerQueue {
    /// How many timers there are. Their keys come first in the wheel, and those of the threads'
    /// delays follow.
    timers: usize,
    wheel: Wheel,
}

impl Model for TimerQueue {
    ghost use Rattle.std.specs.Prelude.{◌<◌, ◌≤◌, ◌^◌, length};
    ghost use Rattle.std.specs.Prelude.{drop, take};
    ghost use Rattle.nt_event.specs.Timers.{Timers};
    ghost use Rattle.nt_timer.specs.Settings.{IsNumbered};

    ghost Value = { Timers };

    ghost view = { λ a. record {
      now = a.wheel.now;
      timers = take a.timers a.wheel.settings;
      delays = drop a.timers a.wheel.settings;
    } };

    ghost invariant = { λ a.
        (a.timers < 2 ^ 32) × (a.timers ≤ length a.wheel.settings) ×
        IsNumbered (take a.timers a.wheel.settings) × IsNumbered (drop a.timers a.wheel.settings) };
}

impl TimerQueue {
    /// Time 0, with nothing set, for so many timers and threads. No later call but
    /// [`TimerQueue::copy`] takes memory.
    pub fn new(alloc: Global, timers: u32, threads: u32) -> Result<TimerQueue, AllocError>
        ensures { IfOk result (λ q. q ≡ new_timers timers threads) }
    {
        let timers = timers as usize;
        let wheel = Wheel::new(alloc, timers + threads as usize)?;
        Ok(TimerQueue { timers, wheel })
    }

    /// A copy of it, with room for all timers and threads.
    pub fn copy(&self, alloc: Global) -> Result<TimerQueue, AllocError>
        ensures { IfOk result (λ q. q ≡ self.entry.now) }
    {
        Ok(TimerQueue {
            timers: self.timers,
            wheel: self.wheel.copy(alloc)?,
        })
    }

    /// The time, in units from 0.
    pub fn now(&self) -> u64
        ensures same { result ≡ self.entry.now.now }
        ensures bound { result < 2 ^ 50 }
    {
        self.wheel.now()
    }

    /// Lets the time advance by so many units.
    #[inline(always)]
    pub fn advance(&mut self, units: u32)
        requires { self.old.now + units < 2 ^ 50 }
        ensures { self.new ≡ record self.old { now = self.old.now + units } }
    {
        self.wheel.advance(units);
    }

    /// Sets the timer, by the event `n`, to be due `due` units from now, whether it is set or not;
    /// with a `period` other than 0 it is set anew at each expiry. KeSetTimerEx.
    pub fn set(&mut self, t: TimerNo, due: u32, period: u32, n: u64) -> SetAnswer
        requires { t.0 < length self.old.timers }
        ensures was { result.was ≡ is_set_timer self.old t }
        ensures due_now { result.due_now ≡ (due == 0) }
        ensures setting { self.new
            ≡ with_setting (OfTimer t) (due_at (self.old.now + due) n period) self.old }
    {
        let was = self.is_set(t);
        let setting = Setting {
            due: self.wheel.now() + u64::from(due),
            number: n,
            period,
        };
        self.put(TimerKey::Timer(t), Some(setting));
        SetAnswer {
            was,
            due_now: due == 0,
        }
    }

    /// Takes back the setting of the timer; true exactly where it was set. KeCancelTimer.
    pub fn cancel(&mut self, t: TimerNo) -> bool
        ensures was { result ≡ is_set_timer self.old t }
        ensures setting { self.new ≡ with_setting (OfTimer t) None self.old }
        ensures same { OnFalse result (self.new ≡ self.old) }
    {
        let was = self.is_set(t);
        if was {
            self.put(TimerKey::Timer(t), None);
        }
        was
    }

    /// Whether the timer is set.
    pub fn is_set(&self, t: TimerNo) -> bool
        ensures { result ≡ is_set_timer self.entry.now t }
    {
        self.timer(t).is_some()
    }

    /// Sets the delay of the thread, by the event `n`, to be due at the time `due`, in place of the
    /// one before.
    pub fn set_delay(&mut self, t: ThreadNo, due: u64, n: u64)
        requires { t.0 < length self.old.delays }
        ensures { self.new ≡ with_setting (OfDelay t) (due_at due n 0) self.old }
    {
        let setting = Setting {
            due,
            number: n,
            period: 0,
        };
        self.put(TimerKey::Delay(t), Some(setting));
    }

    /// The first due key, with the number of the event that set it: the least by due time and
    /// number of those whose due time is at most now. None exactly where nothing is due.
    pub fn first_due(&self) -> Option<(TimerKey, u64)>
        ensures value { result ≡ due_entry self.entry.now }
        ensures found { is_some result
            ≡ list_any (is_due_key self.entry.now.now) (set_keys self.entry.now) }
    {
        match self.wheel.first() {
            Some(first) => Some((key_of(self.timers, first.key), first.number)),
            None => None,
        }
    }

    /// Lets the first due key expire, by the event `n`. A timer with a period is set anew to the
    /// time plus its period (profile).
    pub fn expire(&mut self, key: TimerKey, n: u64) -> Expired
        requires { option_map (λ x. x.0) (due_entry self.old) ≡ Some key }
        ensures from { due_entry self.old ≡ Some (key, result.from) }
        ensures again { result.again ≡ option_map (λ x. x.due) (setting_after key n self.old) }
        ensures setting { self.new ≡ expired key n self.old }
        ensures fewer { due_count self.new < due_count self.old }
    {
        let Some(old) = self.setting(key) else {
            unreachable!()
        };
        let again = match key {
            TimerKey::Timer(_) => renewed(&old, self.wheel.now(), n),
            TimerKey::Delay(_) => None,
        };
        self.put(key, again);
        Expired {
            from: old.number,
            again: match again {
                Some(setting) => Some(setting.due),
                None => None,
            },
        }
    }

    /// Lets the first due key expire as by [`TimerQueue::expire`], by the event `n`, and answers
    /// which it was. None exactly where nothing is due, and then nothing changes.
    ///
    /// Each expiry leaves fewer keys due, so a loop over this call ends.
    pub fn expire_first(&mut self, n: u64) -> Option<(TimerKey, Expired)>
        ensures from { option_map (λ x. (x.0, x.1.from)) result ≡ due_entry self.old }
        ensures again { IfSome result (λ x.
            x.1.again ≡ option_map (λ s. s.due) (setting_after x.0 n self.old)) }
        ensures setting { IfSome result (λ x. self.new ≡ expired x.0 n self.old) }
        ensures fewer { IfSome result (λ x. due_count self.new < due_count self.old) }
        ensures same { IfNone result (self.new ≡ self.old) }
    {
        let (key, _) = self.first_due()?;
        let expired = self.expire(key, n);
        Some((key, expired))
    }

    /// The slot of the wheel in which the key stands; None exactly where the key isn't set or is
    /// due.
    pub fn place(&self, key: TimerKey) -> Option<Slot>
        ensures { MatchOption result (HasNoPlace self.entry.now key) (IsPlace self.entry.now key) }
    {
        let setting = self.setting(key)?;
        let now = self.wheel.now();
        if setting.due <= now {
            return None;
        }
        Some(slot_of(now, setting.due))
    }

    /// When the timer is due, where it is set.
    fn timer(&self, t: TimerNo) -> Option<Setting>
        ensures { result ≡ setting_in self.entry.now.timers t.0 }
    {
        if (t.0 as usize) < self.timers {
            self.wheel.setting(t.0 as usize)
        } else {
            None
        }
    }

    /// When the key is due, where it is set.
    fn setting(&self, key: TimerKey) -> Option<Setting>
        ensures { result ≡ setting_at key self.entry.now }
    {
        match key {
            TimerKey::Timer(t) => self.timer(t),
            TimerKey::Delay(t) => self.wheel.setting(self.timers + t.0 as usize),
        }
    }

    /// Writes when the key is due, or that it isn't set.
    fn put(&mut self, key: TimerKey, setting: Option<Setting>)
        requires { IsKey key self.old }
        ensures { self.new ≡ with_setting key setting self.old }
    {
        match key {
            TimerKey::Timer(t) => self.wheel.put(t.0 as usize, setting),
            TimerKey::Delay(t) => self.wheel.put(self.timers + t.0 as usize, setting),
        }
    }
}

/// The key of this number, where there are so many timers.
fn key_of(timers: usize, number: usize) -> TimerKey
    requires timer { number < timers → number < 65536 }
    requires delay { timers ≤ number → number - timers < 65536 }
    ensures { result ≡ key_of timers number }
{
    if number < timers {
        TimerKey::Timer(TimerNo(number as u16))
    } else {
        TimerKey::Delay(ThreadNo((number - timers) as u16))
    }
}

/// What an expiry at this time by the event `n` leaves of the setting of a timer.
fn renewed(old: &Setting, now: u64, n: u64) -> Option<Setting>
    requires { now < 2 ^ 50 }
    ensures { result ≡ renewed n now (Some old.now) }
{
    if old.period == 0 {
        return None;
    }
    Some(Setting {
        due: now + u64::from(old.period),
        number: n,
        period: old.period,
    })
}
