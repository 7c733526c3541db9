//! The time, timers and delays, without the numbers of the events that set them.
ghost use Rattle.std.specs.Prelude.{◌≡◌, ◌+◌, ◌==◌, ◌≤◌, ◌^◌, [], OnOk, find, length, not};
ghost use Rattle.nt_event.specs.Families.{by_own_call, by_plain_call, by_timer_call};
ghost use Rattle.nt_event.specs.Frames.{time_after, time_by};
ghost use Rattle.nt_shade_dpcs.specs.Keys.{delayed, expired_in, keys_after, maker_of, own_keyed};
ghost use Rattle.nt_shade_dpcs.specs.Keys.{place_for, renewed_in, same_key, set_anew, timer_keyed};
ghost use Rattle.nt_shade_dpcs.specs.Keys.{unset};

use nt_event::{Command, Event, Reply, Script, ThreadNo, TimerKey, What};
use std::alloc::{AllocError, Global};

/// A timer or a delay that is set.
#[derive(Clone, Copy, PartialEq, Eq, Hash, Debug)]
pub struct ShadeKey {
    pub key: TimerKey,
    /// The time at which it is due.
    pub due: u64,
    /// The period with which a timer is set anew when it expires; 0 is none.
    pub period: u32,
}

/// The time, and what is set.
#[derive(Clone, PartialEq, Eq, Hash, Drop, Debug)]
pub struct ShadeTimers {
    pub now: u64,
    /// What is set, by due time; of one due time what was set first comes first.
    pub keys: Vec<ShadeKey>,
}

impl ShadeTimers {
    /// Time 0, with nothing set.
    pub fn new(alloc: Global) -> ShadeTimers
        ensures now { result.now ≡ 0 }
        ensures keys { result.keys.items ≡ [] }
    {
        ShadeTimers {
            now: 0,
            keys: Vec::new(alloc),
        }
    }

    /// Takes in an event; a wait that it takes up again is due then.
    pub(crate) fn follow(
        &mut self,
        script: &Script,
        event: &Event,
        due: Option<u64>,
    ) -> Result<(), AllocError>
        requires { self.old.now + 2 ^ 32 ≤ 2 ^ 64 }
        ensures now { OnOk result (self.new.now ≡ time_after event.now.what self.old.now) }
        ensures keys { OnOk result (self.new.keys.items ≡ keys_after self.old.now
            (maker_of script.now event.now) due event.now.what self.old.keys.items) }
    {
        let maker = maker_of(script, event);
        match &event.what {
            What::Call { command, reply, .. } => self.call(maker, command, reply),
            What::Rewait {
                reply: Reply::Blocked,
                ..
            } => self.delay(maker, due),
            What::Expire { key, .. } => self.expire(*key),
            What::Look { .. }
            | What::Begin { .. }
            | What::Normal { .. }
            | What::End { .. }
            | What::Fire { .. }
            | What::Clean { .. }
            | What::Switch { .. }
            | What::Rewait { .. }
            | What::Flush { .. }
            | What::Gone { .. }
            | What::Free { .. }
            | What::Rest => Ok(()),
        }
    }

    /// Takes in a call of this thread.
    fn call(
        &mut self,
        maker: Option<ThreadNo>,
        command: &Command,
        reply: &Reply,
    ) -> Result<(), AllocError>
        requires { self.old.now + 2 ^ 32 ≤ 2 ^ 64 }
        ensures now { OnOk result (self.new.now
            ≡ by_plain_call (λ k. time_by k reply.now self.old.now) self.old.now command.now) }
        ensures keys { OnOk result (self.new.keys.items
            ≡ by_timer_call (λ k. timer_keyed self.old.now k reply.now self.old.keys.items)
            (by_own_call (λ k. own_keyed self.old.now maker k reply.now self.old.keys.items)
            self.old.keys.items command.now) command.now) }
    {
        match (command, reply) {
            (Command::SetTimer(t, due, period), Reply::Yes | Reply::No) => self.set(ShadeKey {
                key: TimerKey::Timer(*t),
                due: self.now + u64::from(*due),
                period: *period,
            }),
            (Command::CancelTimer(t), Reply::Yes) => {
                self.unset(TimerKey::Timer(*t));
                Ok(())
            }
            (Command::Clock(units), Reply::Done) => {
                self.now += u64::from(*units);
                Ok(())
            }
            (Command::Delay(_, _, units), Reply::Blocked) => {
                self.delay(maker, Some(self.now + u64::from(*units)))
            }
            (Command::Raise(_), _)
            | (Command::Lower(_), _)
            | (Command::Queue(_), _)
            | (Command::Unqueue(_), _)
            | (Command::SetImportance(_, _), _)
            | (Command::SetTarget(_, _), _)
            | (Command::SetTimer(_, _, _), _)
            | (Command::CancelTimer(_), _)
            | (Command::InsertApc(_), _)
            | (Command::RemoveApc(_), _)
            | (Command::EnterCrit, _)
            | (Command::EnterGuard, _)
            | (Command::LeaveCrit, _)
            | (Command::LeaveGuard, _)
            | (Command::StartWait(_, _), _)
            | (Command::Delay(_, _, _), _)
            | (Command::Release(_), _)
            | (Command::Alert(_, _), _)
            | (Command::TestAlert(_), _)
            | (Command::Interrupt(_, _), _)
            | (Command::Clock(_), _)
            | (Command::ToUser, _)
            | (Command::Yield, _)
            | (Command::Acquire(_), _)
            | (Command::Unlock(_), _)
            | (Command::Note(_), _) => Ok(()),
        }
    }

    /// The delay of the thread is set, where it has a due time.
    fn delay(&mut self, thread: Option<ThreadNo>, due: Option<u64>) -> Result<(), AllocError>
        ensures now { self.new.now ≡ self.old.now }
        ensures keys { OnOk result (self.new.keys.items
            ≡ delayed thread due self.old.keys.items) }
    {
        if let (Some(t), Some(due)) = (thread, due) {
            self.set(ShadeKey {
                key: TimerKey::Delay(t),
                due,
                period: 0,
            })?;
        }
        Ok(())
    }

    /// The key expires: a timer with a period is set anew.
    fn expire(&mut self, key: TimerKey) -> Result<(), AllocError>
        requires { self.old.now + 2 ^ 32 ≤ 2 ^ 64 }
        ensures now { self.new.now ≡ self.old.now }
        ensures keys { OnOk result (self.new.keys.items
            ≡ expired_in self.old.now key self.old.keys.items) }
    {
        match key {
            TimerKey::Timer(_) => self.renew(key),
            TimerKey::Delay(_) => {
                self.unset(key);
                Ok(())
            }
        }
    }

    /// The key is set anew where it has a period, else it isn't set any more.
    fn renew(&mut self, key: TimerKey) -> Result<(), AllocError>
        requires { self.old.now + 2 ^ 32 ≤ 2 ^ 64 }
        ensures now { self.new.now ≡ self.old.now }
        ensures keys { OnOk result (self.new.keys.items ≡ renewed_in key self.old.now
            (find (λ x. same_key key x.key) self.old.keys.items) self.old.keys.items) }
    {
        match found(self.keys.as_slice(), key) {
            Some(set) if set.period != 0 => self.set(ShadeKey {
                key,
                due: self.now + u64::from(set.period),
                period: set.period,
            }),
            Some(_) | None => {
                self.unset(key);
                Ok(())
            }
        }
    }

    /// The key is set, after all others, and isn't set as it was.
    fn set(&mut self, set: ShadeKey) -> Result<(), AllocError>
        ensures now { self.new.now ≡ self.old.now }
        ensures keys { OnOk result (self.new.keys.items ≡ set_anew set self.old.keys.items) }
    {
        self.unset(set.key);
        let place = place_for(self.keys.as_slice(), set.due);
        self.keys.insert(place, set)?;
        Ok(())
    }

    /// The key isn't set.
    fn unset(&mut self, key: TimerKey)
        ensures now { self.new.now ≡ self.old.now }
        ensures keys { self.new.keys.items ≡ unset key self.old.keys.items }
    {
        keep_others(&mut self.keys, key);
    }
}

/// The thread that makes the event, on its own processor.
fn maker_of(script: &Script, event: &Event) -> Option<ThreadNo>
    ensures { result ≡ maker_of script.now event.now }
{
    match event.thread {
        Some(thread) if script.cpu_of(thread) == event.cpu => Some(thread),
        Some(_) | None => None,
    }
}

/// Whether the keys are the same.
fn is_key(a: TimerKey, b: TimerKey) -> bool
    ensures { result ≡ same_key a b }
{
    a == b
}

/// Keeps what is set of other keys.
fn keep_others(keys: &mut Vec<ShadeKey>, key: TimerKey)
    ensures { keys.new.items ≡ unset key keys.old.items }
{
    keys.retain(
        |set| -> bool
            ensures { result ≡ not (same_key key set.now.key) }
        { !is_key(key, set.key) },
    );
}

/// What is set of the key.
fn found(keys: &[ShadeKey], key: TimerKey) -> Option<ShadeKey>
    ensures { result ≡ find (λ x. same_key key x.key) keys.now }
{
    keys.iter().copied().find(|set| is_key(key, set.key))
}

/// Where a key that is due then belongs: behind all that aren't due later.
fn place_for(keys: &[ShadeKey], due: u64) -> usize
    ensures place { result ≡ place_for due keys.now }
    ensures bound { result ≤ length keys.now }
{
    let mut place = 0;
    for other in keys {
        if due < other.due {
            return place;
        }
        place += 1;
    }
    place
}
