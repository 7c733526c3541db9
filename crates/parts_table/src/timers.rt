//! The timers and delays of a script: the worked examples.
ghost use Rattle.std.specs.Prelude.{◌≡◌};
ghost use Rattle.nt_timer.specs.Settings.{new_timers};

use crate::writing::{no_such_case, write};
use nt_event::{ThreadNo, TimerKey, TimerNo};
use nt_timer::{Expired, SetAnswer, TimerQueue};
use std::io;

/// Writes the answers of a case.
pub fn answer(rt: HostRuntime, case: &str) -> io::Result<()> {
    let mut queue = TimerQueue::new(rt.alloc(), 3, 1)?;
    make_calls(rt, case, &mut queue)
}

/// Makes the calls of a case; nothing is set.
fn make_calls(rt: HostRuntime, case: &str, queue: &mut TimerQueue) -> io::Result<()>
    requires { queue.old ≡ new_timers 3 1 }
{
    match case {
        "a timer is set and cancelled" => set_and_cancelled(rt, queue),
        "due keys expire by due time then by number" => due_keys_expire_in_order(rt, queue),
        "a late periodic timer expires once and counts from then" => {
            a_late_periodic_timer(rt, queue)
        }
        "a delay replaces the one before" => a_second_delay(rt, queue),
        _ => no_such_case(rt),
    }
}

/// Writes the key that is due first, if any.
pub(crate) fn write_first(rt: HostRuntime, queue: &TimerQueue) -> io::Result<()> {
    write(rt, "first", &queue.first_due())
}

pub(crate) fn write_set(rt: HostRuntime, answer: SetAnswer) -> io::Result<()> {
    write(rt, "set", &answer)
}

pub(crate) fn write_expiry(rt: HostRuntime, expired: Expired) -> io::Result<()> {
    write(rt, "expire", &expired)
}

fn set_and_cancelled(rt: HostRuntime, queue: &mut TimerQueue) -> io::Result<()>
    requires { queue.old ≡ new_timers 3 1 }
{
    let t = TimerNo(0);
    write(rt, "is set", &queue.is_set(t))?;
    write_set(rt, queue.set(t, 1, 0, 2))?;
    write(rt, "is set", &queue.is_set(t))?;
    write_set(rt, queue.set(t, 0, 0, 3))?;
    write_first(rt, queue)?;
    write(rt, "cancel", &queue.cancel(t))?;
    write(rt, "is set", &queue.is_set(t))?;
    write(rt, "cancel", &queue.cancel(t))?;
    write_first(rt, queue)
}

fn due_keys_expire_in_order(rt: HostRuntime, queue: &mut TimerQueue) -> io::Result<()>
    requires { queue.old ≡ new_timers 3 1 }
{
    let [a, b, c] = [TimerNo(0), TimerNo(1), TimerNo(2)];
    let w = ThreadNo(0);
    queue.set(a, 5, 0, 3);
    queue.set(b, 4, 0, 4);
    queue.set_delay(w, 5, 1);
    queue.set(c, 9, 0, 2);
    write_first(rt, queue)?;
    queue.advance(5);
    write(rt, "now", &queue.now())?;
    write_first(rt, queue)?;
    write_expiry(rt, queue.expire(TimerKey::Timer(b), 7))?;
    write_first(rt, queue)?;
    write_expiry(rt, queue.expire(TimerKey::Delay(w), 8))?;
    write_first(rt, queue)?;
    write_expiry(rt, queue.expire(TimerKey::Timer(a), 9))?;
    write_first(rt, queue)?;
    write(rt, "is set", &queue.is_set(c))
}

fn a_late_periodic_timer(rt: HostRuntime, queue: &mut TimerQueue) -> io::Result<()>
    requires { queue.old ≡ new_timers 3 1 }
{
    let t = TimerNo(0);
    queue.set(t, 1, 1, 1);
    queue.advance(3);
    write_first(rt, queue)?;
    write_expiry(rt, queue.expire(TimerKey::Timer(t), 5))?;
    write_first(rt, queue)?;
    queue.advance(1);
    write_first(rt, queue)
}

fn a_second_delay(rt: HostRuntime, queue: &mut TimerQueue) -> io::Result<()>
    requires { queue.old ≡ new_timers 3 1 }
{
    let w = ThreadNo(0);
    queue.set_delay(w, 3, 1);
    queue.set_delay(w, 4, 2);
    queue.advance(3);
    write_first(rt, queue)?;
    queue.advance(1);
    write_first(rt, queue)
}
