//! The timers and delays of a script: two timers and the delay of a thread.
ghost use Rattle.std.specs.Prelude.{◌≡◌};
ghost use Rattle.nt_timer.specs.Settings.{new_timers};

use crate::writing::{no_such_case, write};
use nt_event::{ThreadNo, TimerNo};
use nt_timer::TimerQueue;
use std::io;

const A: TimerNo = TimerNo(0);

const B: TimerNo = TimerNo(1);

/// A number that no timer has.
const NONE: TimerNo = TimerNo(9);

const W: ThreadNo = ThreadNo(0);

/// Writes the answers of a case.
pub fn answer(rt: HostRuntime, case: &str) -> io::Result<()> {
    let mut queue = TimerQueue::new(rt.alloc(), 2, 1)?;
    make_calls(rt, case, &mut queue)
}

/// Makes the calls of a case; nothing is set.
fn make_calls(rt: HostRuntime, case: &str, queue: &mut TimerQueue) -> io::Result<()>
    requires { queue.old ≡ new_timers 2 1 }
{
    match case {
        "a timer is cancelled that was never set" => never_set(rt, queue),
        "a timer is set twice" => set_twice(rt, queue),
        "time advances by 0" => advances_by_0(rt, queue),
        "a delay is taken back" => taken_back(rt, queue),
        "a delay is due in the past" => due_in_the_past(rt, queue),
        "numbers of sets fall" => numbers_fall(rt, queue),
        _ => no_such_case(rt),
    }
}

/// The first due key expires, if one is due.
fn expire(rt: HostRuntime, queue: &mut TimerQueue, n: u64) -> io::Result<()> {
    if let Some((key, _)) = queue.first_due() {
        write(rt, "due", &key)?;
        return write(rt, "expire", &queue.expire(key, n));
    }
    write(rt, "is something due", &false)
}

fn never_set(rt: HostRuntime, queue: &mut TimerQueue) -> io::Result<()>
    requires { queue.old ≡ new_timers 2 1 }
{
    write(rt, "cancel", &queue.cancel(B))?;
    write(rt, "cancel", &queue.cancel(NONE))?;
    write(rt, "is set", &queue.is_set(NONE))?;
    expire(rt, queue, 1)
}

fn set_twice(rt: HostRuntime, queue: &mut TimerQueue) -> io::Result<()>
    requires { queue.old ≡ new_timers 2 1 }
{
    write(rt, "set", &queue.set(A, 5, 0, 1))?;
    write(rt, "set", &queue.set(A, 9, 0, 2))?;
    queue.advance(5);
    write(rt, "first", &queue.first_due())?;
    queue.advance(4);
    write(rt, "first", &queue.first_due())
}

fn advances_by_0(rt: HostRuntime, queue: &mut TimerQueue) -> io::Result<()>
    requires { queue.old ≡ new_timers 2 1 }
{
    queue.advance(0);
    write(rt, "set", &queue.set(A, 1, 0, 1))?;
    queue.advance(0);
    write(rt, "first", &queue.first_due())?;
    write(rt, "set", &queue.set(A, 0, 0, 2))?;
    queue.advance(0);
    write(rt, "first", &queue.first_due())?;
    write(rt, "now", &queue.now())
}

/// No call cancels a delay. One that is due at 2^54 or later, which the time never reaches, takes
/// its place.
fn taken_back(rt: HostRuntime, queue: &mut TimerQueue) -> io::Result<()>
    requires { queue.old ≡ new_timers 2 1 }
{
    queue.set_delay(W, 3, 1);
    write(rt, "cancel", &queue.cancel(A))?;
    queue.advance(3);
    write(rt, "first", &queue.first_due())?;
    queue.set_delay(W, 18_446_744_073_709_551_615, 2);
    write(rt, "first", &queue.first_due())?;
    queue.advance(4_294_967_295);
    write(rt, "first", &queue.first_due())
}

fn due_in_the_past(rt: HostRuntime, queue: &mut TimerQueue) -> io::Result<()>
    requires { queue.old ≡ new_timers 2 1 }
{
    queue.advance(10);
    write(rt, "set", &queue.set(A, 0, 0, 1))?;
    queue.set_delay(W, 4, 2);
    expire(rt, queue, 3)?;
    expire(rt, queue, 4)?;
    expire(rt, queue, 5)
}

/// Of keys that are due at one time the one of least number comes first, whichever was set first.
fn numbers_fall(rt: HostRuntime, queue: &mut TimerQueue) -> io::Result<()>
    requires { queue.old ≡ new_timers 2 1 }
{
    write(rt, "set", &queue.set(A, 5, 0, 9))?;
    write(rt, "set", &queue.set(B, 5, 0, 4))?;
    queue.advance(5);
    expire(rt, queue, 2)?;
    expire(rt, queue, 3)
}
