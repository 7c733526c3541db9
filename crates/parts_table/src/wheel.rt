//! In which slots of the timer wheel keys are, and in which order they come due. A key is a timer
//! or a thread's delay; it is in a slot by the greatest digit of six bits in which its due time
//! differs from the time.
ghost use Rattle.std.specs.Prelude.{◌≡◌};
ghost use Rattle.nt_timer.specs.Settings.{new_timers};

use crate::timers::{write_expiry, write_first, write_set};
use crate::writing::{no_such_case, write};
use nt_event::{ThreadNo, TimerKey, TimerNo};
use nt_timer::{Slot, TimerQueue};
use std::io;

const A: TimerNo = TimerNo(0);

const B: TimerNo = TimerNo(1);

const C: TimerNo = TimerNo(2);

const W: ThreadNo = ThreadNo(0);

/// Writes the answers of a case.
pub fn answer(rt: HostRuntime, case: &str) -> io::Result<()> {
    let mut queue = TimerQueue::new(rt.alloc(), 3, 1)?;
    make_calls(rt, case, &mut queue)
}

/// Makes the calls of a case; nothing is set.
fn make_calls(rt: HostRuntime, case: &str, queue: &mut TimerQueue) -> io::Result<()>
    requires { queue.old ≡ new_timers 3 1 }
{
    match case {
        "a key goes down the levels and comes due" => down_the_levels(rt, queue),
        "the greatest digit that differs" => greatest_digit(rt, queue),
        "the unit before a level's edge, and the edge" => at_an_edge(rt, queue),
        "keys of one slot come due by due time, then by number" => keys_of_one_slot(rt, queue),
        "keys of several levels come due in one advance" => keys_of_several_levels(rt, queue),
        "a key that is taken back or set anew leaves its slot" => set_anew(rt, queue),
        "a periodic timer stands anew" => periodic(rt, queue),
        "due times that are never reached" => never_reached(rt, queue),
        _ => no_such_case(rt),
    }
}

/// Writes where the key is in the wheel, if it is there.
fn write_place(rt: HostRuntime, place: Option<Slot>) -> io::Result<()> {
    write(rt, "place", &place)
}

fn down_the_levels(rt: HostRuntime, queue: &mut TimerQueue) -> io::Result<()>
    requires { queue.old ≡ new_timers 3 1 }
{
    write_place(rt, queue.place(TimerKey::Timer(A)))?;
    queue.set(A, 70, 0, 1);
    write_place(rt, queue.place(TimerKey::Timer(A)))?;
    queue.advance(64);
    write_place(rt, queue.place(TimerKey::Timer(A)))?;
    queue.advance(6);
    write_place(rt, queue.place(TimerKey::Timer(A)))?;
    write_first(rt, queue)
}

fn greatest_digit(rt: HostRuntime, queue: &mut TimerQueue) -> io::Result<()>
    requires { queue.old ≡ new_timers 3 1 }
{
    queue.set(A, 4_294_967_295, 0, 1);
    queue.set(B, 63, 0, 2);
    queue.set(C, 64, 0, 3);
    queue.set_delay(W, 2_251_799_813_685_247, 4);
    write_place(rt, queue.place(TimerKey::Timer(A)))?;
    write_place(rt, queue.place(TimerKey::Timer(B)))?;
    write_place(rt, queue.place(TimerKey::Timer(C)))?;
    write_place(rt, queue.place(TimerKey::Delay(W)))?;
    write_first(rt, queue)
}

fn at_an_edge(rt: HostRuntime, queue: &mut TimerQueue) -> io::Result<()>
    requires { queue.old ≡ new_timers 3 1 }
{
    queue.set(A, 4096, 0, 1);
    queue.set(B, 4097, 0, 2);
    queue.advance(4095);
    write_place(rt, queue.place(TimerKey::Timer(A)))?;
    write_place(rt, queue.place(TimerKey::Timer(B)))?;
    write_first(rt, queue)?;
    queue.advance(1);
    write_place(rt, queue.place(TimerKey::Timer(A)))?;
    write_place(rt, queue.place(TimerKey::Timer(B)))?;
    write_first(rt, queue)
}

fn keys_of_one_slot(rt: HostRuntime, queue: &mut TimerQueue) -> io::Result<()>
    requires { queue.old ≡ new_timers 3 1 }
{
    queue.set(A, 70, 0, 1);
    queue.set(B, 66, 0, 4);
    queue.set(C, 70, 0, 3);
    queue.set_delay(W, 66, 2);
    queue.advance(100);
    write_first(rt, queue)?;
    write_expiry(rt, queue.expire(TimerKey::Delay(W), 5))?;
    write_first(rt, queue)?;
    write(rt, "cancel", &queue.cancel(B))?;
    write_first(rt, queue)?;
    write(rt, "cancel", &queue.cancel(A))?;
    write_first(rt, queue)
}

fn keys_of_several_levels(rt: HostRuntime, queue: &mut TimerQueue) -> io::Result<()>
    requires { queue.old ≡ new_timers 3 1 }
{
    queue.set(A, 300_000, 0, 1);
    queue.set(B, 5000, 0, 2);
    queue.set(C, 3, 0, 3);
    queue.set_delay(W, 4_000_000_000, 4);
    queue.advance(4_294_967_295);
    write_first(rt, queue)?;
    write(rt, "cancel", &queue.cancel(C))?;
    write_first(rt, queue)?;
    write(rt, "cancel", &queue.cancel(B))?;
    write_first(rt, queue)?;
    write(rt, "cancel", &queue.cancel(A))?;
    write_first(rt, queue)
}

fn set_anew(rt: HostRuntime, queue: &mut TimerQueue) -> io::Result<()>
    requires { queue.old ≡ new_timers 3 1 }
{
    queue.set(A, 5, 0, 1);
    queue.set(B, 5, 0, 2);
    write(rt, "cancel", &queue.cancel(A))?;
    write_set(rt, queue.set(B, 200, 0, 3))?;
    queue.advance(5);
    write_first(rt, queue)?;
    write_place(rt, queue.place(TimerKey::Timer(B)))?;
    write_set(rt, queue.set(A, 0, 0, 4))?;
    write_first(rt, queue)?;
    write_set(rt, queue.set(A, 1, 0, 5))?;
    write_first(rt, queue)?;
    write_place(rt, queue.place(TimerKey::Timer(A)))
}

fn periodic(rt: HostRuntime, queue: &mut TimerQueue) -> io::Result<()>
    requires { queue.old ≡ new_timers 3 1 }
{
    queue.set(A, 1, 64, 1);
    queue.advance(2);
    write_expiry(rt, queue.expire(TimerKey::Timer(A), 2))?;
    write_place(rt, queue.place(TimerKey::Timer(A)))?;
    write_first(rt, queue)?;
    queue.advance(64);
    write_first(rt, queue)
}

fn never_reached(rt: HostRuntime, queue: &mut TimerQueue) -> io::Result<()>
    requires { queue.old ≡ new_timers 3 1 }
{
    queue.set_delay(W, 18_014_398_509_481_984, 1);
    write_place(rt, queue.place(TimerKey::Delay(W)))?;
    queue.set_delay(W, 18_446_744_073_709_551_615, 2);
    write_place(rt, queue.place(TimerKey::Delay(W)))?;
    queue.advance(4_294_967_295);
    write_place(rt, queue.place(TimerKey::Delay(W)))?;
    write_first(rt, queue)
}
