//! DPC objects and the DPC queues of two processors.
ghost use Rattle.std.specs.Prelude.{◌≡◌};
ghost use Rattle.nt_event.specs.Numbers.{cpu};
ghost use Rattle.nt_dpc.specs.Queues.{new_queue};

use crate::writing::{no_such_case, write};
use nt_dpc::{DpcObject, DpcQueue};
use nt_event::{CpuNo, DpcNo, Part};
use std::io;

const OWN: CpuNo = CpuNo(0);

const OTHER: CpuNo = CpuNo(1);

/// Writes the answers of a case.
pub fn answer(rt: HostRuntime, case: &str) -> io::Result<()> {
    let mut own = DpcQueue::new(rt.alloc(), OWN, 2, 4)?;
    answer_on(rt, case, &mut own)
}

/// With an empty queue of processor 0.
fn answer_on(rt: HostRuntime, case: &str, own: &mut DpcQueue) -> io::Result<()>
    requires { own.old ≡ new_queue (cpu 0) 2 4 }
{
    let mut other = DpcQueue::new(rt.alloc(), OTHER, 2, 4)?;
    make_calls(rt, case, own, &mut other)
}

/// Makes the calls of a case, with an empty queue of each processor.
fn make_calls(
    rt: HostRuntime,
    case: &str,
    own: &mut DpcQueue,
    other: &mut DpcQueue,
) -> io::Result<()>
    requires own { own.old ≡ new_queue (cpu 0) 2 4 }
    requires other { other.old ≡ new_queue (cpu 1) 2 4 }
{
    match case {
        "an object is removed that was never inserted" => never_inserted(rt, own),
        "an object is inserted that is queued" => inserted_again(rt, own, other),
        "the target changes while the object is queued" => target_changes(rt, own, other),
        "an object is removed once it is taken" => removed_once_taken(rt, own),
        "numbers of inserts fall" => numbers_fall(rt, own),
        "a processor rests twice and runs twice" => rests_twice(rt, own),
        _ => no_such_case(rt),
    }
}

fn never_inserted(rt: HostRuntime, own: &mut DpcQueue) -> io::Result<()>
    requires { own.old ≡ new_queue (cpu 0) 2 4 }
{
    let mut never = DpcObject::new(DpcNo(0), false);
    write(rt, "remove", &own.remove(&mut never))?;
    write(rt, "standing", &never.standing())?;
    write(rt, "insert", &own.insert(&mut never, OWN, 1))
}

/// The second insert is into another processor's queue, the third by another processor.
fn inserted_again(rt: HostRuntime, own: &mut DpcQueue, other: &mut DpcQueue) -> io::Result<()>
    requires own { own.old ≡ new_queue (cpu 0) 2 4 }
    requires other { other.old ≡ new_queue (cpu 1) 2 4 }
{
    let mut d = DpcObject::new(DpcNo(0), false);
    write(rt, "insert", &own.insert(&mut d, OWN, 1))?;
    write(rt, "insert", &other.insert(&mut d, OTHER, 2))?;
    write(rt, "insert", &own.insert(&mut d, OTHER, 3))?;
    write(rt, "standing", &d.standing())
}

/// It is removed where it is, and goes to its target by the next insert.
fn target_changes(rt: HostRuntime, own: &mut DpcQueue, other: &mut DpcQueue) -> io::Result<()>
    requires own { own.old ≡ new_queue (cpu 0) 2 4 }
    requires other { other.old ≡ new_queue (cpu 1) 2 4 }
{
    let mut moved = DpcObject::new(DpcNo(0), false);
    write(rt, "insert", &own.insert(&mut moved, OWN, 1))?;
    moved.set_target(Some(OTHER));
    write(rt, "standing", &moved.standing())?;
    write(rt, "remove", &own.remove(&mut moved))?;
    write(rt, "insert", &other.insert(&mut moved, OWN, 2))?;
    write(rt, "standing", &moved.standing())
}

fn removed_once_taken(rt: HostRuntime, own: &mut DpcQueue) -> io::Result<()>
    requires { own.old ≡ new_queue (cpu 0) 2 4 }
{
    let mut d = DpcObject::new(DpcNo(0), false);
    write(rt, "insert", &own.insert(&mut d, OWN, 7))?;
    write(rt, "take", &own.take(Part::Ordinary, &mut d))?;
    write(rt, "remove", &own.remove(&mut d))?;
    write(rt, "insert", &own.insert(&mut d, OWN, 8))
}

/// The order of the inserts decides, not their numbers.
fn numbers_fall(rt: HostRuntime, own: &mut DpcQueue) -> io::Result<()>
    requires { own.old ≡ new_queue (cpu 0) 2 4 }
{
    let mut a = DpcObject::new(DpcNo(0), false);
    let mut b = DpcObject::new(DpcNo(1), false);
    own.insert(&mut a, OWN, 9);
    own.insert(&mut b, OWN, 4);
    write(rt, "first", &own.first(Part::Ordinary))?;
    write(rt, "remove", &own.remove(&mut a))?;
    write(rt, "first", &own.first(Part::Ordinary))
}

fn rests_twice(rt: HostRuntime, own: &mut DpcQueue) -> io::Result<()> {
    own.rest();
    own.rest();
    write(rt, "idle", &own.is_idle())?;
    own.run();
    own.run();
    write(rt, "idle", &own.is_idle())
}
