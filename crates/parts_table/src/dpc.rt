//! DPC objects and one DPC queue: the worked examples, and the table of what an ordinary insert
//! asks for.
ghost use Rattle.std.specs.Prelude.{◌≡◌, IfOk};
ghost use Rattle.nt_event.specs.Numbers.{cpu};
ghost use Rattle.nt_dpc.specs.Queues.{new_queue, with_idle};

use crate::writing::{no_such_case, write, write_both};
use nt_dpc::{DpcObject, DpcQueue, Inserted};
use nt_event::{CpuNo, DpcNo, Importance, Part};
use std::alloc::{AllocError, Global};
use std::io;

const OWN: CpuNo = CpuNo(0);

/// Writes the answers of a case.
pub fn answer(rt: HostRuntime, case: &str) -> io::Result<()> {
    match case {
        "an ordinary insert asks by the table" => ordinary_inserts_ask(rt),
        "only the insert above the depth limit asks" => answer_of_depth(rt),
        "the first is taken until there is none" => answer_of_firsts(rt),
        _ => answer_of_a_queue(rt, case),
    }
}

/// Writes the answers of the case of a depth limit.
fn answer_of_depth(rt: HostRuntime) -> io::Result<()> {
    let mut queue = DpcQueue::new(rt.alloc(), OWN, 4, 2)?;
    a_deep_insert_asks(rt, &mut queue)
}

/// Writes the answers of the case in which the queue is for two objects, which are all there are.
fn answer_of_firsts(rt: HostRuntime) -> io::Result<()> {
    let mut queue = DpcQueue::new(rt.alloc(), OWN, 2, 4)?;
    firsts_are_taken(rt, &mut queue)
}

/// Writes the answers of a case that begins with an empty queue.
fn answer_of_a_queue(rt: HostRuntime, case: &str) -> io::Result<()> {
    let mut queue = DpcQueue::new(rt.alloc(), OWN, 4, 4)?;
    make_calls(rt, case, &mut queue)
}

fn make_calls(rt: HostRuntime, case: &str, queue: &mut DpcQueue) -> io::Result<()>
    requires { queue.old ≡ new_queue (cpu 0) 4 4 }
{
    match case {
        "high inserts come first and the newest of them" => high_inserts_come_first(rt, queue),
        "an object is inserted once and removed once" => once_in_and_once_out(rt, queue),
        "a threaded dpc stands in its own part" => a_threaded_insert(rt, queue),
        "a target decides the queue and a rest the idle mark" => targets_and_rests(rt, queue),
        _ => no_such_case(rt),
    }
}

/// A queue of processor 0 for one object, whose processor is idle or not.
fn queue(alloc: Global, limit: u32, idle: bool) -> Result<DpcQueue, AllocError>
    ensures { IfOk result (λ q. q ≡ with_idle idle (new_queue (cpu 0) 1 limit)) }
{
    let mut queue = DpcQueue::new(alloc, OWN, 1, limit)?;
    if idle {
        queue.rest();
    } else {
        queue.run();
    }
    Ok(queue)
}

/// The class that an ordinary insert into the queue of processor 0 by `by` asks for.
fn ask(
    alloc: Global,
    importance: Importance,
    by: CpuNo,
    limit: u32,
    idle: bool,
) -> Result<Option<u8>, AllocError> {
    let mut queue = queue(alloc, limit, idle)?;
    let mut object = DpcObject::new(DpcNo(0), false);
    object.set_importance(importance);
    object.set_target(Some(OWN));
    Ok(queue.insert(&mut object, by, 7).ask)
}

/// Writes what inserts of this importance by a processor ask for: neither deep nor idle, idle,
/// deep, deep and idle.
fn write_asks(rt: HostRuntime, importance: Importance, by: CpuNo) -> io::Result<()> {
    let neither = ask(rt.alloc(), importance, by, 1, false)?;
    let idle = ask(rt.alloc(), importance, by, 1, true)?;
    let deep = ask(rt.alloc(), importance, by, 0, false)?;
    let both = ask(rt.alloc(), importance, by, 0, true)?;
    println!(rt;
        "  {importance:?} by {}: {neither:?} {idle:?} {deep:?} {both:?}",
        by.0
    )
}

fn ordinary_inserts_ask(rt: HostRuntime) -> io::Result<()> {
    write_asks(rt, Importance::Low, OWN)?;
    write_asks(rt, Importance::Low, CpuNo(1))?;
    write_asks(rt, Importance::Medium, OWN)?;
    write_asks(rt, Importance::Medium, CpuNo(1))?;
    write_asks(rt, Importance::MediumHigh, OWN)?;
    write_asks(rt, Importance::MediumHigh, CpuNo(1))?;
    write_asks(rt, Importance::High, OWN)?;
    write_asks(rt, Importance::High, CpuNo(1))
}

fn high_inserts_come_first(rt: HostRuntime, queue: &mut DpcQueue) -> io::Result<()>
    requires { queue.old ≡ new_queue (cpu 0) 4 4 }
{
    let mut a = DpcObject::new(DpcNo(0), false);
    let mut b = DpcObject::new(DpcNo(1), false);
    let mut c = DpcObject::new(DpcNo(2), false);
    let mut e = DpcObject::new(DpcNo(3), false);
    b.set_importance(Importance::High);
    c.set_importance(Importance::High);
    e.set_importance(Importance::Low);
    queue.insert(&mut a, OWN, 5);
    queue.insert(&mut b, OWN, 6);
    queue.insert(&mut c, OWN, 7);
    queue.insert(&mut e, OWN, 8);
    write(rt, "first", &queue.first(Part::Ordinary))?;
    write(rt, "take", &queue.take(Part::Ordinary, &mut c))?;
    write(rt, "first", &queue.first(Part::Ordinary))?;
    write(rt, "take", &queue.take(Part::Ordinary, &mut b))?;
    write(rt, "first", &queue.first(Part::Ordinary))?;
    write(rt, "take", &queue.take(Part::Ordinary, &mut a))?;
    write(rt, "first", &queue.first(Part::Ordinary))?;
    write(rt, "take", &queue.take(Part::Ordinary, &mut e))?;
    write(rt, "first", &queue.first(Part::Ordinary))
}

fn a_deep_insert_asks(rt: HostRuntime, queue: &mut DpcQueue) -> io::Result<()>
    requires { queue.old ≡ new_queue (cpu 0) 4 2 }
{
    let mut first = DpcObject::new(DpcNo(0), false);
    let mut second = DpcObject::new(DpcNo(1), false);
    let mut third = DpcObject::new(DpcNo(2), false);
    first.set_importance(Importance::Low);
    second.set_importance(Importance::Low);
    third.set_importance(Importance::Low);
    write(rt, "insert", &queue.insert(&mut first, OWN, 6))?;
    write(rt, "insert", &queue.insert(&mut second, OWN, 7))?;
    write(rt, "answer", &queue.answer(&third, OWN))?;
    write(rt, "insert", &queue.insert(&mut third, OWN, 8))
}

fn once_in_and_once_out(rt: HostRuntime, queue: &mut DpcQueue) -> io::Result<()>
    requires { queue.old ≡ new_queue (cpu 0) 4 4 }
{
    let mut d = DpcObject::new(DpcNo(0), false);
    write(rt, "insert", &queue.insert(&mut d, OWN, 2))?;
    write_both(
        rt,
        "standing",
        &d.standing(),
        "held",
        &queue.holds(DpcNo(0)),
    )?;
    write(rt, "answer", &queue.answer(&d, OWN))?;
    write(rt, "insert", &queue.insert(&mut d, OWN, 3))?;
    write(rt, "remove", &queue.remove(&mut d))?;
    write_both(
        rt,
        "standing",
        &d.standing(),
        "held",
        &queue.holds(DpcNo(0)),
    )?;
    write(rt, "remove", &queue.remove(&mut d))
}

fn a_threaded_insert(rt: HostRuntime, queue: &mut DpcQueue) -> io::Result<()>
    requires { queue.old ≡ new_queue (cpu 0) 4 4 }
{
    let mut w = DpcObject::new(DpcNo(0), true);
    write(rt, "insert", &queue.insert(&mut w, OWN, 2))?;
    write(rt, "first ordinary", &queue.first(Part::Ordinary))?;
    write(rt, "first threaded", &queue.first(Part::Threaded))?;
    write(rt, "take", &queue.take(Part::Threaded, &mut w))
}

/// Writes whose queue an insert is for.
fn write_target(rt: HostRuntime, target: &str, cpu: CpuNo) -> io::Result<()> {
    println!(rt; "  {target}: queue of {}", cpu.0)
}

/// Writes whether the queue's processor is idle, and after what.
fn write_idle(rt: HostRuntime, idle: bool, after: &str) -> io::Result<()> {
    println!(rt; "  idle {idle}{after}")
}

fn targets_and_rests(rt: HostRuntime, queue: &mut DpcQueue) -> io::Result<()>
    requires { queue.old ≡ new_queue (cpu 0) 4 4 }
{
    let mut d = DpcObject::new(DpcNo(0), false);
    write_target(rt, "no target", d.queue_for(CpuNo(3)))?;
    d.set_target(Some(CpuNo(1)));
    write_target(rt, "target 1", d.queue_for(CpuNo(3)))?;
    d.set_target(None);
    write_target(rt, "no target", d.queue_for(CpuNo(3)))?;
    write_idle(rt, queue.is_idle(), "")?;
    queue.rest();
    write_idle(rt, queue.is_idle(), " after a rest")?;
    queue.run();
    write_idle(rt, queue.is_idle(), " after a switch")
}

fn firsts_are_taken(rt: HostRuntime, queue: &mut DpcQueue) -> io::Result<()>
    requires { queue.old ≡ new_queue (cpu 0) 2 4 }
{
    let mut a = DpcObject::new(DpcNo(0), false);
    let mut b = DpcObject::new(DpcNo(1), false);
    b.set_importance(Importance::High);
    queue.insert(&mut a, OWN, 5);
    queue.insert(&mut b, OWN, 6);
    let mut objects = [a, b];
    write(rt, "take", &queue.take_first(Part::Ordinary, &mut objects))?;
    write(rt, "take", &queue.take_first(Part::Threaded, &mut objects))?;
    write(rt, "take", &queue.take_first(Part::Ordinary, &mut objects))?;
    write(rt, "take", &queue.take_first(Part::Ordinary, &mut objects))?;
    write_both(
        rt,
        "standing",
        &objects[1].standing(),
        "held",
        &queue.holds(DpcNo(1)),
    )
}
