//! The APC queues of a thread.
use crate::writing::{no_such_case, write};
use nt_apc::{ApcKind, ApcNo, ApcQueues, Pick};
use std::io;

/// Writes the answers of a case.
pub fn answer(rt: HostRuntime, case: &str) -> io::Result<()> {
    let mut queues = ApcQueues::new(rt.alloc(), 2)?;
    make_calls(rt, case, &mut queues)
}

/// Makes the calls of a case, with empty queues.
fn make_calls(rt: HostRuntime, case: &str, queues: &mut ApcQueues) -> io::Result<()> {
    match case {
        "an object is removed that was never inserted" => never_inserted(rt, queues),
        "queues without a user apc are flushed" => flushed_empty(rt, queues),
        "an apc is taken that is not queued" => taken_unqueued(rt, queues),
        "doors are closed twice" => closed_twice(rt, queues),
        "an object comes back as another kind" => another_kind(rt, queues),
        "numbers of inserts fall" => numbers_fall(rt, queues),
        _ => no_such_case(rt),
    }
}

fn never_inserted(rt: HostRuntime, queues: &mut ApcQueues) -> io::Result<()> {
    write(rt, "remove", &queues.remove(ApcNo(255)))?;
    write(
        rt,
        "insert",
        &queues.insert(ApcNo(255), ApcKind::Special, 1),
    )?;
    write(rt, "remove", &queues.remove(ApcNo(255)))?;
    write(rt, "remove", &queues.remove(ApcNo(255)))
}

fn flushed_empty(rt: HostRuntime, queues: &mut ApcQueues) -> io::Result<()> {
    write(rt, "flush", &queues.flush_next())?;
    write(rt, "insert", &queues.insert(ApcNo(0), ApcKind::Normal, 1))?;
    write(rt, "flush", &queues.flush_next())?;
    write(rt, "has kernel", &queues.has_kernel())
}

/// A take is by the object alone, whatever kind and number the pick has.
fn taken_unqueued(rt: HostRuntime, queues: &mut ApcQueues) -> io::Result<()> {
    write(rt, "insert", &queues.insert(ApcNo(0), ApcKind::Normal, 4))?;
    queues.take(Pick {
        apc: ApcNo(1),
        kind: ApcKind::Normal,
        number: 4,
    });
    write(rt, "has kernel", &queues.has_kernel())?;
    queues.take(Pick {
        apc: ApcNo(0),
        kind: ApcKind::Special,
        number: 9,
    });
    write(rt, "has kernel", &queues.has_kernel())
}

fn closed_twice(rt: HostRuntime, queues: &mut ApcQueues) -> io::Result<()> {
    write(rt, "insert", &queues.insert(ApcNo(0), ApcKind::User, 1))?;
    queues.close_doors();
    queues.close_doors();
    write(rt, "insert", &queues.insert(ApcNo(1), ApcKind::User, 2))?;
    write(rt, "remove", &queues.remove(ApcNo(0)))?;
    write(rt, "insert", &queues.insert(ApcNo(0), ApcKind::User, 3))?;
    write(rt, "flush", &queues.flush_next())
}

fn another_kind(rt: HostRuntime, queues: &mut ApcQueues) -> io::Result<()> {
    write(rt, "insert", &queues.insert(ApcNo(0), ApcKind::Normal, 1))?;
    write(rt, "insert", &queues.insert(ApcNo(0), ApcKind::User, 2))?;
    write(rt, "remove", &queues.remove(ApcNo(0)))?;
    write(rt, "insert", &queues.insert(ApcNo(0), ApcKind::User, 3))?;
    write(rt, "has kernel", &queues.has_kernel())?;
    write(rt, "first user", &queues.user_first())
}

/// The order of the inserts decides, not their numbers.
fn numbers_fall(rt: HostRuntime, queues: &mut ApcQueues) -> io::Result<()> {
    write(rt, "insert", &queues.insert(ApcNo(0), ApcKind::User, 9))?;
    write(rt, "insert", &queues.insert(ApcNo(1), ApcKind::User, 4))?;
    write(rt, "first user", &queues.user_first())?;
    write(rt, "flush", &queues.flush_next())?;
    write(rt, "flush", &queues.flush_next())
}
