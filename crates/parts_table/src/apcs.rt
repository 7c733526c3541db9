//! The APC queues of a thread, and what regions and levels let through as a table.
use crate::writing::{no_such_case, write};
use nt_apc::{ApcKind, ApcNo, ApcQueues, Level, Pick, Regions};
use std::alloc::{AllocError, Global};
use std::io;

const FREE: Regions = Regions {
    crit: 0,
    guard: 0,
    busy: false,
};

/// Writes the answers of a case.
pub fn answer(rt: HostRuntime, case: &str) -> io::Result<()> {
    match case {
        "regions and levels hold back" => held_back(rt),
        _ => answer_of_queues(rt, case),
    }
}

/// Writes the answers of a case that begins with empty queues.
fn answer_of_queues(rt: HostRuntime, case: &str) -> io::Result<()> {
    let mut queues = ApcQueues::new(rt.alloc(), 3)?;
    make_calls(rt, case, &mut queues)
}

fn make_calls(rt: HostRuntime, case: &str, queues: &mut ApcQueues) -> io::Result<()> {
    match case {
        "special ones stand before normal ones" => special_before_normal(rt, queues),
        "an object is inserted once" => once_in(rt, queues),
        "closed doors take no more and user apcs are flushed" => closed_doors(rt, queues),
        _ => no_such_case(rt),
    }
}

fn pick(apc: u16, kind: ApcKind, number: u64) -> Pick {
    Pick {
        apc: ApcNo(apc),
        kind,
        number,
    }
}

/// Writes the user APC that is flushed next, if any.
fn write_flush(rt: HostRuntime, queues: &mut ApcQueues) -> io::Result<()> {
    write(rt, "flush", &queues.flush_next())
}

/// Writes which APC may be delivered in no region at PASSIVE_LEVEL.
fn write_deliverable(rt: HostRuntime, queues: &ApcQueues) -> io::Result<()> {
    write(rt, "deliverable", &queues.deliverable(FREE, Level::PASSIVE))
}

fn special_before_normal(rt: HostRuntime, queues: &mut ApcQueues) -> io::Result<()> {
    write(rt, "has kernel", &queues.has_kernel())?;
    let normal = queues.insert(ApcNo(0), ApcKind::Normal, 4);
    write(rt, "insert 0", &normal)?;
    let special = queues.insert(ApcNo(1), ApcKind::Special, 7);
    write(rt, "insert 1", &special)?;
    let second = queues.insert(ApcNo(2), ApcKind::Special, 9);
    write(rt, "insert 2", &second)?;
    write(rt, "has kernel", &queues.has_kernel())?;
    write_deliverable(rt, queues)?;
    queues.take(pick(1, ApcKind::Special, 7));
    write_deliverable(rt, queues)?;
    queues.take(pick(2, ApcKind::Special, 9));
    write_deliverable(rt, queues)?;
    queues.take(pick(0, ApcKind::Normal, 4));
    write_deliverable(rt, queues)
}

fn once_in(rt: HostRuntime, queues: &mut ApcQueues) -> io::Result<()> {
    write(rt, "open", &queues.open_for(ApcNo(5)))?;
    write(rt, "insert", &queues.insert(ApcNo(5), ApcKind::User, 1))?;
    write(rt, "open", &queues.open_for(ApcNo(5)))?;
    write(rt, "insert", &queues.insert(ApcNo(5), ApcKind::User, 2))?;
    write(rt, "first", &queues.user_first())?;
    write(rt, "remove", &queues.remove(ApcNo(5)))?;
    write(rt, "remove", &queues.remove(ApcNo(5)))?;
    write(rt, "insert", &queues.insert(ApcNo(5), ApcKind::User, 3))?;
    write(rt, "first", &queues.user_first())
}

fn closed_doors(rt: HostRuntime, queues: &mut ApcQueues) -> io::Result<()> {
    write(rt, "insert 0", &queues.insert(ApcNo(0), ApcKind::User, 4))?;
    write(rt, "insert 1", &queues.insert(ApcNo(1), ApcKind::User, 5))?;
    queues.close_doors();
    write(rt, "insert 2", &queues.insert(ApcNo(2), ApcKind::User, 8))?;
    write_flush(rt, queues)?;
    write_flush(rt, queues)?;
    write_flush(rt, queues)
}

/// Queues with one APC of this kind.
fn with_one(alloc: Global, kind: ApcKind) -> Result<ApcQueues, AllocError> {
    let mut queues = ApcQueues::new(alloc, 1)?;
    queues.insert(ApcNo(0), kind, 0);
    Ok(queues)
}

/// Writes whether an APC that is first is let through, a special and a normal one; whether one of
/// each kind would be if none is queued; and whether a special one would be before the normal one.
fn write_held(rt: HostRuntime, first: [bool; 2], alone: [bool; 3], before: bool) -> io::Result<()> {
    println!(rt;
        "{} {}, {} {} {}, {before}",
        first[0], first[1], alone[0], alone[1], alone[2]
    )
}

/// Whether an APC of this kind that is first is let through.
fn first(alloc: Global, kind: ApcKind, regions: Regions, level: Level) -> Result<bool, AllocError> {
    let queues = with_one(alloc, kind)?;
    Ok(queues.deliverable(regions, level).is_some())
}

/// Whether APCs of each kind would be let through if none is queued.
fn alone(alloc: Global, regions: Regions, level: Level) -> Result<[bool; 3], AllocError> {
    let queues = ApcQueues::new(alloc, 1)?;
    Ok([
        queues.deliverable_with(ApcKind::Special, regions, level),
        queues.deliverable_with(ApcKind::Normal, regions, level),
        queues.deliverable_with(ApcKind::User, regions, level),
    ])
}

/// Whether a special APC would be let through before a normal one.
fn before_normal(alloc: Global, regions: Regions, level: Level) -> Result<bool, AllocError> {
    let queues = with_one(alloc, ApcKind::Normal)?;
    Ok(queues.deliverable_with(ApcKind::Special, regions, level))
}

/// Writes what these regions and this level hold back.
fn write_held_at(rt: HostRuntime, name: &str, regions: Regions, level: Level) -> io::Result<()> {
    let special = first(rt.alloc(), ApcKind::Special, regions, level)?;
    let normal = first(rt.alloc(), ApcKind::Normal, regions, level)?;
    let alone = alone(rt.alloc(), regions, level)?;
    let before = before_normal(rt.alloc(), regions, level)?;
    print!(rt; "  {name} at {}: ", level.number())?;
    write_held(rt, [special, normal], alone, before)
}

fn held_back(rt: HostRuntime) -> io::Result<()> {
    let critical = Regions { crit: 1, ..FREE };
    let guarded = Regions { guard: 1, ..FREE };
    let busy = Regions { busy: true, ..FREE };
    write_held_at(rt, "free", FREE, Level::PASSIVE)?;
    write_held_at(rt, "free", FREE, Level::APC)?;
    write_held_at(rt, "critical", critical, Level::PASSIVE)?;
    write_held_at(rt, "guarded", guarded, Level::PASSIVE)?;
    write_held_at(rt, "busy", busy, Level::PASSIVE)
}
