//! What the load declares, the same for each seed.
ghost use Rattle.std.specs.Prelude.{◌≡◌, ◌++◌, [], IfOk, OnOk};
ghost use Rattle.nt_event.specs.Lists.{table};
ghost use Rattle.nt_load.specs.Load.{all_apcs, apc_decl, busy_thread, idle_dpc, idle_isr};
ghost use Rattle.nt_load.specs.Load.{normal_of, timer_of_dpc};

use crate::commands::device_level;
use nt_event::{
    ApcDecl, ApcKind, CpuNo, DpcDecl, DpcNo, Isr, Items, RoutineNo, ThreadDecl, ThreadNo, TimerDecl,
};
use std::alloc::{AllocError, Global};

/// The routine without commands.
pub(crate) const IDLE: RoutineNo = RoutineNo(0);

/// An empty list with room for so many items, so that none of them moves when others are added.
pub(crate) fn with_room<T>(alloc: Global, count: usize) -> Result<Items<T>, AllocError>
    ensures { IfOk result (λ items. items ≡ []) }
{
    Ok(Items::from_vec(Vec::with_capacity(alloc, count)?))
}

/// An interrupt routine on each processor.
pub(crate) fn isrs(alloc: Global) -> Result<Items<Isr>, AllocError>
    ensures { IfOk result (λ isrs. isrs ≡ table 4 idle_isr) }
{
    let level = device_level();
    let mut isrs = with_room(alloc, 4)?;
    for p in 0..4u8 {
        isrs.push(Isr {
            cpu: CpuNo(p),
            level,
            routine: IDLE,
        })?;
    }
    Ok(isrs)
}

/// The DPC objects; those from 24 on are threaded.
pub(crate) fn dpcs(alloc: Global) -> Result<Items<DpcDecl>, AllocError>
    ensures { IfOk result (λ dpcs. dpcs ≡ table 32 idle_dpc) }
{
    let mut dpcs = with_room(alloc, 32)?;
    for i in 0..32u16 {
        dpcs.push(DpcDecl {
            threaded: i >= 24,
            routine: IDLE,
        })?;
    }
    Ok(dpcs)
}

/// The timers, each with the DPC object of its number.
pub(crate) fn timers(alloc: Global) -> Result<Items<TimerDecl>, AllocError>
    ensures { IfOk result (λ timers. timers ≡ table 8 timer_of_dpc) }
{
    let mut timers = with_room(alloc, 8)?;
    for i in 0..8u16 {
        timers.push(TimerDecl {
            dpc: Some(DpcNo(i)),
        })?;
    }
    Ok(timers)
}

/// The threads, each with a routine of its own, on the processors in turn.
pub(crate) fn threads(alloc: Global) -> Result<Items<ThreadDecl>, AllocError>
    ensures { IfOk result (λ threads. threads ≡ table 32 busy_thread) }
{
    let mut threads = with_room(alloc, 32)?;
    for i in 0..32u16 {
        threads.push(ThreadDecl {
            cpu: CpuNo((i % 4) as u8),
            routine: RoutineNo(i + 1),
        })?;
    }
    Ok(threads)
}

/// The normal routine of an APC object of a kind: none of a special one.
fn normal_of(kind: ApcKind) -> Option<RoutineNo>
    ensures { result ≡ normal_of kind }
{
    match kind {
        ApcKind::Special => None,
        ApcKind::Normal => Some(IDLE),
        ApcKind::User => Some(IDLE),
    }
}

/// Adds an APC object of a kind for each thread.
fn add_apcs(apcs: &mut Items<ApcDecl>, kind: ApcKind) -> Result<(), AllocError>
    ensures { OnOk result (apcs.new ≡ apcs.old ++ table 32 (apc_decl kind)) }
{
    let normal = normal_of(kind);
    for i in 0..32u16 {
        apcs.push(ApcDecl {
            kind,
            thread: ThreadNo(i),
            kernel: IDLE,
            normal,
            rundown: None,
        })?;
    }
    Ok(())
}

/// The APC objects: for each kind one for each thread.
pub(crate) fn apcs(alloc: Global) -> Result<Items<ApcDecl>, AllocError>
    ensures { IfOk result (λ apcs. apcs ≡ all_apcs) }
{
    let mut apcs = with_room(alloc, 96)?;
    add_apcs(&mut apcs, ApcKind::Special)?;
    add_apcs(&mut apcs, ApcKind::Normal)?;
    add_apcs(&mut apcs, ApcKind::User)?;
    Ok(apcs)
}
