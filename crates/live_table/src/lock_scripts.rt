//! Scripts with spin locks, by their names.
use nt_event::Command::{Acquire, Note, Unlock};
use nt_event::{Command, CpuNo, DpcDecl, Items, LockNo, Routine, RoutineNo, Script, ThreadDecl};
use std::alloc::{AllocError, Global};

const J: LockNo = LockNo(0);

const K: LockNo = LockNo(1);

/// A script of so many processors, with two spin locks and nothing else.
fn plain(alloc: Global, cpus: u8) -> Script {
    Script {
        cpus,
        depth: None,
        threaded: None,
        isrs: Items::new(alloc),
        dpcs: Items::new(alloc),
        timers: Items::new(alloc),
        threads: Items::new(alloc),
        apcs: Items::new(alloc),
        routines: Items::new(alloc),
        locks: 2,
    }
}

/// Adds a routine of these commands.
fn add_routine(script: &mut Script, commands: Vec<Command>) -> Result<(), AllocError> {
    let commands = Items::from_vec(commands);
    script.routines.push(Routine { commands })
}

/// Adds a thread that is bound to this processor, with this base routine.
fn add_thread(script: &mut Script, cpu: u8, routine: u16) -> Result<(), AllocError> {
    script.threads.push(ThreadDecl {
        cpu: CpuNo(cpu),
        routine: RoutineNo(routine),
    })
}

/// Adds a routine that takes the second lock, and threads with it on the first processors, so many.
fn add_contended(alloc: Global, script: &mut Script, threads: u8) -> Result<(), AllocError> {
    add_routine(script, vec![in alloc; Acquire(K), Note(1), Unlock(K)]?)?;
    for cpu in 0..threads {
        add_thread(script, cpu, 0)?;
    }
    Ok(())
}

/// So many processors. Threads on the first ones, so many, take the same lock in turn.
fn contended(alloc: Global, cpus: u8, threads: u8) -> Result<Script, AllocError> {
    let mut script = plain(alloc, cpus);
    add_contended(alloc, &mut script, threads)?;
    Ok(script)
}

fn add_crossed(alloc: Global, script: &mut Script) -> Result<(), AllocError> {
    add_routine(script, vec![in alloc; Acquire(J), Acquire(K)]?)?;
    add_routine(script, vec![in alloc; Acquire(K), Acquire(J)]?)?;
    add_thread(script, 0, 0)?;
    add_thread(script, 1, 1)
}

/// Two processors with a thread on each, which take two locks in opposite orders.
fn crossed(alloc: Global) -> Result<Script, AllocError> {
    let mut script = plain(alloc, 2);
    add_crossed(alloc, &mut script)?;
    Ok(script)
}

fn add_all_lanes(alloc: Global, script: &mut Script) -> Result<(), AllocError> {
    add_routine(script, vec![in alloc; Acquire(J)]?)?;
    add_thread(script, 0, 0)?;
    script.dpcs.push(DpcDecl {
        threaded: false,
        routine: RoutineNo(0),
    })
}

/// Two processors, a DPC, and on processor 0 a thread that takes the first lock.
fn all_lanes(alloc: Global) -> Result<Script, AllocError> {
    let mut script = plain(alloc, 2);
    add_all_lanes(alloc, &mut script)?;
    Ok(script)
}

/// The script of this name, or none.
pub(crate) fn script_of(alloc: Global, name: &str) -> Result<Option<Script>, AllocError> {
    let script = match name {
        "two_of_two" => contended(alloc, 2, 2)?,
        "two_of_64" => contended(alloc, 64, 2)?,
        "64_of_64" => contended(alloc, 64, 64)?,
        "crossed" => crossed(alloc)?,
        "all_lanes" => all_lanes(alloc)?,
        _ => return Ok(None),
    };
    Ok(Some(script))
}
