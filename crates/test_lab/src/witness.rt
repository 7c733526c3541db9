//! The worked row raise-queue-lower. Its first two turns are given, and the others are those of its
//! report, which is worked by hand.
ghost use Rattle.std.specs.Prelude.{◌≡◌, IfOk};
ghost use Rattle.nt_rows.specs.RaiseQueueLower.{script as row};

use nt_event::{
    Command, CpuNo, DpcDecl, DpcNo, Items, Level, Routine, RoutineNo, Script, ThreadDecl, ThreadNo,
    Turn,
};
use nt_history::{Turns, no_turn};
use nt_witness::witness;
use std::alloc::{AllocError, Global};

const SWITCH: Turn = Turn::Switch(CpuNo(0), ThreadNo(0));

const NEXT: Turn = Turn::Next(CpuNo(0));

/// The DPC's routine, and the thread's.
fn routines(alloc: Global) -> Result<Items<Routine>, AllocError>
    ensures { IfOk result (λ routines. routines ≡ row.routines) }
{
    let mut work = Items::new(alloc);
    work.push(Command::Note(7))?;
    let mut body = Items::new(alloc);
    body.push(Command::Raise(Level::DISPATCH))?;
    body.push(Command::Queue(DpcNo(0)))?;
    body.push(Command::Lower(Level::PASSIVE))?;
    let mut routines = Items::new(alloc);
    routines.push(Routine { commands: work })?;
    routines.push(Routine { commands: body })?;
    Ok(routines)
}

/// The row's script: a thread raises its level, queues a DPC and lowers the level.
fn script(alloc: Global) -> Result<Script, AllocError>
    ensures { IfOk result (λ script. script ≡ row) }
{
    let mut dpcs = Items::new(alloc);
    dpcs.push(DpcDecl {
        threaded: false,
        routine: RoutineNo(0),
    })?;
    let mut threads = Items::new(alloc);
    threads.push(ThreadDecl {
        cpu: CpuNo(0),
        routine: RoutineNo(1),
    })?;
    let routines = routines(alloc)?;
    Ok(Script {
        cpus: 1,
        depth: None,
        threaded: None,
        isrs: Items::new(alloc),
        dpcs,
        timers: Items::new(alloc),
        threads,
        apcs: Items::new(alloc),
        routines,
        locks: 0,
    })
}

/// Whether the list is these turns.
fn is_list(given: &Turns, wanted: &[Turn]) -> bool {
    let mut walk = given.walk();
    let mut turn = no_turn();
    for other in wanted {
        if !walk.next(&mut turn) || turn != *other {
            return false;
        }
    }
    !walk.next(&mut turn)
}

/// Whether behind the row's first two turns its script has a schedule of this turn limit and these
/// turns.
fn leads_to(
    alloc: Global,
    script: &Script,
    endless: bool,
    turns: u32,
    wanted: &[Turn],
) -> Result<bool, AllocError>
    requires { script.now ≡ row }
{
    let given = [SWITCH, NEXT];
    let found = witness(alloc, script, &given, endless)?;
    Ok(matches!(&found, Some(w) if w.turns == turns && is_list(&w.list, wanted)))
}

/// The same of a script that is made for it.
fn is_completed(
    alloc: Global,
    endless: bool,
    turns: u32,
    wanted: &[Turn],
) -> Result<bool, AllocError> {
    match script(alloc) {
        Ok(script) => {
            let found = leads_to(alloc, &script, endless, turns, wanted);
            drop(script);
            found
        }
        Err(error) => Err(error),
    }
}

/// Nine more turns come, and then the processor rests.
#[test]
fn two_turns_are_completed(rt: HostRuntime) -> Result<(), AllocError> {
    let wanted = [
        SWITCH, NEXT, NEXT, NEXT, NEXT, NEXT, NEXT, NEXT, NEXT, NEXT, NEXT,
    ];
    assert!(rt; is_completed(rt.alloc(), false, 10_000, &wanted)?);
    Ok(())
}

/// The processor is cut at once.
#[test]
fn an_endless_run_has_the_least_limit(rt: HostRuntime) -> Result<(), AllocError> {
    assert!(rt; is_completed(rt.alloc(), true, 2, &[SWITCH, NEXT])?);
    Ok(())
}
