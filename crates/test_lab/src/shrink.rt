ghost use Rattle.std.specs.Prelude.{◌≡◌, IsTrue};
ghost use Rattle.nt_event.specs.Script.{fits};

use nt_event::{
    Command, CpuNo, DpcDecl, DpcNo, Items, Level, Routine, RoutineNo, Script, ThreadDecl, ThreadNo,
    Turn,
};
use nt_history::{Turns, no_turn};
use nt_shrink::{Goal, delivers, shrink, trace, without};
use std::alloc::{AllocError, Global};
use std::process::Abort;

const NEXT: Turn = Turn::Next(CpuNo(0));

const SWITCH: Turn = Turn::Switch(CpuNo(0), ThreadNo(0));

const GOAL: Goal = Goal::Dpc(DpcNo(0));

/// A script of one processor with nothing else.
fn no_script(alloc: Global) -> Script {
    Script {
        cpus: 1,
        depth: None,
        threaded: None,
        isrs: Items::new(alloc),
        dpcs: Items::new(alloc),
        timers: Items::new(alloc),
        threads: Items::new(alloc),
        apcs: Items::new(alloc),
        routines: Items::new(alloc),
        locks: 0,
    }
}

/// A routine of these commands.
fn routine(alloc: Global, commands: &[Command]) -> Result<Routine, AllocError> {
    let mut made = Routine {
        commands: Items::new(alloc),
    };
    for command in commands {
        made.commands.push(*command)?;
    }
    Ok(made)
}

/// Adds a thread that raises its level, queues the DPC and lowers the level.
fn fill(alloc: Global, script: &mut Script) -> Result<(), AllocError> {
    script.routines.push(routine(alloc, &[Command::Note(7)])?)?;
    let body = [
        Command::Raise(Level::DISPATCH),
        Command::Queue(DpcNo(0)),
        Command::Lower(Level::PASSIVE),
    ];
    script.routines.push(routine(alloc, &body)?)?;
    script.dpcs.push(DpcDecl {
        threaded: false,
        routine: RoutineNo(0),
    })?;
    script.threads.push(ThreadDecl {
        cpu: CpuNo(0),
        routine: RoutineNo(1),
    })
}

fn list(alloc: Global, turns: &[Turn]) -> Result<Turns, AllocError> {
    let mut made = Turns::new(alloc);
    for turn in turns {
        made.push(turn)?;
    }
    Ok(made)
}

/// Whether the list is these turns.
fn is_list(given: &Turns, wanted: &[Turn]) -> bool {
    let mut walk = given.walk();
    let mut turn = no_turn();
    for other in wanted {
        if !walk.next(&mut turn) || turn != *other {
            return false;
        }
    }
    !walk.next(&mut turn)
}

/// Whether the trace of these turns delivers the DPC.
fn is_delivered(alloc: Global, script: &Script, turns: &Turns) -> bool
    requires fits { IsTrue (fits script.now) }
    requires one { script.now.cpus ≡ 1 }
{
    match trace(alloc, script, 10_000, turns) {
        Ok(history) => delivers(&history, GOAL),
        Err(_) => false,
    }
}

/// Whether these turns are shrunk to the wanted ones.
fn is_shrunk(alloc: Global, script: &Script, turns: &Turns, wanted: &[Turn]) -> bool
    requires fits { IsTrue (fits script.now) }
    requires one { script.now.cpus ≡ 1 }
{
    match shrink(alloc, script, 10_000, turns, GOAL) {
        Ok(short) => is_list(&short, wanted),
        Err(_) => false,
    }
}

/// Whether of six turns all but the last are the wanted ones.
fn is_without_last(alloc: Global, turns: &Turns, wanted: &[Turn]) -> Result<bool, AllocError> {
    if turns.len() != 6 {
        return Ok(false);
    }
    let shorter = without(alloc, turns, 5)?;
    Ok(is_list(&shorter, wanted))
}

/// Asserts that the DPC is delivered in these six turns, of which the last is spare.
fn shrinks(
    rt: &impl Abort,
    alloc: Global,
    script: &Script,
    turns: &Turns,
) -> Result<(), AllocError> {
    let wanted = [SWITCH, NEXT, NEXT, NEXT, NEXT];
    assert!(rt; script.fits() && script.cpus == 1);
    assert!(rt; is_delivered(alloc, script, turns));
    assert!(rt; is_shrunk(alloc, script, turns, &wanted));
    assert!(rt; is_without_last(alloc, turns, &wanted)?);
    Ok(())
}

/// Asserts it of the script that has the thread and the DPC, and of six turns.
fn shrinks_turns(rt: &impl Abort, alloc: Global, script: &mut Script) -> Result<(), AllocError> {
    fill(alloc, script)?;
    let turns = list(alloc, &[SWITCH, NEXT, NEXT, NEXT, NEXT, NEXT])?;
    shrinks(rt, alloc, script, &turns)
}

#[test]
fn a_dpc_of_the_same_processor(rt: HostRuntime) -> Result<(), AllocError> {
    let mut script = no_script(rt.alloc());
    let shrunk = shrinks_turns(&rt, rt.alloc(), &mut script);
    drop(script);
    shrunk
}
