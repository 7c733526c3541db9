//! Runs of two small scripts. In the first a thread raises its level, queues a DPC and lowers the
//! level, a worked row; in the second two threads are ready at once.
ghost use Rattle.std.specs.Prelude.{◌≡◌, IsTrue};
ghost use Rattle.nt_event.specs.Script.{fits};

use nt_event::{
    Command, CpuNo, DpcDecl, DpcNo, Items, Level, Routine, RoutineNo, ScheduleKind, Script,
    ThreadDecl, ThreadNo, Turn,
};
use nt_history::{History, Turns};
use nt_orders::{Went, go_on, random};
use std::alloc::{AllocError, Global};

const SWITCH: Turn = Turn::Switch(CpuNo(0), ThreadNo(0));

const NEXT: Turn = Turn::Next(CpuNo(0));

/// A script of one processor with nothing else.
fn no_script(alloc: Global) -> Script {
    Script {
        cpus: 1,
        depth: None,
        threaded: None,
        isrs: Items::new(alloc),
        dpcs: Items::new(alloc),
        timers: Items::new(alloc),
        threads: Items::new(alloc),
        apcs: Items::new(alloc),
        routines: Items::new(alloc),
        locks: 0,
    }
}

/// Adds a routine of these commands to the script.
fn put_routine(alloc: Global, script: &mut Script, commands: &[Command]) -> Result<(), AllocError> {
    let mut routine = Routine {
        commands: Items::new(alloc),
    };
    match put_commands(&mut routine, commands) {
        Ok(()) => script.routines.push(routine),
        Err(error) => {
            drop(routine);
            Err(error)
        }
    }
}

/// Adds these commands to the routine.
fn put_commands(routine: &mut Routine, commands: &[Command]) -> Result<(), AllocError> {
    for command in commands {
        routine.commands.push(*command)?;
    }
    Ok(())
}

/// Adds so many threads, each with this routine.
fn put_threads(script: &mut Script, routine: RoutineNo, threads: u16) -> Result<(), AllocError> {
    for _ in 0..threads {
        script.threads.push(ThreadDecl {
            cpu: CpuNo(0),
            routine,
        })?;
    }
    Ok(())
}

/// Adds what the worked row raise-queue-lower has.
fn put_row(alloc: Global, script: &mut Script) -> Result<(), AllocError> {
    put_routine(alloc, script, &[Command::Note(7)])?;
    let body = [
        Command::Raise(Level::DISPATCH),
        Command::Queue(DpcNo(0)),
        Command::Lower(Level::PASSIVE),
    ];
    put_routine(alloc, script, &body)?;
    script.dpcs.push(DpcDecl {
        threaded: false,
        routine: RoutineNo(0),
    })?;
    put_threads(script, RoutineNo(1), 1)
}

/// Adds two threads that end at once.
fn put_two_threads(alloc: Global, script: &mut Script) -> Result<(), AllocError> {
    put_routine(alloc, script, &[])?;
    put_threads(script, RoutineNo(0), 2)
}

/// The list of these turns.
fn list_of(alloc: Global, turns: &[Turn]) -> Result<Turns, AllocError> {
    let mut list = Turns::new(alloc);
    for turn in turns {
        list.push(turn)?;
    }
    Ok(list)
}

/// Whether the run that begins with these turns goes so far with them, and has eleven events.
fn goes_on(alloc: Global, script: &Script, turns: &Turns, went: Went) -> Result<bool, AllocError>
    requires fits { IsTrue (fits script.now) }
    requires one { script.now.cpus ≡ 1 }
{
    let gone_on = go_on(alloc, script, 100, turns)?;
    Ok(gone_on.went == went && gone_on.history.len() == 11)
}

/// The same of a row's script and a list that are made for it.
fn row_goes_on(
    alloc: Global,
    script: &mut Script,
    turns: &[Turn],
    went: Went,
) -> Result<bool, AllocError> {
    put_row(alloc, script)?;
    if !script.fits() || script.cpus != 1 {
        return Ok(false);
    }
    let list = list_of(alloc, turns)?;
    goes_on(alloc, script, &list, went)
}

/// The row's report has eleven events.
#[test]
fn all_turns_are_taken(rt: HostRuntime) -> Result<(), AllocError> {
    let mut script = no_script(rt.alloc());
    let found = row_goes_on(rt.alloc(), &mut script, &[SWITCH, NEXT], Went::All);
    drop(script);
    assert!(rt; found?);
    Ok(())
}

/// The thread runs already, so that it cannot be taken up; the turn behind that is not taken.
#[test]
fn a_refused_turn_ends_the_list(rt: HostRuntime) -> Result<(), AllocError> {
    let mut script = no_script(rt.alloc());
    let turns = [SWITCH, NEXT, SWITCH, Turn::Next(CpuNo(1))];
    let kind = ScheduleKind::BadChoice;
    let went = Went::RefusedAt { at: 2, kind };
    let found = row_goes_on(rt.alloc(), &mut script, &turns, went);
    drop(script);
    assert!(rt; found?);
    Ok(())
}

/// The thread that the run takes up first.
fn first_thread(history: &History) -> Option<ThreadNo> {
    if history.len() == 0 {
        return None;
    }
    history.lend().event(0).thread
}

/// The thread that the random run of this seed takes up first.
fn first_of(alloc: Global, script: &Script, seed: u64) -> Result<Option<ThreadNo>, AllocError>
    requires fits { IsTrue (fits script.now) }
    requires one { script.now.cpus ≡ 1 }
{
    let history = random(alloc, script, 100, seed)?;
    Ok(first_thread(&history))
}

/// Whether each of the two threads is taken up first by some seed, and the same seed gives the same
/// thread twice.
fn seeds_decide(alloc: Global, script: &Script) -> Result<bool, AllocError>
    requires fits { IsTrue (fits script.now) }
    requires one { script.now.cpus ≡ 1 }
{
    let mut firsts = [0u8; 2];
    for seed in 0..20 {
        let first = first_of(alloc, script, seed)?;
        if first_of(alloc, script, seed)? != first {
            return Ok(false);
        }
        if first == Some(ThreadNo(0)) {
            firsts[0] = 1;
        }
        if first == Some(ThreadNo(1)) {
            firsts[1] = 1;
        }
    }
    Ok(firsts == [1, 1])
}

/// The same of a script of two threads that is made for it.
fn seeds_decide_of_two(alloc: Global, script: &mut Script) -> Result<bool, AllocError> {
    put_two_threads(alloc, script)?;
    if !script.fits() || script.cpus != 1 {
        return Ok(false);
    }
    seeds_decide(alloc, script)
}

/// Each of the two threads is taken up first in some run, and the same seed gives the same run.
#[test]
fn seeds_decide_which_thread_comes_first(rt: HostRuntime) -> Result<(), AllocError> {
    let mut script = no_script(rt.alloc());
    let found = seeds_decide_of_two(rt.alloc(), &mut script);
    drop(script);
    assert!(rt; found?);
    Ok(())
}
