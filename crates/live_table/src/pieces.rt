//! Workers that work one after another on one thread, and what is gathered of them.
ghost use Rattle.std.specs.Prelude.{◌≡◌, ◌≤◌, ◌*◌, IfOk, IsTrue, OnOk, length};
ghost use Rattle.nt_event.specs.declared.limits.TheConstants.{EVENTS, TURNS};
ghost use Rattle.nt_event.specs.Script.{fits};
ghost use Rattle.nt_live.specs.Prepared.{IsPrepared};
ghost use Rattle.nt_live.specs.Teams.{AreOneEach};
ghost use Rattle.nt_mark.specs.Names.{table_of};

use crate::runs::judged;
use nt_event::{CpuNo, Plan, Script};
use nt_history::{Brief, History};
use nt_live::{Board, Opened, Worker, gather, prepare, work};
use nt_mark::{Made, Shared};
use nt_outside::OpenGate;
use std::alloc::{AllocError, Global};
use std::marker::Brand;
use std::sync::Wait;

/// The first workers work, so many of them, one after another.
fn work_on<'s, N: Plan + Shared, R: Wait>(
    rt: &R,
    workers: &mut [Worker<'s, N>],
    board: &Board<'s, N>,
    count: usize,
) -> Result<(), AllocError>
    requires count { count ≤ length workers.old }
    requires each { AreOneEach N.script workers.old }
    ensures { OnOk result (AreOneEach N.script workers.new) }
{
    for at in 0..count {
        work(rt, &mut workers[at], board, &OpenGate)?;
    }
    Ok(())
}

/// What is gathered of all workers where the first ones worked, so many of them.
fn gathered<N: Plan + Shared, R: Wait>(
    rt: &R,
    alloc: Global,
    script: &Script,
    turns: u32,
    made: Made,
    count: u8,
) -> Result<History, AllocError>
    requires script { (script.now ≡ N.script) × IsTrue (fits script.now) }
    requires turns { (turns ≡ N.turns) ×
        ((1 ≤ turns) × ((turns ≤ TURNS) × (script.now.cpus * turns ≤ EVENTS))) }
    requires table { table_of made.marks ≡ N.table }
    requires prepared { IsPrepared script.now turns made }
    requires count { count ≤ script.now.cpus }
    ensures { IfOk result (λ h. h.turns ≡ turns) }
{
    let Opened { board, mut workers } = Board::<N>::new(alloc, script, turns, made)?;
    work_on(rt, workers.as_mut_slice(), &board, usize::from(count))?;
    gather(alloc, board, workers)
}

/// The history of workers of which the first ones worked, so many of them.
fn history<R: Wait>(
    rt: &R,
    alloc: Global,
    script: &Script,
    limit: u32,
    count: u8,
) -> Result<History, AllocError>
    requires script { IsTrue (fits script.now) }
    requires turns { (1 ≤ limit) × (limit ≤ TURNS) }
    requires all { script.now.cpus * limit ≤ EVENTS }
    requires count { count ≤ script.now.cpus }
    ensures { IfOk result (λ h. h.turns ≡ limit) }
{
    let made = prepare(alloc, script, limit)?;
    gathered::<Brand, R>(rt, alloc, script, limit, made, count)
}

/// All workers work, one after another.
pub(crate) fn all_worked<R: Wait>(
    rt: &R,
    alloc: Global,
    script: &Script,
    limit: u32,
) -> Result<&'static str, AllocError>
    requires script { IsTrue (fits script.now) }
    requires turns { (1 ≤ limit) × (limit ≤ TURNS) }
    requires all { script.now.cpus * limit ≤ EVENTS }
{
    let history = history(rt, alloc, script, limit, script.cpus)?;
    let seen = judged(alloc, script, &history);
    drop(history);
    seen
}

/// How many events of processor 0 stand before all others.
fn front(events: &[Brief]) -> usize {
    for at in 0..events.len() {
        if events[at].cpu != CpuNo(0) {
            return at;
        }
    }
    events.len()
}

/// Whether processor 0 made events, and all of them stand before those of the others.
fn is_first(events: &[Brief]) -> bool {
    let first = front(events);
    for at in first..events.len() {
        if events[at].cpu == CpuNo(0) {
            return false;
        }
    }
    0 < first && first < events.len()
}

/// Whether processor 0's events are the first, and the history is legal.
fn judged_first(
    alloc: Global,
    script: &Script,
    history: &History,
) -> Result<&'static str, AllocError>
    requires script { IsTrue (fits script.now) }
    requires turns { (1 ≤ history.now.turns) × (history.now.turns ≤ TURNS) }
    requires all { script.now.cpus * history.now.turns ≤ EVENTS }
{
    if !is_first(history.lend().briefs) {
        return Ok("its events aren't first");
    }
    judged(alloc, script, history)
}

/// The worker of processor 0 works, and no other.
pub(crate) fn first_worked<R: Wait>(
    rt: &R,
    alloc: Global,
    script: &Script,
    limit: u32,
) -> Result<&'static str, AllocError>
    requires script { IsTrue (fits script.now) }
    requires turns { (1 ≤ limit) × (limit ≤ TURNS) }
    requires all { script.now.cpus * limit ≤ EVENTS }
{
    let history = history(rt, alloc, script, limit, 1)?;
    let seen = judged_first(alloc, script, &history);
    drop(history);
    seen
}
