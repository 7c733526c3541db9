//! Rounds of all workers on threads, and the history that they make of a script.
ghost use Rattle.std.specs.Prelude.{◌≡◌, ◌≤◌, ◌*◌, IfOk, IsTrue, length, reverse, true};
ghost use Rattle.nt_event.specs.declared.limits.TheConstants.{EVENTS, TURNS};
ghost use Rattle.nt_event.specs.Robin.{is_settled};
ghost use Rattle.nt_event.specs.Script.{fits};
ghost use Rattle.nt_event.specs.Step.{IsRun};
ghost use Rattle.nt_live.specs.Prepared.{IsPrepared};
ghost use Rattle.nt_live.specs.Rounds.{GoOn};
ghost use Rattle.nt_live.specs.Workers.{GoesOnFrom};
ghost use Rattle.nt_mark.specs.Names.{table_of};

use crate::board::{Board, Opened, prepare};
use crate::gathering::gather;
use crate::worker::Worker;
use nt_event::{Plan, Script};
use nt_history::History;
use nt_mark::{Made, Shared};
use nt_outside::Gate;
use std::alloc::{AllocError, Global};
use std::marker::Brand;
use std::sync::Wait;
use std::thread;
use std::thread::Threads;

/// At most so many threads work at once: one for each processor.
const THREADS: usize = 64;

/// A round: each worker works, on a thread of its own where one can be made, and keeps its answer.
fn round<'s, N: Plan + Shared + Send + Sync, G: Gate + Sync, R: Threads + Wait + Sync>(
    rt: &R,
    workers: &mut [Worker<'s, N>],
    board: &Board<'_, N>,
    gate: &G,
)
    ensures { GoOn workers.old workers.new }
{
    thread::for_each_mut(
        rt,
        workers,
        THREADS,
        &|_, worker| -> ()
            ensures { GoesOnFrom worker.entry.now worker.exit.now }
        { worker.work_again(rt, board, gate) },
    );
}

/// Whether some worker found no memory in its last round.
fn some_starved<N: Plan + Shared>(workers: &[Worker<'_, N>]) -> bool {
    for worker in workers {
        if worker.answer().is_err() {
            return true;
        }
    }
    false
}

/// Whether some worker made an event in its last round.
fn some_moved<N: Plan + Shared>(workers: &[Worker<'_, N>]) -> bool {
    for worker in workers {
        if worker.has_moved() {
            return true;
        }
    }
    false
}

/// Rounds of all workers, until one makes no event; each round but the last makes one. Where some
/// worker finds no memory, the round is ended first.
fn rounds<'s, N: Plan + Shared + Send + Sync, G: Gate + Sync, R: Threads + Wait + Sync>(
    rt: &R,
    workers: &mut [Worker<'s, N>],
    board: &Board<'_, N>,
    gate: &G,
) -> Result<(), AllocError>
    ensures { GoOn workers.old workers.new }
{
    for _ in rt.forever() {
        round(rt, workers, board, gate);
        if some_starved(workers) {
            return Err(AllocError);
        }
        if !some_moved(workers) {
            return Ok(());
        }
    }
    unreachable!()
}

/// The history that processors on threads make of N's script.
fn live_of<'s, N: Plan + Shared + Send + Sync, G: Gate + Sync, R: Threads + Wait + Sync>(
    rt: &R,
    alloc: Global,
    script: &'s Script,
    turns: u32,
    made: Made,
    gate: &G,
) -> Result<History, AllocError>
    requires script { (script.now ≡ N.script) × IsTrue (fits script.now) }
    requires turns { (turns ≡ N.turns) ×
        ((1 ≤ turns) × ((turns ≤ TURNS) × (script.now.cpus * turns ≤ EVENTS))) }
    requires table { table_of made.marks ≡ N.table }
    requires prepared { IsPrepared script.now turns made }
    ensures turns { IfOk result (λ h. h.turns ≡ turns) }
    ensures run { IfOk result (λ h. IsRun script.now turns (reverse h.events)) }
    ensures settled { IfOk result (λ h. is_settled script.now turns (reverse h.events) ≡ true) }
{
    let Opened { board, mut workers } = Board::<N>::new(alloc, script, turns, made)?;
    rounds(rt, workers.as_mut_slice(), &board, gate)?;
    gather(alloc, board, workers)
}

/// The history that processors on threads make of a script, where each makes at most this many
/// events: a settled run.
///
/// Each processor has a thread of its own, where one can be made; they share what the script says
/// that they share, with a lock for each DPC object, each processor's queue and threads, the
/// timers, and each spin lock. The gate is passed before each turn of a processor, with its number
/// and how many events it made. The script fits, and `turns` is 1 to 20,000 and at most 160,000 in
/// all processors together.
///
/// A processor that spins on a lock stops as one at rest does, until it sees that the lock was
/// freed.
///
/// It may wait. AllocError comes where no memory was found; the workers ended their round first.
pub fn live<G: Gate + Sync, R: Threads + Wait + Sync>(
    rt: &R,
    alloc: Global,
    script: &Script,
    turns: u32,
    gate: &G,
) -> Result<History, AllocError>
    requires script { IsTrue (fits script.now) }
    requires turns { (1 ≤ turns) × (turns ≤ TURNS) }
    requires all { script.now.cpus * turns ≤ EVENTS }
    ensures turns { IfOk result (λ h. h.turns ≡ turns) }
    ensures run { IfOk result (λ h. IsRun script.now turns (reverse h.events)) }
    ensures settled { IfOk result (λ h. is_settled script.now turns (reverse h.events) ≡ true) }
{
    let made = prepare(alloc, script, turns)?;
    live_of::<Brand, G, R>(rt, alloc, script, turns, made, gate)
}
