//! The audit of a history by workers on threads.
ghost use Rattle.std.specs.Prelude.{◌≡◌, ◌+◌, ◌<◌, ◌≤◌, [], All, IfOk, OnOk, length, map, reverse};
ghost use Rattle.nt_event.specs.declared.limits.TheConstants.{EVENTS};
ghost use Rattle.nt_work.specs.Audits.{audit_of, reported, waitings};
ghost use Rattle.nt_work.specs.Queue.{IsOf, pass_view};
ghost use Rattle.nt_work.specs.Rule.{all_parts, whole};
ghost use Rattle.nt_work.specs.Workers.{HasMet, HasPut, HasWorked, HaveWorked, own_items};
ghost use Rattle.nt_work.specs.declared.auditing.TheConstants.{WORKERS};
ghost use Rattle.nt_work.specs.declared.queue.TheConstants.{ROOM};

use crate::item::{Audited, Item, items};
use crate::passes::{WorkPass, WorkQueue};
use crate::queue::ROOM;
use crate::waiting::waiting_counts;
use crate::worker::{Desk, Worker, reported};
use nt_history::History;
use nt_outside::{Gate, OpenGate};
use std::alloc::{AllocError, Global};
use std::sync::Wait;
use std::thread;
use std::thread::Threads;

/// Workers at most.
pub const WORKERS: u8 = 16;

/// Workers that are at work at once, at most: more of them contend for the one queue, and the audit
/// takes longer.
const AT_ONCE: usize = 2;

/// So many workers, each with a part of the pass. Each has room for an equal share of as many items
/// as there are events, so that it seldom takes memory while it works.
fn team(
    alloc: Global,
    queue: &WorkQueue,
    counts: &[u32],
    pass: &mut WorkPass,
    workers: u8,
) -> Result<Vec<Worker>, AllocError>
    requires pass { (IsOf queue.now pass.old) × (pass_view pass.old ≡ whole) }
    requires workers { workers ≤ WORKERS }
    ensures pass { OnOk result (IsOf queue.now pass.new) }
    ensures parts { OnOk result ((pass_view pass.new).parts + workers ≡ all_parts) }
    ensures none { OnOk result (((pass_view pass.new).hand.taken ≡ []) ×
        ((pass_view pass.new).met ≡ [])) }
    ensures many { IfOk result (λ v. length v.items ≡ workers) }
    ensures each { IfOk result (λ v. All (λ w. HasPut queue.now counts.now [] w) v.items) }
{
    let mut team = Vec::with_capacity(alloc, usize::from(workers))?;
    for _ in 0..workers {
        let room = counts.len() / usize::from(workers);
        let part = queue.split(pass);
        team.push_reserved(Worker::new(alloc, part, room)?);
    }
    Ok(team)
}

/// All workers work, two at once where a thread can be made.
fn work<G: Gate + Sync, R: Threads + Wait + Sync>(rt: &R, team: &mut [Worker], desk: &Desk<'_, G>)
    requires workers { 0 < desk.now.workers }
    requires few { length team.old ≤ WORKERS }
    requires each { All (λ w. HasPut desk.now.queue.now desk.now.counts.now [] w) team.old }
    ensures many { length team.new ≡ length team.old }
    ensures each { HaveWorked desk.now.queue.now desk.now.counts.now desk.now.items.now
        desk.now.workers team.new }
{
    thread::for_each_mut(
        rt,
        team,
        AT_ONCE,
        &|number, worker| -> ()
            requires { (number < 256) × (0 < desk.now.workers) ×
                HasPut desk.now.queue.now desk.now.counts.now [] worker.now }
            ensures { HasWorked desk.entry.now.queue.now desk.entry.now.counts.now
                (own_items desk.entry.now.workers number desk.entry.now.items.now)
                worker.exit.now }
        { worker.work_here(rt, desk, number as u8) },
    );
}

/// The pass that met all workers, which told what they found.
fn met<G: Gate>(
    desk: &Desk<'_, G>,
    mut team: Vec<Worker>,
    mut pass: WorkPass,
    told: &mut [u32],
) -> Result<WorkPass, AllocError>
    requires team { length team.items ≡ desk.now.workers }
    requires each { HaveWorked desk.now.queue.now desk.now.counts.now desk.now.items.now
        desk.now.workers team.items }
    requires met { HasMet desk.now.queue.now desk.now.counts.now desk.now.items.now
        desk.now.workers desk.now.workers told.old pass }
    ensures { IfOk result (λ p. HasMet desk.now.queue.now desk.now.counts.now desk.now.items.now
        desk.now.workers 0 told.new p) }
{
    while let Some(worker) = team.pop() {
        worker.tell(told)?;
        desk.queue.meet(&mut pass, worker.into_pass());
    }
    Ok(pass)
}

/// What was found of each item, by the number of its event. What the workers left is done here.
fn found<R: Wait>(
    rt: &R,
    alloc: Global,
    desk: &Desk<'_, OpenGate>,
    team: Vec<Worker>,
    pass: WorkPass,
) -> Result<Vec<u32>, AllocError>
    requires workers { 0 < desk.now.workers }
    requires team { length team.items ≡ desk.now.workers }
    requires each { HaveWorked desk.now.queue.now desk.now.counts.now desk.now.items.now
        desk.now.workers team.items }
    requires pass { IsOf desk.now.queue.now pass }
    requires parts { (pass_view pass).parts + desk.now.workers ≡ all_parts }
    requires none { ((pass_view pass).hand.taken ≡ []) × ((pass_view pass).met ≡ []) }
    ensures { IfOk result (λ v. map (reported v.items) desk.now.items.now
        ≡ map (reported desk.now.counts.now) desk.now.items.now) }
{
    let mut told = vec![in alloc; 0u32; desk.counts.len()]?;
    let pass = met(desk, team, pass, told.as_mut_slice())?;
    let mut last = Worker::new(alloc, pass, 0)?;
    last.take_all(rt, desk, desk.workers)?;
    last.tell(told.as_mut_slice())?;
    Ok(told)
}

/// How many inserts are pending before each event of a history.
fn counts_of(alloc: Global, history: &History) -> Result<Vec<u32>, AllocError>
    requires { length history.now.events ≤ EVENTS }
    ensures { IfOk result (λ v. v.items ≡ waitings (reverse history.now.events)) }
{
    waiting_counts(alloc, &history.lend())
}

/// The items in their order, each with what was found of it.
fn in_order(alloc: Global, items: &[Item], found: &[u32]) -> Result<Vec<Audited>, AllocError>
    ensures { IfOk result (λ v. v.items ≡ map (reported found.now) items.now) }
{
    let mut all = Vec::with_capacity(alloc, items.len())?;
    for item in items {
        all.push_reserved(reported(found, *item));
    }
    Ok(all)
}

/// What so many workers make of these items. They share one queue with so much room.
fn audited<G: Gate + Sync, R: Threads + Wait + Sync>(
    rt: &R,
    alloc: Global,
    items: &[Item],
    counts: &[u32],
    workers: u8,
    room: u32,
    gate: &G,
) -> Result<Vec<Audited>, AllocError>
    requires workers { (1 ≤ workers) × (workers ≤ WORKERS) }
    requires room { (1 ≤ room) × (room ≤ ROOM) }
    ensures { IfOk result (λ v. v.items ≡ map (reported counts.now) items.now) }
{
    let (queue, mut pass) = WorkQueue::new(alloc, room)?;
    let mut team = team(alloc, &queue, counts, &mut pass, workers)?;
    let desk = Desk {
        queue: &queue,
        items,
        counts,
        workers,
        gate,
    };
    work(rt, team.as_mut_slice(), &desk);
    let open = Desk {
        queue: &queue,
        items,
        counts,
        workers,
        gate: &OpenGate,
    };
    let found = found(rt, alloc, &open, team, pass)?;
    in_order(alloc, items, found.as_slice())
}

/// The audit of a history: its work items in the order of their events, each with how many inserts
/// were pending before it.
///
/// So many workers share one queue with so much room, two of them at work at once where a thread
/// can be made; else they run in turn. Worker `k` puts the items of the processors whose number
/// divided by `workers` leaves `k`, in their order, and then takes items until the queue is empty.
/// Where there is no room, it takes an item and does it, and tries again. Before each item that it
/// does, it passes the gate with `k` and how many items it has done. What is left when the workers
/// have ended is done here.
///
/// The history has at most 160,000 events; `workers` is 1 to 16 and `room` 1 to 1,024. It may wait.
/// An error is want of memory, and then the workers ended first.
#[tactic(auto, using(crate::proofs::Reports::all_reports))]
pub fn audit<G: Gate + Sync, R: Threads + Wait + Sync>(
    rt: &R,
    alloc: Global,
    history: &History,
    workers: u8,
    room: u32,
    gate: &G,
) -> Result<Vec<Audited>, AllocError>
    requires events { length history.now.events ≤ EVENTS }
    requires workers { (1 ≤ workers) × (workers ≤ WORKERS) }
    requires room { (1 ≤ room) × (room ≤ ROOM) }
    ensures { IfOk result (λ v. v.items ≡ audit_of history.now.events) }
{
    let items = items(alloc, history)?;
    let counts = counts_of(alloc, history)?;
    audited(
        rt,
        alloc,
        items.as_slice(),
        counts.as_slice(),
        workers,
        room,
        gate,
    )
}
