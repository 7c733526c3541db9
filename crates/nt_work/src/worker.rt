//! A worker: it puts the items of its processors and does what it takes.
ghost use Rattle.std.specs.Prelude.{◌≡◌, ◌<◌, ◌%◌, ◌==◌, ◌∷◌, [], ℕ};
ghost use Rattle.std.specs.Prelude.{IfOk, IsFalse, IsOk, OnOk, false, get_or};
ghost use Rattle.nt_work.specs.Audits.{reported};
ghost use Rattle.nt_work.specs.Queue.{IsOf, WasAt, pass_view};
ghost use Rattle.nt_work.specs.Workers.{HasPut, HasWorked, IsWorkerOf, Works, own_items, told_by};

use crate::item::{Audited, Item};
use crate::passes::{WorkPass, WorkQueue};
use nt_outside::Gate;
use std::alloc::{AllocError, Global};
use std::sync::Wait;

/// What all workers share: the queue, the items of the history, how many inserts are pending before
/// each event, how many workers there are, and the gate.
#[derive(Drop)]
pub(crate) struct Desk<'a, G: Gate> {
    pub(crate) queue: &'a WorkQueue,
    pub(crate) items: &'a [Item],
    pub(crate) counts: &'a [u32],
    pub(crate) workers: u8,
    pub(crate) gate: &'a G,
}

/// A worker with its pass of the queue, what it has done, and the answer of its work.
#[derive(Drop)]
pub(crate) struct Worker {
    pass: WorkPass,
    done: Vec<Audited>,
    answer: Result<(), AllocError>,
}

/// An item that is done: with how many inserts were pending before its event.
pub(crate) fn reported(counts: &[u32], item: Item) -> Audited
    ensures { result ≡ reported counts.now item }
{
    let waiting = match counts.get(item.event as usize) {
        Some(count) => *count,
        None => 0,
    };
    Audited { item, waiting }
}

impl Worker {
    /// A worker with this pass, which has done nothing, with room for so many items that it does.
    pub(crate) fn new(alloc: Global, pass: WorkPass, room: usize) -> Result<Worker, AllocError>
        ensures pass { IfOk result (λ w. w.pass ≡ pass) }
        ensures done { IfOk result (λ w. w.done.items ≡ []) }
    {
        let done = Vec::with_capacity(alloc, room)?;
        Ok(Worker {
            pass,
            done,
            answer: Ok(()),
        })
    }

    /// Takes an item and does it, behind the gate. False says that there is none.
    fn take_one<G: Gate, R: Wait>(
        &mut self,
        rt: &R,
        desk: &Desk<'_, G>,
        number: u8,
    ) -> Result<bool, AllocError>
        requires { IsWorkerOf desk.now.queue.now desk.now.counts.now self.old }
        ensures works { OnOk result
            (Works desk.now.queue.now desk.now.counts.now [] self.old self.new) }
        ensures none { IfOk result (λ some. IsFalse some → WasAt 0 (pass_view self.new.pass)) }
    {
        self.done.reserve(1)?;
        let Some(item) = desk.queue.take(rt, &mut self.pass) else {
            return Ok(false);
        };
        desk.gate.pass(number, self.done.len() as u64);
        self.done.push_reserved(reported(desk.counts, item));
        Ok(true)
    }

    /// Puts an item. Where there is no room, it takes one and does it, and tries again.
    fn put_one<G: Gate, R: Wait>(
        &mut self,
        rt: &R,
        desk: &Desk<'_, G>,
        number: u8,
        item: Item,
    ) -> Result<(), AllocError>
        requires { IsWorkerOf desk.now.queue.now desk.now.counts.now self.old }
        ensures { OnOk result
            (Works desk.now.queue.now desk.now.counts.now (item ∷ []) self.old self.new) }
    {
        for _ in rt.forever() {
            if desk.queue.put(rt, &mut self.pass, item).is_ok() {
                return Ok(());
            }
            self.take_one(rt, desk, number)?;
        }
        unreachable!()
    }

    /// Takes items and does them until there is none.
    pub(crate) fn take_all<G: Gate, R: Wait>(
        &mut self,
        rt: &R,
        desk: &Desk<'_, G>,
        number: u8,
    ) -> Result<(), AllocError>
        requires { IsWorkerOf desk.now.queue.now desk.now.counts.now self.old }
        ensures works { OnOk result
            (Works desk.now.queue.now desk.now.counts.now [] self.old self.new) }
        ensures none { OnOk result (WasAt 0 (pass_view self.new.pass)) }
    {
        for _ in rt.forever() {
            if !self.take_one(rt, desk, number)? {
                return Ok(());
            }
        }
        unreachable!()
    }

    /// Puts the items of its processors, in their order.
    fn put_own<G: Gate, R: Wait>(
        &mut self,
        rt: &R,
        desk: &Desk<'_, G>,
        number: u8,
    ) -> Result<(), AllocError>
        requires worker { IsWorkerOf desk.now.queue.now desk.now.counts.now self.old }
        requires workers { 0 < desk.now.workers }
        ensures { OnOk result (Works desk.now.queue.now desk.now.counts.now
            (own_items desk.now.workers number desk.now.items.now) self.old self.new) }
    {
        let own = own_cpus(desk.workers, number);
        for item in desk.items {
            if own[usize::from(item.cpu.0)] {
                self.put_one(rt, desk, number, *item)?;
            }
        }
        Ok(())
    }

    /// Puts the items of its processors, in their order, and then takes items until there is none.
    fn work<G: Gate, R: Wait>(
        &mut self,
        rt: &R,
        desk: &Desk<'_, G>,
        number: u8,
    ) -> Result<(), AllocError>
        requires worker { IsWorkerOf desk.now.queue.now desk.now.counts.now self.old }
        requires workers { 0 < desk.now.workers }
        ensures { OnOk result (Works desk.now.queue.now desk.now.counts.now
            (own_items desk.now.workers number desk.now.items.now) self.old self.new) }
    {
        self.put_own(rt, desk, number)?;
        self.take_all(rt, desk, number)
    }

    /// Works as the worker of this number, and keeps the answer.
    pub(crate) fn work_here<G: Gate, R: Wait>(&mut self, rt: &R, desk: &Desk<'_, G>, number: u8)
        requires worker { HasPut desk.now.queue.now desk.now.counts.now [] self.old }
        requires workers { 0 < desk.now.workers }
        ensures { HasWorked desk.now.queue.now desk.now.counts.now
            (own_items desk.now.workers number desk.now.items.now) self.new }
    {
        self.answer = self.work(rt, desk, number);
    }

    /// Writes what it found of each item that it did at the number of the item's event. An error is
    /// the want of memory that it had.
    pub(crate) fn tell(&self, told: &mut [u32]) -> Result<(), AllocError>
        ensures worked { OnOk result (IsOk self.now.answer) }
        ensures told { OnOk result (told.new ≡ told_by told.old self.now.done.items) }
    {
        if self.answer.is_err() {
            return Err(AllocError);
        }
        for audited in self.done.as_slice() {
            let event = audited.item.event as usize;
            if event < told.len() {
                told[event] = audited.waiting;
            }
        }
        Ok(())
    }

    /// The pass, by which it put and took.
    pub(crate) fn into_pass(self) -> WorkPass
        ensures { result ≡ self.pass }
    {
        let Worker { pass, .. } = self;
        pass
    }
}

/// Which processors' items the worker of this number puts.
fn own_cpus(workers: u8, number: u8) -> [bool; 256]
    requires { 0 < workers }
    ensures { (q : ℕ) → q < 256 → get_or result q false ≡ ((q % workers) == number) }
{
    let mut own = [false; 256];
    for cpu in 0..256 {
        own[cpu] = cpu % usize::from(workers) == usize::from(number);
    }
    own
}
