//! DPC queues, without the numbers of their inserts.
ghost use Rattle.std.specs.Prelude.{◌≡◌, ◌==◌, ◌≤◌, OnOk, filter, if◌then◌else◌, length, map, not};
ghost use Rattle.nt_event.specs.Objects.{queue_for};
ghost use Rattle.nt_event.specs.Queues.{new_insert, start_queue};
ghost use Rattle.nt_event.specs.Routines.{part_of};
ghost use Rattle.nt_dpc.specs.Queues.{add_entry, drop_entry};
ghost use Rattle.nt_shade_dpcs.specs.Changed.{queue_changed, queues_changed};
ghost use Rattle.nt_shade_dpcs.specs.Shades.{object_said, queue_said};

use crate::objects::{ShadeObject, object_at};
use nt_dpc_lanes::Change;
use nt_event::{CpuNo, DpcNo, Importance, Part, Script};
use std::alloc::{AllocError, Global};

/// A pending insert of a DPC object.
#[derive(Clone, Copy, PartialEq, Eq, Hash, Debug)]
pub struct ShadeInsert {
    pub dpc: DpcNo,
    pub part: Part,
    /// Whether the object's importance was High at the insert.
    pub high: bool,
}

/// What stands in the DPC queue of a processor.
#[derive(Clone, PartialEq, Eq, Hash, Drop, Debug)]
pub struct ShadeQueue {
    /// The pending inserts in the order in which they came.
    pub pending: Vec<ShadeInsert>,
    /// Whether the processor is idle.
    pub idle: bool,
}

impl ShadeQueue {
    /// A queue before any event.
    pub fn new(alloc: Global) -> ShadeQueue
        ensures { queue_said result ≡ start_queue }
    {
        ShadeQueue {
            pending: Vec::new(alloc),
            idle: false,
        }
    }

    /// Takes in a change by the processor `by`, where these were the objects. This is the queue of
    /// p.
    pub(crate) fn follow(
        &mut self,
        script: &Script,
        objects: &[ShadeObject],
        p: CpuNo,
        by: CpuNo,
        change: Change,
    ) -> Result<(), AllocError>
        ensures { OnOk result (queue_said self.new
            ≡ queue_changed script.now (map object_said objects.now) p by change
            (queue_said self.old)) }
    {
        match change {
            Change::Insert(d) => self.insert(script, d, object_at(objects, d), p, by)?,
            Change::Remove(d) if object_at(objects, d).standing == Some(p) => self.remove(d),
            Change::Take(_, d) if by == p => self.remove(d),
            Change::Rest if by == p => self.idle = true,
            Change::Run if by == p => self.idle = false,
            Change::Nothing
            | Change::Remove(_)
            | Change::Take(_, _)
            | Change::SetImportance(_, _)
            | Change::SetTarget(_, _)
            | Change::Rest
            | Change::Run => {}
        }
        Ok(())
    }

    /// Adds the object's insert by the processor `by`, if it goes to this queue, that of p.
    fn insert(
        &mut self,
        script: &Script,
        d: DpcNo,
        object: ShadeObject,
        p: CpuNo,
        by: CpuNo,
    ) -> Result<(), AllocError>
        ensures { OnOk result (queue_said self.new
            ≡ (if (queue_for (object_said object).target by).0 == p.0
            then add_entry (new_insert script.now d 0 (object_said object)) (queue_said self.old)
            else queue_said self.old)) }
    {
        if object.queue_for(by) == p {
            self.pending.push(ShadeInsert {
                dpc: d,
                part: part_of(script, d),
                high: object.importance == Importance::High,
            })?;
        }
        Ok(())
    }

    /// Takes out what stands there of the object.
    fn remove(&mut self, d: DpcNo)
        ensures { queue_said self.new ≡ drop_entry d (queue_said self.old) }
    {
        keep_others(&mut self.pending, d);
    }
}

/// The part of a queue in which the object stands.
fn part_of(script: &Script, d: DpcNo) -> Part
    ensures { result ≡ part_of script.now d }
{
    if script.is_threaded(d) {
        Part::Threaded
    } else {
        Part::Ordinary
    }
}

/// Keeps the inserts of other objects.
fn keep_others(pending: &mut Vec<ShadeInsert>, d: DpcNo)
    ensures { pending.new.items
        ≡ filter (λ x. not (x.dpc.0 == d.0)) pending.old.items }
{
    pending.retain(
        |insert| -> bool
            ensures { result ≡ not (insert.now.dpc.0 == d.0) }
        { insert.dpc.0 != d.0 },
    );
}

/// Each queue takes in a change by the processor `by`, where these were the objects.
pub(crate) fn follow_queues(
    queues: &mut Vec<ShadeQueue>,
    script: &Script,
    objects: &[ShadeObject],
    by: CpuNo,
    change: Change,
) -> Result<(), AllocError>
    requires { length queues.old.items ≤ 64 }
    ensures { OnOk result (map queue_said queues.new.items
        ≡ queues_changed script.now (map object_said objects.now) by change
        (map queue_said queues.old.items)) }
{
    let count = queues.len() as u8;
    for p in 0..count {
        queues[usize::from(p)].follow(script, objects, CpuNo(p), by, change)?;
    }
    Ok(())
}
