//! DPC objects.
ghost use Rattle.std.specs.Prelude.{◌≡◌};
ghost use Rattle.nt_event.specs.Objects.{is_queued, queue_for};
ghost use Rattle.nt_dpc.specs.Objects.{entry_of, new_object, queued_at, standing_cpu, unqueued};
ghost use Rattle.nt_dpc.specs.Objects.{with_importance, with_target};

use nt_event::{CpuNo, DpcNo, Importance, Insert, Part, Standing};
use std::marker::Model;

/// A DPC object: its number, its part of a queue, its importance and target, and where its entry
/// stands.
#[derive(Drop, Debug)]
pub struct DpcObject {
    dpc: DpcNo,
    part: Part,
    importance: Importance,
    target: Option<CpuNo>,
    standing: Option<Standing>,
}

impl Model for DpcObject {
    ghost use Rattle.nt_dpc.specs.Objects.{ObjectFacts};

    ghost Value = { ObjectFacts };

    ghost view = { λ a. record {
      dpc = a.dpc;
      part = a.part;
      state = record { importance = a.importance; target = a.target; standing = a.standing };
    } };
}

impl DpcObject {
    /// An object of Medium importance with no target, which isn't queued (KeInitializeDpc,
    /// KeInitializeThreadedDpc). `threaded` is false where threaded DPCs are switched off.
    pub fn new(no: DpcNo, threaded: bool) -> DpcObject
        ensures { result ≡ new_object no threaded }
    {
        DpcObject {
            dpc: no,
            part: if threaded {
                Part::Threaded
            } else {
                Part::Ordinary
            },
            importance: Importance::Medium,
            target: None,
            standing: None,
        }
    }

    /// A copy of it.
    pub fn copy(&self) -> DpcObject
        ensures { result ≡ self.now }
    {
        DpcObject {
            dpc: self.dpc,
            part: self.part,
            importance: self.importance,
            target: self.target,
            standing: self.standing,
        }
    }

    /// Sets the importance, which counts from the next insert on (profile). KeSetImportanceDpc.
    pub fn set_importance(&mut self, i: Importance)
        ensures { self.new ≡ record self.old { state = with_importance i self.old.state } }
    {
        self.importance = i;
    }

    /// Sets the target processor, or none, which counts from the next insert on (profile).
    /// KeSetTargetProcessorDpc.
    pub fn set_target(&mut self, t: Option<CpuNo>)
        ensures { self.new ≡ record self.old { state = with_target t self.old.state } }
    {
        self.target = t;
    }

    /// The processor whose queue an insert by the processor `by` goes to: the target, else `by`.
    pub fn queue_for(&self, by: CpuNo) -> CpuNo
        ensures { result ≡ queue_for self.now.state.target by }
    {
        self.target.unwrap_or(by)
    }

    /// The processor in whose queue the object stands; None exactly where it isn't queued.
    pub fn standing(&self) -> Option<CpuNo>
        ensures { result ≡ standing_cpu self.now }
    {
        match self.standing {
            Some(standing) => Some(standing.queue),
            None => None,
        }
    }

    /// The object's number.
    pub fn no(&self) -> DpcNo
        ensures { result ≡ self.now.dpc }
    {
        self.dpc
    }

    /// The part of a queue in which the object stands.
    pub(crate) fn part(&self) -> Part
        ensures { result ≡ self.now.part }
    {
        self.part
    }

    pub(crate) fn importance(&self) -> Importance
        ensures { result ≡ self.now.state.importance }
    {
        self.importance
    }

    pub(crate) fn is_queued(&self) -> bool
        ensures { result ≡ is_queued self.now.state }
    {
        self.standing.is_some()
    }

    /// The entry that an insert by the event `n` makes.
    pub(crate) fn entry(&self, n: u64) -> Insert
        ensures { result ≡ entry_of n self.now }
    {
        Insert {
            dpc: self.dpc,
            number: n,
            part: self.part,
            high: matches!(self.importance, Importance::High),
        }
    }

    /// From now on the object's entry stands there.
    pub(crate) fn stand_at(&mut self, standing: Standing)
        ensures { self.new ≡ queued_at standing self.old }
    {
        self.standing = Some(standing);
    }

    /// From now on the object isn't queued.
    pub(crate) fn leave(&mut self)
        ensures { self.new ≡ unqueued self.old }
    {
        self.standing = None;
    }
}
