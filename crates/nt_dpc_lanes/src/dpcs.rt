//! The objects and queues of a script.
ghost use Rattle.std.specs.Prelude.{◌≡◌, ◌<◌, false, true, IfOk, IfSome, IsTrue, Some, option_map};
ghost use Rattle.nt_event.specs.Lanes.{Lanes};
ghost use Rattle.nt_event.specs.Objects.{is_queued, object_in, queue_for};
ghost use Rattle.nt_event.specs.Queues.{first_dpc};
ghost use Rattle.nt_event.specs.Requests.{queue_asks};
ghost use Rattle.nt_event.specs.Script.{fits, has_cpu, has_dpc};
ghost use Rattle.nt_dpc.specs.Laws.{asks_on};
ghost use Rattle.nt_dpc.specs.Objects.{with_importance, with_target};
ghost use Rattle.nt_dpc.specs.Queues.{set_idle};
ghost use Rattle.nt_dpc_lanes.specs.Agree.{Agrees, IsObjectOf, IsQueueOf};
ghost use Rattle.nt_dpc_lanes.specs.Changes.{MayChange, changed, inserted_at, removed_at};
ghost use Rattle.nt_dpc_lanes.specs.Changes.{removed_from, with_object, with_queue};
ghost use Rattle.nt_states.specs.DpcLanes.{MayLeave, left, queue_in, start};

use crate::changes::{Change, change_of};
use crate::{making, pairs};
use nt_dpc::{DpcObject, DpcQueue};
use nt_event::{CpuNo, DpcNo, Importance, Part, Script, What};
use std::alloc::{AllocError, Global};
use std::marker::Model;

/// All DPC objects and queues of a script.
#[derive(Drop, Debug)]
pub struct Dpcs<'s> {
    script: &'s Script,
    objects: Vec<DpcObject>,
    queues: Vec<DpcQueue>,
}

impl<'s> Model for Dpcs<'s> {
    ghost use Rattle.nt_states.specs.DpcLanes.{DpcLanes};

    ghost Value = { DpcLanes };

    ghost use Rattle.nt_dpc_lanes.specs.Insides.{AreKeptInside, lanes_in};

    ghost view = { lanes_in };

    ghost invariant = { AreKeptInside };
}

impl<'s> Dpcs<'s> {
    /// The objects and queues of the script, which fits, before any event, with room for all that
    /// there may be.
    pub fn new(alloc: Global, script: &'s Script) -> Result<Dpcs<'s>, AllocError>
        requires { IsTrue (fits script.now) }
        ensures { IfOk result (λ x. x ≡ start script.now) }
    {
        Ok(Dpcs {
            script,
            objects: making::objects(alloc, script)?,
            queues: making::queues(alloc, script)?,
        })
    }

    /// A copy of them, with room for all that there may be.
    pub fn copy(&self, alloc: Global) -> Result<Dpcs<'s>, AllocError>
        ensures { IfOk result (λ x. x ≡ self.now) }
    {
        Ok(Dpcs {
            script: self.script,
            objects: making::copied_objects(alloc, self.objects.as_slice())?,
            queues: making::copied_queues(alloc, self.queues.as_slice())?,
        })
    }

    /// Whether the object is queued.
    pub fn is_queued(&self, d: DpcNo) -> bool
        requires { IsTrue (has_dpc self.now.script d) }
        ensures { result ≡ is_queued (object_in self.now.objects d) }
    {
        self.object(d).standing().is_some()
    }

    /// The processor whose queue an insert by the processor `by` goes to.
    pub fn queue_for(&self, d: DpcNo, by: CpuNo) -> CpuNo
        requires object { IsTrue (has_dpc self.now.script d) }
        requires cpu { IsTrue (has_cpu self.now.script by) }
        ensures value { result ≡ queue_for (object_in self.now.objects d).target by }
        ensures cpu { result.0 < self.now.script.cpus }
    {
        self.agree();
        self.object(d).queue_for(by)
    }

    /// The processor in whose queue the object stands, None exactly where it isn't queued.
    pub fn standing(&self, d: DpcNo) -> Option<CpuNo>
        requires { IsTrue (has_dpc self.now.script d) }
        ensures value { result ≡ option_map (λ x. x.queue) (object_in self.now.objects d).standing }
        ensures cpu { IfSome result (λ p. p.0 < self.now.script.cpus) }
    {
        self.agree();
        self.object(d).standing()
    }

    /// The first entry of the part of the processor's queue, by its object and the number of its
    /// event; None exactly where the part is empty.
    pub fn first(&self, part: Part, p: CpuNo) -> Option<(DpcNo, u64)>
        requires { IsTrue (has_cpu self.now.script p) }
        ensures value { result ≡ option_map (λ x. (x.dpc, x.number))
            (first_dpc part (queue_in self.now.queues p).pending) }
        ensures object { IfSome result (λ x. IsTrue (has_dpc self.now.script x.0)) }
    {
        self.agree();
        self.queue(p).first(part)
    }

    /// The request class that an insert of the object, which isn't queued, by the processor `by`
    /// asks for on the processor of [`Dpcs::queue_for`]; None where it asks for none.
    pub fn ask(&self, d: DpcNo, by: CpuNo) -> Option<u8>
        requires object { IsTrue (has_dpc self.now.script d) }
        requires cpu { IsTrue (has_cpu self.now.script by) }
        requires free { is_queued (object_in self.now.objects d) ≡ false }
        ensures asks { (l : Lanes) → l.objects ≡ self.now.objects → l.queues ≡ self.now.queues →
            queue_asks self.now.script d by l
            ≡ asks_on (queue_for (object_in self.now.objects d).target by) result }
        ensures class { IfSome result (λ c. c < 16) }
    {
        self.agree();
        let p = self.queue_for(d, by);
        self.queue(p).answer(self.object(d), by).ask
    }

    /// What the event `what` of this number, made by the processor `by`, leaves. It is an event
    /// that may be made now. Takes no memory.
    pub fn leave(&mut self, n: u64, by: CpuNo, what: &What)
        requires cpu { IsTrue (has_cpu self.old.script by) }
        requires event { MayLeave self.old by what.now }
        ensures { self.new ≡ left n by what.now self.old }
    {
        self.agree();
        let change = change_of(what);
        self.change(n, by, change);
    }

    /// What holds of it at any time.
    fn agree(&self)
        ensures { Agrees self.now }
    {
        let _script = self.script;
    }

    fn object(&self, d: DpcNo) -> &DpcObject
        requires { IsTrue (has_dpc self.now.script d) }
        ensures state { result.now.state ≡ object_in self.now.objects d }
        ensures object { IsObjectOf self.now.script d result.now }
    {
        &self.objects[d.0 as usize]
    }

    fn queue(&self, p: CpuNo) -> &DpcQueue
        requires { IsTrue (has_cpu self.now.script p) }
        ensures state { result.now.state ≡ queue_in self.now.queues p }
        ensures queue { IsQueueOf self.now.script p result.now }
    {
        &self.queues[p.0 as usize]
    }

    fn change(&mut self, n: u64, by: CpuNo, change: Change)
        requires cpu { IsTrue (has_cpu self.old.script by) }
        requires change { MayChange self.old by change }
        ensures { self.new ≡ changed n by change self.old }
    {
        match change {
            Change::Nothing => {}
            Change::Insert(d) => self.insert(n, by, d),
            Change::Remove(d) => self.remove(d),
            Change::Take(part, d) => self.take(part, by, d),
            Change::SetImportance(d, i) => self.set_importance(d, i),
            Change::SetTarget(d, t) => self.set_target(d, t),
            Change::Rest => self.set_idle(by, true),
            Change::Run => self.set_idle(by, false),
        }
    }

    fn insert(&mut self, n: u64, by: CpuNo, d: DpcNo)
        requires object { IsTrue (has_dpc self.old.script d) }
        requires cpu { IsTrue (has_cpu self.old.script by) }
        requires free { is_queued (object_in self.old.objects d) ≡ false }
        ensures { self.new
            ≡ inserted_at n (queue_for (object_in self.old.objects d).target by) d self.old }
    {
        let p = self.queue_for(d, by);
        pairs::insert(&mut self.objects, &mut self.queues, d, p, by, n);
    }

    fn remove(&mut self, d: DpcNo)
        requires { IsTrue (has_dpc self.old.script d) }
        ensures { self.new ≡ removed_from (object_in self.old.objects d).standing d self.old }
    {
        if let Some(p) = self.standing(d) {
            pairs::remove(&mut self.objects, &mut self.queues, d, p);
        }
    }

    fn take(&mut self, part: Part, p: CpuNo, d: DpcNo)
        requires object { IsTrue (has_dpc self.old.script d) }
        requires cpu { IsTrue (has_cpu self.old.script p) }
        requires first { option_map (λ x. x.dpc)
            (first_dpc part (queue_in self.old.queues p).pending)
            ≡ Some d }
        ensures { self.new ≡ removed_at p d self.old }
    {
        pairs::take(&mut self.objects, &mut self.queues, d, p, part);
    }

    fn set_importance(&mut self, d: DpcNo, i: Importance)
        requires { IsTrue (has_dpc self.old.script d) }
        ensures { self.new
            ≡ with_object d (with_importance i (object_in self.old.objects d)) self.old }
    {
        pairs::set_importance(&mut self.objects, d, i);
    }

    fn set_target(&mut self, d: DpcNo, t: Option<CpuNo>)
        requires object { IsTrue (has_dpc self.old.script d) }
        requires cpu { IfSome t (λ p. IsTrue (has_cpu self.old.script p)) }
        ensures { self.new ≡ with_object d (with_target t (object_in self.old.objects d)) self.old }
    {
        pairs::set_target(&mut self.objects, d, t);
    }

    fn set_idle(&mut self, p: CpuNo, idle: bool)
        requires { IsTrue (has_cpu self.old.script p) }
        ensures { self.new ≡ with_queue p (set_idle idle (queue_in self.old.queues p)) self.old }
    {
        pairs::set_idle(&mut self.queues, p, idle);
    }
}
