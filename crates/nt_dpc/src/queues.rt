//! DPC queues.
ghost use Rattle.std.specs.List.{list_any};
ghost use Rattle.std.specs.Bool.{OnFalse, OnTrue};
ghost use Rattle.std.specs.Prelude.{◌≡◌, ◌<◌, ◌≤◌, false, true, is_some, length, not, IfNone, IfOk};
ghost use Rattle.std.specs.Prelude.{IfSome, Some, option_map, set};
ghost use Rattle.nt_event.specs.Objects.{is_queued};
ghost use Rattle.nt_event.specs.Queues.{depth_of, first_dpc, is_in};
ghost use Rattle.nt_dpc.specs.Objects.{AreNumbered, ObjectFacts, entry_of, object_of, queued_at};
ghost use Rattle.nt_dpc.specs.Objects.{unqueued};
ghost use Rattle.nt_dpc.specs.Queues.{MayInsert, StandsHereOrNowhere, asked_class, entry_count};
ghost use Rattle.nt_dpc.specs.Queues.{first_entry, holds_dpc, new_queue, queue_with, with_entry};
ghost use Rattle.nt_dpc.specs.Queues.{with_idle};
ghost use Rattle.nt_dpc.specs.Queues.{without_entry};

use crate::entries;
use crate::objects::DpcObject;
use nt_event::{CpuNo, DpcNo, Insert, Part, Standing, class};
use std::alloc::{AllocError, Global};
use std::marker::Model;

/// What an insert answers.
#[derive(Clone, Copy, PartialEq, Eq, Debug)]
pub struct Inserted {
    /// Whether the object was inserted. False exactly where it was queued already, and then nothing
    /// changed.
    pub yes: bool,
    /// The request class that the insert asks for on the queue's processor: 0 for a threaded DPC, 2
    /// (DISPATCH_LEVEL) or none for an ordinary one.
    pub ask: Option<u8>,
    /// How many ordinary entries the queue has afterwards.
    pub depth: u32,
}

/// The DPC queue of a processor. It has room for its objects from the start: no call but
/// [`DpcQueue::new`] and [`DpcQueue::copy`] takes memory.
#[derive(Drop, Debug)]
pub struct DpcQueue {
    cpu: CpuNo,
    count: u32,
    limit: u32,
    idle: bool,
    /// The entries, the newest last. There are at most as many as objects, so the first of a part
    /// is found by a walk.
    items: Vec<Insert>,
}

impl Model for DpcQueue {
    ghost use Rattle.std.specs.Prelude.{◌<◌, ◌≤◌, ◌^◌, reverse};
    ghost use Rattle.std.specs.Vec.{vec_capacity};
    ghost use Rattle.nt_dpc.specs.Queues.{EachOnceBelow, QueueFacts};

    ghost Value = { QueueFacts };

    ghost view = { λ a. record {
      cpu = a.cpu;
      count = a.count;
      limit = a.limit;
      state = record { pending = reverse a.items.items; idle = a.idle };
    } };

    ghost invariant = { λ a.
        (a.count < 2 ^ 32) × (a.count ≤ vec_capacity a.items) ×
        EachOnceBelow a.count (reverse a.items.items) };
}

impl DpcQueue {
    /// An empty queue of the processor, with room for `count` objects and the depth limit `depth`.
    /// No later call but [`DpcQueue::copy`] takes memory.
    pub fn new(alloc: Global, cpu: CpuNo, count: u32, depth: u32) -> Result<DpcQueue, AllocError>
        ensures { IfOk result (λ q. q ≡ new_queue cpu count depth) }
    {
        let items = Vec::with_capacity(alloc, count as usize)?;
        Ok(DpcQueue {
            cpu,
            count,
            limit: depth,
            idle: false,
            items,
        })
    }

    /// A copy of it, with room for as many objects.
    pub fn copy(&self, alloc: Global) -> Result<DpcQueue, AllocError>
        ensures { IfOk result (λ q. q ≡ self.now) }
    {
        let mut items = Vec::with_capacity(alloc, self.count as usize)?;
        items.extend_from_slice(self.items.as_slice())?;
        Ok(DpcQueue {
            cpu: self.cpu,
            count: self.count,
            limit: self.limit,
            idle: self.idle,
            items,
        })
    }

    /// Inserts the object, by the processor `by` in the event `n`. KeInsertQueueDpc.
    pub fn insert(&mut self, d: &mut DpcObject, by: CpuNo, n: u64) -> Inserted
        requires place { MayInsert self.old d.old by }
        requires room { d.old.dpc.0 < self.old.count }

        ensures yes { result.yes ≡ not (is_queued d.old.state) }
        ensures ask { result.ask ≡ asked_class self.old d.old by }
        ensures depth { result.depth ≡ depth_of self.new.state.pending }

        // the queue has the new entry, and the object stands there
        ensures queue { OnTrue result.yes (self.new ≡ with_entry (entry_of n d.old) self.old) }
        ensures object { OnTrue result.yes
            (d.new ≡ queued_at (record { queue = self.old.cpu; number = n }) d.old) }
        ensures stands { OnTrue result.yes (StandsHereOrNowhere self.new d.new) }

        // a refusal changes nothing
        ensures same_queue { OnFalse result.yes (self.new ≡ self.old) }
        ensures same_object { OnFalse result.yes (d.new ≡ d.old) }
    {
        let answer = self.answer(d, by);
        if answer.yes {
            self.add(d.entry(n));
            d.stand_at(Standing {
                queue: self.cpu,
                number: n,
            });
        }
        answer
    }

    /// What [`DpcQueue::insert`] would answer now.
    pub fn answer(&self, d: &DpcObject, by: CpuNo) -> Inserted
        requires place { MayInsert self.now d.now by }
        requires room { d.now.dpc.0 < self.now.count }

        ensures yes { result.yes ≡ not (is_queued d.now.state) }
        ensures ask { result.ask ≡ asked_class self.now d.now by }
        ensures depth { result.depth ≡ depth_of (queue_with 0 d.now self.now).state.pending }
    {
        let depth = self.depth();
        if d.is_queued() {
            return Inserted {
                yes: false,
                ask: None,
                depth,
            };
        }
        match d.part() {
            Part::Threaded => Inserted {
                yes: true,
                ask: Some(class::THREADED),
                depth,
            },
            Part::Ordinary => {
                let depth = depth + 1;
                let own = self.cpu.0 == by.0;
                let asks = entries::insert_asks(d.importance(), own, depth > self.limit, self.idle);
                Inserted {
                    yes: true,
                    ask: if asks { Some(class::DISPATCH) } else { None },
                    depth,
                }
            }
        }
    }

    /// Takes the object's entry out again; true exactly where it stood here. KeRemoveQueueDpc.
    pub fn remove(&mut self, d: &mut DpcObject) -> bool
        requires { StandsHereOrNowhere self.old d.old }
        ensures stood { result ≡ is_queued d.old.state }
        ensures queue { self.new ≡ without_entry d.old.dpc self.old }
        ensures object { d.new ≡ unqueued d.old }
        ensures fewer { OnTrue result (entry_count self.new < entry_count self.old) }
        ensures stands { StandsHereOrNowhere self.new d.new }
        ensures same_queue { OnFalse result (self.new ≡ self.old) }
        ensures same_object { OnFalse result (d.new ≡ d.old) }
    {
        let stood = d.is_queued();
        if stood {
            self.take_out(d.no());
            d.leave();
        }
        stood
    }

    /// Whether an entry of the object of this number stands here.
    pub fn holds(&self, d: DpcNo) -> bool
        ensures { result ≡ holds_dpc d self.now.state.pending }
    {
        entries::holds(self.items.as_slice(), d)
    }

    /// The first entry of the part, by its object and the number of its event; None exactly where
    /// the part is empty.
    pub fn first(&self, part: Part) -> Option<(DpcNo, u64)>
        ensures value { result ≡ first_entry part self.now }
        ensures found { is_some result ≡ list_any (is_in part) self.now.state.pending }
        ensures below { IfSome result (λ x. x.0.0 < self.now.count) }
    {
        match entries::first(self.items.as_slice(), part) {
            Some(x) => Some((x.dpc, x.number)),
            None => None,
        }
    }

    /// Takes the object, which is the first one of the part, out of the queue. Answers the number
    /// of the event that inserted it.
    pub fn take(&mut self, part: Part, d: &mut DpcObject) -> u64
        requires { option_map (λ x. x.0) (first_entry part self.old) ≡ Some d.old.dpc }
        ensures number { first_entry part self.old ≡ Some (d.old.dpc, result) }
        ensures queue { self.new ≡ without_entry d.old.dpc self.old }
        ensures object { d.new ≡ unqueued d.old }
        ensures fewer { entry_count self.new < entry_count self.old }
        ensures stands { StandsHereOrNowhere self.new d.new }
    {
        let Some((first, number)) = self.first(part) else {
            unreachable!()
        };
        self.take_out(first);
        d.leave();
        number
    }

    /// Takes the first entry of the part out of the queue, and its object out of this state:
    /// `objects` has the object of each number below the queue's count, by its number. Answers the
    /// object's number and that of the event that inserted it; None exactly where the part is
    /// empty, and then nothing changes.
    ///
    /// Each entry that is taken leaves fewer, so a loop over this call ends.
    pub fn take_first(&mut self, part: Part, objects: &mut [DpcObject]) -> Option<(DpcNo, u64)>
        requires all { self.old.count ≤ length objects.old }
        requires numbered { AreNumbered objects.old }
        ensures value { result ≡ first_entry part self.old }
        ensures queue { IfSome result (λ x. self.new ≡ without_entry x.0 self.old) }
        ensures objects { IfSome result (λ x.
            objects.new ≡ set objects.old x.0.0 (unqueued (object_of objects.old x.0))) }
        ensures fewer { IfSome result (λ x. entry_count self.new < entry_count self.old) }
        ensures numbered { AreNumbered objects.new }
        ensures same_queue { IfNone result (self.new ≡ self.old) }
        ensures same_objects { IfNone result (objects.new ≡ objects.old) }
    {
        let (first, number) = self.first(part)?;
        self.take(part, &mut objects[usize::from(first.0)]);
        Some((first, number))
    }

    /// The processor is idle from now on.
    pub fn rest(&mut self)
        ensures { self.new ≡ with_idle true self.old }
    {
        self.idle = true;
    }

    /// The processor isn't idle from now on.
    pub fn run(&mut self)
        ensures { self.new ≡ with_idle false self.old }
    {
        self.idle = false;
    }

    /// Whether the processor is idle.
    pub fn is_idle(&self) -> bool
        ensures { result ≡ self.now.state.idle }
    {
        self.idle
    }

    /// How many ordinary entries there are.
    fn depth(&self) -> u32
        ensures value { result ≡ depth_of self.now.state.pending }
        ensures most { result ≤ length self.now.state.pending }
    {
        entries::depth(self.items.as_slice()) as u32
    }

    /// Adds the entry. Its object has none here.
    fn add(&mut self, x: Insert)
        requires new { holds_dpc x.dpc self.old.state.pending ≡ false }
        requires room { x.dpc.0 < self.old.count }
        ensures { self.new ≡ with_entry x self.old }
    {
        self.items.push_reserved(x);
    }

    /// Takes the object's entry out, if there is one.
    #[inline(always)]
    fn take_out(&mut self, d: DpcNo)
        ensures { self.new ≡ without_entry d self.old }
    {
        if let Some(place) = entries::place_of(self.items.as_slice(), d) {
            self.items.remove(place);
        }
    }
}
