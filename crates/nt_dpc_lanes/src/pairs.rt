//! Changes of an object and a queue, each at its place in its list.
ghost use Rattle.std.specs.Prelude.{◌≡◌, ◌<◌, false, true, option_map, set, Some, vec_len};
ghost use Rattle.nt_event.specs.Objects.{is_queued};
ghost use Rattle.nt_dpc.specs.Objects.{entry_of, queued_at, unqueued, with_importance, with_target};
ghost use Rattle.nt_dpc.specs.Queues.{MayInsert, StandsHereOrNowhere, first_entry, with_entry};
ghost use Rattle.nt_dpc.specs.Queues.{with_idle, without_entry};
ghost use Rattle.nt_dpc_lanes.specs.Agree.{object_facts, queue_facts};

use nt_dpc::{DpcObject, DpcQueue};
use nt_event::{CpuNo, DpcNo, Importance, Part};

/// Inserts the object, which isn't queued, into the queue of `p`, by the processor `by` in the
/// event `n`.
pub fn insert(
    objects: &mut Vec<DpcObject>,
    queues: &mut Vec<DpcQueue>,
    d: DpcNo,
    p: CpuNo,
    by: CpuNo,
    n: u64,
)
    requires object { d.0 < vec_len objects.old }
    requires queue { p.0 < vec_len queues.old }
    requires free { is_queued (object_facts objects.old.items d).state ≡ false }
    requires place { MayInsert (queue_facts queues.old.items p)
        (object_facts objects.old.items d) by }
    requires room { (object_facts objects.old.items d).dpc.0
        < (queue_facts queues.old.items p).count }
    ensures objects { objects.new.items
        ≡ set objects.old.items d.0 (queued_at
        (record { queue = (queue_facts queues.old.items p).cpu; number = n })
        (object_facts objects.old.items d)) }
    ensures queues { queues.new.items ≡ set queues.old.items p.0 (with_entry
        (entry_of n (object_facts objects.old.items d)) (queue_facts queues.old.items p)) }
{
    queues[p.0 as usize].insert(&mut objects[d.0 as usize], by, n);
}

/// Removes the object from the queue of `p`.
pub fn remove(objects: &mut Vec<DpcObject>, queues: &mut Vec<DpcQueue>, d: DpcNo, p: CpuNo)
    requires object { d.0 < vec_len objects.old }
    requires queue { p.0 < vec_len queues.old }
    requires place { StandsHereOrNowhere (queue_facts queues.old.items p)
        (object_facts objects.old.items d) }
    ensures objects { objects.new.items
        ≡ set objects.old.items d.0 (unqueued (object_facts objects.old.items d)) }
    ensures queues { queues.new.items ≡ set queues.old.items p.0
        (without_entry (object_facts objects.old.items d).dpc (queue_facts queues.old.items p)) }
{
    queues[p.0 as usize].remove(&mut objects[d.0 as usize]);
}

/// Takes the object, which is the first one of the part, from the queue of `p`.
pub fn take(
    objects: &mut Vec<DpcObject>,
    queues: &mut Vec<DpcQueue>,
    d: DpcNo,
    p: CpuNo,
    part: Part,
)
    requires object { d.0 < vec_len objects.old }
    requires queue { p.0 < vec_len queues.old }
    requires first { option_map (λ x. x.0) (first_entry part (queue_facts queues.old.items p))
        ≡ Some (object_facts objects.old.items d).dpc }
    ensures objects { objects.new.items
        ≡ set objects.old.items d.0 (unqueued (object_facts objects.old.items d)) }
    ensures queues { queues.new.items ≡ set queues.old.items p.0
        (without_entry (object_facts objects.old.items d).dpc (queue_facts queues.old.items p)) }
{
    queues[p.0 as usize].take(part, &mut objects[d.0 as usize]);
}

/// Sets the importance of the object.
pub fn set_importance(objects: &mut Vec<DpcObject>, d: DpcNo, i: Importance)
    requires { d.0 < vec_len objects.old }
    ensures { objects.new.items
        ≡ set objects.old.items d.0 (record (object_facts objects.old.items d) {
          state = with_importance i (object_facts objects.old.items d).state;
        }) }
{
    objects[d.0 as usize].set_importance(i);
}

/// Sets the target of the object.
pub fn set_target(objects: &mut Vec<DpcObject>, d: DpcNo, t: Option<CpuNo>)
    requires { d.0 < vec_len objects.old }
    ensures { objects.new.items
        ≡ set objects.old.items d.0 (record (object_facts objects.old.items d) {
          state = with_target t (object_facts objects.old.items d).state;
        }) }
{
    objects[d.0 as usize].set_target(t);
}

/// The processor of the queue is idle or not from now on.
pub fn set_idle(queues: &mut Vec<DpcQueue>, p: CpuNo, idle: bool)
    requires { p.0 < vec_len queues.old }
    ensures { queues.new.items
        ≡ set queues.old.items p.0 (with_idle idle (queue_facts queues.old.items p)) }
{
    let queue = &mut queues[p.0 as usize];
    if idle {
        queue.rest();
    } else {
        queue.run();
    }
}
