//! DPC objects, without the numbers of their inserts.
ghost use Rattle.std.specs.Prelude.{◌≡◌, ◌≤◌, length, map};
ghost use Rattle.nt_event.specs.Objects.{object_in, queue_for, start_object};
ghost use Rattle.nt_shade_dpcs.specs.Changed.{object_changed, objects_changed};
ghost use Rattle.nt_shade_dpcs.specs.Shades.{object_said};

use nt_dpc_lanes::Change;
use nt_event::{CpuNo, DpcNo, Importance};

/// What stands of a DPC object.
#[derive(Clone, Copy, PartialEq, Eq, Hash, Debug)]
pub struct ShadeObject {
    pub importance: Importance,
    pub target: Option<CpuNo>,
    /// The processor in whose queue its pending insert stands.
    pub standing: Option<CpuNo>,
}

impl ShadeObject {
    /// An object before any event.
    pub fn new() -> ShadeObject
        ensures { object_said result ≡ start_object }
    {
        ShadeObject {
            importance: Importance::Medium,
            target: None,
            standing: None,
        }
    }

    /// The processor whose queue an insert by the processor `by` goes to.
    pub fn queue_for(&self, by: CpuNo) -> CpuNo
        ensures { result ≡ queue_for self.now.target by }
    {
        self.target.unwrap_or(by)
    }

    /// Takes in a change by the processor `by`. This is the object d.
    pub(crate) fn follow(&mut self, d: DpcNo, by: CpuNo, change: Change)
        ensures { object_said self.new ≡ object_changed d by change (object_said self.old) }
    {
        match change {
            Change::Insert(x) if x == d => self.standing = Some(self.queue_for(by)),
            Change::Remove(x) | Change::Take(_, x) if x == d => self.standing = None,
            Change::SetImportance(x, importance) if x == d => self.importance = importance,
            Change::SetTarget(x, target) if x == d => self.target = target,
            Change::Nothing
            | Change::Insert(_)
            | Change::Remove(_)
            | Change::Take(_, _)
            | Change::SetImportance(_, _)
            | Change::SetTarget(_, _)
            | Change::Rest
            | Change::Run => {}
        }
    }
}

/// The object of this number; one before any event past the last.
pub(crate) fn object_at(objects: &[ShadeObject], d: DpcNo) -> ShadeObject
    ensures { object_said result ≡ object_in (map object_said objects.now) d }
{
    match objects.get(usize::from(d.0)) {
        Some(object) => *object,
        None => ShadeObject::new(),
    }
}

/// Each object takes in a change by the processor `by`.
pub(crate) fn follow_objects(objects: &mut Vec<ShadeObject>, by: CpuNo, change: Change)
    requires { length objects.old.items ≤ 256 }
    ensures { map object_said objects.new.items
        ≡ objects_changed by change (map object_said objects.old.items) }
{
    let count = objects.len() as u16;
    for d in 0..count {
        objects[usize::from(d)].follow(DpcNo(d), by, change);
    }
}
