//! The objects and queues of a script before any event.
ghost use Rattle.std.specs.Prelude.{◌≡◌, ◌≤◌, IfOk, length};
ghost use Rattle.nt_dpc_lanes.specs.Agree.{new_objects, new_queues};

use nt_dpc::{DpcObject, DpcQueue};
use nt_event::{CpuNo, DpcNo, Script};
use std::alloc::{AllocError, Global};

/// The objects of the script.
pub fn objects(alloc: Global, script: &Script) -> Result<Vec<DpcObject>, AllocError>
    requires { length script.now.dpcs ≤ 256 }
    ensures { IfOk result (λ v. v.items ≡ new_objects script.now (length script.now.dpcs)) }
{
    let count = script.dpcs.len() as u16;
    let mut objects = Vec::with_capacity(alloc, count as usize)?;
    for i in 0..count {
        let d = DpcNo(i);
        objects.push(DpcObject::new(d, script.is_threaded(d)))?;
    }
    Ok(objects)
}

/// The queues of the script's processors.
pub fn queues(alloc: Global, script: &Script) -> Result<Vec<DpcQueue>, AllocError>
    requires { length script.now.dpcs ≤ 256 }
    ensures { IfOk result (λ v. v.items ≡ new_queues script.now script.now.cpus) }
{
    let count = script.dpcs.len() as u32;
    let limit = script.depth_limit();
    let mut queues = Vec::with_capacity(alloc, script.cpus as usize)?;
    for i in 0..script.cpus {
        queues.push(DpcQueue::new(alloc, CpuNo(i), count, limit)?)?;
    }
    Ok(queues)
}

/// A copy of these objects.
pub(crate) fn copied_objects(
    alloc: Global,
    objects: &[DpcObject],
) -> Result<Vec<DpcObject>, AllocError>
    ensures { IfOk result (λ v. v.items ≡ objects.now) }
{
    let mut copies = Vec::with_capacity(alloc, objects.len())?;
    for object in objects {
        copies.push(object.copy())?;
    }
    Ok(copies)
}

/// A copy of these queues, with room for all that there may be.
pub(crate) fn copied_queues(alloc: Global, queues: &[DpcQueue]) -> Result<Vec<DpcQueue>, AllocError>
    ensures { IfOk result (λ v. v.items ≡ queues.now) }
{
    let mut copies = Vec::with_capacity(alloc, queues.len())?;
    for queue in queues {
        copies.push(queue.copy(alloc)?)?;
    }
    Ok(copies)
}
