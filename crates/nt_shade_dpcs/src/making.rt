//! What stands in the lanes before any event.
ghost use Rattle.std.specs.Prelude.{◌≡◌, IfOk, length, map};
ghost use Rattle.nt_event.specs.Lists.{table};
ghost use Rattle.nt_event.specs.Locks.{free_lock};
ghost use Rattle.nt_event.specs.Objects.{start_object};
ghost use Rattle.nt_event.specs.Queues.{start_queue};
ghost use Rattle.nt_shade_dpcs.specs.Shades.{lock_said, object_said, queue_said};

use crate::locks::ShadeLock;
use crate::objects::ShadeObject;
use crate::queues::ShadeQueue;
use nt_event::Script;
use std::alloc::{AllocError, Global};

/// The objects of the script.
pub(crate) fn objects(alloc: Global, script: &Script) -> Result<Vec<ShadeObject>, AllocError>
    ensures { IfOk result (λ v. map object_said v.items
        ≡ table (length script.now.dpcs) (λ d. start_object)) }
{
    let count = script.dpcs.len();
    let mut objects = Vec::with_capacity(alloc, count)?;
    for _ in 0..count {
        objects.push(ShadeObject::new())?;
    }
    Ok(objects)
}

/// The queues of the script's processors.
pub(crate) fn queues(alloc: Global, script: &Script) -> Result<Vec<ShadeQueue>, AllocError>
    ensures { IfOk result (λ v. map queue_said v.items
        ≡ table script.now.cpus (λ p. start_queue)) }
{
    let mut queues = Vec::with_capacity(alloc, usize::from(script.cpus))?;
    for _ in 0..script.cpus {
        queues.push(ShadeQueue::new(alloc))?;
    }
    Ok(queues)
}

/// The spin locks of the script.
pub(crate) fn locks(alloc: Global, script: &Script) -> Result<Vec<ShadeLock>, AllocError>
    ensures { IfOk result (λ v. map lock_said v.items
        ≡ table script.now.locks (λ k. free_lock script.now)) }
{
    let mut locks = Vec::with_capacity(alloc, usize::from(script.locks))?;
    for _ in 0..script.locks {
        locks.push(ShadeLock::new(alloc, script)?)?;
    }
    Ok(locks)
}
