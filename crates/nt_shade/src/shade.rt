//! All that stands in a history, in one place.
ghost use Rattle.std.specs.Prelude.{◌≡◌, IfOk, List};
ghost use Rattle.nt_event.specs.declared.events.Event.{Event};
ghost use Rattle.nt_shade_asks.specs.Counts.{AreFew, counts_of};
ghost use Rattle.nt_shade.specs.Shade.{IsShadeOf, StandAfter};

use crate::cpus::{ShadeCpu, cpus_of};
use crate::threads::{ShadeThread, threads_of};
use nt_cpus::Processors;
use nt_plain::PlainFloor;
use nt_shade_asks::Unnoticed;
use nt_shade_dpcs::ShadeDpcs;
use std::alloc::{AllocError, Global};

/// All that stands in a history of a script, without the numbers of its events. Two shades can be
/// compared, and one can be the key of a map.
#[derive(Clone, PartialEq, Eq, Hash, Drop, Debug)]
pub struct Shade {
    /// What stands in the lanes of objects, queues, timers and spin locks.
    pub dpcs: ShadeDpcs,
    /// How much each processor was asked for and has not noticed, and which classes are due, class
    /// after class.
    pub counts: Vec<u32>,
    /// What stands of the threads, in the order of their numbers.
    pub threads: Vec<ShadeThread>,
    /// What the processors keep, in the order of their numbers.
    pub cpus: Vec<ShadeCpu>,
}

/// The room to begin with for the counts: two of each class, and one of each lane that is told of.
/// Where it is too little, the list grows.
fn room_of(unnoticed: &Unnoticed) -> usize {
    let mut room = 0usize;
    for row in &unnoticed.classes {
        room = room.saturating_add(2).saturating_add(row.told.len());
    }
    room
}

/// The counts of what was asked and not noticed.
fn counts_of(alloc: Global, unnoticed: &Unnoticed) -> Result<Vec<u32>, AllocError>
    requires { AreFew unnoticed.now }
    ensures { IfOk result (λ v. v.items ≡ counts_of unnoticed.now) }
{
    let mut counts = Vec::with_capacity(alloc, room_of(unnoticed))?;
    unnoticed.write_counts(&mut counts)?;
    Ok(counts)
}

/// The shade of the history after which the machine stands. `dpcs` followed its events, and
/// `unnoticed` is what it says of the asks.
pub fn shade_of(
    alloc: Global,
    processors: &Processors,
    floor: &PlainFloor,
    dpcs: &ShadeDpcs,
    unnoticed: &Unnoticed,
) -> Result<Shade, AllocError>
    requires { (past : List Event) ×
        StandAfter past processors.now floor.now dpcs.now unnoticed.now }
    ensures { IfOk result (λ x. (past : List Event) →
        StandAfter past processors.now floor.now dpcs.now unnoticed.now →
        IsShadeOf processors.now.script past x) }
{
    Ok(Shade {
        dpcs: dpcs.clone()?,
        counts: counts_of(alloc, unnoticed)?,
        threads: threads_of(alloc, floor.threads().states())?,
        cpus: cpus_of(alloc, processors.cpus())?,
    })
}
