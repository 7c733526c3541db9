//! The parts of which states are made, each kept once.
//!
//! Few parts make many states: what stands in the lanes comes together with many ways in which the
//! threads and the processors stand. So a state keeps numbers of its parts alone.
ghost use Rattle.std.specs.Prelude.{◌≡◌, IfOk, IsTrue, Some, slice_get, true};
ghost use Rattle.nt_search.specs.Keys.{AreNumbered, GoesOn, HasMore};

use crate::states::Key;
use indexmap::IndexSet;
use nt_shade::{Shade, ShadeCpu, ShadeThread};
use nt_shade_dpcs::ShadeDpcs;
use std::alloc::{AllocError, Global};
use std::hash::Hash;
use std::marker::Model;

/// The parts of the states that were found, by numbers from 0. Those that are `==` are one.
#[derive(Drop)]
pub(crate) struct Parts {
    /// What stands in the lanes of objects, queues, timers and spin locks.
    dpcs: IndexSet<ShadeDpcs>,
    /// How much processors were asked for and have not noticed.
    counts: IndexSet<Vec<u32>>,
    /// What stands of the threads.
    threads: IndexSet<Vec<ShadeThread>>,
    /// What the processors keep.
    cpus: IndexSet<Vec<ShadeCpu>>,
    /// Which of the events that are watched for came.
    came: IndexSet<Vec<bool>>,
}

impl Model for Parts {
    ghost use Rattle.nt_search.specs.Keys.{SeenParts};

    ghost Value = { SeenParts };

    ghost view = { λ a. record {
      dpcs = a.dpcs.keys;
      counts = a.counts.keys;
      threads = a.threads.keys;
      cpus = a.cpus.keys;
      came = a.came.keys;
    } };
}

/// The number of the part, which is added where none is `==`. An error comes where no memory is
/// found, or where no number is left.
fn number_of<T: Eq + Hash + Drop>(parts: &mut IndexSet<T>, part: T) -> Result<u32, AllocError>
    ensures more { GoesOn parts.old.keys parts.new.keys }
    ensures number { IfOk result (λ n. (kept : T) × (slice_get parts.new.keys n ≡ Some kept) ×
        (T.eq part kept ≡ true)) }
{
    let (place, _) = parts.insert_full(part)?;
    match u32::try_from(place) {
        Ok(number) => Ok(number),
        Err(_) => Err(AllocError),
    }
}

/// Whether the part of this number is `==` to this one.
fn is_at<T: Eq + Hash>(parts: &IndexSet<T>, number: u32, part: &T) -> bool
    ensures { IsTrue result → (kept : T) × (slice_get parts.now.keys number ≡ Some kept) ×
        (T.eq part.now kept ≡ true) }
{
    match parts.get_index(number as usize) {
        Some(kept) => part == kept,
        None => false,
    }
}

impl Parts {
    /// No parts.
    pub(crate) fn new(alloc: Global) -> Parts {
        Parts {
            dpcs: IndexSet::new(alloc),
            counts: IndexSet::new(alloc),
            threads: IndexSet::new(alloc),
            cpus: IndexSet::new(alloc),
            came: IndexSet::new(alloc),
        }
    }

    /// The key of the state with this shade, where this came, and this mark. Parts that are new are
    /// added; after an error some of them may be.
    pub(crate) fn number(
        &mut self,
        shade: Shade,
        came: Vec<bool>,
        mark: u32,
    ) -> Result<Key, AllocError>
        ensures more { HasMore self.old self.new }
        ensures numbered { IfOk result (λ key. AreNumbered self.new key shade came) }
    {
        let Shade {
            dpcs,
            counts,
            threads,
            cpus,
        } = shade;
        let dpcs = number_of(&mut self.dpcs, dpcs);
        let counts = number_of(&mut self.counts, counts);
        let threads = number_of(&mut self.threads, threads);
        let cpus = number_of(&mut self.cpus, cpus);
        let came = number_of(&mut self.came, came);
        Ok(Key {
            dpcs: dpcs?,
            counts: counts?,
            threads: threads?,
            cpus: cpus?,
            came: came?,
            mark,
        })
    }

    /// Whether the key is one of a state with this shade, where this came.
    pub(crate) fn are_of(&self, key: &Key, shade: &Shade, came: &Vec<bool>) -> bool
        ensures { IsTrue result → AreNumbered self.now key.now shade.now came.now }
    {
        let dpcs = is_at(&self.dpcs, key.dpcs, &shade.dpcs);
        let counts = is_at(&self.counts, key.counts, &shade.counts);
        let threads = is_at(&self.threads, key.threads, &shade.threads);
        let cpus = is_at(&self.cpus, key.cpus, &shade.cpus);
        let came = is_at(&self.came, key.came, came);
        dpcs & counts & threads & cpus & came
    }
}
