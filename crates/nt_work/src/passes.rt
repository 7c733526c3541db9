//! The queue and its passes.
ghost use Rattle.std.specs.Prelude.{◌<◌};
ghost use Rattle.crossbeam_queue.specs.Passes.{view};

use crate::item::Item;
use crate::rule::Fair;
use crate::view::View;
use crossbeam_queue::{Pass, RuledArrayQueue};

/// A bounded queue of work items: first in, first out.
#[derive(Drop)]
pub struct WorkQueue {
    pub(crate) queue: RuledArrayQueue<Item, View, Fair>,
}

/// What one thread puts and takes items with. It holds a part of its queue at least. It has no
/// bytes. Contracts see what it put and took.
#[derive(Drop)]
pub struct WorkPass {
    pub(crate) pass: Pass<Item, View>,
    ghost part: { 0 < (view pass).parts },
}
