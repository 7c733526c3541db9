//! What threads do with a queue of work items.
ghost use Rattle.std.specs.Prelude.{◌≡◌, ◌≤◌, IfOk, MatchOption, MatchResult};
ghost use Rattle.nt_work.specs.Queue.{IsOf, MaySplit, WasAt, pass_view, queue_room};
ghost use Rattle.nt_work.specs.Rule.{all_parts, fewer, fresh, met_by, whole, with_put, with_taken};
ghost use Rattle.nt_work.specs.declared.queue.TheConstants.{ROOM};

use crate::item::Item;
use crate::passes::{WorkPass, WorkQueue};
use crate::rule::{Meeting, Parted, Puts, Takes};
use crossbeam_queue::RuledArrayQueue;
use std::alloc::{AllocError, Global};
use std::sync::Wait;

/// Room of a queue at most.
pub const ROOM: u32 = 1_024;

impl WorkQueue {
    /// An empty queue with room for so many items, and its first pass, which has all 17 parts: so
    /// there can be 17 passes. The room is 1 to 1,024.
    ///
    /// An error is want of memory.
    pub fn new(alloc: Global, room: u32) -> Result<(WorkQueue, WorkPass), AllocError>
        requires { (1 ≤ room) × (room ≤ ROOM) }
        ensures { IfOk result (λ q. (queue_room q.0 ≡ room) × (IsOf q.0 q.1) ×
            (pass_view q.1 ≡ whole)) }
    {
        let (queue, pass) = RuledArrayQueue::ruled(alloc, room as usize)?;
        Ok((WorkQueue { queue }, WorkPass { pass }))
    }

    /// Puts an item at the back. Err hands it back: at one moment of the call the queue was full,
    /// and of that moment the pass knows a list of all puts, among them its own in their order, and
    /// that the first of them, all but as many as there is room, are all takes.
    ///
    /// It may wait, for a thread that stands still in a put or take of its own.
    pub fn put<R: Wait>(&self, rt: &R, pass: &mut WorkPass, item: Item) -> Result<(), Item>
        requires { IsOf self.now pass.old }
        ensures queue { IsOf self.now pass.new }
        ensures answer { MatchResult result
            (λ _. pass_view pass.new ≡ with_put (pass_view pass.old) item)
            (λ back. (back ≡ item) × (pass_view pass.new ≡ pass_view pass.old) ×
            WasAt (queue_room self.now) (pass_view pass.old)) }
    {
        self.queue.push_as::<Puts, R>(rt, &mut pass.pass, item)
    }

    /// Takes the item at the front. None says that at one moment of the call the queue was empty:
    /// of that moment the pass knows a list of all puts, among them its own, all of which were
    /// taken.
    ///
    /// It may wait, for a thread that stands still in a put or take of its own.
    pub fn take<R: Wait>(&self, rt: &R, pass: &mut WorkPass) -> Option<Item>
        requires { IsOf self.now pass.old }
        ensures queue { IsOf self.now pass.new }
        ensures answer { MatchOption result
            ((pass_view pass.new ≡ pass_view pass.old) × WasAt 0 (pass_view pass.old))
            (λ item. pass_view pass.new ≡ with_taken (pass_view pass.old) item) }
    {
        self.queue.pop_as::<Takes, R>(rt, &mut pass.pass)
    }

    /// A new pass, which put and took nothing. It gets a part of a pass that holds two at least and
    /// met no other.
    pub fn split(&self, pass: &mut WorkPass) -> WorkPass
        requires queue { IsOf self.now pass.old }
        requires parts { MaySplit (pass_view pass.old) }
        ensures left { (IsOf self.now pass.new) ×
            (pass_view pass.new ≡ fewer (pass_view pass.old)) }
        ensures right { (IsOf self.now result) ×
            (pass_view result ≡ fresh (pass_view pass.old)) }
    {
        let new = self.queue.another::<Parted>(&mut pass.pass);
        WorkPass { pass: new }
    }

    /// The pass takes in what another put and took, and its parts.
    pub fn meet(&self, pass: &mut WorkPass, other: WorkPass)
        requires { (IsOf self.now pass.old) × (IsOf self.now other) }
        ensures queue { IsOf self.now pass.new }
        ensures met { pass_view pass.new ≡ met_by (pass_view pass.old) (pass_view other) }
    {
        self.queue.absorb::<Meeting>(&mut pass.pass, other.pass);
    }

    /// Ends the queue, by a pass that met all others. It returns how many items are left: the pass
    /// knows a list of all puts, all but the last so many of which are all takes, and each put and
    /// each take is by itself or a pass that it met.
    ///
    /// It may wait, for a thread that stands still in a put or take of its own.
    pub fn close<R: Wait>(self, rt: &R, pass: WorkPass) -> usize
        requires queue { IsOf self pass }
        requires all { (pass_view pass).parts ≡ all_parts }
        ensures { WasAt result (pass_view pass) }
    {
        let mut pass = pass;
        self.queue.len_as::<Puts, R>(rt, &mut pass.pass)
    }
}
