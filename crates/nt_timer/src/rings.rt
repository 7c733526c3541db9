//! Rings of nodes, linked both ways: a node leaves its ring and enters another without a walk.
ghost use Rattle.std.specs.Prelude.{ℕ, ◌≡◌, ◌<◌, ◌≤◌, ◌^◌, IfOk, MatchOption, length, slice_index};
ghost use Rattle.std.specs.Prelude.{slice_set};
ghost use Rattle.nt_timer.specs.Rings.{IsAlone, IsOfRing};
ghost use Rattle.nt_timer.specs.declared.rings.TheConstants.{HEADS};

use std::alloc::{AllocError, Global};
use std::marker::Model;

/// How many nodes are heads of rings: one for each slot.
pub(crate) const HEADS: usize = 576;

/// Nodes, each in one ring. The first [`HEADS`] nodes are heads, each of a ring of its own; any
/// other node stands in the ring of a head or alone. Contracts see for each node the head of its
/// ring, or the node itself where it stands alone.
#[derive(Drop, Debug)]
pub(crate) struct Rings {
    /// For each node, the next one in its ring.
    next: Vec<usize>,
    /// For each node, the one before it.
    previous: Vec<usize>,
    /// For each node, the head of its ring.
    home: Vec<usize>,
}

impl Model for Rings {
    ghost use Rattle.std.specs.Prelude.{List, ℕ};
    ghost use Rattle.nt_timer.specs.Rings.{AreLinked};

    ghost Value = { List ℕ };

    ghost view = { λ a. a.home.items };

    ghost invariant = { λ a. AreLinked a.next.items a.previous.items a.home.items };
}

impl Rings {
    /// So many nodes, each alone.
    pub(crate) fn new(alloc: Global, count: usize) -> Result<Rings, AllocError>
        ensures { IfOk result (λ r. IsAlone count r) }
    {
        let next = numbers(alloc, count)?;
        let previous = numbers(alloc, count)?;
        let home = numbers(alloc, count)?;
        Ok(Rings {
            next,
            previous,
            home,
        })
    }

    /// A copy of them.
    pub(crate) fn copy(&self, alloc: Global) -> Result<Rings, AllocError>
        ensures { IfOk result (λ r. r ≡ self.entry.now) }
    {
        Ok(Rings {
            next: self.next.to_vec(alloc)?,
            previous: self.previous.to_vec(alloc)?,
            home: self.home.to_vec(alloc)?,
        })
    }

    /// Takes the node out of its ring.
    pub(crate) fn detach(&mut self, node: usize)
        requires { (HEADS ≤ node) × (node < length self.old) }
        ensures { self.new ≡ slice_set self.old node node }
    {
        let next = self.next[node];
        let previous = self.previous[node];
        self.next[previous] = next;
        self.previous[next] = previous;
        self.next[node] = node;
        self.previous[node] = node;
        self.home[node] = node;
    }

    /// Puts a node that stands alone at the end of the ring of the head.
    pub(crate) fn append(&mut self, head: usize, node: usize)
        requires { (head < HEADS) × (HEADS ≤ node) × (node < length self.old) ×
            (slice_index self.old node ≡ node) }
        ensures { self.new ≡ slice_set self.old node head }
    {
        let last = self.previous[head];
        self.next[last] = node;
        self.previous[node] = last;
        self.next[node] = head;
        self.previous[head] = node;
        self.home[node] = head;
    }

    /// The first node in the ring of the head; None exactly where the head is alone.
    pub(crate) fn first(&self, head: usize) -> Option<usize>
        requires { (head < HEADS) × (head < length self.now) }
        ensures { MatchOption result
            ((i : ℕ) → i < length self.entry.now → slice_index self.entry.now i ≡ head → i ≡ head)
            (λ k. IsOfRing self.entry.now head k) }
    {
        let first = self.next[head];
        if first == head { None } else { Some(first) }
    }
}

/// The numbers below the count, in order.
fn numbers(alloc: Global, count: usize) -> Result<Vec<usize>, AllocError>
    ensures { IfOk result (λ v. IsAlone count v.items) }
{
    let mut numbers = Vec::with_capacity(alloc, count)?;
    for number in 0..count {
        numbers.push_reserved(number);
    }
    Ok(numbers)
}
