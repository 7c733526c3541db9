//! The depths that are known so far.
ghost use Rattle.std.specs.Prelude.{◌≡◌, ◌<◌, ◌≤◌, ◌^◌, All, Contains, IfErr, IfOk, ℕ};
ghost use Rattle.std.specs.Prelude.{MatchOption, get_or, length};
ghost use Rattle.nt_rounds.specs.Depths.{IsInside};
ghost use Rattle.nt_rounds.specs.Known.{AreKnown, IsOver, IsStuck, IsUnknown};

use crate::graph::Graph;
use std::alloc::{AllocError, Global};

/// The depths that are known so far. A depth is less than the number of states, so this number
/// stands for one that is not known.
#[derive(Drop)]
pub(crate) struct Known {
    /// By the numbers of the states.
    pub(crate) depths: Vec<u32>,
    /// Of how many states the depth is known.
    count: usize,
}

/// One more than the greatest depth of these states, or 0 where there are none. Where the depth of
/// one of them is not known, that state.
pub(crate) fn depth_over(depths: &[u32], states: &[u32]) -> Result<u32, u32>
    requires inside { All (λ m. m < length depths.now) states.now }
    requires few { length depths.now < 2 ^ 32 }
    ensures over { IfOk result (IsOver depths.now states.now) }
    ensures unknown { IfErr result (λ m. Contains states.now m × IsUnknown depths.now m) }
{
    let mut depth = 0;
    for state in states {
        let below = depths[*state as usize];
        if depths.len() <= below as usize {
            return Err(*state);
        }
        depth = depth.max(below + 1);
    }
    Ok(depth)
}

/// The first state of which the depth is not known.
pub(crate) fn first_unknown(depths: &[u32]) -> Option<u32>
    requires { length depths.now < 2 ^ 32 }
    ensures { MatchOption result
        ((n : ℕ) → n < length depths.now → get_or depths.now n 0 < length depths.now)
        (λ n. (n < length depths.now) × IsUnknown depths.now n) }
{
    for (place, depth) in depths.iter().enumerate() {
        if depths.len() <= *depth as usize {
            return Some(place as u32);
        }
    }
    None
}

impl Known {
    /// No depth is known.
    pub(crate) fn new(alloc: Global, graph: &Graph) -> Result<Known, AllocError>
        requires { length graph.now.closed < 2 ^ 32 }
        ensures { IfOk result (λ x. AreKnown graph.now.closed x.depths.items x.count) }
    {
        let states = graph.len();
        let depths = vec![in alloc; states as u32; states]?;
        Ok(Known { depths, count: 0 })
    }

    /// Finds the depth of this state, if it is not known, and those of the states that it leads to
    /// are.
    fn find(&mut self, graph: &Graph, state: u32)
        requires inside { IsInside graph.now.closed }
        requires few { length graph.now.closed < 2 ^ 32 }
        requires known { AreKnown graph.now.closed self.old.depths.items self.old.count }
        requires state { state < length graph.now.closed }
        ensures known { AreKnown graph.now.closed self.new.depths.items self.new.count }
        ensures more { self.old.count ≤ self.new.count }
        ensures same { self.new.count ≡ self.old.count →
            self.new.depths.items ≡ self.old.depths.items }
        ensures stuck { self.new.count ≡ self.old.count →
            IsStuck graph.now.closed self.new.depths.items state }
    {
        let place = state as usize;
        if self.depths.len() <= self.depths[place] as usize {
            if let Ok(depth) = depth_over(self.depths.as_slice(), graph.after(state)) {
                self.depths[place] = depth;
                self.count += 1;
            }
        }
    }

    /// Goes over all states once, from the last to the first.
    fn pass(&mut self, graph: &Graph)
        requires inside { IsInside graph.now.closed }
        requires few { length graph.now.closed < 2 ^ 32 }
        requires known { AreKnown graph.now.closed self.old.depths.items self.old.count }
        ensures known { AreKnown graph.now.closed self.new.depths.items self.new.count }
        ensures more { self.old.count ≤ self.new.count }
        ensures stuck { self.new.count ≡ self.old.count → (n : ℕ) →
            n < length graph.now.closed → IsStuck graph.now.closed self.new.depths.items n }
    {
        for state in (0..graph.len() as u32).rev() {
            self.find(graph, state);
        }
    }

    /// Finds all depths that can be found.
    pub(crate) fn find_all(&mut self, graph: &Graph)
        requires inside { IsInside graph.now.closed }
        requires few { length graph.now.closed < 2 ^ 32 }
        requires known { AreKnown graph.now.closed self.old.depths.items self.old.count }
        ensures known { AreKnown graph.now.closed self.new.depths.items self.new.count }
        ensures stuck { (n : ℕ) → n < length graph.now.closed →
            IsStuck graph.now.closed self.new.depths.items n }
    {
        loop {
            let before = self.count;
            self.pass(graph);
            if self.count == before {
                break;
            }
        }
    }
}
