//! A round, along states of which no depth can be found.
ghost use Rattle.std.specs.Prelude.{◌≡◌, ◌<◌, ◌^◌, IfOk, ℕ, length};
ghost use Rattle.nt_rounds.specs.Depths.{IsInside, IsRound, Leads};
ghost use Rattle.nt_rounds.specs.Known.{IsStuck, IsUnknown};

use crate::graph::Graph;
use crate::known::depth_over;
use std::alloc::{AllocError, Global};

/// A state that this one leads to and whose depth is not known either.
fn next(graph: &Graph, depths: &[u32], state: u32) -> u32
    requires inside { IsInside graph.now.closed }
    requires few { length graph.now.closed < 2 ^ 32 }
    requires states { length depths.now ≡ length graph.now.closed }
    requires state { state < length graph.now.closed }
    requires unknown { IsUnknown depths.now state }
    requires stuck { IsStuck graph.now.closed depths.now state }
    ensures leads { Leads graph.now.closed state result }
    ensures unknown { IsUnknown depths.now result }
{
    match depth_over(depths, graph.after(state)) {
        Ok(_) => unreachable!(),
        Err(other) => other,
    }
}

/// The round that comes on the way from this state along states whose depths are not known.
pub(crate) fn round_from(
    alloc: Global,
    graph: &Graph,
    depths: &[u32],
    start: u32,
) -> Result<Vec<u32>, AllocError>
    requires inside { IsInside graph.now.closed }
    requires few { length graph.now.closed < 2 ^ 32 }
    requires states { length depths.now ≡ length graph.now.closed }
    requires start { start < length graph.now.closed }
    requires unknown { IsUnknown depths.now start }
    requires stuck { (n : ℕ) → n < length graph.now.closed → IsStuck graph.now.closed depths.now n }
    ensures { IfOk result (λ r. IsRound graph.now.closed r.items) }
{
    // of each state where it stands on the path; the number of states if it doesn't
    let mut places = vec![in alloc; depths.len() as u32; depths.len()]?;
    let mut path = Vec::new(alloc);
    let mut at = start;
    while depths.len() <= places[at as usize] as usize {
        places[at as usize] = path.len() as u32;
        path.push(at)?;
        at = next(graph, depths, at);
    }
    let from = places[at as usize] as usize;
    let round = Vec::from_slice(alloc, &path.as_slice()[from..])?;
    Ok(round)
}
