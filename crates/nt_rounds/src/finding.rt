//! Depths, or a round.
ghost use Rattle.std.specs.Prelude.{◌<◌, ◌^◌, IfOk, length};
ghost use Rattle.nt_rounds.specs.Depths.{AreDepths, IfFinite, IfRound, IsInside, IsRound};

use crate::graph::Graph;
use crate::known::{Known, first_unknown};
use crate::outcome::Depths;
use crate::path::round_from;
use std::alloc::{AllocError, Global};

/// How far each closed state can go; where paths go on for ever, a round.
pub fn depths(alloc: Global, graph: &Graph) -> Result<Depths, AllocError>
    requires inside { IsInside graph.now.closed }
    requires few { length graph.now.closed < 2 ^ 32 }
    ensures finite { IfOk result (λ x. IfFinite x (AreDepths graph.now.closed)) }
    ensures round { IfOk result (λ x. IfRound x (IsRound graph.now.closed)) }
{
    let mut known = Known::new(alloc, graph)?;
    known.find_all(graph);
    match first_unknown(known.depths.as_slice()) {
        None => Ok(Depths::Finite(known.depths)),
        Some(start) => {
            let round = round_from(alloc, graph, known.depths.as_slice(), start)?;
            Ok(Depths::Round(round))
        }
    }
}
