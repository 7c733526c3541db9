//! Two graphs of three states. The depths of the one and the round of the other are worked out by
//! hand.
ghost use Rattle.std.specs.Prelude.{◌≡◌, ◌++◌, ◌∷◌, [], IfOk, OnOk};

use nt_rounds::{Depths, Graph, depths};
use std::alloc::{AllocError, Global};
use std::test::Fail;

/// Closes the open state, which leads to these.
fn close_with(graph: &mut Graph, states: &[u32]) -> Result<(), AllocError>
    requires { graph.old.opened ≡ [] }
    ensures { OnOk result (graph.new
        ≡ record { closed = graph.old.closed ++ states.now ∷ []; opened = [] }) }
{
    for state in states {
        graph.push(*state)?;
    }
    graph.close()?;
    Ok(())
}

/// Three states, each of which leads to these.
fn three(alloc: Global, first: &[u32], second: &[u32], third: &[u32]) -> Result<Graph, AllocError>
    ensures { IfOk result (λ g. g.closed ≡ first.now ∷ second.now ∷ third.now ∷ []) }
{
    let mut graph = Graph::new(alloc);
    close_with(&mut graph, first)?;
    close_with(&mut graph, second)?;
    close_with(&mut graph, third)?;
    Ok(graph)
}

/// From the first state the longest path goes by the second one.
#[test]
fn depths_are_found(rt: HostRuntime) -> Result<(), Fail> {
    let graph = three(rt.alloc(), &[1, 2], &[2], &[])?;
    match depths(rt.alloc(), &graph)? {
        Depths::Finite(found) => {
            assert_eq!(rt; found.as_slice(), [2, 1, 0].as_slice());
        }
        Depths::Round(_) => panic!(rt; "no state comes twice on a path"),
    }
    Ok(())
}

/// The first state leads to the round and is not on it.
#[test]
fn a_round_is_found(rt: HostRuntime) -> Result<(), Fail> {
    let graph = three(rt.alloc(), &[1], &[2], &[1])?;
    match depths(rt.alloc(), &graph)? {
        Depths::Finite(_) => panic!(rt; "the second and the third state lead to each other"),
        Depths::Round(found) => {
            assert_eq!(rt; found.as_slice(), [1, 2].as_slice());
        }
    }
    Ok(())
}
