//! What is found of a graph.

/// How far each state can go, or a round.
#[derive(Drop, Debug)]
pub enum Depths {
    /// No path goes on for ever: of each state the number of steps of its longest path.
    Finite(Vec<u32>),
    /// States each of which leads to the next one, and the last to the first.
    Round(Vec<u32>),
}
