//! How far each state of a graph can go, or a round.
//!
//! A search through states keeps in a [`Graph`] where each state leads to. Afterwards [`depths`]
//! tells whether a path can go on for ever: either each state has a depth, which is the number of
//! steps of its longest path, or there is a round.
#![tactic(auto)]

ghost use Rattle.nt_rounds.specs.Laws.{DepthsAreOfLongestPaths, RoundsGoOn};

mod finding;
mod graph;
mod known;
mod outcome;
mod path;

pub use finding::depths;
pub use graph::Graph;
pub use outcome::Depths;

/// No path from a state has more steps than its depth, and one has as many.
pub fn depths_are_of_longest_paths()
    ensures { DepthsAreOfLongestPaths }
{}

/// From each state of a round there is a path of any number of steps.
pub fn rounds_go_on()
    ensures { RoundsGoOn }
{}
