//! Which states each state leads to.
ghost use Rattle.std.specs.Prelude.{◌≡◌, ◌<◌, ◌++◌, ◌∷◌, [], OnErr, OnOk, get_or, length};
ghost use Rattle.nt_rounds.specs.Cuts.{AreEnds, cut, start_of};
ghost use Rattle.nt_rounds.specs.Graph.{edge_count};

use std::alloc::{AllocError, Global};
use std::marker::Model;

/// Where the part of this number begins.
fn start(ends: &[usize], place: usize) -> usize
    requires { place < length ends.now }
    ensures { result ≡ start_of 0 ends.now place }
{
    if place == 0 { 0 } else { ends[place - 1] }
}

/// The part of this number.
fn part<'a>(all: &'a [u32], ends: &[usize], place: usize) -> &'a [u32]
    requires place { place < length ends.now }
    requires ends { AreEnds 0 ends.now (length all.now) }
    ensures { result.now ≡ get_or (cut all.now 0 ends.now) place [] }
{
    let from = start(ends, place);
    &all[from..ends[place]]
}

/// Which states each state leads to. The states have numbers from 0, in the order in which they are
/// closed.
#[derive(Drop)]
pub struct Graph {
    /// Where the states lead to, one state behind the other.
    to: Vec<u32>,
    /// Of each closed state where those that it leads to end.
    ends: Vec<usize>,
}

impl Model for Graph {
    ghost use Rattle.std.specs.Prelude.{drop, length};
    ghost use Rattle.nt_rounds.specs.Graph.{Drawn};

    ghost Value = { Drawn };

    ghost use Rattle.nt_rounds.specs.Cuts.{AreEnds, cut, last_end};

    ghost view = { λ a. record {
      closed = cut a.to.items 0 a.ends.items;
      opened = drop (last_end 0 a.ends.items) a.to.items;
    } };

    ghost invariant = { λ a. AreEnds 0 a.ends.items (length a.to.items) };
}

impl Graph {
    /// No state is closed, and the one that is open leads nowhere yet.
    pub fn new(alloc: Global) -> Graph
        ensures { result ≡ record { closed = []; opened = [] } }
    {
        Graph {
            to: Vec::new(alloc),
            ends: Vec::new(alloc),
        }
    }

    /// The open state leads to this one too.
    pub fn push(&mut self, to: u32) -> Result<(), AllocError>
        ensures ok { OnOk result
            (self.new ≡ record self.old { opened = self.old.opened ++ to ∷ [] }) }
        ensures err { OnErr result (self.new ≡ self.old) }
    {
        self.to.push(to)?;
        Ok(())
    }

    /// Closes the open state. The next one is open then, and leads nowhere yet.
    pub fn close(&mut self) -> Result<(), AllocError>
        ensures ok { OnOk result (self.new
            ≡ record { closed = self.old.closed ++ self.old.opened ∷ []; opened = [] }) }
        ensures err { OnErr result (self.new ≡ self.old) }
    {
        self.ends.push(self.to.len())?;
        Ok(())
    }

    /// How many states are closed.
    pub fn len(&self) -> usize
        ensures { result ≡ length self.now.closed }
    {
        self.ends.len()
    }

    /// How many times a state was pushed.
    pub fn edges(&self) -> usize
        ensures { result ≡ edge_count self.now }
    {
        self.to.len()
    }

    /// Where this state leads to.
    pub fn after(&self, state: u32) -> &[u32]
        requires { state < length self.now.closed }
        ensures { result.now ≡ get_or self.now.closed state [] }
    {
        part(self.to.as_slice(), self.ends.as_slice(), state as usize)
    }
}
