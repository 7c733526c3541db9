//! The list.
ghost use Rattle.std.specs.Prelude.{◌≡◌, ◌++◌, OnErr, OnOk};
ghost use Rattle.nt_history.specs.Kept.{rises_of};

use crate::kept::Kept;
use crate::looks::Looks;
use crate::walk::TurnWalk;
use nt_event::Turn;
use std::alloc::{AllocError, Global};
use std::marker::Model;

/// A list of turns. Contracts see it as the list of them.
#[derive(Drop, Debug)]
pub struct Turns {
    /// An entry for each turn.
    kept: Vec<Kept>,
    /// The values of the looks, in their order.
    looks: Looks,
}

impl Model for Turns {
    ghost use Rattle.std.specs.Prelude.{List};
    ghost use Rattle.nt_event.specs.declared.events.Turn.{Turn};

    ghost Value = { List Turn };

    ghost use Rattle.nt_history.specs.Kept.{HasEach, turns_in};

    ghost view = { λ a. turns_in a.kept.items a.looks };

    ghost invariant = { λ a. HasEach a.kept.items a.looks };
}

/// Adds the values of the turn, where it is a look. An error is want of memory, and then nothing
/// was added.
fn put_rises(looks: &mut Looks, turn: &Turn) -> Result<(), AllocError>
    ensures ok { OnOk result (looks.new ≡ looks.old ++ rises_of turn.now) }
    ensures err { OnErr result (looks.new ≡ looks.old) }
{
    if let Turn::Look(_, values) = turn {
        looks.push(values)?;
    }
    Ok(())
}

impl Turns {
    ghost use Rattle.std.specs.Prelude.{◌≡◌, ◌↔◌, ◌++◌, ◌∷◌, [], length, IsTrue, OnErr, OnOk};

    /// An empty list, which keeps the allocator for its growth.
    pub fn new(alloc: Global) -> Turns
        ensures { result ≡ [] }
    {
        Turns {
            kept: Vec::new(alloc),
            looks: Looks::new(alloc),
        }
    }

    /// Puts a turn at the end. Where no memory is found, the list is as before.
    #[inline(always)]
    pub fn push(&mut self, turn: &Turn) -> Result<(), AllocError>
        ensures ok { OnOk result (self.new ≡ self.old ++ turn.now ∷ []) }
        ensures err { OnErr result (self.new ≡ self.old) }
    {
        self.kept.reserve(1)?;
        put_rises(&mut self.looks, turn)?;
        self.kept.push_reserved(Kept::of(turn));
        Ok(())
    }

    /// How many turns there are.
    pub fn len(&self) -> usize
        ensures { result ≡ length self.now }
    {
        self.kept.len()
    }

    /// Whether there is no turn.
    pub fn is_empty(&self) -> bool
        ensures { IsTrue result ↔ (self.now ≡ []) }
    {
        self.len() == 0
    }

    /// The turns in order.
    pub fn walk(&self) -> TurnWalk<'_>
        ensures { result ≡ self.now }
    {
        TurnWalk::new(self.kept.as_slice(), self.looks.walk())
    }
}
