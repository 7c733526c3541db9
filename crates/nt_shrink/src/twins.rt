//! Places of which one is as good as the next one.
//!
//! Two neighbouring places are twins where the list without the one is the list without the other:
//! both turns are the next event of the same processor, and no later look tells which of their
//! events asked for what it notices.
ghost use Rattle.std.specs.Prelude.{◌≡◌, IfSome, true};
ghost use Rattle.nt_event.specs.declared.events.Turn.TheVariants.{Next};
ghost use Rattle.nt_shrink.specs.Twins.{AreSame};

use nt_event::{CpuNo, Turn};
use nt_history::{Turns, no_turn};
use std::alloc::{AllocError, Global};

/// The processor of which the turn is the next event.
fn next_of(turn: &Turn) -> Option<CpuNo>
    ensures { IfSome result (λ p. turn.now ≡ Next p) }
{
    match turn {
        Turn::Next(cpu) => Some(*cpu),
        Turn::Look(_, _) | Turn::Switch(_, _) => None,
    }
}

/// Whether both turns are the next event of the same processor.
fn are_same(last: Option<CpuNo>, next: Option<CpuNo>) -> bool
    ensures { result ≡ true → AreSame last next }
{
    match (last, next) {
        (Some(last), Some(next)) => last.0 == next.0,
        (None, _) | (Some(_), None) => false,
    }
}

/// For each place of a list, whether it is a twin of the place before it.
#[derive(Drop)]
pub(crate) struct Twins {
    flags: Vec<bool>,
}

impl Twins {
    ghost use Rattle.std.specs.Prelude.{◌≡◌, ◌≢◌, ◌≤◌, ℕ, IfOk, false, get_or, length, true};
    ghost use Rattle.nt_shrink.specs.Twins.{AreSameValues, AreTwins, IsSameTurn, IsSameValue};
    ghost use Rattle.nt_shrink.specs.Twins.{IsTwin, StayTwins};

    /// The twins of the list. An error is want of memory.
    pub(crate) fn of(alloc: Global, list: &Turns) -> Result<Twins, AllocError>
        ensures length { IfOk result (λ t. length t.flags.items ≡ length list.now) }
        ensures twins { IfOk result (λ t. AreTwins list.now t.flags.items) }
    {
        let mut twins = Twins {
            flags: Vec::with_capacity(alloc, list.len())?,
        };
        let mut walk = list.walk();
        let mut turn = no_turn();
        let mut last = None;
        while walk.next(&mut turn) {
            twins.part_noticed(&turn);
            let next = next_of(&turn);
            twins.flags.push(are_same(last, next))?;
            last = next;
        }
        Ok(twins)
    }

    /// Whether the place is a twin of the one before it.
    pub(crate) fn has(&self, place: usize) -> bool
        ensures { result ≡ get_or self.now.flags.items place false }
    {
        if place < self.flags.len() {
            self.flags[place]
        } else {
            false
        }
    }

    /// The place is no twin of the one before it.
    fn part_at(&mut self, place: usize)
        ensures length { length self.new.flags.items ≡ length self.old.flags.items }
        ensures twins { (n : ℕ) → IsTwin self.new.flags.items n →
            IsTwin self.old.flags.items n × (n ≢ place) }
    {
        if place < self.flags.len() {
            self.flags[place] = false;
        }
    }

    /// The event of this value of a look is told from those before and behind it.
    fn part(&mut self, value: usize)
        ensures length { length self.new.flags.items ≡ length self.old.flags.items }
        ensures twins { StayTwins (IsSameValue value) self.old.flags.items self.new.flags.items }
    {
        self.part_at(value);
        if 0 < value {
            self.part_at(value - 1);
        }
    }

    /// The events of these values of a look are told from those before and behind them.
    fn part_values(&mut self, values: &[u64])
        ensures length { length self.new.flags.items ≡ length self.old.flags.items }
        ensures twins { StayTwins (AreSameValues values.now)
            self.old.flags.items self.new.flags.items }
    {
        for value in values {
            self.part(*value as usize);
        }
    }

    /// The events that a look notices are told from those before and behind them.
    fn part_noticed(&mut self, turn: &Turn)
        ensures length { length self.new.flags.items ≡ length self.old.flags.items }
        ensures twins { StayTwins (IsSameTurn turn.now) self.old.flags.items self.new.flags.items }
    {
        if let Turn::Look(_, rises) = turn {
            self.part_values(&rises.value);
        }
    }
}
