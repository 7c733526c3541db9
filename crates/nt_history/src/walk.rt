//! A way through a list of turns.
ghost use Rattle.std.specs.Prelude.{◌≡◌, ◌<◌, length};
ghost use Rattle.nt_history.specs.Kept.{IsNextLook};
ghost use Rattle.nt_event.specs.declared.events.Turn.TheVariants as turns;

use crate::brief::NO_RISES;
use crate::kept::Kept;
use crate::looks::LookWalk;
use nt_event::{CpuNo, Turn};
use std::marker::Model;

/// What stands where a turn is to be written: no turn of any processor is meant by it.
pub fn no_turn() -> Turn {
    Turn::Next(CpuNo(0))
}

/// Writes the turn of a processor's next event. Most turns are such, and where one was written
/// last, the processor alone changes.
fn put_next(turn: &mut Turn, cpu: CpuNo)
    ensures { turn.new ≡ turns.Next cpu }
{
    match turn {
        Turn::Next(last) => *last = cpu,
        Turn::Look(_, _) | Turn::Switch(_, _) => *turn = Turn::Next(cpu),
    }
}

/// Writes the turn in which the processor looks, with the next of these values. There are some.
fn put_look(turn: &mut Turn, cpu: CpuNo, looks: &mut LookWalk<'_>)
    requires { 0 < length looks.old }
    ensures { IsNextLook cpu looks.old turn.new looks.new }
{
    *turn = Turn::Look(cpu, NO_RISES);
    match turn {
        Turn::Look(_, values) => looks.take(values),
        Turn::Next(_) | Turn::Switch(_, _) => unreachable!(),
    }
}

/// The turns of a list that are left, in order. Contracts see the list of them.
#[derive(Drop)]
pub struct TurnWalk<'a> {
    /// The entries that are left.
    kept: &'a [Kept],
    /// The values of the looks that are left.
    looks: LookWalk<'a>,
}

impl<'a> Model for TurnWalk<'a> {
    ghost use Rattle.std.specs.Prelude.{List};
    ghost use Rattle.nt_event.specs.declared.events.Turn.{Turn};

    ghost Value = { List Turn };

    ghost use Rattle.nt_history.specs.Kept.{HasEach, turns_in};

    ghost view = { λ a. turns_in a.kept.now a.looks };

    ghost invariant = { λ a. HasEach a.kept.now a.looks };
}

impl<'a> TurnWalk<'a> {
    ghost use Rattle.std.specs.Prelude.{◌≡◌, ◌∷◌, [], true, false};
    ghost use Rattle.nt_history.specs.Kept.{HasEach, turns_in};

    /// All turns of these entries and values.
    pub(crate) fn new(kept: &'a [Kept], looks: LookWalk<'a>) -> TurnWalk<'a>
        requires { HasEach kept.now looks }
        ensures { result ≡ turns_in kept.now looks.entry }
    {
        TurnWalk { kept, looks }
    }

    /// Takes the first turn that is left, and writes it. False exactly where none is, and then
    /// nothing was written.
    #[inline(always)]
    pub fn next(&mut self, turn: &mut Turn) -> bool
        ensures some { result ≡ true → self.old ≡ turn.new ∷ self.new }
        ensures none { result ≡ false → (self.old ≡ []) × (self.new ≡ []) × (turn.new ≡ turn.old) }
    {
        match self.kept {
            [first, more @ ..] => {
                self.kept = more;
                match first {
                    Kept::Next(cpu) => put_next(turn, *cpu),
                    Kept::Look(cpu) => put_look(turn, *cpu, &mut self.looks),
                    Kept::Switch(cpu, thread) => *turn = Turn::Switch(*cpu, *thread),
                }
                true
            }
            [] => false,
        }
    }
}
