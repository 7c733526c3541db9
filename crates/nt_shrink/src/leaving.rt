//! Leaving out one turn of a list.
ghost use Rattle.std.specs.Prelude.{◌≡◌, ◌<◌, IfOk, length, map};
ghost use Rattle.nt_shrink.specs.Shorter.{rises_without, turn_without, value_without};
ghost use Rattle.nt_shrink.specs.Shorter.{without as list_without};

use nt_event::{Rises, Turn};
use nt_history::{Turns, no_turn};
use std::alloc::{AllocError, Global};

/// A value of a later look without the turn at this place.
fn lessened(at: u32, value: u64) -> u64
    ensures { result ≡ value_without at value }
{
    let gone = u64::from(at) + 1;
    if value == gone {
        0
    } else if gone < value {
        value - 1
    } else {
        value
    }
}

/// Makes the values of a later look those without the turn at this place.
fn lessen_values(rises: &mut Rises, at: u32)
    ensures { rises.new ≡ rises_without at rises.old }
{
    for value in &mut rises.value {
        *value = lessened(at, *value);
    }
}

/// Makes a later turn that without the turn at this place.
pub(crate) fn lessen(turn: &mut Turn, at: u32)
    ensures { turn.new ≡ turn_without at turn.old }
{
    if let Turn::Look(_, rises) = turn {
        lessen_values(rises, at);
    }
}

/// The list without the turn at this place, from 0; all of it where there is none. An error is want
/// of memory.
pub(crate) fn copy_without(alloc: Global, list: &Turns, at: u32) -> Result<Turns, AllocError>
    ensures { IfOk result (λ shorter. shorter ≡ list_without at list.now) }
{
    let mut shorter = Turns::new(alloc);
    let mut walk = list.walk();
    let mut turn = no_turn();
    for number in 0..list.len() {
        walk.next(&mut turn);
        if number == at as usize {
            continue;
        }
        if (at as usize) < number {
            lessen(&mut turn, at);
        }
        shorter.push(&turn)?;
    }
    Ok(shorter)
}

/// The list without the turn at this place, from 0, which is below the length. An error is want of
/// memory.
///
/// The values of a look are numbers of events: in a later look those above `at + 1` are less by
/// one. What the event of this turn asked for, which is the value `at + 1`, doesn't rise.
pub fn without(alloc: Global, list: &Turns, at: u32) -> Result<Turns, AllocError>
    requires { at < length list.now }
    ensures { IfOk result (λ shorter. shorter ≡ list_without at list.now) }
{
    copy_without(alloc, list, at)
}
