//! The looks of a schedule have a value for each class, as every look has. The definition of a run
//! leaves it open, and the text of a schedule is read again only where it holds.
ghost use Rattle.std.specs.Prelude.{◌≡◌, length};
ghost use Rattle.nt_event.specs.Classes.{class_count};
ghost use Rattle.nt_lab.specs.Looks.{TurnIsWhole, TurnsAreWhole};

use nt_event::{Rises, Turn};
use nt_history::{Turns, no_turn};

/// The values of a look, one for each class: only where the array is read is its length known.
fn values_of(rises: &Rises) -> [u64; 16]
    ensures same { result ≡ rises.now.value }
    ensures whole { length result ≡ class_count }
{
    rises.value
}

/// Reads the values of a turn, where it is a look.
fn read_turn(turn: &Turn)
    ensures { TurnIsWhole turn.now }
{
    if let Turn::Look(_, rises) = turn {
        let _values = values_of(rises);
    }
}

/// Reads the values of each look of a list. It does nothing else: they are known to be whole then.
pub(crate) fn read_looks(list: &Turns)
    ensures { TurnsAreWhole list.now }
{
    let mut walk = list.walk();
    let mut turn = no_turn();
    while walk.next(&mut turn) {
        read_turn(&turn);
    }
}
