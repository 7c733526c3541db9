//! The rule of the queue.
ghost use Rattle.std.specs.Prelude.{◌≡◌};
ghost use Rattle.nt_work.specs.Rule.{Told, with_put, with_taken};

use crate::item::Item;
use crate::view::View;
use crossbeam_queue::protocol::{Join, Lesson, Outcome, Protocol, Split};

/// The rule: there is one list of all puts, and a beginning of it is all takes.
pub struct Fair;

impl Protocol<Item, View> for Fair {
    ghost use Rattle.nt_work.specs.Rule.{IsKept, whole};

    ghost holds = { λ items views. IsKept items views };

    ghost first = { whole };
}

/// A new pass with one part.
pub struct Parted;

impl Split<View> for Parted {
    ghost use Rattle.nt_work.specs.Rule.{fewer, fresh};

    ghost left = { λ v. fewer v };

    ghost right = { λ v. fresh v };
}

/// A pass takes another in.
pub struct Meeting;

impl Join<View> for Meeting {
    ghost use Rattle.nt_work.specs.Rule.{met_by, nobody};

    ghost both = { λ v w. met_by v w };

    ghost spent = { nobody };
}

/// A put, or a look at a full queue.
pub struct Puts;

impl Outcome<Item, View> for Puts {
    ghost then = { λ v x w. w ≡ with_put v x };
}

impl Lesson<Item, View> for Puts {
    ghost fact = { λ v items. Told v items };
}

/// A take, or a look at an empty queue.
pub struct Takes;

impl Outcome<Item, View> for Takes {
    ghost then = { λ v x w. w ≡ with_taken v x };
}

impl Lesson<Item, View> for Takes {
    ghost fact = { λ v items. Told v items };
}
