//! What values behind locks show, and of which table they are.
use std::marker::Brand;

/// What stands behind one lock. It has no calls: its one meaning is the list of the lane states
/// that stand there.
pub trait Shows {
    ghost use Rattle.std.specs.Prelude.{List};
    ghost use Rattle.nt_mark.specs.LaneState.{LaneState};

    /// The lane states.
    ghost states: { Self → List LaneState };
}

/// The table of one `Marks`. It has no calls. A value behind a lock is known by its type alone, so
/// its type has a parameter `N: Shared` and keeps that its keeper is of N's table. A call that
/// passes `Brand` picks the table.
pub trait Shared {
    ghost use Rattle.atomic_table.specs.Seated.{TableId};

    /// The table.
    ghost table: { TableId };
}

impl Shared for Brand {
    ghost use Rattle.nt_mark.specs.Rule.{no_table};

    ghost table = { no_table };
}
