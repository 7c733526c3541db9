//! Why a list of turns isn't traced or shrunk.
use nt_event::ScheduleKind;
use std::alloc::AllocError;

/// Why a list of turns has no history.
#[derive(Clone, Copy, PartialEq, Eq, Debug)]
pub enum TraceRefusal {
    /// The turn at this place, from 0, is refused. The kind is never Unfinished.
    Bad { at: u32, kind: ScheduleKind },
    /// No memory was found.
    NoMemory,
}

impl From<AllocError> for TraceRefusal {
    ghost use Rattle.std.specs.Prelude.{◌≡◌};
    ghost use Rattle.nt_shrink.specs.declared.refusals.TraceRefusal.TheVariants.{NoMemory};

    ghost from_gives = { λ _ r. r ≡ NoMemory };

    fn from(_: AllocError) -> TraceRefusal {
        TraceRefusal::NoMemory
    }
}

/// Why a list of turns isn't shrunk. Where several come about, the first of them is told.
#[derive(Clone, Copy, PartialEq, Eq, Debug)]
pub enum ShrinkRefusal {
    /// There are more than 1,000 turns.
    TooMany,
    /// The turn at this place, from 0, is refused. The kind is never Unfinished.
    Bad { at: u32, kind: ScheduleKind },
    /// The turns are taken, and none begins a routine of the object.
    NotDelivered,
    /// No memory was found. This may come about at any place.
    NoMemory,
}

impl From<AllocError> for ShrinkRefusal {
    ghost use Rattle.std.specs.Prelude.{◌≡◌};
    ghost use Rattle.nt_shrink.specs.declared.refusals.ShrinkRefusal.TheVariants.{NoMemory};

    ghost from_gives = { λ _ r. r ≡ NoMemory };

    fn from(_: AllocError) -> ShrinkRefusal {
        ShrinkRefusal::NoMemory
    }
}

impl From<TraceRefusal> for ShrinkRefusal {
    ghost use Rattle.std.specs.Prelude.{◌≡◌};
    ghost use Rattle.nt_shrink.specs.Refusals.{as_shrink};

    ghost from_gives = { λ refusal r. r ≡ as_shrink refusal };

    fn from(refusal: TraceRefusal) -> ShrinkRefusal {
        match refusal {
            TraceRefusal::Bad { at, kind } => ShrinkRefusal::Bad { at, kind },
            TraceRefusal::NoMemory => ShrinkRefusal::NoMemory,
        }
    }
}
