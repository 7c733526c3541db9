//! The interrupt request levels (IRQL) of the NT kernel on x64.
//!
//! A level is a number of 0 to 15 that belongs to a processor: while a processor is at a level, no
//! request at that level or below begins on it. [`Level::allows`] is that rule. Contracts see a
//! [`Level`] as its number.
//!
//! Sources: Windows Internals, "Interrupt request levels (IRQLs)"; the driver documentation,
//! "Managing Hardware Priorities".
#![tactic(auto)]

use std::marker::Model;

/// An interrupt request level of x64: a number of 0 to 15. Levels are ordered by their numbers.
#[derive(Clone, Copy, PartialEq, Eq, PartialOrd, Ord, Hash, Debug)]
pub struct Level {
    number: u8,
}

impl Model for Level {
    ghost use Rattle.std.specs.Prelude.{ℕ, ◌<◌};

    ghost Value = { ℕ };

    ghost view = { λ a. a.number };

    ghost invariant = { λ a. a.number < 16 };

    ghost inverse = { λ n. record { number = n } };
}

impl Level {
    ghost use Rattle.std.specs.Prelude.{◌≡◌, ◌<◌, ◌≤◌, ◌↔◌, ℕ, IsSome, IfSome, IsTrue};
    ghost use Rattle.nt_level.specs.Level.{name_of};

    /// PASSIVE_LEVEL: threads run here, and nothing is held back.
    pub const PASSIVE: Level = Level { number: 0 };

    /// APC_LEVEL: holds back asynchronous procedure calls.
    pub const APC: Level = Level { number: 1 };

    /// DISPATCH_LEVEL: DPC routines run here, and no other thread is dispatched.
    pub const DISPATCH: Level = Level { number: 2 };

    /// The level that synchronizes code across processors.
    pub const SYNCH: Level = Level { number: 12 };

    /// CLOCK_LEVEL: the interval timer's interrupt.
    pub const CLOCK: Level = Level { number: 13 };

    /// IPI_LEVEL, which POWER_LEVEL shares: requests of one processor to another.
    pub const IPI: Level = Level { number: 14 };

    /// HIGH_LEVEL, which PROFILE_LEVEL shares: holds back every interrupt.
    pub const HIGH: Level = Level { number: 15 };

    /// The level of this number, or None exactly where the number is above 15.
    pub fn new(n: u8) -> Option<Level>
        ensures when { IsSome result ↔ (n ≤ 15) }
        ensures value { IfSome result (λ level. level ≡ n) }
    {
        if n < 16 {
            Some(Level { number: n })
        } else {
            None
        }
    }

    /// The level's number, 0 to 15.
    pub fn number(self) -> u8
        ensures same { result ≡ self }
        ensures most { result ≤ 15 }
    {
        self.number
    }

    /// The level's name without the ending `_LEVEL`; DEVICE for each of 3 to 11.
    pub fn name(self) -> &'static str
        ensures { result.now ≡ name_of self }
    {
        match self.number {
            0 => "PASSIVE",
            1 => "APC",
            2 => "DISPATCH",
            3..=11 => "DEVICE",
            12 => "SYNCH",
            13 => "CLOCK",
            14 => "IPI",
            _ => "HIGH",
        }
    }

    /// Whether this is one of the levels 3 to 11, at which devices interrupt.
    pub fn is_device(self) -> bool
        ensures { IsTrue result ↔ ((3 ≤ self) × (self ≤ 11)) }
    {
        self.number >= 3 && self.number <= 11
    }

    /// Whether a request at this other level may begin on a processor at this level: exactly where
    /// it is above.
    pub fn allows(self, request: Level) -> bool
        ensures { IsTrue result ↔ (self < request) }
    {
        self.number < request.number
    }
}
