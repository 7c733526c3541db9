//! Why a search ends early.
use std::alloc::AllocError;

/// Why a search ended before all states were found and expanded.
#[derive(Clone, Copy, PartialEq, Eq, Debug)]
pub enum Stop {
    /// There are more states than it may find.
    States,
    /// On the way to a state are as many events as a processor may make.
    Turns,
    /// No memory was found.
    NoMemory,
}

impl From<AllocError> for Stop {
    ghost use Rattle.std.specs.Prelude.{◌≡◌};
    ghost use Rattle.nt_search.specs.declared.stop.Stop.TheVariants.{NoMemory};

    ghost from_gives = { λ _ e. e ≡ NoMemory };

    fn from(_error: AllocError) -> Stop {
        Stop::NoMemory
    }
}
