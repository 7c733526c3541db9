//! Where it shows that expectations fail.
ghost use Rattle.std.specs.Prelude.{◌≡◌, IfOk, None, get_or, length, ℕ};

use nt_event::Turn;
use std::alloc::{AllocError, Global};

/// Where it shows that an expectation fails.
#[derive(Clone, Copy, Debug)]
pub struct Failure {
    /// After the events that lead to the state of this number.
    pub state: u32,
    /// By the event of this turn; None where all is quiet and it shows so.
    pub turn: Option<Turn>,
    /// The number of the event, or of all events where all is quiet.
    pub at: u32,
}

/// For each of so many expectations that no failure was found.
pub(crate) fn no_failures(alloc: Global, count: usize) -> Result<Vec<Option<Failure>>, AllocError>
    ensures count { IfOk result (λ v. length v.items ≡ count) }
    ensures none { IfOk result (λ v. (j : ℕ) → get_or v.items j None ≡ None) }
{
    let mut failures = Vec::with_capacity(alloc, count)?;
    for place in 0..count {
        let _place = place;
        failures.push(None)?;
    }
    Ok(failures)
}
