//! What is kept of each turn.
ghost use Rattle.std.specs.Prelude.{◌≡◌};
ghost use Rattle.nt_history.specs.Kept.{kept_of};

use nt_event::{CpuNo, ThreadNo, Turn};

/// A turn without the values of its look.
#[derive(Clone, Copy, Debug)]
pub(crate) enum Kept {
    /// The processor's next event.
    Next(CpuNo),
    /// The processor notices requests.
    Look(CpuNo),
    /// The processor takes up this thread.
    Switch(CpuNo, ThreadNo),
}

impl Kept {
    /// What is kept of the turn.
    pub(crate) fn of(turn: &Turn) -> Kept
        ensures { result ≡ kept_of turn.now }
    {
        match turn {
            Turn::Next(cpu) => Kept::Next(*cpu),
            Turn::Look(cpu, _) => Kept::Look(*cpu),
            Turn::Switch(cpu, thread) => Kept::Switch(*cpu, *thread),
        }
    }
}
