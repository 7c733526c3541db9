//! What a processor is chosen to do. The values of a look stay where they are.
ghost use Rattle.std.specs.Prelude.{◌≡◌};
ghost use Rattle.nt_event.specs.Step.{cpu_at};
ghost use Rattle.nt_cpu.specs.Choices.{turn_by};

use nt_event::{Rises, ThreadNo, Turn};

/// What a processor is chosen to do. `V` is what is known of the values of a look: a turn names
/// them; by the round-robin rule they are found once the look is made, and `V` is `()`.
#[derive(Clone, Copy, Debug)]
pub enum Choice<V> {
    /// Makes its next event.
    Next,
    /// Notices these requests.
    Look(V),
    /// Takes up this thread.
    Switch(ThreadNo),
}

impl<'t> Choice<&'t Rises> {
    /// What this turn has its processor do.
    pub fn of(turn: &'t Turn) -> Choice<&'t Rises>
        ensures { turn_by (cpu_at turn.now) result ≡ turn.now }
    {
        match turn {
            Turn::Next(_) => Choice::Next,
            Turn::Look(_, rises) => Choice::Look(rises),
            Turn::Switch(_, thread) => Choice::Switch(*thread),
        }
    }
}
