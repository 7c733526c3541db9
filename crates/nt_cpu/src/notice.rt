//! What a processor notices as an event of its own happens.
ghost use Rattle.std.specs.Prelude.{◌≡◌, false, length, max};
ghost use Rattle.nt_event.specs.Lists.{table, value_at};
ghost use Rattle.nt_floor.specs.Seen.{SameInterrupts};
ghost use Rattle.nt_cpu.specs.Notices.{HasClass, notice_of};

use nt_event::Rises;
use nt_floor::Seen;

/// What a processor notices beside what it has seen.
#[derive(Clone, Copy, Debug)]
pub enum Notice<'a> {
    Nothing,
    /// Its own request for a class.
    Own { class: u8, value: u64 },
    /// A value for each class.
    Values(&'a Rises),
}

impl Notice<'_> {
    /// Raises each value that was seen to what is noticed of its class. False only where what was
    /// seen of interrupts is as before.
    pub fn raise(&self, seen: &mut Seen) -> bool
        requires classes { length seen.old ≡ 16 }
        requires class { HasClass self.now }
        ensures values { seen.new
            ≡ table 16 (λ c. max (value_at seen.old c) (notice_of self.now c)) }
        ensures interrupts { result ≡ false → SameInterrupts seen.old seen.new }
    {
        match self {
            Notice::Nothing => false,
            Notice::Own { class, value } => seen.raise(*class, *value),
            Notice::Values(rises) => seen.raise_all(&rises.value),
        }
    }
}
