//! Floors that can be read.
use crate::floor::Floor;
use crate::seen::Seen;
use nt_event::{CpuNo, ThreadNo};

/// A floor that tells its states, and whose requests, marks and ready threads are read without a
/// step of anybody, as the floor in memory.
pub trait OpenFloor: Floor {
    ghost use Rattle.std.specs.Prelude.{◌≡◌, ◌<◌, ◌≤◌, IfSome, Some, length, ℕ};
    ghost use Rattle.nt_event.specs.Lists.{value_at};
    ghost use Rattle.nt_event.specs.Jobs.{next_ready};
    ghost use Rattle.nt_event.specs.Lanes.{Lanes};
    ghost use Rattle.nt_floor.specs.Seen.{has_unseen};
    ghost use Rattle.nt_floor.specs.Views.{HasWord};

    /// The greatest requests for a processor, one for each of the 16 classes; 0 is none.
    fn asked(&self, p: CpuNo) -> &[u64]
        requires { p.0 < (Self.view self.now).cpus }
        ensures classes { length result.now ≡ 16 }
        ensures values { (c : ℕ) → c < 16 →
            value_at result.now c ≡ (Self.view self.now).value p c };

    /// Whether a processor that has seen this, and nothing that it wasn't asked for, was asked for
    /// more.
    fn asks_more(&self, p: CpuNo, seen: &Seen) -> bool
        requires cpu { p.0 < (Self.view self.now).cpus }
        requires within { (c : ℕ) → c < 16 → value_at seen.now c ≤ (Self.view self.now).value p c }
        ensures { result ≡ has_unseen seen.now ((Self.view self.now).value p) };

    /// Whether the event of this number was marked as asking for a class of a processor.
    fn asks(&self, n: u64, p: CpuNo, class: u8) -> bool
        requires { HasWord (Self.view self.now) p class }
        ensures { result ≡ (Self.view self.now).marked n p class };

    /// The thread of the processor that is taken up next, after this one in a cycle; None exactly
    /// where none is ready.
    fn next_ready(&self, p: CpuNo, after: Option<ThreadNo>) -> Option<ThreadNo>
        ensures { IfSome (Self.view self.now).states
            (λ l. result ≡ next_ready (Self.script self.now) p after l) };

    /// It tells its states.
    ghost tells: { (x : Self) → (l : Lanes) × ((Self.view x).states ≡ Some l) };
}
