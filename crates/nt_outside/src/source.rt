// Where input comes from.
ghost use Rattle.std.specs.Prelude.{◌≡◌, ◌<◌, ◌≤◌, ℕ, List, Option, length, take, Ok, OnErr};
ghost use Rattle.std.specs.Io.KnownBytes.{prepend_known, IsAtEnd};
ghost use Rattle.nt_outside.specs.Bytes.{moved};
ghost use Rattle.nt_outside.specs.Counts.{last_count, counted, Rose};

use crate::error::Failed;

/// Gives bytes, in order.
pub trait Source {
    // The bytes that are left, where the source tells them.
    ghost left: { Self → Option (List ℕ) };

    // How many bytes were taken so far: a count, which stays at its last value.
    ghost taken: { Self → ℕ };

    // How many calls met a fault so far: a count, which stays at its last value.
    ghost faults: { Self → ℕ };

    /// Takes the next bytes into the front of `into` and says how many: at most its length. `Ok(0)`
    /// for an `into` that isn't empty is the end of the input. After `Failed` nothing was taken.
    fn take(&mut self, into: &mut [u8]) -> Result<usize, Failed>
        ensures within { moved result ≤ length into.old }
        ensures bytes { left self.old
            ≡ prepend_known (take (moved result) into.new) (left self.new) }
        ensures taken { taken self.new ≡ counted (taken self.old) (moved result) }
        ensures end { result ≡ Ok 0 → 0 < length into.old → IsAtEnd (left self.new) }
        ensures failed { OnErr result (Rose (faults self.old) (faults self.new)) }
        ensures never_falls { faults self.old ≤ faults self.new }
        ensures capped { faults self.new ≤ last_count };
}
