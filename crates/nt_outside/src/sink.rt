// Where the text goes.
ghost use Rattle.std.specs.Prelude.{◌≡◌, ◌<◌, ◌≤◌, ℕ, List, Option, length, take, IfOk, OnErr};
ghost use Rattle.std.specs.Io.KnownBytes.{append_known};
ghost use Rattle.nt_outside.specs.Bytes.{moved};
ghost use Rattle.nt_outside.specs.Counts.{last_count, Rose};

use crate::error::Failed;

/// Takes bytes, in order.
pub trait Sink {
    // The bytes that the sink holds, where it tells them.
    ghost held: { Self → Option (List ℕ) };

    // How many calls met a fault so far: a count, which stays at its last value.
    ghost faults: { Self → ℕ };

    /// Adds the first bytes of `from` and says how many: at least one where `from` isn't empty.
    /// After `Failed` nothing was added.
    fn give(&mut self, from: &[u8]) -> Result<usize, Failed>
        ensures within { moved result ≤ length from.now }
        ensures some { IfOk result (λ n. 0 < length from.now → 0 < n) }
        ensures held { held self.new ≡ append_known (held self.old) (take (moved result) from.now) }
        ensures failed { OnErr result (Rose (faults self.old) (faults self.new)) }
        ensures never_falls { faults self.old ≤ faults self.new }
        ensures capped { faults self.new ≤ last_count };
}
