// A source in memory, whose calls fail where its maker wants it.
ghost use Rattle.std.specs.Prelude.{◌≡◌, ◌≤◌, ◌↔◌, length, take, IsErr, IfOk, Some};
ghost use Rattle.nt_outside.specs.Bytes.{moved};
ghost use Rattle.nt_outside.specs.Calls.{NextFails};
ghost use Rattle.nt_outside.specs.MemorySource.{new_source, piece_for, after_take, IsMemorySource};

use crate::calls::Calls;
use crate::error::Failed;
use crate::source::Source;
use std::marker::Model;

/// Gives the bytes of a list, at most so many at a call. Chosen calls fail.
#[derive(Debug, Drop)]
pub struct MemorySource {
    bytes: Vec<u8>,
    taken: usize,
    piece: usize,
    calls: Calls,
}

impl Model for MemorySource {
    ghost use Rattle.std.specs.Prelude.{◌≤◌, drop, vec_len};
    ghost use Rattle.nt_outside.specs.MemorySource.{SourceState};

    ghost Value = { SourceState };

    ghost view = { λ s. record {
      left = drop s.taken s.bytes.items;
      taken = s.taken;
      piece = s.piece;
      calls = s.calls;
    } };

    ghost invariant = { λ s. (s.taken ≤ vec_len s.bytes) × (1 ≤ s.piece) };
}

impl MemorySource {
    /// A source of these bytes. A call moves at most `piece` bytes. Calls are counted from 0, and
    /// those in `fails` answer `Failed` and raise the count of faults.
    pub fn new(bytes: Vec<u8>, piece: usize, fails: Vec<u64>) -> MemorySource
        requires { 1 ≤ piece }
        ensures { result ≡ new_source bytes.items piece fails.items }
    {
        MemorySource {
            bytes,
            taken: 0,
            piece,
            calls: Calls::new(fails),
        }
    }
}

impl Source for MemorySource {
    ghost left = { λ s. Some s.left };

    ghost taken = { λ s. s.taken };

    ghost faults = { λ s. s.calls.faults };

    fn take(&mut self, into: &mut [u8]) -> Result<usize, Failed>
        ensures fails { IsErr result ↔ NextFails self.old.calls }
        ensures piece { IfOk result (λ n. n ≡ piece_for self.old (length into.old)) }
        ensures front { take (moved result) into.new ≡ take (moved result) self.old.left }
        ensures after { self.new ≡ after_take result self.old }
        ensures always { IsMemorySource self.old }
    {
        if self.calls.begin() {
            self.calls.fault();
            return Err(Failed);
        }
        let left = &self.bytes[self.taken..];
        let count = self.piece.min(into.len()).min(left.len());
        into[..count].copy_from_slice(&left[..count]);
        self.taken += count;
        Ok(count)
    }
}
