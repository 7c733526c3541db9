// The standard streams: the edge of what is proved. They tell no bytes, and what the system gives
// and takes is its own affair.
ghost use Rattle.std.specs.Prelude.{◌≡◌, ◌<◌, ◌≤◌, length, IfOk, None};
ghost use Rattle.nt_outside.specs.Bytes.{moved};
ghost use Rattle.nt_outside.specs.Counts.{last_count};
ghost use Rattle.nt_outside.specs.Streams.{FitInput, after_read, after_write};

use crate::error::Failed;
use crate::sink::Sink;
use crate::source::Source;
use std::io::{Read, Stdin, Stdout, Write};
use std::marker::Model;

/// Standard input. A read that the system refuses, or interrupts, is a fault.
#[derive(Drop)]
pub struct StdSource {
    stdin: Stdin,
    taken: u64,
    faults: u64,
}

impl Model for StdSource {
    ghost use Rattle.std.specs.Prelude.{◌≤◌};
    ghost use Rattle.nt_outside.specs.Counts.{last_count};
    ghost use Rattle.nt_outside.specs.Streams.{InputCounts};

    ghost Value = { InputCounts };

    ghost view = { λ s. record { taken = s.taken; faults = s.faults } };

    ghost invariant = { λ s. (s.taken ≤ last_count) × (s.faults ≤ last_count) };
}

impl StdSource {
    /// Standard input, of which nothing was taken through this value yet.
    pub fn new(stdin: Stdin) -> StdSource
        ensures { result ≡ record { taken = 0; faults = 0 } }
    {
        StdSource {
            stdin,
            taken: 0,
            faults: 0,
        }
    }
}

impl Source for StdSource {
    ghost left = { λ _. None };

    ghost taken = { λ s. s.taken };

    ghost faults = { λ s. s.faults };

    fn take(&mut self, into: &mut [u8]) -> Result<usize, Failed>
        ensures within { moved result ≤ length into.old }
        ensures after { self.new ≡ after_read result self.old }
        ensures always { FitInput self.old }
    {
        match self.stdin.read(into) {
            Ok(count) => {
                self.taken = self.taken.saturating_add(count as u64);
                Ok(count)
            }
            Err(_) => {
                self.faults = self.faults.saturating_add(1);
                Err(Failed)
            }
        }
    }
}

/// Standard output. A write that the system refuses, interrupts, or takes no byte of, is a fault.
#[derive(Drop)]
pub struct StdSink {
    stdout: Stdout,
    faults: u64,
}

impl Model for StdSink {
    ghost use Rattle.std.specs.Prelude.{ℕ, ◌≤◌};
    ghost use Rattle.nt_outside.specs.Counts.{last_count};

    // the count of faults
    ghost Value = { ℕ };

    ghost view = { λ s. s.faults };

    ghost invariant = { λ s. s.faults ≤ last_count };
}

impl StdSink {
    /// Standard output, where no write through this value has failed yet.
    pub fn new(stdout: Stdout) -> StdSink
        ensures { result ≡ 0 }
    {
        StdSink { stdout, faults: 0 }
    }
}

impl Sink for StdSink {
    ghost held = { λ _. None };

    ghost faults = { λ s. s };

    fn give(&mut self, from: &[u8]) -> Result<usize, Failed>
        ensures within { moved result ≤ length from.now }
        ensures some { IfOk result (λ n. 0 < length from.now → 0 < n) }
        ensures after { self.new ≡ after_write result self.old }
        ensures always { self.old ≤ last_count }
    {
        match self.stdout.write(from) {
            Ok(count) if count > 0 || from.is_empty() => Ok(count),
            _ => {
                self.faults = self.faults.saturating_add(1);
                Err(Failed)
            }
        }
    }
}
