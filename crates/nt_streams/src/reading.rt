//! A stream that is read.
ghost use Rattle.std.specs.Prelude.{◌≡◌, ◌≤◌, None, length};
ghost use Rattle.nt_outside.specs.Bytes.{moved};
ghost use Rattle.nt_outside.specs.Streams.{FitInput, after_read};

use nt_outside::{Failed, Source};
use std::io::Read;
use std::marker::Model;

/// A file, or another stream that is read. A read that the system refuses, or interrupts, is a
/// fault.
#[derive(Drop)]
pub struct ReadSource<R: Read + Drop> {
    reader: R,
    taken: u64,
    faults: u64,
}

impl<R: Read + Drop> Model for ReadSource<R> {
    ghost use Rattle.std.specs.Prelude.{◌≤◌};
    ghost use Rattle.nt_outside.specs.Counts.{last_count};
    ghost use Rattle.nt_outside.specs.Streams.{InputCounts};

    ghost Value = { InputCounts };

    ghost view = { λ s. record { taken = s.taken; faults = s.faults } };

    ghost invariant = { λ s. (s.taken ≤ last_count) × (s.faults ≤ last_count) };
}

impl<R: Read + Drop> ReadSource<R> {
    /// The stream, of which nothing was taken through this value yet.
    pub fn new(reader: R) -> ReadSource<R>
        ensures { result ≡ record { taken = 0; faults = 0 } }
    {
        ReadSource {
            reader,
            taken: 0,
            faults: 0,
        }
    }
}

impl<R: Read + Drop> Source for ReadSource<R> {
    ghost left = { λ _. None };

    ghost taken = { λ s. s.taken };

    ghost faults = { λ s. s.faults };

    fn take(&mut self, into: &mut [u8]) -> Result<usize, Failed>
        ensures within { moved result ≤ length into.old }
        ensures after { self.new ≡ after_read result self.old }
        ensures always { FitInput self.old }
    {
        match self.reader.read(into) {
            Ok(count) => {
                self.taken = self.taken.saturating_add(count as u64);
                Ok(count)
            }
            Err(_) => {
                self.faults = self.faults.saturating_add(1);
                Err(Failed)
            }
        }
    }
}
