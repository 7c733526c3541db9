//! A stream that is written.
ghost use Rattle.std.specs.Prelude.{◌≡◌, ◌<◌, ◌≤◌, IfOk, None, length};
ghost use Rattle.nt_outside.specs.Bytes.{moved};
ghost use Rattle.nt_outside.specs.Counts.{last_count};
ghost use Rattle.nt_outside.specs.Streams.{after_write};

use nt_outside::{Failed, Sink};
use std::io::Write;
use std::marker::Model;

/// Standard error, or another stream that is written. A write that the system refuses, interrupts,
/// or takes no byte of, is a fault.
#[derive(Drop)]
pub struct WriteSink<W: Write + Drop> {
    writer: W,
    faults: u64,
}

impl<W: Write + Drop> Model for WriteSink<W> {
    ghost use Rattle.std.specs.Prelude.{ℕ, ◌≤◌};
    ghost use Rattle.nt_outside.specs.Counts.{last_count};

    // the count of faults
    ghost Value = { ℕ };

    ghost view = { λ s. s.faults };

    ghost invariant = { λ s. s.faults ≤ last_count };
}

impl<W: Write + Drop> WriteSink<W> {
    /// The stream, where no write through this value has failed yet.
    pub fn new(writer: W) -> WriteSink<W>
        ensures { result ≡ 0 }
    {
        WriteSink { writer, faults: 0 }
    }
}

impl<W: Write + Drop> Sink for WriteSink<W> {
    ghost held = { λ _. None };

    ghost faults = { λ s. s };

    fn give(&mut self, from: &[u8]) -> Result<usize, Failed>
        ensures within { moved result ≤ length from.now }
        ensures some { IfOk result (λ n. 0 < length from.now → 0 < n) }
        ensures after { self.new ≡ after_write result self.old }
        ensures always { self.old ≤ last_count }
    {
        match self.writer.write(from) {
            Ok(count) if count > 0 || from.is_empty() => Ok(count),
            _ => {
                self.faults = self.faults.saturating_add(1);
                Err(Failed)
            }
        }
    }
}
