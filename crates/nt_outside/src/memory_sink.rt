// A sink in memory, whose calls fail where its maker wants it, and where it is full.
ghost use Rattle.std.specs.Prelude.{◌≡◌, ◌≤◌, ◌↔◌, length, IsErr, IfOk, Some};
ghost use Rattle.nt_outside.specs.MemorySink.{new_sink, RefusesNext, piece_of, after_give};
ghost use Rattle.nt_outside.specs.MemorySink.{IsMemorySink};

use crate::calls::Calls;
use crate::error::Failed;
use crate::sink::Sink;
use std::alloc::{AllocError, Global};
use std::marker::Model;

/// Holds the bytes that it is given, at most so many at a call and in all. Chosen calls fail.
#[derive(Debug, Drop)]
pub struct MemorySink {
    bytes: Vec<u8>,
    room: usize,
    piece: usize,
    calls: Calls,
}

impl Model for MemorySink {
    ghost use Rattle.std.specs.Prelude.{◌≤◌, vec_len};
    ghost use Rattle.std.specs.Vec.{vec_capacity};
    ghost use Rattle.nt_outside.specs.MemorySink.{SinkState};

    ghost Value = { SinkState };

    ghost view = { λ s. record {
      held = s.bytes.items;
      room = s.room;
      piece = s.piece;
      calls = s.calls;
    } };

    ghost invariant = { λ s.
        (vec_len s.bytes ≤ s.room) × (s.room ≤ vec_capacity s.bytes) × (1 ≤ s.piece) };
}

impl MemorySink {
    /// An empty sink with room for `room` bytes, whose memory it takes here. A call moves at most
    /// `piece` bytes. Calls are counted from 0, and those in `fails` answer `Failed` and raise the
    /// count of faults. So does a call with bytes where the sink is full.
    pub fn new(
        alloc: Global,
        room: usize,
        piece: usize,
        fails: Vec<u64>,
    ) -> Result<MemorySink, AllocError>
        requires { 1 ≤ piece }
        ensures { IfOk result (λ s. s ≡ new_sink room piece fails.items) }
    {
        Ok(MemorySink {
            bytes: Vec::with_capacity(alloc, room)?,
            room,
            piece,
            calls: Calls::new(fails),
        })
    }

    /// The bytes that it holds.
    pub fn bytes(&self) -> &[u8]
        ensures { result.now ≡ self.now.held }
    {
        self.bytes.as_slice()
    }
}

impl Sink for MemorySink {
    ghost held = { λ s. Some s.held };

    ghost faults = { λ s. s.calls.faults };

    fn give(&mut self, from: &[u8]) -> Result<usize, Failed>
        ensures fails { IsErr result ↔ RefusesNext from.now self.old }
        ensures piece { IfOk result (λ n. n ≡ piece_of self.old (length from.now)) }
        ensures after { self.new ≡ after_give result from.now self.old }
        ensures always { IsMemorySink self.old }
    {
        let free = self.room - self.bytes.len();
        if self.calls.begin() || (free == 0 && !from.is_empty()) {
            self.calls.fault();
            return Err(Failed);
        }
        let count = self.piece.min(from.len()).min(free);
        self.bytes.extend_from_slice(&from[..count]).unwrap();
        Ok(count)
    }
}
