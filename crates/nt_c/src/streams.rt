//! The source of one call, which never fails, and its sink, which fails only for want of memory.
ghost use Rattle.std.specs.Prelude.{◌≡◌, ◌≤◌, MatchOption, Some};
ghost use Rattle.nt_c.specs.Streams.{new_input, new_text};

use nt_outside::{Failed, Sink, Source};
use std::alloc::Global;
use std::marker::Model;

/// Gives the bytes of a slice, which it borrows. No call fails.
#[derive(Drop)]
pub(crate) struct InputSource<'a> {
    left: &'a [u8],
    taken: u64,
}

impl<'a> Model for InputSource<'a> {
    ghost use Rattle.std.specs.Prelude.{◌≤◌};
    ghost use Rattle.nt_outside.specs.Counts.{last_count};
    ghost use Rattle.nt_c.specs.Streams.{Input};

    ghost Value = { Input };

    ghost view = { λ s. record { left = s.left.now; taken = s.taken } };

    ghost invariant = { λ s. s.taken ≤ last_count };
}

impl<'a> InputSource<'a> {
    /// A source of these bytes, of which none was taken yet.
    pub(crate) fn new(bytes: &'a [u8]) -> InputSource<'a>
        ensures { result ≡ new_input bytes.now }
    {
        InputSource {
            left: bytes,
            taken: 0,
        }
    }
}

impl<'a> Source for InputSource<'a> {
    ghost left = { λ s. Some s.left };

    ghost taken = { λ s. s.taken };

    ghost faults = { λ _. 0 };

    fn take(&mut self, into: &mut [u8]) -> Result<usize, Failed> {
        let count = into.len().min(self.left.len());
        let (front, rest) = self.left.split_at(count);
        into[..count].copy_from_slice(front);
        self.left = rest;
        self.taken = self.taken.saturating_add(count as u64);
        Ok(count)
    }
}

/// Keeps the text that it is given. A call fails only where memory is wanting.
#[derive(Drop)]
pub(crate) struct TextSink {
    text: Vec<u8>,
    faults: u64,
}

impl Model for TextSink {
    ghost use Rattle.std.specs.Prelude.{◌≤◌};
    ghost use Rattle.nt_outside.specs.Counts.{last_count};
    ghost use Rattle.nt_c.specs.Streams.{Text};

    ghost Value = { Text };

    ghost view = { λ s. record { held = s.text.items; faults = s.faults } };

    ghost invariant = { λ s. s.faults ≤ last_count };
}

impl TextSink {
    /// A sink that holds nothing.
    pub(crate) fn new(alloc: Global) -> TextSink
        ensures { result ≡ new_text }
    {
        TextSink {
            text: Vec::new(alloc),
            faults: 0,
        }
    }

    /// The text, where memory was never wanting.
    pub(crate) fn text(self) -> Option<Vec<u8>>
        ensures { MatchOption result (1 ≤ self.faults)
            (λ v. (self.faults ≡ 0) × (v.items ≡ self.held)) }
    {
        if self.faults == 0 {
            Some(self.text)
        } else {
            None
        }
    }
}

impl Sink for TextSink {
    ghost held = { λ s. Some s.held };

    ghost faults = { λ s. s.faults };

    fn give(&mut self, from: &[u8]) -> Result<usize, Failed> {
        match self.text.extend_from_slice(from) {
            Ok(()) => Ok(from.len()),
            Err(_) => {
                self.faults = self.faults.saturating_add(1);
                Err(Failed)
            }
        }
    }
}
