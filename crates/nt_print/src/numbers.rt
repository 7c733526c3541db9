//! A number for each place below a count.
use std::alloc::{AllocError, Global};
use std::marker::Model;

/// A number for each place below a count. Contracts see the list of them.
#[derive(Drop)]
pub(crate) struct Numbers {
    numbers: Vec<usize>,
}

impl Model for Numbers {
    ghost use Rattle.std.specs.Prelude.{ℕ, List};

    ghost Value = { List ℕ };

    ghost view = { λ a. a.numbers.items };
}

impl Numbers {
    ghost use Rattle.std.specs.Prelude.{◌≡◌, ◌+◌, ◌<◌, ◌^◌, IfOk, get_or, length, replicate};
    ghost use Rattle.std.specs.Prelude.{slice_set};

    /// So many places, each with 0.
    pub(crate) fn new(alloc: Global, count: usize) -> Result<Numbers, AllocError>
        ensures { IfOk result (λ numbers. numbers ≡ replicate count 0) }
    {
        Ok(Numbers {
            numbers: vec![in alloc; 0; count]?,
        })
    }

    /// The number at this place, 0 where there is none.
    pub(crate) fn at(&self, place: usize) -> usize
        ensures { result ≡ get_or self.now place 0 }
    {
        if place < self.numbers.len() {
            self.numbers[place]
        } else {
            0
        }
    }

    /// Puts a number at this place, where there is one.
    pub(crate) fn set(&mut self, place: usize, number: usize)
        ensures { self.new ≡ slice_set self.old place number }
    {
        if place < self.numbers.len() {
            self.numbers[place] = number;
        }
    }

    /// Counts one more at this place.
    pub(crate) fn count(&mut self, place: usize)
        requires place { place < length self.old }
        requires room { get_or self.old place 0 + 1 < 2 ^ 64 }
        ensures { self.new ≡ slice_set self.old place (get_or self.old place 0 + 1) }
    {
        self.numbers[place] += 1;
    }
}
