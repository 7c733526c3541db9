//! The request words: for each processor and class the greatest request so far.
ghost use Rattle.std.specs.Prelude.{◌≡◌, ◌+◌, ◌*◌, ◌<◌, ◌≤◌, ℕ, All, IfOk, length, replicate};
ghost use Rattle.nt_event.specs.Lists.{value_at};
ghost use Rattle.nt_states.specs.LaneLists.{as_asks};
ghost use Rattle.nt_floor.specs.Sums.{sum_of};
ghost use Rattle.nt_plain.specs.Made.{raised_word, raised_words};
ghost use Rattle.nt_plain.specs.Places.{value_in, word_place};

use nt_event::{Asked, CpuNo};
use std::alloc::{AllocError, Global};
use std::marker::Model;

/// A word for each processor and class, 16 a processor. A request is one more than the number of
/// the event that asks; 0 is none.
#[derive(Drop, Debug)]
pub(crate) struct RequestWords {
    values: Vec<u64>,
    /// For each processor the sum of its words.
    sums: Vec<u128>,
}

impl Model for RequestWords {
    ghost use Rattle.std.specs.Prelude.{List, ℕ};

    ghost Value = { List ℕ };

    ghost use Rattle.nt_plain.specs.Sums.{AreSums};

    ghost view = { λ a. a.values.items };

    ghost invariant = { λ a. AreSums a.sums.items a.values.items };
}

impl RequestWords {
    /// No request, for so many processors.
    pub(crate) fn new(alloc: Global, cpus: u8) -> Result<RequestWords, AllocError>
        ensures { IfOk result (λ x. x ≡ replicate (16 * cpus) 0) }
    {
        let count = 16 * usize::from(cpus);
        let values = vec![in alloc; 0u64; count]?;
        let sums = vec![in alloc; 0u128; usize::from(cpus)]?;
        Ok(RequestWords { values, sums })
    }

    /// A copy of them.
    pub(crate) fn copy(&self, alloc: Global) -> Result<RequestWords, AllocError>
        ensures { IfOk result (λ x. x ≡ self.now) }
    {
        Ok(RequestWords {
            values: self.values.to_vec(alloc)?,
            sums: self.sums.to_vec(alloc)?,
        })
    }

    /// The word of a processor and class.
    pub(crate) fn get(&self, p: CpuNo, class: u8) -> u64
        requires { word_place p class < length self.now }
        ensures { result ≡ value_in self.now p class }
    {
        self.values[place(p, class)]
    }

    /// The words of a processor, one for each class.
    pub(crate) fn row(&self, p: CpuNo) -> &[u64]
        requires { 16 * p.0 + 16 ≤ length self.now }
        ensures classes { length result.now ≡ 16 }
        ensures values { (c : ℕ) → c < 16 → value_at result.now c ≡ value_in self.now p c }
    {
        let first = place(p, 0);
        &self.values[first..first + 16]
    }

    /// The sum of the words of a processor.
    pub(crate) fn sum(&self, p: CpuNo) -> u128
        requires { 16 * p.0 + 16 ≤ length self.now }
        ensures { result ≡ sum_of (value_in self.now p) }
    {
        self.sums[usize::from(p.0)]
    }

    /// Raises the word of a processor and class to a value.
    pub(crate) fn raise(&mut self, p: CpuNo, class: u8, to: u64)
        requires class { class < 16 }
        requires word { word_place p class < length self.old }
        ensures { self.new ≡ raised_word to p class self.old }
    {
        let at = place(p, class);
        let old = self.values[at];
        if old < to {
            self.values[at] = to;
            self.sums[usize::from(p.0)] += u128::from(to - old);
        }
    }

    /// Raises the words of these requests to a value.
    pub(crate) fn raise_all(&mut self, asks: &[Asked], to: u64)
        requires classes { All (λ a. a.class < 16) asks.now }
        requires words { All (λ a. word_place a.cpu a.class < length self.old) asks.now }
        ensures { self.new ≡ raised_words to (as_asks asks.now) self.old }
    {
        for ask in asks {
            self.raise(ask.cpu, ask.class, to);
        }
    }
}

/// Where the word stands.
fn place(p: CpuNo, class: u8) -> usize
    ensures { result ≡ word_place p class }
{
    16 * usize::from(p.0) + usize::from(class)
}
