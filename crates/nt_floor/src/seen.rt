//! What a processor has seen of requests.
ghost use Rattle.std.specs.Prelude.{◌≡◌, ◌<◌, ◌==◌, ◌↔◌, ℕ, IsTrue, false, if◌then◌else◌, length};
ghost use Rattle.std.specs.Prelude.{max};
ghost use Rattle.nt_event.specs.Lists.{table, value_at};
ghost use Rattle.nt_floor.specs.Seen.{IsInterrupt, SameInterrupts, has_unseen, unseen};
ghost use Rattle.nt_floor.specs.Sums.{sum_of};

use nt_event::{Rises, class};
use std::marker::Model;

/// Whether the class is one of interrupts.
fn is_interrupt(class: u8) -> bool
    ensures { IsTrue result ↔ IsInterrupt class }
{
    class::DISPATCH < class && class != class::LOCK
}

/// The greatest request that was seen of each of the classes 0 to 15; 0 is none.
#[derive(Drop, Debug)]
pub struct Seen {
    values: [u64; 16],
    /// The sum of the values.
    sum: u128,
}

impl Model for Seen {
    ghost use Rattle.std.specs.Prelude.{ℕ, List};

    ghost Value = { List ℕ };

    ghost use Rattle.nt_floor.specs.Sums.{IsSum};

    ghost view = { λ a. a.values };

    ghost invariant = { λ a. IsSum a.sum a.values };
}

impl Seen {
    /// Nothing was seen.
    pub fn new() -> Self
        ensures { result ≡ table 16 (λ c. 0) }
    {
        Seen {
            values: [0; 16],
            sum: 0,
        }
    }

    /// A copy of it.
    pub fn copy(&self) -> Seen
        ensures { result ≡ self.now }
    {
        Seen {
            values: self.values,
            sum: self.sum,
        }
    }

    /// There is a value for each class.
    pub fn classes(&self)
        ensures { length self.now ≡ 16 }
    {
        let _values = &self.values;
    }

    /// The value of a class.
    pub fn get(&self, class: u8) -> u64
        requires { class < 16 }
        ensures { result ≡ value_at self.now class }
    {
        self.values[class as usize]
    }

    /// Raises the value of a class to this one. False only where what was seen of interrupts is as
    /// before.
    pub fn raise(&mut self, class: u8, to: u64) -> bool
        requires { class < 16 }
        ensures values { self.new
            ≡ table 16 (λ c. max (value_at self.old c) (if class == c then to else 0)) }
        ensures interrupts { result ≡ false → SameInterrupts self.old self.new }
    {
        let place = class as usize;
        let old = self.values[place];
        if old < to {
            self.values[place] = to;
            self.sum += u128::from(to - old);
            is_interrupt(class)
        } else {
            false
        }
    }

    /// Raises each value to this one of its class. False only where what was seen of interrupts is
    /// as before.
    pub fn raise_all(&mut self, values: &[u64; 16]) -> bool
        ensures values { self.new
            ≡ table 16 (λ c. max (value_at self.old c) (value_at values.now c)) }
        ensures interrupts { result ≡ false → SameInterrupts self.old self.new }
    {
        let mut interrupts = false;
        for class in 0..16 {
            if self.raise(class, values[class as usize]) {
                interrupts = true;
            }
        }
        interrupts
    }

    /// The sum of the values.
    pub fn sum(&self) -> u128
        ensures { result ≡ sum_of (value_at self.now) }
    {
        self.sum
    }

    /// Whether one of these values is above that of the same class.
    pub fn is_below(&self, values: &[u64]) -> bool
        requires { length values.now ≡ 16 }
        ensures { result ≡ has_unseen self.now (value_at values.now) }
    {
        some_above(values, &self.values)
    }

    /// Which of these values are above those of the same class; 0 for the others.
    pub fn below(&self, values: &[u64]) -> Rises
        requires { length values.now ≡ 16 }
        ensures { result.value ≡ unseen self.now (value_at values.now) }
    {
        let mut rises = Rises { value: [0; 16] };
        self.write_below(values, &mut rises);
        rises
    }

    /// Writes which of these values are above those of the same class; 0 for the others.
    pub fn write_below(&self, values: &[u64], rises: &mut Rises)
        requires { length values.now ≡ 16 }
        ensures { rises.new.value ≡ unseen self.now (value_at values.now) }
    {
        for i in 0..16 {
            rises.value[i] = if self.values[i] < values[i] {
                values[i]
            } else {
                0
            };
        }
    }

    /// The values.
    pub fn rises(&self) -> Rises
        ensures { result.value ≡ self.now }
    {
        Rises { value: self.values }
    }
}

fn some_above(values: &[u64], seen: &[u64; 16]) -> bool
    requires { length values.now ≡ 16 }
    ensures { result ≡ has_unseen seen.now (value_at values.now) }
{
    for i in 0..16 {
        if seen[i] < values[i] {
            return true;
        }
    }
    false
}
