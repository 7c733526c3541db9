//! A value for each request class.
ghost use Rattle.std.specs.Prelude.{◌≡◌, ◌<◌, ℕ, slice_set};
ghost use Rattle.nt_event.specs.Lists.{table, value_at};

use nt_event::{Rises, class};
use nt_floor::Seen;
use std::marker::Model;

/// A value for each class.
#[derive(Drop, Debug)]
pub struct Values {
    values: [u64; class::COUNT],
}

impl Model for Values {
    ghost use Rattle.std.specs.Prelude.{ℕ, List};

    ghost Value = { List ℕ };

    ghost view = { λ a. a.values };
}

impl Values {
    /// Each value is 0.
    pub fn new() -> Self
        ensures { result ≡ table 16 (λ c. 0) }
    {
        Values {
            values: [0; class::COUNT],
        }
    }

    /// A copy of them.
    pub fn copy(&self) -> Values
        ensures { result ≡ self.now }
    {
        Values {
            values: self.values,
        }
    }

    /// They as they are, in the order of the classes.
    pub fn rises(&self) -> Rises
        ensures { result.value ≡ self.now }
    {
        Rises { value: self.values }
    }

    /// The value of a class.
    pub fn get(&self, class: u8) -> u64
        requires { class < 16 }
        ensures { result ≡ value_at self.now class }
    {
        self.values[class as usize]
    }

    /// The value of this class is the one that was seen.
    pub fn serve(&mut self, class: u8, seen: &Seen)
        requires { class < 16 }
        ensures { self.new ≡ slice_set self.old class (value_at seen.now class) }
    {
        self.values[class as usize] = seen.get(class);
    }
}
