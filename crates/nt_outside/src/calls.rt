// The calls of a source or a sink in memory.
ghost use Rattle.std.specs.Prelude.{◌≡◌, ◌≤◌, ◌↔◌, IsTrue};
ghost use Rattle.nt_outside.specs.Counts.{last_count};
ghost use Rattle.nt_outside.specs.Calls.{no_calls, NextFails, called, faulted};

use std::marker::Model;

/// Which calls fail, and how many were made and met a fault.
#[derive(Debug, Drop)]
pub struct Calls {
    fails: Vec<u64>,
    made: u64,
    faults: u64,
}

impl Model for Calls {
    ghost use Rattle.std.specs.Prelude.{◌≤◌};
    ghost use Rattle.nt_outside.specs.Counts.{last_count};
    ghost use Rattle.nt_outside.specs.Calls.{CallState};

    ghost Value = { CallState };

    ghost view = { λ c. record { fails = c.fails.items; made = c.made; faults = c.faults } };

    ghost invariant = { λ c. c.faults ≤ last_count };
}

impl Calls {
    /// No call was made yet, and those in the list are to fail.
    pub fn new(fails: Vec<u64>) -> Calls
        ensures { result ≡ no_calls fails.items }
    {
        Calls {
            fails,
            made: 0,
            faults: 0,
        }
    }

    /// Counts a call, and says whether it is one of those that fail.
    pub fn begin(&mut self) -> bool
        ensures fails { IsTrue result ↔ NextFails self.old }
        ensures after { self.new ≡ called self.old }
        ensures capped { self.old.faults ≤ last_count }
    {
        let fails = self.fails.contains(&self.made);
        self.made = self.made.saturating_add(1);
        fails
    }

    /// Counts a fault.
    pub fn fault(&mut self)
        ensures { self.new ≡ faulted self.old }
    {
        self.faults = self.faults.saturating_add(1);
    }
}
