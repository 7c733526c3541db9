//! What a value behind a lock is known to be of.
use std::marker::Brand;

/// One script and one turn limit. A value behind a lock is known by its type alone, so its type has
/// a parameter `N: Plan` and keeps that its script and its limit are N's. A call that passes
/// `Brand` picks the two.
pub trait Plan {
    ghost use Rattle.std.specs.Prelude.{ℕ};
    ghost use Rattle.nt_event.specs.declared.scripts.Script.{Script};

    /// The script.
    ghost script: { Script };

    /// The turn limit.
    ghost turns: { ℕ };
}

impl Plan for Brand {
    ghost use Rattle.std.specs.Prelude.{[], None};

    ghost script = { record {
      cpus = 1;
      depth = None;
      threaded = None;
      isrs = [];
      dpcs = [];
      timers = [];
      threads = [];
      apcs = [];
      routines = [];
      locks = 0;
    } };

    ghost turns = { 1 };
}
