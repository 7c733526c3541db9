//! Two flags that threads set and look for.
use std::hint::spin_loop;
use std::sync::atomic::{AtomicU64, Ordering};

/// How often a flag is looked for at most.
pub(crate) const LOOKS: u32 = 100_000_000;

/// A flag, and whether some look for it never succeeded.
#[derive(Drop)]
pub(crate) struct Flag {
    set: AtomicU64,
    missed: AtomicU64,
}

impl Flag {
    pub(crate) fn new() -> Flag {
        Flag {
            set: AtomicU64::new(0),
            missed: AtomicU64::new(0),
        }
    }

    pub(crate) fn set(&self) {
        self.set.store(1, Ordering::SeqCst);
    }

    pub(crate) fn is_set(&self) -> bool {
        self.set.load(Ordering::SeqCst) == 1
    }

    /// Whether some look for it never succeeded.
    pub(crate) fn was_missed(&self) -> bool {
        self.missed.load(Ordering::SeqCst) == 1
    }

    /// Looks for the flag, at most so many times.
    fn is_seen(&self, looks: u32) -> bool {
        for _ in 0..looks {
            if self.is_set() {
                return true;
            }
            spin_loop();
        }
        false
    }

    /// Looks for the flag, at most so many times, and notes where that never succeeds.
    pub(crate) fn look_for(&self, looks: u32) {
        if !self.is_seen(looks) {
            self.missed.store(1, Ordering::SeqCst);
        }
    }
}

/// Two flags, and one that is set when what comes before them is done.
#[derive(Drop)]
pub(crate) struct Flags {
    pub(crate) ready: Flag,
    pub(crate) first: Flag,
    pub(crate) second: Flag,
}

impl Flags {
    pub(crate) fn new() -> Flags {
        Flags {
            ready: Flag::new(),
            first: Flag::new(),
            second: Flag::new(),
        }
    }

    /// Whether the two were set, and no look for one of them failed.
    pub(crate) fn all_seen(&self) -> bool {
        self.first.is_set()
            && self.second.is_set()
            && !self.first.was_missed()
            && !self.second.was_missed()
    }
}
