//! What holds after every run of calls.
ghost use Rattle.nt_thread.specs.Laws.{BlocksAreQuiet, FactsAreLastLeft};

/// After every run of calls on a new thread: where it is blocked, no kernel APC is deliverable at
/// the level and in the regions of its wait, and where the wait is an alertable one of user mode,
/// no user APC is queued.
pub fn blocks_are_quiet()
    ensures { BlocksAreQuiet }
{}

/// After every run of calls on a new thread: the alerted flags, the user-pending mark, the released
/// mark and whether it is leaving are what the last call that sets or clears them left.
pub fn flags_are_last_left()
    ensures { FactsAreLastLeft }
{}
