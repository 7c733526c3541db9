//! Laws of timers: the order of expiries, over every list of calls, and over the events of the
//! machine.
ghost use Rattle.nt_timer.specs.Laws.{FirstDueIsFirst, NumbersTellKeys, TimerCallsAreEvents};

/// The first due key is set and due, and no due key is due earlier, or at the same time by an
/// earlier event; there is none exactly where no key is due.
pub fn first_due_is_first()
    ensures { FirstDueIsFirst }
{}

/// After every list of calls whose numbers rise no two keys were set by the same event, so there is
/// one first due key at most.
pub fn numbers_tell_keys()
    ensures { NumbersTellKeys }
{}

/// What the events of the machine leave of the timers is what the calls leave.
pub fn timer_calls_are_events()
    ensures { TimerCallsAreEvents }
{}
