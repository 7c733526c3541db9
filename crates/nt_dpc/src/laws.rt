//! Laws of DPC queues: over every list of accepted calls, and over the events of the machine.
ghost use Rattle.nt_dpc.specs.Laws.{AskIsTheEvents, FirstByNumber, ObjectCallsAreEvents};
ghost use Rattle.nt_dpc.specs.Laws.{OneEntryEach, QueueCallsAreEvents, RemovedIsGone};

/// Where each insert has a number above those before it, the first of a part is the pending High
/// insert of greatest number, else the pending insert of least number, and there is none exactly
/// where nothing of the part is pending.
pub fn first_by_number()
    ensures { FirstByNumber }
{}

/// After every list of accepted calls an object has at most one pending insert.
pub fn one_entry_each()
    ensures { OneEntryEach }
{}

/// What was removed or taken is not the first of a part.
pub fn removed_is_gone()
    ensures { RemovedIsGone }
{}

/// What the events of the machine leave of an object is what the calls leave.
pub fn object_calls_are_events()
    ensures { ObjectCallsAreEvents }
{}

/// What the events of the machine leave of a queue is what the calls leave.
pub fn queue_calls_are_events()
    ensures { QueueCallsAreEvents }
{}

/// What an insert asks for in the machine is what the call answers.
pub fn ask_is_the_events()
    ensures { AskIsTheEvents }
{}
