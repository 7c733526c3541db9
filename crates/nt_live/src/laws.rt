//! What closed passes and lanes show together.
ghost use Rattle.nt_live.specs.Gathering.{AllDoneSettles, Gathers};
ghost use Rattle.nt_live.specs.Going.{AdvancesKeepWork, LooksKeepWork};

/// Let one pass know the events of all processors, each made by the processor's own choice in
/// states that it found on the lanes, and let it have the entries and marks of no others. Once the
/// marks and the lanes are closed, these events are those of one run: each processor's part of it
/// is its list, and each event stands at the number that was drawn for it.
pub fn closed_events_are_one_run()
    ensures { Gathers }
{}

/// Where each processor is cut, or rests or spins still and has seen all that this pass knows to be
/// asked, that run is settled.
pub fn all_done_settles()
    ensures { AllDoneSettles }
{}

/// What is known of a worker's work goes on through an advance of its processor that made an event.
pub fn an_advance_keeps_the_work()
    ensures { AdvancesKeepWork }
{}

/// It goes on through looks alone.
pub fn looks_keep_the_work()
    ensures { LooksKeepWork }
{}
