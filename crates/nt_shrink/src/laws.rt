//! Laws of traces and of shrunk lists. Each function's contract is a law; the functions do nothing.
ghost use Rattle.nt_shrink.specs.Laws.{ShrunkByTheGreatest, ShrunkDelivers, TracesAreRuns};

/// A list of turns gives a history exactly where it is a run with these turns.
pub fn traces_are_runs()
    ensures { TracesAreRuns }
{}

/// A list that has no spare place is its own shrunk list; else that is the shrunk list of the list
/// without its greatest spare place.
pub fn shrunk_by_the_greatest_spare_place()
    ensures { ShrunkByTheGreatest }
{}

/// Where the turns deliver the request, those of the shrunk list do, and none of them can be left
/// out.
pub fn a_shrunk_list_delivers()
    ensures { ShrunkDelivers }
{}
