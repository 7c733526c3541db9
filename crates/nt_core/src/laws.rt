//! Laws of replays and of robin runs. Each function's contract is a law; the functions do nothing.
ghost use Rattle.nt_core.specs.Laws.{OneRobinRun, ReplaysAreRuns, RunsReplay};

/// A replay of turns gives a history exactly where the turns are those of the history, and it is a
/// settled run.
pub fn replays_are_runs()
    ensures { ReplaysAreRuns }
{}

/// A settled run is replayed by its turns.
pub fn a_run_is_replayed_by_its_turns()
    ensures { RunsReplay }
{}

/// Two settled runs of the robin rule with one turn limit are equal.
pub fn one_robin_run()
    ensures { OneRobinRun }
{}
