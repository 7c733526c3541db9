//! What a run of a script makes is in the ranges of the texts: its history is one that a report may
//! have, and its schedule one that a text may have. Behind the script's text neither is too long to
//! be read. Each function's contract is a law; the functions do nothing.
//!
//! A run's definition leaves two things open that a text needs: a turn Look may carry a list of any
//! length, and the numbers in commands are bounded only where a text was read. So the laws have as
//! premises that the input is sound and that each look has a value for each class.
#![tactic(auto)]

ghost use Rattle.nt_ranges.specs.Cuts.{CountsAreMade, CutLinesNameTheCut};
ghost use Rattle.nt_ranges.specs.Looks.{AReplayLooksWhole, ARobinRunLooksWhole};
ghost use Rattle.nt_ranges.specs.Plain.{AReplayIsOne, ARobinRunIsOne, ARunHasAReport};
ghost use Rattle.nt_ranges.specs.Plain.{ItsScheduleIsPlain, ItsTurnsAreOfProcessors};
ghost use Rattle.nt_ranges.specs.Plain.{OneReportOneHistory};
ghost use Rattle.nt_ranges.specs.Sizes.{TextsFitTheInput};
ghost use Rattle.nt_ranges.specs.Spinners.{SpinsLinesNameTheLocks, SpinsLinesNameTheSpinners};
ghost use Rattle.nt_ranges.specs.Statuses.{StatusesAreThoseOfWaits};

/// A run has a report: its history names things of the script, its numbers are in the ranges of
/// their fields, and it has not too many events.
pub fn a_run_has_a_report()
    ensures { ARunHasAReport }
{}

/// Its schedule has a text, and each turn is one of a processor of the script.
pub fn its_schedule_is_plain()
    ensures plain { ItsScheduleIsPlain }
    ensures processors { ItsTurnsAreOfProcessors }
{}

/// Statuses are those of waits: in a run, each status in a reply or a Switch is STATUS_SUCCESS,
/// STATUS_USER_APC, STATUS_KERNEL_APC or STATUS_ALERTED.
pub fn statuses_are_those_of_waits()
    ensures { StatusesAreThoseOfWaits }
{}

/// The looks of a robin run are whole: each has a value for each class.
pub fn a_robin_run_looks_whole()
    ensures { ARobinRunLooksWhole }
{}

/// The looks of a replay are whole, where the turns are such as a text of a schedule may have.
pub fn a_replay_looks_whole()
    ensures { AReplayLooksWhole }
{}

/// A report names the processors that were cut: the count that its lines `cut` go by is how many
/// events the processor made, and in a run such a line stands exactly where the processor is cut.
pub fn a_report_names_the_cut()
    ensures counts { CountsAreMade }
    ensures lines { CutLinesNameTheCut }
{}

/// A report names the processors that spin: in a settled run it has a line `spins` for a processor
/// exactly where the processor isn't cut and spins still, and the lock that the line names is the
/// one on which it spins.
pub fn a_report_names_the_spinners()
    ensures processors { SpinsLinesNameTheSpinners }
    ensures locks { SpinsLinesNameTheLocks }
{}

/// What the program makes is such a run: the history of a robin run whose turn limit is in its
/// range, and that of a replay, a run whose schedule is plain.
pub fn robin_runs_and_replays_have_reports()
    ensures robin { ARobinRunIsOne }
    ensures replay { AReplayIsOne }
{}

/// A report of a run is of no other run: two runs of one input that have the same report are one
/// history.
pub fn one_report_one_history()
    ensures { OneReportOneHistory }
{}

/// Its texts fit the input: the script's text with the history's report behind it, or with its
/// schedule behind it, has at most as many bytes as an input may have.
pub fn its_texts_fit_the_input()
    ensures { TextsFitTheInput }
{}
