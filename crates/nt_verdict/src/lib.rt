//! Laws: what a closed list of histories tells of expectations.
//!
//! `nt_expect` says what shows in a history that an expectation fails, and `nt_alike` that a short
//! list of histories can stand for all runs of a script. Here the two come together. Beside what
//! has to be the same for histories to go on alike, it is kept of each event that is watched for
//! whether such an event came. Then like events show the same, and so does a quiet end. So where
//! none of a closed list shows that an expectation fails, it fails in no run of the script, under
//! any schedule and any turn limit. And where a free run shows it, it fails.
//!
//! Each function's contract is a law; the functions do nothing. No program stands on them yet.
#![tactic(auto)]

ghost use Rattle.nt_verdict.specs.Closed.{AlikeEndAlike, AlikeShowAlike, ClosedListsTell};
ghost use Rattle.nt_verdict.specs.Closed.{FreeRunsTell, RoundsTell};
ghost use Rattle.nt_verdict.specs.Row.{RowFails, RowIsClosed, RowKeeps};

/// Where histories are alike, and of what an expectation watches for the same came, like events
/// show alike that it fails.
pub fn alike_histories_show_alike()
    ensures { AlikeShowAlike }
{}

/// And so do their quiet ends.
pub fn alike_histories_end_alike()
    ensures { AlikeEndAlike }
{}

/// Where none of a closed list shows that an expectation fails, it fails in no run of the script.
pub fn a_closed_list_tells_of_an_expectation()
    ensures { ClosedListsTell }
{}

/// But where a free run shows by an event that may come, or where it is quiet, that an expectation
/// fails, it does fail.
pub fn what_a_free_run_shows_fails()
    ensures { FreeRunsTell }
{}

/// And where each of a list of free runs may go on into the list, not every run ends.
pub fn a_round_never_ends()
    ensures { RoundsTell }
{}

/// The histories of the worked row raise-queue-lower are a closed list, whatever is watched for.
pub fn raise_queue_lower_is_closed_whatever_is_watched()
    ensures { RowIsClosed }
{}

/// So in no run of it does its DPC begin twice or wait at a quiet end, each that ends quietly has
/// noted 7, and every run ends.
pub fn raise_queue_lower_keeps_its_expectations()
    ensures { RowKeeps }
{}

/// But that it never notes 7 fails.
pub fn raise_queue_lower_fails_never_note_7()
    ensures { RowFails }
{}
