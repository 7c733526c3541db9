//! The headline, as laws over what the top call answers.
ghost use Rattle.nt_top.specs.Headline.{CheckCallsItLegal, Headline, ReplayWritesTheSame};

use nt_verify::{
    calls_are_refused_as_expected, ordered_scripts_spin_nowhere, scripts_without_findings_are_clean,
};
use nt_words::words_have_one_form;

/// What `run`, `live` or `replay` wrote with status 0 is the report of the actual history: of the
/// robin run of the script that was read, of a run that its processors made on threads, or of the
/// one run with the turns of the schedule behind it. That history is a settled run of the written
/// machine: every delivery was eligible and names an insert that was pending just before, each
/// insert was begun, removed or flushed by the first later event that uses it up, or is named as
/// waiting, and nothing that may run is left but on a processor with a `cut` line. The `spins`
/// lines are exactly those of the other processors that spin still. The bytes name this one
/// history. `check` wrote with status 0 that the history of the report that was read is legal, and
/// it is a settled run of the script. `load` read nothing and wrote with status 0 the summary of
/// the robin run of the seed's load. `migrate` wrote with status 0 the text of the script that was
/// read, in version 2. `verify` wrote with status 0 what is found in the script that was read: the
/// places of which a refusal is expected, and whether its locks are acquired in rising order. In
/// every run of every script each call is refused exactly as expected. `shrink` wrote with status 0
/// the schedule that is left of the one that was read: its turns are those of a run that delivers
/// the goal, and no single turn can be left out. `audit` wrote with status 0 the audit of the robin
/// run of the script that was read: each note with how many inserts were pending just before it.
pub fn the_report_is_that_of_the_actual_history()
    ensures { Headline }
{
    calls_are_refused_as_expected();
    scripts_without_findings_are_clean();
    ordered_scripts_spin_nowhere();
}

/// Replaying the schedule of a report that `run`, `live` or `replay` wrote writes the same bytes:
/// the script's text with the schedule part of the report behind it, given to `replay`, has status
/// 0 and writes the report again, where memory is found and neither the source nor the sink fails.
/// These bytes are never too many to be read.
pub fn replaying_its_schedule_writes_the_report_again()
    ensures { ReplayWritesTheSame }
{
    words_have_one_form();
}

/// A report that `run`, `live` or `replay` wrote is called legal: the script's text with the report
/// behind it, given to `check`, has status 0 and writes `legal`, under the same premises. These
/// bytes are never too many either.
pub fn check_calls_the_report_legal()
    ensures { CheckCallsItLegal }
{
    words_have_one_form();
}
