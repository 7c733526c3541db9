//! The whole report.
ghost use Rattle.std.specs.Prelude.{◌≡◌, [], true, IfOk, OnOk};
ghost use Rattle.nt_script.specs.Sound.{IsSound};
ghost use Rattle.nt_event.specs.Fitting.{events_fit};
ghost use Rattle.nt_print.specs.Lent.{lent};
ghost use Rattle.nt_print.specs.Report.{report_text};
ghost use Rattle.nt_print.specs.Tally.{Tallies};

use crate::cuts::put_cuts;
use crate::events::put_events;
use crate::spins::put_spins;
use crate::tally::Tally;
use crate::waits::put_waits;
use nt_history::{Briefs, History};
use nt_log::put_schedule_of;
use nt_script::Input;
use std::alloc::{AllocError, Global};

/// How many bytes an event is taken to have in a report, with its turn in the schedule. A report
/// may have more.
const BYTES_OF_EVENT: usize = 48;

/// Puts the report of a history into a text that is empty, where no event is tallied.
fn put_tallied(
    out: &mut Vec<u8>,
    input: &Input,
    history: &History,
    events: &Briefs,
    tally: &mut Tally,
) -> Result<(), AllocError>
    requires empty { out.old.items ≡ [] }
    requires sound { IsSound input.now }
    requires fit { events_fit input.now.script history.now.events ≡ true }
    requires events { lent events.now ≡ history.now.events }
    requires tally { Tallies input.now.script (lent events.now) 0 tally.old }
    ensures { OnOk result (out.new.items ≡ report_text input.now history.now) }
{
    out.extend_from_slice(b"report\n")?;
    put_events(out, input, events, tally)?;
    put_cuts(out, input.script.cpus, &tally.made, history)?;
    put_spins(out, input, history, tally)?;
    put_waits(out, input, events, tally)?;
    put_schedule_of(out, input, history)?;
    Ok(())
}

/// Puts the report of a history into a text that is empty.
fn put_report(
    out: &mut Vec<u8>,
    input: &Input,
    history: &History,
    events: &Briefs,
) -> Result<(), AllocError>
    requires empty { out.old.items ≡ [] }
    requires sound { IsSound input.now }
    requires fit { events_fit input.now.script history.now.events ≡ true }
    requires events { lent events.now ≡ history.now.events }
    ensures { OnOk result (out.new.items ≡ report_text input.now history.now) }
{
    let mut tally = Tally::new(*out.allocator(), &input.script, events)?;
    put_tallied(out, input, history, events, &mut tally)
}

/// The report of a history, whose events name things of the input's script. An error is want of
/// memory.
pub fn report(alloc: Global, input: &Input, history: &History) -> Result<Vec<u8>, AllocError>
    requires sound { IsSound input.now }
    requires fit { events_fit input.now.script history.now.events ≡ true }
    ensures { IfOk result (λ text. text.items ≡ report_text input.now history.now) }
{
    let events = history.lend();
    let mut out = Vec::with_capacity(alloc, events.briefs.len().saturating_mul(BYTES_OF_EVENT))?;
    put_report(&mut out, input, history, &events)?;
    Ok(out)
}
