//! Reading a whole report.
ghost use Rattle.std.specs.Prelude.{◌≡◌, ◌≤◌, ◌+◌, length, true, IfOk, Ok};
ghost use Rattle.nt_text.specs.declared.lines.TheConstants.{INPUT_LIMIT};
ghost use Rattle.nt_text.specs.Lines.{lines};
ghost use Rattle.nt_event.specs.Fitting.{events_fit};
ghost use Rattle.nt_script.specs.Gives.{GivesRead};
ghost use Rattle.nt_script.specs.Sound.{IsSound};
ghost use Rattle.nt_print.specs.Conditions.{IsReportOf};
ghost use Rattle.nt_report.specs.Reading.{reading, start, walk};

use crate::comparing::compared;
use crate::histories::history_of;
use crate::line_input::LineInput;
use crate::walk::{Parts, ReportWalk};
use nt_history::History;
use nt_script::{Input, ScriptRefusal, Stop};
use nt_text::Lines;
use std::alloc::Global;

/// The event lines and the schedule of a report, whose first line has this number.
fn read_parts<'a>(
    alloc: Global,
    input: &'a Input,
    bytes: &'a [u8],
    first_line: u32,
) -> Result<Parts, ScriptRefusal>
    requires bytes { length bytes.now ≤ INPUT_LIMIT }
    requires line { first_line ≤ INPUT_LIMIT + 1 }
    ensures { GivesRead result (walk input.now start first_line (lines bytes.now)) }
{
    let mut walk = ReportWalk::new(alloc);
    let mut known = LineInput::new(input);
    let mut lines = Lines::new(bytes);
    let mut at = first_line;
    loop {
        match walk.next_line(&mut known, &mut lines) {
            Ok(true) => at += 1,
            Ok(false) => return walk.finish(at),
            Err(Stop::NoMemory) => return Err(ScriptRefusal::NoMemory),
            Err(Stop::Bad(kind)) => return Err(ScriptRefusal::Bad { line: at, kind }),
        }
    }
}

/// The lines by their form, then the history, then its text.
fn read_all(
    alloc: Global,
    input: &Input,
    bytes: &[u8],
    first_line: u32,
) -> Result<History, ScriptRefusal>
    requires sound { IsSound input.now }
    requires bytes { length bytes.now ≤ INPUT_LIMIT }
    requires line { first_line ≤ INPUT_LIMIT + 1 }
    ensures { GivesRead result (reading input.now first_line bytes.now) }
{
    let parts = read_parts(alloc, input, bytes, first_line)?;
    let history = history_of(alloc, &parts, first_line)?;
    // The history has all of it, and its text takes memory.
    drop(parts);
    compared(alloc, input, bytes, first_line, history)
}

/// The history whose report the bytes are, for the script of an input, or a bad line and what is
/// wrong with it.
///
/// First each line is read by its form; the first line that is bad is refused. Then the history is
/// made: a look turn of the schedule gives a look, and another turn takes the next event line,
/// whose number has to be the turn's place; WrongKind at the first event line of another number, or
/// behind the last. Then the history is printed; WrongKind at the first line that is not as it was
/// read. `first_line` is the number of the first line. `NoMemory` may come at any call. Profile.
pub fn read_report(
    alloc: Global,
    input: &Input,
    bytes: &[u8],
    first_line: u32,
) -> Result<History, ScriptRefusal>
    requires sound { IsSound input.now }
    requires bytes { length bytes.now ≤ INPUT_LIMIT }
    requires line { (1 ≤ first_line) × (first_line ≤ INPUT_LIMIT + 1) }

    // What is answered has the bytes as its report.
    ensures found { IfOk result (λ h. IsReportOf bytes.now input.now h) }

    // The history of a report is answered, and no other history and no bad line.
    ensures only { (h : History) → IsReportOf bytes.now input.now h → GivesRead result (Ok h) }

    // Its events name things of the script, as printing wants it.
    ensures fits { IfOk result (λ h. events_fit input.now.script h.events ≡ true) }

    // Which line is refused, and why.
    ensures exact { GivesRead result (reading input.now first_line bytes.now) }
{
    read_all(alloc, input, bytes, first_line)
}
