//! The text of a history against what was read.
ghost use Rattle.std.specs.Prelude.{◌≡◌, ◌≤◌, ◌+◌, length, true};
ghost use Rattle.nt_text.specs.declared.lines.TheConstants.{INPUT_LIMIT};
ghost use Rattle.nt_text.specs.Lines.{lines};
ghost use Rattle.nt_event.specs.Fitting.{events_fit};
ghost use Rattle.nt_script.specs.Gives.{GivesRead};
ghost use Rattle.nt_script.specs.Sound.{IsSound};
ghost use Rattle.nt_report.specs.Reading.{compared, lines_alike};

use crate::histories::wrong;
use nt_history::History;
use nt_print::report;
use nt_script::{Input, ScriptRefusal};
use nt_text::Lines;
use std::alloc::Global;

/// How many lines two texts have alike before the first that differs.
fn lines_alike(text: &[u8], other: &[u8]) -> u32
    requires { length other.now ≤ INPUT_LIMIT }
    ensures alike { result ≡ lines_alike (lines text.now) (lines other.now) }
    ensures few { result ≤ INPUT_LIMIT }
{
    let mut alike: u32 = 0;
    let mut mine = Lines::new(text);
    let mut others = Lines::new(other);
    while let Some(line) = mine.next() {
        match others.next() {
            Some(other) => {
                if line.bytes != other.bytes {
                    return alike;
                }
            }
            None => return alike,
        }
        alike += 1;
    }
    alike
}

/// The history, where its text is what was read, whose first line has this number. WrongKind at the
/// first line that differs.
pub(crate) fn compared(
    alloc: Global,
    input: &Input,
    bytes: &[u8],
    first_line: u32,
    history: History,
) -> Result<History, ScriptRefusal>
    requires sound { IsSound input.now }
    requires fit { events_fit input.now.script history.events ≡ true }
    requires bytes { length bytes.now ≤ INPUT_LIMIT }
    requires line { first_line ≤ INPUT_LIMIT + 1 }
    ensures { GivesRead result (compared input.now bytes.now first_line history) }
{
    let text = match report(alloc, input, &history) {
        Ok(text) => text,
        Err(_) => return Err(ScriptRefusal::NoMemory),
    };
    if text.as_slice() == bytes {
        return Ok(history);
    }
    Err(wrong(first_line + lines_alike(text.as_slice(), bytes)))
}
