//! Reading a whole schedule.
ghost use Rattle.std.specs.Prelude.{◌≡◌, ◌+◌, true, ◌≤◌, length, IfOk, Ok};
ghost use Rattle.nt_text.specs.declared.lines.TheConstants.{INPUT_LIMIT};
ghost use Rattle.nt_event.specs.declared.limits.TheConstants.{CPUS};
ghost use Rattle.nt_script.specs.Gives.{GivesRead};
ghost use Rattle.nt_script.specs.Sound.{IsSound};
ghost use Rattle.nt_log.specs.declared.schedules.Schedule.{Schedule};
ghost use Rattle.nt_log.specs.Reading.{reading};
ghost use Rattle.nt_log.specs.Schedules.{IsTextOf, turns_fit};

use crate::schedules::Schedule;
use crate::walk::ScheduleWalk;
use nt_event::limits;
use nt_script::{Input, ScriptRefusal, Stop};
use nt_text::Lines;
use std::alloc::Global;

/// What the lines of a text say, of which the first has this number.
fn read_lines(
    alloc: Global,
    input: &Input,
    bytes: &[u8],
    first_line: u32,
) -> Result<Schedule, ScriptRefusal>
    requires bytes { length bytes.now ≤ INPUT_LIMIT }
    requires line { (1 ≤ first_line) × (first_line ≤ INPUT_LIMIT + 1) }
    ensures { GivesRead result (reading CPUS input.now first_line bytes.now) }
{
    let mut walk = ScheduleWalk::new(alloc);
    let mut lines = Lines::new(bytes);
    let mut at = first_line;
    loop {
        match walk.next_line(input, limits::CPUS, &mut lines) {
            Ok(true) => at += 1,
            Ok(false) => return walk.finish(at),
            Err(Stop::NoMemory) => return Err(ScriptRefusal::NoMemory),
            Err(Stop::Bad(kind)) => return Err(ScriptRefusal::Bad { line: at, kind }),
        }
    }
}

/// The schedule whose text the bytes are, for the script of an input, or the least bad line and
/// what is wrong with it.
///
/// `first_line` is the number of the first line of the bytes, which stand behind a script.
/// Processor numbers are at most 63. Ok exactly where the bytes are the text of a schedule, with
/// that schedule; `Bad` else, of which [`ScheduleWalk::line`] has the order of tests. Where no line
/// is bad and none is `done`, it is NoEnd at the line behind the last; so empty input is NoEnd at
/// the first line (profile). `NoMemory` may come at any call.
pub fn read_schedule(
    alloc: Global,
    input: &Input,
    bytes: &[u8],
    first_line: u32,
) -> Result<Schedule, ScriptRefusal>
    requires sound { IsSound input.now }
    requires bytes { length bytes.now ≤ INPUT_LIMIT }
    requires line { (1 ≤ first_line) × (first_line ≤ INPUT_LIMIT + 1) }

    // What is answered is a schedule of the input's script, and the bytes are its text.
    ensures found { IfOk result (IsTextOf bytes.now input.now) }

    // Its switches take threads of the script, as `print_schedule` wants it.
    ensures fit { IfOk result (λ s. turns_fit input.now.script s.list ≡ true) }

    // The schedule of a text is answered, and no other schedule and no bad line.
    ensures only { (s : Schedule) → IsTextOf bytes.now input.now s → GivesRead result (Ok s) }

    // Which line is refused, and why.
    ensures exact { GivesRead result (reading CPUS input.now first_line bytes.now) }
{
    read_lines(alloc, input, bytes, first_line)
}
