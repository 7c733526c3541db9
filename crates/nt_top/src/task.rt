//! What a form finds to do in the bytes of an input.
ghost use Rattle.std.specs.Prelude.{◌≡◌, ◌+◌, ◌≤◌, Err, IfOk, None, Result, Some, length, true};
ghost use Rattle.nt_script.specs.Gives.{GivesRead};
ghost use Rattle.nt_script.specs.Sound.{IsSound};
ghost use Rattle.nt_script.specs.declared.reading.ScriptRefusal.{ScriptRefusal};
ghost use Rattle.nt_top.specs.declared.task.Tail.{Tail};
ghost use Rattle.nt_top.specs.declared.task.Task.{Task};
ghost use Rattle.nt_words.specs.Forms.{IsTurns, IsWithin, IsWorkers};
ghost use Rattle.nt_top.specs.Tasks.{IsLimit, IsSoundTask, both_parts, last_line, limited};
ghost use Rattle.nt_top.specs.Tasks.{live_task, migrate_task, reads, report_task, run_task};
ghost use Rattle.nt_top.specs.Tasks.{schedule_task, tail_task, tail_word, two_parts, task_of};
ghost use Rattle.nt_top.specs.Tasks.{audit_task, shrink_task, verify_task};

use nt_history::History;
use nt_log::{Schedule, read_schedule, turn_bound};
use nt_report::read_report;
use nt_script::{Input, ScriptKind, ScriptRefusal, Split, migrate, read, split_at};
use nt_text::{INPUT_LIMIT, Lines};
use nt_words::{Form, GoalName};
use std::alloc::Global;

/// What an input asks for, by the form of the words.
#[derive(Drop)]
pub(crate) enum Task {
    /// The script is run by the robin rule, each processor making at most so many events.
    Run {
        input: Input,
        turns: u32,
    },
    /// The script is run on threads, each processor making at most so many events.
    Live {
        input: Input,
        turns: u32,
    },
    /// The turns of the schedule are taken.
    Replay {
        input: Input,
        schedule: Schedule,
    },
    /// The history is checked.
    Check {
        input: Input,
        history: History,
    },
    /// The script is written in the newest version.
    Migrate {
        input: Input,
    },
    /// What is found in the script is written.
    Verify {
        input: Input,
    },
    /// A shorter schedule is written that still delivers the goal.
    Shrink {
        input: Input,
        schedule: Schedule,
        goal: GoalName,
    },
    /// The script is run by the robin rule, each processor making at most so many events, and the
    /// audit of its history is written, which so many workers make.
    Audit {
        input: Input,
        turns: u32,
        workers: u8,
    },
}

/// What stands behind a script.
#[derive(Drop)]
pub(crate) enum Tail {
    /// A schedule.
    Schedule,
    /// A report.
    Report,
    /// A schedule that is to be shrunk for this goal.
    ToShrink(GoalName),
}

impl Tail {
    /// The first field of its first line.
    fn word(&self) -> &'static str
        ensures { result.now ≡ tail_word self.now }
    {
        match self {
            Tail::Schedule => "schedule",
            Tail::Report => "report",
            Tail::ToShrink(_) => "schedule",
        }
    }
}

/// The number of the line behind the last one.
fn last_line(bytes: &[u8]) -> u32
    requires { length bytes.now ≤ INPUT_LIMIT }
    ensures { result ≡ last_line bytes.now }
{
    let mut lines = Lines::new(bytes);
    let mut number = 1;
    while let Some(_) = lines.next() {
        number += 1;
    }
    number
}

/// The turn limit that is asked for, or the greatest one for so many processors where that is less.
fn limited(input: &Input, turns: u32) -> u32
    requires { IsTurns turns }
    ensures value { result ≡ limited input.now turns }
    ensures limit { IsLimit input.now result }
{
    let most = turn_bound(input.script.cpus);
    if turns <= most { turns } else { most }
}

/// A script alone, to be run by the robin rule.
fn to_run(alloc: Global, bytes: &[u8], turns: u32) -> Result<Task, ScriptRefusal>
    requires bytes { length bytes.now ≤ INPUT_LIMIT }
    requires limit { IsTurns turns }
    ensures read { GivesRead result (run_task turns bytes.now) }
    ensures sound { IfOk result IsSoundTask }
{
    let input = read(alloc, bytes)?;
    let turns = limited(&input, turns);
    Ok(Task::Run { input, turns })
}

/// A script alone, to be run on threads.
fn to_live(alloc: Global, bytes: &[u8], turns: u32) -> Result<Task, ScriptRefusal>
    requires bytes { length bytes.now ≤ INPUT_LIMIT }
    requires limit { IsTurns turns }
    ensures read { GivesRead result (live_task turns bytes.now) }
    ensures sound { IfOk result IsSoundTask }
{
    let input = read(alloc, bytes)?;
    let turns = limited(&input, turns);
    Ok(Task::Live { input, turns })
}

/// A script alone, to be written in the newest version.
fn to_migrate(alloc: Global, bytes: &[u8]) -> Result<Task, ScriptRefusal>
    requires bytes { length bytes.now ≤ INPUT_LIMIT }
    ensures read { GivesRead result (migrate_task bytes.now) }
    ensures sound { IfOk result IsSoundTask }
{
    let input = read(alloc, bytes)?;
    Ok(Task::Migrate {
        input: migrate(input),
    })
}

/// A script alone, to be verified.
fn to_verify(alloc: Global, bytes: &[u8]) -> Result<Task, ScriptRefusal>
    requires bytes { length bytes.now ≤ INPUT_LIMIT }
    ensures read { GivesRead result (verify_task bytes.now) }
    ensures sound { IfOk result IsSoundTask }
{
    let input = read(alloc, bytes)?;
    Ok(Task::Verify { input })
}

/// A script alone, to be run and audited.
fn to_audit(alloc: Global, bytes: &[u8], turns: u32, workers: u8) -> Result<Task, ScriptRefusal>
    requires bytes { length bytes.now ≤ INPUT_LIMIT }
    requires limit { IsTurns turns }
    requires workers { IsWorkers workers }
    ensures read { GivesRead result (audit_task turns workers bytes.now) }
    ensures sound { IfOk result IsSoundTask }
{
    let input = read(alloc, bytes)?;
    let turns = limited(&input, turns);
    Ok(Task::Audit {
        input,
        turns,
        workers,
    })
}

/// The schedule behind a script that was read.
fn with_schedule(alloc: Global, input: Input, rest: &[u8], line: u32) -> Result<Task, ScriptRefusal>
    requires sound { IsSound input }
    requires bytes { length rest.now ≤ INPUT_LIMIT }
    requires line { (1 ≤ line) × (line ≤ INPUT_LIMIT + 1) }
    ensures read { GivesRead result (schedule_task input line rest.now) }
    ensures sound { IfOk result IsSoundTask }
{
    match read_schedule(alloc, &input, rest, line) {
        Ok(schedule) => Ok(Task::Replay { input, schedule }),
        Err(refusal) => {
            drop(input);
            Err(refusal)
        }
    }
}

/// The report behind a script that was read.
fn with_report(alloc: Global, input: Input, rest: &[u8], line: u32) -> Result<Task, ScriptRefusal>
    requires sound { IsSound input }
    requires bytes { length rest.now ≤ INPUT_LIMIT }
    requires line { (1 ≤ line) × (line ≤ INPUT_LIMIT + 1) }
    ensures read { GivesRead result (report_task input line rest.now) }
    ensures sound { IfOk result IsSoundTask }
{
    match read_report(alloc, &input, rest, line) {
        Ok(history) => Ok(Task::Check { input, history }),
        Err(refusal) => {
            drop(input);
            Err(refusal)
        }
    }
}

/// The schedule behind a script that was read, which is to be shrunk for this goal.
fn to_shrink(
    alloc: Global,
    goal: GoalName,
    input: Input,
    rest: &[u8],
    line: u32,
) -> Result<Task, ScriptRefusal>
    requires sound { IsSound input }
    requires bytes { length rest.now ≤ INPUT_LIMIT }
    requires line { (1 ≤ line) × (line ≤ INPUT_LIMIT + 1) }
    ensures read { GivesRead result (shrink_task goal input line rest.now) }
    ensures sound { IfOk result IsSoundTask }
{
    match read_schedule(alloc, &input, rest, line) {
        Ok(schedule) => Ok(Task::Shrink {
            input,
            schedule,
            goal,
        }),
        Err(refusal) => {
            drop(input);
            Err(refusal)
        }
    }
}

/// What stands behind a script that was read.
fn with_tail(
    alloc: Global,
    tail: Tail,
    input: Input,
    rest: &[u8],
    line: u32,
) -> Result<Task, ScriptRefusal>
    requires sound { IsSound input }
    requires bytes { length rest.now ≤ INPUT_LIMIT }
    requires line { (1 ≤ line) × (line ≤ INPUT_LIMIT + 1) }
    ensures read { GivesRead result (tail_task tail input line rest.now) }
    ensures sound { IfOk result IsSoundTask }
{
    match tail {
        Tail::Schedule => with_schedule(alloc, input, rest, line),
        Tail::Report => with_report(alloc, input, rest, line),
        Tail::ToShrink(goal) => to_shrink(alloc, goal, input, rest, line),
    }
}

/// A script, and what stands behind it.
fn split_parts(alloc: Global, tail: Tail, bytes: &[u8], split: Split) -> Result<Task, ScriptRefusal>
    requires bytes { length bytes.now ≤ INPUT_LIMIT }
    requires at { split.at ≤ length bytes.now }
    requires line { (1 ≤ split.line) × (split.line ≤ INPUT_LIMIT + 1) }
    ensures read { GivesRead result (two_parts tail (Some (split.at, split.line)) bytes.now) }
    ensures sound { IfOk result IsSoundTask }
{
    let (script, rest) = bytes.split_at(split.at);
    let input = read(alloc, script)?;
    with_tail(alloc, tail, input, rest, split.line)
}

/// A script behind which nothing begins.
fn without_tail(alloc: Global, bytes: &[u8]) -> ScriptRefusal
    requires { length bytes.now ≤ INPUT_LIMIT }
    ensures { (t : Tail) (r : Result Task ScriptRefusal) → r ≡ Err result →
        GivesRead r (two_parts t None bytes.now) }
{
    match read(alloc, bytes) {
        Ok(input) => {
            drop(input);
            ScriptRefusal::Bad {
                line: last_line(bytes),
                kind: ScriptKind::NoEnd,
            }
        }
        Err(refusal) => refusal,
    }
}

/// A script, and behind it what begins with the word.
fn both_parts(alloc: Global, tail: Tail, bytes: &[u8]) -> Result<Task, ScriptRefusal>
    requires { length bytes.now ≤ INPUT_LIMIT }
    ensures read { GivesRead result (both_parts tail bytes.now) }
    ensures sound { IfOk result IsSoundTask }
{
    match split_at(bytes, tail.word()) {
        Some(split) => split_parts(alloc, tail, bytes, split),
        None => Err(without_tail(alloc, bytes)),
    }
}

/// What the form reads in the bytes, or the line that is refused: in a script, then in what stands
/// behind it.
pub(crate) fn task_of(alloc: Global, form: Form, bytes: &[u8]) -> Result<Task, ScriptRefusal>
    requires bytes { length bytes.now ≤ INPUT_LIMIT }
    requires limit { IsWithin form }
    requires reads { reads form ≡ true }
    ensures read { GivesRead result (task_of form bytes.now) }
    ensures sound { IfOk result IsSoundTask }
{
    match form {
        Form::Run { turns } => to_run(alloc, bytes, turns),
        Form::Live { turns } => to_live(alloc, bytes, turns),
        Form::Replay => both_parts(alloc, Tail::Schedule, bytes),
        Form::Check => both_parts(alloc, Tail::Report, bytes),
        Form::Load { .. } => unreachable!(),
        Form::Migrate => to_migrate(alloc, bytes),
        Form::Verify => to_verify(alloc, bytes),
        Form::Shrink { goal } => both_parts(alloc, Tail::ToShrink(goal), bytes),
        Form::Audit { turns, workers } => to_audit(alloc, bytes, turns, workers),
    }
}
