//! What the forms make of a script, and of a report or a schedule.
ghost use Rattle.std.specs.Prelude.{◌≡◌, ◌≤◌, length};
ghost use Rattle.nt_log.specs.Schedules.{turn_bound};
ghost use Rattle.nt_script.specs.Sound.{IsSound};
ghost use Rattle.nt_text.specs.declared.lines.TheConstants.{INPUT_LIMIT};

use crate::changes::{change_of, changed_verdict};
use crate::taking::taken_lines;
use nt_check::{Verdict, check};
use nt_core::{ScheduleRefusal, replay, run};
use nt_event::ScheduleKind;
use nt_event::limits::TURNS;
use nt_log::{Schedule, read_schedule};
use nt_print::report;
use nt_report::read_report;
use nt_script::{Input, split_at};
use nt_text::INPUT_LIMIT;
use std::alloc::{AllocError, Global};

/// What becomes of a case.
#[derive(Drop)]
pub(crate) enum Outcome {
    /// The report of the history that was made.
    Report(Vec<u8>),
    /// Whether the first event is that of the run, and the report of the run.
    Steps(Vec<u8>),
    /// The events, field by field, whether their turns replay them, and the verdict.
    Events(Vec<u8>),
    /// What became of each turn, and the report of the history.
    Taken(Vec<u8>),
    /// The verdict on a history.
    Checked(Verdict),
    /// The turns make a settled run.
    Settled,
    /// The turns make none: the turn at this place is refused.
    Refused { at: u32, kind: ScheduleKind },
    /// The report or the schedule has no reading, or its turns have no history.
    NoHistory,
    /// The words are no case.
    NoCase,
}

/// The script is run by the robin rule.
pub(crate) fn ran(alloc: Global, input: &Input, limit: u32) -> Result<Outcome, AllocError>
    requires sound { IsSound input.now }
    requires most { input.now.script.cpus ≤ 8 }
    requires some { 1 ≤ limit }
    requires few { limit ≤ TURNS }
{
    let history = run(alloc, &input.script, limit)?;
    let text = report(alloc, input, &history);
    drop(history);
    Ok(Outcome::Report(text?))
}

/// The history of the run is changed as the words say, and checked.
pub(crate) fn changed(
    alloc: Global,
    input: &Input,
    limit: u32,
    words: &str,
) -> Result<Outcome, AllocError>
    requires sound { IsSound input.now }
    requires most { input.now.script.cpus ≤ 8 }
    requires some { 1 ≤ limit }
    requires few { limit ≤ TURNS }
{
    match change_of(words) {
        Some(change) => Ok(Outcome::Checked(changed_verdict(alloc, input, limit, change)?)),
        None => Ok(Outcome::NoCase),
    }
}

/// The turns of a schedule are taken.
fn taken(alloc: Global, input: &Input, schedule: &Schedule) -> Result<Outcome, AllocError>
    requires sound { IsSound input.now }
    requires turns { (1 ≤ schedule.now.turns) ×
        (schedule.now.turns ≤ turn_bound input.now.script.cpus) }
{
    match replay(alloc, &input.script, schedule.turns, &schedule.list) {
        Ok(history) => {
            let text = report(alloc, input, &history);
            drop(history);
            Ok(Outcome::Report(text?))
        }
        Err(ScheduleRefusal::Bad { .. }) => Ok(Outcome::NoHistory),
        Err(ScheduleRefusal::NoMemory) => Err(AllocError),
    }
}

/// The turns of the report's schedule are taken.
pub(crate) fn replayed(alloc: Global, input: &Input, text: &[u8]) -> Result<Outcome, AllocError>
    requires sound { IsSound input.now }
    requires bytes { length text.now ≤ INPUT_LIMIT }
{
    let Some(split) = split_at(text, "schedule") else {
        return Ok(Outcome::NoHistory);
    };
    let (_, rest) = text.split_at(split.at);
    match read_schedule(alloc, input, rest, 1) {
        Ok(schedule) => {
            let outcome = taken(alloc, input, &schedule);
            drop(schedule);
            outcome
        }
        Err(_) => Ok(Outcome::NoHistory),
    }
}

/// The history of the report is checked.
pub(crate) fn checked(alloc: Global, input: &Input, text: &[u8]) -> Result<Outcome, AllocError>
    requires sound { IsSound input.now }
    requires bytes { length text.now ≤ INPUT_LIMIT }
{
    match read_report(alloc, input, text, 1) {
        Ok(history) => {
            let verdict = check(alloc, &input.script, &history);
            drop(history);
            Ok(Outcome::Checked(verdict?))
        }
        Err(_) => Ok(Outcome::NoHistory),
    }
}

/// Whether the turns of a schedule make a settled run, or why they don't.
fn settled(alloc: Global, input: &Input, schedule: &Schedule) -> Result<Outcome, AllocError>
    requires sound { IsSound input.now }
    requires turns { (1 ≤ schedule.now.turns) ×
        (schedule.now.turns ≤ turn_bound input.now.script.cpus) }
{
    match replay(alloc, &input.script, schedule.turns, &schedule.list) {
        Ok(history) => {
            drop(history);
            Ok(Outcome::Settled)
        }
        Err(ScheduleRefusal::Bad { at, kind }) => Ok(Outcome::Refused { at, kind }),
        Err(ScheduleRefusal::NoMemory) => Err(AllocError),
    }
}

/// The turns of the schedule are taken, and it is said why they make no run.
pub(crate) fn scheduled(alloc: Global, input: &Input, text: &[u8]) -> Result<Outcome, AllocError>
    requires sound { IsSound input.now }
    requires bytes { length text.now ≤ INPUT_LIMIT }
{
    match read_schedule(alloc, input, text, 1) {
        Ok(schedule) => {
            let outcome = settled(alloc, input, &schedule);
            drop(schedule);
            outcome
        }
        Err(_) => Ok(Outcome::NoHistory),
    }
}

/// A machine takes the turns of a schedule one by one.
fn in_turn(alloc: Global, input: &Input, schedule: &Schedule) -> Result<Outcome, AllocError>
    requires sound { IsSound input.now }
    requires most { input.now.script.cpus ≤ 8 }
    requires turns { 1 ≤ schedule.now.turns }
{
    if schedule.turns > TURNS {
        return Ok(Outcome::NoHistory);
    }
    let lines = taken_lines(alloc, input, schedule.turns, &schedule.list)?;
    Ok(Outcome::Taken(lines))
}

/// A machine takes the turns of the schedule one by one.
pub(crate) fn taken_in_turn(
    alloc: Global,
    input: &Input,
    text: &[u8],
) -> Result<Outcome, AllocError>
    requires sound { IsSound input.now }
    requires most { input.now.script.cpus ≤ 8 }
    requires bytes { length text.now ≤ INPUT_LIMIT }
{
    match read_schedule(alloc, input, text, 1) {
        Ok(schedule) => {
            let outcome = in_turn(alloc, input, &schedule);
            drop(schedule);
            outcome
        }
        Err(_) => Ok(Outcome::NoHistory),
    }
}
