//! Cases of scripts and schedules: they are read and printed again. In a case `/` is the end of a
//! line, `~` a tab, `^` byte 127, and a back quote byte 13.
//!
//! A line is a script, which has to be printed as the same bytes; or `?schedule N|SCRIPT|SCHEDULE`,
//! the same of a schedule for that script, whose first line has the number N; or
//! `?turns N|SCRIPT|LINE|REST`, the same of the schedule of the line `schedule 1`, N times LINE,
//! and REST; or `?report N|SCRIPT|REPORT`, the same of a report; or `?summary|SCRIPT|REPORT`, the
//! summary of the report's history; or `?find NAME|SCRIPT`, what the name names in the script; or
//! `?split WORD|TEXT`, where the first line begins whose first field is the word.
ghost use Rattle.std.specs.Prelude.{◌≡◌, true};
ghost use Rattle.nt_log.specs.Schedules.{turns_fit};
ghost use Rattle.nt_script.specs.Sound.{IsSound};

use crate::reports::{report_entry, summary_entry};
use nt_log::{Schedule, print_schedule, read_schedule};
use nt_script::{Input, Named, Names, ScriptKind, ScriptRefusal, print, read, split_at};
use nt_text::INPUT_LIMIT;
use std::alloc::{AllocError, Global};
use std::io;

/// The byte that a byte of the table is.
fn byte_of(byte: u8) -> u8 {
    match byte {
        b'/' => b'\n',
        b'~' => b'\t',
        b'^' => 127,
        b'`' => b'\r',
        other => other,
    }
}

/// The bytes of a text of the table.
pub(crate) fn text_of(alloc: Global, entry: &[u8]) -> Result<Vec<u8>, AllocError> {
    let mut text = Vec::new(alloc);
    for byte in entry {
        text.push(byte_of(*byte))?;
    }
    Ok(text)
}

/// What became of a script, a schedule or a report.
pub(crate) enum Outcome {
    /// It is read, and printed as the same bytes.
    Same,
    /// It is printed as other bytes.
    Differs,
    /// It is refused, or no memory is left.
    Refused(ScriptRefusal),
}

/// Whether what was printed is the same as the text.
pub(crate) fn same_or_not(printed: &[u8], text: &[u8]) -> Outcome {
    if printed == text {
        Outcome::Same
    } else {
        Outcome::Differs
    }
}

/// What a script is, printed again.
fn printed_again(alloc: Global, input: &Input, text: &[u8]) -> Result<Outcome, AllocError>
    requires { IsSound input.now }
{
    let printed = print(alloc, input)?;
    Ok(same_or_not(printed.as_slice(), text))
}

fn read_again(alloc: Global, text: &[u8]) -> Result<Outcome, AllocError> {
    if text.len() > INPUT_LIMIT {
        return Ok(Outcome::Differs);
    }
    match read(alloc, text) {
        Ok(input) => {
            let outcome = printed_again(alloc, &input, text);
            drop(input);
            outcome
        }
        Err(refusal) => Ok(Outcome::Refused(refusal)),
    }
}

/// What a schedule is, printed again.
fn schedule_printed_again(
    alloc: Global,
    input: &Input,
    schedule: &Schedule,
    text: &[u8],
) -> Result<Outcome, AllocError>
    requires sound { IsSound input.now }
    requires fit { turns_fit input.now.script schedule.now.list ≡ true }
{
    let printed = print_schedule(alloc, input, schedule)?;
    Ok(same_or_not(printed.as_slice(), text))
}

/// What a schedule for the input's script is, whose first line has this number.
fn schedule_again(
    alloc: Global,
    input: &Input,
    text: &[u8],
    first_line: u32,
) -> Result<Outcome, AllocError>
    requires { IsSound input.now }
{
    if text.len() > INPUT_LIMIT || first_line == 0 || first_line as usize > INPUT_LIMIT {
        return Ok(Outcome::Differs);
    }
    match read_schedule(alloc, input, text, first_line) {
        Ok(schedule) => {
            let outcome = schedule_printed_again(alloc, input, &schedule, text);
            drop(schedule);
            outcome
        }
        Err(refusal) => Ok(Outcome::Refused(refusal)),
    }
}

pub(crate) fn put_outcome(rt: &HostRuntime, outcome: Outcome) -> io::Result<()> {
    match outcome {
        Outcome::Same => println!(rt; "read"),
        Outcome::Differs => println!(rt; "differs"),
        Outcome::Refused(ScriptRefusal::NoMemory) => println!(rt; "no memory"),
        Outcome::Refused(ScriptRefusal::Bad { line, kind }) => put_refusal(rt, line, kind),
    }
}

/// Why a line is refused.
fn put_refusal(rt: &HostRuntime, line: u32, kind: ScriptKind) -> io::Result<()> {
    print!(rt; "script line {line}: {} {}", kind.number(), kind.name())?;
    match kind {
        ScriptKind::TooMany(what) => println!(rt; " {}", what.name()),
        _ => println!(rt; ""),
    }
}

/// What a script of the table is.
fn script_case(rt: &HostRuntime, text: &[u8]) -> io::Result<()> {
    put_outcome(rt, read_again(rt.alloc(), text)?)
}

/// What a schedule is for the input's script, whose first line has this number.
fn put_schedule(rt: &HostRuntime, input: &Input, schedule: &[u8], first_line: u32) -> io::Result<()>
    requires { IsSound input.now }
{
    put_outcome(rt, schedule_again(rt.alloc(), input, schedule, first_line)?)
}

/// What a schedule of the table is: the number of its first line, the script, and the schedule.
fn schedule_case(rt: &HostRuntime, number: &str, script: &[u8], schedule: &[u8]) -> io::Result<()> {
    let Ok(first_line) = number.parse::<u32>() else {
        return println!(rt; "no case");
    };
    if script.len() > INPUT_LIMIT {
        return println!(rt; "too long");
    }
    match read(rt.alloc(), script) {
        Ok(input) => {
            let written = put_schedule(rt, &input, schedule, first_line);
            drop(input);
            written
        }
        Err(_) => println!(rt; "no script"),
    }
}

/// A script of the table, and a schedule for it.
fn schedule_entry(rt: &HostRuntime, number: &str, entry: &str) -> io::Result<()> {
    let Some((script, schedule)) = entry.split_once('|') else {
        return println!(rt; "no case");
    };
    let script = text_of(rt.alloc(), script.as_bytes())?;
    schedule_for_script(rt, number, script.as_slice(), schedule)
}

/// A schedule of the table for this script.
fn schedule_for_script(
    rt: &HostRuntime,
    number: &str,
    script: &[u8],
    schedule: &str,
) -> io::Result<()> {
    let schedule = text_of(rt.alloc(), schedule.as_bytes())?;
    schedule_case(rt, number, script, schedule.as_slice())
}

/// Puts a line after the text, so often.
fn put_lines(text: &mut Vec<u8>, count: u32, line: &[u8]) -> Result<(), AllocError> {
    for _ in 0..count {
        text.extend_from_slice(line)?;
    }
    Ok(())
}

/// Puts a schedule of so many equal lines after the first, and the rest.
fn put_turns(text: &mut Vec<u8>, count: u32, line: &[u8], rest: &[u8]) -> Result<(), AllocError> {
    text.extend_from_slice(b"schedule 1\n")?;
    put_lines(text, count, line)?;
    text.extend_from_slice(rest)
}

/// The schedule of a line of the table, so often, and of the rest.
fn turns_text(alloc: Global, count: u32, line: &str, rest: &str) -> Result<Vec<u8>, AllocError> {
    let line = text_of(alloc, line.as_bytes())?;
    turns_of_line(alloc, count, line.as_slice(), rest)
}

/// The schedule of a line, so often, and of the rest.
fn turns_of_line(
    alloc: Global,
    count: u32,
    line: &[u8],
    rest: &str,
) -> Result<Vec<u8>, AllocError> {
    let rest = text_of(alloc, rest.as_bytes())?;
    let mut text = Vec::new(alloc);
    put_turns(&mut text, count, line, rest.as_slice())?;
    Ok(text)
}

/// A script of the table, and a schedule of equal lines for it.
fn turns_entry(rt: &HostRuntime, number: &str, entry: &str) -> io::Result<()> {
    let (Ok(count), Some((script, lines))) = (number.parse::<u32>(), entry.split_once('|')) else {
        return println!(rt; "no case");
    };
    let Some((line, rest)) = lines.split_once('|') else {
        return println!(rt; "no case");
    };
    let schedule = turns_text(rt.alloc(), count, line, rest)?;
    turns_of_script(rt, script, schedule.as_slice())
}

/// A script of the table, and this schedule for it.
fn turns_of_script(rt: &HostRuntime, script: &str, schedule: &[u8]) -> io::Result<()> {
    let script = text_of(rt.alloc(), script.as_bytes())?;
    schedule_case(rt, "1", script.as_slice(), schedule)
}

/// What a name names.
fn put_named(rt: &HostRuntime, names: &Names, name: &str) -> io::Result<()> {
    match names.find(name) {
        Some(Named::Dpc(d)) => println!(rt; "dpc {}", d.0),
        Some(Named::Timer(t)) => println!(rt; "timer {}", t.0),
        Some(Named::Thread(t)) => println!(rt; "thread {}", t.0),
        Some(Named::Apc(a)) => println!(rt; "apc {}", a.0),
        Some(Named::Lock(l)) => println!(rt; "lock {}", l.0),
        Some(Named::Routine(r)) => println!(rt; "routine {}", r.0),
        None => println!(rt; "none"),
    }
}

fn find_case(rt: &HostRuntime, name: &str, text: &[u8]) -> io::Result<()> {
    if text.len() > INPUT_LIMIT {
        return println!(rt; "too long");
    }
    match read(rt.alloc(), text) {
        Ok(input) => {
            let written = put_named(rt, &input.names, name);
            drop(input);
            written
        }
        Err(_) => println!(rt; "no script"),
    }
}

fn split_case(rt: &HostRuntime, word: &str, text: &[u8]) -> io::Result<()> {
    if text.len() > INPUT_LIMIT {
        return println!(rt; "too long");
    }
    match split_at(text, word) {
        Some(split) => println!(rt; "at {} line {}", split.at, split.line),
        None => println!(rt; "none"),
    }
}

/// What a name names in a script, or where its first line with a word begins.
fn text_case(rt: &HostRuntime, what: &str, text: &[u8]) -> io::Result<()> {
    match what.split_once(' ') {
        Some(("find", name)) => find_case(rt, name, text),
        Some(("split", word)) => split_case(rt, word, text),
        _ => println!(rt; "no case"),
    }
}

fn text_entry(rt: &HostRuntime, what: &str, entry: &str) -> io::Result<()> {
    let text = text_of(rt.alloc(), entry.as_bytes())?;
    text_case(rt, what, text.as_slice())
}

/// A case of the table after its `?`.
fn other_case(rt: &HostRuntime, case: &str) -> io::Result<()> {
    let Some((what, entry)) = case.split_once('|') else {
        return println!(rt; "no case");
    };
    match what.split_once(' ') {
        Some(("schedule", number)) => schedule_entry(rt, number, entry),
        Some(("turns", number)) => turns_entry(rt, number, entry),
        Some(("report", number)) => report_entry(rt, number, entry),
        Some(_) => text_entry(rt, what, entry),
        None => only_summary(rt, what, entry),
    }
}

/// A case of one word.
fn only_summary(rt: &HostRuntime, what: &str, entry: &str) -> io::Result<()> {
    if what == "summary" {
        summary_entry(rt, entry)
    } else {
        println!(rt; "no case")
    }
}

/// A script of the table.
fn script_entry(rt: &HostRuntime, entry: &str) -> io::Result<()> {
    let text = text_of(rt.alloc(), entry.as_bytes())?;
    script_case(rt, text.as_slice())
}

/// A line of the table that is a text.
pub(crate) fn put_case(rt: &HostRuntime, entry: &str) -> io::Result<()> {
    match entry.strip_prefix('?') {
        Some(case) => other_case(rt, case),
        None => script_entry(rt, entry),
    }
}
