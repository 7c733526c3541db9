//! Cases of reports.
ghost use Rattle.std.specs.Prelude.{◌≡◌, ◌≤◌, length, true};
ghost use Rattle.nt_event.specs.Fitting.{events_fit};
ghost use Rattle.nt_text.specs.declared.lines.TheConstants.{INPUT_LIMIT};
ghost use Rattle.nt_script.specs.Sound.{IsSound};

use crate::scripts::{Outcome, put_outcome, same_or_not, text_of};
use nt_history::History;
use nt_print::{report, summary};
use nt_report::read_report;
use nt_script::{Input, read};
use nt_text::INPUT_LIMIT;
use std::alloc::{AllocError, Global};
use std::io;

/// What a report is, printed again.
fn printed_again(
    alloc: Global,
    input: &Input,
    history: &History,
    text: &[u8],
) -> Result<Outcome, AllocError>
    requires sound { IsSound input.now }
    requires fit { events_fit input.now.script history.now.events ≡ true }
{
    let printed = report(alloc, input, history)?;
    Ok(same_or_not(printed.as_slice(), text))
}

/// What a report for the input's script is, whose first line has this number.
fn report_again(
    alloc: Global,
    input: &Input,
    text: &[u8],
    first_line: u32,
) -> Result<Outcome, AllocError>
    requires { IsSound input.now }
{
    if text.len() > INPUT_LIMIT || first_line == 0 || first_line as usize > INPUT_LIMIT {
        return Ok(Outcome::Differs);
    }
    match read_report(alloc, input, text, first_line) {
        Ok(history) => {
            let outcome = printed_again(alloc, input, &history, text);
            drop(history);
            outcome
        }
        Err(refusal) => Ok(Outcome::Refused(refusal)),
    }
}

/// What a report is for the input's script, whose first line has this number.
fn put_report(rt: &HostRuntime, input: &Input, text: &[u8], first_line: u32) -> io::Result<()>
    requires { IsSound input.now }
{
    put_outcome(rt, report_again(rt.alloc(), input, text, first_line)?)
}

/// What the report of a case is, for this script.
fn report_case(rt: &HostRuntime, first_line: u32, script: &[u8], text: &[u8]) -> io::Result<()> {
    if script.len() > INPUT_LIMIT {
        return println!(rt; "too long");
    }
    match read(rt.alloc(), script) {
        Ok(input) => {
            let written = put_report(rt, &input, text, first_line);
            drop(input);
            written
        }
        Err(_) => println!(rt; "no script"),
    }
}

/// A script of the table, and a report for it whose first line has this number.
pub(crate) fn report_entry(rt: &HostRuntime, number: &str, entry: &str) -> io::Result<()> {
    let (Ok(first_line), Some((script, text))) = (number.parse::<u32>(), entry.split_once('|'))
    else {
        return println!(rt; "no case");
    };
    let script = text_of(rt.alloc(), script.as_bytes())?;
    report_for_script(rt, first_line, script.as_slice(), text)
}

/// A report of the table for this script.
fn report_for_script(
    rt: &HostRuntime,
    first_line: u32,
    script: &[u8],
    text: &str,
) -> io::Result<()> {
    let text = text_of(rt.alloc(), text.as_bytes())?;
    report_case(rt, first_line, script, text.as_slice())
}

/// The summary of the report's history, if the report is read.
fn summary_of(alloc: Global, input: &Input, text: &[u8]) -> Result<Option<Vec<u8>>, AllocError>
    requires sound { IsSound input.now }
    requires bytes { length text.now ≤ INPUT_LIMIT }
{
    match read_report(alloc, input, text, 1) {
        Ok(history) => {
            let lines = summary(alloc, &input.script, &history);
            drop(history);
            Ok(Some(lines?))
        }
        Err(_) => Ok(None),
    }
}

/// The lines of a summary in one line.
fn put_summary(rt: &HostRuntime, lines: &[u8]) -> io::Result<()> {
    for line in lines.split(|byte| *byte == b'\n') {
        match str::from_utf8(line) {
            Ok(line) => print!(rt; "{line}/")?,
            Err(_) => print!(rt; "?")?,
        }
    }
    println!(rt; "")
}

/// The summary of a report for this script.
fn put_summary_of(rt: &HostRuntime, input: &Input, text: &[u8]) -> io::Result<()>
    requires sound { IsSound input.now }
    requires bytes { length text.now ≤ INPUT_LIMIT }
{
    match summary_of(rt.alloc(), input, text)? {
        Some(lines) => put_summary(rt, lines.as_slice()),
        None => println!(rt; "refused"),
    }
}

fn summary_case(rt: &HostRuntime, script: &[u8], text: &[u8]) -> io::Result<()> {
    if script.len() > INPUT_LIMIT || text.len() > INPUT_LIMIT {
        return println!(rt; "too long");
    }
    match read(rt.alloc(), script) {
        Ok(input) => {
            let written = put_summary_of(rt, &input, text);
            drop(input);
            written
        }
        Err(_) => println!(rt; "no script"),
    }
}

/// A script of the table, and a report for it that is summed up.
pub(crate) fn summary_entry(rt: &HostRuntime, entry: &str) -> io::Result<()> {
    let Some((script, text)) = entry.split_once('|') else {
        return println!(rt; "no case");
    };
    let script = text_of(rt.alloc(), script.as_bytes())?;
    summary_for_script(rt, script.as_slice(), text)
}

/// A report of the table for this script, to be summed up.
fn summary_for_script(rt: &HostRuntime, script: &[u8], text: &str) -> io::Result<()> {
    let text = text_of(rt.alloc(), text.as_bytes())?;
    summary_case(rt, script, text.as_slice())
}
