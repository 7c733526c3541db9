//! Cases of verdicts on reports. A line with `|` in it is a script and its report, in which `/` is
//! the end of a line. Each line after it is one of that report's event lines with one field
//! changed: it replaces the line of the same number. What is written is the verdict on the history
//! of each report, as `ntrun check` gives it.
//!
//! After the same events a turn gives one event at most, so an event that differs from it in
//! another field than its turn's is illegal, and it is the first one, at its own number.
ghost use Rattle.std.specs.Prelude.{◌≤◌, length};
ghost use Rattle.nt_script.specs.Sound.{IsSound};
ghost use Rattle.nt_text.specs.declared.lines.TheConstants.{INPUT_LIMIT};

use nt_check::{Verdict, check};
use nt_report::read_report;
use nt_script::{Input, read};
use nt_text::INPUT_LIMIT;
use std::alloc::{AllocError, Global};
use std::io;

/// What comes of a script and a report.
#[derive(Clone, Copy)]
enum Answer {
    /// The verdict on the history of the report.
    Checked(Verdict),
    /// The script or the report has no reading.
    NoReading,
}

/// Adds a line, unless it is empty.
fn put_line(text: &mut String, line: &str) -> Result<(), AllocError> {
    if line.is_empty() {
        return Ok(());
    }
    text.push_str(line)?;
    text.push('\n')
}

/// Whether both are lines of the event of one number.
fn are_one_event(line: &str, other: &str) -> bool {
    match (line.split_once(" p"), other.split_once(" p")) {
        (Some((number, _)), Some((same, _))) => number == same,
        _ => false,
    }
}

/// The text of a row, in which this line takes the place of that of the same event.
fn changed(alloc: Global, row: &str, change: &str) -> Result<String, AllocError> {
    let mut text = String::new(alloc);
    for line in row.split('/') {
        let chosen = if are_one_event(line, change) {
            change
        } else {
            line
        };
        put_line(&mut text, chosen)?;
    }
    Ok(text)
}

/// The verdict on the history of a report.
fn verdict(alloc: Global, input: &Input, report: &[u8]) -> Result<Answer, AllocError>
    requires sound { IsSound input.now }
    requires bytes { length report.now ≤ INPUT_LIMIT }
{
    match read_report(alloc, input, report, 1) {
        Ok(history) => {
            let verdict = check(alloc, &input.script, &history);
            drop(history);
            Ok(Answer::Checked(verdict?))
        }
        Err(_) => Ok(Answer::NoReading),
    }
}

/// What comes of a script and a report, by their texts.
fn text_answer(alloc: Global, script: &[u8], report: &[u8]) -> Result<Answer, AllocError> {
    if script.len() > INPUT_LIMIT || report.len() > INPUT_LIMIT {
        return Ok(Answer::NoReading);
    }
    match read(alloc, script) {
        Ok(input) => {
            let answer = verdict(alloc, &input, report);
            drop(input);
            answer
        }
        Err(_) => Ok(Answer::NoReading),
    }
}

/// What comes of the row of a script and its report, after a change.
fn row_answer(alloc: Global, row: &str, change: &str) -> Result<Answer, AllocError> {
    let (script, report) = row.split_once('|').unwrap_or(("", ""));
    let script = changed(alloc, script, "")?;
    let report = changed(alloc, report, change)?;
    text_answer(alloc, script.as_bytes(), report.as_bytes())
}

fn put_answer(rt: &HostRuntime, answer: Answer) -> io::Result<()> {
    match answer {
        Answer::Checked(Verdict::Legal) => println!(rt; "legal"),
        Answer::Checked(Verdict::IllegalAt(number)) => println!(rt; "illegal at {number}"),
        Answer::NoReading => println!(rt; "no reading"),
    }
}

/// A line of the table, after this row.
fn put_change(rt: &HostRuntime, row: &str, entry: &str) -> io::Result<()> {
    let change = if entry == row { "" } else { entry };
    put_answer(rt, row_answer(rt.alloc(), row, change)?)
}

/// A line of the table. One with `|` in it becomes the row.
pub(crate) fn put_case(rt: &HostRuntime, row: &mut String, entry: &str) -> io::Result<()> {
    if entry.contains('|') {
        row.clear();
        row.push_str(entry)?;
    }
    put_change(rt, row.as_str(), entry)
}
