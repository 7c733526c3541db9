//! What the layer of texts makes of a table: scripts, schedules and reports, verdicts on reports,
//! command lines, loads, and expectations.
//!
//! A line of the input that begins with `== ` is a heading and is written again: it says what the
//! cases below it are. Each other line is a case, for which one line is written. What is wanted is
//! in `stdout`: it comes from outside this program.
//!
//! What a case reads is let go by a call of `drop`: that is proved far sooner than a function at
//! whose end all parts of a script go.
#![tactic(auto)]

mod expectations;
mod loads;
mod reports;
mod scripts;
mod verdicts;
mod words;

use std::io;

/// What the cases below a heading are.
#[derive(Clone, Copy)]
enum Part {
    /// Texts that are read and printed again, or asked.
    Texts,
    /// Reports whose histories are checked.
    Verdicts,
    /// Lists of words of a command line.
    Words,
    /// Seeds of loads.
    Loads,
    /// Lines of expectations.
    Expectations,
}

/// The part that a heading begins, if the line is one.
fn heading(line: &str) -> Option<Part> {
    match line {
        "== texts" => Some(Part::Texts),
        "== verdicts" => Some(Part::Verdicts),
        "== words" => Some(Part::Words),
        "== loads" => Some(Part::Loads),
        "== expectations" => Some(Part::Expectations),
        _ => None,
    }
}

/// A case of this part. The row is the last script with its report.
fn put_case(rt: &HostRuntime, part: Part, row: &mut String, entry: &str) -> io::Result<()> {
    match part {
        Part::Texts => scripts::put_case(rt, entry),
        Part::Verdicts => verdicts::put_case(rt, row, entry),
        Part::Words => words::put_case(rt, entry),
        Part::Loads => loads::put_case(rt, entry),
        Part::Expectations => expectations::put_case(rt, entry),
    }
}

/// A line of the input, which is a heading or a case of the part.
fn put_line(rt: &HostRuntime, part: &mut Part, row: &mut String, entry: &str) -> io::Result<()> {
    match heading(entry) {
        Some(next) => {
            *part = next;
            println!(rt; "{entry}")
        }
        None => put_case(rt, *part, row, entry),
    }
}

/// All lines of the input.
fn put_lines(rt: &HostRuntime, row: &mut String) -> io::Result<()> {
    let mut part = Part::Texts;
    for line in rt.lines(rt.alloc()) {
        let entry = line?;
        put_line(rt, &mut part, row, entry.as_str())?;
    }
    Ok(())
}

fn main(rt: HostRuntime) -> io::Result<()> {
    let mut row = String::new(rt.alloc());
    put_lines(&rt, &mut row)
}
