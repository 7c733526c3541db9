//! What the pure machine makes of scripts, one case a line: the word of a form, a turn limit if it
//! is not the usual one, and the name of a script. The scripts are files of `data/`, `NAME.script`.
//! A second name is that of the form's other file, if it is not the script's name.
//!
//! With `run` the script is run by the robin rule; with `replay` the turns of the report's schedule
//! are taken; with `take` a machine takes the turns of `NAME.schedule` one by one; with `step` the
//! first processor makes its first event by itself; with `events` the run is written field by
//! field, replayed and checked. The text is compared with a file (`NAME.report`, `.taken`,
//! `.steps`, `.events`), and what is written is whether they are the same, or how many lines at the
//! front are equal. With `check` it is the verdict on the history of the report; with `change` the
//! one on the run's history with a change; with `schedule` why the turns of `NAME.schedule` make no
//! settled run. What is wanted is in those files and in `stdout`: examples that were worked out by
//! hand.
//!
//! What a case makes is let go by a call of `drop`: that is proved far sooner than a function at
//! whose end all parts of a script or a history go.
#![tactic(auto)]

ghost use Rattle.std.specs.Prelude.{◌≤◌, length};
ghost use Rattle.nt_script.specs.Sound.{IsSound};
ghost use Rattle.nt_text.specs.declared.lines.TheConstants.{INPUT_LIMIT};

mod cases;
mod changes;
mod events;
mod forms;
mod stepping;
mod taking;

use crate::cases::{Case, FileForm, Form, ScriptForm, case_of};
use crate::events::events_text;
use crate::forms::{Outcome, changed, checked, ran, replayed, scheduled, taken_in_turn};
use crate::stepping::stepped;
use nt_check::Verdict;
use nt_event::ScheduleKind;
use nt_script::{Input, read};
use nt_text::INPUT_LIMIT;
use std::alloc::{AllocError, Global};
use std::{fs, io};

/// What a form makes of the case's script.
fn of_script(
    alloc: Global,
    form: ScriptForm,
    case: &Case<'_>,
    input: &Input,
) -> Result<Outcome, AllocError>
    requires sound { IsSound input.now }
    requires most { input.now.script.cpus ≤ 8 }
{
    match form {
        ScriptForm::Run => ran(alloc, input, case.limit),
        ScriptForm::Step => Ok(Outcome::Steps(stepped(alloc, input, case.limit)?)),
        ScriptForm::Events => Ok(Outcome::Events(events_text(alloc, input, case.limit)?)),
        ScriptForm::Change => changed(alloc, input, case.limit, case.rest),
    }
}

/// What a form makes of a script and a file.
fn of_file(
    alloc: Global,
    form: FileForm,
    input: &Input,
    given: &[u8],
) -> Result<Outcome, AllocError>
    requires sound { IsSound input.now }
    requires most { input.now.script.cpus ≤ 8 }
    requires bytes { length given.now ≤ INPUT_LIMIT }
{
    match form {
        FileForm::Replay => replayed(alloc, input, given),
        FileForm::Check => checked(alloc, input, given),
        FileForm::Schedule => scheduled(alloc, input, given),
        FileForm::Take => taken_in_turn(alloc, input, given),
    }
}

/// The ending of the file that the form takes.
fn ending(form: FileForm) -> &'static str {
    match form {
        FileForm::Replay | FileForm::Check => "report",
        FileForm::Schedule | FileForm::Take => "schedule",
    }
}

/// The bytes of a file with this name and ending.
fn file(rt: &HostRuntime, name: &str, ending: &str) -> io::Result<Vec<u8>> {
    let path = format!(in rt.alloc(); "{name}.{ending}")?;
    fs::read(rt, path.as_str())
}

/// How many lines at the front of the two texts are the same.
fn equal_lines(text: &[u8], wanted: &[u8]) -> usize {
    text.iter()
        .zip(wanted.iter())
        .take_while(|(byte, other)| **byte == **other)
        .filter(|(byte, _)| **byte == b'\n')
        .count()
}

/// Whether a text is the one that is wanted.
fn put_same(rt: &HostRuntime, text: &[u8], wanted: &[u8]) -> io::Result<()> {
    if text == wanted {
        return println!(rt; "the same");
    }
    println!(rt; "differs behind {} lines", equal_lines(text, wanted))
}

/// Whether a text is that of a file.
fn put_compared(rt: &HostRuntime, text: &[u8], name: &str, ending: &str) -> io::Result<()> {
    let wanted = file(rt, name, ending)?;
    put_same(rt, text, wanted.as_slice())
}

fn put_refusal(rt: &HostRuntime, at: u32, kind: ScheduleKind) -> io::Result<()> {
    println!(rt; "schedule turn {at}: {} {}", kind.number(), kind.name())
}

fn put_verdict(rt: &HostRuntime, verdict: Verdict) -> io::Result<()> {
    match verdict {
        Verdict::Legal => println!(rt; "legal"),
        Verdict::IllegalAt(number) => println!(rt; "illegal at {number}"),
    }
}

/// What becomes of a case. The file of this name has the text that is wanted.
fn put_outcome(rt: &HostRuntime, outcome: &Outcome, name: &str) -> io::Result<()> {
    match outcome {
        Outcome::Report(text) => put_compared(rt, text.as_slice(), name, "report"),
        Outcome::Steps(text) => put_compared(rt, text.as_slice(), name, "steps"),
        Outcome::Events(text) => put_compared(rt, text.as_slice(), name, "events"),
        Outcome::Taken(text) => put_compared(rt, text.as_slice(), name, "taken"),
        Outcome::Checked(verdict) => put_verdict(rt, *verdict),
        Outcome::Settled => println!(rt; "a settled run"),
        Outcome::Refused { at, kind } => put_refusal(rt, *at, *kind),
        Outcome::NoHistory => println!(rt; "no history"),
        Outcome::NoCase => println!(rt; "no case"),
    }
}

/// A case that takes a script alone.
fn put_script(rt: &HostRuntime, form: ScriptForm, case: &Case<'_>, input: &Input) -> io::Result<()>
    requires sound { IsSound input.now }
    requires most { input.now.script.cpus ≤ 8 }
{
    let outcome = of_script(rt.alloc(), form, case, input)?;
    let written = put_outcome(rt, &outcome, case.rest);
    drop(outcome);
    written
}

/// A case that takes a file with these bytes too.
fn put_given(
    rt: &HostRuntime,
    form: FileForm,
    name: &str,
    input: &Input,
    given: &[u8],
) -> io::Result<()>
    requires sound { IsSound input.now }
    requires most { input.now.script.cpus ≤ 8 }
{
    if given.len() > INPUT_LIMIT {
        return println!(rt; "too long");
    }
    let outcome = of_file(rt.alloc(), form, input, given)?;
    let written = put_outcome(rt, &outcome, name);
    drop(outcome);
    written
}

/// A case that takes a file of this name too.
fn put_file(rt: &HostRuntime, form: FileForm, name: &str, input: &Input) -> io::Result<()>
    requires sound { IsSound input.now }
    requires most { input.now.script.cpus ≤ 8 }
{
    let given = file(rt, name, ending(form))?;
    put_given(rt, form, name, input, given.as_slice())
}

/// A case whose script was read. The table's scripts have at most 8 processors.
fn put_read(rt: &HostRuntime, case: &Case<'_>, input: &Input) -> io::Result<()>
    requires sound { IsSound input.now }
{
    if input.script.cpus > 8 {
        return println!(rt; "too many processors");
    }
    match case.form {
        Form::Script(form) => put_script(rt, form, case, input),
        Form::File(form) => put_file(rt, form, case.rest, input),
    }
}

/// A case whose script has this text.
fn put_text(rt: &HostRuntime, case: &Case<'_>, text: &[u8]) -> io::Result<()> {
    if text.len() > INPUT_LIMIT {
        return println!(rt; "too long");
    }
    match read(rt.alloc(), text) {
        Ok(input) => {
            let written = put_read(rt, case, &input);
            drop(input);
            written
        }
        Err(_) => println!(rt; "no reading"),
    }
}

fn put_case(rt: &HostRuntime, case: &Case<'_>) -> io::Result<()> {
    let text = file(rt, case.script, "script")?;
    put_text(rt, case, text.as_slice())
}

/// A line of the table.
fn put_entry(rt: &HostRuntime, entry: &str) -> io::Result<()> {
    print!(rt; "{entry}: ")?;
    match case_of(entry) {
        Some(case) => put_case(rt, &case),
        None => println!(rt; "no case"),
    }
}

fn main(rt: HostRuntime) -> io::Result<()> {
    for line in rt.lines(rt.alloc()) {
        let entry = line?;
        put_entry(&rt, entry.as_str())?;
    }
    Ok(())
}
