//! The lines of events.
ghost use Rattle.std.specs.Prelude.{◌≡◌};
ghost use Rattle.nt_line.specs.Fields.{read_apc, read_dpc, read_lock};
ghost use Rattle.nt_report.specs.Fields.{IsWritten, Reads, Writes, one_field};
ghost use Rattle.nt_report.specs.Events.{begun, begun_of, blank, command, delay_key, event_line};
ghost use Rattle.nt_report.specs.Events.{expired, read_begun_word, read_event_word, read_verb};
ghost use Rattle.nt_report.specs.Events.{timer_key, what, what_of};

use crate::fields::{class, event, level, processor, replied, running, status, thread, used, word};
use crate::line_input::LineInput;
use crate::words::{BegunWord, EventWord, begun_word, event_word};
use nt_event::{ApcNo, Begun, Command, CpuNo, DpcNo, Event, Level, LockNo, TimerKey, What};
use nt_line::{Keyword, Names, Verb, fields, keyword_of};
use nt_script::Input;
use nt_text::{Fields, ScriptKind};

/// An event as its line gives it.
#[derive(Clone, Copy, Debug)]
pub(crate) struct EventLine {
    /// The number at the head of the line.
    pub number: u64,
    pub event: Event,
}

impl EventLine {
    /// A line that is still to be read.
    pub fn blank() -> EventLine
        ensures { result ≡ blank }
    {
        EventLine {
            number: 0,
            event: Event {
                cpu: CpuNo(0),
                thread: None,
                level: Level::PASSIVE,
                what: What::Rest,
            },
        }
    }
}

fn dpc(names: &Names, row: &mut Fields) -> Result<DpcNo, ScriptKind>
    ensures { Reads result row.new (one_field (read_dpc names.now) row.old) }
{
    fields::dpc(names, row.need()?)
}

fn apc(names: &Names, row: &mut Fields) -> Result<ApcNo, ScriptKind>
    ensures { Reads result row.new (one_field (read_apc names.now) row.old) }
{
    fields::apc(names, row.need()?)
}

/// The lock of a name.
pub(crate) fn lock(names: &Names, row: &mut Fields) -> Result<LockNo, ScriptKind>
    ensures { Reads result row.new (one_field (read_lock names.now) row.old) }
{
    fields::lock(names, row.need()?)
}

fn verb_of(version: u8, field: &[u8]) -> Result<Verb, ScriptKind>
    ensures { result ≡ read_verb version field.now }
{
    match keyword_of(version, field) {
        Some(Keyword::Call(verb)) => Ok(verb),
        _ => Err(ScriptKind::UnknownWord),
    }
}

/// A command as in the script.
fn command(input: &Input, row: &mut Fields) -> Result<Command, ScriptKind>
    ensures { Reads result row.new (command input.now row.old) }
{
    let verb = verb_of(input.version, row.need()?)?;
    nt_line::command(&input.names, input.script.cpus, verb, row)
}

fn begun_of(names: &Names, word: BegunWord, row: &mut Fields) -> Result<Begun, ScriptKind>
    ensures { Reads result row.new (begun_of names.now word row.old) }
{
    match word {
        BegunWord::Int => Ok(Begun::Int(level(row)?)),
        BegunWord::Dpc => Ok(Begun::Dpc(dpc(names, row)?)),
        BegunWord::Threaded => Ok(Begun::Threaded(dpc(names, row)?)),
        BegunWord::Apc(_) => Ok(Begun::Apc(apc(names, row)?)),
    }
}

fn read_begun_word(field: &[u8]) -> Result<BegunWord, ScriptKind>
    ensures { result ≡ read_begun_word field.now }
{
    begun_word(field).ok_or(ScriptKind::UnknownWord)
}

/// What is begun.
fn begun(names: &Names, row: &mut Fields) -> Result<Begun, ScriptKind>
    ensures { Reads result row.new (begun names.now row.old) }
{
    let word = read_begun_word(row.need()?)?;
    begun_of(names, word, row)
}

fn timer_key(names: &Names, row: &mut Fields) -> Result<TimerKey, ScriptKind>
    ensures { Reads result row.new (timer_key names.now row.old) }
{
    Ok(TimerKey::Timer(fields::timer(names, row.need()?)?))
}

fn delay_key(names: &Names, row: &mut Fields) -> Result<TimerKey, ScriptKind>
    ensures { Reads result row.new (delay_key names.now row.old) }
{
    Ok(TimerKey::Delay(fields::thread(names, row.need()?)?))
}

/// A timer, or the delay of a thread.
fn expired(names: &Names, row: &mut Fields) -> Result<TimerKey, ScriptKind>
    ensures { Reads result row.new (expired names.now row.old) }
{
    let word = row.need()?;
    if word == b"timer".as_slice() {
        return timer_key(names, row);
    }
    if word == b"delay".as_slice() {
        return delay_key(names, row);
    }
    Err(ScriptKind::UnknownWord)
}

/// Writes what an event did, by its word and the fields behind it.
fn what_of(
    input: &Input,
    word: EventWord,
    row: &mut Fields,
    into: &mut What,
) -> Result<(), ScriptKind>
    ensures { Writes result into.new row.new (what_of input.now word row.old) }
{
    let names = &input.names;
    match word {
        EventWord::Call => {
            let frame = event(row)?;
            let command = command(input, row)?;
            let reply = replied(row)?;
            *into = What::Call {
                frame,
                command,
                reply,
            };
        }
        EventWord::Begin => {
            let begun = begun(names, row)?;
            let from = used(row)?;
            *into = What::Begin { begun, from };
        }
        EventWord::Normal => *into = What::Normal { frame: event(row)? },
        EventWord::End => *into = What::End { frame: event(row)? },
        EventWord::Expire => {
            let key = expired(names, row)?;
            let from = used(row)?;
            *into = What::Expire { key, from };
        }
        EventWord::Fire => {
            let dpc = dpc(names, row)?;
            let reply = replied(row)?;
            *into = What::Fire { dpc, reply };
        }
        EventWord::Clean => *into = What::Clean { class: class(row)? },
        EventWord::Switch => {
            let thread = thread(names, row)?;
            let status = status(row)?;
            *into = What::Switch { thread, status };
        }
        EventWord::Rewait => {
            let frame = event(row)?;
            let reply = replied(row)?;
            *into = What::Rewait { frame, reply };
        }
        EventWord::Flush => {
            let apc = apc(names, row)?;
            let from = used(row)?;
            *into = What::Flush { apc, from };
        }
        EventWord::Gone => {
            *into = What::Gone {
                thread: thread(names, row)?,
            };
        }
        EventWord::Free => {
            let frame = event(row)?;
            let lock = lock(names, row)?;
            *into = What::Free { frame, lock };
        }
        EventWord::Rest => *into = What::Rest,
    }
    Ok(())
}

fn read_event_word(field: &[u8]) -> Result<EventWord, ScriptKind>
    ensures { result ≡ read_event_word field.now }
{
    event_word(field).ok_or(ScriptKind::UnknownWord)
}

/// Writes what an event did.
fn read_what(input: &Input, row: &mut Fields, into: &mut What) -> Result<(), ScriptKind>
    ensures { Writes result into.new row.new (what input.now row.old) }
{
    let word = read_event_word(row.need()?)?;
    what_of(input, word, row, into)
}

/// Writes the event of a line, and the number that the line gives it: the first field, and those
/// behind it.
#[tactic(auto, using(crate::proofs::Steps::extra))]
pub(crate) fn event_line<'a>(
    input: &mut LineInput<'a>,
    number: &[u8],
    row: &mut Fields<'a>,
    line: &mut EventLine,
) -> Result<(), ScriptKind>
    ensures line { IsWritten result line.new (event_line input.old number.now row.old) }
    ensures input { input.new ≡ input.old }
{
    let whole = input.input();
    line.number = u64::from(fields::number(number, u32::MAX)?);
    let cpu = processor(whole.script.cpus, row)?;
    line.event.cpu = cpu;
    line.event.thread = running(input, cpu, row)?;
    line.event.level = level(row)?;
    read_what(whole, row, &mut line.event.what)?;
    if row.count() > 0 {
        return Err(ScriptKind::ExtraField);
    }
    Ok(())
}
