//! What an expectation's line says, one function for each part of it. Each takes the fields that it
//! reads, and tests in the order of the refusals.
ghost use Rattle.std.specs.Prelude.{◌≡◌, true};
ghost use Rattle.nt_line.specs.Fields.{read_apc, read_dpc, read_thread};
ghost use Rattle.nt_expect.specs.Fields.{Passes, Reads, behind_word, command, hexadecimal_after};
ghost use Rattle.nt_expect.specs.Fields.{hexadecimal_of, hexadecimal_value, is_hexadecimal_digit};
ghost use Rattle.nt_expect.specs.Fields.{one_field, read_hexadecimal, read_verb};
ghost use Rattle.nt_expect.specs.Reading.{always_of, activity_of, expectation_of, is_activity_word};
ghost use Rattle.nt_expect.specs.Reading.{never_behind, never_of};
ghost use Rattle.nt_expect.specs.Reading.{never_with_word, read_activity, read_call, read_reply};
ghost use Rattle.nt_expect.specs.Reading.{read_waits, read_watched, replied, reply_of, waits_of};
ghost use Rattle.nt_expect.specs.Reading.{watched_of};

use crate::expectations::{Activity, Expectation, NamedReply, Watched};
use crate::replies::may_reply;
use nt_event::{ApcNo, Command, DpcNo, ThreadNo};
use nt_line::{Keyword, Names, Verb, fields, keyword_of};
use nt_script::Input;
use nt_text::{Fields, ScriptKind, is_word};

/// A field that has to be this word.
fn word(word: &[u8], row: &mut Fields) -> Result<(), ScriptKind>
    ensures { Passes result row.new (behind_word word.now row.old) }
{
    if is_word(row.need()?, word) {
        Ok(())
    } else {
        Err(ScriptKind::UnknownWord)
    }
}

fn dpc(names: &Names, row: &mut Fields) -> Result<DpcNo, ScriptKind>
    ensures { Reads result row.new (one_field (read_dpc names.now) row.old) }
{
    fields::dpc(names, row.need()?)
}

fn apc(names: &Names, row: &mut Fields) -> Result<ApcNo, ScriptKind>
    ensures { Reads result row.new (one_field (read_apc names.now) row.old) }
{
    fields::apc(names, row.need()?)
}

fn thread(names: &Names, row: &mut Fields) -> Result<ThreadNo, ScriptKind>
    ensures { Reads result row.new (one_field (read_thread names.now) row.old) }
{
    fields::thread(names, row.need()?)
}

fn is_hexadecimal_digit(byte: u8) -> bool
    ensures { result ≡ is_hexadecimal_digit byte }
{
    byte.is_ascii_digit() || (97 <= byte && byte <= 102)
}

/// The value of a hexadecimal digit.
fn hexadecimal_value(byte: u8) -> u32
    requires { is_hexadecimal_digit byte ≡ true }
    ensures { result ≡ hexadecimal_value byte }
{
    if byte.is_ascii_digit() {
        u32::from(byte - b'0')
    } else {
        u32::from(byte - 87)
    }
}

/// The number of 32 bits that hexadecimal digits stand for.
fn hexadecimal_digits(field: &[u8]) -> Option<u32>
    ensures { result ≡ hexadecimal_after 0 field.now }
{
    let mut value: u32 = 0;
    for byte in field {
        if !is_hexadecimal_digit(*byte) || value > 0x0fff_ffff {
            return None;
        }
        value = 16 * value + hexadecimal_value(*byte);
    }
    Some(value)
}

fn hexadecimal_of(field: &[u8]) -> Result<u32, ScriptKind>
    ensures { result ≡ read_hexadecimal field.now }
{
    let number = match field {
        [] => None,
        [b'0', _, ..] => None,
        _ => hexadecimal_digits(field),
    };
    number.ok_or(ScriptKind::BadNumber)
}

/// A hexadecimal number of 32 bits in lower case, without leading zeros.
fn hexadecimal(row: &mut Fields) -> Result<u32, ScriptKind>
    ensures { Reads result row.new (one_field read_hexadecimal row.old) }
{
    hexadecimal_of(row.need()?)
}

fn verb_of(version: u8, field: &[u8]) -> Result<Verb, ScriptKind>
    ensures { result ≡ read_verb version field.now }
{
    match keyword_of(version, field) {
        Some(Keyword::Call(verb)) => Ok(verb),
        _ => Err(ScriptKind::UnknownWord),
    }
}

/// A command as in the script.
fn command(input: &Input, row: &mut Fields) -> Result<Command, ScriptKind>
    ensures { Reads result row.new (command input.now row.old) }
{
    let verb = verb_of(input.version, row.need()?)?;
    nt_line::command(&input.names, input.script.cpus, verb, row)
}

fn activity_of(names: &Names, word: &[u8], row: &mut Fields) -> Result<Activity, ScriptKind>
    ensures { Reads result row.new (activity_of names.now word.now row.old) }
{
    if is_word(word, b"int") {
        return Ok(Activity::Int(fields::isr_level(row.need()?)?));
    }
    if is_word(word, b"dpc") {
        return Ok(Activity::Dpc(dpc(names, row)?));
    }
    if is_word(word, b"apc") {
        return Ok(Activity::Apc(apc(names, row)?));
    }
    if is_word(word, b"thread") {
        return Ok(Activity::Thread(thread(names, row)?));
    }
    Err(ScriptKind::UnknownWord)
}

fn activity(names: &Names, row: &mut Fields) -> Result<Activity, ScriptKind>
    ensures { Reads result row.new (read_activity names.now row.old) }
{
    let word = row.need()?;
    activity_of(names, word, row)
}

fn is_activity_word(word: &[u8]) -> bool
    ensures { result ≡ is_activity_word word.now }
{
    is_word(word, b"int")
        || is_word(word, b"dpc")
        || is_word(word, b"apc")
        || is_word(word, b"thread")
}

fn reply_of(version: u8, word: &[u8], row: &mut Fields) -> Result<NamedReply, ScriptKind>
    ensures { Reads result row.new (reply_of version word.now row.old) }
{
    if is_word(word, b"yes") {
        return Ok(NamedReply::Yes);
    }
    if is_word(word, b"no") {
        return Ok(NamedReply::No);
    }
    if is_word(word, b"done") {
        return Ok(NamedReply::Done);
    }
    if is_word(word, b"blocked") {
        return Ok(NamedReply::Blocked);
    }
    if is_word(word, b"status") {
        return Ok(NamedReply::Status(hexadecimal(row)?));
    }
    if is_word(word, b"refused") {
        return Ok(NamedReply::Refused);
    }
    if is_word(word, b"spin") && version == 2 {
        return Ok(NamedReply::Spin);
    }
    Err(ScriptKind::UnknownWord)
}

fn reply(version: u8, row: &mut Fields) -> Result<NamedReply, ScriptKind>
    ensures { Reads result row.new (read_reply version row.old) }
{
    let word = row.need()?;
    reply_of(version, word, row)
}

/// `->` and a reply that the command may give.
fn replied(version: u8, command: &Command, row: &mut Fields) -> Result<NamedReply, ScriptKind>
    ensures { Reads result row.new (replied version command.now row.old) }
{
    word(b"->", row)?;
    let reply = reply(version, row)?;
    if may_reply(command, reply) {
        Ok(reply)
    } else {
        Err(ScriptKind::WrongKind)
    }
}

fn call(input: &Input, row: &mut Fields) -> Result<Watched, ScriptKind>
    ensures { Reads result row.new (read_call input.now row.old) }
{
    let command = command(input, row)?;
    let reply = replied(input.version, &command, row)?;
    Ok(Watched::Call(command, reply))
}

fn watched_of(input: &Input, first: &[u8], row: &mut Fields) -> Result<Watched, ScriptKind>
    ensures { Reads result row.new (watched_of input.now first.now row.old) }
{
    if is_word(first, b"note") {
        return Ok(Watched::Note(fields::number(row.need()?, u32::MAX)?));
    }
    if is_word(first, b"refused") {
        return Ok(Watched::Refused);
    }
    if is_word(first, b"begin") {
        return Ok(Watched::Begin(activity(&input.names, row)?));
    }
    if is_word(first, b"expire") {
        word(b"timer", row)?;
        return Ok(Watched::Expire(fields::timer(&input.names, row.need()?)?));
    }
    if is_word(first, b"gone") {
        return Ok(Watched::Gone(thread(&input.names, row)?));
    }
    if is_word(first, b"call") {
        return call(input, row);
    }
    Err(ScriptKind::UnknownWord)
}

fn watched(input: &Input, row: &mut Fields) -> Result<Watched, ScriptKind>
    ensures { Reads result row.new (read_watched input.now row.old) }
{
    let word = row.need()?;
    watched_of(input, word, row)
}

fn never_with_word(
    input: &Input,
    event: Watched,
    word: &[u8],
    row: &mut Fields,
) -> Result<Expectation, ScriptKind>
    ensures { Reads result row.new (never_with_word input.now event word.now row.old) }
{
    if is_word(word, b"twice") {
        return Ok(Expectation::NeverTwice(event));
    }
    if is_word(word, b"above") {
        return Ok(Expectation::NeverAbove(event, fields::level(row.need()?)?));
    }
    if is_word(word, b"on") {
        let cpu = fields::cpu(input.script.cpus, row.need()?)?;
        return Ok(Expectation::NeverOn(event, cpu));
    }
    if is_word(word, b"after") {
        return Ok(Expectation::NeverAfter(event, watched(input, row)?));
    }
    if is_word(word, b"before") {
        return Ok(Expectation::NeverBefore(event, watched(input, row)?));
    }
    Err(ScriptKind::UnknownWord)
}

/// What stands behind the event of a `never`.
fn never_behind(input: &Input, event: Watched, row: &mut Fields) -> Result<Expectation, ScriptKind>
    ensures { Reads result row.new (never_behind input.now event row.old) }
{
    match row.next() {
        Some(word) => never_with_word(input, event, word, row),
        None => Ok(Expectation::Never(event)),
    }
}

fn waits_of(names: &Names, word: &[u8], row: &mut Fields) -> Result<Expectation, ScriptKind>
    ensures { Reads result row.new (waits_of names.now word.now row.old) }
{
    if is_word(word, b"dpc") {
        return Ok(Expectation::NeverWaitsDpc(dpc(names, row)?));
    }
    if is_word(word, b"apc") {
        return Ok(Expectation::NeverWaitsApc(apc(names, row)?));
    }
    Err(ScriptKind::UnknownWord)
}

fn waits(names: &Names, row: &mut Fields) -> Result<Expectation, ScriptKind>
    ensures { Reads result row.new (read_waits names.now row.old) }
{
    let word = row.need()?;
    waits_of(names, word, row)
}

fn never_of(input: &Input, first: &[u8], row: &mut Fields) -> Result<Expectation, ScriptKind>
    ensures { Reads result row.new (never_of input.now first.now row.old) }
{
    if is_word(first, b"waits") {
        return waits(&input.names, row);
    }
    if is_word(first, b"blocked") {
        return Ok(Expectation::NeverBlocked(thread(&input.names, row)?));
    }
    if is_word(first, b"spins") && input.version == 2 {
        let lock = fields::lock(&input.names, row.need()?)?;
        return Ok(Expectation::NeverSpins(lock));
    }
    if is_activity_word(first) {
        let one = activity_of(&input.names, first, row)?;
        word(b"with", row)?;
        let other = activity(&input.names, row)?;
        return Ok(Expectation::NeverWith(one, other));
    }
    let event = watched_of(input, first, row)?;
    never_behind(input, event, row)
}

fn always_of(input: &Input, word: &[u8], row: &mut Fields) -> Result<Expectation, ScriptKind>
    ensures { Reads result row.new (always_of input.now word.now row.old) }
{
    if is_word(word, b"ends") {
        return Ok(Expectation::AlwaysEnds);
    }
    Ok(Expectation::Always(watched_of(input, word, row)?))
}

/// The expectation of a line with this first field.
pub(crate) fn expectation_of(
    input: &Input,
    word: &[u8],
    row: &mut Fields,
) -> Result<Expectation, ScriptKind>
    ensures { Reads result row.new (expectation_of input.now word.now row.old) }
{
    if is_word(word, b"never") {
        let next = row.need()?;
        return never_of(input, next, row);
    }
    if is_word(word, b"always") {
        let next = row.need()?;
        return always_of(input, next, row);
    }
    Err(ScriptKind::UnknownWord)
}
