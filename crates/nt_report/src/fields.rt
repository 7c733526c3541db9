//! What may stand in the fields of a report's line. Each function takes the fields that it reads.
ghost use Rattle.std.specs.Prelude.{◌≡◌, ◌==◌, find, true};
ghost use Rattle.nt_event.specs.Numbered.{refusal_number};
ghost use Rattle.nt_line.specs.Fields.{read_level, read_thread};
ghost use Rattle.nt_report.specs.Fields.{Passes, Reads, behind_word, hexadecimal_after};
ghost use Rattle.nt_report.specs.Fields.{hexadecimal_of, hexadecimal_value, is_hexadecimal_digit};
ghost use Rattle.nt_report.specs.Fields.{one_field, read_class, read_event, read_hexadecimal};
ghost use Rattle.nt_report.specs.Fields.{read_processor, read_refusal, read_reply_word};
ghost use Rattle.nt_report.specs.Fields.{read_running, refusal_of, refused, replied, reply_of};
ghost use Rattle.nt_report.specs.Fields.{status, used};

use crate::line_input::LineInput;
use crate::words::{ReplyWord, reply_word};
use nt_event::{CpuNo, Level, Refusal, Reply, ThreadNo};
use nt_line::{Names, fields};
use nt_text::{Fields, ScriptKind, is_word};

/// Every cause of a refused command.
const REFUSALS: [Refusal; 11] = [
    Refusal::NotThread,
    Refusal::NotBase,
    Refusal::TooHigh,
    Refusal::RegionsOpen,
    Refusal::NotGreater,
    Refusal::NotLess,
    Refusal::BelowBase,
    Refusal::NotEntered,
    Refusal::LockHeld,
    Refusal::HeldHere,
    Refusal::NotLast,
];

/// A field that has to be this word.
pub(crate) fn word(word: &[u8], row: &mut Fields) -> Result<(), ScriptKind>
    ensures { Passes result row.new (behind_word word.now row.old) }
{
    if is_word(row.need()?, word) {
        Ok(())
    } else {
        Err(ScriptKind::UnknownWord)
    }
}

/// The number of an event.
pub(crate) fn event(row: &mut Fields) -> Result<u64, ScriptKind>
    ensures { Reads result row.new (one_field read_event row.old) }
{
    Ok(u64::from(fields::number(row.need()?, u32::MAX)?))
}

/// A processor of a field: `p` and its number.
pub(crate) fn processor_of(cpus: u8, field: &[u8]) -> Result<CpuNo, ScriptKind>
    ensures { result ≡ read_processor cpus field.now }
{
    match field {
        [b'p', number @ ..] => fields::cpu(cpus, number),
        _ => Err(ScriptKind::BadNumber),
    }
}

/// `p` and the number of a processor.
pub(crate) fn processor(cpus: u8, row: &mut Fields) -> Result<CpuNo, ScriptKind>
    ensures { Reads result row.new (one_field (read_processor cpus) row.old) }
{
    processor_of(cpus, row.need()?)
}

/// The name of the thread that runs on a processor, or `-` for none.
pub(crate) fn running<'a>(
    input: &mut LineInput<'a>,
    cpu: CpuNo,
    row: &mut Fields<'a>,
) -> Result<Option<ThreadNo>, ScriptKind>
    ensures thread { Reads result row.new (one_field (read_running input.old.names) row.old) }
    ensures input { input.new ≡ input.old }
{
    input.running(cpu, row.need()?)
}

/// A level, 0 to 15.
pub(crate) fn level(row: &mut Fields) -> Result<Level, ScriptKind>
    ensures { Reads result row.new (one_field read_level row.old) }
{
    fields::level(row.need()?)
}

/// A class that a Clean may have, 0 to 2.
pub(crate) fn class(row: &mut Fields) -> Result<u8, ScriptKind>
    ensures { Reads result row.new (one_field read_class row.old) }
{
    Ok(fields::number(row.need()?, 2)? as u8)
}

/// The thread of a name.
pub(crate) fn thread(names: &Names, row: &mut Fields) -> Result<ThreadNo, ScriptKind>
    ensures { Reads result row.new (one_field (read_thread names.now) row.old) }
{
    fields::thread(names, row.need()?)
}

fn is_hexadecimal_digit(byte: u8) -> bool
    ensures { result ≡ is_hexadecimal_digit byte }
{
    byte.is_ascii_digit() || (97 <= byte && byte <= 102)
}

/// The value of a hexadecimal digit.
fn hexadecimal_value(byte: u8) -> u32
    requires { is_hexadecimal_digit byte ≡ true }
    ensures { result ≡ hexadecimal_value byte }
{
    if byte.is_ascii_digit() {
        u32::from(byte - b'0')
    } else {
        u32::from(byte - 87)
    }
}

/// The number of 32 bits that hexadecimal digits stand for.
fn hexadecimal_digits(field: &[u8]) -> Option<u32>
    ensures { result ≡ hexadecimal_after 0 field.now }
{
    let mut value: u32 = 0;
    for byte in field {
        if !is_hexadecimal_digit(*byte) || value > 0x0fff_ffff {
            return None;
        }
        value = 16 * value + hexadecimal_value(*byte);
    }
    Some(value)
}

fn hexadecimal_of(field: &[u8]) -> Result<u32, ScriptKind>
    ensures { result ≡ read_hexadecimal field.now }
{
    let number = match field {
        [] => None,
        [b'0', _, ..] => None,
        _ => hexadecimal_digits(field),
    };
    number.ok_or(ScriptKind::BadNumber)
}

/// A hexadecimal number of 32 bits in lower case, without leading zeros.
pub(crate) fn hexadecimal(row: &mut Fields) -> Result<u32, ScriptKind>
    ensures { Reads result row.new (one_field read_hexadecimal row.old) }
{
    hexadecimal_of(row.need()?)
}

fn find_refusal(refusals: &[Refusal], number: u32) -> Option<Refusal>
    ensures { result ≡ find (λ r. refusal_number r == number) refusals.now }
{
    refusals
        .iter()
        .copied()
        .find(|refusal| u32::from(refusal.number()) == number)
}

#[tactic(auto, unfolding(crate::specs::Fields::refusal_of))]
fn refusal_of(number: u32) -> Option<Refusal>
    ensures { result ≡ refusal_of number }
{
    find_refusal(&REFUSALS, number)
}

fn refusal(field: &[u8]) -> Result<Refusal, ScriptKind>
    ensures { result ≡ read_refusal field.now }
{
    refusal_of(fields::number(field, 11)?).ok_or(ScriptKind::BadNumber)
}

/// The number of a cause and its name.
fn refused(row: &mut Fields) -> Result<Reply, ScriptKind>
    ensures { Reads result row.new (refused row.old) }
{
    let refusal = refusal(row.need()?)?;
    word(refusal.name().as_bytes(), row)?;
    Ok(Reply::Refused(refusal))
}

fn reply_of(word: ReplyWord, row: &mut Fields) -> Result<Reply, ScriptKind>
    ensures { Reads result row.new (reply_of word row.old) }
{
    match word {
        ReplyWord::Done => Ok(Reply::Done),
        ReplyWord::Yes => Ok(Reply::Yes),
        ReplyWord::No => Ok(Reply::No),
        ReplyWord::Status => Ok(Reply::Status(hexadecimal(row)?)),
        ReplyWord::Blocked => Ok(Reply::Blocked),
        ReplyWord::Spin => Ok(Reply::Spin),
        ReplyWord::Refused => refused(row),
    }
}

fn read_reply_word(field: &[u8]) -> Result<ReplyWord, ScriptKind>
    ensures { result ≡ read_reply_word field.now }
{
    reply_word(field).ok_or(ScriptKind::UnknownWord)
}

/// `->` and a reply.
pub(crate) fn replied(row: &mut Fields) -> Result<Reply, ScriptKind>
    ensures { Reads result row.new (replied row.old) }
{
    word(b"->", row)?;
    let word = read_reply_word(row.need()?)?;
    reply_of(word, row)
}

/// `of` and the number of the event that is used up.
pub(crate) fn used(row: &mut Fields) -> Result<u64, ScriptKind>
    ensures { Reads result row.new (used row.old) }
{
    word(b"of", row)?;
    event(row)
}

/// `status` and the status of a wait that ended, or nothing at all.
pub(crate) fn status(row: &mut Fields) -> Result<Option<u32>, ScriptKind>
    ensures { Reads result row.new (status row.old) }
{
    if row.count() == 0 {
        return Ok(None);
    }
    word(b"status", row)?;
    Ok(Some(hexadecimal(row)?))
}
