//! What the line of a turn says, one function for each part of it. Each tests in the order of the
//! refusals.
ghost use Rattle.std.specs.Prelude.{◌≡◌, ◌<◌, ◌∷◌, true, length, IfOk};
ghost use Rattle.std.specs.List.{position};
ghost use Rattle.std.specs.Result.{result_map_both};
ghost use Rattle.nt_text.specs.Lines.{is_byte};
ghost use Rattle.nt_script.specs.Reading.{counted};
ghost use Rattle.nt_log.specs.Schedules.{is_written_class};
ghost use Rattle.nt_log.specs.Reading.{read_class, read_value, read_rise, read_rises, read_next};
ghost use Rattle.nt_log.specs.Reading.{read_switch, read_look, read_turn};

use nt_event::{Rises, Turn, class};
use nt_line::{Names, fields};
use nt_script::Input;
use nt_text::{Fields, ScriptKind, number};

/// Whether a look of a text may name the class: each that is used, and that of locks in version 2
/// alone.
fn is_written(version: u8, class: u8) -> bool
    ensures { result ≡ is_written_class version class }
{
    class::is_used(class) && (version == 2 || class != class::LOCK)
}

/// A class that a look may name and that is not below `least`.
fn written_class(version: u8, least: u8, field: &[u8]) -> Result<u8, ScriptKind>
    ensures value { result ≡ read_class version least field.now }
    ensures within { IfOk result (λ class. class < 16) }
{
    let class = fields::number(field, 15)? as u8;
    if least <= class && is_written(version, class) {
        Ok(class)
    } else {
        Err(ScriptKind::BadNumber)
    }
}

/// A value above 0.
fn value(field: &[u8]) -> Result<u64, ScriptKind>
    ensures { result ≡ read_value field.now }
{
    match number(field, u64::MAX) {
        Some(value) => {
            if value != 0 {
                Ok(value)
            } else {
                Err(ScriptKind::BadNumber)
            }
        }
        None => Err(ScriptKind::BadNumber),
    }
}

/// Where the first `=` stands.
fn equals_place(field: &[u8]) -> Option<usize>
    ensures { result ≡ position (is_byte 61) field.now }
{
    field.iter().position(|byte| *byte == b'=')
}

/// A class that is not below `least`, and the value that rises in it.
fn rise(version: u8, least: u8, field: &[u8]) -> Result<(u8, u64), ScriptKind>
    ensures value { result ≡ read_rise version least field.now }
    ensures within { IfOk result (λ rise. rise.0 < 16) }
{
    match equals_place(field) {
        Some(place) => {
            let class = written_class(version, least, &field[..place])?;
            let value = value(&field[place + 1..])?;
            Ok((class, value))
        }
        None => Err(ScriptKind::BadNumber),
    }
}

/// The values that rise.
fn rises(version: u8, args: &mut Fields) -> Result<Rises, ScriptKind>
    ensures { result ≡ read_rises version args.old }
{
    let mut value = [0; 16];
    let mut least = 0;
    while let Some(field) = args.next() {
        let (class, risen) = rise(version, least, field)?;
        value[class as usize] = risen;
        least = class + 1;
    }
    Ok(Rises { value })
}

/// Tests that so many fields are left: MissingField where there are fewer, ExtraField where there
/// are more.
pub fn count(args: &Fields, wanted: usize) -> Result<(), ScriptKind>
    ensures { result_map_both (λ _. true) (λ kind. kind) result ≡ counted (length args.now) wanted }
{
    let there = args.count();
    if there < wanted {
        return Err(ScriptKind::MissingField);
    }
    if there > wanted {
        return Err(ScriptKind::ExtraField);
    }
    Ok(())
}

fn next(cpus: u8, args: &mut Fields) -> Result<Turn, ScriptKind>
    ensures { result ≡ read_next cpus args.old }
{
    count(args, 1)?;
    Ok(Turn::Next(fields::cpu(cpus, args.need()?)?))
}

fn switch(names: &Names, cpus: u8, args: &mut Fields) -> Result<Turn, ScriptKind>
    ensures { result ≡ read_switch cpus names.now args.old }
{
    count(args, 2)?;
    let cpu = fields::cpu(cpus, args.need()?)?;
    Ok(Turn::Switch(cpu, fields::thread(names, args.need()?)?))
}

fn look(cpus: u8, version: u8, args: &mut Fields) -> Result<Turn, ScriptKind>
    ensures { result ≡ read_look cpus version args.old }
{
    if args.count() < 2 {
        return Err(ScriptKind::MissingField);
    }
    let cpu = fields::cpu(cpus, args.take())?;
    Ok(Turn::Look(cpu, rises(version, args)?))
}

/// The turn of a line with this word.
pub(crate) fn turn(
    input: &Input,
    cpus: u8,
    word: &[u8],
    args: &mut Fields,
) -> Result<Turn, ScriptKind>
    ensures { result ≡ read_turn cpus input.now (word.now ∷ args.old) }
{
    if word == b"next".as_slice() {
        return next(cpus, args);
    }
    if word == b"switch".as_slice() {
        return switch(&input.names, cpus, args);
    }
    if word == b"look".as_slice() {
        return look(cpus, input.version, args);
    }
    Err(ScriptKind::UnknownWord)
}
