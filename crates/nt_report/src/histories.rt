//! The history of turns and event lines.
ghost use Rattle.std.specs.Prelude.{◌≡◌, ◌+◌, ◌++◌, ◌≤◌, ◌<◌, [], ◌∷◌, length, IfErr, OnOk};
ghost use Rattle.nt_script.specs.Gives.{GivesRead};
ghost use Rattle.nt_report.specs.Reading.{events_of, history_of, look_event};
ghost use Rattle.nt_script.specs.declared.reading.ScriptRefusal.TheVariants as refusal;
ghost use Rattle.nt_text.specs.declared.kind.ScriptKind.TheVariants.{WrongKind};

use crate::kept::KeptLine;
use crate::walk::Parts;
use nt_event::{CpuNo, Event, Level, Rises, Turn, What};
use nt_history::{Events, History, Turns, no_turn};
use nt_script::ScriptRefusal;
use nt_text::ScriptKind;
use std::alloc::Global;

/// A look names no thread and has level 0.
fn look_event(cpu: CpuNo, rises: Rises) -> Event
    ensures { result ≡ look_event cpu rises }
{
    Event {
        cpu,
        thread: None,
        level: Level::PASSIVE,
        what: What::Look { rises },
    }
}

/// The refusal of a line that is not the one of this history.
pub(crate) fn wrong(line: u32) -> ScriptRefusal
    ensures { result ≡ refusal.Bad line WrongKind }
{
    ScriptRefusal::Bad {
        line,
        kind: ScriptKind::WrongKind,
    }
}

/// Adds an event behind the others.
fn put(events: &mut Events, event: &Event) -> Result<(), ScriptRefusal>
    ensures events { OnOk result (events.new ≡ events.old ++ event.now ∷ []) }
    ensures memory { IfErr result (λ e. e ≡ refusal.NoMemory) }
{
    match events.push(event) {
        Ok(()) => Ok(()),
        Err(_) => Err(ScriptRefusal::NoMemory),
    }
}

/// Adds the event of a line behind the others.
fn put_line(events: &mut Events, line: &KeptLine) -> Result<(), ScriptRefusal>
    ensures events { OnOk result (events.new ≡ events.old ++ line.now.event ∷ []) }
    ensures memory { IfErr result (λ e. e ≡ refusal.NoMemory) }
{
    match line.add_to(events) {
        Ok(()) => Ok(()),
        Err(_) => Err(ScriptRefusal::NoMemory),
    }
}

/// The events of the turns: a look turn gives a look, and another turn the next event line, whose
/// number is the turn's place.
///
/// `line` is the number of the first event line in the text. WrongKind at the event line that has
/// another number, or behind the last.
fn events_of(
    alloc: Global,
    turns: &Turns,
    lines: &[KeptLine],
    line: u32,
) -> Result<Events, ScriptRefusal>
    requires { line + length lines.now ≤ 4294967295 }
    ensures { GivesRead result (events_of [] turns.now lines.now line) }
{
    let mut made = Events::new(alloc);
    let mut left = lines;
    let mut at = line;
    let mut walk = turns.walk();
    let mut turn = no_turn();
    while walk.next(&mut turn) {
        match &turn {
            Turn::Look(cpu, rises) => put(&mut made, &look_event(*cpu, *rises))?,
            Turn::Next(_) | Turn::Switch(_, _) => match left {
                [first, more @ ..] => {
                    if first.number() != made.len() as u64 {
                        return Err(wrong(at));
                    }
                    put_line(&mut made, first)?;
                    left = more;
                    at += 1;
                }
                [] => return Err(wrong(at)),
            },
        }
    }
    Ok(made)
}

/// The history of the parts of a report, whose first line has this number.
pub(crate) fn history_of(alloc: Global, parts: &Parts, line: u32) -> Result<History, ScriptRefusal>
    requires { line + length parts.now.lines < 4294967295 }
    ensures { GivesRead result (history_of parts.now line) }
{
    let events = events_of(
        alloc,
        &parts.schedule.list,
        parts.lines.as_slice(),
        line + 1,
    )?;
    Ok(History::new(parts.schedule.turns, events))
}
