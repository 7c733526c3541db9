//! Runs whose events are written here field by field.
ghost use Rattle.std.specs.Prelude.{IsTrue, ◌*◌, ◌≡◌, ◌≤◌};
ghost use Rattle.nt_event.specs.Script.{fits};
ghost use Rattle.nt_script.specs.Sound.{IsSound};

use nt_check::{Verdict, check};
use nt_core::{ScheduleRefusal, replay, run};
use nt_event::limits::{EVENTS, TURNS};
use nt_event::{Event, Script, ThreadNo};
use nt_history::{History, Turns};
use nt_script::Input;
use std::alloc::{AllocError, Global};

fn put_thread(text: &mut String, thread: Option<ThreadNo>) -> Result<(), AllocError> {
    match thread {
        Some(thread) => write!(text, "t{}", thread.0),
        None => text.push_str("-"),
    }
}

/// Puts a line of an event: its number, its processor, its thread, its level, and what it does.
fn put_event(text: &mut String, number: usize, event: &Event) -> Result<(), AllocError> {
    write!(text, "{number} p{} ", event.cpu.0)?;
    put_thread(text, event.thread)?;
    write!(text, " {} {:?}\n", event.level.number(), event.what)
}

/// The lines of the events.
fn event_lines(alloc: Global, history: &History) -> Result<String, AllocError> {
    let events = history.lend();
    let mut text = String::new(alloc);
    for number in 0..events.briefs.len() {
        put_event(&mut text, number, &events.event(number))?;
    }
    Ok(text)
}

fn turns_of(alloc: Global, history: &History) -> Result<Turns, AllocError> {
    let events = history.lend();
    let mut turns = Turns::new(alloc);
    for brief in events.briefs {
        turns.push(&events.turn_of(brief))?;
    }
    Ok(turns)
}

/// Whether the turns of the history, replayed, make these lines again.
fn is_replayed(
    alloc: Global,
    script: &Script,
    history: &History,
    lines: &str,
) -> Result<bool, AllocError>
    requires script { IsTrue (fits script.now) }
    requires turns { (1 ≤ history.now.turns) × (history.now.turns ≤ TURNS) }
    requires all { script.now.cpus * history.now.turns ≤ EVENTS }
{
    let turns = turns_of(alloc, history)?;
    match replay(alloc, script, history.turns(), &turns) {
        Ok(again) => Ok(event_lines(alloc, &again)?.as_str() == lines),
        Err(ScheduleRefusal::Bad { .. }) => Ok(false),
        Err(ScheduleRefusal::NoMemory) => Err(AllocError),
    }
}

/// Puts a line that says whether the turns of the history replay it, and one of the checker's
/// verdict.
fn put_ends(
    alloc: Global,
    script: &Script,
    history: &History,
    text: &mut String,
) -> Result<(), AllocError>
    requires script { IsTrue (fits script.now) }
    requires turns { (1 ≤ history.now.turns) × (history.now.turns ≤ TURNS) }
    requires all { script.now.cpus * history.now.turns ≤ EVENTS }
{
    let replayed = is_replayed(alloc, script, history, text.as_str())?;
    text.push_str(if replayed {
        "replayed\n"
    } else {
        "not replayed\n"
    })?;
    match check(alloc, script, history)? {
        Verdict::Legal => text.push_str("legal\n"),
        Verdict::IllegalAt(number) => write!(text, "illegal at {number}\n"),
    }
}

/// The events of the run by the robin rule, whether they are replayed, and the checker's verdict.
pub(crate) fn events_text(alloc: Global, input: &Input, limit: u32) -> Result<Vec<u8>, AllocError>
    requires sound { IsSound input.now }
    requires most { input.now.script.cpus ≤ 8 }
    requires some { 1 ≤ limit }
    requires few { limit ≤ TURNS }
{
    let history = run(alloc, &input.script, limit)?;
    let mut text = event_lines(alloc, &history)?;
    put_ends(alloc, &input.script, &history, &mut text)?;
    Ok(text.into_bytes())
}
