//! Histories that are changed and checked.
ghost use Rattle.std.specs.Prelude.{◌≡◌, ◌≤◌};
ghost use Rattle.nt_script.specs.Sound.{IsSound};

use nt_check::{Verdict, check};
use nt_core::run;
use nt_event::limits::TURNS;
use nt_event::{CpuNo, Event, Level, What};
use nt_history::{Events, History};
use nt_script::Input;
use std::alloc::{AllocError, Global};

/// What is changed in a history.
#[derive(Clone, Copy)]
pub(crate) enum Change {
    /// Nothing.
    Nothing,
    /// The event of this number has this level.
    Level(usize, Level),
    /// It is of this processor.
    Processor(usize, CpuNo),
    /// It has no thread.
    NoThread(usize),
    /// It is a Rest.
    Rest(usize),
    /// Only the first events are left, this many.
    First(usize),
    /// The turn limit is this, if it may be one.
    Turns(u32),
}

fn place(word: &str) -> Option<usize> {
    word.parse::<usize>().ok()
}

fn processor(word: &str) -> Option<CpuNo> {
    Some(CpuNo(word.parse::<u8>().ok()?))
}

fn level(word: &str) -> Option<Level> {
    Level::new(word.parse::<u8>().ok()?)
}

/// A change of one event, as in `level 3 1` and `rest 4`.
fn event_change(kind: &str, words: &str) -> Option<Change> {
    match words.split_once(' ') {
        Some((at, word)) => match kind {
            "level" => Some(Change::Level(place(at)?, level(word)?)),
            "processor" => Some(Change::Processor(place(at)?, processor(word)?)),
            _ => None,
        },
        None => match kind {
            "nothread" => Some(Change::NoThread(place(words)?)),
            "rest" => Some(Change::Rest(place(words)?)),
            "first" => Some(Change::First(place(words)?)),
            _ => None,
        },
    }
}

/// The change in words: `nothing`, `turns` and a limit, or one of an event.
pub(crate) fn change_of(words: &str) -> Option<Change> {
    match words.split_once(' ') {
        None => {
            if words == "nothing" {
                Some(Change::Nothing)
            } else {
                None
            }
        }
        Some(("turns", word)) => Some(Change::Turns(word.parse::<u32>().ok()?)),
        Some((kind, rest)) => event_change(kind, rest),
    }
}

/// Changes the event.
fn change_event(event: &mut Event, change: &Change) {
    match change {
        Change::Level(_, level) => event.level = *level,
        Change::Processor(_, cpu) => event.cpu = *cpu,
        Change::NoThread(_) => event.thread = None,
        Change::Rest(_) => event.what = What::Rest,
        Change::Nothing | Change::First(_) | Change::Turns(_) => {}
    }
}

/// The number of the event that is changed, if one is.
fn changed_place(change: &Change) -> Option<usize> {
    match change {
        Change::Level(at, _) | Change::Processor(at, _) | Change::NoThread(at) | Change::Rest(at) =>
            Some(*at),
        Change::Nothing | Change::First(_) | Change::Turns(_) => None,
    }
}

/// How many of so many events are left after the change.
fn left_of(count: usize, change: &Change) -> usize
    ensures { result ≤ count }
{
    match change {
        Change::First(first) => (*first).min(count),
        Change::Nothing
        | Change::Level(_, _)
        | Change::Processor(_, _)
        | Change::NoThread(_)
        | Change::Rest(_)
        | Change::Turns(_) => count,
    }
}

/// The events after the change.
fn changed_events(alloc: Global, history: &History, change: &Change) -> Result<Events, AllocError> {
    let given = history.lend();
    let mut events = Events::new(alloc);
    for at in 0..left_of(given.briefs.len(), change) {
        let mut event = given.event(at);
        if changed_place(change) == Some(at) {
            change_event(&mut event, change);
        }
        events.push(&event)?;
    }
    Ok(events)
}

/// The turn limit after the change.
fn changed_turns(limit: u32, change: &Change) -> u32
    requires limit { (1 ≤ limit) × (limit ≤ TURNS) }
    ensures { (1 ≤ result) × (result ≤ TURNS) }
{
    match change {
        Change::Turns(turns) => (*turns).clamp(1, TURNS),
        Change::Nothing
        | Change::Level(_, _)
        | Change::Processor(_, _)
        | Change::NoThread(_)
        | Change::Rest(_)
        | Change::First(_) => limit,
    }
}

/// The verdict on the history of the run by the robin rule, after the change.
pub(crate) fn changed_verdict(
    alloc: Global,
    input: &Input,
    limit: u32,
    change: Change,
) -> Result<Verdict, AllocError>
    requires sound { IsSound input.now }
    requires most { input.now.script.cpus ≤ 8 }
    requires some { 1 ≤ limit }
    requires few { limit ≤ TURNS }
{
    let history = run(alloc, &input.script, limit)?;
    let events = changed_events(alloc, &history, &change);
    drop(history);
    let changed = History::new(changed_turns(limit, &change), events?);
    let verdict = check(alloc, &input.script, &changed);
    drop(changed);
    verdict
}
