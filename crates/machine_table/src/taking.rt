//! Turns that a machine takes one by one.
ghost use Rattle.std.specs.Prelude.{◌≡◌, ◌≤◌, true};
ghost use Rattle.nt_event.specs.Fitting.{events_fit};
ghost use Rattle.nt_script.specs.Sound.{IsSound};

use nt_core::Core;
use nt_event::limits::TURNS;
use nt_event::{ScheduleKind, Turn};
use nt_history::{History, Turns, no_turn};
use nt_print::report;
use nt_script::Input;
use std::alloc::{AllocError, Global};

/// Whether the turn is the robin rule's.
fn is_robins(core: &Core, turn: &Turn) -> bool {
    core.robin() == Some(*turn)
}

/// Why the turn is refused, or None if it is taken.
fn refusal(core: &mut Core, turn: &Turn) -> Option<ScheduleKind>
    ensures { core.new.script ≡ core.old.script }
{
    match core.turn(*turn) {
        Ok(_) => None,
        Err(refusal) => Some(refusal.kind()),
    }
}

/// The line of a turn says whether it is the robin rule's, and what became of it.
fn put_line(
    lines: &mut String,
    is_robins: bool,
    refusal: Option<ScheduleKind>,
) -> Result<(), AllocError> {
    let chooser = if is_robins { "robin" } else { "other" };
    match refusal {
        None => write!(lines, "{chooser}: taken\n"),
        Some(kind) => write!(lines, "{chooser}: {} {}\n", kind.number(), kind.name()),
    }
}

/// Whether the history is settled.
fn end(core: &Core) -> &'static str {
    if core.settled() {
        "settled\n"
    } else {
        "unsettled\n"
    }
}

/// Takes the turns of a list, and puts a line for each and whether the history is settled then.
fn put_turns(core: &mut Core, list: &Turns, lines: &mut String) -> Result<(), AllocError>
    ensures { core.new.script ≡ core.old.script }
{
    let mut walk = list.walk();
    let mut turn = no_turn();
    while walk.next(&mut turn) {
        let by_rule = is_robins(core, &turn);
        let refused = refusal(core, &turn);
        put_line(lines, by_rule, refused)?;
    }
    lines.push_str(end(core))
}

/// The lines of the turns of a list, which a machine takes.
fn turn_lines(alloc: Global, core: &mut Core, list: &Turns) -> Result<Vec<u8>, AllocError>
    ensures { core.new.script ≡ core.old.script }
{
    let mut lines = String::new(alloc);
    put_turns(core, list, &mut lines)?;
    Ok(lines.into_bytes())
}

/// Puts the report of a history after a text.
fn put_report(
    alloc: Global,
    input: &Input,
    history: &History,
    text: &mut Vec<u8>,
) -> Result<(), AllocError>
    requires sound { IsSound input.now }
    requires fit { events_fit input.now.script history.now.events ≡ true }
{
    let printed = report(alloc, input, history)?;
    text.extend_from_slice(printed.as_slice())
}

/// The lines with the report of a history behind them.
fn with_report(
    alloc: Global,
    input: &Input,
    history: &History,
    lines: Result<Vec<u8>, AllocError>,
) -> Result<Vec<u8>, AllocError>
    requires sound { IsSound input.now }
    requires fit { events_fit input.now.script history.now.events ≡ true }
{
    let mut text = lines?;
    put_report(alloc, input, history, &mut text)?;
    Ok(text)
}

/// A line for each turn, whether the history is settled then, and its report.
pub(crate) fn taken_lines(
    alloc: Global,
    input: &Input,
    limit: u32,
    list: &Turns,
) -> Result<Vec<u8>, AllocError>
    requires sound { IsSound input.now }
    requires most { input.now.script.cpus ≤ 8 }
    requires some { 1 ≤ limit }
    requires few { limit ≤ TURNS }
{
    let mut core = Core::new(alloc, &input.script, limit)?;
    let lines = turn_lines(alloc, &mut core, list);
    core.is_run();
    let history = core.finish();
    let text = with_report(alloc, input, &history, lines);
    drop(history);
    text
}
