//! The first event of a script, as its first processor makes it by itself over a floor in memory.
ghost use Rattle.std.specs.Prelude.{◌≡◌, ◌<◌, ◌≤◌};
ghost use Rattle.nt_script.specs.Sound.{IsSound};

use nt_core::run;
use nt_cpu::{Cpu, Local, Turned};
use nt_event::limits::TURNS;
use nt_event::{CpuNo, Event};
use nt_history::History;
use nt_plain::PlainFloor;
use nt_print::report;
use nt_script::Input;
use std::alloc::{AllocError, Global};

/// The event in words, so that two of them can be compared.
fn shown(alloc: Global, event: Option<Event>) -> Result<String, AllocError> {
    format!(in alloc; "{event:?}")
}

/// The event in words, unless memory ran out when it was made.
fn shown_made(
    alloc: Global,
    event: Result<Option<Event>, AllocError>,
) -> Result<String, AllocError> {
    match event {
        Ok(event) => shown(alloc, event),
        Err(error) => Err(error),
    }
}

/// The event that a call made, in words.
fn shown_turned(alloc: Global, turned: Result<Turned, AllocError>) -> Result<String, AllocError> {
    match turned? {
        Turned::Did(event) => shown(alloc, Some(event)),
        Turned::Quiet | Turned::Cut => shown(alloc, None),
    }
}

/// The event in words, made in two steps: alone, or by the floor if it needs a lane.
fn by_steps(alloc: Global, input: &Input, limit: u32) -> Result<String, AllocError>
    requires sound { IsSound input.now }
    requires most { input.now.script.cpus ≤ 8 }
    requires cpus { 0 < input.now.script.cpus }
    requires limit { (1 ≤ limit) × (limit ≤ TURNS) }
{
    let mut cpu = Cpu::new(alloc, &input.script, CpuNo(0), limit)?;
    let mut floor = PlainFloor::new(alloc, &input.script, limit)?;
    let event = match cpu.step_local(&mut floor) {
        Local::Did(event) => Ok(Some(event)),
        Local::NeedsLane(job) => match cpu.step_lane(&mut floor, job) {
            Ok(event) => Ok(Some(event)),
            Err(error) => Err(error),
        },
        Local::Quiet | Local::Cut => Ok(None),
    };
    shown_made(alloc, event)
}

/// The event in words, made by one call.
fn by_advance(alloc: Global, input: &Input, limit: u32) -> Result<String, AllocError>
    requires sound { IsSound input.now }
    requires most { input.now.script.cpus ≤ 8 }
    requires cpus { 0 < input.now.script.cpus }
    requires limit { (1 ≤ limit) × (limit ≤ TURNS) }
{
    let mut cpu = Cpu::new(alloc, &input.script, CpuNo(0), limit)?;
    let mut floor = PlainFloor::new(alloc, &input.script, limit)?;
    shown_turned(alloc, cpu.advance(&mut floor))
}

fn first(history: &History) -> Option<Event> {
    let events = history.lend();
    if events.briefs.is_empty() {
        return None;
    }
    Some(events.event(0))
}

fn agreement(event: &str, first: &str) -> &'static str {
    if event == first {
        "as in the run"
    } else {
        "not as in the run"
    }
}

/// A line for each way, whether it gives this event.
fn agreements(alloc: Global, input: &Input, limit: u32, first: &str) -> Result<String, AllocError>
    requires sound { IsSound input.now }
    requires most { input.now.script.cpus ≤ 8 }
    requires cpus { 0 < input.now.script.cpus }
    requires limit { (1 ≤ limit) × (limit ≤ TURNS) }
{
    let steps = by_steps(alloc, input, limit)?;
    let advance = by_advance(alloc, input, limit)?;
    let steps = agreement(steps.as_str(), first);
    let advance = agreement(advance.as_str(), first);
    format!(in alloc; "steps: {steps}\nadvance: {advance}\n")
}

/// Whether each way gives the first event of the run by the robin rule, and the report of that run.
pub(crate) fn stepped(alloc: Global, input: &Input, limit: u32) -> Result<Vec<u8>, AllocError>
    requires sound { IsSound input.now }
    requires most { input.now.script.cpus ≤ 8 }
    requires some { 1 ≤ limit }
    requires few { limit ≤ TURNS }
{
    if input.script.cpus == 0 {
        return Ok(Vec::new(alloc));
    }
    let history = run(alloc, &input.script, limit)?;
    let first = shown(alloc, first(&history))?;
    let mut text = agreements(alloc, input, limit, first.as_str())?.into_bytes();
    text.extend_from_slice(report(alloc, input, &history)?.as_slice())?;
    Ok(text)
}
