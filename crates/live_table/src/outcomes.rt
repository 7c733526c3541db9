//! What is seen of a case.
ghost use Rattle.std.specs.Prelude.{◌*◌, ◌≤◌, IsTrue};
ghost use Rattle.nt_event.specs.declared.limits.TheConstants.{EVENTS};
ghost use Rattle.nt_event.specs.Script.{fits};

use crate::beginning::Which;
use crate::cases::{Case, Task};
use crate::lanes::{held_beside, turned_beside};
use crate::lock_scripts::script_of;
use crate::pieces::{all_worked, first_worked};
use crate::runs::{crossed, followed, lived, met, woken};
use nt_event::Script;
use nt_event::limits::EVENTS;
use nt_load::load_script;
use nt_script::{ScriptRefusal, read};
use nt_text::INPUT_LIMIT;
use std::alloc::{AllocError, Global};
use std::sync::Wait;
use std::thread::Threads;

/// What is seen of the task, on this script.
fn seen<R: Threads + Wait + Sync>(
    rt: &R,
    alloc: Global,
    case: &Case,
    script: &Script,
) -> Result<&'static str, AllocError>
    requires script { IsTrue (fits script.now) }
    requires all { script.now.cpus * case.now.limit ≤ EVENTS }
{
    let limit = case.limit;
    match case.task {
        Task::Meet => met(rt, alloc, script, limit),
        Task::Follow => followed(rt, alloc, script, limit),
        Task::Cross => crossed(rt, alloc, script, limit),
        Task::Wake => woken(rt, alloc, script, limit),
        Task::Live | Task::Load(_) => lived(rt, alloc, script, limit),
        Task::Pieces => all_worked(rt, alloc, script, limit),
        Task::First => first_worked(rt, alloc, script, limit),
        Task::Turn(lane, looks) => {
            turned_beside(rt, alloc, script, limit, Which::First, lane, looks)
        }
        Task::Next(lane, looks) => {
            turned_beside(rt, alloc, script, limit, Which::Second, lane, looks)
        }
        Task::Hold(first, second) => held_beside(rt, alloc, script, limit, first, second),
    }
}

/// The text, with a line's end for each `/`.
fn lines_of(alloc: Global, text: &str) -> Result<Vec<u8>, AllocError> {
    let mut lines = Vec::new(alloc);
    for byte in text.as_bytes() {
        lines.push(if *byte == b'/' { b'\n' } else { *byte })?;
    }
    Ok(lines)
}

/// What is seen of the case on this script, where it fits and its runs are short enough.
fn script_seen<R: Threads + Wait + Sync>(
    rt: &R,
    alloc: Global,
    case: &Case,
    script: &Script,
) -> Result<&'static str, AllocError> {
    if !script.fits() || u32::from(script.cpus) * case.limit > EVENTS {
        return Ok("no script");
    }
    seen(rt, alloc, case, script)
}

/// What is seen of the case, whose script has this text.
fn text_seen<R: Threads + Wait + Sync>(
    rt: &R,
    alloc: Global,
    case: &Case,
    text: &[u8],
) -> Result<&'static str, AllocError> {
    if text.len() > INPUT_LIMIT {
        return Ok("no script");
    }
    match read(alloc, text) {
        Ok(input) => {
            let seen = script_seen(rt, alloc, case, &input.script);
            drop(input);
            seen
        }
        Err(ScriptRefusal::Bad { .. }) => Ok("no script"),
        Err(ScriptRefusal::NoMemory) => Err(AllocError),
    }
}

/// What is seen of the case, whose script has this text with `/` for the end of a line.
fn lines_seen<R: Threads + Wait + Sync>(
    rt: &R,
    alloc: Global,
    case: &Case,
    script: &str,
) -> Result<&'static str, AllocError> {
    let text = lines_of(alloc, script)?;
    text_seen(rt, alloc, case, text.as_slice())
}

/// What is seen of the case, on the script with spin locks of this name.
fn named_seen<R: Threads + Wait + Sync>(
    rt: &R,
    alloc: Global,
    case: &Case,
    name: &str,
) -> Result<&'static str, AllocError> {
    match script_of(alloc, name)? {
        Some(script) => {
            let seen = script_seen(rt, alloc, case, &script);
            drop(script);
            seen
        }
        None => Ok("no script"),
    }
}

/// What is seen of the case, on the load of this seed.
fn load_seen<R: Threads + Wait + Sync>(
    rt: &R,
    alloc: Global,
    case: &Case,
    seed: u32,
) -> Result<&'static str, AllocError> {
    let input = load_script(alloc, seed)?;
    let seen = script_seen(rt, alloc, case, &input.script);
    drop(input);
    seen
}

/// What is seen of the case, with this script, in which `/` stands for the end of a line; or with
/// the script with spin locks whose name stands behind `locks`.
pub(crate) fn outcome<R: Threads + Wait + Sync>(
    rt: &R,
    alloc: Global,
    case: &Case,
    script: &str,
) -> Result<&'static str, AllocError> {
    match (case.task, script.split_once(' ')) {
        (Task::Load(seed), _) => load_seen(rt, alloc, case, seed),
        (_, Some(("locks", name))) => named_seen(rt, alloc, case, name),
        _ => lines_seen(rt, alloc, case, script),
    }
}
