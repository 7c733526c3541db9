//! The shrunk list.
ghost use Rattle.std.specs.Prelude.{◌≡◌, ◌≤◌, ◌*◌, IfErr, IfOk, IsTrue, length, option_map};
ghost use Rattle.nt_event.specs.Script.{fits};
ghost use Rattle.nt_shrink.specs.Laws.{IsDelivery};
ghost use Rattle.nt_shrink.specs.Refusals.{IsShrinkRefused};
ghost use Rattle.nt_shrink.specs.Shorter.{without as list_without};
ghost use Rattle.nt_shrink.specs.Spare.{IsShrunk, NoneSpare, greatest_spare};

use crate::goals::{Goal, delivers};
use crate::leaving::copy_without;
use crate::refusals::ShrinkRefusal;
use crate::searching::Places;
use crate::tracing::trace;
use crate::twins::Twins;
use nt_event::limits::{EVENTS, TURNS};
use nt_event::{Script, Turn};
use nt_history::{Turns, no_turn};
use std::alloc::{AllocError, Global};

/// Turns of a list that is shrunk, at most.
pub const MOST_TURNS: usize = 1_000;

/// The turns of a list. An error is want of memory.
fn turns_of(alloc: Global, list: &Turns) -> Result<Vec<Turn>, AllocError>
    ensures { IfOk result (λ turns. turns.items ≡ list.now) }
{
    let mut turns = Vec::with_capacity(alloc, list.len())?;
    let mut walk = list.walk();
    let mut turn = no_turn();
    while walk.next(&mut turn) {
        turns.push(turn)?;
    }
    Ok(turns)
}

/// The greatest spare place of the list. An error is want of memory.
fn spare_place(
    alloc: Global,
    script: &Script,
    turns: u32,
    list: &Turns,
    goal: Goal,
) -> Result<Option<u32>, AllocError>
    requires script { IsTrue (fits script.now) }
    requires turns { (1 ≤ turns) × (turns ≤ TURNS) }
    requires all { script.now.cpus * turns ≤ EVENTS }
    requires few { length list.now ≤ MOST_TURNS }
    ensures { IfOk result (λ at. at ≡ greatest_spare script.now turns goal list.now) }
{
    let all = turns_of(alloc, list)?;
    let twins = Twins::of(alloc, list)?;
    let places = Places {
        turns: all.as_slice(),
        twins: &twins,
        goal,
    };
    places.search(alloc, script, turns)
}

/// The list without its greatest spare place; None where none is spare. An error is want of memory.
fn shortened(
    alloc: Global,
    script: &Script,
    turns: u32,
    list: &Turns,
    goal: Goal,
) -> Result<Option<Turns>, AllocError>
    requires script { IsTrue (fits script.now) }
    requires turns { (1 ≤ turns) × (turns ≤ TURNS) }
    requires all { script.now.cpus * turns ≤ EVENTS }
    requires few { length list.now ≤ MOST_TURNS }
    ensures { IfOk result (λ shorter. shorter
        ≡ option_map (λ at. list_without at list.now)
        (greatest_spare script.now turns goal list.now)) }
{
    match spare_place(alloc, script, turns, list, goal)? {
        Some(at) => {
            let shorter = copy_without(alloc, list, at)?;
            Ok(Some(shorter))
        }
        None => Ok(None),
    }
}

/// A short list of turns that still delivers the request: the greatest spare place of the list is
/// left out, again and again, until there is none. A place is spare where the other turns are taken
/// and a routine of the object begins in their history.
///
/// The script fits, and `turns`, how many events each processor may make, is 1 to 20,000 and at
/// most 160,000 in all processors together. TooMany comes where the list has more than 1,000 turns,
/// else Bad where [`trace`] refuses a turn so, else NotDelivered where the history of the turns
/// doesn't deliver the request; NoMemory may come at any place.
///
/// No single turn of the answer can be left out. Its history needn't be settled, so a replay of it
/// may be refused as Unfinished.
pub fn shrink(
    alloc: Global,
    script: &Script,
    turns: u32,
    list: &Turns,
    goal: Goal,
) -> Result<Turns, ShrinkRefusal>
    requires script { IsTrue (fits script.now) }
    requires turns { (1 ≤ turns) × (turns ≤ TURNS) }
    requires all { script.now.cpus * turns ≤ EVENTS }
    ensures ok { IfOk result (λ answer. IsShrunk script.now turns goal list.now answer) }
    ensures delivers { IfOk result (λ answer. IsDelivery script.now turns goal answer) }
    ensures none_spare { IfOk result (λ answer. NoneSpare script.now turns goal answer) }
    ensures err { IfErr result (λ r. IsShrinkRefused script.now turns goal list.now r) }
{
    if MOST_TURNS < list.len() {
        return Err(ShrinkRefusal::TooMany);
    }
    let history = trace(alloc, script, turns, list)?;
    let is_delivered = delivers(&history, goal);
    drop(history);
    if !is_delivered {
        return Err(ShrinkRefusal::NotDelivered);
    }
    let mut short = copy_without(alloc, list, MOST_TURNS as u32)?;
    while let Some(shorter) = shortened(alloc, script, turns, &short, goal)? {
        short = shorter;
    }
    Ok(short)
}
