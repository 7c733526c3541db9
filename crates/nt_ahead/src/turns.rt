//! The turns that may be taken after a history.
ghost use Rattle.std.specs.Prelude.{◌≡◌, ◌++◌, ◌<◌, ◌∷◌, IfOk, IsTrue, List, OnOk, filter, length};
ghost use Rattle.std.specs.Prelude.{map};
ghost use Rattle.nt_event.specs.declared.events.Event.{Event};
ghost use Rattle.nt_event.specs.Lists.{table};
ghost use Rattle.nt_event.specs.Numbers.{thread};
ghost use Rattle.nt_event.specs.Script.{fits};
ghost use Rattle.nt_shade_asks.specs.Follows.{IsAsked, IsOf};
ghost use Rattle.nt_ahead.specs.Choices.{finds};
ghost use Rattle.nt_ahead.specs.Turns.{AreKept, HasAll, HasAllOf};

use crate::choices::finds_ahead;
use nt_event::{CpuNo, Rises, Script, ThreadNo, Turn};
use nt_shade_asks::Unnoticed;
use std::alloc::{AllocError, Global};

/// Adds the turn Next of the processor, and its turn Switch to each thread of the script.
fn add_plain(turns: &mut Vec<Turn>, script: &Script, cpu: CpuNo) -> Result<(), AllocError>
    requires { IsTrue (fits script.now) }
    ensures { OnOk result (turns.new.items ≡ turns.old.items ++ (Turn.Next cpu
        ∷ table (length script.now.threads) (λ t. Turn.Switch cpu (thread t)))) }
{
    turns.push(Turn::Next(cpu))?;
    for place in 0..script.thread_count() {
        turns.push(Turn::Switch(cpu, ThreadNo(place as u16)))?;
    }
    Ok(())
}

/// Whether a look found anything.
fn found_any(found: &Rises) -> bool
    ensures { result ≡ finds found.now }
{
    found.value.iter().any(|value| 0 < *value)
}

/// Adds the turns Look of the processor that find something.
fn add_looks(turns: &mut Vec<Turn>, cpu: CpuNo, looks: &[Rises]) -> Result<(), AllocError>
    ensures { OnOk result (turns.new.items
        ≡ turns.old.items ++ map (λ r. Turn.Look cpu r) (filter finds looks.now)) }
{
    for found in looks {
        if found_any(found) {
            turns.push(Turn::Look(cpu, *found))?;
        }
    }
    Ok(())
}

/// Adds the turns of the processor.
fn add_turns(
    alloc: Global,
    turns: &mut Vec<Turn>,
    script: &Script,
    asks: &Unnoticed,
    cpu: CpuNo,
) -> Result<(), AllocError>
    requires fits { IsTrue (fits script.now) }
    requires of { IsOf script.now asks.now }
    requires cpu { cpu.0 < script.now.cpus }
    ensures kept { OnOk result (AreKept turns.old.items turns.new.items) }
    ensures all { OnOk result ((past : List Event) → IsAsked script.now past asks.now →
        HasAllOf script.now past cpu turns.new.items) }
{
    let finds = finds_ahead(alloc, asks, cpu)?;
    add_plain(turns, script, cpu)?;
    add_looks(turns, cpu, finds.as_slice())?;
    Ok(())
}

/// The turns to try after a history: Next of each processor, Switch of each processor to each
/// thread, and Look of each processor with each choice of what it was asked by and has not noticed.
///
/// The script fits, and `asks` is of the script. Where `asks` keeps what a history says, each turn
/// that may be taken after it, at no turn limit, is one of these. Others may be among them too.
/// There are as many looks as choices, so that a processor that was asked often may need much
/// memory.
pub fn turns_ahead(
    alloc: Global,
    script: &Script,
    asks: &Unnoticed,
) -> Result<Vec<Turn>, AllocError>
    requires fits { IsTrue (fits script.now) }
    requires of { IsOf script.now asks.now }
    ensures { IfOk result (λ turns. (past : List Event) → IsAsked script.now past asks.now →
        HasAll script.now past turns.items) }
{
    let mut turns = Vec::new(alloc);
    for cpu in 0..script.cpus {
        add_turns(alloc, &mut turns, script, asks, CpuNo(cpu))?;
    }
    Ok(turns)
}
