//! The run that begins with given turns and goes on by the robin rule.
ghost use Rattle.std.specs.Prelude.{◌≡◌, ◌≤◌, [], IfOk, IsTrue, List, true};
ghost use Rattle.nt_event.specs.declared.events.Event.{Event as TheEvent};
ghost use Rattle.nt_event.specs.Robin.{is_settled};
ghost use Rattle.nt_event.specs.Script.{fits};
ghost use Rattle.nt_event.specs.Step.{IsRun};
ghost use Rattle.nt_log.specs.Schedules.{turn_bound};
ghost use Rattle.nt_witness.specs.Leads.{Lead};
ghost use Rattle.nt_witness.specs.Limits.{completed as completed_in, most_of};
ghost use Rattle.nt_witness.specs.Machines.{IsTaken};
ghost use Rattle.nt_witness.specs.Witnesses.{IsCompleted};

use nt_core::Core;
use nt_event::{Script, Turn};
use nt_history::History;
use std::alloc::{AllocError, Global};

/// Takes the turn, where that is not refused.
fn take(core: &mut Core, turn: &Turn)
    ensures { IsTaken turn.now core.old core.new }
{
    let _taken = core.turn(*turn);
}

/// A machine that took the turns, where each processor may make this many events.
fn begun<'s>(
    alloc: Global,
    script: &'s Script,
    turns: &[Turn],
    limit: u32,
) -> Result<Core<'s>, AllocError>
    requires fits { IsTrue (fits script.now) }
    requires limit { (1 ≤ limit) × (limit ≤ turn_bound script.now.cpus) }
    requires room { most_of turns.now ≤ limit }
    ensures script { IfOk result (λ c. c.script ≡ script.now) }
    ensures limit { IfOk result (λ c. c.limit ≡ limit) }
    ensures past { IfOk result (λ c.
        (h : List TheEvent) → Lead script.now turns.now [] h → c.past ≡ h) }
{
    let mut core = Core::new(alloc, script, limit)?;
    for turn in turns {
        take(&mut core, turn);
    }
    Ok(core)
}

/// Goes on by the robin rule to the end.
fn go_on(core: &mut Core)
    ensures script { core.new.script ≡ core.old.script }
    ensures limit { core.new.limit ≡ core.old.limit }
    ensures past { core.new.past
        ≡ completed_in core.old.script core.old.limit core.old.past }
    ensures run { IsRun core.old.script core.old.limit core.new.past }
    ensures settled { is_settled core.old.script core.old.limit core.new.past ≡ true }
{
    core.is_run();
    while let Some(turn) = core.robin() {
        take(core, &turn);
        core.is_run();
    }
}

/// The settled run that begins with the turns and goes on by the robin rule.
pub(crate) fn completed(
    alloc: Global,
    script: &Script,
    turns: &[Turn],
    limit: u32,
) -> Result<History, AllocError>
    requires fits { IsTrue (fits script.now) }
    requires limit { (1 ≤ limit) × (limit ≤ turn_bound script.now.cpus) }
    requires room { most_of turns.now ≤ limit }
    ensures { IfOk result (λ r. IsCompleted script.now turns.now limit r) }
{
    let mut core = begun(alloc, script, turns, limit)?;
    go_on(&mut core);
    Ok(core.finish())
}
