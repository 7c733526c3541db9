//! A run that begins with given turns.
ghost use Rattle.std.specs.Prelude.{◌≡◌, ◌≤◌, ◌*◌, [], IfOk, IsTrue, reverse, true};
ghost use Rattle.nt_event.specs.Robin.{is_settled};
ghost use Rattle.nt_event.specs.Script.{fits};
ghost use Rattle.nt_event.specs.Step.{IsRun};
ghost use Rattle.nt_orders.specs.Beginnings.{HasWent, IsGoneOn};

use crate::machines::settle;
use nt_core::Core;
use nt_event::limits::{EVENTS, TURNS};
use nt_event::{ScheduleKind, Script};
use nt_history::{History, Turns, no_turn};
use std::alloc::{AllocError, Global};

/// How far given turns were taken.
#[derive(Clone, Copy, PartialEq, Eq, Debug)]
pub enum Went {
    /// All were taken.
    All,
    /// The turn at this place, from 0, is refused after those before it, which were taken. Neither
    /// it nor any behind it was taken.
    RefusedAt { at: u32, kind: ScheduleKind },
}

/// A settled run that begins with given turns.
#[derive(Drop, Debug)]
pub struct GoneOn {
    /// The run, with its turn limit.
    pub history: History,
    /// How many of the turns it begins with.
    pub went: Went,
}

/// Takes the turns one by one, up to the first that is refused.
fn take_turns(core: &mut Core, turns: &Turns) -> Went
    requires empty { core.old.past ≡ [] }
    requires room { core.old.script.cpus * core.old.limit ≤ EVENTS }
    ensures script { core.new.script ≡ core.old.script }
    ensures limit { core.new.limit ≡ core.old.limit }
    ensures went { HasWent core.old.script core.old.limit turns.now core.new.past result }
{
    let mut at = 0;
    let mut walk = turns.walk();
    let mut turn = no_turn();
    while walk.next(&mut turn) {
        core.is_run();
        match core.turn(turn) {
            Ok(_) => at += 1,
            Err(refusal) => {
                let kind = refusal.kind();
                return Went::RefusedAt { at, kind };
            }
        }
    }
    Went::All
}

/// The settled run that begins with these turns, where each processor may make this many events:
/// the turns are taken one by one until one is refused or all were taken, and from there on the
/// robin rule goes on until all is settled. An error is want of memory.
///
/// The script fits, and `limit` is 1 to 20,000 and at most 160,000 in all processors together. That
/// the robin rule goes on, and that it is the one that does, is a choice of this project (profile).
pub fn go_on(
    alloc: Global,
    script: &Script,
    limit: u32,
    turns: &Turns,
) -> Result<GoneOn, AllocError>
    requires script { IsTrue (fits script.now) }
    requires limit { (1 ≤ limit) × (limit ≤ TURNS) }
    requires all { script.now.cpus * limit ≤ EVENTS }
    ensures limit { IfOk result (λ g. g.history.turns ≡ limit) }
    ensures run { IfOk result (λ g. IsRun script.now limit (reverse g.history.events)) }
    ensures settled { IfOk result (λ g.
        is_settled script.now limit (reverse g.history.events) ≡ true) }
    ensures begins { IfOk result (λ g.
        IsGoneOn script.now limit turns.now g.went (reverse g.history.events)) }
{
    let mut core = Core::new(alloc, script, limit)?;
    let went = take_turns(&mut core, turns);
    settle(&mut core);
    core.is_run();
    Ok(GoneOn {
        history: core.finish(),
        went,
    })
}
