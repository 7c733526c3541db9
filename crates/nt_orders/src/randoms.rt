//! A random run.
ghost use Rattle.std.specs.Prelude.{◌≡◌, ◌≤◌, ◌*◌, IfOk, IsTrue, reverse, true};
ghost use Rattle.nt_event.specs.Robin.{is_settled};
ghost use Rattle.nt_event.specs.Script.{fits};
ghost use Rattle.nt_event.specs.Step.{IsRun};

use crate::drawing::{take_some, usual_turn};
use crate::draws::Draws;
use nt_core::Core;
use nt_event::Script;
use nt_event::limits::{EVENTS, TURNS};
use nt_history::History;
use std::alloc::{AllocError, Global};

/// Takes turns that are drawn until all is settled.
fn draw_on(core: &mut Core, script: &Script, draws: &mut Draws)
    requires { script.now ≡ core.old.script }
    ensures script { core.new.script ≡ core.old.script }
    ensures limit { core.new.limit ≡ core.old.limit }
    ensures settled { is_settled core.old.script core.old.limit core.new.past ≡ true }
{
    while let Some(usual) = usual_turn(core, script.cpus, draws) {
        take_some(core, script, &usual, draws);
        core.is_run();
    }
}

/// A random settled run of the script, where each processor may make this many events. The same
/// seed gives the same run. An error is want of memory.
///
/// For each turn a processor is drawn among those that have one, each with the same chance. Of it
/// a turn is drawn: where something was asked for that it has not seen, a look at all of this or at
/// some classes of it; its next event; or a switch to one of its threads. Where that is refused,
/// the next is drawn; after some tries it takes its turn by the robin rule. So each turn that may
/// be taken can come, but for looks at older values than the newest of a class (profile).
///
/// The script fits, and `limit` is 1 to 20,000 and at most 160,000 in all processors together.
pub fn random(alloc: Global, script: &Script, limit: u32, seed: u64) -> Result<History, AllocError>
    requires script { IsTrue (fits script.now) }
    requires limit { (1 ≤ limit) × (limit ≤ TURNS) }
    requires all { script.now.cpus * limit ≤ EVENTS }
    ensures limit { IfOk result (λ h. h.turns ≡ limit) }
    ensures run { IfOk result (λ h. IsRun script.now limit (reverse h.events)) }
    ensures settled { IfOk result (λ h. is_settled script.now limit (reverse h.events) ≡ true) }
{
    let mut core = Core::new(alloc, script, limit)?;
    let mut draws = Draws::new(seed);
    draw_on(&mut core, script, &mut draws);
    core.is_run();
    Ok(core.finish())
}
