//! A machine that takes turns which are not refused.
ghost use Rattle.std.specs.Prelude.{◌≡◌, Ok, true};
ghost use Rattle.nt_event.specs.declared.events.Event.{Event};
ghost use Rattle.nt_event.specs.Robin.{is_settled};
ghost use Rattle.nt_event.specs.Step.{step};
ghost use Rattle.nt_orders.specs.Machines.{IsTaken};
ghost use Rattle.nt_orders.specs.Beginnings.{IsRobinFrom};

use nt_core::Core;
use nt_event::Turn;

/// Takes a turn that is not refused.
pub(crate) fn take(core: &mut Core, turn: &Turn)
    requires { (e : Event) × (step core.old.script core.old.limit turn.now core.old.past ≡ Ok e) }
    ensures { IsTaken turn.now core.old core.new }
{
    match core.turn(*turn) {
        Ok(_) => {}
        Err(_) => unreachable!(),
    }
}

/// Goes on by the robin rule until all is settled.
pub(crate) fn settle(core: &mut Core)
    ensures script { core.new.script ≡ core.old.script }
    ensures limit { core.new.limit ≡ core.old.limit }
    ensures robin { IsRobinFrom core.old.script core.old.limit core.old.past core.new.past }
    ensures settled { is_settled core.old.script core.old.limit core.new.past ≡ true }
{
    core.is_run();
    while let Some(turn) = core.robin() {
        take(core, &turn);
        core.is_run();
    }
}
