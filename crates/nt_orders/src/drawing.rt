//! Which turn comes next in a random run.
ghost use Rattle.std.specs.Prelude.{◌≡◌, ◌<◌, ◌⊎◌, IfSome, None, Ok, Some, true};
ghost use Rattle.nt_event.specs.declared.events.Event.{Event};
ghost use Rattle.nt_event.specs.Robin.{is_settled};
ghost use Rattle.nt_event.specs.Step.{step};
ghost use Rattle.nt_orders.specs.Machines.{HasGrown};

use crate::draws::Draws;
use crate::machines::take;
use nt_core::Core;
use nt_event::{CpuNo, Rises, Script, ThreadNo, Turn};

/// How many turns are drawn for a processor, where those that were drawn are refused, before it
/// takes its turn by the robin rule (profile).
const TRIES: u32 = 8;

/// The turn with a chance of 1 in `count`, else the one that was drawn before. So each of `count`
/// turns that come one after another has the same chance.
fn drawn_of(before: Option<Turn>, turn: Turn, count: u64, draws: &mut Draws) -> Option<Turn>
    requires { 0 < count }
    ensures { (result ≡ Some turn) ⊎ ((result ≡ before) × (1 < count)) }
{
    if draws.below(count) == 0 {
        Some(turn)
    } else {
        before
    }
}

/// The robin rule's turn of a processor that is drawn among those that have one. It is not refused.
/// None comes only where all is settled.
pub(crate) fn usual_turn(core: &Core, cpus: u8, draws: &mut Draws) -> Option<Turn>
    requires { cpus ≡ core.now.script.cpus }
    ensures taken { IfSome result (λ t.
        (e : Event) × (step core.now.script core.now.limit t core.now.past ≡ Ok e)) }
    ensures none { result ≡ None →
        is_settled core.now.script core.now.limit core.now.past ≡ true }
{
    let mut drawn = None;
    let mut count = 0;
    for p in 0..cpus {
        if let Some(turn) = core.robin_of(CpuNo(p)) {
            count += 1;
            drawn = drawn_of(drawn, turn, count, draws);
        }
    }
    drawn
}

/// A thread that is bound to the processor, drawn among all such.
fn some_thread(script: &Script, cpu: CpuNo, draws: &mut Draws) -> Option<ThreadNo> {
    let mut drawn = None;
    let mut count = 0u64;
    let mut number = 0u16;
    for thread in script.threads.as_slice() {
        if thread.cpu == cpu {
            count = count.saturating_add(1);
            if draws.below(count) == 0 {
                drawn = Some(ThreadNo(number));
            }
        }
        number = number.saturating_add(1);
    }
    drawn
}

/// What of this a look might notice: each class with a chance of one half.
fn part_of(rises: &Rises, draws: &mut Draws) -> Rises {
    let mut part = *rises;
    for value in &mut part.value {
        if draws.below(2) == 0 {
            *value = 0;
        }
    }
    part
}

/// A turn in which the processor looks at all of this or at a part.
fn looking(cpu: CpuNo, rises: &Rises, draws: &mut Draws) -> Turn {
    if draws.below(2) == 0 {
        Turn::Look(cpu, *rises)
    } else {
        Turn::Look(cpu, part_of(rises, draws))
    }
}

/// A turn in which the processor makes its next event or takes up some thread.
fn going_on(script: &Script, cpu: CpuNo, draws: &mut Draws) -> Turn {
    if draws.below(2) == 0 {
        return Turn::Next(cpu);
    }
    match some_thread(script, cpu, draws) {
        Some(thread) => Turn::Switch(cpu, thread),
        None => Turn::Next(cpu),
    }
}

/// A turn of the processor whose turn by the robin rule is this one. It may be refused.
///
/// Where the rule has the processor make its next event, nothing else can be taken: there is
/// nothing to look at and no thread to take up.
fn drawn_turn(script: &Script, usual: &Turn, draws: &mut Draws) -> Turn {
    match usual {
        Turn::Look(cpu, rises) => {
            if draws.below(2) == 0 {
                looking(*cpu, rises, draws)
            } else {
                going_on(script, *cpu, draws)
            }
        }
        Turn::Switch(cpu, _) => going_on(script, *cpu, draws),
        Turn::Next(_) => *usual,
    }
}

/// Takes a turn of the processor whose turn by the robin rule is this one: the first that is drawn
/// and not refused, or after some tries this one.
pub(crate) fn take_some(core: &mut Core, script: &Script, usual: &Turn, draws: &mut Draws)
    requires { (e : Event) × (step core.old.script core.old.limit usual.now core.old.past ≡ Ok e) }
    ensures { HasGrown core.old core.new }
{
    for _ in 0..TRIES {
        let turn = drawn_turn(script, usual, draws);
        if let Ok(_) = core.turn(turn) {
            return;
        }
    }
    take(core, usual);
}
