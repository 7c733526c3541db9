//! Schedules, and those of histories.
ghost use Rattle.std.specs.Prelude.{◌≡◌, map, IfOk};
ghost use Rattle.nt_log.specs.Schedules.{turn_bound};
ghost use Rattle.nt_event.specs.Step.{turn_of};

use nt_event::limits;
use nt_history::{History, Turns};
use std::alloc::{AllocError, Global};

/// As many processors as may each make the most turns.
const FEW_CPUS: u8 = 8;

/// The greatest turn limit of more processors: 64 of them make no more events than 8 with the
/// greatest one.
const TURNS_OF_MANY: u32 = 2_500;

/// The greatest turn limit of a script with so many processors: 20,000 up to 8 of them, else 2,500.
/// Profile.
pub fn turn_bound(cpus: u8) -> u32
    ensures { result ≡ turn_bound cpus }
{
    if cpus <= FEW_CPUS {
        limits::TURNS
    } else {
        TURNS_OF_MANY
    }
}

/// How many events each processor may make, and whose step is next each time.
#[derive(Drop, Debug)]
pub struct Schedule {
    pub turns: u32,
    pub list: Turns,
}

/// The schedule of a history: its turn limit and the turns of its events. An error is want of
/// memory.
pub fn turns_of(alloc: Global, history: &History) -> Result<Schedule, AllocError>
    ensures limit { IfOk result (λ s. s.turns ≡ history.now.turns) }
    ensures list { IfOk result (λ s. s.list ≡ map turn_of history.now.events) }
{
    let mut list = Turns::new(alloc);
    let events = history.lend();
    for event in events.briefs {
        list.push(&events.turn_of(event))?;
    }
    Ok(Schedule {
        turns: history.turns(),
        list,
    })
}
