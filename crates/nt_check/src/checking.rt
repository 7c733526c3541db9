//! The check of a history.
ghost use Rattle.std.specs.Prelude.{◌≡◌, ◌<◌, ◌≤◌, ◌*◌, ◌↔◌, [], IfOk, IsTrue, Ok, Some, length};
ghost use Rattle.std.specs.List.{slice_get};
ghost use Rattle.nt_event.specs.declared.events.Event.{Event as EventOf};
ghost use Rattle.nt_event.specs.Script.{fits};
ghost use Rattle.nt_plain.specs.States.{view_of};
ghost use Rattle.nt_cpus.specs.Following.{AreAfter};
ghost use Rattle.nt_history.specs.Briefs.{events_in};
ghost use Rattle.nt_check.specs.Verdicts.{IsVerdict, made_by};

use nt_cpu::no_event;
use nt_cpus::{CoreRefusal, Processors};
use nt_event::limits::{EVENTS, TURNS};
use nt_event::{Event, Script};
use nt_history::{Briefs, History};
use nt_plain::PlainFloor;
use std::alloc::{AllocError, Global};

/// What a history is.
#[derive(Clone, Copy, PartialEq, Eq, Debug)]
pub enum Verdict {
    /// A settled run: each event is the one that the machine makes by its turn after those before
    /// it, and at the end each processor is cut, or rests or spins still and has seen what was
    /// asked for.
    Legal,
    /// The event of this number, from 0, is the first that is not the one that the machine makes by
    /// its turn; or it is the number of events, all are the machine's, and some processor has more
    /// to do.
    IllegalAt(u64),
}

/// Whether a turn was taken and made the event of this number, in all its fields.
fn is_made(
    taken: &Result<(), CoreRefusal>,
    made: &Event,
    events: &Briefs<'_>,
    number: usize,
) -> bool
    requires { number < length events.now.briefs.now }
    ensures { (e : EventOf) →
        slice_get (events_in events.now.briefs.now events.now.rises.now) number ≡ Some e →
        IsTrue result ↔ (made_by taken.now made.now ≡ Ok e) }
{
    match taken {
        Ok(()) => events.is_event(number, made),
        Err(_) => false,
    }
}

/// The verdict on these events by processors and a floor that made none.
fn judge(processors: &mut Processors, floor: &mut PlainFloor, events: &Briefs<'_>) -> Verdict
    requires { AreAfter [] processors.old floor.old.script (view_of floor.old) }
    ensures { IsVerdict processors.old.script processors.old.limit
        (events_in events.now.briefs.now events.now.rises.now) result }
{
    let mut made = no_event();
    for number in 0..events.briefs.len() {
        let taken = processors.turn(floor, &events.turn(number), &mut made);
        if !is_made(&taken, &made, events, number) {
            return Verdict::IllegalAt(number as u64);
        }
    }
    if processors.settled(floor) {
        Verdict::Legal
    } else {
        Verdict::IllegalAt(events.briefs.len() as u64)
    }
}

/// Whether the history is a settled run of the script, and if not, where it goes wrong first. An
/// error is want of memory.
///
/// The script fits, and the history's turn limit is 1 to 20,000 and at most 160,000 in all
/// processors together. Nothing is asked of its events: one whose processor the script does not
/// have is illegal there.
pub fn check(alloc: Global, script: &Script, history: &History) -> Result<Verdict, AllocError>
    requires script { IsTrue (fits script.now) }
    requires turns { (1 ≤ history.now.turns) × (history.now.turns ≤ TURNS) }
    requires all { script.now.cpus * history.now.turns ≤ EVENTS }
    ensures { IfOk result (λ v. IsVerdict script.now history.now.turns history.now.events v) }
{
    let mut processors = Processors::new(alloc, script, history.turns())?;
    let mut floor = PlainFloor::new(alloc, script, history.turns())?;
    Ok(judge(&mut processors, &mut floor, &history.lend()))
}
