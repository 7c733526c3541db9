//! The end of a run that was begun elsewhere: the turns of its events, and then those of the robin
//! rule.
ghost use Rattle.std.specs.Prelude.{◌≡◌, ◌≤◌, ◌*◌, ◌∷◌, [], IfOk, IsTrue, List, Ok, OnOk, reverse};
ghost use Rattle.std.specs.Prelude.{true};
ghost use Rattle.nt_event.specs.declared.events.Event.{Event};
ghost use Rattle.nt_event.specs.Robin.{is_settled};
ghost use Rattle.nt_event.specs.Script.{fits};
ghost use Rattle.nt_event.specs.Step.{IsRun, step, turn_of};
ghost use Rattle.nt_cpus.specs.Cycles.{last_cpu as last_of};
ghost use Rattle.nt_cpus.specs.Following.{AreAfter};
ghost use Rattle.nt_plain.specs.States.{view_of};
ghost use Rattle.nt_live.specs.Gathered.{GoesByRobin};

use nt_cpu::no_event;
use nt_cpus::Processors;
use nt_event::limits::{EVENTS, TURNS};
use nt_event::{CpuNo, Event, Script};
use nt_history::{Events, History};
use nt_plain::PlainFloor;
use std::alloc::{AllocError, Global};

/// Takes the turn of an event that is the next one of a run; the event is written once more.
fn repeat(processors: &mut Processors, floor: &mut PlainFloor, event: &Event, made: &mut Event)
    requires { (past : List Event) ×
        (AreAfter past processors.old floor.old.script (view_of floor.old) ×
        (step processors.old.script processors.old.limit (turn_of event.now) past ≡ Ok event.now)) }
    ensures after { (past : List Event) →
        AreAfter past processors.old floor.old.script (view_of floor.old) →
        step processors.old.script processors.old.limit (turn_of event.now) past ≡ Ok event.now →
        AreAfter (event.now ∷ past) processors.new floor.new.script (view_of floor.new) }
    ensures kept { (processors.new.script ≡ processors.old.script) ×
        (processors.new.limit ≡ processors.old.limit) }
{
    match processors.turn(floor, &event.turn(), made) {
        Ok(()) => {}
        Err(_) => unreachable!(),
    }
}

/// Takes the turns of the events of a run, from its beginning.
fn repeat_all(processors: &mut Processors, floor: &mut PlainFloor, events: &Events)
    requires start { AreAfter [] processors.old floor.old.script (view_of floor.old) }
    requires run { IsRun processors.old.script processors.old.limit (reverse events.now) }
    ensures after { AreAfter (reverse events.now) processors.new floor.new.script
        (view_of floor.new) }
    ensures kept { (processors.new.script ≡ processors.old.script) ×
        (processors.new.limit ≡ processors.old.limit) }
{
    let list = events.lend();
    let mut made = no_event();
    for number in 0..events.len() {
        repeat(processors, floor, &list.event(number), &mut made);
    }
}

/// The processor of the last event; None where there is none.
fn last_cpu(events: &Events) -> Option<CpuNo>
    ensures { result ≡ last_of (reverse events.now) }
{
    let count = events.len();
    if count == 0 {
        return None;
    }
    Some(events.lend().briefs[count - 1].cpu)
}

/// Makes the events of the robin rule until it has no turn, and puts each at the end of the list.
fn go_on_all(
    processors: &mut Processors,
    floor: &mut PlainFloor,
    events: &mut Events,
) -> Result<(), AllocError>
    requires { AreAfter (reverse events.old) processors.old floor.old.script
        (view_of floor.old) }
    ensures run { OnOk result
        (IsRun processors.old.script processors.old.limit (reverse events.new)) }
    ensures added { OnOk result (GoesByRobin processors.old.script processors.old.limit
        (reverse events.old) (reverse events.new)) }
    ensures settled { OnOk result
        (is_settled processors.old.script processors.old.limit (reverse events.new) ≡ true) }
{
    let mut made = no_event();
    while processors.go_on(floor, last_cpu(events), &mut made) {
        events.push(&made)?;
    }
    Ok(())
}

/// The run that goes on from these events by the robin rule to its end, made by processors and a
/// floor that nothing happened to.
fn finished_by(
    processors: &mut Processors,
    floor: &mut PlainFloor,
    mut events: Events,
) -> Result<History, AllocError>
    requires start { AreAfter [] processors.old floor.old.script (view_of floor.old) }
    requires run { IsRun processors.old.script processors.old.limit (reverse events) }
    ensures turns { IfOk result (λ h. h.turns ≡ processors.old.limit) }
    ensures run { IfOk result
        (λ h. IsRun processors.old.script processors.old.limit (reverse h.events)) }
    ensures settled { IfOk result
        (λ h. is_settled processors.old.script processors.old.limit (reverse h.events) ≡ true) }
    ensures added { IfOk result (λ h.
        GoesByRobin processors.old.script processors.old.limit (reverse events)
        (reverse h.events)) }
{
    let turns = processors.limit();
    repeat_all(processors, floor, &events);
    go_on_all(processors, floor, &mut events)?;
    Ok(History::new(turns, events))
}

/// The run that goes on from these events by the robin rule to its end, where each processor may
/// make this many events.
///
/// The script fits, the events are a run of it, and `turns` is 1 to 20,000 and at most 160,000 in
/// all processors together. The events of the rule are put behind the others in their list, which
/// is that of the history.
pub(crate) fn finished(
    alloc: Global,
    script: &Script,
    turns: u32,
    events: Events,
) -> Result<History, AllocError>
    requires script { IsTrue (fits script.now) }
    requires turns { (1 ≤ turns) × (turns ≤ TURNS) }
    requires all { script.now.cpus * turns ≤ EVENTS }
    requires run { IsRun script.now turns (reverse events) }
    ensures turns { IfOk result (λ h. h.turns ≡ turns) }
    ensures run { IfOk result (λ h. IsRun script.now turns (reverse h.events)) }
    ensures settled { IfOk result (λ h. is_settled script.now turns (reverse h.events) ≡ true) }
    ensures added { IfOk result
        (λ h. GoesByRobin script.now turns (reverse events) (reverse h.events)) }
{
    let mut processors = Processors::new(alloc, script, turns)?;
    let mut floor = PlainFloor::new(alloc, script, turns)?;
    let history = finished_by(&mut processors, &mut floor, events);
    drop(floor);
    history
}
