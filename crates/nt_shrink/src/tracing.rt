//! The history of a list of turns.
ghost use Rattle.std.specs.Prelude.{◌≡◌, ◌≤◌, ◌*◌, [], IfErr, IfOk, IsTrue, OnOk, Ok, length};
ghost use Rattle.std.specs.Prelude.{reverse};
ghost use Rattle.nt_event.specs.Script.{fits};
ghost use Rattle.nt_event.specs.Step.{IsRun};
ghost use Rattle.nt_plain.specs.States.{view_of};
ghost use Rattle.nt_cpus.specs.Following.{AreAfter, cpus_of};
ghost use Rattle.nt_shrink.specs.Refusals.{IsTraceRefused};
ghost use Rattle.nt_shrink.specs.Traces.{traced};

use crate::refusals::TraceRefusal;
use nt_cpu::no_event;
use nt_cpus::Processors;
use nt_event::Script;
use nt_event::limits::{EVENTS, TURNS};
use nt_history::{History, Recorder, Turns, no_turn};
use nt_plain::PlainFloor;
use std::alloc::Global;

/// Takes the turns over processors and a floor that made no event, and records their events. There
/// is room for them.
fn take_all(
    processors: &mut Processors,
    floor: &mut PlainFloor,
    events: &mut Recorder,
    list: &Turns,
) -> Result<(), TraceRefusal>
    requires after { AreAfter [] processors.old floor.old.script (view_of floor.old) }
    requires events { events.old.events ≡ [] }
    requires room { length list.now ≤ events.old.room }
    ensures ok { OnOk result (traced processors.old.script processors.old.limit list.now
        ≡ Ok (reverse events.new.events)) }
    ensures run { OnOk result
        (IsRun processors.old.script processors.old.limit (reverse events.new.events)) }
    ensures err { IfErr result
        (λ r. IsTraceRefused processors.old.script processors.old.limit list.now r) }
{
    let mut event = no_event();
    let mut walk = list.walk();
    let mut turn = no_turn();
    while walk.next(&mut turn) {
        match processors.turn(floor, &turn, &mut event) {
            Ok(()) => events.put(&event),
            Err(refusal) => {
                return Err(TraceRefusal::Bad {
                    at: events.len() as u32,
                    kind: refusal.kind(),
                });
            }
        }
    }
    Ok(())
}

/// The history of the turns, taken over processors and a floor that made no event. It owns what
/// records the events.
fn recorded(
    alloc: Global,
    processors: &mut Processors,
    floor: &mut PlainFloor,
    list: &Turns,
) -> Result<History, TraceRefusal>
    requires after { AreAfter [] processors.old floor.old.script (view_of floor.old) }
    ensures turns { IfOk result (λ h. h.turns ≡ processors.old.limit) }
    ensures ok { IfOk result (λ h. traced processors.old.script processors.old.limit list.now
        ≡ Ok (reverse h.events)) }
    ensures run { IfOk result
        (λ h. IsRun processors.old.script processors.old.limit (reverse h.events)) }
    ensures err { IfErr result
        (λ r. IsTraceRefused processors.old.script processors.old.limit list.now r) }
{
    let turns = processors.limit();
    let mut events = Recorder::new(alloc, list.len())?;
    match take_all(processors, floor, &mut events, list) {
        Ok(()) => Ok(History::new(turns, events.finish())),
        Err(refusal) => Err(refusal),
    }
}

/// The history of the turns, taken over processors that made no event. It owns the floor.
#[tactic(auto, using(crate::proofs::Taking::start_taking))]
fn traced_by(
    alloc: Global,
    script: &Script,
    turns: u32,
    processors: &mut Processors,
    list: &Turns,
) -> Result<History, TraceRefusal>
    requires script { IsTrue (fits script.now) }
    requires turns { turns ≤ TURNS }
    requires all { script.now.cpus * turns ≤ EVENTS }
    requires processors { processors.old
        ≡ record { script = script.now; limit = turns; cpus = cpus_of script.now turns [] } }
    ensures turns { IfOk result (λ h. h.turns ≡ turns) }
    ensures ok { IfOk result (λ h. traced script.now turns list.now ≡ Ok (reverse h.events)) }
    ensures run { IfOk result (λ h. IsRun script.now turns (reverse h.events)) }
    ensures err { IfErr result (λ r. IsTraceRefused script.now turns list.now r) }
{
    let mut floor = PlainFloor::new(alloc, script, turns)?;
    let history = recorded(alloc, processors, &mut floor, list);
    drop(floor);
    history
}

/// The history of a list of turns, settled or not, where each processor may make this many events.
///
/// The script fits, and `turns` is 1 to 20,000 and at most 160,000 in all processors together. The
/// first turn that is refused is told with its place, from 0, and its kind.
pub fn trace(
    alloc: Global,
    script: &Script,
    turns: u32,
    list: &Turns,
) -> Result<History, TraceRefusal>
    requires script { IsTrue (fits script.now) }
    requires turns { (1 ≤ turns) × (turns ≤ TURNS) }
    requires all { script.now.cpus * turns ≤ EVENTS }
    ensures turns { IfOk result (λ h. h.turns ≡ turns) }
    ensures ok { IfOk result (λ h. traced script.now turns list.now ≡ Ok (reverse h.events)) }
    ensures run { IfOk result (λ h. IsRun script.now turns (reverse h.events)) }
    ensures err { IfErr result (λ r. IsTraceRefused script.now turns list.now r) }
{
    let mut processors = Processors::new(alloc, script, turns)?;
    traced_by(alloc, script, turns, &mut processors, list)
}
