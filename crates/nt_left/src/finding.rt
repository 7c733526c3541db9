//! All that is left.
ghost use Rattle.std.specs.Prelude.{◌≡◌, ◌++◌, ◌*◌, ◌≤◌, ◌↔◌, IfOk, IsTrue, OnOk, reverse, true};
ghost use Rattle.std.specs.List.{Contains};
ghost use Rattle.nt_event.specs.declared.limits.TheConstants.{EVENTS, TURNS};
ghost use Rattle.nt_event.specs.Fate.{Inserted, waiting_inserts};
ghost use Rattle.nt_event.specs.Robin.{is_settled};
ghost use Rattle.nt_event.specs.Script.{fits};
ghost use Rattle.nt_event.specs.Step.{IsRun};
ghost use Rattle.nt_left.specs.declared.kinds.Left.{Left as Thing};
ghost use Rattle.nt_left.specs.Ending.{IsEnd};
ghost use Rattle.nt_left.specs.Items.{left_of};
ghost use Rattle.nt_left.specs.Left.{HasCause, IsLeft, IsTold};
ghost use Rattle.nt_left.specs.Walks.{past_of};

use crate::ending::End;
use crate::gathering::{put_apcs, put_cpus, put_dpcs, put_frames, put_threads, put_timers};
use crate::kinds::Left;
use crate::replaying::follow;
use nt_cpus::Processors;
use nt_event::Script;
use nt_event::limits::{EVENTS, TURNS};
use nt_history::History;
use nt_plain::PlainFloor;
use std::alloc::{AllocError, Global};

/// Adds all that is left at the end.
fn put_all(out: &mut Vec<Left>, end: &End) -> Result<(), AllocError>
    requires { IsEnd end.now }
    ensures { OnOk result (out.new.items ≡ out.old.items
        ++ left_of end.now.script.now end.now.limit (past_of end.now.events)) }
{
    put_cpus(out, end)?;
    put_threads(out, end)?;
    put_timers(out, end)?;
    put_frames(out, end)?;
    put_dpcs(out, end)?;
    put_apcs(out, end)
}

/// All that is left at the end.
fn read(alloc: Global, end: &End) -> Result<Vec<Left>, AllocError>
    requires { IsEnd end.now }
    ensures { IfOk result (λ v. v.items
        ≡ left_of end.now.script.now end.now.limit (past_of end.now.events)) }
{
    let mut out = Vec::new(alloc);
    put_all(&mut out, end)?;
    Ok(out)
}

/// All that is left at the end of a run.
fn listed(alloc: Global, script: &Script, history: &History) -> Result<Vec<Left>, AllocError>
    requires script { IsTrue (fits script.now) }
    requires turns { history.now.turns ≤ TURNS }
    requires all { script.now.cpus * history.now.turns ≤ EVENTS }
    requires run { IsRun script.now history.now.turns (reverse history.now.events) }
    ensures { IfOk result (λ v. v.items
        ≡ left_of script.now history.now.turns (reverse history.now.events)) }
{
    let mut processors = Processors::new(alloc, script, history.turns())?;
    let mut floor = PlainFloor::new(alloc, script, history.turns())?;
    let events = history.lend();
    follow(&mut processors, &mut floor, &events);
    let end = End {
        script,
        limit: history.turns(),
        cpus: processors.cpus(),
        floor: &floor,
        events,
    };
    read(alloc, &end)
}

/// All that is left at the end of a settled run: processors that are cut or spin still, threads
/// that are blocked or ready, timers that are set, what frames leave (raised levels, regions,
/// locks), and pending inserts with what holds them back; each kind by its numbers.
///
/// The history is a settled run of the script under its turn limit, as `nt_core::run` makes it and
/// `nt_check::check` finds it. An error is want of memory.
pub fn left(alloc: Global, script: &Script, history: &History) -> Result<Vec<Left>, AllocError>
    requires script { IsTrue (fits script.now) }
    requires turns { history.now.turns ≤ TURNS }
    requires all { script.now.cpus * history.now.turns ≤ EVENTS }
    requires run { IsRun script.now history.now.turns (reverse history.now.events) }
    requires settled { is_settled script.now history.now.turns (reverse history.now.events)
        ≡ true }
    ensures found { IfOk result (λ v. (x : Thing) → Contains v.items x →
        IsLeft script.now history.now.turns (reverse history.now.events) x) }
    ensures complete { IfOk result (λ v. (x : Thing) →
        IsLeft script.now history.now.turns (reverse history.now.events) x →
        Contains v.items x) }
    ensures causes { IfOk result (λ v. (x : Thing) → Contains v.items x →
        HasCause script.now history.now.turns (reverse history.now.events) x) }
    ensures waiting { IfOk result (λ v. (x : Inserted) →
        Contains (waiting_inserts (reverse history.now.events)) x ↔
        IsTold v.items x.thing x.number) }
    ensures order { IfOk result (λ v. v.items
        ≡ left_of script.now history.now.turns (reverse history.now.events)) }
{
    listed(alloc, script, history)
}
