//! Lanes that one thread holds while another makes a turn, or holds another lane.
ghost use Rattle.std.specs.Prelude.{◌≡◌, ◌≤◌, ◌<◌, IsTrue, vec_len};
ghost use Rattle.nt_event.specs.declared.limits.TheConstants.{TURNS};
ghost use Rattle.nt_event.specs.Lanes as spec;
ghost use Rattle.nt_event.specs.Script.{fits};
ghost use Rattle.nt_live.specs.Prepared.{fresh};
ghost use Rattle.nt_mark.specs.Closing.{AreNewKeepers};
ghost use Rattle.nt_mark.specs.Names.{cpus_of, lanes_of, limit_of, pass_table, pass_view, table_of};

use crate::beginning::{Beginning, Which};
use crate::flags::{Flags, LOOKS};
use crate::gates::{Freeing, Holding};
use nt_cpu::Cpu;
use nt_event::{CpuNo, Plan, Script};
use nt_lane::Lanes;
use nt_mark::{Keeper, Made, Marks, Shared};
use nt_outside::Gate;
use std::alloc::{AllocError, Global};
use std::marker::Brand;
use std::sync::Wait;
use std::thread;
use std::thread::Threads;

/// One of the lanes.
#[derive(Drop)]
struct Place<'a, 's, N: Plan + Shared> {
    lanes: &'a Lanes<'s, N>,
    lane: u32,
    ghost there: { lane < spec.lane_count N.script },
}

impl<N: Plan + Shared> Place<'_, '_, N> {
    /// Holds the lane while the gate is passed.
    fn hold<G: Gate, R: Wait>(&self, rt: &R, gate: &G) {
        self.lanes.hold(rt, self.lane, gate);
    }

    /// Holds the lane, while the gate is passed, once the other is ready.
    fn hold_ready<R: Wait>(&self, rt: &R, gate: &Holding<'_>) {
        gate.flags.ready.look_for(LOOKS);
        self.hold(rt, gate);
    }

    /// Holds the lane once the first flag is seen, and sets the second one.
    fn hold_later<R: Wait>(&self, rt: &R, flags: &Flags) {
        flags.first.look_for(LOOKS);
        self.hold(rt, &Freeing { flags });
    }
}

/// A thread holds a lane once the events before are made, and another makes this event of processor
/// 0; whether it was made.
fn turn_meanwhile<N: Plan + Shared + Send + Sync, R: Threads + Wait + Sync>(
    rt: &R,
    place: Place<'_, '_, N>,
    beginning: Beginning<'_, '_, N>,
    which: Which,
    gate: Holding<'_>,
) -> bool {
    let flags = gate.flags;
    let (_, made) = thread::join(
        rt,
        move || place.hold_ready(rt, &gate),
        move || beginning.make_later(rt, flags, which),
    );
    made
}

/// This event of processor 0 is made while a lane of N's script is held; whether it was made.
fn turn_beside<N: Plan + Shared + Send + Sync, R: Threads + Wait + Sync>(
    rt: &R,
    alloc: Global,
    script: &Script,
    turns: u32,
    made: Made,
    which: Which,
    lane: u32,
    gate: Holding<'_>,
) -> Result<bool, AllocError>
    requires script { (script.now ≡ N.script) × IsTrue (fits script.now) }
    requires turns { (turns ≡ N.turns) × (turns ≤ TURNS) }
    requires table { (table_of made.marks ≡ N.table) × (pass_table made.pass ≡ N.table) }
    requires sizes { (cpus_of made.marks ≡ N.script.cpus) ×
        ((lanes_of made.marks ≡ spec.lane_count N.script) × (limit_of made.marks ≡ N.turns)) }
    requires pass { pass_view made.pass ≡ fresh 1 }
    requires keepers { AreNewKeepers (table_of made.marks) made.keepers.items ×
        (vec_len made.keepers ≡ spec.lane_count script.now) }
    requires lane { lane < spec.lane_count N.script }
{
    let Made {
        marks,
        pass,
        keepers,
    } = made;
    let lanes = Lanes::<N>::new(alloc, script, keepers, turns)?;
    let cpu = Cpu::new(alloc, script, CpuNo(0), turns)?;
    let beginning = Beginning::new(cpu, &lanes, &marks, pass);
    let place = Place {
        lanes: &lanes,
        lane,
    };
    Ok(turn_meanwhile(rt, place, beginning, which, gate))
}

/// What is seen where processor 0 makes this event while a lane is held, by a gate that looks so
/// many times for the end of that turn.
pub(crate) fn turned_beside<R: Threads + Wait + Sync>(
    rt: &R,
    alloc: Global,
    script: &Script,
    limit: u32,
    which: Which,
    lane: u32,
    looks: u32,
) -> Result<&'static str, AllocError>
    requires script { IsTrue (fits script.now) }
    requires turns { (1 ≤ limit) × (limit ≤ TURNS) }
{
    let count = script.lane_count() as u32;
    if lane >= count {
        return Ok("no such lane");
    }
    let made = Marks::new(alloc, script.cpus, count, 1, limit)?;
    let flags = Flags::new();
    let gate = Holding {
        flags: &flags,
        looks,
    };
    let turned = turn_beside::<Brand, R>(rt, alloc, script, limit, made, which, lane, gate);
    let seen = turn_seen(turned, &flags);
    drop(flags);
    seen
}

/// What is seen of a turn that was made or refused while a lane was held.
fn turn_seen(made: Result<bool, AllocError>, flags: &Flags) -> Result<&'static str, AllocError> {
    Ok(if !made? {
        "the turn was refused"
    } else if flags.ready.was_missed() || flags.first.was_missed() {
        "the lane wasn't held first"
    } else if flags.second.was_missed() {
        "the turn waited for the lane"
    } else {
        "the turn was made meanwhile"
    })
}

/// A thread holds a lane, and another holds a second one.
fn hold_meanwhile<N: Plan + Shared + Send + Sync, R: Threads + Wait + Sync>(
    rt: &R,
    first: Place<'_, '_, N>,
    second: Place<'_, '_, N>,
    gate: Holding<'_>,
) {
    let flags = gate.flags;
    thread::join(
        rt,
        move || first.hold(rt, &gate),
        move || second.hold_later(rt, flags),
    );
}

/// A second lane is held while a first one is, on lanes of N's script.
fn hold_beside<N: Plan + Shared + Send + Sync, R: Threads + Wait + Sync>(
    rt: &R,
    alloc: Global,
    script: &Script,
    turns: u32,
    marks: &Marks,
    keepers: Vec<Keeper>,
    lanes: (u32, u32),
    gate: Holding<'_>,
) -> Result<(), AllocError>
    requires script { (script.now ≡ N.script) × IsTrue (fits script.now) }
    requires turns { turns ≡ N.turns }
    requires table { table_of marks.now ≡ N.table }
    requires keepers { AreNewKeepers (table_of marks.now) keepers.items ×
        (vec_len keepers ≡ spec.lane_count script.now) }
    requires lanes { (lanes.0 < spec.lane_count N.script) × (lanes.1 < spec.lane_count N.script) }
{
    let _marks = marks;
    let (first, second) = lanes;
    let lanes = Lanes::<N>::new(alloc, script, keepers, turns)?;
    let first = Place {
        lanes: &lanes,
        lane: first,
    };
    let second = Place {
        lanes: &lanes,
        lane: second,
    };
    hold_meanwhile(rt, first, second, gate);
    Ok(())
}

/// What is seen of two lanes.
fn hold_seen(flags: &Flags) -> &'static str {
    if flags.all_seen() {
        "both were held at once"
    } else {
        "one waited for the other"
    }
}

/// What is seen where a second lane is held while a first one is.
pub(crate) fn held_beside<R: Threads + Wait + Sync>(
    rt: &R,
    alloc: Global,
    script: &Script,
    limit: u32,
    first: u32,
    second: u32,
) -> Result<&'static str, AllocError>
    requires script { IsTrue (fits script.now) }
    requires turns { (1 ≤ limit) × (limit ≤ TURNS) }
{
    let count = script.lane_count() as u32;
    if first >= count || second >= count || first == second {
        return Ok("no such lanes");
    }
    let Made {
        marks,
        pass: _,
        keepers,
    } = Marks::new(alloc, script.cpus, count, 1, limit)?;
    let flags = Flags::new();
    let gate = Holding {
        flags: &flags,
        looks: LOOKS,
    };
    hold_beside::<Brand, R>(
        rt,
        alloc,
        script,
        limit,
        &marks,
        keepers,
        (first, second),
        gate,
    )?;
    Ok(hold_seen(&flags))
}
