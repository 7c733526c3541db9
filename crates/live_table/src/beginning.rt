//! Processor 0 before its first turn, and its first events.
ghost use Rattle.std.specs.Prelude.{◌≡◌, ◌≤◌, []};
ghost use Rattle.nt_event.specs.Lanes as spec;
ghost use Rattle.nt_event.specs.Numbers as named;
ghost use Rattle.nt_event.specs.Own.{own_of};
ghost use Rattle.nt_live.specs.Prepared.{fresh};
ghost use Rattle.nt_live.specs.Turning.{IsSeated};
ghost use Rattle.nt_mark.specs.Names.{cpus_of, lanes_of, limit_of, pass_table, pass_view, table_of};

use crate::flags::{Flags, LOOKS};
use nt_cpu::{Cpu, Turned};
use nt_event::{CpuNo, Plan, ThreadNo, Turn};
use nt_lane::{LaneSeat, Lanes};
use nt_mark::{Marks, Pass, Shared};
use std::alloc::AllocError;
use std::sync::Wait;

/// Which event of processor 0.
#[derive(Clone, Copy, PartialEq, Eq, Debug)]
pub(crate) enum Which {
    /// Its first, which takes up the first thread.
    First,
    /// Its second.
    Second,
}

/// The processor makes its next event over the lanes, by its pass; whether it made one.
fn step<'s, N: Plan + Shared, R: Wait>(
    rt: &R,
    cpu: &mut Cpu<'s>,
    lanes: &Lanes<'_, N>,
    marks: &Marks,
    pass: Pass,
) -> (Pass, bool)
    requires words { table_of marks.now ≡ N.table }
    requires sizes { (cpus_of marks.now ≡ N.script.cpus) ×
        ((lanes_of marks.now ≡ spec.lane_count N.script) × (limit_of marks.now ≡ N.turns)) }
    requires seated { IsSeated N.table N.script N.turns cpu.old pass }
    ensures { IsSeated N.table N.script N.turns cpu.new result.0 }
{
    let mut seat = LaneSeat::new(rt, lanes, marks, pass);
    let turned = cpu.advance(&mut seat);
    let made = has_made(turned);
    let pass = seat.leave();
    (pass, made)
}

/// Whether an event was made.
fn has_made(turned: Result<Turned, AllocError>) -> bool {
    match turned {
        Ok(Turned::Did(_)) => true,
        Ok(Turned::Quiet) | Ok(Turned::Cut) | Err(_) => false,
    }
}

/// Processor 0, which made nothing, with lanes and marks of N's table, and a pass that knows
/// nothing.
#[derive(Drop)]
pub(crate) struct Beginning<'a, 's, N: Plan + Shared> {
    cpu: Cpu<'s>,
    lanes: &'a Lanes<'s, N>,
    marks: &'a Marks,
    pass: Pass,
    ghost some: { 1 ≤ N.script.cpus },
    ghost new: { cpu ≡ record {
      script = N.script;
      cpu = named.cpu 0;
      limit = N.turns;
      own = own_of N.script (named.cpu 0) [];
    } },
    ghost words: { table_of marks.now ≡ N.table },
    ghost cpus: { cpus_of marks.now ≡ N.script.cpus },
    ghost all_lanes: { lanes_of marks.now ≡ spec.lane_count N.script },
    ghost limit: { limit_of marks.now ≡ N.turns },
    ghost at: { pass_table pass ≡ N.table },
    ghost nothing: { pass_view pass ≡ fresh 1 },
}

impl<'a, 's, N: Plan + Shared> Beginning<'a, 's, N> {
    /// Processor 0 of N's script, with a pass of N's table.
    pub(crate) fn new(
        cpu: Cpu<'s>,
        lanes: &'a Lanes<'s, N>,
        marks: &'a Marks,
        pass: Pass,
    ) -> Beginning<'a, 's, N>
        requires some { 1 ≤ N.script.cpus }
        requires cpu { cpu ≡ record {
          script = N.script;
          cpu = named.cpu 0;
          limit = N.turns;
          own = own_of N.script (named.cpu 0) [];
        } }
        requires table { (table_of marks.now ≡ N.table) × (pass_table pass ≡ N.table) }
        requires sizes { (cpus_of marks.now ≡ N.script.cpus) ×
            ((lanes_of marks.now ≡ spec.lane_count N.script) × (limit_of marks.now ≡ N.turns)) }
        requires pass { pass_view pass ≡ fresh 1 }
    {
        Beginning {
            cpu,
            lanes,
            marks,
            pass,
        }
    }

    /// Takes up the first thread; whether that was done.
    fn turn<R: Wait>(self, rt: &R) -> bool {
        let Beginning {
            mut cpu,
            lanes,
            marks,
            pass,
        } = self;
        let mut seat = LaneSeat::new(rt, lanes, marks, pass);
        let made = cpu
            .turn(&mut seat, &Turn::Switch(CpuNo(0), ThreadNo(0)))
            .is_ok();
        seat.leave();
        made
    }

    /// Is ready at once. Takes up the first thread once the first flag is seen, and sets the second
    /// one; whether the thread was taken up.
    fn turn_later<R: Wait>(self, rt: &R, flags: &Flags) -> bool {
        flags.ready.set();
        flags.first.look_for(LOOKS);
        let made = self.turn(rt);
        flags.second.set();
        made
    }

    /// Makes the first event and is ready; makes the second once the first flag is seen, and sets
    /// the second flag. Whether both were made.
    fn step_later<R: Wait>(self, rt: &R, flags: &Flags) -> bool {
        let Beginning {
            mut cpu,
            lanes,
            marks,
            pass,
        } = self;
        let (pass, first) = step::<N, R>(rt, &mut cpu, lanes, marks, pass);
        flags.ready.set();
        flags.first.look_for(LOOKS);
        let (_pass, second) = step::<N, R>(rt, &mut cpu, lanes, marks, pass);
        flags.second.set();
        first && second
    }

    /// Makes the events before this one and is ready; makes this one once the first flag is seen,
    /// and sets the second one. Whether it was made.
    pub(crate) fn make_later<R: Wait>(self, rt: &R, flags: &Flags, which: Which) -> bool {
        match which {
            Which::First => self.turn_later(rt, flags),
            Which::Second => self.step_later(rt, flags),
        }
    }
}
