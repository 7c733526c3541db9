//! What all workers share, and the workers as they begin.
ghost use Rattle.std.specs.Prelude.{◌≡◌, ◌≤◌, ◌*◌, IfOk, IsTrue};
ghost use Rattle.nt_event.specs.declared.limits.TheConstants.{EVENTS, TURNS};
ghost use Rattle.nt_event.specs.Lanes as spec;
ghost use Rattle.nt_event.specs.Script.{fits};
ghost use Rattle.nt_live.specs.Prepared.{AreOpened, IsPrepared, fresh};
ghost use Rattle.nt_mark.specs.Names.{cpus_of, lanes_of, limit_of, parts_of, pass_table, pass_view};
ghost use Rattle.nt_mark.specs.Names.{table_of};

use crate::worker::Worker;
use nt_event::{CpuNo, Plan, Script};
use nt_lane::Lanes;
use nt_mark::{Made, Marks, Pass, Shared};
use std::alloc::{AllocError, Global};

/// The words and the lanes that all workers of a script share: those of N's table, for N's script
/// and turn limit.
#[derive(Drop)]
pub struct Board<'s, N: Plan + Shared> {
    pub(crate) marks: Marks,
    pub(crate) lanes: Lanes<'s, N>,
    pub(crate) script: &'s Script,
    pub(crate) turns: u32,
    ghost words: { table_of marks ≡ N.table },
    ghost script_is: { script.now ≡ N.script },
    ghost turns_is: { turns ≡ N.turns },
    ghost script_fits: { IsTrue (fits N.script) },
    ghost few_turns: { (1 ≤ turns) × ((turns ≤ TURNS) × (N.script.cpus * turns ≤ EVENTS)) },
    ghost cpus: { cpus_of marks ≡ N.script.cpus },
    ghost all_lanes: { lanes_of marks ≡ spec.lane_count N.script },
    ghost parts: { parts_of marks ≡ N.script.cpus },
    ghost limit: { limit_of marks ≡ N.turns },
}

/// What [`Board::new`] makes: the board, and a worker for each processor, in order.
#[derive(Drop)]
pub struct Opened<'s, N: Plan + Shared> {
    pub board: Board<'s, N>,
    pub workers: Vec<Worker<'s, N>>,
}

/// The marks of a script that fits, whose processors make at most `turns` events each: with a part
/// for each processor, and the keeper of each lane. `turns` is 1 to 20,000, and at most 160,000
/// events are made in all.
pub fn prepare(alloc: Global, script: &Script, turns: u32) -> Result<Made, AllocError>
    requires script { IsTrue (fits script.now) }
    requires turns { (1 ≤ turns) × ((turns ≤ TURNS) × (script.now.cpus * turns ≤ EVENTS)) }
    ensures { IfOk result (λ made. IsPrepared script.now turns made) }
{
    Marks::new(
        alloc,
        script.cpus,
        script.lane_count() as u32,
        u32::from(script.cpus),
        turns,
    )
}

impl<'s, N: Plan + Shared> Board<'s, N> {
    /// The board of marks that were prepared for N's script and turn limit, and whose table is N's;
    /// with a worker for each processor, none of which made anything.
    pub fn new(
        alloc: Global,
        script: &'s Script,
        turns: u32,
        made: Made,
    ) -> Result<Opened<'s, N>, AllocError>
        requires script { (script.now ≡ N.script) × IsTrue (fits script.now) }
        requires turns { (turns ≡ N.turns) ×
            ((1 ≤ turns) × ((turns ≤ TURNS) × (script.now.cpus * turns ≤ EVENTS))) }
        requires table { table_of made.marks ≡ N.table }
        requires prepared { IsPrepared script.now turns made }
        ensures opened { IfOk result (λ o. AreOpened N.script N.turns o.workers.items) }
    {
        let Made {
            marks,
            pass,
            keepers,
        } = made;
        let lanes = Lanes::new(alloc, script, keepers, turns)?;
        let workers = all_workers::<N>(alloc, script, turns, &marks, pass)?;
        let board = Board {
            marks,
            lanes,
            script,
            turns,
        };
        Ok(Opened { board, workers })
    }
}

/// A worker for each processor, in order, each with one part of the pass, which did nothing and has
/// a part for each.
fn all_workers<'s, N: Plan + Shared>(
    alloc: Global,
    script: &'s Script,
    turns: u32,
    marks: &Marks,
    mut pass: Pass,
) -> Result<Vec<Worker<'s, N>>, AllocError>
    requires script { (script.now ≡ N.script) × IsTrue (fits script.now) }
    requires turns { (turns ≡ N.turns) × (turns ≤ TURNS) }
    requires table { (table_of marks.now ≡ N.table) × (pass_table pass ≡ N.table) }
    requires pass { pass_view pass ≡ fresh script.now.cpus }
    ensures { IfOk result (λ ws. AreOpened N.script N.turns ws.items) }
{
    let mut workers = Vec::with_capacity(alloc, usize::from(script.cpus))?;
    let last = script.cpus - 1;
    for p in 0..last {
        let part = marks.split(&mut pass);
        workers.push_reserved(Worker::new(alloc, script, CpuNo(p), turns, part)?);
    }
    workers.push_reserved(Worker::new(alloc, script, CpuNo(last), turns, pass)?);
    Ok(workers)
}
