//! What the workers made together.
ghost use Rattle.std.specs.Prelude.{◌≡◌, ◌<◌, ◌≤◌, ◌*◌, IfOk, IsTrue, length, reverse, true};
ghost use Rattle.nt_event.specs.declared.limits.TheConstants.{EVENTS, TURNS};
ghost use Rattle.nt_event.specs.Lanes as spec;
ghost use Rattle.nt_event.specs.Robin.{is_settled};
ghost use Rattle.nt_event.specs.Script.{fits};
ghost use Rattle.nt_event.specs.Step.{IsRun};
ghost use Rattle.nt_live.specs.Gathered.{GoesByRobin, IsGathered};
ghost use Rattle.nt_live.specs.LanePieces.{IsGatheredWith};
ghost use Rattle.nt_live.specs.Merging.{IsMerged};
ghost use Rattle.nt_live.specs.OwnLists.{all_pairs};
ghost use Rattle.nt_live.specs.Teams.{AreOneEach};
ghost use Rattle.nt_live.specs.Workers.{pairs_of};
ghost use Rattle.nt_mark.specs.Names.{lanes_of, parts_of, pass_table, pass_view, table_of};

use crate::board::Board;
use crate::finishing::finished;
use crate::list::MadeList;
use crate::merging::by_number;
use crate::team::Team;
use crate::worker::Worker;
use nt_event::{Plan, Script};
use nt_history::{Events, History};
use nt_lane::{Lanes, Pieces};
use nt_lane_record::Piece;
use nt_mark::{Marks, Pass, Shared};
use std::alloc::{AllocError, Global};

/// The events of a pass in the order of their numbers, and the numbers of each lane.
#[derive(Drop)]
struct Closed {
    events: Events,
    pieces: Vec<Piece>,
}

/// Closes the lanes and the marks, whose parts the pass holds all, and puts its events in the order
/// of their numbers.
fn merged<'s, N: Plan + Shared>(
    alloc: Global,
    marks: Marks,
    lanes: Lanes<'s, N>,
    pass: Pass,
    lists: &[MadeList],
) -> Result<Closed, AllocError>
    requires table { (table_of marks ≡ N.table) × (pass_table pass ≡ N.table) }
    requires lanes { lanes_of marks ≡ spec.lane_count N.script }
    requires parts { (pass_view pass).parts ≡ parts_of marks }
    requires list { all_pairs lists.now ≡ pairs_of (pass_view pass) }
    ensures { IfOk result
        (λ m. IsMerged N.script (pass_view pass) m.events m.pieces.items) }
{
    let Pieces {
        lists: pieces,
        keepers,
    } = lanes.close();
    let drawn = marks.close(pass, Vec::new(alloc), keepers);
    let events = by_number(alloc, lists, drawn.count)?;
    Ok(Closed { events, pieces })
}

/// The history of these events, which are a run, where that is settled; else the turns that are
/// left by the robin rule follow.
fn ended(
    alloc: Global,
    script: &Script,
    turns: u32,
    settled: bool,
    events: Events,
) -> Result<History, AllocError>
    requires script { IsTrue (fits script.now) }
    requires turns { (1 ≤ turns) × (turns ≤ TURNS) }
    requires all { script.now.cpus * turns ≤ EVENTS }
    requires run { IsRun script.now turns (reverse events) }
    requires settled { settled ≡ true →
        is_settled script.now turns (reverse events) ≡ true }
    ensures turns { IfOk result (λ h. h.turns ≡ turns) }
    ensures run { IfOk result (λ h. IsRun script.now turns (reverse h.events)) }
    ensures settled { IfOk result (λ h. is_settled script.now turns (reverse h.events) ≡ true) }
    ensures added { IfOk result
        (λ h. GoesByRobin script.now turns (reverse events) (reverse h.events)) }
{
    if settled {
        Ok(History::new(turns, events))
    } else {
        finished(alloc, script, turns, events)
    }
}

/// What [`gather_all`] makes of all workers: their history, and for each lane the numbers of the
/// events that the workers made on it, the oldest first.
#[derive(Drop)]
pub struct Gathered {
    pub history: History,
    pub pieces: Vec<Piece>,
}

/// Puts the events of all workers of a board together, each at its number, and makes the turns that
/// are left by the robin rule: a settled run of N's script, where each processor makes at most N's
/// turns. With it come the numbers of the lanes.
///
/// The workers are those that were made with the board, in order, so that their passes together
/// hold all parts of N's table. What they made is a run, of which each worker's list is its
/// processor's part, and the events at each lane's numbers are the lane's piece. Where some
/// processor has more to do, the turns of that run are taken again in memory, and the robin rule
/// goes on from there: no lane has the numbers of those turns. AllocError comes where no memory was
/// found; the board and the workers are gone then too.
pub fn gather_all<'s, N: Plan + Shared>(
    alloc: Global,
    board: Board<'s, N>,
    workers: Vec<Worker<'s, N>>,
) -> Result<Gathered, AllocError>
    requires all { AreOneEach N.script workers.items }
    ensures turns { IfOk result (λ g. g.history.turns ≡ N.turns) }
    ensures gathered { IfOk result
        (λ g. IsGatheredWith N.script N.turns workers.entry.items g.pieces.items
        (reverse g.history.events)) }
{
    let Board {
        marks,
        lanes,
        script,
        turns,
    } = board;
    let mut team = Team::of_all::<N>(alloc, &marks, workers)?;
    let settled = team.has_no_more(&marks, turns);
    let Team {
        cpus: _,
        pass,
        lists,
    } = team;
    let Closed { events, pieces } = merged::<N>(alloc, marks, lanes, pass, lists.as_slice())?;
    let history = ended(alloc, script, turns, settled, events)?;
    Ok(Gathered { history, pieces })
}

/// The history of [`gather_all`] alone.
pub fn gather<'s, N: Plan + Shared>(
    alloc: Global,
    board: Board<'s, N>,
    workers: Vec<Worker<'s, N>>,
) -> Result<History, AllocError>
    requires all { AreOneEach N.script workers.items }
    ensures turns { IfOk result (λ h. h.turns ≡ N.turns) }
    ensures gathered { IfOk result
        (λ h. IsGathered N.script N.turns workers.entry.items (reverse h.events)) }
{
    let Gathered { history, pieces: _ } = gather_all(alloc, board, workers)?;
    Ok(history)
}
