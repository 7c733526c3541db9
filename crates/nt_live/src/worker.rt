//! A processor with its pass and the list of the events that it made.
ghost use Rattle.std.specs.Prelude.{◌≡◌, ◌≤◌, ◌<◌, ◌++◌, ℕ, List, [], IfOk, IsTrue, OnOk, length};
ghost use Rattle.nt_event.specs.declared.events.Event.{Event};
ghost use Rattle.nt_event.specs.declared.limits.TheConstants.{TURNS};
ghost use Rattle.nt_event.specs.Script.{fits, has_cpu};
ghost use Rattle.nt_live.specs.Prepared.{fresh, new_worker};
ghost use Rattle.nt_live.specs.Turning.{IsAdvanced, IsSeated, IsTakenApart, made_of};
ghost use Rattle.nt_live.specs.Turning.{outcome_of};
ghost use Rattle.nt_live.specs.Workers.{GoesOnFrom, HasWorked, WorkerState};
ghost use Rattle.nt_live.specs.declared.worker.Outcome.{Outcome};
ghost use Rattle.nt_mark.specs.Names.{pass_table, pass_view};

use crate::board::Board;
use crate::list::{MadeList, OwnList};
use nt_cpu::{Cpu, Turned};
use nt_event::{CpuNo, Plan, Script};
use nt_lane::LaneSeat;
use nt_mark::{Pass, Shared};
use nt_outside::Gate;
use std::alloc::{AllocError, Global};
use std::marker::{Model, PhantomData};
use std::sync::Wait;

/// A processor, its pass, and the list of the events that it made, with their numbers.
///
/// Contracts see its processor, and what its pass has and knows. The pass is of N's table, has one
/// part, and is what the events made of it; the list has the number and event of each entry of the
/// pass.
#[derive(Drop)]
pub struct Worker<'s, N: Plan + Shared> {
    number: u8,
    cpu: Cpu<'s>,
    pass: Option<Pass>,
    list: OwnList,
    answer: Result<(), AllocError>,
    moved: bool,
    of: PhantomData<N>,
    ghost number_is: { number ≡ cpu.cpu.0 },
    ghost room: { list.room ≡ N.turns },
}

impl<'s, N: Plan + Shared> Model for Worker<'s, N> {
    ghost use Rattle.nt_live.specs.Workers.{IsWorker, WorkerState, view_in};

    ghost Value = { WorkerState };

    ghost view = { λ w. record { cpu = w.cpu; view = view_in w.pass } };

    ghost invariant = { λ w. IsWorker N.table N.script N.turns w.cpu w.pass w.list.pairs };
}

/// What a turn of a worker came to.
#[derive(Clone, Copy, PartialEq, Eq, Debug)]
pub(crate) enum Outcome {
    /// An event was made.
    Did,
    /// The processor rests or spins still with nothing asked, or is cut.
    Stopped,
}

/// What an advance came to, with the pass again.
struct Advance {
    pass: Pass,
    outcome: Result<Outcome, AllocError>,
}

/// Has the processor make its next event over the lanes, and puts it on the list with its number.
/// It may wait. The pass is what its events made of it, and so it is again; where no memory was
/// found, no event was made. There is room for an event on the list.
fn make_next<'s, N: Plan + Shared, R: Wait>(
    rt: &R,
    cpu: &mut Cpu<'s>,
    board: &Board<'_, N>,
    pass: Pass,
    list: &mut OwnList,
) -> Advance
    requires seated { IsSeated N.table N.script N.turns cpu.old pass }
    requires room { length list.old.pairs < list.old.room }
    ensures { (made : List (ℕ × Event)) ×
        IsAdvanced N.table N.script N.turns cpu.old cpu.new pass result.pass made result.outcome ×
        (list.new ≡ record list.old { pairs = list.old.pairs ++ made }) }
{
    let mut seat = LaneSeat::new(rt, &board.lanes, &board.marks, pass);
    let turned = cpu.advance(&mut seat);
    let outcome = keep(list, seat.last(), &turned);
    let pass = seat.leave();
    Advance { pass, outcome }
}

/// Puts what an advance came to on the list, where this number was drawn last. There is room for
/// it.
fn keep(
    list: &mut OwnList,
    last: u64,
    turned: &Result<Turned, AllocError>,
) -> Result<Outcome, AllocError>
    requires { length list.old.pairs < list.old.room }
    ensures list { list.new
        ≡ record list.old { pairs = list.old.pairs ++ made_of last turned.now } }
    ensures outcome { result ≡ outcome_of turned.now }
{
    match turned {
        Ok(Turned::Did(event)) => {
            list.put(last, event);
            Ok(Outcome::Did)
        }
        Ok(Turned::Quiet) | Ok(Turned::Cut) => Ok(Outcome::Stopped),
        Err(_) => Err(AllocError),
    }
}

impl<'s, N: Plan + Shared> Worker<'s, N> {
    /// The worker of a processor of N's script that made nothing, with a pass of N's table that has
    /// one part and knows nothing.
    pub(crate) fn new(
        alloc: Global,
        script: &'s Script,
        cpu: CpuNo,
        turns: u32,
        pass: Pass,
    ) -> Result<Worker<'s, N>, AllocError>
        requires script { (script.now ≡ N.script) × IsTrue (fits script.now) }
        requires cpu { IsTrue (has_cpu script.now cpu) }
        requires turns { (turns ≡ N.turns) × (turns ≤ TURNS) }
        requires pass { (pass_table pass ≡ N.table) × (pass_view pass ≡ fresh 1) }
        ensures { IfOk result (λ w. w ≡ new_worker N.script N.turns cpu) }
    {
        Ok(Worker {
            number: cpu.0,
            cpu: Cpu::new(alloc, script, cpu, turns)?,
            pass: Some(pass),
            list: OwnList::new(alloc, turns as usize)?,
            answer: Ok(()),
            moved: false,
            of: PhantomData,
        })
    }

    /// Passes the gate, with the processor's number and how many events it made so far.
    fn pass_gate<G: Gate>(&self, gate: &G) {
        gate.pass(self.number, u64::from(self.cpu.made()));
    }

    /// One turn: the processor makes its next event over the lanes, and what it made is put on the
    /// list. It may wait.
    pub(crate) fn turn<R: Wait>(
        &mut self,
        rt: &R,
        board: &Board<'_, N>,
    ) -> Result<Outcome, AllocError>
        ensures goes { GoesOnFrom self.old self.new }
        ensures stopped { IfOk result (λ t. t ≡ Outcome.Stopped → HasWorked self.old self.new) }
    {
        if board.turns <= self.cpu.made() {
            return Ok(Outcome::Stopped);
        }
        let Some(pass) = self.pass.take() else {
            unreachable!()
        };
        let Advance { pass, outcome } = make_next(rt, &mut self.cpu, board, pass, &mut self.list);
        self.pass = Some(pass);
        outcome
    }

    /// Works again, and keeps the answer.
    pub(crate) fn work_again<G: Gate, R: Wait>(&mut self, rt: &R, board: &Board<'_, N>, gate: &G)
        ensures goes { GoesOnFrom self.old self.new }
    {
        let before = self.list.len();
        self.answer = work(rt, self, board, gate);
        self.moved = before < self.list.len();
    }

    /// Whether it made an event when it worked last.
    pub(crate) fn has_moved(&self) -> bool {
        self.moved
    }

    /// The answer that was kept; Ok where none was.
    pub(crate) fn answer(&self) -> Result<(), AllocError> {
        match self.answer {
            Ok(()) => Ok(()),
            Err(_) => Err(AllocError),
        }
    }

    /// The processor, the pass, and the list of the events with their numbers.
    pub(crate) fn into_parts(self) -> (Cpu<'s>, Pass, MadeList)
        ensures { IsTakenApart N.table N.script N.turns self.entry result.0
            result.1 result.2 }
    {
        let Worker {
            number: _,
            cpu,
            pass,
            list,
            answer: _,
            moved: _,
            of: _,
        } = self;
        let Some(pass) = pass else { unreachable!() };
        (cpu, pass, list.finish())
    }
}

/// Turns a worker's processor again and again, until it rests or spins still with nothing asked, or
/// is cut. The gate is passed before each turn, with the processor's number and how many events it
/// made so far. It may wait, for other workers that hold a lane.
///
/// AllocError comes where no memory was found; then the worker is as its last event left it, and
/// can work again.
pub fn work<'s, N: Plan + Shared, G: Gate, R: Wait>(
    rt: &R,
    worker: &mut Worker<'s, N>,
    board: &Board<'_, N>,
    gate: &G,
) -> Result<(), AllocError>
    ensures goes { GoesOnFrom worker.old worker.new }
    ensures worked { OnOk result (HasWorked worker.old worker.new) }
{
    for _ in rt.forever() {
        worker.pass_gate(gate);
        if let Outcome::Stopped = worker.turn(rt, board)? {
            return Ok(());
        }
    }
    unreachable!()
}
