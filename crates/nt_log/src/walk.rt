//! Reading a schedule line by line.
ghost use Rattle.std.specs.Prelude.{◌≡◌};
ghost use Rattle.nt_log.specs.Reading.{read_limit};
ghost use Rattle.nt_log.specs.Schedules.{turn_bound};

use crate::schedules::{Schedule, turn_bound};
use crate::turns::{count, turn};
use nt_event::{CpuNo, Turn, limits};
use nt_history::Turns;
use nt_line::fields;
use nt_script::{Input, ScriptRefusal, Stop};
use nt_text::{Fields, Line, Lines, ScriptKind, What10};
use std::alloc::Global;

/// The part of a schedule that was read last.
#[derive(Clone, Copy, PartialEq, Eq, Debug)]
pub enum SchedulePlace {
    /// Nothing was read.
    Start,
    /// The line of the turn limit, and maybe turns.
    InTurns,
    /// The line `done`.
    Done,
}

/// What was read of a schedule so far.
#[derive(Drop)]
pub struct ScheduleWalk {
    /// The turn limit, 0 before its line, and the turns.
    pub schedule: Schedule,
    /// What was read last.
    pub place: SchedulePlace,
}

impl ScheduleWalk {
    ghost use Rattle.std.specs.Prelude.{◌≡◌, ◌<◌, ◌↔◌, IsTrue, length, nat_lt};
    ghost use Rattle.nt_log.specs.declared.walk.SchedulePlace.TheVariants.{InTurns};
    ghost use Rattle.nt_text.specs.declared.kind.ScriptKind.TheVariants.{TooMany};
    ghost use Rattle.nt_text.specs.declared.kind.What10.TheVariants as what;
    ghost use Rattle.nt_event.specs.declared.limits.TheConstants.{EVENTS};
    ghost use Rattle.nt_line.specs.Results.{ok_if};
    ghost use Rattle.nt_script.specs.Gives.{Gives, GivesRead};
    ghost use Rattle.nt_log.specs.Taking.{TakesLine};
    ghost use Rattle.nt_log.specs.Reading.{start, first_step, turn_step, with_turn, step};
    ghost use Rattle.nt_log.specs.Reading.{line_step, finish};

    /// Nothing was read.
    pub fn new(alloc: Global) -> ScheduleWalk
        ensures { result ≡ start }
    {
        ScheduleWalk {
            schedule: Schedule {
                turns: 0,
                list: Turns::new(alloc),
            },
            place: SchedulePlace::Start,
        }
    }

    /// Takes a line of a schedule for this input's script, in which each processor is below `cpus`.
    ///
    /// The first test that a line does not pass refuses it: NotAscii, NoEnd; a line behind `done`
    /// is ExtraField; UnknownWord where the first field is no word of this place; MissingField and
    /// ExtraField by the count of the fields, which of a look has no upper bound; each field from
    /// left to right, BadNumber or, of a thread, BadName, UnknownName and WrongKind; TooMany for a
    /// turn above the greatest count of events. `NoMemory` leaves the walk of no use.
    pub fn line(&mut self, input: &Input, cpus: u8, line: &Line) -> Result<(), Stop>
        ensures { Gives result self.new
            (line_step cpus input.now self.old (line.now.bytes.now, line.now.ended)) }
    {
        let mut row = line.fields()?;
        self.step(input, cpus, &mut row)
    }

    /// Takes the first line that is left, as [`ScheduleWalk::line`] does. Answers whether there was
    /// one; else nothing changes.
    #[inline(always)]
    pub fn next_line(&mut self, input: &Input, cpus: u8, lines: &mut Lines) -> Result<bool, Stop>
        ensures { TakesLine (line_step cpus input.now self.old) result self.old self.new
            lines.old lines.new }
    {
        // Most lines of a schedule are `next P`.
        if self.has_room() {
            if let Some(cpu) = lines.take_number(b"next ", cpus) {
                self.schedule.list.push(&Turn::Next(CpuNo(cpu)))?;
                return Ok(true);
            }
        }
        self.any_line(input, cpus, lines)
    }

    /// Whether the line of a turn may come, and is not one too many.
    #[inline(always)]
    fn has_room(&self) -> bool
        ensures { IsTrue result ↔
            (self.now.place ≡ InTurns) × (length self.now.schedule.list < EVENTS) }
    {
        self.place == SchedulePlace::InTurns && self.schedule.list.len() < limits::EVENTS as usize
    }

    /// Takes the first line that is left, whatever its form. It stands apart, so that the short way
    /// needs no registers of it.
    #[inline(never)]
    fn any_line(&mut self, input: &Input, cpus: u8, lines: &mut Lines) -> Result<bool, Stop>
        ensures { TakesLine (line_step cpus input.now self.old) result self.old self.new
            lines.old lines.new }
    {
        match lines.next() {
            Some(line) => {
                self.line(input, cpus, &line)?;
                Ok(true)
            }
            None => Ok(false),
        }
    }

    /// The schedule, where the text may end here: NoEnd else. `line` is the number of the line
    /// behind the last.
    pub fn finish(self, line: u32) -> Result<Schedule, ScriptRefusal>
        ensures { GivesRead result (finish self.place self.schedule line) }
    {
        let ScheduleWalk { schedule, place } = self;
        match place {
            SchedulePlace::Done => Ok(schedule),
            SchedulePlace::Start | SchedulePlace::InTurns => Err(ScriptRefusal::Bad {
                line,
                kind: ScriptKind::NoEnd,
            }),
        }
    }

    fn step(&mut self, input: &Input, cpus: u8, row: &mut Fields) -> Result<(), Stop>
        ensures { Gives result self.new (step cpus input.now self.old row.old) }
    {
        match self.place {
            SchedulePlace::Start => self.first_step(input.script.cpus, row),
            SchedulePlace::InTurns => self.turn_step(input, cpus, row),
            SchedulePlace::Done => Err(Stop::Bad(ScriptKind::ExtraField)),
        }
    }

    /// Takes the first line, of a schedule for a script with so many processors.
    fn first_step(&mut self, cpus: u8, row: &mut Fields) -> Result<(), Stop>
        ensures { Gives result self.new (first_step (turn_bound cpus) self.old row.old) }
    {
        if row.take() != b"schedule".as_slice() {
            return Err(Stop::Bad(ScriptKind::UnknownWord));
        }
        self.schedule.turns = limit(turn_bound(cpus), row)?;
        self.place = SchedulePlace::InTurns;
        Ok(())
    }

    /// Takes a line behind the first.
    fn turn_step(&mut self, input: &Input, cpus: u8, row: &mut Fields) -> Result<(), Stop>
        ensures { Gives result self.new (turn_step cpus input.now self.old row.old) }
    {
        let word = row.take();
        if word == b"done".as_slice() {
            count(row, 0)?;
            self.place = SchedulePlace::Done;
            return Ok(());
        }
        let turn = turn(input, cpus, word, row)?;
        self.add(&turn)
    }

    /// Adds a turn.
    fn add(&mut self, turn: &Turn) -> Result<(), Stop>
        ensures { Gives result self.new (ok_if (nat_lt (length self.old.schedule.list) EVENTS)
            (with_turn self.old turn.now) (TooMany what.Turns)) }
    {
        if self.schedule.list.len() >= limits::EVENTS as usize {
            return Err(Stop::Bad(ScriptKind::TooMany(What10::Turns)));
        }
        self.schedule.list.push(turn)?;
        Ok(())
    }
}

/// The turn limit of the first line, 1 to this bound.
fn limit(bound: u32, args: &mut Fields) -> Result<u32, ScriptKind>
    ensures { result ≡ read_limit bound args.old }
{
    count(args, 1)?;
    let turns = fields::number(args.take(), bound)?;
    if turns == 0 {
        return Err(ScriptKind::BadNumber);
    }
    Ok(turns)
}
