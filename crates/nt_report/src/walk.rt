//! Reading the lines of a report, each by its form.
ghost use Rattle.std.specs.Prelude.{◌≡◌, OnOk};
ghost use Rattle.nt_history.specs.Briefs.{HasValues, no_rises};
ghost use Rattle.nt_report.specs.Reading.{cut_line, kept, read_object, spins_line, waits_line};

use crate::events::{EventLine, event_line, lock};
use crate::fields::{processor, processor_of, used};
use crate::kept::KeptLine;
use crate::line_input::LineInput;
use crate::places::{LineWord, ReportPlace, word_at};
use nt_event::{CpuNo, Items, LockNo, limits};
use nt_line::{Named, Names, fields};
use nt_log::{Schedule, ScheduleWalk, count};
use nt_script::{Input, ScriptRefusal, Stop};
use nt_text::{Fields, Line, Lines, ScriptKind};
use std::alloc::{AllocError, Global};
use std::marker::Model;

/// The event lines and the schedule of a report.
#[derive(Drop)]
pub(crate) struct Parts {
    pub lines: Items<KeptLine>,
    pub schedule: Schedule,
}

/// What was read so far.
#[derive(Drop)]
pub(crate) struct ReportWalk {
    /// What was read last.
    place: ReportPlace,
    /// The event lines, as many as a schedule may have turns.
    lines: Vec<KeptLine>,
    /// What was read of the schedule.
    schedule: ScheduleWalk,
}

impl Model for ReportWalk {
    ghost use Rattle.nt_report.specs.Walked.{Walked};

    ghost Value = { Walked };

    ghost view = { λ a. record { place = a.place; lines = a.lines.items; schedule = a.schedule } };
}

/// The processor that was cut.
fn cut_line(cpus: u8, args: &mut Fields) -> Result<CpuNo, ScriptKind>
    ensures { result ≡ cut_line cpus args.old }
{
    count(args, 1)?;
    processor_of(cpus, args.take())
}

/// The lock on which a processor spins.
fn spins_line(names: &Names, cpus: u8, args: &mut Fields) -> Result<LockNo, ScriptKind>
    ensures { result ≡ spins_line names.now cpus args.old }
{
    count(args, 4)?;
    processor(cpus, args)?;
    let lock = lock(names, args)?;
    used(args)?;
    Ok(lock)
}

/// An object that can be inserted, by the word of its kind and its name.
fn read_object(names: &Names, kind: &[u8], name: &[u8]) -> Result<Named, ScriptKind>
    ensures { result ≡ read_object names.now kind.now name.now }
{
    if kind == b"dpc".as_slice() {
        return Ok(Named::Dpc(fields::dpc(names, name)?));
    }
    if kind == b"apc".as_slice() {
        return Ok(Named::Apc(fields::apc(names, name)?));
    }
    Err(ScriptKind::UnknownWord)
}

/// The object whose insert still waits.
fn waits_line(names: &Names, args: &mut Fields) -> Result<Named, ScriptKind>
    ensures { result ≡ waits_line names.now args.old }
{
    count(args, 3)?;
    fields::number(args.take(), u32::MAX)?;
    let kind = args.take();
    read_object(names, kind, args.take())
}

/// Adds an event line behind the others, where a schedule may have a turn for it. Its event is no
/// look.
fn keep_line(lines: &mut Vec<KeptLine>, line: &EventLine) -> Result<(), AllocError>
    requires { HasValues no_rises line.now.event.what }
    ensures { OnOk result (lines.new.items ≡ kept lines.old.items line.now) }
{
    if lines.len() >= limits::EVENTS as usize {
        return Ok(());
    }
    lines.push(KeptLine::of(line))?;
    Ok(())
}

impl ReportWalk {
    ghost use Rattle.std.specs.Prelude.{◌≡◌};
    ghost use Rattle.nt_script.specs.Gives.{Gives, GivesRead};
    ghost use Rattle.nt_log.specs.Taking.{TakesLine};
    ghost use Rattle.nt_report.specs.declared.places.ReportPlace.TheVariants.{InSchedule};
    ghost use Rattle.nt_report.specs.Reading.{cut_step, event_step, finish, front_step, line_step};
    ghost use Rattle.nt_report.specs.Reading.{report_step, schedule_step, spins_step, start};
    ghost use Rattle.nt_report.specs.Reading.{waits_step};

    /// Nothing was read.
    pub fn new(alloc: Global) -> ReportWalk
        ensures { result ≡ start }
    {
        ReportWalk {
            place: ReportPlace::Start,
            lines: Vec::new(alloc),
            schedule: ScheduleWalk::new(alloc),
        }
    }

    /// Takes the first line that is left. Answers whether there was one; else nothing changes.
    #[inline(always)]
    pub fn next_line<'a>(
        &mut self,
        input: &mut LineInput<'a>,
        lines: &mut Lines<'a>,
    ) -> Result<bool, Stop>
        ensures walk { TakesLine (line_step input.old self.old) result self.old self.new
            lines.old lines.new }
        ensures input { input.new ≡ input.old }
    {
        match self.place {
            ReportPlace::InSchedule => self.next_turn_line(input.input(), lines),
            ReportPlace::Start
            | ReportPlace::InEvents
            | ReportPlace::InCuts
            | ReportPlace::InSpins
            | ReportPlace::InWaits => self.next_front_line(input, lines),
        }
    }

    /// The event lines and the schedule, where the text may end here: NoEnd else. `line` is the
    /// number of the line behind the last.
    pub fn finish(self, line: u32) -> Result<Parts, ScriptRefusal>
        ensures { GivesRead result (finish self line) }
    {
        let ReportWalk {
            place: _,
            lines,
            schedule,
        } = self;
        match schedule.finish(line) {
            Ok(schedule) => Ok(Parts {
                lines: Items::from_vec(lines),
                schedule,
            }),
            Err(refusal) => Err(refusal),
        }
    }

    /// Takes the first line that is left, within the schedule.
    #[inline(always)]
    fn next_turn_line(&mut self, input: &Input, lines: &mut Lines) -> Result<bool, Stop>
        requires { self.old.place ≡ InSchedule }
        ensures { TakesLine (schedule_step input.now self.old) result self.old self.new
            lines.old lines.new }
    {
        self.schedule.next_line(input, input.script.cpus, lines)
    }

    /// Takes the first line that is left, before the schedule or its first line.
    fn next_front_line<'a>(
        &mut self,
        input: &mut LineInput<'a>,
        lines: &mut Lines<'a>,
    ) -> Result<bool, Stop>
        ensures walk { TakesLine (front_step input.old self.old) result self.old self.new
            lines.old lines.new }
        ensures input { input.new ≡ input.old }
    {
        match lines.next() {
            Some(line) => {
                self.front_line(input, &line)?;
                Ok(true)
            }
            None => Ok(false),
        }
    }

    /// Takes the first line of the schedule.
    fn schedule_line(&mut self, input: &Input, line: &Line) -> Result<(), Stop>
        ensures { Gives result self.new
            (schedule_step input.now self.old (line.now.bytes.now, line.now.ended)) }
    {
        self.schedule.line(input, input.script.cpus, line)?;
        self.place = ReportPlace::InSchedule;
        Ok(())
    }

    /// Takes a line before the schedule, or its first line.
    fn front_line<'a>(&mut self, input: &mut LineInput<'a>, line: &Line<'a>) -> Result<(), Stop>
        ensures walk { Gives result self.new
            (front_step input.old self.old (line.now.bytes.now, line.now.ended)) }
        ensures input { input.new ≡ input.old }
    {
        let mut row = line.fields()?;
        let field = row.take();
        match word_at(self.place, field)? {
            LineWord::Report => self.report_line(&row),
            LineWord::Event => self.event_line(input, field, &mut row),
            LineWord::Cut => self.cut_line(input.input(), &mut row),
            LineWord::Spins => self.spins_line(input.input(), &mut row),
            LineWord::Waits => self.waits_line(input.input(), &mut row),
            LineWord::Schedule => self.schedule_line(input.input(), line),
        }
    }

    fn report_line(&mut self, row: &Fields) -> Result<(), Stop>
        ensures { Gives result self.new (report_step self.old row.now) }
    {
        count(row, 0)?;
        self.place = ReportPlace::InEvents;
        Ok(())
    }

    fn event_line<'a>(
        &mut self,
        input: &mut LineInput<'a>,
        number: &[u8],
        row: &mut Fields<'a>,
    ) -> Result<(), Stop>
        ensures walk { Gives result self.new (event_step input.old self.old number.now row.old) }
        ensures input { input.new ≡ input.old }
    {
        let mut line = EventLine::blank();
        match event_line(input, number, row, &mut line) {
            Ok(()) => {
                keep_line(&mut self.lines, &line)?;
                Ok(())
            }
            Err(kind) => Err(Stop::Bad(kind)),
        }
    }

    fn cut_line(&mut self, input: &Input, row: &mut Fields) -> Result<(), Stop>
        ensures { Gives result self.new (cut_step input.now self.old row.old) }
    {
        cut_line(input.script.cpus, row)?;
        self.place = ReportPlace::InCuts;
        Ok(())
    }

    fn spins_line(&mut self, input: &Input, row: &mut Fields) -> Result<(), Stop>
        ensures { Gives result self.new (spins_step input.now self.old row.old) }
    {
        spins_line(&input.names, input.script.cpus, row)?;
        self.place = ReportPlace::InSpins;
        Ok(())
    }

    fn waits_line(&mut self, input: &Input, row: &mut Fields) -> Result<(), Stop>
        ensures { Gives result self.new (waits_step input.now self.old row.old) }
    {
        waits_line(&input.names, row)?;
        self.place = ReportPlace::InWaits;
        Ok(())
    }
}
