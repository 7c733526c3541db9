//! Reading expectations line by line.
use crate::expectations::{Expectation, MOST, Watched};
use crate::fields::expectation_of;
use crate::reading::Expectations;
use crate::refusals::{ExpectKind, ExpectRefusal, ExpectStop};
use nt_event::Items;
use nt_script::Input;
use nt_text::{Fields, Line, ScriptKind, is_word};
use std::alloc::Global;

/// The part that was read last.
#[derive(Clone, Copy, PartialEq, Eq, Debug)]
pub(crate) enum ExpectPlace {
    /// Nothing was read.
    Start,
    /// The line `expect`, and maybe expectations.
    InList,
    /// The line `done`.
    Done,
}

/// What a line says.
#[derive(Clone, Copy, PartialEq, Eq, Debug)]
pub(crate) enum ExpectLine {
    /// Expectations follow.
    Head,
    /// This is expected.
    One(Expectation),
    /// No more follow.
    End,
}

/// What was read so far.
#[derive(Drop)]
pub(crate) struct ExpectWalk {
    /// The expectations.
    pub list: Expectations,
    /// What was read last.
    pub place: ExpectPlace,
}

ghost use Rattle.std.specs.Prelude.{◌≡◌};
ghost use Rattle.nt_expect.specs.Fields.{ReadsAll, at_end};
ghost use Rattle.nt_expect.specs.Reading.{head_line, line_at, list_line, read_line};

/// What a line says behind which no field is left.
fn at_end(line: ExpectLine, row: &Fields) -> Result<ExpectLine, ScriptKind>
    ensures { result ≡ at_end line row.now }
{
    if row.count() > 0 {
        return Err(ScriptKind::ExtraField);
    }
    Ok(line)
}

fn head_line(row: &mut Fields) -> Result<ExpectLine, ScriptKind>
    ensures { result ≡ head_line row.old }
{
    if is_word(row.take(), b"expect") {
        at_end(ExpectLine::Head, row)
    } else {
        Err(ScriptKind::UnknownWord)
    }
}

fn list_line(input: &Input, row: &mut Fields) -> Result<ExpectLine, ScriptKind>
    ensures { result ≡ list_line input.now row.old }
{
    let word = row.take();
    if is_word(word, b"done") {
        return at_end(ExpectLine::End, row);
    }
    let expectation = expectation_of(input, word, row)?;
    at_end(ExpectLine::One(expectation), row)
}

fn line_at(input: &Input, place: ExpectPlace, row: &mut Fields) -> Result<ExpectLine, ScriptKind>
    ensures { result ≡ line_at input.now place row.old }
{
    match place {
        ExpectPlace::Start => head_line(row),
        ExpectPlace::InList => list_line(input, row),
        ExpectPlace::Done => Err(ScriptKind::ExtraField),
    }
}

/// What a line says behind what was read last.
fn read_line(input: &Input, place: ExpectPlace, line: &Line) -> Result<ExpectLine, ScriptKind>
    ensures { result ≡ read_line input.now place (line.now.bytes.now, line.now.ended) }
{
    let mut row = line.fields()?;
    line_at(input, place, &mut row)
}

impl ExpectWalk {
    ghost use Rattle.std.specs.Prelude.{◌≡◌};
    ghost use Rattle.nt_expect.specs.Gives.{Gives, GivesRead};
    ghost use Rattle.nt_expect.specs.Reading.{finish, line_step, start, taken};
    ghost use Rattle.nt_expect.specs.declared.lines.ExpectLine.TheVariants.{One};

    /// Nothing was read.
    pub fn new(alloc: Global) -> ExpectWalk
        ensures { result ≡ start }
    {
        ExpectWalk {
            list: Items::new(alloc),
            place: ExpectPlace::Start,
        }
    }

    /// Takes what a line says.
    fn take(&mut self, line: &ExpectLine) -> Result<(), ExpectStop>
        ensures { Gives result self.new (taken self.old line.now) }
    {
        match line {
            ExpectLine::Head => self.place = ExpectPlace::InList,
            ExpectLine::End => self.place = ExpectPlace::Done,
            ExpectLine::One(expectation) => return self.add(*expectation),
        }
        Ok(())
    }

    /// Adds an expectation.
    fn add(&mut self, expectation: Expectation) -> Result<(), ExpectStop>
        ensures { Gives result self.new (taken self.old (One expectation)) }
    {
        if self.list.len() >= MOST {
            return Err(ExpectStop::Bad(ExpectKind::TooMany));
        }
        // The proof has to know what is within an expectation, so it is named here.
        let _named = matches!(expectation, Expectation::Never(Watched::Refused));
        self.list.push(expectation)?;
        Ok(())
    }

    /// Takes a line. `NoMemory` leaves the walk of no use.
    pub fn line(&mut self, input: &Input, line: &Line) -> Result<(), ExpectStop>
        ensures { Gives result self.new
            (line_step input.now self.old (line.now.bytes.now, line.now.ended)) }
    {
        let said = read_line(input, self.place, line)?;
        // As in `add`.
        let _named = matches!(said, ExpectLine::One(Expectation::Never(Watched::Refused)));
        self.take(&said)
    }

    /// The expectations, where the text may end here: NoEnd else. `line` is the number of the line
    /// behind the last.
    pub fn finish(self, line: u32) -> Result<Expectations, ExpectRefusal>
        ensures { GivesRead result (finish self.place self.list line) }
    {
        let ExpectWalk { list, place } = self;
        match place {
            ExpectPlace::Done => Ok(list),
            ExpectPlace::Start | ExpectPlace::InList => Err(ExpectRefusal::Bad {
                line,
                kind: ExpectKind::Line(ScriptKind::NoEnd),
            }),
        }
    }
}
