//! What each event did, in the words of the report.
//!
//! A picture has the words of the run's report and no others, so the report is printed first, and
//! each event's words are found in its line, a look's in its turn of the schedule.
use memchr::memchr;
use nt_history::{Brief, Briefs, Did};
use nt_text::Lines;
use std::alloc::{AllocError, Global};

/// The bytes behind the first field of a line, where it has more.
fn behind_field(line: &[u8]) -> Option<&[u8]> {
    let end = memchr(b' ', line)?;
    match &line[end..] {
        [_, behind @ ..] => Some(behind),
        [] => None,
    }
}

/// The bytes behind the first fields of a line, so many; none where it doesn't have more.
pub(crate) fn behind_fields(line: &[u8], count: u32) -> &[u8] {
    let mut rest = line;
    for _ in 0..count {
        rest = match behind_field(rest) {
            Some(behind) => behind,
            None => return &[],
        };
    }
    rest
}

/// The first field of a line.
fn first_field(line: &[u8]) -> &[u8] {
    match memchr(b' ', line) {
        Some(end) => &line[..end],
        None => line,
    }
}

/// The first two fields of a line.
fn two_fields(line: &[u8]) -> &[u8] {
    let second = behind_fields(line, 1);
    let behind = second.len().saturating_sub(first_field(second).len());
    &line[..line.len().saturating_sub(behind)]
}

/// The words of an event's line: without its number, processor, thread and level, of a call without
/// the frame, and without the reply where the command is done.
fn words_of(line: &[u8]) -> &[u8] {
    let all = behind_fields(line, 4);
    let called = match all.strip_prefix(b"call ") {
        Some(behind) => behind_fields(behind, 1),
        None => all,
    };
    match called.strip_suffix(b" -> done") {
        Some(before) => before,
        None => called,
    }
}

/// The name of what an event begins, from its words: `int` and the level, or the object's name.
pub(crate) fn name_in<'a>(brief: &Brief, words: &'a [u8]) -> &'a [u8] {
    match brief.did {
        Did::Begin { .. } => {
            let body = behind_fields(words, 1);
            if body.starts_with(b"int ") {
                two_fields(body)
            } else {
                first_field(behind_fields(body, 1))
            }
        }
        Did::Switch { .. } | Did::Flush { .. } => first_field(behind_fields(words, 1)),
        Did::Call { .. }
        | Did::Look { .. }
        | Did::Normal { .. }
        | Did::End { .. }
        | Did::Expire { .. }
        | Did::Fire { .. }
        | Did::Clean { .. }
        | Did::Rewait { .. }
        | Did::Gone { .. }
        | Did::Free { .. }
        | Did::Rest => words,
    }
}

/// Whether an event is a look, which has no line in a report.
pub(crate) fn is_look(brief: &Brief) -> bool {
    matches!(brief.did, Did::Look { .. })
}

/// What a report says of a run.
#[derive(Drop)]
pub(crate) struct Texts<'a> {
    /// The words of each event; of a look the values that it found, as `2=17`.
    pub words: Vec<&'a [u8]>,
    /// The lines behind the events: `cut`, `spins` and `waits`.
    pub left: Vec<&'a [u8]>,
}

impl<'a> Texts<'a> {
    /// Nothing is said yet.
    pub(crate) fn new(alloc: Global) -> Texts<'a> {
        Texts {
            words: Vec::new(alloc),
            left: Vec::new(alloc),
        }
    }

    /// Adds the words of the events, whose lines come next. A look has none of them.
    fn read_events(&mut self, lines: &mut Lines<'a>, events: &Briefs) -> Result<(), AllocError> {
        for brief in events.briefs {
            let words: &'a [u8] = if is_look(brief) {
                &[]
            } else {
                match lines.next() {
                    Some(line) => words_of(line.bytes),
                    None => &[],
                }
            };
            self.words.push(words)?;
        }
        Ok(())
    }

    /// Adds the lines up to the schedule.
    fn read_left(&mut self, lines: &mut Lines<'a>) -> Result<(), AllocError> {
        while let Some(line) = lines.next() {
            if line.bytes.starts_with(b"schedule") {
                return Ok(());
            }
            self.left.push(line.bytes)?;
        }
        Ok(())
    }

    /// Takes the values of looks from their turns of the schedule, which come next.
    fn read_looks(&mut self, lines: &mut Lines<'a>, events: &Briefs) {
        for (number, brief) in events.briefs.iter().enumerate() {
            let line = lines.next();
            if is_look(brief) {
                if let (Some(line), Some(words)) = (line, self.words.get_mut(number)) {
                    *words = behind_fields(line.bytes, 2);
                }
            }
        }
    }

    /// Takes what the report of these events says.
    pub(crate) fn read(&mut self, report: &'a [u8], events: &Briefs) -> Result<(), AllocError> {
        let mut lines = Lines::new(report);
        let _ = lines.next();
        self.read_events(&mut lines, events)?;
        self.read_left(&mut lines)?;
        self.read_looks(&mut lines, events);
        Ok(())
    }

    /// The words of an event.
    pub(crate) fn of(&self, number: usize) -> &'a [u8] {
        match self.words.get(number) {
            Some(words) => words,
            None => &[],
        }
    }
}
