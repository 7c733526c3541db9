//! A run for a terminal: a line for each event, a column for each processor.
use crate::frames::Frames;
use crate::scene::Run;
use crate::span::count_of;
use crate::texts::Texts;
use itoa::Buffer;
use nt_event::{CpuNo, Level};
use nt_history::{Brief, Did};
use nt_text::put_digits;
use std::alloc::{AllocError, Global};

/// The width of a line, where no column is narrower than `NARROWEST`.
const WIDTH: usize = 100;

/// The width of the event's number, with the space behind it.
const NUMBER: usize = 7;

/// The least width of a column.
const NARROWEST: usize = 23;

/// The width of a column, with the space behind it.
fn column_width(columns: usize) -> usize {
    if columns == 0 {
        return NARROWEST;
    }
    ((WIDTH - NUMBER) / columns).max(NARROWEST)
}

/// Adds so many spaces.
fn put_spaces(out: &mut Vec<u8>, count: usize) -> Result<(), AllocError> {
    for _ in 0..count {
        out.push(b' ')?;
    }
    Ok(())
}

/// Adds a cell and fills its column. What has no room is left out, and `~` says so.
fn put_cell(out: &mut Vec<u8>, cell: &[u8], width: usize) -> Result<(), AllocError> {
    let room = width.saturating_sub(1);
    if room < cell.len() {
        let kept = room.saturating_sub(1);
        out.extend_from_slice(&cell[..kept])?;
        out.extend_from_slice(b"~ ")
    } else {
        out.extend_from_slice(cell)?;
        put_spaces(out, width.saturating_sub(cell.len()))
    }
}

/// Ends a line, without the spaces that it ends with.
fn put_end(out: &mut Vec<u8>) -> Result<(), AllocError> {
    let mut length = out.len();
    while 0 < length && out[length - 1] == b' ' {
        length -= 1;
    }
    out.truncate(length);
    out.push(b'\n')?;
    Ok(())
}

/// Adds an event's number, at the right of its column.
fn put_number(out: &mut Vec<u8>, number: u32) -> Result<(), AllocError> {
    let mut buffer = Buffer::new();
    let digits = buffer.format(number).as_bytes();
    put_spaces(out, (NUMBER - 1).saturating_sub(digits.len()))?;
    out.extend_from_slice(digits)?;
    out.extend_from_slice(b" ")
}

/// Adds a bar for each of the outermost frames on a processor, at most so many: a colon for one
/// that spins.
fn put_bars(cell: &mut Vec<u8>, frames: &Frames, cpu: CpuNo, most: u32) -> Result<(), AllocError> {
    let mut count: u32 = 0;
    for frame in frames.open.as_slice() {
        if frame.cpu == cpu && frames.stands(frame) && count < most {
            let bar: &[u8] = if frame.spins { b": " } else { b"| " };
            cell.extend_from_slice(bar)?;
            count = count.saturating_add(1);
        }
    }
    Ok(())
}

/// Whether the event is of a frame that was there before it: its bars are those of before.
fn is_inside(brief: &Brief) -> bool {
    match brief.did {
        Did::Call { .. } | Did::Rewait { .. } => true,
        Did::Look { .. }
        | Did::Begin { .. }
        | Did::Normal { .. }
        | Did::End { .. }
        | Did::Expire { .. }
        | Did::Fire { .. }
        | Did::Clean { .. }
        | Did::Switch { .. }
        | Did::Flush { .. }
        | Did::Gone { .. }
        | Did::Free { .. }
        | Did::Rest => false,
    }
}

/// Adds a level's name, and of a device's level its number.
fn put_level(cell: &mut Vec<u8>, level: Level) -> Result<(), AllocError> {
    cell.extend_from_slice(level.name().as_bytes())?;
    if level.is_device() {
        cell.extend_from_slice(b" ")?;
        put_digits(cell, u64::from(level.number()))?;
    }
    Ok(())
}

/// Adds the words of an event, with the level that a new frame begins at.
fn put_words(cell: &mut Vec<u8>, brief: &Brief, words: &[u8]) -> Result<(), AllocError> {
    if let Did::Look { .. } = brief.did {
        cell.extend_from_slice(b"look ")?;
    }
    match words.strip_prefix(b"begin ") {
        Some(body) => {
            put_level(cell, brief.level)?;
            cell.extend_from_slice(b" ")?;
            cell.extend_from_slice(body)
        }
        None => cell.extend_from_slice(words),
    }
}

/// How the frames of an event's processor stood before it.
#[derive(Clone, Copy)]
struct Before {
    depth: u32,
    level: Level,
}

/// Adds what stands behind the bars of an event: `>` where a frame begins or a thread is taken up,
/// `<` where one ends, the words, and the level where a frame changed it.
fn put_event(
    cell: &mut Vec<u8>,
    frames: &Frames,
    brief: &Brief,
    words: &[u8],
    before: Before,
) -> Result<(), AllocError> {
    let after = frames.depth(brief.cpu);
    if !is_inside(brief) {
        put_bars(cell, frames, brief.cpu, before.depth.min(after))?;
        if before.depth < after {
            cell.extend_from_slice(b"> ")?;
        } else if after < before.depth {
            cell.extend_from_slice(b"< ")?;
        }
    }
    put_words(cell, brief, words)?;
    if after == before.depth && 0 < after && frames.level(brief.cpu) != before.level {
        cell.extend_from_slice(b" (")?;
        put_level(cell, frames.level(brief.cpu))?;
        cell.extend_from_slice(b")")?;
    }
    Ok(())
}

/// Adds the bars of the frames on another processor than the event's.
fn put_other(
    out: &mut Vec<u8>,
    cell: &mut Vec<u8>,
    frames: &Frames,
    cpu: CpuNo,
    width: usize,
) -> Result<(), AllocError> {
    cell.clear();
    put_bars(cell, frames, cpu, u32::MAX)?;
    put_cell(out, cell.as_slice(), width)
}

/// Adds the line of an event, whose cell is this.
fn put_line(
    out: &mut Vec<u8>,
    cells: (&[u8], &mut Vec<u8>),
    frames: &Frames,
    run: &Run,
    number: u32,
    cpu: CpuNo,
) -> Result<(), AllocError> {
    let (own, other) = cells;
    let width = column_width(run.shown.len());
    put_number(out, number)?;
    for shown in run.shown {
        if *shown == cpu {
            put_cell(out, own, width)?;
        } else {
            put_other(out, other, frames, *shown, width)?;
        }
    }
    put_end(out)
}

/// The parts of a listing while it is made.
#[derive(Drop)]
pub(crate) struct Listing {
    out: Vec<u8>,
    /// The cell of the event.
    own: Vec<u8>,
    /// A cell of another processor.
    other: Vec<u8>,
    frames: Frames,
}

impl Listing {
    fn new(alloc: Global, cpus: u8) -> Result<Listing, AllocError> {
        Ok(Listing {
            out: Vec::new(alloc),
            own: Vec::new(alloc),
            other: Vec::new(alloc),
            frames: Frames::new(alloc, cpus)?,
        })
    }

    /// Follows the event of this number, and makes its cell.
    fn follow(
        &mut self,
        run: &Run,
        number: u32,
        brief: &Brief,
        words: &[u8],
    ) -> Result<(), AllocError> {
        let before = Before {
            depth: self.frames.depth(brief.cpu),
            level: self.frames.level(brief.cpu),
        };
        self.own.clear();
        if is_inside(brief) {
            put_bars(&mut self.own, &self.frames, brief.cpu, u32::MAX)?;
        }
        self.frames.follow(run.script, number, brief)?;
        put_event(&mut self.own, &self.frames, brief, words, before)
    }

    /// Adds the lines of the events of the span.
    fn put_events(&mut self, run: &Run, texts: &Texts) -> Result<(), AllocError> {
        for (place, brief) in run.events.briefs.iter().enumerate() {
            let number = count_of(place);
            if run.span.to < number {
                return Ok(());
            }
            self.follow(run, number, brief, texts.of(place))?;
            if run.span.has(number) {
                put_line(
                    &mut self.out,
                    (self.own.as_slice(), &mut self.other),
                    &self.frames,
                    run,
                    number,
                    brief.cpu,
                )?;
            }
        }
        Ok(())
    }

    /// Adds the line of the processors.
    fn put_head(&mut self, run: &Run) -> Result<(), AllocError> {
        put_spaces(&mut self.out, NUMBER)?;
        for cpu in run.shown {
            self.own.clear();
            self.own.extend_from_slice(b"p")?;
            put_digits(&mut self.own, u64::from(cpu.0))?;
            put_cell(
                &mut self.out,
                self.own.as_slice(),
                column_width(run.shown.len()),
            )?;
        }
        put_end(&mut self.out)
    }

    /// Adds what is left at the end of the run.
    fn put_left(&mut self, left: &[&[u8]]) -> Result<(), AllocError> {
        for words in left {
            self.out.extend_from_slice(words)?;
            self.out.push(b'\n')?;
        }
        Ok(())
    }

    fn put_all(&mut self, run: &Run, texts: &Texts) -> Result<(), AllocError> {
        self.put_head(run)?;
        self.put_events(run, texts)?;
        self.put_left(texts.left.as_slice())
    }

    fn into_text(self) -> Vec<u8> {
        let Listing { out, .. } = self;
        out
    }
}

/// The listing of a run.
pub(crate) fn listing_of(alloc: Global, run: &Run, texts: &Texts) -> Result<Vec<u8>, AllocError> {
    let mut listing = Listing::new(alloc, run.script.cpus)?;
    listing.put_all(run, texts)?;
    Ok(listing.into_text())
}
