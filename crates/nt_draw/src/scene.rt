//! What stands in a picture, as data: boxes, arcs and texts, by lane, column and level.
use crate::frames::{Frame, Frames, Kind};
use crate::span::{Span, count_of, events_in, lane_of};
use crate::texts::{Texts, is_look, name_in};
use nt_event::{CpuNo, Level, Reply, Script};
use nt_history::{Brief, Briefs, Did};
use std::alloc::{AllocError, Global};

/// A box: a frame at one level, from one column to before another one.
#[derive(Clone, Copy)]
pub(crate) struct Block<'a> {
    pub cpu: CpuNo,
    pub lane: u32,
    pub from: u32,
    pub to: u32,
    pub level: Level,
    /// How many frames it is inside.
    pub depth: u32,
    pub kind: Kind,
    pub spins: bool,
    /// The frame: the number of the event that began it, and its name.
    pub number: u32,
    pub name: &'a [u8],
    /// The column before which no box in front begins.
    pub clear_to: u32,
}

/// A dashed arc from an insert, ask or setting to its use.
#[derive(Clone, Copy)]
pub(crate) struct Arc {
    pub from_lane: u32,
    /// None: before the first column.
    pub from: Option<u32>,
    pub to_lane: u32,
    pub to: u32,
}

/// How an event's text looks.
#[derive(Clone, Copy, PartialEq, Eq)]
pub(crate) enum Tone {
    Plain,
    /// Ends, cleans and rests, and threads that are gone.
    Quiet,
    Refused,
    Look,
}

/// The text of an event.
#[derive(Clone, Copy)]
pub(crate) struct Label<'a> {
    pub lane: u32,
    pub column: u32,
    /// The event's number.
    pub number: u32,
    pub tone: Tone,
    pub words: &'a [u8],
}

/// What stands in a picture.
#[derive(Drop)]
pub(crate) struct Scene<'a> {
    /// How many columns there are, one for each event.
    pub columns: u32,
    /// In the order in which they are drawn: one inside another comes later.
    pub blocks: Vec<Block<'a>>,
    pub arcs: Vec<Arc>,
    pub labels: Vec<Label<'a>>,
    /// By level, whether it occurs.
    pub levels: [bool; 16],
    /// The places of the boxes that have no end yet.
    current: Vec<usize>,
}

/// What a picture is made from.
#[derive(Clone, Copy)]
pub(crate) struct Run<'r> {
    pub script: &'r Script,
    pub events: Briefs<'r>,
    pub span: Span,
    /// The processors that are shown.
    pub shown: &'r [CpuNo],
}

/// How a reply makes a text look.
fn tone_of_reply(reply: &Reply) -> Tone {
    match reply {
        Reply::Refused(_) => Tone::Refused,
        Reply::Done | Reply::Yes | Reply::No | Reply::Status(_) | Reply::Blocked | Reply::Spin =>
            Tone::Plain,
    }
}

/// How the text of an event looks.
fn tone_of(brief: &Brief) -> Tone {
    match &brief.did {
        Did::Call { reply, .. } => tone_of_reply(reply),
        Did::Look { .. } => Tone::Look,
        Did::End { .. } | Did::Clean { .. } | Did::Gone { .. } | Did::Rest => Tone::Quiet,
        Did::Begin { .. }
        | Did::Normal { .. }
        | Did::Expire { .. }
        | Did::Fire { .. }
        | Did::Switch { .. }
        | Did::Rewait { .. }
        | Did::Flush { .. }
        | Did::Free { .. } => Tone::Plain,
    }
}

/// The event that this one uses up.
fn used_by(brief: &Brief) -> Option<u32> {
    match brief.did {
        Did::Begin { from, .. } | Did::Expire { from, .. } | Did::Flush { from, .. } => {
            u32::try_from(from).ok()
        }
        Did::Call { .. }
        | Did::Look { .. }
        | Did::Normal { .. }
        | Did::End { .. }
        | Did::Fire { .. }
        | Did::Clean { .. }
        | Did::Switch { .. }
        | Did::Rewait { .. }
        | Did::Gone { .. }
        | Did::Free { .. }
        | Did::Rest => None,
    }
}

/// Whether a box shows its frame as it is.
fn is_as(block: &Block, frames: &Frames) -> bool {
    match frames.find(block.cpu, block.number) {
        Some(frame) => {
            frames.stands(&frame) && frame.level == block.level && frame.spins == block.spins
        }
        None => false,
    }
}

impl<'a> Scene<'a> {
    /// A picture of nothing, with so many columns.
    fn new(alloc: Global, columns: u32) -> Scene<'a> {
        Scene {
            columns,
            blocks: Vec::new(alloc),
            arcs: Vec::new(alloc),
            labels: Vec::new(alloc),
            levels: [false; 16],
            current: Vec::new(alloc),
        }
    }

    /// Notes that a level occurs.
    fn note_level(&mut self, level: Level) {
        let place = usize::from(level.number());
        if place < self.levels.len() {
            self.levels[place] = true;
        }
    }

    /// Ends the boxes of the processor whose frames changed, before this column.
    fn end_blocks(&mut self, frames: &Frames, cpu: CpuNo, column: u32) {
        for place in self.current.as_slice() {
            if let Some(block) = self.blocks.get_mut(*place) {
                if block.cpu == cpu && !is_as(block, frames) {
                    block.to = column;
                }
            }
        }
        let blocks = self.blocks.as_slice();
        self.current.retain(|place| match blocks.get(*place) {
            Some(block) => block.to == u32::MAX,
            None => false,
        });
    }

    /// Whether a box of the frame has no end yet.
    fn has_current(&self, frame: &Frame) -> bool {
        for place in self.current.as_slice() {
            if let Some(block) = self.blocks.get(*place) {
                if block.cpu == frame.cpu && block.number == frame.number {
                    return true;
                }
            }
        }
        false
    }

    /// Notes that a box of the processor begins at this column, in front of those that are there.
    fn cover(&mut self, cpu: CpuNo, column: u32) {
        for place in self.current.as_slice() {
            if let Some(block) = self.blocks.get_mut(*place) {
                if block.cpu == cpu && block.from < column && column < block.clear_to {
                    block.clear_to = column;
                }
            }
        }
    }

    /// Begins a box of the frame at this column.
    fn begin_block(
        &mut self,
        frame: &Frame,
        lane: u32,
        depth: u32,
        column: u32,
        name: &'a [u8],
    ) -> Result<(), AllocError> {
        self.cover(frame.cpu, column);
        self.note_level(frame.level);
        self.blocks.reserve(1)?;
        self.current.push(self.blocks.len())?;
        self.blocks.push_reserved(Block {
            cpu: frame.cpu,
            lane,
            from: column,
            to: u32::MAX,
            level: frame.level,
            depth,
            kind: frame.kind,
            spins: frame.spins,
            number: frame.number,
            name,
            clear_to: u32::MAX,
        });
        Ok(())
    }

    /// Begins boxes of the frames that stand on a processor and have none.
    fn begin_blocks(
        &mut self,
        run: &Run,
        texts: &Texts<'a>,
        frames: &Frames,
        cpu: CpuNo,
        column: u32,
    ) -> Result<(), AllocError> {
        let Some(lane) = lane_of(run.shown, cpu) else {
            return Ok(());
        };
        let mut depth: u32 = 0;
        for frame in frames.open.as_slice() {
            if frame.cpu == cpu && frames.stands(frame) {
                if !self.has_current(frame) {
                    let name = name_of(run, texts, frame);
                    self.begin_block(frame, lane, depth, column, name)?;
                }
                depth = depth.saturating_add(1);
            }
        }
        Ok(())
    }

    /// Adds the arc to an event that uses up another one.
    fn add_arc(
        &mut self,
        run: &Run,
        brief: &Brief,
        lane: u32,
        column: u32,
    ) -> Result<(), AllocError> {
        let Some(used) = used_by(brief) else {
            return Ok(());
        };
        let Some(asker) = run.events.briefs.get(used as usize) else {
            return Ok(());
        };
        self.arcs.push(Arc {
            from_lane: lane_of(run.shown, asker.cpu).unwrap_or(lane),
            from: used.checked_sub(run.span.from),
            to_lane: lane,
            to: column,
        })?;
        Ok(())
    }

    /// Adds the text of the event of this number, and its arc.
    fn add_event(
        &mut self,
        run: &Run,
        texts: &Texts<'a>,
        number: u32,
        brief: &Brief,
    ) -> Result<(), AllocError> {
        let Some(lane) = lane_of(run.shown, brief.cpu) else {
            return Ok(());
        };
        let column = number.saturating_sub(run.span.from);
        if !is_look(brief) {
            self.note_level(brief.level);
        }
        self.add_arc(run, brief, lane, column)?;
        self.labels.push(Label {
            lane,
            column,
            number,
            tone: tone_of(brief),
            words: texts.of(number as usize),
        })?;
        Ok(())
    }

    /// Begins boxes of all frames that stand, where the span begins.
    fn begin_all(
        &mut self,
        run: &Run,
        texts: &Texts<'a>,
        frames: &Frames,
    ) -> Result<(), AllocError> {
        for cpu in run.shown {
            self.begin_blocks(run, texts, frames, *cpu, 0)?;
        }
        Ok(())
    }

    /// Goes through the events from the first one to the last of the span.
    fn walk(
        &mut self,
        run: &Run,
        texts: &Texts<'a>,
        frames: &mut Frames,
    ) -> Result<(), AllocError> {
        for (place, brief) in run.events.briefs.iter().enumerate() {
            let number = count_of(place);
            if run.span.to < number {
                return Ok(());
            }
            if number == run.span.from {
                self.begin_all(run, texts, frames)?;
            }
            frames.follow(run.script, number, brief)?;
            if run.span.has(number) {
                let column = number.saturating_sub(run.span.from);
                self.end_blocks(frames, brief.cpu, column);
                self.begin_blocks(run, texts, frames, brief.cpu, column)?;
                self.add_event(run, texts, number, brief)?;
            }
        }
        Ok(())
    }

    /// Ends the boxes that are open where the span ends.
    fn finish(&mut self) {
        let end = self.columns;
        for block in self.blocks.as_mut_slice() {
            block.to = block.to.min(end);
            block.clear_to = block.clear_to.min(block.to);
        }
    }
}

/// The name of a frame, from the words of the event that began it.
pub(crate) fn name_of<'a>(run: &Run, texts: &Texts<'a>, frame: &Frame) -> &'a [u8] {
    match run.events.briefs.get(frame.number as usize) {
        Some(brief) => name_in(brief, texts.of(frame.number as usize)),
        None => &[],
    }
}

/// The picture of a run.
pub(crate) fn scene_of<'a>(
    alloc: Global,
    run: &Run,
    texts: &Texts<'a>,
) -> Result<Scene<'a>, AllocError> {
    let columns = events_in(run.span, run.events.briefs.len());
    let mut frames = Frames::new(alloc, run.script.cpus)?;
    let mut scene = Scene::new(alloc, columns);
    scene.note_level(Level::PASSIVE);
    scene.walk(run, texts, &mut frames)?;
    scene.finish();
    Ok(scene)
}
