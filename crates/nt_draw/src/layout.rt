//! Where things stand in a picture, in pixels.
//!
//! Coordinates are sums of at most 64 lanes of some thousand pixels, or of 160,000 columns, and so
//! far below the greatest `u32`; sums saturate all the same, so that no reader has to believe it.
use crate::scene::{Label, Scene};
use nt_event::Level;

/// The width of a column.
pub(crate) const COLUMN: u32 = 34;

/// From a column's left side to its event.
pub(crate) const MIDDLE: u32 = 17;

/// The width of what stands left of the first column.
pub(crate) const LEFT: u32 = 124;

/// The height of the heading.
const HEADING: u32 = 48;

/// The height of a box at the lowest level, and how much each further level adds.
const LOWEST: u32 = 28;

const STEP: u32 = 22;

/// What a box inside another one rises above it, at one level.
const INSET: u32 = 3;

/// The height of arcs and numbers below a lane, with a gap.
const BELOW: u32 = 52;

/// The least width of a picture: the legend has to have room.
const LEAST_WIDTH: u32 = 980;

/// What the measures of a picture depend on.
#[derive(Clone, Copy)]
pub(crate) struct Layout {
    pub columns: u32,
    lanes: u32,
    /// The longest text of an event, in characters.
    longest: u32,
    /// How many lines stand below the lanes.
    lines: u32,
    levels: [bool; 16],
}

/// The longest of these texts.
fn longest_of(labels: &[Label]) -> u32 {
    let mut longest: u32 = 0;
    for label in labels {
        longest = longest.max(u32::try_from(label.words.len()).unwrap_or(u32::MAX));
    }
    longest
}

impl Layout {
    /// The measures of a scene with so many lanes, and so many lines below them.
    pub(crate) fn of(scene: &Scene, lanes: usize, lines: usize) -> Layout {
        Layout {
            columns: scene.columns,
            lanes: u32::try_from(lanes).unwrap_or(u32::MAX),
            longest: longest_of(scene.labels.as_slice()).min(60),
            lines: u32::try_from(lines).unwrap_or(u32::MAX),
            levels: scene.levels,
        }
    }

    /// Whether this level occurs.
    pub(crate) fn has(&self, level: Level) -> bool {
        let place = usize::from(level.number());
        place < self.levels.len() && self.levels[place]
    }

    /// How many levels below this one occur.
    fn slot(&self, level: Level) -> u32 {
        let mut slot: u32 = 0;
        for (number, occurs) in self.levels.iter().enumerate() {
            if *occurs && number < usize::from(level.number()) {
                slot = slot.saturating_add(1);
            }
        }
        slot
    }

    /// The height of a box at this level, of a frame inside so many.
    pub(crate) fn height(&self, level: Level, depth: u32) -> u32 {
        self.slot(level)
            .saturating_mul(STEP)
            .saturating_add(LOWEST)
            .saturating_add(depth.saturating_mul(INSET))
    }

    /// The height of a lane's boxes at most.
    pub(crate) fn inner(&self) -> u32 {
        self.height(Level::HIGH, 3)
    }

    /// The height of the texts above a lane.
    fn above(&self) -> u32 {
        self.longest.saturating_mul(5).saturating_add(8)
    }

    /// From one lane to the next.
    fn pitch(&self) -> u32 {
        self.above()
            .saturating_add(self.inner())
            .saturating_add(BELOW)
    }

    /// The left side of a column.
    pub(crate) fn x(&self, column: u32) -> u32 {
        column.saturating_mul(COLUMN).saturating_add(LEFT)
    }

    /// Where the event of a column stands.
    pub(crate) fn middle(&self, column: u32) -> u32 {
        self.x(column).saturating_add(MIDDLE)
    }

    /// The foot of a lane's boxes.
    pub(crate) fn foot(&self, lane: u32) -> u32 {
        lane.saturating_mul(self.pitch())
            .saturating_add(HEADING)
            .saturating_add(self.above())
            .saturating_add(self.inner())
    }

    /// Below this the lanes end.
    pub(crate) fn end(&self) -> u32 {
        self.lanes
            .saturating_mul(self.pitch())
            .saturating_add(HEADING)
    }

    /// Where the line of this number below the lanes stands.
    pub(crate) fn line(&self, number: u32) -> u32 {
        self.end()
            .saturating_add(number.saturating_mul(18))
            .saturating_add(10)
    }

    /// Where the legend stands.
    pub(crate) fn legend(&self) -> u32 {
        self.line(self.lines).saturating_add(22)
    }

    /// The width of the picture: the texts of the last columns lean over.
    pub(crate) fn width(&self) -> u32 {
        self.x(self.columns)
            .saturating_add(self.longest.saturating_mul(3))
            .saturating_add(40)
            .max(LEAST_WIDTH)
    }

    /// The height of the picture.
    pub(crate) fn whole(&self) -> u32 {
        self.legend().saturating_add(24)
    }
}
