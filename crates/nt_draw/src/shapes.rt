//! Single elements of a picture.
ghost use Rattle.std.specs.Prelude.{◌<◌, OnOk, length};
ghost use Rattle.nt_draw.specs.Tags.{Begins, Closes, Keeps};
ghost use Rattle.nt_draw.specs.declared.tags.Tag.TheVariants.{Group, Rect, Text};

use crate::tags::{Key, Piece, Tag, Tags};
use std::alloc::AllocError;

/// Begins a rectangle; further attributes may follow.
pub(crate) fn begin_rect(
    tags: &mut Tags,
    x: u32,
    y: u32,
    width: u32,
    height: u32,
) -> Result<(), AllocError>
    ensures { OnOk result (Begins Rect tags.old tags.new) }
{
    tags.open(Tag::Rect)?;
    tags.number(Key::X, x)?;
    tags.number(Key::Y, y)?;
    tags.number(Key::Width, width)?;
    tags.number(Key::Height, height)
}

/// Begins a group of elements, filled so; further attributes may follow.
pub(crate) fn begin_group(tags: &mut Tags, fill: &[u8]) -> Result<(), AllocError>
    ensures { OnOk result (Begins Group tags.old tags.new) }
{
    tags.open(Tag::Group)?;
    tags.word(Key::Fill, fill)
}

/// Begins a text; further attributes may follow.
pub(crate) fn begin_text(tags: &mut Tags, x: u32, y: u32) -> Result<(), AllocError>
    ensures { OnOk result (Begins Text tags.old tags.new) }
{
    tags.open(Tag::Text)?;
    tags.number(Key::X, x)?;
    tags.number(Key::Y, y)
}

/// Closes an element, and ends the line.
pub(crate) fn close_line(tags: &mut Tags) -> Result<(), AllocError>
    requires { 0 < length tags.old.opened }
    ensures { OnOk result (Closes tags.old tags.new) }
{
    tags.close()?;
    tags.text(&[Piece::Text(b"\n")])
}

/// Adds a text.
pub(crate) fn put_words(tags: &mut Tags, x: u32, y: u32, words: &[Piece]) -> Result<(), AllocError>
    ensures { OnOk result (Keeps tags.old tags.new) }
{
    begin_text(tags, x, y)?;
    tags.text(words)?;
    close_line(tags)
}

/// Adds a filled box.
pub(crate) fn put_rect(
    tags: &mut Tags,
    x: u32,
    y: u32,
    width: u32,
    height: u32,
    fill: &[u8],
) -> Result<(), AllocError>
    ensures { OnOk result (Keeps tags.old tags.new) }
{
    begin_rect(tags, x, y, width, height)?;
    tags.word(Key::Fill, fill)?;
    close_line(tags)
}

/// Adds a line from the first point to the second.
pub(crate) fn put_line(
    tags: &mut Tags,
    x1: u32,
    y1: u32,
    x2: u32,
    y2: u32,
) -> Result<(), AllocError>
    ensures { OnOk result (Keeps tags.old tags.new) }
{
    tags.open(Tag::Line)?;
    tags.number(Key::X1, x1)?;
    tags.number(Key::Y1, y1)?;
    tags.number(Key::X2, x2)?;
    tags.number(Key::Y2, y2)?;
    close_line(tags)
}

/// Adds a disc.
pub(crate) fn put_disc(tags: &mut Tags, x: u32, y: u32, radius: u32) -> Result<(), AllocError>
    ensures { OnOk result (Keeps tags.old tags.new) }
{
    tags.open(Tag::Circle)?;
    tags.number(Key::CenterX, x)?;
    tags.number(Key::CenterY, y)?;
    tags.number(Key::Radius, radius)?;
    close_line(tags)
}

/// Adds a path of this course.
pub(crate) fn put_path(tags: &mut Tags, course: &[Piece]) -> Result<(), AllocError>
    ensures { OnOk result (Keeps tags.old tags.new) }
{
    tags.open(Tag::Path)?;
    tags.attribute(Key::Course, course)?;
    close_line(tags)
}
