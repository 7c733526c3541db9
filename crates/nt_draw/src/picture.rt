//! A scene as a picture.
ghost use Rattle.std.specs.Prelude.{◌≡◌, OnOk, IfOk, true};
ghost use Rattle.nt_draw.specs.Tags.{IsDocument, Keeps};

use crate::frames::Kind;
use crate::layout::{COLUMN, LEFT, Layout};
use crate::scene::{Arc, Block, Label, Run, Scene, Tone};
use crate::shapes::{
    begin_group, begin_rect, begin_text, close_line, put_disc, put_line, put_path, put_rect,
    put_words,
};
use crate::tags::{Key, Piece, Tag, Tags};
use nt_event::{CpuNo, Level};
use std::alloc::{AllocError, Global};

/// Colours.
const INK: &[u8] = b"#222222";

const QUIET: &[u8] = b"#8a8a8a";

const REFUSED: &[u8] = b"#b00020";

const LOOK: &[u8] = b"#1f5fbf";

const ARC: &[u8] = b"#b35900";

const PALE: &[u8] = b"#e6e6e6";

/// The colour of a frame.
fn fill_of(kind: Kind) -> &'static [u8] {
    match kind {
        Kind::Thread => b"#e1e4ea",
        Kind::Interrupt => b"#f6c1bd",
        Kind::Dpc => b"#fbd9a6",
        Kind::ThreadedDpc => b"#fdf0b0",
        Kind::Apc => b"#c7e9c4",
    }
}

/// What a frame is.
fn kind_word(kind: Kind) -> &'static [u8] {
    match kind {
        Kind::Thread => b"thread",
        Kind::Interrupt => b"interrupt",
        Kind::Dpc => b"DPC",
        Kind::ThreadedDpc => b"threaded DPC",
        Kind::Apc => b"APC",
    }
}

/// The colour of an event's text.
fn ink_of(tone: Tone) -> &'static [u8] {
    match tone {
        Tone::Plain => INK,
        Tone::Quiet => QUIET,
        Tone::Refused => REFUSED,
        Tone::Look => LOOK,
    }
}

/// Adds the attributes of the picture.
fn put_head(tags: &mut Tags, layout: &Layout) -> Result<(), AllocError>
    requires { tags.old.begun ≡ true }
    ensures { OnOk result (Keeps tags.old tags.new) }
{
    let (width, height) = (layout.width(), layout.whole());
    tags.word(Key::Space, b"http://www.w3.org/2000/svg")?;
    tags.number(Key::Width, width)?;
    tags.number(Key::Height, height)?;
    tags.attribute(
        Key::ViewBox,
        &[
            Piece::Text(b"0 0 "),
            Piece::Number(width),
            Piece::Text(b" "),
            Piece::Number(height),
        ],
    )?;
    tags.word(Key::FontFamily, b"sans-serif")?;
    tags.number(Key::FontSize, 10)?;
    tags.text(&[Piece::Text(b"\n")])?;
    put_rect(tags, 0, 0, width, height, b"#ffffff")
}

/// Adds the pattern that fills a box that spins.
fn put_pattern(tags: &mut Tags) -> Result<(), AllocError>
    ensures { OnOk result (Keeps tags.old tags.new) }
{
    tags.open(Tag::Defs)?;
    tags.open(Tag::Pattern)?;
    tags.word(Key::Id, b"spins")?;
    tags.number(Key::Width, 5)?;
    tags.number(Key::Height, 5)?;
    tags.word(Key::PatternUnits, b"userSpaceOnUse")?;
    tags.word(Key::PatternTransform, b"rotate(45)")?;
    begin_rect(tags, 0, 0, 1, 5)?;
    tags.word(Key::Fill, b"#8a5a3a")?;
    tags.close()?;
    tags.close()?;
    close_line(tags)
}

/// Adds the title: which events of how many, and on how many processors.
fn put_title(tags: &mut Tags, run: &Run, columns: u32) -> Result<(), AllocError>
    ensures { OnOk result (Keeps tags.old tags.new) }
{
    let last = run.span.from.saturating_add(columns).saturating_sub(1);
    begin_text(tags, 12, 26)?;
    tags.number(Key::FontSize, 15)?;
    tags.word(Key::FontWeight, b"bold")?;
    tags.word(Key::Fill, INK)?;
    tags.text(&[
        Piece::Text(b"Events "),
        Piece::Number(run.span.from),
        Piece::Text(b" to "),
        Piece::Number(last),
        Piece::Text(b" of "),
        Piece::Number(crate::span::count_of(run.events.briefs.len())),
        Piece::Text(b", processors: "),
        Piece::Number(u32::from(run.script.cpus)),
    ])?;
    close_line(tags)
}

/// Adds the grey line of a level in a lane, and its name.
fn put_level(tags: &mut Tags, layout: &Layout, foot: u32, level: Level) -> Result<(), AllocError>
    ensures { OnOk result (Keeps tags.old tags.new) }
{
    let y = foot.saturating_sub(layout.height(level, 0));
    put_line(tags, LEFT, y, layout.x(layout.columns), y)?;
    begin_text(tags, LEFT - 6, y.saturating_add(4))?;
    tags.word(Key::Stroke, b"none")?;
    tags.word(Key::TextAnchor, b"end")?;
    tags.text(&[
        Piece::Text(level.name().as_bytes()),
        Piece::Text(b" "),
        Piece::Number(u32::from(level.number())),
    ])?;
    close_line(tags)
}

/// Adds the lines of the levels that occur.
fn put_levels(tags: &mut Tags, layout: &Layout, foot: u32) -> Result<(), AllocError>
    ensures { OnOk result (Keeps tags.old tags.new) }
{
    begin_group(tags, QUIET)?;
    tags.word(Key::Stroke, PALE)?;
    put_each_level(tags, layout, foot)?;
    close_line(tags)
}

fn put_each_level(tags: &mut Tags, layout: &Layout, foot: u32) -> Result<(), AllocError>
    ensures { OnOk result (Keeps tags.old tags.new) }
{
    for number in 0..16 {
        if let Some(level) = Level::new(number) {
            if layout.has(level) {
                put_level(tags, layout, foot, level)?;
            }
        }
    }
    Ok(())
}

/// Adds the foot of a lane, and the processor's name.
fn put_foot(tags: &mut Tags, layout: &Layout, foot: u32, cpu: CpuNo) -> Result<(), AllocError>
    ensures { OnOk result (Keeps tags.old tags.new) }
{
    begin_text(tags, 12, foot.saturating_sub(6))?;
    tags.number(Key::FontSize, 16)?;
    tags.word(Key::FontWeight, b"bold")?;
    tags.word(Key::Fill, INK)?;
    tags.text(&[Piece::Text(b"p"), Piece::Number(u32::from(cpu.0))])?;
    close_line(tags)?;
    begin_group(tags, INK)?;
    tags.word(Key::Stroke, b"#444444")?;
    put_line(tags, LEFT, foot, layout.x(layout.columns), foot)?;
    close_line(tags)
}

/// Adds the lanes, with nothing in them.
fn put_lanes(tags: &mut Tags, layout: &Layout, shown: &[CpuNo]) -> Result<(), AllocError>
    ensures { OnOk result (Keeps tags.old tags.new) }
{
    let mut lane: u32 = 0;
    for cpu in shown {
        let foot = layout.foot(lane);
        put_levels(tags, layout, foot)?;
        put_foot(tags, layout, foot, *cpu)?;
        lane = lane.saturating_add(1);
    }
    Ok(())
}

/// Adds what a pointer shows of a box.
fn put_hint(tags: &mut Tags, block: &Block, from: u32) -> Result<(), AllocError>
    ensures { OnOk result (Keeps tags.old tags.new) }
{
    let first = block.from.saturating_add(from);
    let last = block.to.saturating_add(from).saturating_sub(1);
    tags.open(Tag::Title)?;
    tags.text(&[
        Piece::Text(kind_word(block.kind)),
        Piece::Text(b" "),
        Piece::Text(block.name),
        Piece::Text(b": frame "),
        Piece::Number(block.number),
        Piece::Text(b", events "),
        Piece::Number(first),
        Piece::Text(b" to "),
        Piece::Number(last),
        Piece::Text(b", "),
        Piece::Text(block.level.name().as_bytes()),
        Piece::Text(b" "),
        Piece::Number(u32::from(block.level.number())),
    ])?;
    tags.close()
}

/// Adds a box, filled so.
fn put_filled(
    tags: &mut Tags,
    layout: &Layout,
    block: &Block,
    from: u32,
    fill: &[u8],
) -> Result<(), AllocError>
    ensures { OnOk result (Keeps tags.old tags.new) }
{
    let height = layout.height(block.level, block.depth);
    let inset = block.depth.saturating_add(1);
    let x = layout.x(block.from).saturating_add(inset);
    let end = layout.x(block.to).saturating_sub(inset);
    let y = layout.foot(block.lane).saturating_sub(height);
    begin_rect(tags, x, y, end.saturating_sub(x), height)?;
    tags.number(Key::RoundedBy, 2)?;
    tags.word(Key::Fill, fill)?;
    put_hint(tags, block, from)?;
    close_line(tags)
}

/// Adds a box, hatched where its frame spins.
fn put_block(tags: &mut Tags, layout: &Layout, block: &Block, from: u32) -> Result<(), AllocError>
    ensures { OnOk result (Keeps tags.old tags.new) }
{
    put_filled(tags, layout, block, from, fill_of(block.kind))?;
    if block.spins {
        return put_filled(tags, layout, block, from, b"url(#spins)");
    }
    Ok(())
}

fn put_each_block(
    tags: &mut Tags,
    layout: &Layout,
    blocks: &[Block],
    from: u32,
) -> Result<(), AllocError>
    ensures { OnOk result (Keeps tags.old tags.new) }
{
    for block in blocks {
        if block.from < block.to {
            put_block(tags, layout, block, from)?;
        }
    }
    Ok(())
}

/// Adds the boxes, those that are inside others in front of them.
fn put_blocks(
    tags: &mut Tags,
    layout: &Layout,
    blocks: &[Block],
    from: u32,
) -> Result<(), AllocError>
    ensures { OnOk result (Keeps tags.old tags.new) }
{
    begin_group(tags, b"none")?;
    tags.word(Key::Stroke, b"#777777")?;
    put_each_block(tags, layout, blocks, from)?;
    close_line(tags)
}

/// How many characters of a name have room in so many columns.
fn room_for(columns: u32) -> usize {
    let pixels = columns.saturating_mul(COLUMN).saturating_sub(3);
    (pixels / 6) as usize
}

/// As much of a name as has room, and what says that it is cut.
fn cut_name(name: &[u8], room: usize) -> (&[u8], &'static [u8]) {
    match name.get(..room.saturating_sub(1)) {
        Some(part) if room < name.len() => (part, b"~"),
        _ => (name, b""),
    }
}

/// Adds the name of a box, as much as has room before a box in front of it.
fn put_name(tags: &mut Tags, layout: &Layout, block: &Block) -> Result<(), AllocError>
    ensures { OnOk result (Keeps tags.old tags.new) }
{
    let height = layout.height(block.level, block.depth);
    let x = layout
        .x(block.from)
        .saturating_add(block.depth)
        .saturating_add(5);
    let y = layout
        .foot(block.lane)
        .saturating_sub(height)
        .saturating_add(11);
    let room = room_for(block.clear_to.saturating_sub(block.from));
    let (name, cut) = cut_name(block.name, room);
    put_words(tags, x, y, &[Piece::Text(name), Piece::Text(cut)])
}

fn put_each_name(tags: &mut Tags, layout: &Layout, blocks: &[Block]) -> Result<(), AllocError>
    ensures { OnOk result (Keeps tags.old tags.new) }
{
    for block in blocks {
        if block.from < block.clear_to {
            put_name(tags, layout, block)?;
        }
    }
    Ok(())
}

/// Adds the names of boxes.
fn put_names(tags: &mut Tags, layout: &Layout, blocks: &[Block]) -> Result<(), AllocError>
    ensures { OnOk result (Keeps tags.old tags.new) }
{
    begin_group(tags, INK)?;
    tags.number(Key::FontSize, 9)?;
    tags.word(Key::FontWeight, b"bold")?;
    put_each_name(tags, layout, blocks)?;
    close_line(tags)
}

/// Adds an arc from one point to another by way of two heights.
fn put_curve(
    tags: &mut Tags,
    from: (u32, u32),
    to: (u32, u32),
    by: (u32, u32),
) -> Result<(), AllocError>
    ensures { OnOk result (Keeps tags.old tags.new) }
{
    put_path(
        tags,
        &[
            Piece::Text(b"M"),
            Piece::Number(from.0),
            Piece::Text(b" "),
            Piece::Number(from.1),
            Piece::Text(b" C"),
            Piece::Number(from.0),
            Piece::Text(b" "),
            Piece::Number(by.0),
            Piece::Text(b" "),
            Piece::Number(to.0),
            Piece::Text(b" "),
            Piece::Number(by.1),
            Piece::Text(b" "),
            Piece::Number(to.0),
            Piece::Text(b" "),
            Piece::Number(to.1),
        ],
    )
}

/// The two heights by which an arc goes: below its lane, or from one lane to the other.
fn heights_of(arc: &Arc, from: u32, to: u32) -> (u32, u32) {
    if arc.from_lane == arc.to_lane {
        let distance = arc.to.saturating_sub(arc.from.unwrap_or(0));
        let sag = distance.saturating_mul(2).saturating_add(8).min(26);
        (from.saturating_add(sag), to.saturating_add(sag))
    } else {
        let middle = from / 2 + to / 2;
        (middle, middle)
    }
}

/// Adds an arc, with a dot where it ends.
fn put_arc(tags: &mut Tags, layout: &Layout, arc: &Arc) -> Result<(), AllocError>
    ensures { OnOk result (Keeps tags.old tags.new) }
{
    let start = match arc.from {
        Some(column) => layout.middle(column),
        None => LEFT - 4,
    };
    let from = (start, layout.foot(arc.from_lane).saturating_add(2));
    let to = (
        layout.middle(arc.to),
        layout.foot(arc.to_lane).saturating_add(2),
    );
    put_curve(tags, from, to, heights_of(arc, from.1, to.1))
}

fn put_each_arc(tags: &mut Tags, layout: &Layout, arcs: &[Arc]) -> Result<(), AllocError>
    ensures { OnOk result (Keeps tags.old tags.new) }
{
    for arc in arcs {
        put_arc(tags, layout, arc)?;
    }
    Ok(())
}

fn put_each_dot(tags: &mut Tags, layout: &Layout, arcs: &[Arc]) -> Result<(), AllocError>
    ensures { OnOk result (Keeps tags.old tags.new) }
{
    for arc in arcs {
        let foot = layout.foot(arc.to_lane).saturating_add(2);
        put_disc(tags, layout.middle(arc.to), foot, 3)?;
    }
    Ok(())
}

/// Adds the dashed arcs, each with a dot where it ends.
fn put_arcs(tags: &mut Tags, layout: &Layout, arcs: &[Arc]) -> Result<(), AllocError>
    ensures { OnOk result (Keeps tags.old tags.new) }
{
    begin_group(tags, b"none")?;
    tags.word(Key::Stroke, ARC)?;
    tags.word(Key::Dashes, b"4 2")?;
    put_each_arc(tags, layout, arcs)?;
    close_line(tags)?;
    begin_group(tags, ARC)?;
    put_each_dot(tags, layout, arcs)?;
    close_line(tags)
}

/// Adds the dotted line from an event's text to the foot of its lane.
fn put_guide(tags: &mut Tags, layout: &Layout, label: &Label) -> Result<(), AllocError>
    ensures { OnOk result (Keeps tags.old tags.new) }
{
    let (x, foot) = (layout.middle(label.column), layout.foot(label.lane));
    put_line(tags, x, foot.saturating_sub(layout.inner()), x, foot)
}

fn put_each_guide(tags: &mut Tags, layout: &Layout, labels: &[Label]) -> Result<(), AllocError>
    ensures { OnOk result (Keeps tags.old tags.new) }
{
    for label in labels {
        put_guide(tags, layout, label)?;
    }
    Ok(())
}

/// Adds the dotted lines.
fn put_guides(tags: &mut Tags, layout: &Layout, labels: &[Label]) -> Result<(), AllocError>
    ensures { OnOk result (Keeps tags.old tags.new) }
{
    begin_group(tags, b"none")?;
    tags.word(Key::Stroke, b"#bbbbbb")?;
    tags.word(Key::Dashes, b"1 3")?;
    put_each_guide(tags, layout, labels)?;
    close_line(tags)
}

/// Adds the slanted text of an event above its lane.
fn put_slanted(tags: &mut Tags, layout: &Layout, label: &Label) -> Result<(), AllocError>
    ensures { OnOk result (Keeps tags.old tags.new) }
{
    let x = layout.middle(label.column).saturating_add(3);
    let y = layout
        .foot(label.lane)
        .saturating_sub(layout.inner())
        .saturating_sub(4);
    begin_text(tags, x, y)?;
    tags.attribute(
        Key::Transform,
        &[
            Piece::Text(b"rotate(-62 "),
            Piece::Number(x),
            Piece::Text(b" "),
            Piece::Number(y),
            Piece::Text(b")"),
        ],
    )?;
    tags.word(Key::Fill, ink_of(label.tone))?;
    if label.tone == Tone::Look {
        tags.text(&[Piece::Text(b"look "), Piece::Text(label.words)])?;
    } else {
        tags.text(&[Piece::Text(label.words)])?;
    }
    close_line(tags)
}

/// Adds the blue triangle of a look.
fn put_triangle(tags: &mut Tags, layout: &Layout, label: &Label) -> Result<(), AllocError>
    ensures { OnOk result (Keeps tags.old tags.new) }
{
    let (x, foot) = (layout.middle(label.column), layout.foot(label.lane));
    begin_group(tags, LOOK)?;
    put_path(
        tags,
        &[
            Piece::Text(b"M"),
            Piece::Number(x.saturating_sub(5)),
            Piece::Text(b" "),
            Piece::Number(foot),
            Piece::Text(b" l5 -10 l5 10 z"),
        ],
    )?;
    close_line(tags)
}

/// Adds the text of an event, and its number below the lane.
fn put_label(tags: &mut Tags, layout: &Layout, label: &Label) -> Result<(), AllocError>
    ensures { OnOk result (Keeps tags.old tags.new) }
{
    put_slanted(tags, layout, label)?;
    if label.tone == Tone::Look {
        put_triangle(tags, layout, label)?;
    }
    begin_text(
        tags,
        layout.middle(label.column),
        layout.foot(label.lane).saturating_add(34),
    )?;
    tags.word(Key::TextAnchor, b"middle")?;
    tags.number(Key::FontSize, 9)?;
    tags.text(&[Piece::Number(label.number)])?;
    close_line(tags)
}

fn put_each_label(tags: &mut Tags, layout: &Layout, labels: &[Label]) -> Result<(), AllocError>
    ensures { OnOk result (Keeps tags.old tags.new) }
{
    for label in labels {
        put_label(tags, layout, label)?;
    }
    Ok(())
}

/// Adds the texts of events.
fn put_labels(tags: &mut Tags, layout: &Layout, labels: &[Label]) -> Result<(), AllocError>
    ensures { OnOk result (Keeps tags.old tags.new) }
{
    begin_group(tags, b"#555555")?;
    put_each_label(tags, layout, labels)?;
    close_line(tags)
}

fn put_each_left(tags: &mut Tags, layout: &Layout, left: &[&[u8]]) -> Result<(), AllocError>
    ensures { OnOk result (Keeps tags.old tags.new) }
{
    let mut number: u32 = 0;
    for words in left {
        put_words(tags, LEFT, layout.line(number), &[Piece::Text(words)])?;
        number = number.saturating_add(1);
    }
    Ok(())
}

/// Adds what is left at the end of the run.
fn put_left(tags: &mut Tags, layout: &Layout, left: &[&[u8]]) -> Result<(), AllocError>
    ensures { OnOk result (Keeps tags.old tags.new) }
{
    begin_group(tags, REFUSED)?;
    tags.number(Key::FontSize, 12)?;
    put_each_left(tags, layout, left)?;
    close_line(tags)
}

/// Adds an entry of the legend: a small box filled so, and what it stands for.
fn put_entry(tags: &mut Tags, x: u32, y: u32, fill: &[u8], words: &[u8]) -> Result<(), AllocError>
    ensures { OnOk result (Keeps tags.old tags.new) }
{
    begin_rect(tags, x, y.saturating_sub(10), 14, 12)?;
    tags.word(Key::Fill, fill)?;
    tags.word(Key::Stroke, b"#777777")?;
    close_line(tags)?;
    put_words(tags, x.saturating_add(20), y, &[Piece::Text(words)])
}

/// Adds the entries of frames.
fn put_kinds(tags: &mut Tags, y: u32) -> Result<(), AllocError>
    ensures { OnOk result (Keeps tags.old tags.new) }
{
    put_entry(tags, LEFT, y, fill_of(Kind::Thread), b"thread")?;
    put_entry(tags, 200, y, fill_of(Kind::Interrupt), b"interrupt")?;
    put_entry(tags, 286, y, fill_of(Kind::Dpc), b"DPC")?;
    put_entry(tags, 348, y, fill_of(Kind::ThreadedDpc), b"threaded DPC")?;
    put_entry(tags, 454, y, fill_of(Kind::Apc), b"APC")?;
    put_entry(tags, 516, y, b"url(#spins)", b"spins")
}

/// Adds the entries of looks and arcs.
fn put_signs(tags: &mut Tags, y: u32) -> Result<(), AllocError>
    ensures { OnOk result (Keeps tags.old tags.new) }
{
    begin_group(tags, LOOK)?;
    put_path(
        tags,
        &[
            Piece::Text(b"M584 "),
            Piece::Number(y),
            Piece::Text(b" l5 -10 l5 10 z"),
        ],
    )?;
    close_line(tags)?;
    put_words(tags, 602, y, &[Piece::Text(b"look (class=value)")])?;
    begin_group(tags, b"none")?;
    tags.word(Key::Stroke, ARC)?;
    tags.word(Key::Dashes, b"4 2")?;
    put_line(tags, 712, y.saturating_sub(4), 740, y.saturating_sub(4))?;
    close_line(tags)?;
    put_words(
        tags,
        748,
        y,
        &[Piece::Text(b"from insert, ask or setting to its use")],
    )
}

/// Adds the legend.
fn put_legend(tags: &mut Tags, layout: &Layout) -> Result<(), AllocError>
    ensures { OnOk result (Keeps tags.old tags.new) }
{
    begin_group(tags, INK)?;
    put_kinds(tags, layout.legend())?;
    put_signs(tags, layout.legend())?;
    close_line(tags)
}

/// Adds what stands in the lanes.
fn put_scene(tags: &mut Tags, layout: &Layout, scene: &Scene, from: u32) -> Result<(), AllocError>
    ensures { OnOk result (Keeps tags.old tags.new) }
{
    put_guides(tags, layout, scene.labels.as_slice())?;
    put_blocks(tags, layout, scene.blocks.as_slice(), from)?;
    put_names(tags, layout, scene.blocks.as_slice())?;
    put_arcs(tags, layout, scene.arcs.as_slice())?;
    put_labels(tags, layout, scene.labels.as_slice())
}

/// Adds all of the picture.
fn put_picture(
    tags: &mut Tags,
    layout: &Layout,
    run: &Run,
    scene: &Scene,
    left: &[&[u8]],
) -> Result<(), AllocError>
    requires { tags.old.begun ≡ true }
    ensures { OnOk result (Keeps tags.old tags.new) }
{
    put_head(tags, layout)?;
    put_pattern(tags)?;
    put_title(tags, run, scene.columns)?;
    put_lanes(tags, layout, run.shown)?;
    put_scene(tags, layout, scene, run.span.from)?;
    put_left(tags, layout, left)?;
    put_legend(tags, layout)
}

/// The picture of a scene, with these lines below it.
pub(crate) fn picture_of(
    alloc: Global,
    run: &Run,
    scene: &Scene,
    left: &[&[u8]],
) -> Result<Vec<u8>, AllocError>
    ensures { IfOk result (λ out. IsDocument out.items) }
{
    let layout = Layout::of(scene, run.shown.len(), left.len());
    let mut tags = Tags::new(alloc)?;
    put_picture(&mut tags, &layout, run, scene, left)?;
    tags.finish()
}
