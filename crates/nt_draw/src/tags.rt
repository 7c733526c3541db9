//! A writer of tags, which closes what it opens and escapes what it writes.
ghost use Rattle.std.specs.Prelude.{◌≡◌, ◌++◌, ◌∷◌, [], OnOk};
ghost use Rattle.nt_draw.specs.Tags.{tag_name, key_name, escaped, escaped_byte, piece_text};
ghost use Rattle.nt_draw.specs.Tags.{attribute_text, begin_text, closed_by, pieces_text};

use itoa::Buffer;
use std::alloc::{AllocError, Global};
use std::marker::Model;

/// What an element is.
#[derive(Clone, Copy)]
pub(crate) enum Tag {
    /// The picture.
    Svg,
    /// What a pointer shows of the element around it.
    Title,
    /// What is only referred to.
    Defs,
    /// A pattern that fills a box.
    Pattern,
    /// Elements with attributes in common.
    Group,
    Rect,
    Line,
    Path,
    Circle,
    Text,
}

impl Tag {
    /// Its name.
    pub(crate) fn name(self) -> &'static [u8]
        ensures { result.now ≡ tag_name self }
    {
        match self {
            Tag::Svg => b"svg",
            Tag::Title => b"title",
            Tag::Defs => b"defs",
            Tag::Pattern => b"pattern",
            Tag::Group => b"g",
            Tag::Rect => b"rect",
            Tag::Line => b"line",
            Tag::Path => b"path",
            Tag::Circle => b"circle",
            Tag::Text => b"text",
        }
    }
}

/// What an attribute says of its element.
#[derive(Clone, Copy)]
pub(crate) enum Key {
    CenterX,
    CenterY,
    Course,
    Dashes,
    Fill,
    FontFamily,
    FontSize,
    FontWeight,
    Height,
    Id,
    Opacity,
    PatternTransform,
    PatternUnits,
    Radius,
    RoundedBy,
    Space,
    Stroke,
    StrokeWidth,
    TextAnchor,
    Transform,
    ViewBox,
    Width,
    X,
    X1,
    X2,
    Y,
    Y1,
    Y2,
}

impl Key {
    /// Its name.
    pub(crate) fn name(self) -> &'static [u8]
        ensures { result.now ≡ key_name self }
    {
        match self {
            Key::CenterX => b"cx",
            Key::CenterY => b"cy",
            Key::Course => b"d",
            Key::Dashes => b"stroke-dasharray",
            Key::Fill => b"fill",
            Key::FontFamily => b"font-family",
            Key::FontSize => b"font-size",
            Key::FontWeight => b"font-weight",
            Key::Height => b"height",
            Key::Id => b"id",
            Key::Opacity => b"opacity",
            Key::PatternTransform => b"patternTransform",
            Key::PatternUnits => b"patternUnits",
            Key::Radius => b"r",
            Key::RoundedBy => b"rx",
            Key::Space => b"xmlns",
            Key::Stroke => b"stroke",
            Key::StrokeWidth => b"stroke-width",
            Key::TextAnchor => b"text-anchor",
            Key::Transform => b"transform",
            Key::ViewBox => b"viewBox",
            Key::Width => b"width",
            Key::X => b"x",
            Key::X1 => b"x1",
            Key::X2 => b"x2",
            Key::Y => b"y",
            Key::Y1 => b"y1",
            Key::Y2 => b"y2",
        }
    }
}

/// A piece of a text or of an attribute's value.
#[derive(Clone, Copy)]
pub(crate) enum Piece<'a> {
    /// These bytes.
    Text(&'a [u8]),
    /// A number in decimal digits.
    Number(u32),
}

/// Adds a byte as a text may have it: the five bytes that mean something in a tag by their names, a
/// line end and other printable bytes as they are, and a question mark for each other byte.
fn put_escaped_byte(out: &mut Vec<u8>, byte: u8) -> Result<(), AllocError>
    ensures { OnOk result (out.new.items ≡ out.old.items ++ escaped_byte byte) }
{
    match byte {
        b'&' => out.extend_from_slice(b"&amp;"),
        b'<' => out.extend_from_slice(b"&lt;"),
        b'>' => out.extend_from_slice(b"&gt;"),
        b'"' => out.extend_from_slice(b"&quot;"),
        b'\'' => out.extend_from_slice(b"&apos;"),
        b'\n' | b' '..=b'~' => out.extend_from_slice(&[byte]),
        _ => out.extend_from_slice(b"?"),
    }
}

/// Adds bytes as a text may have them.
fn put_escaped(out: &mut Vec<u8>, text: &[u8]) -> Result<(), AllocError>
    ensures { OnOk result (out.new.items ≡ out.old.items ++ escaped text.now) }
{
    for byte in text {
        put_escaped_byte(out, *byte)?;
    }
    Ok(())
}

/// Adds a piece, escaped.
fn put_piece(out: &mut Vec<u8>, piece: &Piece) -> Result<(), AllocError>
    ensures { OnOk result (out.new.items ≡ out.old.items ++ escaped (piece_text piece.now)) }
{
    match piece {
        Piece::Text(text) => put_escaped(out, text),
        Piece::Number(n) => {
            let mut buffer = Buffer::new();
            put_escaped(out, buffer.format(*n).as_bytes())
        }
    }
}

/// Adds pieces, escaped.
fn put_pieces(out: &mut Vec<u8>, pieces: &[Piece]) -> Result<(), AllocError>
    ensures { OnOk result (out.new.items ≡ out.old.items ++ escaped (pieces_text pieces.now)) }
{
    for piece in pieces {
        put_piece(out, piece)?;
    }
    Ok(())
}

/// Adds an attribute.
fn put_attribute(out: &mut Vec<u8>, key: Key, value: &[Piece]) -> Result<(), AllocError>
    ensures { OnOk result
        (out.new.items ≡ out.old.items ++ attribute_text key (pieces_text value.now)) }
{
    out.extend_from_slice(b" ")?;
    out.extend_from_slice(key.name())?;
    out.extend_from_slice(b"=\"")?;
    put_pieces(out, value)?;
    out.extend_from_slice(b"\"")
}

/// Adds what begins an element.
fn put_begin(out: &mut Vec<u8>, tag: Tag) -> Result<(), AllocError>
    ensures { OnOk result (out.new.items ≡ out.old.items ++ begin_text tag) }
{
    out.extend_from_slice(b"<")?;
    out.extend_from_slice(tag.name())
}

/// Adds what closes an element, whose start tag is begun or finished.
fn put_closing(out: &mut Vec<u8>, begun: bool, tag: Tag) -> Result<(), AllocError>
    ensures { OnOk result (out.new.items ≡ out.old.items ++ closed_by begun tag) }
{
    if begun {
        return out.extend_from_slice(b"/>");
    }
    out.extend_from_slice(b"</")?;
    out.extend_from_slice(tag.name())?;
    out.extend_from_slice(b">")
}

/// A picture while it is written: the element `svg`, in which further elements are open. Contracts
/// see its text, the elements that are open in it, the innermost first, and whether the last start
/// tag is begun and not finished, so that attributes may follow.
#[derive(Drop)]
pub(crate) struct Tags {
    out: Vec<u8>,
    /// What is written at once: where no memory is found, none of it is.
    part: Vec<u8>,
    /// The elements that are open in the picture, the innermost last.
    opened: Vec<Tag>,
    begun: bool,
}

impl Model for Tags {
    ghost use Rattle.nt_draw.specs.Tags.{Sheet};

    ghost Value = { Sheet };

    ghost use Rattle.std.specs.Prelude.{reverse};
    ghost use Rattle.nt_draw.specs.Tags.{Stands};

    ghost view = { λ a. record {
      text = a.out.items;
      opened = reverse a.opened.items;
      begun = a.begun;
    } };

    ghost invariant = { λ a. Stands a.begun (reverse a.opened.items) a.out.items };
}

impl Tags {
    ghost use Rattle.std.specs.Prelude.{◌≡◌, ◌<◌, ◌++◌, ◌∷◌, [], IfOk, OnErr, OnOk, length};
    ghost use Rattle.std.specs.Prelude.{decimal, false, true};
    ghost use Rattle.nt_draw.specs.Tags.{tail_of};
    ghost use Rattle.nt_draw.specs.declared.tags.Tag.TheVariants.{Svg};
    ghost use Rattle.nt_draw.specs.Tags.{IsDocument, Sheet, attribute_text, begin_text};
    ghost use Rattle.nt_draw.specs.Tags.{closing_text, escaped, finished, pieces_text};

    /// A picture that is begun.
    pub(crate) fn new(alloc: Global) -> Result<Tags, AllocError>
        ensures { IfOk result
            (λ t. t ≡ record { text = begin_text Svg; opened = []; begun = true }) }
    {
        let mut tags = Vec::new(alloc);
        tags.extend_from_slice(b"<svg")?;
        Ok(Tags {
            out: tags,
            part: Vec::new(alloc),
            opened: Vec::new(alloc),
            begun: true,
        })
    }

    /// Finishes the start tag that is begun, if one is.
    fn finish_start(&mut self) -> Result<(), AllocError>
        ensures { OnOk result (self.new ≡ record self.old {
          text = finished self.old;
          begun = false;
        }) }
    {
        if self.begun {
            self.out.extend_from_slice(b">")?;
            self.begun = false;
        }
        Ok(())
    }

    /// Begins an element inside the innermost one that is open. Its attributes come next.
    pub(crate) fn open(&mut self, tag: Tag) -> Result<(), AllocError>
        ensures { OnOk result (self.new ≡ record {
          text = finished self.old ++ begin_text tag;
          opened = tag ∷ self.old.opened;
          begun = true;
        }) }
    {
        self.finish_start()?;
        self.part.clear();
        put_begin(&mut self.part, tag)?;
        self.opened.reserve(1)?;
        self.out.extend_from_slice(self.part.as_slice())?;
        self.opened.push_reserved(tag);
        self.begun = true;
        Ok(())
    }

    /// Adds an attribute to the start tag that is begun.
    pub(crate) fn attribute(&mut self, key: Key, value: &[Piece]) -> Result<(), AllocError>
        requires { self.old.begun ≡ true }
        ensures { OnOk result (self.new ≡ record self.old {
          text = self.old.text ++ attribute_text key (pieces_text value.now);
        }) }
    {
        self.part.clear();
        put_attribute(&mut self.part, key, value)?;
        self.out.extend_from_slice(self.part.as_slice())?;
        Ok(())
    }

    /// Adds an attribute that is a number.
    pub(crate) fn number(&mut self, key: Key, n: u32) -> Result<(), AllocError>
        requires { self.old.begun ≡ true }
        ensures { OnOk result (self.new ≡ record self.old {
          text = self.old.text ++ attribute_text key (decimal n);
        }) }
    {
        self.attribute(key, &[Piece::Number(n)])
    }

    /// Adds an attribute that is one text.
    pub(crate) fn word(&mut self, key: Key, word: &[u8]) -> Result<(), AllocError>
        requires { self.old.begun ≡ true }
        ensures { OnOk result (self.new ≡ record self.old {
          text = self.old.text ++ attribute_text key word.now;
        }) }
    {
        self.attribute(key, &[Piece::Text(word)])
    }

    /// Adds a text inside the innermost element that is open.
    pub(crate) fn text(&mut self, text: &[Piece]) -> Result<(), AllocError>
        ensures { OnOk result (self.new ≡ record self.old {
          text = finished self.old ++ escaped (pieces_text text.now);
          begun = false;
        }) }
    {
        self.finish_start()?;
        self.part.clear();
        put_pieces(&mut self.part, text)?;
        self.out.extend_from_slice(self.part.as_slice())?;
        Ok(())
    }

    /// Closes the innermost element that is open.
    pub(crate) fn close(&mut self) -> Result<(), AllocError>
        requires { 0 < length self.old.opened }
        ensures { OnOk result (self.new ≡ record {
          text = self.old.text ++ closing_text self.old;
          opened = tail_of self.old.opened;
          begun = false;
        }) }
    {
        let last = self.opened.len() - 1;
        let tag = self.opened[last];
        self.part.clear();
        put_closing(&mut self.part, self.begun, tag)?;
        self.out.extend_from_slice(self.part.as_slice())?;
        let _ = self.opened.pop();
        self.begun = false;
        Ok(())
    }

    /// The picture, in which no element is open.
    pub(crate) fn finish(mut self) -> Result<Vec<u8>, AllocError>
        requires { self.opened ≡ [] }
        ensures { IfOk result (λ out. IsDocument out.items) }
    {
        self.finish_start()?;
        self.into_whole()
    }

    /// The picture, in which no element is open and no start tag is begun.
    fn into_whole(self) -> Result<Vec<u8>, AllocError>
        requires { (self.opened ≡ []) × (self.begun ≡ false) }
        ensures { IfOk result (λ out. IsDocument out.items) }
    {
        let Tags { mut out, .. } = self;
        out.extend_from_slice(b"</svg>\n")?;
        Ok(out)
    }
}
