//! The fields of a line that is written by hand.
ghost use Rattle.std.specs.Prelude.{◌≡◌, ◌<◌, ◌∷◌, [], IfNone, IfSome, drop, filter, length};
ghost use Rattle.std.specs.Prelude.{option_map, slice_get};
ghost use Rattle.std.specs.List.{position};
ghost use Rattle.std.specs.Option.{option_map_or};
ghost use Rattle.nt_text.specs.Lines.{is_byte};
ghost use Rattle.nt_friendly.specs.Fields.{begun, blank_parts, content, field_place};
ghost use Rattle.nt_friendly.specs.Fields.{is_blank, is_filled, uncommented};

use std::marker::Model;

/// Whether a byte is blank space within a line: a blank, a tab or a CR.
fn is_blank(byte: u8) -> bool
    ensures { result ≡ is_blank byte }
{
    byte == b' ' || byte == b'\t' || byte == b'\r'
}

/// Where a comment begins.
fn comment_place(line: &[u8]) -> Option<usize>
    ensures { result ≡ position (is_byte 35) line.now }
{
    line.iter().position(|b| *b == b'#')
}

/// A line up to its comment.
fn uncommented(line: &[u8]) -> &[u8]
    ensures { result.now ≡ uncommented line.now }
{
    match comment_place(line) {
        Some(end) => &line[..end],
        None => line,
    }
}

/// What stands behind one blank space or one byte order mark, where the bytes begin so.
fn behind_space(bytes: &[u8]) -> Option<&[u8]>
    ensures some { IfSome result (λ rest.
        (begun 0 bytes.now ≡ begun 0 rest.now) × (length rest.now < length bytes.now)) }
    ensures none { IfNone result (begun 0 bytes.now ≡ bytes.now) }
{
    match bytes {
        [first, more @ ..] if is_blank(*first) => Some(more),
        [0xef, 0xbb, 0xbf, more @ ..] => Some(more),
        _ => None,
    }
}

/// What stands behind the blank space and the byte order marks at the beginning.
fn begun(bytes: &[u8]) -> &[u8]
    ensures { result.now ≡ begun 0 bytes.now }
{
    let mut rest = bytes;
    while let Some(more) = behind_space(rest) {
        rest = more;
    }
    rest
}

/// What is read of a line.
fn content(line: &[u8]) -> &[u8]
    ensures { result.now ≡ content line.now }
{
    begun(uncommented(line))
}

/// Where the first blank space stands.
fn blank_place(bytes: &[u8]) -> Option<usize>
    ensures { result ≡ position is_blank bytes.now }
{
    bytes.iter().position(|b| is_blank(*b))
}

/// The part before the first blank space, and what comes behind that, where there is one.
fn cut(bytes: &[u8]) -> (&[u8], Option<&[u8]>)
    ensures { blank_parts bytes.now
        ≡ result.0.now ∷ option_map_or (λ r. blank_parts r.now) result.1 [] }
{
    match blank_place(bytes) {
        Some(end) => (&bytes[..end], Some(&bytes[end + 1..])),
        None => (bytes, None),
    }
}

/// The first part that is not empty, and what comes behind it.
fn first_filled(bytes: Option<&[u8]>) -> (Option<&[u8]>, Option<&[u8]>)
    ensures field { option_map (λ f. f.now) result.0
        ≡ slice_get (filter is_filled (option_map_or (λ r. blank_parts r.now) bytes.entry [])) 0 }
    ensures rest { filter is_filled (option_map_or (λ r. blank_parts r.now) result.1 [])
        ≡ drop 1 (filter is_filled (option_map_or (λ r. blank_parts r.now) bytes.entry [])) }
{
    let mut left = bytes;
    while let Some(text) = left {
        let (part, behind) = cut(text);
        left = behind;
        if !part.is_empty() {
            return (Some(part), left);
        }
    }
    (None, None)
}

/// The fields of a line that are left, in order. Contracts see the list of them.
#[derive(Drop)]
pub(crate) struct Fields<'a> {
    rest: Option<&'a [u8]>,
}

impl<'a> Model for Fields<'a> {
    ghost use Rattle.std.specs.Prelude.{List, ℕ, [], filter};
    ghost use Rattle.std.specs.Option.{option_map_or};
    ghost use Rattle.nt_friendly.specs.Fields.{blank_parts, is_filled};

    ghost Value = { List (List ℕ) };

    ghost view = { λ a. filter is_filled (option_map_or (λ r. blank_parts r.now) a.rest []) };
}

impl<'a> Fields<'a> {
    ghost use Rattle.nt_text.specs.Lines.{first};
    ghost use Rattle.nt_friendly.specs.Fields.{friendly_fields};

    /// All fields of a line.
    pub(crate) fn new(line: &'a [u8]) -> Fields<'a>
        ensures { result ≡ friendly_fields line.now }
    {
        Fields {
            rest: Some(content(line)),
        }
    }

    /// Takes the next field that is left. None exactly where none is.
    pub(crate) fn next(&mut self) -> Option<&'a [u8]>
        ensures field { option_map (λ f. f.now) result ≡ slice_get self.old 0 }
        ensures rest { self.new ≡ drop 1 self.old }
    {
        let (field, rest) = first_filled(self.rest);
        self.rest = rest;
        field
    }

    /// The next field that is left, which is not taken; an empty one where none is left.
    pub(crate) fn peek(&self) -> &'a [u8]
        ensures { result.now ≡ first self.now }
    {
        match first_filled(self.rest).0 {
            Some(field) => field,
            None => &[],
        }
    }
}

/// Where a field stands in a friendly line: the column of its first byte, counted in bytes from 1,
/// and how many bytes it has. None exactly where the line has no field of this index.
///
/// The fields of a friendly line are counted from 0. `DIRQL` and the number behind it are two.
pub fn field_place(line: &[u8], index: usize) -> Option<(usize, usize)>
    ensures { result ≡ field_place line.now index }
{
    let read = uncommented(line);
    let begun = begun(read);
    let mut column = read.len() - begun.len() + 1;
    let mut left = index;
    let mut rest = Some(begun);
    while let Some(text) = rest {
        let (part, behind) = cut(text);
        rest = behind;
        if !part.is_empty() {
            if left == 0 {
                return Some((column, part.len()));
            }
            left -= 1;
        }
        column += part.len() + 1;
    }
    None
}
