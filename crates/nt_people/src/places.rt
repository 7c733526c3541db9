//! The line of a friendly text that is told, and columns of it.
ghost use Rattle.std.specs.Prelude.{◌≡◌, ◌≤◌, ◌+◌, length, get_or};
ghost use Rattle.std.specs.Str.{is_utf8};
ghost use Rattle.nt_text.specs.Lines.{lines};
ghost use Rattle.nt_text.specs.declared.lines.TheConstants.{INPUT_LIMIT};
ghost use Rattle.nt_friendly.specs.Text.{line_numbered};
ghost use Rattle.nt_people.specs.Messages.{is_behind_first, told_line, width};

use crate::locating::Spot;
use nt_friendly::field_place;
use nt_text::{Fields, INPUT_LIMIT, Lines};

/// How many lines a text has.
fn line_count(bytes: &[u8]) -> u32
    requires { length bytes.now ≤ INPUT_LIMIT }
    ensures { result ≡ length (lines bytes.now) }
{
    let mut lines = Lines::new(bytes);
    let mut count: u32 = 0;
    while let Some(_) = lines.next() {
        count += 1;
    }
    count
}

/// The number of the friendly line from which a line of the strict text comes; that of the line
/// behind the last one where it comes from none.
pub(crate) fn told_line(friendly: &[u8], numbers: &[u32], line: u32) -> u32
    requires { length friendly.now ≤ INPUT_LIMIT }
    ensures { result ≡ told_line friendly.now numbers.now line }
{
    match numbers.get(line.saturating_sub(1) as usize) {
        Some(number) => *number,
        None => line_count(friendly) + 1,
    }
}

/// The bytes of the line with this number, counted from 1; none where there is no such line.
pub(crate) fn line_numbered(bytes: &[u8], number: u32) -> &[u8]
    ensures { result.now ≡ line_numbered bytes.now number }
{
    let mut lines = Lines::new(bytes);
    let mut before = number.saturating_sub(1);
    while let Some(line) = lines.next() {
        if before == 0 {
            return line.bytes;
        }
        before -= 1;
    }
    &[]
}

/// Whether bytes are a text.
pub(crate) fn is_text(bytes: &[u8]) -> bool
    ensures { result ≡ is_utf8 bytes.now }
{
    match str::from_utf8(bytes) {
        Ok(_) => true,
        Err(_) => false,
    }
}

/// Whether a byte is one of a character of several bytes that is not its first.
fn is_behind_first(byte: u8) -> bool
    ensures { result ≡ is_behind_first byte }
{
    128 <= byte && byte <= 191
}

/// How many columns bytes take.
pub(crate) fn width(is_text: bool, bytes: &[u8]) -> usize
    ensures { result ≡ width is_text bytes.now }
{
    if is_text {
        bytes.iter().filter(|b| !is_behind_first(**b)).count()
    } else {
        bytes.len()
    }
}

/// Bytes of a line, by where they begin and where they end.
#[derive(Clone, Copy)]
struct Span {
    start: usize,
    end: usize,
}

/// How many bytes a line has before its comment and the blank space in front of that.
fn content_end(line: &[u8]) -> usize {
    let end = line.iter().position(|b| *b == b'#').unwrap_or(line.len());
    let read = line.get(..end).unwrap_or(line);
    match read
        .iter()
        .rposition(|b| *b != b' ' && *b != b'\t' && *b != b'\r')
    {
        Some(last) => last.saturating_add(1),
        None => 0,
    }
}

/// Where a field of a friendly line stands.
fn span_of(line: &[u8], index: usize) -> Option<Span> {
    let (column, length) = field_place(line, index)?;
    let start = column.saturating_sub(1);
    Some(Span {
        start,
        end: start.saturating_add(length),
    })
}

/// Whether a field of a friendly line is `DIRQL`.
fn is_dirql(line: &[u8], index: usize) -> bool {
    match span_of(line, index) {
        Some(span) => line.get(span.start..span.end) == Some(b"DIRQL".as_slice()),
        None => false,
    }
}

/// A level stands in none of the fields behind so many.
const MOST_FIELDS: usize = 24;

/// How many fields `DIRQL` of a friendly line the strict line leaves out up to a field of this
/// index.
fn left_out(line: &[u8], strict: &[u8], index: usize) -> usize {
    let mut fields = Fields::new(strict);
    let mut count: usize = 0;
    for i in 0..MOST_FIELDS {
        if index < i {
            return count;
        }
        let field = fields.take();
        if is_dirql(line, i + count) && field != b"DIRQL".as_slice() {
            count += 1;
        }
    }
    count
}

/// Where a spot of a strict line is in the friendly line from which it comes.
fn span_at(line: &[u8], strict: &[u8], spot: Spot) -> Span {
    let end = content_end(line);
    let behind = Span { start: end, end };
    match spot {
        Spot::Field(index) => {
            let shift = left_out(line, strict, index);
            span_of(line, index.saturating_add(shift)).unwrap_or(behind)
        }
        Spot::Behind => behind,
    }
}

/// The columns of a line that are marked.
#[derive(Clone, Copy)]
pub(crate) struct Mark {
    /// The first, counted from 1.
    pub(crate) column: usize,
    /// How many.
    pub(crate) length: usize,
}

/// The columns of a spot in a friendly line.
pub(crate) fn mark_of(line: &[u8], strict: &[u8], spot: Spot) -> Mark
    ensures least { 1 ≤ result.column }
    ensures some { 1 ≤ result.length }
    ensures within { result.column + result.length ≤ width (is_utf8 line.now) line.now + 2 }
{
    let is_text = is_text(line);
    let wide = width(is_text, line);
    let span = span_at(line, strict, spot);
    let before = width(is_text, line.get(..span.start).unwrap_or(line)).min(wide);
    let length = width(is_text, line.get(span.start..span.end).unwrap_or(&[]));
    Mark {
        column: before + 1,
        length: length.min(wide + 1 - before).max(1),
    }
}
