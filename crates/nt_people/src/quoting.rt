//! Wording, and a line with a mark below it.
ghost use Rattle.std.specs.Prelude.{◌≡◌, ◌≤◌, ◌∷◌, ◌++◌, ◌-◌, [], IfOk, OnOk, chars, decimal, drop};
ghost use Rattle.std.specs.Prelude.{encode_utf8_all, false, length, map, nat_le, not, replicate};
ghost use Rattle.std.specs.Prelude.{string_bytes, take, true};
ghost use Rattle.std.specs.Str.{is_utf8};
ghost use Rattle.nt_people.specs.Messages.{blanks_before, is_unseen, left_out, mark_line, marks_of};
ghost use Rattle.nt_people.specs.Messages.{plain, plain_byte, points_if, quoted, quoted_line};
ghost use Rattle.nt_people.specs.Messages.{shown, shown_byte, shown_char, shown_from};
ghost use Rattle.nt_people.specs.Messages.{shown_part, shown_text};

use crate::places::Mark;
use nt_text::put_digits;
use std::alloc::{AllocError, Global};

/// What stands between the number of a line and the line.
const BAR: &[u8] = b" | ";

/// How many characters of a line are shown.
const MOST_SHOWN: usize = 200;

/// A byte of wording: names alone stand in `.
fn plain_byte(byte: u8) -> u8
    ensures { result ≡ plain_byte byte }
{
    if byte == b'`' { b'\'' } else { byte }
}

/// Adds wording.
pub(crate) fn put_plain(out: &mut Vec<u8>, wording: &str) -> Result<(), AllocError>
    ensures { OnOk result (out.new.items ≡ out.old.items ++ plain wording.now) }
{
    for byte in wording.as_bytes() {
        out.push(plain_byte(*byte))?;
    }
    Ok(())
}

/// Adds a byte so many times.
fn put_times(out: &mut Vec<u8>, byte: u8, times: usize) -> Result<(), AllocError>
    ensures { OnOk result (out.new.items ≡ out.old.items ++ replicate times byte) }
{
    for _ in 0..times {
        out.push(byte)?;
    }
    Ok(())
}

/// Whether a blank stands for a character: a control character, one that turns the direction of
/// writing, one that separates or marks lines, or one of some that have no width.
fn is_unseen(sign: char) -> bool
    ensures { result ≡ is_unseen sign }
{
    matches!(
        sign,
        '\0'..='\u{1f}'
            | '\u{7f}'..='\u{9f}'
            | '\u{61c}'
            | '\u{200b}'..='\u{200f}'
            | '\u{2028}'..='\u{202e}'
            | '\u{2060}'..='\u{206f}'
            | '\u{feff}'
            | '\u{fff9}'..='\u{fffb}'
    )
}

/// A character as it is shown.
fn shown_char(sign: char) -> char
    ensures { result ≡ shown_char sign }
{
    if is_unseen(sign) { ' ' } else { sign }
}

/// Adds a character as it is shown.
fn push_shown(shown: &mut String, sign: char) -> Result<(), AllocError>
    ensures { OnOk result (string_bytes shown.new
        ≡ string_bytes shown.old ++ encode_utf8_all (map shown_char (sign ∷ []))) }
{
    shown.push(shown_char(sign))
}

/// A text as it is shown on a terminal: a blank stands for each character that a terminal obeys,
/// and for some that have no width.
pub fn shown_text(alloc: Global, text: &str) -> Result<String, AllocError>
    ensures { IfOk result (λ shown. string_bytes shown ≡ shown_text text.now) }
{
    let mut shown = String::new(alloc);
    for sign in text.chars() {
        push_shown(&mut shown, sign)?;
    }
    Ok(shown)
}

/// What is shown of a text behind so many characters.
fn shown_part(alloc: Global, text: &str, from: usize) -> Result<String, AllocError>
    ensures { IfOk result (λ shown. string_bytes shown ≡ shown_part true from text.now) }
{
    let mut shown = String::new(alloc);
    for sign in text.chars().skip(from).take(MOST_SHOWN) {
        push_shown(&mut shown, sign)?;
    }
    Ok(shown)
}

/// Adds two points where something is not shown.
fn put_points_if(out: &mut Vec<u8>, is_cut: bool) -> Result<(), AllocError>
    ensures { OnOk result (out.new.items ≡ out.old.items ++ points_if is_cut) }
{
    if is_cut {
        out.extend_from_slice(b"..")?;
    }
    Ok(())
}

/// Whether something behind so many characters is not shown.
fn is_cut(count: usize, from: usize) -> bool
    ensures { result ≡ not (nat_le (count - from) MOST_SHOWN) }
{
    MOST_SHOWN < count.saturating_sub(from)
}

/// How many characters a text has.
fn char_count(text: &str) -> usize
    ensures { result ≡ length (chars text.now) }
{
    text.chars().count()
}

/// Adds what is shown of a text behind so many characters.
#[tactic(auto, unfolding(crate::specs::Messages::shown_from))]
fn put_text(out: &mut Vec<u8>, text: &str, from: usize) -> Result<(), AllocError>
    ensures { OnOk result (out.new.items ≡ out.old.items ++ shown_from true from text.now) }
{
    let shown = shown_part(*out.allocator(), text, from)?;
    out.extend_from_slice(shown.as_bytes())?;
    put_points_if(out, is_cut(char_count(text), from))
}

/// A byte of what is no text as it is shown.
fn shown_byte(byte: u8) -> u8
    ensures { result ≡ shown_byte byte }
{
    if byte <= 31 || byte == 127 {
        return b' ';
    }
    if 128 <= byte { b'?' } else { byte }
}

/// The bytes behind so many.
fn behind(bytes: &[u8], from: usize) -> &[u8]
    ensures { result.now ≡ drop from bytes.now }
{
    match bytes.get(from..) {
        Some(rest) => rest,
        None => &[],
    }
}

/// The first bytes, at most so many.
fn front(bytes: &[u8], most: usize) -> &[u8]
    ensures { result.now ≡ take most bytes.now }
{
    if bytes.len() <= most {
        bytes
    } else {
        &bytes[..most]
    }
}

/// Adds bytes that are no text as they are shown.
fn put_each(out: &mut Vec<u8>, bytes: &[u8]) -> Result<(), AllocError>
    ensures { OnOk result (out.new.items ≡ out.old.items ++ map shown_byte bytes.now) }
{
    for byte in bytes {
        out.push(shown_byte(*byte))?;
    }
    Ok(())
}

/// Adds what is shown of bytes that are no text behind so many.
#[tactic(auto, unfolding(crate::specs::Messages::shown_from))]
fn put_bytes(out: &mut Vec<u8>, bytes: &[u8], from: usize) -> Result<(), AllocError>
    ensures { OnOk result (out.new.items ≡ out.old.items ++ shown_from false from bytes.now) }
{
    put_each(out, front(behind(bytes, from), MOST_SHOWN))?;
    put_points_if(out, is_cut(bytes.len(), from))
}

/// How many characters in front are not shown, where this column is marked.
fn left_out(column: usize) -> usize
    ensures value { result ≡ left_out column }
    ensures less { result ≤ column }
{
    if column <= 150 { 0 } else { column - 101 }
}

/// Adds what is shown of a line behind so many characters.
fn put_part(out: &mut Vec<u8>, line: &[u8], from: usize) -> Result<(), AllocError>
    ensures { OnOk result
        (out.new.items ≡ out.old.items ++ shown_from (is_utf8 line.now) from line.now) }
{
    match str::from_utf8(line) {
        Ok(text) => put_text(out, text, from),
        Err(_) => put_bytes(out, line, from),
    }
}

/// Adds a line as it is shown, where this column is marked.
fn put_shown(out: &mut Vec<u8>, line: &[u8], column: usize) -> Result<(), AllocError>
    ensures { OnOk result
        (out.new.items ≡ out.old.items ++ shown (is_utf8 line.now) column line.now) }
{
    let from = left_out(column);
    put_points_if(out, from != 0)?;
    put_part(out, line, from)
}

/// The digits of a number.
pub(crate) fn digits(alloc: Global, number: u32) -> Result<Vec<u8>, AllocError>
    ensures { IfOk result (λ digits. digits.items ≡ decimal number) }
{
    let mut digits = Vec::new(alloc);
    put_digits(&mut digits, number as u64)?;
    Ok(digits)
}

/// Adds the digits of a line's number and the line, where this column is marked.
fn put_line(out: &mut Vec<u8>, digits: &[u8], line: &[u8], column: usize) -> Result<(), AllocError>
    ensures { OnOk result
        (out.new.items ≡ out.old.items ++ quoted_line digits.now line.now column) }
{
    put_times(out, b' ', 5_usize.saturating_sub(digits.len()))?;
    out.extend_from_slice(digits)?;
    out.extend_from_slice(BAR)?;
    put_shown(out, line, column)?;
    out.push(b'\n')?;
    Ok(())
}

/// How many blanks stand in front of a mark, as many as what is shown before it.
fn blanks_before(column: usize) -> usize
    ensures { result ≡ blanks_before column }
{
    let from = left_out(column);
    if from == 0 {
        column.saturating_sub(1)
    } else {
        column - from + 1
    }
}

/// How many columns are marked of so many, up to the end of what is shown.
fn marks_of(column: usize, length: usize) -> usize
    ensures { result ≡ marks_of column length }
{
    length.min((MOST_SHOWN + 1).saturating_sub(column - left_out(column)))
}

/// Adds a mark below a line whose number has these digits.
fn put_mark(out: &mut Vec<u8>, digits: &[u8], mark: &Mark) -> Result<(), AllocError>
    ensures { OnOk result (out.new.items ≡ out.old.items
        ++ mark_line digits.now mark.now.column mark.now.length) }
{
    put_times(out, b' ', 5_usize.max(digits.len()))?;
    out.extend_from_slice(BAR)?;
    put_times(out, b' ', blanks_before(mark.column))?;
    put_times(out, b'^', marks_of(mark.column, mark.length))?;
    out.push(b'\n')?;
    Ok(())
}

/// Adds a line behind the digits of its number, and below it a mark.
#[tactic(auto, unfolding(crate::specs::Messages::quoted))]
pub(crate) fn put_quoted(
    out: &mut Vec<u8>,
    digits: &[u8],
    line: &[u8],
    mark: &Mark,
) -> Result<(), AllocError>
    ensures { OnOk result (out.new.items ≡ out.old.items
        ++ quoted digits.now line.now mark.now.column mark.now.length) }
{
    put_line(out, digits, line, mark.column)?;
    put_mark(out, digits, mark)
}
