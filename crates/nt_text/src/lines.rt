//! A text as lines, and a line as fields.
ghost use Rattle.std.specs.Prelude.{◌≡◌, ◌≢◌, ◌<◌, ◌≤◌, ◌+◌, ◌++◌, ◌/◌, ◌%◌, ℕ, List, true};
ghost use Rattle.std.specs.Prelude.{decimal, length, drop, option_map, slice_get, Some, None, ◌∷◌};
ghost use Rattle.std.specs.Prelude.{[], IfNone, IfSome, Ok, nat_le, not, ◌&&◌};
ghost use Rattle.std.specs.List.{position, list_all};
ghost use Rattle.std.specs.Option.{option_map_or};
ghost use Rattle.std.specs.Result.{result_map_both};
ghost use Rattle.nt_text.specs.Lines.{is_byte, parts, fields, is_printable, row_of, first, needed};
ghost use Rattle.nt_text.specs.Lines.{rest, lines, is_field};

use crate::field::is_word;
use crate::kind::ScriptKind;
use memchr::memchr;
use std::marker::Model;

/// A text of more bytes than this is not read.
pub const INPUT_LIMIT: usize = 33_554_432;

/// Where the byte stands first.
fn place_of(byte: u8, bytes: &[u8]) -> Option<usize>
    ensures { result ≡ position (is_byte byte) bytes.now }
{
    bytes.iter().position(|b| *b == byte)
}

/// Where the first line ends.
fn line_end(bytes: &[u8]) -> Option<usize>
    ensures { result ≡ position (is_byte 10) bytes.now }
{
    memchr(b'\n', bytes)
}

/// The part before the first such byte, which stands at `place`, and what comes after it, where
/// there is one.
fn cut(byte: u8, bytes: &[u8], place: Option<usize>) -> (&[u8], Option<&[u8]>)
    requires { place ≡ position (is_byte byte) bytes.now }
    ensures parts { parts byte bytes.now
        ≡ result.0.now ∷ option_map_or (λ r. parts byte r.now) result.1 [] }
    ensures whole { IfNone result.1 (result.0.now ≡ bytes.now) }
{
    match place {
        Some(end) => (&bytes[..end], Some(&bytes[end + 1..])),
        None => (bytes, None),
    }
}

/// How many fields a line has: one more than it has spaces.
#[tactic(auto, using(crate::proofs::Cuts::counts))]
fn field_count(line: &[u8]) -> usize
    ensures { result ≡ length (fields line.now) }
{
    line.iter().filter(|b| **b == b' ').count() + 1
}

/// The digit that these bytes begin with, where a line ends behind it, and what comes after that
/// end.
#[inline(always)]
fn one_digit(bytes: &[u8]) -> Option<(u8, &[u8])>
    ensures some { IfSome result (λ p. (p.0 < 10) × (bytes.now ≡ (48 + p.0) ∷ 10 ∷ p.1.now)) }
    ensures none { IfNone result
        ((digit : ℕ) (rest : List ℕ) → digit < 10 → bytes.now ≢ (48 + digit) ∷ 10 ∷ rest) }
{
    match bytes {
        [byte, b'\n', rest @ ..] if byte.is_ascii_digit() => Some((*byte - b'0', rest)),
        _ => None,
    }
}

/// The two digits that these bytes begin with, of which the first is not 0.
#[inline(always)]
fn two_digits(bytes: &[u8]) -> Option<(u8, &[u8])>
    ensures some { IfSome result (λ p.
        (10 ≤ p.0) × (p.0 < 100) × (bytes.now ≡ (48 + p.0 / 10) ∷ (48 + p.0 % 10) ∷ 10 ∷ p.1.now)) }
    ensures none { IfNone result ((tens ones : ℕ) (rest : List ℕ) → 1 ≤ tens → tens < 10 →
        ones < 10 →
        bytes.now ≢ (48 + tens) ∷ (48 + ones) ∷ 10 ∷ rest) }
{
    match bytes {
        [first, rest @ ..] if b'1' <= *first && *first <= b'9' => {
            let (ones, behind) = one_digit(rest)?;
            Some(((*first - b'0') * 10 + ones, behind))
        }
        _ => None,
    }
}

/// The number of one or two digits that these bytes begin with, where a line ends behind it, and
/// what comes after that end.
#[inline(always)]
fn short_number(bytes: &[u8]) -> Option<(u8, &[u8])>
    ensures some { IfSome result (λ p. (p.0 < 100) × (bytes.now ≡ decimal p.0 ++ 10 ∷ p.1.now)) }
    ensures none { IfNone result
        ((n : ℕ) (rest : List ℕ) → n < 100 → bytes.now ≢ decimal n ++ 10 ∷ rest) }
{
    if let Some((digit, rest)) = one_digit(bytes) {
        return Some((digit, rest));
    }
    let (number, rest) = two_digits(bytes)?;
    Some((number, rest))
}

/// A line of a text.
#[derive(Clone, Copy)]
pub struct Line<'a> {
    /// Its bytes without its end.
    pub bytes: &'a [u8],
    /// Whether byte 10 stood behind it. Only the last line of a text may lack it.
    pub ended: bool,
}

/// Whether all bytes are 32 to 126. It looks at each byte, so that many are tested at once.
fn is_printable(bytes: &[u8]) -> bool
    ensures { result ≡ list_all is_printable bytes.now }
{
    let mut all = true;
    for byte in bytes {
        all &= 32 <= *byte && *byte <= 126;
    }
    all
}

impl<'a> Line<'a> {
    /// The fields of the line.
    ///
    /// NotAscii exactly where a byte outside 32 to 126 stands in it; else NoEnd exactly where its
    /// end is missing.
    pub fn fields(&self) -> Result<Fields<'a>, ScriptKind>
        ensures { result ≡ row_of (self.now.bytes.now, self.now.ended) }
    {
        if !is_printable(self.bytes) {
            return Err(ScriptKind::NotAscii);
        }
        if !self.ended {
            return Err(ScriptKind::NoEnd);
        }
        Ok(Fields::new(self.bytes))
    }

    /// The fields of the line, the first of them apart.
    fn row(&self) -> Result<Row<'a>, ScriptKind>
        ensures { result_map_both (λ r. r.first.now ∷ r.rest) (λ e. e) result
            ≡ row_of (self.now.bytes.now, self.now.ended) }
    {
        match self.fields() {
            Ok(_) => Ok(Row::new(self.bytes)),
            Err(kind) => Err(kind),
        }
    }
}

/// The fields of a line, which has one at least: the first, and those behind it.
#[derive(Drop)]
pub struct Row<'a> {
    /// The first field.
    pub first: &'a [u8],
    /// The fields behind it.
    pub rest: Fields<'a>,
}

impl<'a> Row<'a> {
    /// A field, and those of the bytes behind it where there are any.
    #[inline(always)]
    fn with_rest(field: &'a [u8], behind: Option<&'a [u8]>) -> Row<'a>
        ensures { result.first.now ∷ result.rest
            ≡ field.now ∷ option_map_or (λ r. fields r.now) behind.entry [] }
    {
        Row {
            first: field,
            rest: Fields { rest: behind },
        }
    }

    /// The fields of a line.
    fn new(line: &'a [u8]) -> Row<'a>
        ensures { result.first.now ∷ result.rest ≡ fields line.now }
    {
        let (first, rest) = cut(b' ', line, place_of(b' ', line));
        Row::with_rest(first, rest)
    }
}

/// Where the first byte stands that is none of a field: a space, or one that isn't printable.
#[inline(always)]
fn field_end(bytes: &[u8]) -> Option<usize>
    ensures { result ≡ position (λ b. not (nat_le 33 b && nat_le b 126)) bytes.now }
{
    bytes.iter().position(|b| !(33 <= *b && *b <= 126))
}

/// Where the first byte stands that isn't printable, as the end of a line.
#[inline(always)]
fn printable_end(bytes: &[u8]) -> Option<usize>
    ensures { result ≡ position (λ b. not (is_printable b)) bytes.now }
{
    bytes.iter().position(|b| !(32 <= *b && *b <= 126))
}

/// The field that these bytes begin with, and what comes behind it.
#[inline(always)]
fn first_field(bytes: &[u8]) -> Option<(&[u8], &[u8])>
    ensures { IfSome result
        (λ p. (is_field p.0.now ≡ true) × (bytes.now ≡ p.0.now ++ p.1.now)) }
{
    let end = field_end(bytes)?;
    Some((&bytes[..end], &bytes[end..]))
}

/// What comes behind a byte, where the bytes begin with it.
#[inline(always)]
fn behind(byte: u8, bytes: &[u8]) -> Option<&[u8]>
    ensures { IfSome result (λ rest. bytes.now ≡ byte ∷ rest.now) }
{
    match bytes {
        [first, rest @ ..] if *first == byte => Some(rest),
        _ => None,
    }
}

/// What comes behind this head, where the bytes begin with it. A head is short, so its bytes are
/// compared one by one.
#[inline(always)]
fn behind_head<'a>(head: &[u8], bytes: &'a [u8]) -> Option<&'a [u8]>
    ensures some { IfSome result (λ rest. bytes.now ≡ head.now ++ rest.now) }
    ensures none { IfNone result ((rest : List ℕ) → bytes.now ≢ head.now ++ rest) }
{
    if bytes.len() < head.len() {
        return None;
    }
    let (first, rest) = bytes.split_at(head.len());
    if is_word(first, head) {
        Some(rest)
    } else {
        None
    }
}

/// The printable bytes before the end of a line, and what comes after that end.
#[inline(always)]
fn printable_rest(bytes: &[u8]) -> Option<(&[u8], &[u8])>
    ensures { IfSome result
        (λ p. (list_all is_printable p.0.now ≡ true) × (bytes.now ≡ p.0.now ++ 10 ∷ p.1.now)) }
{
    let end = printable_end(bytes)?;
    let rest = behind(b'\n', &bytes[end..])?;
    Some((&bytes[..end], rest))
}

/// The fields of the first line and what comes after its end, where it is one of printable bytes
/// that is ended. It looks at each byte once.
#[inline(always)]
fn printable_row(bytes: &[u8]) -> Option<(Row, &[u8])>
    ensures row { IfSome result (λ p. option_map row_of (slice_get (lines bytes.now) 0)
        ≡ Some (Ok (p.0.first.now ∷ p.0.rest))) }
    ensures rest { IfSome result (λ p. lines p.1.now ≡ drop 1 (lines bytes.now)) }
{
    let (first, more) = first_field(bytes)?;
    if let Some(more) = behind(b' ', more) {
        let (line, rest) = printable_rest(more)?;
        return Some((Row::with_rest(first, Some(line)), rest));
    }
    let rest = behind(b'\n', more)?;
    Some((Row::with_rest(first, None), rest))
}

/// The first line of a text that has bytes, and what comes behind it.
fn first_line(text: &[u8]) -> (Line, &[u8])
    requires { 0 < length text.now }
    ensures { lines text.now ≡ (result.0.bytes.now, result.0.ended) ∷ lines result.1.now }
{
    let (bytes, rest) = cut(b'\n', text, line_end(text));
    match rest {
        Some(rest) => (Line { bytes, ended: true }, rest),
        None => (
            Line {
                bytes,
                ended: false,
            },
            &[],
        ),
    }
}

/// The lines of a text that are left, in order. Contracts see the list of them, each with whether
/// it was ended.
#[derive(Drop)]
pub struct Lines<'a> {
    rest: &'a [u8],
}

impl<'a> Model for Lines<'a> {
    ghost use Rattle.std.specs.Prelude.{List, ℕ, Bool};
    ghost use Rattle.nt_text.specs.Lines.{lines};

    ghost Value = { List (List ℕ × Bool) };

    ghost view = { λ a. lines a.rest.now };
}

impl<'a> Lines<'a> {
    ghost use Rattle.nt_text.specs.Lines.{IsShortBelow, is_inner, lines, number_line};

    /// All lines of a text. Bytes behind the last byte 10, where there are any, are a line that
    /// isn't ended.
    #[tactic(auto, using(crate::proofs::Cuts::few_lines))]
    pub fn new(bytes: &'a [u8]) -> Lines<'a>
        ensures lines { result ≡ lines bytes.now }
        ensures few { length result ≤ length bytes.now }
    {
        Lines { rest: bytes }
    }

    /// Takes the first line that is left. None exactly where none is.
    ///
    /// An empty line is taken without a search for its end: a text may have millions of them.
    #[inline(always)]
    pub fn next(&mut self) -> Option<Line<'a>>
        ensures line { option_map (λ l. (l.bytes.now, l.ended)) result ≡ slice_get self.old 0 }
        ensures rest { self.new ≡ drop 1 self.old }
    {
        match self.rest {
            [] => None,
            [b'\n', rest @ ..] => {
                self.rest = rest;
                Some(Line {
                    bytes: &[],
                    ended: true,
                })
            }
            text => {
                let (line, rest) = first_line(text);
                self.rest = rest;
                Some(line)
            }
        }
    }

    /// Takes the first line that is left, as its fields. None exactly where none is.
    ///
    /// NotAscii exactly where a byte outside 32 to 126 stands in it; else NoEnd exactly where its
    /// end is missing.
    #[inline(always)]
    pub fn next_row(&mut self) -> Option<Result<Row<'a>, ScriptKind>>
        ensures row { option_map (result_map_both (λ r. r.first.now ∷ r.rest) (λ e. e)) result
            ≡ option_map row_of (slice_get self.old 0) }
        ensures rest { self.new ≡ drop 1 self.old }
    {
        match printable_row(self.rest) {
            Some((row, rest)) => {
                self.rest = rest;
                Some(Ok(row))
            }
            None => self.next_other_row(),
        }
    }

    /// Takes the first line, whatever its bytes are.
    #[inline(never)]
    fn next_other_row(&mut self) -> Option<Result<Row<'a>, ScriptKind>>
        ensures row { option_map (result_map_both (λ r. r.first.now ∷ r.rest) (λ e. e)) result
            ≡ option_map row_of (slice_get self.old 0) }
        ensures rest { self.new ≡ drop 1 self.old }
    {
        match self.next() {
            Some(line) => Some(line.row()),
            None => None,
        }
    }

    /// Takes the first line that is left, where it is ended and is `head` with a number below
    /// `below` of one or two digits behind it, and gives that number. None, and no line is taken,
    /// exactly where it is another line or none is left.
    #[inline(always)]
    pub fn take_number(&mut self, head: &[u8], below: u8) -> Option<u8>
        requires { list_all is_inner head.now ≡ true }
        ensures some { IfSome result
            (λ n. IsShortBelow below n × (self.old ≡ number_line head.now n ∷ self.new)) }
        ensures none { IfNone result (self.new ≡ self.old) }
        ensures other { IfNone result ((n : ℕ) → IsShortBelow below n →
            slice_get self.old 0 ≢ Some (number_line head.now n)) }
    {
        let behind = behind_head(head, self.rest)?;
        let (number, rest) = short_number(behind)?;
        if below <= number {
            return None;
        }
        self.rest = rest;
        Some(number)
    }
}

/// The fields of a line that are left, in order. Contracts see the list of them.
///
/// An empty line is one empty field, and two spaces side by side have an empty field between them.
#[derive(Drop)]
pub struct Fields<'a> {
    rest: Option<&'a [u8]>,
}

impl<'a> Model for Fields<'a> {
    ghost use Rattle.std.specs.Prelude.{List, ℕ, []};
    ghost use Rattle.std.specs.Option.{option_map_or};
    ghost use Rattle.nt_text.specs.Lines.{fields};

    ghost Value = { List (List ℕ) };

    ghost view = { λ a. option_map_or (λ r. fields r.now) a.rest [] };
}

impl<'a> Fields<'a> {
    ghost use Rattle.nt_text.specs.Lines.{fields};

    /// All fields of a line, whatever its bytes are.
    pub fn new(line: &'a [u8]) -> Fields<'a>
        ensures { result ≡ fields line.now }
    {
        Fields { rest: Some(line) }
    }

    /// Takes the first field that is left. None exactly where none is.
    pub fn next(&mut self) -> Option<&'a [u8]>
        ensures field { option_map (λ f. f.now) result ≡ slice_get self.old 0 }
        ensures rest { self.new ≡ drop 1 self.old }
    {
        let rest = self.rest?;
        let (field, rest) = cut(b' ', rest, place_of(b' ', rest));
        self.rest = rest;
        Some(field)
    }

    /// The next field, or an empty one where none is left.
    pub fn take(&mut self) -> &'a [u8]
        ensures field { result.now ≡ first self.old }
        ensures rest { self.new ≡ rest self.old }
    {
        match self.next() {
            Some(field) => field,
            None => &[],
        }
    }

    /// The next field. MissingField exactly where none is left.
    pub fn need(&mut self) -> Result<&'a [u8], ScriptKind>
        ensures field { result_map_both (λ f. f.now) (λ e. e) result ≡ needed self.old }
        ensures rest { self.new ≡ rest self.old }
    {
        match self.next() {
            Some(field) => Ok(field),
            None => Err(ScriptKind::MissingField),
        }
    }

    /// How many fields are left.
    pub fn count(&self) -> usize
        ensures { result ≡ length self.now }
    {
        match self.rest {
            Some(rest) => field_count(rest),
            None => 0,
        }
    }
}
