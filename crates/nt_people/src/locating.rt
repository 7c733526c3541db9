//! Which field of a line is wrong.
use crate::fault::{Fault, TextPart};
use crate::near::kind_of_name;
use crate::sorts::{Sort, is_bad_name, is_bad_number, is_bad_word, used_kind};
use crate::walking::Walk;
use nt_line::keyword_of;
use nt_text::{Fields, Lines, ScriptKind, What10, number};

/// Where in a line something is wrong.
#[derive(Clone, Copy, PartialEq, Eq, Debug)]
pub(crate) enum Spot {
    /// The field of this index, counted from 0.
    Field(usize),
    /// Behind the last field.
    Behind,
}

/// What is wrong in a line.
#[derive(Clone, Copy)]
pub(crate) struct Found<'a> {
    /// Where.
    pub(crate) spot: Spot,
    /// What stands there.
    pub(crate) field: &'a [u8],
    /// What stands in the field before it.
    pub(crate) before: &'a [u8],
    /// What may stand there.
    pub(crate) sort: Sort,
    /// In what way it is wrong.
    pub(crate) way: Way,
}

/// In what way a field is wrong.
#[derive(Clone, Copy, PartialEq, Eq, Debug)]
pub(crate) enum Way {
    /// By itself.
    Itself,
    /// It is a word that scripts of version 1 do not have.
    Version,
    /// Only at this place: the line, or what stands in it, may not stand here.
    Place,
}

/// Whether a script is of version 2.
fn is_second_version(text: &[u8]) -> bool {
    match Lines::new(text).next() {
        Some(line) => Fields::new(line.bytes).take() == b"version".as_slice(),
        None => false,
    }
}

/// Whether a field is a word of version 2 alone, where this may stand in it.
fn is_later_word(sort: Sort, field: &[u8]) -> bool {
    match sort {
        Sort::Keyword | Sort::Verb => keyword_of(1, field).is_none()
            && keyword_of(2, field).is_some(),
        Sort::Never => field == b"spins".as_slice(),
        Sort::Reply => field == b"spin".as_slice(),
        _ => false,
    }
}

/// The count of processors of a script.
fn cpus(text: &[u8]) -> u64 {
    let mut lines = Lines::new(text);
    while let Some(line) = lines.next() {
        let mut row = Fields::new(line.bytes);
        if row.take() == b"cpus".as_slice() {
            return number(row.take(), 64).unwrap_or(64);
        }
    }
    64
}

/// Whether all bytes of a field are 33 to 126.
fn is_printable(field: &[u8]) -> bool {
    field.iter().all(|b| 33 <= *b && *b <= 126)
}

/// Whether a used name is declared by no line.
fn is_unknown(text: &[u8], sort: Sort, field: &[u8]) -> bool {
    used_kind(sort, field).is_some() && kind_of_name(text, field).is_none()
}

/// Whether a used name is that of a thing of another kind, or a reply is none of the command's.
fn is_other_kind(text: &[u8], sort: Sort, field: &[u8]) -> bool {
    match used_kind(sort, field) {
        Some(kind) => kind_of_name(text, field) != Some(kind),
        None => sort == Sort::Reply,
    }
}

/// In what way an unknown word is wrong, where it is.
fn unknown_way(text: &[u8], sort: Sort, field: &[u8]) -> Option<Way> {
    if is_bad_word(sort, field) {
        return Some(Way::Itself);
    }
    if is_later_word(sort, field) && !is_second_version(text) {
        return Some(Way::Version);
    }
    None
}

/// A field that is wrong by itself, where it is.
fn itself(is_wrong: bool) -> Option<Way> {
    if is_wrong { Some(Way::Itself) } else { None }
}

/// In what way a field is wrong for a kind of refusal, where this may stand in it and it is.
fn way_of(kind: ScriptKind, text: &[u8], sort: Sort, field: &[u8]) -> Option<Way> {
    match kind {
        ScriptKind::NotAscii => itself(!is_printable(field)),
        ScriptKind::UnknownWord => unknown_way(text, sort, field),
        ScriptKind::ExtraField => itself(sort == Sort::Nothing),
        ScriptKind::BadNumber => itself(is_bad_number(sort, cpus(text), field)),
        ScriptKind::BadName => itself(is_bad_name(sort, field)),
        ScriptKind::NameTwice => itself(sort == Sort::NewName),
        ScriptKind::UnknownName => itself(is_unknown(text, sort, field)),
        ScriptKind::WrongKind => itself(is_other_kind(text, sort, field)),
        ScriptKind::TooMany(What10::Cpus) => itself(sort == Sort::Cpus),
        ScriptKind::TooMany(
            What10::Threads
            | What10::Dpcs
            | What10::Apcs
            | What10::Timers
            | What10::Spinlocks
            | What10::Routines
            | What10::Commands
            | What10::Turns,
        ) => None,
        ScriptKind::MissingField | ScriptKind::NoCpus | ScriptKind::NoEnd => None,
    }
}

/// Whether something is wrong behind the last field.
fn is_behind(kind: ScriptKind) -> bool {
    match kind {
        ScriptKind::MissingField | ScriptKind::NoEnd => true,
        ScriptKind::NotAscii
        | ScriptKind::UnknownWord
        | ScriptKind::ExtraField
        | ScriptKind::BadNumber
        | ScriptKind::BadName
        | ScriptKind::NameTwice
        | ScriptKind::UnknownName
        | ScriptKind::NoCpus
        | ScriptKind::TooMany(_)
        | ScriptKind::WrongKind => false,
    }
}

/// The first field, where it cannot be told which is wrong.
fn first_field(part: TextPart, line: &[u8]) -> Found {
    let field = Fields::new(line).take();
    Found {
        spot: Spot::Field(0),
        field,
        before: &[],
        sort: Walk::new(part).take(field),
        way: Way::Place,
    }
}

/// What is wrong with a line of a strict text for a kind of refusal.
fn locate_kind<'a>(part: TextPart, kind: ScriptKind, text: &[u8], line: &'a [u8]) -> Found<'a> {
    let mut walk = Walk::new(part);
    let mut fields = Fields::new(line);
    let mut index: usize = 0;
    let mut before: &[u8] = &[];
    while let Some(field) = fields.next() {
        let sort = walk.take(field);
        if let Some(way) = way_of(kind, text, sort, field) {
            return Found {
                spot: Spot::Field(index),
                field,
                before,
                sort,
                way,
            };
        }
        index = index.saturating_add(1);
        before = field;
    }
    if !is_behind(kind) {
        return first_field(part, line);
    }
    Found {
        spot: Spot::Behind,
        field: &[],
        before,
        sort: walk.take(&[]),
        way: Way::Itself,
    }
}

/// What is wrong with a line of a strict text.
pub(crate) fn locate<'a>(fault: Fault, text: &[u8], line: &'a [u8]) -> Found<'a> {
    match fault.kind() {
        Some(kind) => locate_kind(fault.part(), kind, text, line),
        None => first_field(fault.part(), line),
    }
}
