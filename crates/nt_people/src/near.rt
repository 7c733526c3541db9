//! Names and words that may be meant.
ghost use Rattle.std.specs.Prelude.{◌≡◌, IfOk, IfSome};
ghost use Rattle.nt_text.specs.Lines.{fields};
ghost use Rattle.nt_people.specs.Near.{Declares, StandsAs, declared_kind};

use nt_line::{Kind, keyword_of};
use nt_text::{Fields, Lines, name};
use std::alloc::{AllocError, Global};
use strsim::damerau_levenshtein;

/// A longer field is like no name and no word.
const MOST_LETTERS: usize = 48;

/// The kind of the things that lines with this first field declare.
fn kind_of_line(first: &[u8]) -> Option<Kind>
    ensures { result ≡ declared_kind first.now }
{
    keyword_of(2, first)?.declares()
}

/// The name of this kind that a line declares.
fn declared_name(kind: Kind, line: &[u8]) -> Option<&str>
    ensures { IfSome result (λ n. Declares kind n.now (fields line.now)) }
{
    let mut row = Fields::new(line);
    if kind_of_line(row.take()) == Some(kind) {
        name(row.take())
    } else {
        None
    }
}

/// The kind of the thing that the first line with this name declares.
pub(crate) fn kind_of_name(text: &[u8], field: &[u8]) -> Option<Kind> {
    let mut lines = Lines::new(text);
    while let Some(line) = lines.next() {
        let mut row = Fields::new(line.bytes);
        let kind = kind_of_line(row.take());
        if kind.is_some() && row.take() == field {
            return kind;
        }
    }
    None
}

/// A field as letters, where it may be like a name or a word.
fn letters(field: &[u8]) -> Option<&str> {
    if field.len() > MOST_LETTERS {
        return None;
    }
    match str::from_utf8(field) {
        Ok(letters) => Some(letters),
        Err(_) => None,
    }
}

/// The distance from which on nothing is like a field: more than a third of its letters.
fn too_far(letters: &str) -> usize {
    letters.len() / 3 + 1
}

/// Takes a letter from those that are counted. Whether it was there.
fn take_letter(counts: &mut [u8; 128], letter: char) -> bool {
    let Ok(at) = u8::try_from(letter) else {
        return false;
    };
    match counts.get_mut(usize::from(at)) {
        Some(count) if 0 < *count => {
            *count -= 1;
            true
        }
        _ => false,
    }
}

/// How many letters of a name each letter is.
fn counts_of(name: &str) -> [u8; 128] {
    let mut counts = [0; 128];
    for byte in name.as_bytes() {
        if let Some(count) = counts.get_mut(usize::from(*byte)) {
            *count = u8::saturating_add(*count, 1);
        }
    }
    counts
}

/// A number that the distance of letters from a name is never below: how many letters of the longer
/// one the other does not have. It is found sooner than the distance.
fn least_distance(letters: &str, name: &str) -> usize {
    let mut counts = counts_of(name);
    let mut all: usize = 0;
    let mut shared: usize = 0;
    for letter in letters.chars() {
        all = all.saturating_add(1);
        if take_letter(&mut counts, letter) {
            shared = shared.saturating_add(1);
        }
    }
    all.max(name.len()).saturating_sub(shared)
}

/// The name of this kind that a line declares, and its distance from letters, where this is less
/// than another one.
fn nearer<'a>(
    alloc: Global,
    kind: Kind,
    letters: &str,
    line: &'a [u8],
    least: usize,
) -> Result<Option<(usize, &'a str)>, AllocError>
    ensures { IfOk result
        (λ near. IfSome near (λ n. Declares kind n.1.now (fields line.now))) }
{
    let Some(name) = declared_name(kind, line) else {
        return Ok(None);
    };
    if least <= least_distance(letters, name) {
        return Ok(None);
    }
    let edits = damerau_levenshtein(alloc, letters, name)?;
    if edits < least {
        Ok(Some((edits, name)))
    } else {
        Ok(None)
    }
}

/// The name of this kind in a strict text that is most like a field, and like it enough.
pub(crate) fn near_name<'a>(
    alloc: Global,
    kind: Kind,
    text: &'a [u8],
    field: &[u8],
) -> Result<Option<&'a str>, AllocError>
    ensures { IfOk result (λ near. IfSome near (λ n. StandsAs kind n.now text.now)) }
{
    let Some(letters) = letters(field) else {
        return Ok(None);
    };
    let mut near = None;
    let mut least = too_far(letters);
    let mut lines = Lines::new(text);
    while let Some(line) = lines.next() {
        if let Some((edits, name)) = nearer(alloc, kind, letters, line.bytes, least)? {
            least = edits;
            near = Some(name);
        }
    }
    Ok(near)
}

/// The word that is most like a field, and like it enough.
pub(crate) fn near_word(
    alloc: Global,
    words: &'static [&'static str],
    field: &[u8],
) -> Result<Option<&'static str>, AllocError> {
    let Some(letters) = letters(field) else {
        return Ok(None);
    };
    let mut near = None;
    let mut least = too_far(letters);
    for word in words {
        let edits = damerau_levenshtein(alloc, letters, *word)?;
        if edits < least {
            least = edits;
            near = Some(*word);
        }
    }
    Ok(near)
}
