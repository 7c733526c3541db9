//! The message on a refused line.
ghost use Rattle.std.specs.Prelude.{◌≡◌, ◌≤◌, ◌++◌, IfOk, IfSome, OnOk, codes, length};
ghost use Rattle.std.specs.Prelude.{option_map};
ghost use Rattle.std.specs.Option.{option_map_or};
ghost use Rattle.nt_text.specs.declared.lines.TheConstants.{INPUT_LIMIT};
ghost use Rattle.nt_people.specs.Messages.{IsMessage, heads, last_line};
ghost use Rattle.nt_people.specs.Messages.{message_text, proposal, shown_text, title_line};
ghost use Rattle.nt_people.specs.Near.{IsDeclared};

use crate::advice::advice;
use crate::fault::Fault;
use crate::locating::{Found, Way, locate};
use crate::near::{near_name, near_word};
use crate::places::{Mark, line_numbered, mark_of, told_line};
use crate::quoting::{digits, put_plain, put_quoted, shown_text};
use crate::sorts::{level_names, used_kind, words};
use crate::titles::title;
use nt_friendly::Tidied;
use nt_line::Kind;
use nt_text::{INPUT_LIMIT, ScriptKind, put_digits};
use std::alloc::{AllocError, Global};

/// The name of a file, or what stands for it.
fn source_name(file: Option<&str>) -> &str
    ensures { result.now ≡ option_map_or (λ f. f.now) file.entry (codes "standard input") }
{
    match file {
        Some(name) => name,
        None => "standard input",
    }
}

/// Adds a text as it is shown.
fn put_name(out: &mut Vec<u8>, name: &str) -> Result<(), AllocError>
    ensures { OnOk result (out.new.items ≡ out.old.items ++ shown_text name.now) }
{
    let shown = shown_text(*out.allocator(), name)?;
    out.extend_from_slice(shown.as_bytes())
}

/// Adds the place at which a message begins.
fn put_heads(out: &mut Vec<u8>, source: &str, number: u32, column: usize) -> Result<(), AllocError>
    ensures { OnOk result
        (out.new.items ≡ out.old.items ++ heads (shown_text source.now) number column) }
{
    put_name(out, source)?;
    out.push(b':')?;
    put_digits(out, number as u64)?;
    out.push(b':')?;
    put_digits(out, column as u64)?;
    out.extend_from_slice(b": ")?;
    Ok(())
}

/// Adds the name that may be meant.
fn put_proposal(out: &mut Vec<u8>, near: Option<&str>) -> Result<(), AllocError>
    ensures { OnOk result
        (out.new.items ≡ out.old.items ++ proposal (option_map (λ n. n.now) near.entry)) }
{
    if let Some(name) = near {
        out.extend_from_slice(b"; is `")?;
        out.extend_from_slice(name.as_bytes())?;
        out.extend_from_slice(b"` meant?")?;
    }
    Ok(())
}

/// Advice, with a word that may be meant.
fn wording(alloc: Global, advice: &str, word: Option<&str>) -> Result<String, AllocError> {
    match word {
        Some(word) => format!(in alloc; "{advice}; is \"{word}\" meant?"),
        None => String::from_str(alloc, advice),
    }
}

/// What is told of a line.
#[derive(Clone, Copy)]
struct Told<'a> {
    /// Where the text comes from.
    source: &'a str,
    /// The number of the friendly line.
    number: u32,
    /// The friendly line.
    line: &'a [u8],
    /// The columns that are marked.
    mark: Mark,
    /// What is wrong.
    title: &'static str,
    /// What to do.
    advice: &'a str,
    /// A name that may be meant.
    near: Option<&'a str>,
}

/// Adds the first line of a message.
fn put_title(out: &mut Vec<u8>, told: &Told) -> Result<(), AllocError>
    ensures { OnOk result (out.new.items ≡ out.old.items ++ title_line told.now.source.now
        told.now.number told.now.mark.column told.now.title.now) }
{
    put_heads(out, told.source, told.number, told.mark.column)?;
    put_plain(out, told.title)?;
    out.push(b'\n')?;
    Ok(())
}

/// Adds the last line of a message.
fn put_last(out: &mut Vec<u8>, told: &Told) -> Result<(), AllocError>
    ensures { OnOk result (out.new.items ≡ out.old.items
        ++ last_line told.now.advice.now (option_map (λ n. n.now) told.now.near)) }
{
    put_plain(out, told.advice)?;
    put_proposal(out, told.near)?;
    out.push(b'\n')?;
    Ok(())
}

/// A message, where the number of its line has these digits.
fn written(alloc: Global, told: &Told, digits: &[u8]) -> Result<Vec<u8>, AllocError>
    ensures { IfOk result (λ m. m.items ≡ message_text told.now.source.now told.now.number
        digits.now told.now.line.now told.now.mark.column told.now.mark.length
        told.now.title.now told.now.advice.now (option_map (λ n. n.now) told.now.near)) }
{
    let mut out = Vec::new(alloc);
    put_title(&mut out, told)?;
    put_quoted(&mut out, digits, told.line, &told.mark)?;
    put_last(&mut out, told)?;
    Ok(out)
}

/// The kind of the name that no line declares.
fn unknown_kind(fault: Fault, found: &Found) -> Option<Kind> {
    match fault.kind() {
        Some(ScriptKind::UnknownName) => used_kind(found.sort, found.field),
        _ => None,
    }
}

/// A name that may be meant where a field has one that no line declares.
fn meant_name<'a>(
    alloc: Global,
    fault: Fault,
    text: &'a [u8],
    found: &Found,
) -> Result<Option<&'a str>, AllocError>
    ensures { IfOk result (λ near. IfSome near (λ n. IsDeclared n.now text.now)) }
{
    match unknown_kind(fault, found) {
        Some(kind) => near_name(alloc, kind, text, found.field),
        None => Ok(None),
    }
}

/// The words of which one may be meant where a field has one that is unknown.
fn meant_words(fault: Fault, found: &Found) -> &'static [&'static str] {
    match (fault.kind(), found.way) {
        (Some(ScriptKind::UnknownWord), Way::Itself) => words(found.sort),
        (Some(ScriptKind::BadNumber), Way::Itself) => level_names(found.sort),
        _ => &[],
    }
}

/// A message for people on a line that a strict reader refused.
///
/// `friendly` are the bytes that somebody wrote, `tidied` what `tidy` made of them, `line` the
/// number of the refused line of its text, counted from 1, and `file` the name of the file; without
/// one the message says `standard input`. The message has the place in the friendly text, the line
/// with a mark, what is wrong, its usual cause, and what may be meant. A line that the text does
/// not have is told as the one behind the last.
pub fn refusal_message(
    alloc: Global,
    file: Option<&str>,
    friendly: &[u8],
    tidied: &Tidied,
    line: u32,
    fault: Fault,
) -> Result<Vec<u8>, AllocError>
    requires { length friendly.now ≤ INPUT_LIMIT }
    ensures { IfOk result (λ m.
        IsMessage (option_map_or (λ f. f.now) file.entry (codes "standard input")) friendly.now
        tidied.now.lines.items line fault tidied.now.text.items m.items) }
{
    let text = tidied.text.as_slice();
    let number = told_line(friendly, tidied.lines.as_slice(), line);
    let shown = line_numbered(friendly, number);
    let strict = line_numbered(text, line);
    let found = locate(fault, text, strict);
    let near = meant_name(alloc, fault, text, &found)?;
    let word = near_word(alloc, meant_words(fault, &found), found.field)?;
    let wording = wording(alloc, advice(fault, text, &found), word)?;
    let told = Told {
        source: source_name(file),
        number,
        line: shown,
        mark: mark_of(shown, strict, found.spot),
        title: title(fault),
        advice: wording.as_str(),
        near,
    };
    let digits = digits(alloc, number)?;
    written(alloc, &told, digits.as_slice())
}
