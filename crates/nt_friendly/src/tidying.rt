//! A friendly text as the strict one that it means.
ghost use Rattle.std.specs.Prelude.{◌≡◌, ◌≤◌, ◌+◌, ◌++◌, ◌∷◌, ◌==◌, IfOk, OnOk, length, not};
ghost use Rattle.nt_text.specs.Lines.{lines, spaced};
ghost use Rattle.nt_text.specs.declared.lines.TheConstants.{INPUT_LIMIT};
ghost use Rattle.nt_friendly.specs.Fields.{friendly_fields};
ghost use Rattle.nt_friendly.specs.Levels.{replaced, strict_row};
ghost use Rattle.nt_friendly.specs.Text.{line_numbers, line_text, strict_text};

use crate::fields::Fields;
use crate::levels::{Next, behind_first};
use nt_text::{Lines, put_field};
use std::alloc::{AllocError, Global};

/// A strict text, and where its lines come from.
#[derive(Drop)]
pub struct Tidied {
    /// The strict text.
    pub text: Vec<u8>,
    /// For each line of it the number of the friendly line from which it comes, counted from 1.
    pub lines: Vec<u32>,
}

/// Adds the fields that are left, with numbers for names of levels, each behind a blank.
fn put_fields(out: &mut Vec<u8>, first: Next, fields: &mut Fields) -> Result<(), AllocError>
    ensures { OnOk result (out.new.items ≡ out.old.items ++ spaced (replaced first fields.old)) }
{
    let mut next = first;
    while let Some(field) = fields.next() {
        if !next.leaves_out(field, fields.peek()) {
            put_field(out, next.written(field))?;
            next = next.after(field);
        }
    }
    Ok(())
}

/// Adds a line of this first field and those that are left behind it.
fn put_row(out: &mut Vec<u8>, first: &[u8], fields: &mut Fields) -> Result<(), AllocError>
    ensures { OnOk result
        (out.new.items ≡ out.old.items ++ line_text (strict_row (first.now ∷ fields.old))) }
{
    out.extend_from_slice(first)?;
    put_fields(out, behind_first(first), fields)?;
    out.push(b'\n')?;
    Ok(())
}

/// Adds the strict line of a line, where it has a field. Answers whether it has.
fn put_line(out: &mut Vec<u8>, line: &[u8]) -> Result<bool, AllocError>
    ensures text { OnOk result
        (out.new.items ≡ out.old.items ++ line_text (strict_row (friendly_fields line.now))) }
    ensures some { IfOk result (λ some. some ≡ not (length (friendly_fields line.now) == 0)) }
{
    let mut fields = Fields::new(line);
    match fields.next() {
        Some(first) => {
            put_row(out, first, &mut fields)?;
            Ok(true)
        }
        None => Ok(false),
    }
}

/// Adds the strict text of a friendly one, and the numbers of the lines from which its lines come.
fn put_lines(bytes: &[u8], text: &mut Vec<u8>, numbers: &mut Vec<u32>) -> Result<(), AllocError>
    requires { length bytes.now ≤ INPUT_LIMIT }
    ensures text { OnOk result (text.new.items ≡ text.old.items ++ strict_text bytes.now) }
    ensures lines { OnOk result
        (numbers.new.items ≡ numbers.old.items ++ line_numbers bytes.now) }
{
    let mut lines = Lines::new(bytes);
    let mut number: u32 = 1;
    while let Some(line) = lines.next() {
        if put_line(text, line.bytes)? {
            numbers.push(number)?;
        }
        number += 1;
    }
    Ok(())
}

/// The strict text that a friendly one means, line by line: a comment from `#` on is cut, blanks,
/// tabs and CR part the fields, a byte order mark at the beginning of a line is blank too, lines
/// without a field are left out, and the name of a level is its number where a level stands. All
/// other bytes stay as they are, so that the readers refuse what they would refuse.
///
/// The names are PASSIVE 0, APC 1, DISPATCH 2, SYNCH 12, CLOCK 13, IPI 14 and HIGH 15. `DIRQL N`
/// with N from 3 to 11 is N.
pub fn tidy(alloc: Global, bytes: &[u8]) -> Result<Tidied, AllocError>
    requires { length bytes.now ≤ INPUT_LIMIT }
    ensures text { IfOk result (λ tidied. tidied.text.items ≡ strict_text bytes.now) }
    ensures lines { IfOk result (λ tidied. tidied.lines.items ≡ line_numbers bytes.now) }

    // Each line of the text has its number.
    ensures count { IfOk result (λ tidied.
        length (lines tidied.text.items) ≡ length tidied.lines.items) }

    // At most the end of the last line is added.
    ensures short { IfOk result (λ tidied. length tidied.text.items ≤ length bytes.now + 1) }
{
    let mut text = Vec::new(alloc);
    let mut lines = Vec::new(alloc);
    put_lines(bytes, &mut text, &mut lines)?;
    Ok(Tidied { text, lines })
}
