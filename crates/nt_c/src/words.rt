//! The words of a command line that is given as bytes.
ghost use Rattle.std.specs.Prelude.{◌≡◌, IfOk, map, string_bytes};
ghost use Rattle.std.specs.List.{slice_split};
ghost use Rattle.nt_c.specs.Words.{AreWords, is_space};

use std::alloc::{AllocError, Global};

/// The pieces of a text between its spaces.
fn pieces(alloc: Global, text: &str) -> Result<Vec<&str>, AllocError>
    ensures { IfOk result (λ v. map (λ x. x.now) v.items ≡ slice_split is_space text.now) }
{
    text.split(' ').collect(alloc)
}

/// The words of a text with one space between two.
fn words_of_text(alloc: Global, text: &str) -> Result<Vec<String>, AllocError>
    ensures { IfOk result (λ v. map string_bytes v.items ≡ slice_split is_space text.now) }
{
    let mut words = Vec::new(alloc);
    for piece in pieces(alloc, text)?.iter() {
        words.push(String::from_str(alloc, piece)?)?;
    }
    Ok(words)
}

/// The words of bytes with one space between two. Bytes that are no text are no words.
pub(crate) fn words_in(alloc: Global, bytes: &[u8]) -> Result<Vec<String>, AllocError>
    ensures { IfOk result (λ v. AreWords bytes.now (map string_bytes v.items)) }
{
    match str::from_utf8(bytes) {
        Ok(text) => words_of_text(alloc, text),
        Err(_) => Ok(Vec::new(alloc)),
    }
}
