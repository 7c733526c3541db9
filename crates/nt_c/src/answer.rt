//! What a call answers, and how that goes into the caller's buffer.
ghost use Rattle.std.specs.Prelude.{◌≡◌, IfSome, false, map, string_bytes};
ghost use Rattle.nt_c.specs.Call.{IsFound, IsPlain, IsPut, number_for};
ghost use Rattle.nt_words.specs.Forms.{names_live};

use crate::streams::{InputSource, TextSink};
use crate::words::words_in;
use nt_top::{Status, is_live, plain};
use std::alloc::Global;

/// The status of words that need threads.
pub(crate) const NEEDS_THREADS: u8 = 12;

/// The number of a status, and the text that goes with it.
#[derive(Drop)]
pub(crate) struct Answer {
    pub(crate) number: u8,
    pub(crate) text: Vec<u8>,
}

/// What the program answers to words that need no threads. None where there was no memory for its
/// text.
fn plain_answer(alloc: Global, words: &[String], input: &[u8]) -> Option<Answer>
    requires { names_live (map string_bytes words.now) ≡ false }
    ensures { IfSome result (λ a.
        IsPlain (map string_bytes words.now) input.now a.number a.text.items) }
{
    let mut source = InputSource::new(input);
    let mut sink = TextSink::new(alloc);
    let status = plain(alloc, words, &mut source, &mut sink);
    let text = sink.text()?;
    Some(Answer {
        number: status.number(),
        text,
    })
}

/// What is answered to the words of a command line. None where memory was wanting.
pub(crate) fn answer_to(alloc: Global, words: &[u8], input: &[u8]) -> Option<Answer>
    ensures { IfSome result (λ a. IsFound words.now input.now a.number a.text.items) }
{
    let words = words_in(alloc, words).ok()?;
    if is_live(words.as_slice()) {
        return Some(Answer {
            number: NEEDS_THREADS,
            text: Vec::new(alloc),
        });
    }
    plain_answer(alloc, words.as_slice(), input)
}

/// Puts a text at the front of the buffer, as much of it as there is room for, and gives its
/// status.
pub(crate) fn put(number: u8, text: &[u8], output: &mut [u8], written: &mut usize) -> u8
    ensures put { IsPut text.now output.old output.new written.new }
    ensures number { result ≡ number_for text.now output.old number }
{
    let count = text.len().min(output.len());
    output[..count].copy_from_slice(&text[..count]);
    *written = count;
    if count < text.len() {
        Status::Write.number()
    } else {
        number
    }
}
