//! The program and the levels for callers in C and in Rust: a static library of three functions,
//! which `include/ntrun.h` declares.
//!
//! [`ntrun_call`] is the program for words that need no threads: it calls `plain` of `nt_top` with
//! a source of the input's bytes and a sink that keeps the whole text, and copies that into the
//! caller's buffer. `specs/Call.antt` says what it answers. The other two are the rules of
//! `nt_level` for plain numbers. Each tests its arguments by itself, since nothing checks a caller
//! in C: none has a `requires`.
#![tactic(auto)]

ghost use Rattle.std.specs.Prelude.{◌≡◌, ◌<◌, ◌≤◌, ◌↔◌, IsTrue};
ghost use Rattle.nt_c.specs.Call.{IsCall};

mod answer;
mod streams;
#[cfg(test)]
mod tests;
mod words;

use crate::answer::{answer_to, put};
use nt_level::Level;
use nt_top::Status;
use std::alloc::Global;

/// The program for words that need no threads, over memory of the caller.
///
/// `words` are those behind the program's name, with one space between two, as `run --turns 500`.
/// The text that `ntrun` would write for them and this input goes to the front of `output`, and
/// `written` is how many bytes it is. The answer is the number of the status that `ntrun` would end
/// with, but for two: it is 5, and the whole buffer has a front part of the text, exactly where the
/// text is longer than the buffer; and it is 12, and nothing is written, exactly where one of the
/// words is `live` or `audit`, which need threads. Want of memory, 6, may come at any place, with
/// the line `no memory`. The rest of the buffer stays as it was.
#[unsafe(no_mangle)]
pub extern "C" fn ntrun_call(
    alloc: Global,
    words: &[u8],
    input: &[u8],
    output: &mut [u8],
    written: &mut usize,
) -> u8
    ensures { IsCall words.now input.now output.old output.new written.new result }
{
    match answer_to(alloc, words, input) {
        Some(answer) => put(answer.number, answer.text.as_slice(), output, written),
        None => put(
            Status::Memory.number(),
            "no memory\n".as_bytes(),
            output,
            written,
        ),
    }
}

/// Whether a request at one level may begin on a processor at another: exactly where it is above.
/// A number above 15 is no level, and the answer false.
#[unsafe(no_mangle)]
pub extern "C" fn ntrun_level_allows(level: u8, request: u8) -> bool
    ensures { IsTrue result ↔ ((level < request) × (request ≤ 15)) }
{
    match (Level::new(level), Level::new(request)) {
        (Some(level), Some(request)) => level.allows(request),
        _ => false,
    }
}

/// Whether a level is one of those of devices, 3 to 11.
#[unsafe(no_mangle)]
pub extern "C" fn ntrun_level_is_device(level: u8) -> bool
    ensures { IsTrue result ↔ ((3 ≤ level) × (level ≤ 11)) }
{
    match Level::new(level) {
        Some(level) => level.is_device(),
        None => false,
    }
}
