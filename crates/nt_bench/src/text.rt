//! What is done with the bytes of an input.
ghost use Rattle.std.specs.Prelude.{◌≡◌, ◌≤◌, length};
ghost use Rattle.nt_friendly.specs.Text.{line_numbers, strict_text};
ghost use Rattle.nt_lab.specs.Replies.{text_of};
ghost use Rattle.nt_text.specs.declared.lines.TheConstants.{INPUT_LIMIT};
ghost use Rattle.nt_bench.specs.Friendly.{IsFriendly};
ghost use Rattle.nt_bench.specs.Outcome.{IsDone, IsFoundIn};
ghost use Rattle.nt_bench.specs.Running.{draw_shape, run_shape};
ghost use Rattle.nt_lab_words.specs.Words.{IsWork};

use crate::asking::asked_in;
use crate::friendly::{Friendly, Named};
use crate::reasons::why_in;
use crate::running::{Shape, run_in};
use crate::tidying::tidied_in;
use nt_ask::Status;
use nt_draw::Span;
use nt_event::limits::EVENTS;
use nt_friendly::{Tidied, tidy};
use nt_lab::{Reply, line, no_memory};
use nt_lab_words::{USUAL, Work};
use nt_text::INPUT_LIMIT;
use std::alloc::Global;

/// The shape of `run`.
fn run_shape(as_schedule: bool) -> Shape
    ensures { result ≡ run_shape as_schedule }
{
    if as_schedule {
        Shape::Schedule
    } else {
        Shape::Report
    }
}

/// The shape of `draw`, from this event to that one, else all of them.
fn draw_shape(from: Option<u32>, to: Option<u32>, as_text: bool) -> Shape
    ensures { result ≡ draw_shape from to as_text }
{
    let span = Span {
        from: from.unwrap_or(0),
        to: to.unwrap_or(EVENTS),
    };
    if as_text {
        Shape::Lines(span)
    } else {
        Shape::Picture(span)
    }
}

/// What is replied to a friendly text.
fn reply_to(alloc: Global, work: Work, friendly: &Friendly<'_>) -> Reply
    requires friendly { IsFriendly friendly.now }
    requires within { IsWork work }
    ensures { IsDone work friendly.now result.status (text_of result.text) }
{
    match work {
        Work::Ask(form) => asked_in(alloc, form, friendly),
        Work::Tidy => tidied_in(alloc, friendly),
        Work::Run { how, as_schedule } => run_in(alloc, how, run_shape(as_schedule), friendly),
        Work::Left => run_in(alloc, USUAL, Shape::Left, friendly),
        Work::Draw { from, to, as_text } => {
            run_in(alloc, USUAL, draw_shape(from, to, as_text), friendly)
        }
        Work::Why { kind, after } => why_in(alloc, kind, after, friendly),
    }
}

/// What is replied to bytes from this file and the strict text that they mean.
fn reply_to_strict(
    alloc: Global,
    work: Work,
    named: Named<'_>,
    bytes: &[u8],
    tidied: &Tidied,
) -> Reply
    requires within { IsWork work }
    requires bytes { length bytes.now ≤ INPUT_LIMIT }
    requires text { tidied.now.text.items ≡ strict_text bytes.now }
    requires lines { tidied.now.lines.items ≡ line_numbers bytes.now }
    ensures { IsFoundIn work named.entry bytes.now result.status
        (text_of result.text) }
{
    if tidied.text.as_slice().len() > INPUT_LIMIT {
        return line(Status::TooLong, "input too long\n");
    }
    let friendly = Friendly {
        named,
        bytes,
        tidied,
    };
    reply_to(alloc, work, &friendly)
}

/// What is replied to bytes from this file.
pub(crate) fn reply_to_bytes(alloc: Global, work: Work, named: Named<'_>, bytes: &[u8]) -> Reply
    requires within { IsWork work }
    requires bytes { length bytes.now ≤ INPUT_LIMIT }
    ensures { IsFoundIn work named.entry bytes.now result.status
        (text_of result.text) }
{
    match tidy(alloc, bytes) {
        Ok(tidied) => reply_to_strict(alloc, work, named, bytes, &tidied),
        Err(_) => no_memory(),
    }
}
